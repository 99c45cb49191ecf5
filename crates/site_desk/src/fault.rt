//! Why a call of a desk wasn't served.

ghost use Rattle.std.specs.Prelude.{◌≡◌};
ghost use Rattle.site_desk.specs.declared.fault.DeskFault.TheVariants.{NoMemory};

use std::alloc::AllocError;
use thiserror::Error;

/// Why a call wasn't served. Neither the site nor the pass has changed.
#[derive(Clone, Copy, Debug, PartialEq, Eq, Error)]
pub enum DeskFault {
    /// Memory is wanting.
    #[error("out of memory")]
    NoMemory,
    /// The history found under the lock has this length, in entries, which is below the number of
    /// the last entry that the pass has seen.
    #[error("the history went back to {length} entries")]
    WentBack { length: u64 },
    /// The gate didn't let the call in.
    #[error("the gate turned the call away")]
    GateTurns,
}

impl From<AllocError> for DeskFault {
    ghost from_gives = { λ _ e. e ≡ NoMemory };

    fn from(_refused: AllocError) -> DeskFault {
        DeskFault::NoMemory
    }
}
