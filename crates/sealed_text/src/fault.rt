//! Why a text isn't unsealed.

ghost use Rattle.std.specs.Prelude.{◌≡◌};
ghost use Rattle.sealed_text.specs.declared.fault.TextFault.TheVariants.{NoMemory};

use std::alloc::AllocError;
use thiserror::Error;

/// Why a text isn't unsealed.
#[derive(Clone, Copy, Debug, Drop, PartialEq, Eq, Error)]
pub enum TextFault {
    /// What stands behind the closed batches was neither written so, nor left so by a stop.
    #[error("damaged from line {line} on")]
    Damaged {
        /// The line at which it begins, the first one of the text being 1.
        line: u64,
    },
    /// Memory is wanting.
    #[error("out of memory")]
    NoMemory,
}

impl From<AllocError> for TextFault {
    ghost from_gives = { λ _ fault. fault ≡ NoMemory };

    fn from(_refused: AllocError) -> TextFault {
        TextFault::NoMemory
    }
}
