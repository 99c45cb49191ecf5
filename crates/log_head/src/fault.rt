//! Why bytes begin with no head of a site's log.

ghost use Rattle.std.specs.Prelude.{◌≡◌};
ghost use Rattle.log_head.specs.declared.fault.HeadFault.TheVariants.{NoMemory};

use std::alloc::AllocError;
use thiserror::Error;

/// Why bytes begin with no head of a site's log.
#[derive(Clone, Copy, Debug, Drop, PartialEq, Eq, Error)]
pub enum HeadFault {
    /// They don't begin with the name of a log of the site, of any version.
    #[error("another log")]
    Other,
    /// They begin with the lines of the site and of version 3, and what stands behind those isn't the
    /// rest of a head, or its sum is another.
    #[error("a head that was changed")]
    Changed,
    /// Memory is wanting.
    #[error("out of memory")]
    NoMemory,
}

impl From<AllocError> for HeadFault {
    ghost from_gives = { λ _ fault. fault ≡ NoMemory };

    fn from(_refused: AllocError) -> HeadFault {
        HeadFault::NoMemory
    }
}
