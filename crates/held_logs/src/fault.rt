//! Why the bytes of a file are no log of a site.

ghost use Rattle.std.specs.Prelude.{◌≡◌};
ghost use Rattle.held_logs.specs.declared.fault.HeldFault.TheVariants.{NoMemory};
ghost use Rattle.held_logs.specs.Held.{of_head};

use log_head::HeadFault;
use std::alloc::AllocError;
use thiserror::Error;

/// Why the bytes of a file are no log of a site.
#[derive(Clone, Copy, Debug, Drop, PartialEq, Eq, Error)]
pub enum HeldFault {
    /// They don't begin with the name of a log of the site, of any version.
    #[error("another log")]
    Other,
    /// They begin with the first three lines of its log of version 3, and what stands behind those
    /// isn't the rest of a head, or its sum is another.
    #[error("a head that was changed")]
    Changed,
    /// They begin with the head of its log of version 2 or 3, and a batch behind it is damaged.
    #[error("damaged from line {line} on")]
    Damaged {
        /// The line of the file at which the batch begins, the file's first one being 1.
        line: u64,
    },
    /// Memory is wanting.
    #[error("out of memory")]
    NoMemory,
}

impl From<AllocError> for HeldFault {
    ghost from_gives = { λ _ fault. fault ≡ NoMemory };

    fn from(_refused: AllocError) -> HeldFault {
        HeldFault::NoMemory
    }
}

impl From<HeadFault> for HeldFault {
    ghost from_gives = { λ head fault. fault ≡ of_head head };

    fn from(fault: HeadFault) -> HeldFault {
        match fault {
            HeadFault::Other => HeldFault::Other,
            HeadFault::Changed => HeldFault::Changed,
            HeadFault::NoMemory => HeldFault::NoMemory,
        }
    }
}
