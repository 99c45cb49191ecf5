//! Why bytes are no log of a site.

ghost use Rattle.std.specs.Prelude.{◌≡◌};
ghost use Rattle.folder_logs.specs.declared.fault.LogFault.TheVariants.{NoMemory};
ghost use Rattle.folder_logs.specs.Files.{fault_of};

use sealed_text::TextFault;
use std::alloc::AllocError;
use thiserror::Error;

/// Why the bytes of a file are no log of a site.
#[derive(Clone, Copy, Debug, Drop, PartialEq, Eq, Error)]
pub enum LogFault {
    /// They don't begin with the name of a log of the site, of either version.
    #[error("another log")]
    Other,
    /// They begin with the name of its log of version 2, and a batch behind it is damaged.
    #[error("damaged from line {line} behind the name on")]
    Damaged {
        /// The line at which the batch begins, the first one behind the name being 1.
        line: u64,
    },
    /// Memory is wanting.
    #[error("out of memory")]
    NoMemory,
}

impl From<AllocError> for LogFault {
    ghost from_gives = { λ _ fault. fault ≡ NoMemory };

    fn from(_refused: AllocError) -> LogFault {
        LogFault::NoMemory
    }
}

impl From<TextFault> for LogFault {
    ghost from_gives = { λ refused fault. fault ≡ fault_of refused };

    fn from(refused: TextFault) -> LogFault {
        match refused {
            TextFault::Damaged { line } => LogFault::Damaged { line },
            TextFault::NoMemory => LogFault::NoMemory,
        }
    }
}
