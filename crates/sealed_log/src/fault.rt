//! Why a file isn't opened as a log of closed batches.

ghost use Rattle.std.specs.Prelude.{◌≡◌};
ghost use Rattle.sealed_log.specs.declared.fault.SealFault.TheVariants.{Device};

use file_medium::FileFailed;
use thiserror::Error;

/// Why a file isn't opened as a log of closed batches.
#[derive(Clone, Copy, Debug, Drop, PartialEq, Eq, Error)]
pub enum SealFault {
    /// The file holds what was neither written so, nor left so by a stop.
    #[error("damaged from line {line} on")]
    Damaged {
        /// The line at which it begins, the first one of the file being 1.
        line: u64,
    },
    /// The world was ended.
    #[error("ended")]
    Ended,
    /// A call of the file failed.
    #[error("file fault")]
    Device,
    /// Memory is wanting.
    #[error("out of memory")]
    NoMemory,
}

impl From<FileFailed> for SealFault {
    ghost from_gives = { λ _ fault. fault ≡ Device };

    fn from(_failed: FileFailed) -> SealFault {
        SealFault::Device
    }
}
