//! Why a file isn't opened as the log of a site.

ghost use Rattle.std.specs.Prelude.{◌≡◌};
ghost use Rattle.short_files.specs.declared.fault.ShortFault.TheVariants.{Device};
ghost use Rattle.short_files.specs.Short.{of_head, of_seal};

use file_medium::FileFailed;
use log_head::HeadFault;
use sealed_log::SealFault;
use thiserror::Error;

/// Why a file isn't opened as the log of a site.
#[derive(Clone, Copy, Debug, Drop, PartialEq, Eq, Error)]
pub enum ShortFault {
    /// It doesn't begin with the name of a log of the site, of any version.
    #[error("another log")]
    Other,
    /// It begins as a log of version 3 of the site does, and the rest of its head, or the head's sum,
    /// is another.
    #[error("a head that was changed")]
    Changed,
    /// It is the log of the site, of version 1, in no batches that sums close.
    #[error("a log of version 1")]
    Plain,
    /// Behind the head stands what was neither written so, nor left so by a stop.
    #[error("damaged from line {line} on")]
    Damaged {
        /// The line at which it begins, the first one behind the head being 1.
        line: u64,
    },
    /// The world was ended.
    #[error("ended")]
    Ended,
    /// A call of the file failed, or the file isn't any more what it was read to be.
    #[error("file fault")]
    Device,
    /// Memory is wanting.
    #[error("out of memory")]
    NoMemory,
}

impl From<FileFailed> for ShortFault {
    ghost from_gives = { λ _ fault. fault ≡ Device };

    fn from(_failed: FileFailed) -> ShortFault {
        ShortFault::Device
    }
}

impl From<HeadFault> for ShortFault {
    ghost from_gives = { λ head fault. fault ≡ of_head head };

    fn from(fault: HeadFault) -> ShortFault {
        match fault {
            HeadFault::Other => ShortFault::Other,
            HeadFault::Changed => ShortFault::Changed,
            HeadFault::NoMemory => ShortFault::NoMemory,
        }
    }
}

/// What is told of batches that aren't opened.
pub(crate) fn of_seal(fault: SealFault) -> ShortFault
    ensures { result ≡ of_seal fault }
{
    match fault {
        SealFault::Damaged { line } => ShortFault::Damaged { line },
        SealFault::Ended => ShortFault::Ended,
        SealFault::Device => ShortFault::Device,
        SealFault::NoMemory => ShortFault::NoMemory,
    }
}
