//! Why a site is served no more.

ghost use Rattle.std.specs.Prelude.{◌≡◌};

use kept_records::Device as DeviceFailed;
use std::alloc::AllocError;
use thiserror::Error;

/// Why a release, or the serving of an input, ended.
#[derive(Clone, Copy, Debug, Drop, PartialEq, Eq, Error)]
pub enum ServeFault {
    /// The reader answered an error.
    #[error("read fault")]
    Read,
    /// The writer answered an error, or took none of the bytes.
    #[error("write fault")]
    Write,
    /// A call of the log's file failed, in this call or before.
    #[error("device fault")]
    Device,
    /// 2^64 - 1 reads were made, which no run does.
    #[error("input too long")]
    TooLong,
    /// Memory was refused.
    #[error("out of memory")]
    NoMemory,
}

impl From<AllocError> for ServeFault {
    ghost use Rattle.site_service.specs.declared.fault.ServeFault.TheVariants.{NoMemory};

    ghost from_gives = { λ _ fault. fault ≡ NoMemory };

    fn from(_refused: AllocError) -> ServeFault {
        ServeFault::NoMemory
    }
}

impl From<DeviceFailed> for ServeFault {
    ghost use Rattle.site_service.specs.declared.fault.ServeFault.TheVariants.{Device};

    ghost from_gives = { λ _ fault. fault ≡ Device };

    fn from(_failed: DeviceFailed) -> ServeFault {
        ServeFault::Device
    }
}
