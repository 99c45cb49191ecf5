//! Why a trace wasn't read.

ghost use Rattle.std.specs.Prelude.{◌≡◌};
ghost use Rattle.site_trace.specs.declared.fault.TraceFault.TheVariants.{NoMemory};

use std::alloc::{AllocError, AllocFailed};
use thiserror::Error;

/// Why a trace wasn't read.
#[derive(Clone, Copy, Debug, PartialEq, Eq, Error)]
pub enum TraceFault {
    /// This line, counted from 1, is the first that is neither an entry nor a remark.
    #[error("line {0} is no entry")]
    Line(u64),
    /// Memory is wanting.
    #[error("out of memory")]
    NoMemory,
}

impl<T: Drop> From<AllocFailed<T>> for TraceFault {
    ghost use Rattle.std.specs.Prelude.{◌≡◌};
    ghost use Rattle.site_trace.specs.declared.fault.TraceFault.TheVariants.{NoMemory};

    ghost from_gives = { λ _ e. e ≡ NoMemory };

    fn from(_refused: AllocFailed<T>) -> TraceFault {
        TraceFault::NoMemory
    }
}
