//! Why the entries of a trace aren't told to their end.

ghost use Rattle.std.specs.Prelude.{◌≡◌};
ghost use Rattle.trace_windows.specs.declared.fault.WindowFault.TheVariants.{NoMemory};
ghost use Rattle.trace_windows.specs.Texts.{fault_of};

use site_trace::TraceFault;
use std::alloc::AllocError;
use thiserror::Error;

/// Why the entries of a trace aren't told to their end.
#[derive(Clone, Copy, Debug, PartialEq, Eq, Error)]
pub enum WindowFault {
    /// A read of the file failed.
    #[error("a read failed")]
    Read,
    /// A line is neither an entry nor a remark.
    #[error("a line is no entry")]
    Line,
    /// The file has fewer entries than those that count.
    #[error("the trace ends too early")]
    Behind,
    /// Memory is wanting.
    #[error("out of memory")]
    NoMemory,
}

impl From<AllocError> for WindowFault {
    ghost from_gives = { λ _ fault. fault ≡ NoMemory };

    fn from(_refused: AllocError) -> WindowFault {
        WindowFault::NoMemory
    }
}

// Why a piece of a trace isn't read.
pub(crate) fn fault_of(fault: TraceFault) -> WindowFault
    ensures { result ≡ fault_of fault }
{
    match fault {
        TraceFault::Line(_) => WindowFault::Line,
        TraceFault::NoMemory => WindowFault::NoMemory,
    }
}
