//! Why a call on a text ended without its answer.

ghost use Rattle.std.specs.Prelude.{◌≡◌, ◌<◌, length, OnOk, OnErr, IfErr};
ghost use Rattle.std.specs.Io.KnownBytes.{Appends};
ghost use Rattle.script_input.specs.Faults.{CountsWrites};
ghost use Rattle.script_input.specs.Streams.{HasRefused, AppendsPrefix};

use crate::streams::{CallFailed, Sink};
use field_bounds::SchemaFault;
use std::alloc::AllocError;
use thiserror::Error;
use work_faults::WorkFault;

/// Why a call that reads a text ended without its answer: a run of a script, an audit, or a work of
/// all sites. Each displays as the text that a program tells it by. `BadLine`, `Work`, `Stuck` and
/// `Illegal` are a work's alone.
#[derive(Clone, Copy, Debug, Drop, PartialEq, Eq, Error)]
pub enum ScriptFault {
    /// The reader answered an error.
    #[error("read fault")]
    Read,
    /// A byte follows the 1,000,000th line, the header line included, or the 268,435,456th byte.
    #[error("input too long")]
    TooLong,
    /// The writer answered an error, or took none of the bytes.
    #[error("write fault")]
    Write,
    /// The header line tells no schema that can be run. Want of memory is never told so.
    #[error("header {0}")]
    Header(SchemaFault),
    /// This line, counted from 1 with the header, is the first that is no plain command: a command
    /// other than an accept, at a site of the schema, without a luck.
    #[error("bad line {0}")]
    BadLine(u64),
    /// The workers didn't come to an end. Want of memory is never told so.
    #[error("work fault")]
    Work(WorkFault),
    /// No trace weaves the histories that the workers made.
    #[error("stuck")]
    Stuck,
    /// The trace isn't legal. It never comes.
    #[error("illegal")]
    Illegal,
    /// Memory was refused.
    #[error("out of memory")]
    NoMemory,
}

impl From<AllocError> for ScriptFault {
    ghost use Rattle.script_input.specs.declared.fault.ScriptFault.TheVariants.{NoMemory};

    ghost from_gives = { λ _ fault. fault ≡ NoMemory };

    fn from(_refused: AllocError) -> ScriptFault {
        ScriptFault::NoMemory
    }
}

impl From<SchemaFault> for ScriptFault {
    ghost use Rattle.script_input.specs.Faults.{header_fault};

    ghost from_gives = { λ told fault. fault ≡ header_fault told };

    fn from(fault: SchemaFault) -> ScriptFault {
        match fault {
            SchemaFault::NoMemory => ScriptFault::NoMemory,
            other => ScriptFault::Header(other),
        }
    }
}

/// Writes the bytes, in as many writes as it takes. The fault is a write fault: a write was refused,
/// which isn't tried again; then a front of the bytes was written. Costs no memory.
pub fn write_out<W: Sink>(writer: &mut W, bytes: &[u8]) -> Result<(), ScriptFault>
    ensures ok { OnOk result (Appends (W.bytes writer.old) (W.bytes writer.new) bytes.now) }
    ensures front { OnErr result (AppendsPrefix (W.bytes writer.old) (W.bytes writer.new)
        bytes.now) }
    ensures some { OnErr result (0 < length bytes.now) }
    ensures fault { IfErr result (λ fault. fault ≡ ScriptFault.Write) }
    ensures refused { OnErr result (HasRefused (W.last writer.new)) }
    ensures writes { CountsWrites result (W.refusals writer.old) (W.refusals writer.new) }
{
    match writer.write_all(bytes) {
        Ok(()) => Ok(()),
        Err(CallFailed) => Err(ScriptFault::Write),
    }
}
