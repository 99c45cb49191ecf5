//! The first line of the records that a file holds.

ghost use Rattle.std.specs.Prelude.{IfOk};
ghost use Rattle.held_logs.specs.Behind.{IsFirst};

use kept_records::{LentRecords, RecordLine, Summary};
use std::alloc::{AllocError, Global};

/// What the first line is.
#[derive(Drop)]
pub(crate) enum FirstLine {
    /// A summary.
    Base(Summary),
    /// Another record.
    Other,
    /// No record, or there is no line.
    Missing,
}

/// Takes the first line where it is a summary, and tells what it is else.
pub(crate) fn first_line(alloc: Global, lines: &mut LentRecords) -> Result<FirstLine, AllocError>
    ensures first { IfOk result (λ first. IsFirst lines.old.left first lines.new.left) }
{
    match lines.next_line(alloc)? {
        RecordLine::Record(kept) => Ok(match kept.into_summary() {
            Some(base) => FirstLine::Base(base),
            None => FirstLine::Other,
        }),
        RecordLine::NoRecord | RecordLine::End => Ok(FirstLine::Missing),
    }
}
