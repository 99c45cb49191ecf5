//! One line of a trace.

ghost use Rattle.site_trace.specs.Reading.{IsLineRead};

use crate::remark::is_remark;
use entry_text::read_entry;
use field_bounds::{Entry, Schema};

/// What a line of a trace is.
#[derive(Clone, Copy)]
pub(crate) enum TraceLine {
    /// The text of this entry.
    Entry(Entry),
    /// An answer that is no entry.
    Remark,
    /// Neither.
    Bad,
}

/// What the line is.
pub(crate) fn read_line(schema: &Schema, line: &[u8]) -> TraceLine
    ensures { IsLineRead schema.now line.now result }
{
    match read_entry(schema, line) {
        Some(entry) => TraceLine::Entry(entry),
        None => {
            if is_remark(line) {
                TraceLine::Remark
            } else {
                TraceLine::Bad
            }
        }
    }
}
