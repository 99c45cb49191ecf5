//! The entries of a trace.

ghost use Rattle.std.specs.Prelude.{OnOk, IfOk, IfErr};
ghost use Rattle.site_trace.specs.Traces.{IsTrace, TellsFault};
ghost use Rattle.site_trace.specs.Reading.{Adds, TellsOtherLine};

use crate::fault::TraceFault;
use crate::line::{TraceLine, read_line};
use crate::split::split_at_first;
use field_bounds::{Entry, Schema};
use std::alloc::Global;

/// An entry of a trace, and where its line begins: behind so many bytes.
#[derive(Clone, Copy, Debug)]
pub struct TracedEntry {
    pub entry: Entry,
    pub start: usize,
}

/// What a trace holds.
#[derive(Drop)]
pub struct Trace {
    /// The entries of its whole lines, in order.
    pub entries: Vec<TracedEntry>,
    /// The length of its whole lines, in bytes, the line feed of each included.
    pub length: usize,
}

// Adds the entry of the line of this number, which begins behind so many bytes, unless the line is a
// remark. The fault is that it is neither, or want of memory.
fn add_line(
    entries: &mut Vec<TracedEntry>,
    schema: &Schema,
    line: &[u8],
    start: usize,
    number: u64,
) -> Result<(), TraceFault>
    ensures ok { OnOk result (Adds schema.now line.now start entries.old.items
        entries.new.items) }
    ensures err { IfErr result (TellsOtherLine schema.now line.now number) }
{
    match read_line(schema, line) {
        TraceLine::Entry(entry) => Ok(entries.push(TracedEntry { entry, start })?),
        TraceLine::Remark => Ok(()),
        TraceLine::Bad => Err(TraceFault::Line(number)),
    }
}

/// The entries of a trace's whole lines, in order, each with the place at which its line begins. The
/// trace is given without the name with which its file begins. Lines that are no entries, and tell
/// whether a commit is in the log or that a line asked nothing, are passed over; what stands behind
/// the last line feed is left out.
///
/// The fault `Line` tells the first line that is neither, counted from 1. The other is want of
/// memory. Costs a pass over the bytes, and memory for the entries.
pub fn read_trace(alloc: Global, schema: &Schema, bytes: &[u8]) -> Result<Trace, TraceFault>
    ensures ok { IfOk result (IsTrace schema.now bytes.now) }
    ensures err { IfErr result (TellsFault schema.now bytes.now) }
{
    let mut entries = Vec::new(alloc);
    let mut length = 0;
    let mut number = 0;
    let mut rest = bytes;
    while let Some((line, behind)) = split_at_first(rest, b'\n') {
        number += 1;
        add_line(&mut entries, schema, line, length, number)?;
        length += line.len() + 1;
        rest = behind;
    }
    Ok(Trace { entries, length })
}
