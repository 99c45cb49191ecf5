//! The entries of a trace that stay where it is cut back to a log.

ghost use Rattle.std.specs.Prelude.{OnOk, IfOk, IfErr, IfSome, IfNone};
ghost use Rattle.site_trace.specs.Traces.{TellsFault};
ghost use Rattle.site_trace.specs.Reading.{TellsOtherLine};
ghost use Rattle.site_trace.specs.Kept.{AreKept, LeaveFewer};
ghost use Rattle.site_trace.specs.Keeping.{AddsEntry, HoldEntries};

use crate::cutting::count_kept;
use crate::fault::TraceFault;
use crate::line::{TraceLine, read_line};
use crate::split::split_at_first;
use field_bounds::{Entry, Schema};
use std::alloc::Global;

// Adds the entry of the line of this number, unless the line is a remark. The fault is that it is
// neither, or want of memory.
fn add_entry(
    entries: &mut Vec<Entry>,
    schema: &Schema,
    line: &[u8],
    number: u64,
) -> Result<(), TraceFault>
    ensures ok { OnOk result (AddsEntry schema.now line.now entries.old.items
        entries.new.items) }
    ensures err { IfErr result (TellsOtherLine schema.now line.now number) }
{
    match read_line(schema, line) {
        TraceLine::Entry(entry) => Ok(entries.push(entry)?),
        TraceLine::Remark => Ok(()),
        TraceLine::Bad => Err(TraceFault::Line(number)),
    }
}

// The entries of the trace's whole lines, in order. The faults are those of `read_trace`.
fn read_entries(alloc: Global, schema: &Schema, bytes: &[u8]) -> Result<Vec<Entry>, TraceFault>
    ensures ok { IfOk result (λ entries. HoldEntries schema.now bytes.now entries.items) }
    ensures err { IfErr result (TellsFault schema.now bytes.now) }
{
    let mut entries = Vec::new(alloc);
    let mut number = 0;
    let mut rest = bytes;
    while let Some((line, behind)) = split_at_first(rest, b'\n') {
        number += 1;
        add_entry(&mut entries, schema, line, number)?;
        rest = behind;
    }
    Ok(entries)
}

/// The entries that stay where a trace is cut back to a log with so many records, summaries left out:
/// the first of those that `read_trace` gives, as many as `trace_end_at` tells, without where their
/// lines begin (`some`). None where the entries of the whole trace leave fewer records (`none`).
///
/// The faults are those of `read_trace`: a line behind the cut is read, too. Costs a pass over the
/// bytes, and then what `trace_end_at` does: a look at each entry, and for each commit one at the
/// entries since its transaction was begun. Takes memory for the entries of all whole lines, not only
/// for those that stay: 56 bytes each, in room that doubles and that the result keeps.
pub fn kept_entries(
    alloc: Global,
    schema: &Schema,
    bytes: &[u8],
    kept: usize,
) -> Result<Option<Vec<Entry>>, TraceFault>
    ensures some { IfOk result (λ told. IfSome told (λ entries. AreKept schema.now bytes.now kept
        entries.items)) }
    ensures none { IfOk result (λ told. IfNone told (LeaveFewer schema.now bytes.now kept)) }
    ensures err { IfErr result (TellsFault schema.now bytes.now) }
{
    // All lines are read before a commit is looked at, since that may take a look at every entry in
    // front of it: bytes that are no trace are refused by the pass over them alone.
    let mut entries = read_entries(alloc, schema, bytes)?;
    let Some(count) = count_kept(entries.as_slice(), kept) else {
        return Ok(None);
    };
    entries.truncate(count);
    Ok(Some(entries))
}
