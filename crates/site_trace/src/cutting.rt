//! Where a trace is cut back to a log.

ghost use Rattle.std.specs.Prelude.{◌<◌, IfSome, IfNone, length, map, reverse};
ghost use Rattle.kept_records.specs.Stands.{plain};
ghost use Rattle.site_trace.specs.Traces.{entries_of};
ghost use Rattle.site_trace.specs.Records.{records_left};
ghost use Rattle.site_trace.specs.Ends.{IsEnd};
ghost use Rattle.site_trace.specs.Keeping.{IsCutBehind};

use crate::reading::Trace;
use crate::records::{TellsEntry, leaves_record};
use kept_records::{Record, count_plain};

/// Where a trace is cut: the front that stays.
#[derive(Clone, Copy, Debug, PartialEq, Eq)]
pub struct TraceEnd {
    /// How many of the trace's entries stay.
    pub entries: usize,
    /// How many of its bytes stay, behind the name of its file.
    pub length: usize,
}

/// How many of the entries stay where they are cut back to a log with so many records, summaries left
/// out (`some`). None where all of them leave fewer (`none`). Costs a look at each entry, and for each
/// commit one at the entries since its transaction was begun; takes no memory.
pub(crate) fn count_kept<T: TellsEntry>(entries: &[T], kept: usize) -> Option<usize>
    ensures some { IfSome result (IsCutBehind (map T.told entries.now) kept) }
    ensures none { IfNone result (records_left (reverse (map T.told entries.now)) < kept) }
{
    let mut left = 0;
    for place in 0..entries.len() {
        if leaves_record(&entries[..place], entries[place].entry()) {
            if left == kept {
                return Some(place);
            }
            left += 1;
        }
    }
    if left < kept {
        return None;
    }
    Some(entries.len())
}

/// Where a trace is cut back to the log with these records: the end of the longest front of its whole
/// lines whose entries leave no more records than the log holds, summaries left out. They leave as
/// many (`some`). So the trace tells what the log's records came from, and what was answered behind
/// that without a record.
///
/// None where the entries of the whole trace leave fewer: then it isn't the trace of this log
/// (`none`). This is the plain form, over a list of the log's records: where they are only counted,
/// `trace_end_at` does, of which this is made. Costs a look at each entry, and for each commit one at
/// the entries since its transaction was begun; takes no memory.
pub fn trace_end(trace: &Trace, log: &[Record]) -> Option<TraceEnd>
    ensures some { IfSome result (IsEnd trace.now (length (plain log.now))) }
    ensures none { IfNone result (records_left (reverse (entries_of trace.now.entries.items))
        < length (plain log.now)) }
{
    trace_end_at(trace, count_plain(log))
}

/// Where a trace is cut back to a log with so many records, summaries left out: what `trace_end` tells
/// of such a log (`some`, `none`). Costs what that does, but for the count; takes no memory.
pub fn trace_end_at(trace: &Trace, kept: usize) -> Option<TraceEnd>
    ensures some { IfSome result (IsEnd trace.now kept) }
    ensures none { IfNone result (records_left (reverse (entries_of trace.now.entries.items))
        < kept) }
{
    let entries = trace.entries.as_slice();
    let count = count_kept(entries, kept)?;
    let length = match entries.get(count) {
        Some(next) => next.start,
        None => trace.length,
    };
    Some(TraceEnd {
        entries: count,
        length,
    })
}
