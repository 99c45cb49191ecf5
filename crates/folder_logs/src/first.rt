//! What the records of a log come to, where the first line or rule that is broken is told.

ghost use Rattle.std.specs.Prelude.{◌<◌, IfOk};
ghost use Rattle.kept_records.specs.Logs.{IsBadLine};
ghost use Rattle.folder_logs.specs.First.{TellsFirst};

use field_bounds::{Schema, SiteNo};
use kept_records::count_log;
use log_replay::{LogReplayed, replay_log};
use std::alloc::{AllocError, Global};

// What records come to of which this line is the first that is none: a rule may be broken in front of it.
fn first_fault(
    alloc: Global,
    schema: &Schema,
    site: SiteNo,
    records: &[u8],
    line: u64,
) -> Result<LogReplayed, AllocError>
    requires site_in { site.0 < schema.now.sites }
    requires bad { IsBadLine records.now line }
    ensures first { IfOk result (TellsFirst schema.now site.0 records.now) }
{
    let count = count_log(alloc, records)?;
    let good = count.length.min(records.len());
    match replay_log(alloc, schema, site, &records[..good])? {
        LogReplayed::BreaksRule { number } => Ok(LogReplayed::BreaksRule { number }),
        LogReplayed::Standing { .. } | LogReplayed::BadLine { .. } => Ok(LogReplayed::BadLine {
            number: count.bad_line.unwrap_or(line),
        }),
    }
}

/// What the records of a site come to: what they stand for; or the first line that is no record, where
/// those in front of it may stand behind one another; or the first record that may not stand behind
/// those before it, where each line in front of it is one. So of a broken rule and a line that is no
/// record the first is told, while `replay_log` tells the line.
///
/// The error is want of memory, which can come in place of any answer. Costs what `replay_log` costs,
/// and where a line is no record two passes more.
pub fn replay_records(
    alloc: Global,
    schema: &Schema,
    site: SiteNo,
    records: &[u8],
) -> Result<LogReplayed, AllocError>
    requires site_in { site.0 < schema.now.sites }
    ensures first { IfOk result (TellsFirst schema.now site.0 records.now) }
{
    match replay_log(alloc, schema, site, records)? {
        LogReplayed::BadLine { number } => first_fault(alloc, schema, site, records, number),
        replayed => Ok(replayed),
    }
}
