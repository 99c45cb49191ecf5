//! What the records that a file holds come to.

ghost use Rattle.std.specs.Prelude.{◌<◌, IfOk, IfSome, IfNone};
ghost use Rattle.folder_logs.specs.First.{TellsFirst};
ghost use Rattle.held_logs.specs.Behind.{TellsBehind};

use crate::behind::replay_behind;
use field_bounds::{Schema, SiteNo};
use folder_logs::replay_records;
use log_head::Gone;
use log_replay::LogReplayed;
use std::alloc::{AllocError, Global};

/// What the records of a site come to of which this is gone. Where nothing is, it is what
/// `replay_records` answers (`whole`). Else the first line has to be a base: a summary in front of
/// which some lawful records may stand (`behind`). Nobody has those records, so what is told holds
/// behind each past that the base has: all records are lawful, and this is what they stand for; or
/// this line is the first that is no record, or breaks a rule. Lines are counted from the base's,
/// which is 1. Line 1 is told as `BadLine` where it is no record or there is none, and as `BreaksRule`
/// where it is a record and no base. The length of a standing is that of the records that are held,
/// in bytes. That a standing is for a lawful log is the law `held_standings_are_for_logs`.
///
/// The error is want of memory, which can come in place of any answer. Costs what `replay_records`
/// does; behind a base what `stand_on` does, and one pass: a step for each record and escrow, and a
/// pass over the standing for each summary.
///
/// Source: Balegas and others 2015 for the rights and the totals; this project for bases.
pub fn replay_held(
    alloc: Global,
    schema: &Schema,
    site: SiteNo,
    gone: &Option<Gone>,
    records: &[u8],
) -> Result<LogReplayed, AllocError>
    requires site_in { site.0 < schema.now.sites }
    ensures whole { IfNone gone.now (IfOk result (TellsFirst schema.now site.0 records.now)) }
    ensures behind { IfSome gone.now (λ _. IfOk result (TellsBehind schema.now site.0 records.now)) }
{
    match gone {
        Some(_) => replay_behind(alloc, schema, site, records),
        None => replay_records(alloc, schema, site, records),
    }
}
