//! Between which values each field lies where logs are lost.

ghost use Rattle.std.specs.Prelude.{◌≡◌, ℕ, ◌<◌, List, Option, IfOk, IfErr, length, map, is_none};
ghost use Rattle.std.specs.List.{AllByRecursion};
ghost use Rattle.kept_records.specs.declared.record.Record.{Record};
ghost use Rattle.kept_records.specs.Text.{IsRecord};
ghost use Rattle.world_logs.specs.Logs.{log_of, AreLawful};
ghost use Rattle.world_logs.specs.Lost.{known_of, known_records, AreRanges};
ghost use Rattle.world_logs.specs.LostFaults.{KnownWithin, TellsTooMuch, TellsKnownFault};
ghost use Rattle.world_logs.specs.LostBody.{StandForKnown, AreOfKnown, AreForKnown, AreForKnownLogs, IsFilled, AreFilled};

use crate::excess_search::first_excess;
use crate::fault::WorldFault;
use crate::field_state::FieldRange;
use crate::lost_sums::range_of;
use crate::standings::standings_of;
use field_bounds::{FieldNo, Schema, SiteNo};
use kept_records::Record;
use log_replay::Standing;
use std::alloc::{AllocError, Global};

/// Site by site, whether the log is lost.
fn lost_of<T>(alloc: Global, logs: &[Option<T>]) -> Result<Vec<bool>, AllocError>
    ensures { IfOk result (λ lost. lost.items ≡ map (λ log. is_none log) logs.now) }
{
    let mut lost = Vec::new(alloc);
    for log in logs {
        lost.push(log.is_none())?;
    }
    Ok(lost)
}

/// The ranges of all fields, or the first field that has no room.
fn ranges_of(
    alloc: Global,
    schema: &Schema,
    standings: &[Standing],
    lost: &[bool],
) -> Result<Vec<FieldRange>, WorldFault>
    requires of_known { AreOfKnown schema.now standings.now lost.now }
    ensures ranges { IfOk result (λ ranges. (known : List (Option (List Record)))
        → StandForKnown schema.now known standings.now lost.now
        → AreRanges schema.now known ranges.items) }
    ensures fault { IfErr result (λ fault. (known : List (Option (List Record)))
        → StandForKnown schema.now known standings.now lost.now
        → TellsTooMuch schema.now known fault) }
{
    let mut ranges = Vec::new(alloc);
    for number in 0..schema.fields() {
        let field = FieldNo(number);
        match range_of(schema, standings, lost, field) {
            Some(range) => ranges.push(range)?,
            None => return Err(WorldFault::TooMuch { field }),
        }
    }
    Ok(ranges)
}

/// The standing of a site, or that of no records where there is none.
fn or_none(
    alloc: Global,
    schema: &Schema,
    site: SiteNo,
    standing: Option<Standing>,
) -> Result<Standing, AllocError>
    requires site_in { site.0 < schema.now.sites }
    ensures { IfOk result (λ one. IsFilled schema.now site.0 standing one) }
{
    match standing {
        Some(standing) => Ok(standing),
        None => Standing::new(alloc, schema, site),
    }
}

/// The same of all sites.
fn filled(
    alloc: Global,
    schema: &Schema,
    standings: Vec<Option<Standing>>,
) -> Result<Vec<Standing>, AllocError>
    requires count { length standings.items ≡ schema.now.sites }
    ensures filled { IfOk result (λ all. AreFilled schema.now standings.items all.items) }
{
    // There are so few that a site's number fits.
    let _sites = schema.sites();
    let mut all = Vec::new(alloc);
    let mut number: u16 = 0;
    for standing in standings {
        all.push(or_none(alloc, schema, SiteNo(number), standing)?)?;
        number += 1;
    }
    Ok(all)
}

/// Tells, where the logs of some sites are lost, between which values each field's committed value
/// lies, field by field, by what the known logs stand for: for each site, in order, there is the
/// standing for its log, or None where that is lost. Of all known logs of which these are the
/// standings it says what `bound_world` says of them, where each is lawful. Of the faults
/// `AcceptedMore`, `TooMuch` and `NoMemory` are answered. Costs what `check_standings` costs, and
/// memory for a standing for each lost log.
pub fn bound_standings(
    alloc: Global,
    schema: &Schema,
    standings: Vec<Option<Standing>>,
) -> Result<Vec<FieldRange>, WorldFault>
    requires of_known { AreForKnownLogs schema.now standings.items }
    ensures count { IfOk result (λ ranges. length ranges.items ≡ length schema.now.fields) }
    ensures within { IfOk result (λ ranges. (known : List (Option (List Record)))
        → AreForKnown schema.now known standings.items → KnownWithin schema.now known) }
    ensures ranges { IfOk result (λ ranges. (known : List (Option (List Record)))
        → AreForKnown schema.now known standings.items
        → AreRanges schema.now known ranges.items) }
    ensures fault { IfErr result (λ fault. (known : List (Option (List Record)))
        → AreForKnown schema.now known standings.items
        → TellsKnownFault schema.now known fault) }
{
    let lost = lost_of(alloc, standings.as_slice())?;
    let filled = filled(alloc, schema, standings)?;
    let all = filled.as_slice();
    let lost = lost.as_slice();
    match first_excess(schema, all, lost) {
        Some(first) => Err(WorldFault::AcceptedMore(first)),
        None => ranges_of(alloc, schema, all, lost),
    }
}

/// Tells, where the logs of some sites are lost, between which values each field's committed value
/// lies, field by field: for each site, in order, there is its log, or None where it is lost.
///
/// Whatever the lost logs say, so that each log is lawful and no site has accepted more than it was
/// given: by the law `known_logs_bound_each_value` the value is at least the schema's floor and what
/// the known sites guard of rights to lower the field and have in flight among one another, and at
/// most its ceiling less the same to raise it. Where no log is lost, both are the value that
/// `check_world` answers.
///
/// It is answered exactly where each known log is lawful, no known site has accepted more from a
/// known one than that has given it, and what the known sites guard and have in flight on each field
/// is no more than the field is wide. `BreaksRule`, `AcceptedMore` and `TooMuch` name the first that
/// is not so, and `TooMuch` tells that no lost logs go with the known ones; `NoMemory` can come in
/// place of any answer. The records' numbers lie in the ranges that `Record` tells. It is the plain
/// form, as `check_world` is, beside `standings_or_fault` and `bound_standings`. Costs what
/// `check_world` costs.
pub fn bound_world(
    alloc: Global,
    schema: &Schema,
    logs: &[Option<Vec<Record>>],
) -> Result<Vec<FieldRange>, WorldFault>
    requires count { length logs.now ≡ schema.now.sites }
    requires in_range { (s : ℕ) → AllByRecursion IsRecord
        (log_of (known_records (known_of logs.now)) s) }
    ensures lawful { IfOk result (λ ranges. AreLawful schema.now
        (known_records (known_of logs.now))) }
    ensures within { IfOk result (λ ranges. KnownWithin schema.now (known_of logs.now)) }
    ensures ranges { IfOk result (λ ranges. AreRanges schema.now (known_of logs.now)
        ranges.items) }
    ensures fault { IfErr result (λ fault. TellsKnownFault schema.now (known_of logs.now) fault) }
{
    let standings = standings_of(alloc, schema, logs)?;
    let lost = lost_of(alloc, logs)?;
    let all = standings.as_slice();
    let lost = lost.as_slice();
    match first_excess(schema, all, lost) {
        Some(excess) => Err(WorldFault::AcceptedMore(excess)),
        None => ranges_of(alloc, schema, all, lost),
    }
}
