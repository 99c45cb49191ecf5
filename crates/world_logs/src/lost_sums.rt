//! Sums over the sites whose logs are known, and between which values a field lies by them.

ghost use Rattle.std.specs.Prelude.{◌≡◌, ◌+◌, ◌-◌, ◌^◌, ◌<◌, min, List, Option, IfSome, IfNone, length};
ghost use Rattle.field_bounds.specs.Parts.{sum_below, field_at, width_of};
ghost use Rattle.kept_records.specs.declared.record.Record.{Record};
ghost use Rattle.world_logs.specs.Lost.{known_log, guarded_by, flight_by, guarded_known, flight_known, known_rights, range_of, HasRoom};
ghost use Rattle.world_logs.specs.LostBody.{StandForKnown, AreOfKnown};

use crate::excess_search::is_lost;
use crate::field_state::FieldRange;
use crate::site_sum::sum_over;
use field_bounds::{FieldNo, Kind, Schema, SiteNo};
use log_replay::Standing;

/// What a site guards of a kind on a field: its own rights and those that it gave up, and nothing
/// where its log is lost.
fn guarded_by(
    schema: &Schema,
    standings: &[Standing],
    lost: &[bool],
    site: SiteNo,
    field: FieldNo,
    kind: Kind,
) -> u64
    requires of_known { AreOfKnown schema.now standings.now lost.now }
    requires site_in { site.0 < schema.now.sites }
    requires field_in { field.0 < length schema.now.fields }
    ensures value { (known : List (Option (List Record)))
        → StandForKnown schema.now known standings.now lost.now
        → result ≡ guarded_by schema.now site.0 (known_log known site.0) field.0 kind }
{
    if is_lost(lost, site) {
        return 0;
    }
    standings[usize::from(site.0)].rights.guarded(field, kind)
}

/// What the known sites guard of a kind on a field, or the greatest `u64` where that is more.
pub(crate) fn guarded_known(
    schema: &Schema,
    standings: &[Standing],
    lost: &[bool],
    field: FieldNo,
    kind: Kind,
) -> u64
    requires of_known { AreOfKnown schema.now standings.now lost.now }
    requires field_in { field.0 < length schema.now.fields }
    ensures value { (known : List (Option (List Record)))
        → StandForKnown schema.now known standings.now lost.now
        → result ≡ min (guarded_known schema.now known field.0 kind) (2 ^ 64 - 1) }
{
    sum_over(schema.sites(), |site| {
        guarded_by(schema, standings, lost, site, field, kind)
    })
}

/// The rights in flight from one site to another, and none to itself, or where a log is lost.
fn flight_by(
    schema: &Schema,
    standings: &[Standing],
    lost: &[bool],
    from: SiteNo,
    to: SiteNo,
    field: FieldNo,
    kind: Kind,
) -> u64
    requires of_known { AreOfKnown schema.now standings.now lost.now }
    requires from_in { from.0 < schema.now.sites }
    requires to_in { to.0 < schema.now.sites }
    requires field_in { field.0 < length schema.now.fields }
    ensures value { (known : List (Option (List Record)))
        → StandForKnown schema.now known standings.now lost.now
        → result ≡ flight_by (known_log known from.0) (known_log known to.0)
        from.0 to.0 field.0 kind }
{
    if from.0 == to.0 || is_lost(lost, from) || is_lost(lost, to) {
        return 0;
    }
    let given = standings[usize::from(from.0)].ledger.total(to, field, kind);
    let accepted = standings[usize::from(to.0)]
        .ledger
        .accepted(from, field, kind);
    given.saturating_sub(accepted)
}

/// The rights in flight from one site to all others, or the greatest `u64` where there are more.
fn flight_by_site(
    schema: &Schema,
    standings: &[Standing],
    lost: &[bool],
    from: SiteNo,
    field: FieldNo,
    kind: Kind,
) -> u64
    requires of_known { AreOfKnown schema.now standings.now lost.now }
    requires from_in { from.0 < schema.now.sites }
    requires field_in { field.0 < length schema.now.fields }
    ensures value { (known : List (Option (List Record)))
        → StandForKnown schema.now known standings.now lost.now
        → result ≡ min (sum_below schema.now.sites (λ to. flight_by (known_log known from.0)
        (known_log known to) from.0 to field.0 kind)) (2 ^ 64 - 1) }
{
    sum_over(schema.sites(), |to| {
        flight_by(schema, standings, lost, from, to, field, kind)
    })
}

/// The rights in flight of a kind on a field between known sites, or the greatest `u64` where there
/// are more.
fn flight_known(
    schema: &Schema,
    standings: &[Standing],
    lost: &[bool],
    field: FieldNo,
    kind: Kind,
) -> u64
    requires of_known { AreOfKnown schema.now standings.now lost.now }
    requires field_in { field.0 < length schema.now.fields }
    ensures value { (known : List (Option (List Record)))
        → StandForKnown schema.now known standings.now lost.now
        → result ≡ min (flight_known schema.now known field.0 kind) (2 ^ 64 - 1) }
{
    sum_over(schema.sites(), |from| {
        flight_by_site(schema, standings, lost, from, field, kind)
    })
}

/// What the known sites guard and have in flight of a kind on a field, or the greatest `u64` where
/// that is more.
pub(crate) fn rights_known(
    schema: &Schema,
    standings: &[Standing],
    lost: &[bool],
    field: FieldNo,
    kind: Kind,
) -> u64
    requires of_known { AreOfKnown schema.now standings.now lost.now }
    requires field_in { field.0 < length schema.now.fields }
    ensures value { (known : List (Option (List Record)))
        → StandForKnown schema.now known standings.now lost.now
        → result ≡ min (guarded_known schema.now known field.0 kind
        + flight_known schema.now known field.0 kind) (2 ^ 64 - 1) }
{
    let guarded = guarded_known(schema, standings, lost, field, kind);
    let flight = flight_known(schema, standings, lost, field, kind);
    guarded.saturating_add(flight)
}

/// Between which values a field lies, or None where the known sites guard and have in flight more
/// than it is wide.
pub(crate) fn range_of(
    schema: &Schema,
    standings: &[Standing],
    lost: &[bool],
    field: FieldNo,
) -> Option<FieldRange>
    requires of_known { AreOfKnown schema.now standings.now lost.now }
    requires field_in { field.0 < length schema.now.fields }
    ensures range { IfSome result (λ range. (known : List (Option (List Record)))
        → StandForKnown schema.now known standings.now lost.now
        → range ≡ range_of schema.now known field.0) }
    ensures room { IfSome result (λ range. (known : List (Option (List Record)))
        → StandForKnown schema.now known standings.now lost.now
        → HasRoom schema.now known field.0) }
    ensures none { IfNone result ((known : List (Option (List Record)))
        → StandForKnown schema.now known standings.now lost.now
        → width_of (field_at schema.now field.0) < known_rights schema.now known field.0) }
{
    let (floor, ceiling, _) = schema.bounds(field);
    let width = ceiling.abs_diff(floor);
    let lower = rights_known(schema, standings, lost, field, Kind::Lower);
    let raise = rights_known(schema, standings, lost, field, Kind::Raise);
    if lower > width || raise > width - lower {
        return None;
    }
    Some(FieldRange {
        least: floor + lower as i64,
        greatest: ceiling - raise as i64,
    })
}
