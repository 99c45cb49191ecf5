//! The first of what was accepted and never given.

ghost use Rattle.std.specs.Prelude.{◌≡◌, ◌≢◌, ℕ, ◌<◌, List, IfSome, IfNone, length};
ghost use Rattle.field_bounds.specs.declared.kind.Kind.{Kind};
ghost use Rattle.kept_records.specs.declared.record.Record.{Record};
ghost use Rattle.world_logs.specs.Logs.{IsPair};
ghost use Rattle.world_logs.specs.Faults.{IsGiven, IsFirstExcess};
ghost use Rattle.world_logs.specs.Body.{StandFor, AreOfLogs, IsAt, IsFirstOn, IsFirstBetween, is_lost, IsKnownPair, IsFirstAt};

use crate::fault::Excess;
use field_bounds::{FieldNo, Kind, Schema, SiteNo};
use log_replay::Standing;

/// What was accepted between two sites, of a kind on a field, where it is more than was given.
fn excess_at(
    schema: &Schema,
    standings: &[Standing],
    from: SiteNo,
    to: SiteNo,
    field: FieldNo,
    kind: Kind,
) -> Option<Excess>
    requires of_logs { AreOfLogs schema.now standings.now }
    requires pair { IsPair schema.now from.0 to.0 field.0 }
    ensures none { IfNone result ((logs : List (List Record)) → StandFor schema.now logs standings.now
        → IsGiven logs from.0 to.0 field.0 kind) }
    ensures some { IfSome result (λ e. (logs : List (List Record))
        → StandFor schema.now logs standings.now → IsAt logs from.0 to.0 field.0 kind e) }
{
    let given = standings[usize::from(from.0)].ledger.total(to, field, kind);
    let accepted = standings[usize::from(to.0)]
        .ledger
        .accepted(from, field, kind);
    if accepted <= given {
        return None;
    }
    Some(Excess {
        from,
        to,
        field,
        kind,
        given,
        accepted,
    })
}

/// The first excess between two sites on a field: of lowering rights before raising ones.
fn first_on(
    schema: &Schema,
    standings: &[Standing],
    from: SiteNo,
    to: SiteNo,
    field: FieldNo,
) -> Option<Excess>
    requires of_logs { AreOfLogs schema.now standings.now }
    requires pair { IsPair schema.now from.0 to.0 field.0 }
    ensures none { IfNone result ((logs : List (List Record)) → StandFor schema.now logs standings.now
        → (k : Kind) → IsGiven logs from.0 to.0 field.0 k) }
    ensures some { IfSome result (λ e. (logs : List (List Record))
        → StandFor schema.now logs standings.now → IsFirstOn logs from.0 to.0 field.0 e) }
{
    if let Some(excess) = excess_at(schema, standings, from, to, field, Kind::Lower) {
        return Some(excess);
    }
    excess_at(schema, standings, from, to, field, Kind::Raise)
}

/// The first excess between two sites: on the lowest field.
fn first_between(
    schema: &Schema,
    standings: &[Standing],
    from: SiteNo,
    to: SiteNo,
) -> Option<Excess>
    requires of_logs { AreOfLogs schema.now standings.now }
    requires from_in { from.0 < schema.now.sites }
    requires to_in { to.0 < schema.now.sites }
    requires apart { from.0 ≢ to.0 }
    ensures none { IfNone result ((logs : List (List Record)) → StandFor schema.now logs standings.now
        → (f : ℕ) (k : Kind) → f < length schema.now.fields → IsGiven logs from.0 to.0 f k) }
    ensures some { IfSome result (λ e. (logs : List (List Record))
        → StandFor schema.now logs standings.now → IsFirstBetween schema.now logs from.0 to.0 e) }
{
    for number in 0..schema.fields() {
        if let Some(excess) = first_on(schema, standings, from, to, FieldNo(number)) {
            return Some(excess);
        }
    }
    None
}

/// Whether the log of a site is lost: none is that isn't told so.
pub(crate) fn is_lost(lost: &[bool], site: SiteNo) -> bool
    ensures { result ≡ is_lost lost.now site.0 }
{
    match lost.get(usize::from(site.0)) {
        Some(is_lost) => *is_lost,
        None => false,
    }
}

/// The first excess at a site that accepted: from the lowest site whose log isn't lost.
fn first_at(schema: &Schema, standings: &[Standing], lost: &[bool], to: SiteNo) -> Option<Excess>
    requires of_logs { AreOfLogs schema.now standings.now }
    requires to_in { to.0 < schema.now.sites }
    ensures none { IfNone result ((logs : List (List Record)) → StandFor schema.now logs standings.now
        → (from f : ℕ) (k : Kind) → IsKnownPair schema.now lost.now from to.0 f
        → IsGiven logs from to.0 f k) }
    ensures some { IfSome result (λ e. (logs : List (List Record))
        → StandFor schema.now logs standings.now → IsFirstAt schema.now lost.now logs to.0 e) }
{
    for number in 0..schema.sites() {
        let from = SiteNo(number);
        if number != to.0 && !is_lost(lost, from) {
            if let Some(excess) = first_between(schema, standings, from, to) {
                return Some(excess);
            }
        }
    }
    None
}

/// The first excess of all between sites whose logs aren't lost: at the lowest site that accepted.
pub(crate) fn first_excess(schema: &Schema, standings: &[Standing], lost: &[bool]) -> Option<Excess>
    requires of_logs { AreOfLogs schema.now standings.now }
    ensures none { IfNone result ((logs : List (List Record)) → StandFor schema.now logs standings.now
        → (from to f : ℕ) (k : Kind) → IsKnownPair schema.now lost.now from to f
        → IsGiven logs from to f k) }
    ensures some { IfSome result (λ e. (logs : List (List Record))
        → StandFor schema.now logs standings.now
        → IsFirstExcess (IsKnownPair schema.now lost.now) logs e) }
{
    for number in 0..schema.sites() {
        let to = SiteNo(number);
        if !is_lost(lost, to) {
            if let Some(excess) = first_at(schema, standings, lost, to) {
                return Some(excess);
            }
        }
    }
    None
}
