//! Where a field stands, by sums over all sites.

ghost use Rattle.std.specs.Prelude.{◌≡◌, ◌<◌, ◌≤◌, pos, neg_ℤ, ◌+ℤ◌, ◌-ℤ◌, ◌≤ℤ◌, List, length};
ghost use Rattle.field_bounds.specs.Limits.{max_quantity, IsSchema};
ghost use Rattle.field_bounds.specs.Owed.{max_change};
ghost use Rattle.kept_records.specs.declared.record.Record.{Record};
ghost use Rattle.kept_records.specs.Stands.{cut_in};
ghost use Rattle.world_logs.specs.Logs.{log_of, all_cuts};
ghost use Rattle.world_logs.specs.States.{state_of};
ghost use Rattle.world_logs.specs.Body.{StandFor, AddUp, AreOfLogs, AreOfWorld};

use crate::field_state::FieldState;
use crate::lost_sums::rights_known;
use crate::site_sum::sum_over;
use field_bounds::{FieldNo, Kind, Schema, SiteNo};
use log_replay::Standing;

/// What a site has given up for good, of a kind on a field.
fn cut_by(schema: &Schema, standings: &[Standing], site: SiteNo, field: FieldNo, kind: Kind) -> u64
    requires of_logs { AreOfLogs schema.now standings.now }
    requires site_in { site.0 < schema.now.sites }
    requires field_in { field.0 < length schema.now.fields }
    ensures value { (logs : List (List Record)) → StandFor schema.now logs standings.now
        → result ≡ cut_in (log_of logs site.0) field.0 kind }
{
    standings[usize::from(site.0)].rights.tightened(field, kind)
}

/// What all sites have given up for good, of a kind on a field.
fn all_cuts(schema: &Schema, standings: &[Standing], field: FieldNo, kind: Kind) -> u64
    requires of_world { AreOfWorld schema.now standings.now }
    requires field_in { field.0 < length schema.now.fields }
    ensures value { (logs : List (List Record)) → AddUp schema.now logs standings.now
        → result ≡ all_cuts schema.now logs field.0 kind }
    ensures most { result ≤ max_change }
{
    sum_over(schema.sites(), |site| {
        cut_by(schema, standings, site, field, kind)
    })
}

/// A field whose value lies so far above its floor, and whose floor was raised, and whose ceiling was
/// lowered, by so much.
fn state_above(floor: i64, ceiling: i64, raised: u64, lowered: u64, above: u64) -> FieldState
    requires floor { (neg_ℤ (pos max_quantity) ≤ℤ floor) × (floor ≤ℤ pos max_quantity) }
    requires ceiling { (neg_ℤ (pos max_quantity) ≤ℤ ceiling) × (ceiling ≤ℤ pos max_quantity) }
    requires few { (raised ≤ max_change) × (lowered ≤ max_change) × (above ≤ max_change) }
    ensures value { result.value ≡ floor +ℤ pos above }
    ensures floor { result.floor ≡ floor +ℤ pos raised }
    ensures ceiling { result.ceiling ≡ ceiling -ℤ pos lowered }
{
    FieldState {
        value: floor + above as i64,
        floor: floor + raised as i64,
        ceiling: ceiling - lowered as i64,
    }
}

/// Where a field stands. The value is as far above the schema's floor as all sites guard rights to
/// lower the field, their own and those that they gave up, and such rights are in flight.
pub(crate) fn state_of(schema: &Schema, standings: &[Standing], field: FieldNo) -> FieldState
    requires limits { IsSchema schema.now }
    requires of_world { AreOfWorld schema.now standings.now }
    requires field_in { field.0 < length schema.now.fields }
    ensures state { (logs : List (List Record)) → AddUp schema.now logs standings.now
        → result ≡ state_of schema.now logs field.0 }
{
    let (floor, ceiling, _) = schema.bounds(field);
    let raised = all_cuts(schema, standings, field, Kind::Lower);
    let lowered = all_cuts(schema, standings, field, Kind::Raise);
    let above = rights_known(schema, standings, &[], field, Kind::Lower);
    state_above(floor, ceiling, raised, lowered, above)
}
