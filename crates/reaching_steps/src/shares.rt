//! The rights of the sites of a trial, what they gave and accepted, and the committed value.

ghost use Rattle.std.specs.Prelude.{◌≡◌, ◌≤◌, ◌<◌, ◌+◌, ◌-◌, nat_lt, ◌+ℤ◌, ◌-ℤ◌, ◌≤ℤ◌, neg_ℤ, pos, IfOk};
ghost use Rattle.field_bounds.specs.declared.kind.Kind.TheVariants as kinds;
ghost use Rattle.field_bounds.specs.Limits.{max_quantity};
ghost use Rattle.field_bounds.specs.Parts.{field_at};
ghost use Rattle.field_bounds.specs.Effects.{fresh, granted_sizes, own_rights, share, cut, is_committed};
ghost use Rattle.field_bounds.specs.Owed.{max_change};
ghost use Rattle.field_bounds.specs.Central.{at_site, committed_value, given_between, accepted_between};
ghost use Rattle.world_steps.specs.View.{trace_of};

use crate::rights::rights_of;
use crate::totals::{Receivers, accepted_in, gifts_in};
use crate::trial::Trial;
use field_bounds::{FieldNo, Kind, Schema, SiteNo};
use std::alloc::AllocError;

/// The start value of a field, and 0 of one that isn't there.
fn value_at(schema: &Schema, field: FieldNo) -> i64
    ensures value { result ≡ (field_at schema.now field.0).value }
{
    if field.0 < schema.fields() {
        schema.bounds(field).2
    } else {
        0
    }
}

/// The own rights of a site and its share, of a kind on a field, by the trace.
pub(crate) fn rights_at(
    trial: &Trial,
    site: SiteNo,
    field: FieldNo,
    kind: Kind,
) -> Result<(u64, u64), AllocError>
    requires in_schema { site.0 < trial.now.schema.sites }
    ensures own { IfOk result (λ rights. rights.0 ≡ own_rights
        (fresh trial.now.schema site.0) field.0 kind
        (at_site trial.now.schema (trace_of trial.now) site.0)) }
    ensures free { IfOk result (λ rights. rights.1
        ≡ share (fresh trial.now.schema site.0) field.0 kind
        (at_site trial.now.schema (trace_of trial.now) site.0)) }
    ensures small { IfOk result (λ rights. (rights.0 ≤ max_change) × (rights.1 ≤ max_change)) }
{
    let standing = trial.standing_at(site, field)?;
    let (own, free) = rights_of(trial.world().schema(), standing, site, field, kind);
    Ok((own as u64, free as u64))
}

/// The shares of a site, to lower and to raise a field. One that is up tells them at once, and those
/// of another are read from what took effect there.
pub(crate) fn shares_at(
    trial: &Trial,
    site: SiteNo,
    field: FieldNo,
) -> Result<(u64, u64), AllocError>
    requires in_schema { site.0 < trial.now.schema.sites }
    ensures lower { IfOk result (λ shares. shares.0
        ≡ share (fresh trial.now.schema site.0) field.0 kinds.Lower
        (at_site trial.now.schema (trace_of trial.now) site.0)) }
    ensures raise { IfOk result (λ shares. shares.1
        ≡ share (fresh trial.now.schema site.0) field.0 kinds.Raise
        (at_site trial.now.schema (trace_of trial.now) site.0)) }
    ensures small { IfOk result (λ shares. (shares.0 ≤ max_change) × (shares.1 ≤ max_change)) }
{
    let world = trial.world();
    let _schema = world.schema();
    let _trace = world.trace();
    match world.share(site, field) {
        Some(shares) => Ok(shares),
        None => {
            let (_, lower) = rights_at(trial, site, field, Kind::Lower)?;
            let (_, raise) = rights_at(trial, site, field, Kind::Raise)?;
            Ok((lower, raise))
        }
    }
}

/// The total that one site has given to another.
pub(crate) fn given_at(
    trial: &Trial,
    from: SiteNo,
    to: SiteNo,
    field: FieldNo,
    kind: Kind,
) -> Result<u64, AllocError>
    requires in_schema { from.0 < trial.now.schema.sites }
    ensures value { IfOk result (λ total. total ≡ given_between trial.now.schema
        (trace_of trial.now) field.0 kind from.0 to.0) }
{
    let standing = trial.standing_at(from, field)?;
    let total = gifts_in(&standing.gifts, Receivers::OneSite(to), field, kind);
    Ok(total as u64)
}

/// The greatest total that one site has accepted from another.
pub(crate) fn accepted_at(
    trial: &Trial,
    from: SiteNo,
    to: SiteNo,
    field: FieldNo,
    kind: Kind,
) -> Result<u64, AllocError>
    requires in_schema { to.0 < trial.now.schema.sites }
    ensures value { IfOk result (λ total. total ≡ accepted_between trial.now.schema
        (trace_of trial.now) field.0 kind from.0 to.0) }
{
    let standing = trial.standing_at(to, field)?;
    Ok(accepted_in(&standing.gifts, from, field, kind))
}

/// What one has above another, and the other above the one.
fn apart(one: u128, other: u128) -> (u128, u128)
    ensures value { result.0 + other ≡ result.1 + one }
    ensures least { (result.0 ≡ one - other) × (result.1 ≡ other - one) }
{
    if one < other {
        (0, other - one)
    } else {
        (one - other, 0)
    }
}

/// By how much the committed escrows of a site have raised a field, or lowered it.
fn moved_at(trial: &Trial, site: SiteNo, field: FieldNo) -> Result<(u128, u128), AllocError>
    requires in_schema { site.0 < trial.now.schema.sites }
    ensures value { IfOk result (λ moved.
        moved.0 + granted_sizes (λ id. is_committed id
        (at_site trial.now.schema (trace_of trial.now) site.0)) field.0 kinds.Lower
        (at_site trial.now.schema (trace_of trial.now) site.0)
        ≡ moved.1 + granted_sizes (λ id. is_committed id
        (at_site trial.now.schema (trace_of trial.now) site.0)) field.0 kinds.Raise
        (at_site trial.now.schema (trace_of trial.now) site.0)) }
    ensures near { IfOk result (λ moved. (moved.0 ≤ 100_000_000_000_000_000_000)
        × (moved.1 ≤ 100_000_000_000_000_000_000)) }
{
    let standing = trial.standing_at(site, field)?;
    Ok(apart(standing.raised, standing.lowered))
}

/// A value, raised and lowered.
fn moved_by(value: i64, up: u128, down: u128) -> i64
    requires few { (up < 1_000_000_000_000_000_000_000_000_000_000)
        × (down < 1_000_000_000_000_000_000_000_000_000_000) }
    requires near { (neg_ℤ (pos max_quantity) ≤ℤ (value +ℤ (pos up -ℤ pos down)))
        × ((value +ℤ (pos up -ℤ pos down)) ≤ℤ pos max_quantity) }
    ensures value { result ≡ value +ℤ (pos up -ℤ pos down) }
{
    (i128::from(value) + (up as i128 - down as i128)) as i64
}

/// The committed value of a field, by the trace.
pub(crate) fn committed_at(trial: &Trial, field: FieldNo) -> Result<i64, AllocError>
    ensures value { IfOk result (λ value. value ≡ committed_value trial.now.schema
        (trace_of trial.now) field.0) }
    ensures near { IfOk result (λ value. (neg_ℤ (pos max_quantity) ≤ℤ value)
        × (value ≤ℤ pos max_quantity)) }
{
    let world = trial.world();
    let sites = world.schema().sites();
    let trace = world.trace();
    let mut up: u128 = 0;
    let mut down: u128 = 0;
    for site in 0..sites {
        let (raised, lowered) = moved_at(trial, SiteNo(site), field)?;
        up += raised;
        down += lowered;
    }
    Ok(moved_by(value_at(world.schema(), field), up, down))
}

/// Whether a site has given up rights of a kind on a field for good.
pub(crate) fn has_cut(
    trial: &Trial,
    site: SiteNo,
    field: FieldNo,
    kind: Kind,
) -> Result<bool, AllocError>
    requires in_schema { site.0 < trial.now.schema.sites }
    ensures value { IfOk result (λ cuts. cuts ≡ nat_lt 0
        (cut (fresh trial.now.schema site.0) field.0 kind
        (at_site trial.now.schema (trace_of trial.now) site.0))) }
{
    let standing = trial.standing_at(site, field)?;
    Ok(0 < gifts_in(&standing.gifts, Receivers::ForGood, field, kind))
}

/// What a site guards of a field's width: the rights of a kind that it owns, and those that it has
/// given up for good.
pub(crate) fn guarded_at(
    trial: &Trial,
    site: SiteNo,
    field: FieldNo,
    kind: Kind,
) -> Result<u64, AllocError>
    requires in_schema { site.0 < trial.now.schema.sites }
    ensures value { IfOk result (λ rights. rights ≡ cut (fresh trial.now.schema site.0) field.0 kind
        (at_site trial.now.schema (trace_of trial.now) site.0)
        + own_rights (fresh trial.now.schema site.0) field.0 kind
        (at_site trial.now.schema (trace_of trial.now) site.0)) }
    ensures small { IfOk result (λ rights. rights ≤ max_change) }
{
    let (own, _) = rights_at(trial, site, field, kind)?;
    let standing = trial.standing_at(site, field)?;
    let gone = gifts_in(&standing.gifts, Receivers::ForGood, field, kind);
    Ok((gone + u128::from(own)) as u64)
}
