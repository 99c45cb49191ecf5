//! What the next step of a trial is, read from its trace.

ghost use Rattle.std.specs.Prelude.{◌≡◌, ◌<◌, ◌≤◌, ◌-ℤ◌, ◌≤ℤ◌, neg_ℤ, pos, min, IfOk, Some, None, if◌then◌else◌, reverse};
ghost use Rattle.field_bounds.specs.declared.kind.Kind.TheVariants as kinds;
ghost use Rattle.field_bounds.specs.Effects.{fresh, open_txns, share};
ghost use Rattle.field_bounds.specs.Central.{at_site, committed_value};
ghost use Rattle.field_bounds.specs.Owed.{max_change};
ghost use Rattle.world_steps.specs.World.{statements_issued};
ghost use Rattle.world_steps.specs.View.{trace_of};
ghost use Rattle.reaching_steps.specs.Body.{change_of};
ghost use Rattle.reaching_steps.specs.Reach.{is_wanting, number_of, telling, towards, next_txn, same_value};

use crate::counts::numbers_at;
use crate::numbering::number_of;
use crate::shares::{accepted_at, committed_at, given_at, shares_at};
use crate::trial::Trial;
use field_bounds::{FieldNo, Kind, SiteNo, Statement, TxnId};
use std::alloc::{AllocError, Global};

/// The open transactions of a site, in order of begin.
pub(crate) fn open_at(alloc: Global, trial: &Trial, site: SiteNo) -> Result<Vec<TxnId>, AllocError>
    requires in_schema { site.0 < trial.now.schema.sites }
    ensures found { IfOk result (λ ids. ids.items ≡ reverse
        (open_txns (at_site trial.now.schema (trace_of trial.now) site.0))) }
{
    let open = trial.open_at(site)?;
    let mut ids = Vec::new(alloc);
    for id in open {
        ids.push(*id)?;
    }
    Ok(ids)
}

/// The number of the statement to be delivered, 0 where it isn't told yet; None where nothing is to
/// be delivered.
pub(crate) fn number_wanted(
    trial: &Trial,
    named: SiteNo,
    field: FieldNo,
    from: SiteNo,
    to: SiteNo,
    kind: Kind,
) -> Result<Option<u64>, AllocError>
    requires giver { from.0 < trial.now.schema.sites }
    requires receiver { to.0 < trial.now.schema.sites }
    ensures value { IfOk result (λ found. found ≡ (if is_wanting trial.now.schema named.0 field.0
        from.0 to.0 kind (trace_of trial.now)
        then Some (number_of (telling trial.now.schema
        (trace_of trial.now) field.0 kind from.0 to.0) (statements_issued (trace_of trial.now)))
        else None)) }
{
    if from.0 == to.0 || to.0 == named.0 {
        return Ok(None);
    }
    let given = given_at(trial, from, to, field, kind)?;
    if given == 0 {
        return Ok(None);
    }
    let accepted = accepted_at(trial, from, to, field, kind)?;
    if accepted >= given {
        return Ok(None);
    }
    Ok(Some(number_told(trial, field, kind, from, to, given)))
}

/// The number of the statement of a total, and 0 where it isn't told.
pub(crate) fn number_told(
    trial: &Trial,
    field: FieldNo,
    kind: Kind,
    from: SiteNo,
    to: SiteNo,
    total: u64,
) -> u64
    ensures value { result ≡ number_of (record {
      from = from;
      to = to;
      field = field;
      kind = kind;
      total = total;
    }) (statements_issued (trace_of trial.now)) }
{
    let statement = Statement {
        from,
        to,
        field,
        kind,
        total,
    };
    number_of(trial.world().issued(), &statement)
}

/// How far one value lies below another.
fn gap(low: i64, high: i64) -> u64
    requires order { low ≤ℤ high }
    ensures value { pos result ≡ (high -ℤ low) }
{
    (i128::from(high) - i128::from(low)) as u64
}

/// The lesser of two.
fn lesser(one: u64, other: u64) -> u64
    ensures value { result ≡ min one other }
{
    if one < other { one } else { other }
}

/// A lowering, where it isn't 0.
fn lowering_of(size: u64) -> Option<i64>
    requires small { size ≤ max_change }
    ensures value { result ≡ change_of (neg_ℤ (pos size)) }
{
    if size == 0 {
        None
    } else {
        Some(0 - size as i64)
    }
}

/// A raising, where it isn't 0.
fn raising_of(size: u64) -> Option<i64>
    requires small { size ≤ max_change }
    ensures value { result ≡ change_of (pos size) }
{
    if size == 0 { None } else { Some(size as i64) }
}

/// The change towards a target that shares allow, where it isn't 0.
fn towards(now: i64, target: i64, lower: u64, raise: u64) -> Option<i64>
    requires small { (lower ≤ max_change) × (raise ≤ max_change) }
    ensures value { result ≡ change_of (towards (target -ℤ now) lower raise) }
{
    if target < now {
        lowering_of(lesser(gap(target, now), lower))
    } else {
        raising_of(lesser(gap(now, target), raise))
    }
}

/// The change that a site can make towards the target, and None where there is none to make.
pub(crate) fn change_at(
    trial: &Trial,
    field: FieldNo,
    target: i64,
    site: SiteNo,
) -> Result<Option<i64>, AllocError>
    requires in_schema { site.0 < trial.now.schema.sites }
    ensures value { IfOk result (λ found. found ≡ change_of
        (towards (target -ℤ committed_value trial.now.schema (trace_of trial.now) field.0)
        (share (fresh trial.now.schema site.0) field.0 kinds.Lower
        (at_site trial.now.schema (trace_of trial.now) site.0))
        (share (fresh trial.now.schema site.0) field.0 kinds.Raise
        (at_site trial.now.schema (trace_of trial.now) site.0)))) }
{
    let now = committed_at(trial, field)?;
    let (lower, raise) = shares_at(trial, site, field)?;
    Ok(towards(now, target, lower, raise))
}

/// The id that the site's next begin is answered.
pub(crate) fn next_at(trial: &Trial, site: SiteNo) -> TxnId
    requires in_schema { site.0 < trial.now.schema.sites }
    ensures value { result ≡ next_txn trial.now.schema (trace_of trial.now) site.0 }
{
    let (epoch, count) = numbers_at(trial.world().trace(), site);
    TxnId {
        epoch,
        number: (count + 1) as u32,
    }
}

/// Whether two values are the same.
fn same_value(one: i64, other: i64) -> bool
    ensures value { result ≡ same_value one other }
{
    one == other
}

/// Whether the committed value is the target.
pub(crate) fn is_at(trial: &Trial, field: FieldNo, target: i64) -> Result<bool, AllocError>
    ensures value { IfOk result (λ there. there ≡ same_value
        (committed_value trial.now.schema (trace_of trial.now) field.0) target) }
{
    Ok(same_value(committed_at(trial, field)?, target))
}
