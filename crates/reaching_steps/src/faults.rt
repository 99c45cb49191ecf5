//! What stands in the way: the first fault that holds.

ghost use Rattle.std.specs.Prelude.{◌≡◌, ◌<◌, ◌≤◌, ◌+ℤ◌, ◌-ℤ◌, ◌≤ℤ◌, neg_ℤ, pos, IfOk, length};
ghost use Rattle.field_bounds.specs.declared.kind.Kind.TheVariants as kinds;
ghost use Rattle.field_bounds.specs.Limits.{max_quantity};
ghost use Rattle.field_bounds.specs.Owed.{max_change};
ghost use Rattle.reaching_steps.specs.declared.fault.ReachFault.TheVariants as faults;
ghost use Rattle.world_steps.specs.View.{trace_of};
ghost use Rattle.reaching_steps.specs.Reach.{first_fault, fault_if, lies_outside, least, is_down, is_short_of, is_unstated, is_tightened, has_no_number, reach_fault};
ghost use Rattle.reaching_steps.specs.Body.{is_cut_at, is_short_from, is_untold_to, from_up, from_flight, from_unstated, from_tightened, from_numbers, from_outside};

use crate::counts::numbers_at;
use crate::fault::ReachFault;
use crate::readers::number_told;
use crate::shares::{accepted_at, given_at, guarded_at, has_cut};
use crate::trial::Trial;
use field_bounds::{FieldNo, Kind, MAX_NUMBER, SiteNo, lower_by, raise_by};
use std::alloc::AllocError;

/// Whether a site is down: then it tells no share of a field, which is in the schema.
fn is_down(trial: &Trial, field: FieldNo, site: SiteNo) -> bool
    requires in_schema { site.0 < trial.now.schema.sites }
    requires known { field.0 < length trial.now.schema.fields }
    ensures value { result ≡ is_down trial.now.schema (trace_of trial.now) site.0 }
{
    match trial.world().share(site, field) {
        Some(_) => false,
        None => true,
    }
}

/// The first site that is down.
fn first_down(trial: &Trial, field: FieldNo, sites: u16) -> Option<u16>
    requires known { field.0 < length trial.now.schema.fields }
    requires all { sites ≡ trial.now.schema.sites }
    ensures value { result ≡ least sites (is_down trial.now.schema (trace_of trial.now)) }
{
    for site in 0..sites {
        if is_down(trial, field, SiteNo(site)) {
            return Some(site);
        }
    }
    None
}

/// Whether a site has accepted less than another gave it.
fn is_short_of(
    trial: &Trial,
    field: FieldNo,
    to: SiteNo,
    from: SiteNo,
    kind: Kind,
) -> Result<bool, AllocError>
    requires giver { from.0 < trial.now.schema.sites }
    requires receiver { to.0 < trial.now.schema.sites }
    ensures value { IfOk result (λ short. short ≡ is_short_of trial.now.schema
        (trace_of trial.now) field.0 to.0 from.0 kind) }
{
    let given = given_at(trial, from, to, field, kind)?;
    if given == 0 {
        return Ok(false);
    }
    let accepted = accepted_at(trial, from, to, field, kind)?;
    Ok(accepted < given)
}

/// The same of either kind.
fn is_short_from(
    trial: &Trial,
    site: SiteNo,
    field: FieldNo,
    from: SiteNo,
) -> Result<bool, AllocError>
    requires giver { from.0 < trial.now.schema.sites }
    requires receiver { site.0 < trial.now.schema.sites }
    ensures value { IfOk result (λ short. short ≡ is_short_from trial.now.schema
        (trace_of trial.now) site field from.0) }
{
    let lower = is_short_of(trial, field, site, from, Kind::Lower)?;
    let raise = is_short_of(trial, field, site, from, Kind::Raise)?;
    Ok(lower || raise)
}

/// The first site of which it holds.
fn first_short(
    trial: &Trial,
    site: SiteNo,
    field: FieldNo,
    sites: u16,
) -> Result<Option<u16>, AllocError>
    requires in_schema { site.0 < trial.now.schema.sites }
    requires all { sites ≡ trial.now.schema.sites }
    ensures value { IfOk result (λ found. found ≡ least sites
        (is_short_from trial.now.schema (trace_of trial.now) site field)) }
{
    for from in 0..sites {
        let short = is_short_from(trial, site, field, SiteNo(from))?;
        if short {
            return Ok(Some(from));
        }
    }
    Ok(None)
}

/// Whether what a site has given to another was never told whole.
fn is_unstated(
    trial: &Trial,
    field: FieldNo,
    from: SiteNo,
    to: SiteNo,
    kind: Kind,
) -> Result<bool, AllocError>
    requires in_schema { from.0 < trial.now.schema.sites }
    ensures value { IfOk result (λ untold. untold ≡ is_unstated trial.now.schema
        (trace_of trial.now) field.0 from.0 to.0 kind) }
{
    let given = given_at(trial, from, to, field, kind)?;
    Ok(0 < given && number_told(trial, field, kind, from, to, given) == 0)
}

/// The same of either kind.
fn is_untold_to(trial: &Trial, site: SiteNo, field: FieldNo, to: SiteNo) -> Result<bool, AllocError>
    requires in_schema { site.0 < trial.now.schema.sites }
    ensures value { IfOk result (λ untold. untold ≡ is_untold_to trial.now.schema
        (trace_of trial.now) site field to.0) }
{
    let lower = is_unstated(trial, field, site, to, Kind::Lower)?;
    let raise = is_unstated(trial, field, site, to, Kind::Raise)?;
    Ok(lower || raise)
}

/// The first site of which it holds.
fn first_untold(
    trial: &Trial,
    site: SiteNo,
    field: FieldNo,
    sites: u16,
) -> Result<Option<u16>, AllocError>
    requires in_schema { site.0 < trial.now.schema.sites }
    ensures value { IfOk result (λ found. found ≡ least sites
        (is_untold_to trial.now.schema (trace_of trial.now) site field)) }
{
    for to in 0..sites {
        let untold = is_untold_to(trial, site, field, SiteNo(to))?;
        if untold {
            return Ok(Some(to));
        }
    }
    Ok(None)
}

/// Whether another site has no number left in its epoch.
fn has_no_number(trial: &Trial, named: SiteNo, site: SiteNo) -> bool
    ensures value { result ≡ has_no_number trial.now.schema (trace_of trial.now) named.0 site.0 }
{
    let (_, count) = numbers_at(trial.world().trace(), site);
    site.0 != named.0 && count >= u64::from(MAX_NUMBER)
}

/// The first such site, each looked for in the trace.
fn first_full_there(trial: &Trial, named: SiteNo, sites: u16) -> Option<u16>
    ensures value { result ≡ least sites (has_no_number trial.now.schema
        (trace_of trial.now) named.0) }
{
    for site in 0..sites {
        if has_no_number(trial, named, SiteNo(site)) {
            return Some(site);
        }
    }
    None
}

/// The first such site. Where the trace is shorter than the last number there is none.
fn first_full(trial: &Trial, named: SiteNo, sites: u16) -> Option<u16>
    ensures value { result ≡ least sites (has_no_number trial.now.schema
        (trace_of trial.now) named.0) }
{
    if (trial.world().trace().len() as u64) < u64::from(MAX_NUMBER) {
        return None;
    }
    first_full_there(trial, named, sites)
}

/// Whether a value lies outside an interval.
fn lies_outside(lo: i64, hi: i64, target: i64) -> bool
    ensures value { result ≡ lies_outside (lo, hi) target }
{
    target < lo || hi < target
}

/// The fault of a value outside an interval.
fn told_outside(lo: i64, hi: i64, target: i64) -> Option<ReachFault>
    ensures value { result ≡ fault_if (lies_outside (lo, hi) target) (faults.Outside lo hi) }
{
    if lies_outside(lo, hi, target) {
        Some(ReachFault::Outside { lo, hi })
    } else {
        None
    }
}

/// A value outside an interval.
fn outside(floor: i64, ceiling: i64, lower: u64, raise: u64, target: i64) -> Option<ReachFault>
    requires floor_near { (neg_ℤ (pos max_quantity) ≤ℤ floor)
        × (floor ≤ℤ pos max_quantity) }
    requires ceiling_near { (neg_ℤ (pos max_quantity) ≤ℤ ceiling)
        × (ceiling ≤ℤ pos max_quantity) }
    requires small { (lower ≤ max_change) × (raise ≤ max_change) }
    ensures value { result ≡ fault_if (lies_outside (
      floor +ℤ pos lower,
      ceiling -ℤ pos raise,
    ) target) (faults.Outside (floor +ℤ pos lower) (ceiling -ℤ pos raise)) }
{
    told_outside(raise_by(floor, lower), lower_by(ceiling, raise), target)
}

/// The value lies outside the interval that the site reads.
fn fault_outside(
    trial: &Trial,
    site: SiteNo,
    field: FieldNo,
    target: i64,
) -> Result<Option<ReachFault>, AllocError>
    requires in_schema { site.0 < trial.now.schema.sites }
    requires known { field.0 < length trial.now.schema.fields }
    ensures value { IfOk result (λ found. found ≡ first_fault
        (from_outside trial.now.schema (trace_of trial.now) site field target)) }
{
    let lower = guarded_at(trial, site, field, Kind::Lower)?;
    let raise = guarded_at(trial, site, field, Kind::Raise)?;
    let (floor, ceiling, _) = trial.world().schema().bounds(field);
    Ok(outside(floor, ceiling, lower, raise, target))
}

/// The faults from one on.
fn fault_numbers(
    trial: &Trial,
    site: SiteNo,
    field: FieldNo,
    target: i64,
) -> Result<Option<ReachFault>, AllocError>
    requires in_schema { site.0 < trial.now.schema.sites }
    requires known { field.0 < length trial.now.schema.fields }
    ensures value { IfOk result (λ found. found ≡ first_fault
        (from_numbers trial.now.schema (trace_of trial.now) site field target)) }
{
    let sites = trial.world().schema().sites();
    let found = first_full(trial, site, sites);
    match found {
        Some(at) => Ok(Some(ReachFault::Numbers { site: SiteNo(at) })),
        None => fault_outside(trial, site, field, target),
    }
}

/// Whether a site has given up rights on a field for good.
fn is_cut_at(trial: &Trial, field: FieldNo, site: SiteNo) -> Result<bool, AllocError>
    requires in_schema { site.0 < trial.now.schema.sites }
    ensures value { IfOk result (λ cuts. cuts ≡ is_cut_at trial.now.schema
        (trace_of trial.now) field.0 site.0) }
{
    let lower = has_cut(trial, site, field, Kind::Lower)?;
    let raise = has_cut(trial, site, field, Kind::Raise)?;
    Ok(lower || raise)
}

/// Whether a bound of a field was tightened at one of the first sites.
fn is_tightened(trial: &Trial, field: FieldNo, sites: u16) -> Result<bool, AllocError>
    requires all { sites ≡ trial.now.schema.sites }
    ensures value { IfOk result (λ cuts. cuts ≡ is_tightened trial.now.schema
        (trace_of trial.now) field.0) }
{
    for site in 0..sites {
        let cuts = is_cut_at(trial, field, SiteNo(site))?;
        if cuts {
            return Ok(true);
        }
    }
    Ok(false)
}

/// The faults from one on.
fn fault_tightened(
    trial: &Trial,
    site: SiteNo,
    field: FieldNo,
    target: i64,
) -> Result<Option<ReachFault>, AllocError>
    requires in_schema { site.0 < trial.now.schema.sites }
    requires known { field.0 < length trial.now.schema.fields }
    ensures value { IfOk result (λ found. found ≡ first_fault
        (from_tightened trial.now.schema (trace_of trial.now) site field target)) }
{
    let tightened = is_tightened(trial, field, trial.world().schema().sites())?;
    if tightened {
        return Ok(Some(ReachFault::Tightened));
    }
    fault_numbers(trial, site, field, target)
}

/// The faults from one on.
fn fault_unstated(
    trial: &Trial,
    site: SiteNo,
    field: FieldNo,
    target: i64,
) -> Result<Option<ReachFault>, AllocError>
    requires in_schema { site.0 < trial.now.schema.sites }
    requires known { field.0 < length trial.now.schema.fields }
    ensures value { IfOk result (λ found. found ≡ first_fault
        (from_unstated trial.now.schema (trace_of trial.now) site field target)) }
{
    let sites = trial.world().schema().sites();
    let found = first_untold(trial, site, field, sites)?;
    match found {
        Some(at) => Ok(Some(ReachFault::Unstated { to: SiteNo(at) })),
        None => fault_tightened(trial, site, field, target),
    }
}

/// The faults from one on.
fn fault_flight(
    trial: &Trial,
    site: SiteNo,
    field: FieldNo,
    target: i64,
) -> Result<Option<ReachFault>, AllocError>
    requires in_schema { site.0 < trial.now.schema.sites }
    requires known { field.0 < length trial.now.schema.fields }
    ensures value { IfOk result (λ found. found ≡ first_fault
        (from_flight trial.now.schema (trace_of trial.now) site field target)) }
{
    let sites = trial.world().schema().sites();
    let found = first_short(trial, site, field, sites)?;
    match found {
        Some(at) => Ok(Some(ReachFault::InFlight { from: SiteNo(at) })),
        None => fault_unstated(trial, site, field, target),
    }
}

/// The faults from one on.
fn fault_up(
    trial: &Trial,
    site: SiteNo,
    field: FieldNo,
    target: i64,
) -> Result<Option<ReachFault>, AllocError>
    requires in_schema { site.0 < trial.now.schema.sites }
    requires known { field.0 < length trial.now.schema.fields }
    ensures value { IfOk result (λ found. found ≡ first_fault
        (from_up trial.now.schema (trace_of trial.now) site field target)) }
{
    let sites = trial.world().schema().sites();
    let found = first_down(trial, field, sites);
    match found {
        Some(at) => Ok(Some(ReachFault::NotUp { site: SiteNo(at) })),
        None => fault_flight(trial, site, field, target),
    }
}

/// The first fault that holds.
pub(crate) fn fault_of(
    trial: &Trial,
    site: SiteNo,
    field: FieldNo,
    target: i64,
) -> Result<Option<ReachFault>, AllocError>
    ensures value { IfOk result (λ found. found ≡ reach_fault trial.now.schema
        (trace_of trial.now) site field target) }
{
    if site.0 >= trial.world().schema().sites() {
        return Ok(Some(ReachFault::NoSite));
    }
    if field.0 >= trial.world().schema().fields() {
        return Ok(Some(ReachFault::NoField));
    }
    fault_up(trial, site, field, target)
}
