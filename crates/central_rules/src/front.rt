//! What the entries of a front make of one site, made afresh.

ghost use Rattle.std.specs.Prelude.{◌≡◌, ◌≤◌, ◌<◌, reverse, length, IfOk, false, true, ◌+◌, int_le, nat_lt, nat_le, ◌-◌, ◌&&◌, Some, ◌≤ℤ◌, pos, ◌+ℤ◌, ◌-ℤ◌};
ghost use Rattle.field_bounds.specs.Effects.{effects, effect_of, fresh, share, wanted_by, spared_at};
ghost use Rattle.field_bounds.specs.Central.{own, sizes, at_site, committed_value, cuts, IsSound};
ghost use Rattle.field_bounds.specs.Parts.{field_at};
ghost use Rattle.field_bounds.specs.Owed.{is_up, epoch_of, count_since, is_begun_reply, is_still_down, is_unsure};
ghost use Rattle.central_rules.specs.Entries.{most_entries};
ghost use Rattle.central_rules.specs.Verdict.{within_bound, true_share};
ghost use Rattle.central_rules.specs.Fates.{passes};

use crate::afresh::{Which, cut, granted_sizes, share};
use crate::site_counts::SiteCounts;
use field_bounds::{
    Command, Effect, Entry, FieldNo, Kind, Reply, Schema, SiteNo, counts, effect_of, spared_amount,
    wanted_by,
};
use std::alloc::{AllocError, Global};

/// The bounds of a field, and its start value.
#[derive(Clone, Copy)]
pub struct Bounds {
    pub floor: i64,
    pub ceiling: i64,
    pub value: i64,
}

/// The bounds of a field of the schema.
pub fn bounds_of(schema: &Schema, field: FieldNo) -> Bounds
    requires in_schema { field.0 < length schema.now.fields }
    ensures floor { result.floor ≡ (field_at schema.now field.0).floor }
    ensures ceiling { result.ceiling ≡ (field_at schema.now field.0).ceiling }
    ensures value { result.value ≡ (field_at schema.now field.0).value }
    ensures low { result.floor ≤ℤ result.value }
    ensures high { result.value ≤ℤ result.ceiling }
{
    let (floor, ceiling, value) = schema.bounds(field);
    Bounds {
        floor,
        ceiling,
        value,
    }
}

/// Whether the schema has the field.
pub fn has(schema: &Schema, field: FieldNo) -> bool
    ensures { result ≡ nat_lt field.0 (length schema.now.fields) }
{
    field.0 < schema.fields()
}

/// What a spare in doubt has spared at its site, behind these effects.
fn spared_in_doubt(
    schema: &Schema,
    site: SiteNo,
    made: &[Effect],
    command: Command,
    reply: Reply,
) -> u64
    requires few { length made.now ≤ most_entries }
    requires site_in { site.0 < schema.now.sites }
    ensures { is_unsure reply ≡ true → result
        ≡ spared_at (λ f k. share (fresh schema.now site.0) f k (reverse made.now)) (wanted_by command) }
{
    match (wanted_by(command), reply) {
        (Some((field, kind, want)), Reply::Unsure) => {
            spared_amount(share(schema, site, made, field, kind), want)
        }
        _ => 0,
    }
}

/// What a command puts into effect at its site, behind these effects, by its reply.
fn effect_here(
    schema: &Schema,
    site: SiteNo,
    made: &[Effect],
    command: Command,
    reply: Reply,
) -> Option<Effect>
    requires few { length made.now ≤ most_entries }
    requires site_in { site.0 < schema.now.sites }
    ensures { result ≡ effect_of (fresh schema.now site.0) (reverse made.now) command reply }
{
    effect_of(
        command,
        reply,
        spared_in_doubt(schema, site, made, command, reply),
    )
}

/// What took effect at a site, the oldest first.
pub fn effects(
    alloc: Global,
    schema: &Schema,
    front: &[Entry],
    site: SiteNo,
) -> Result<Vec<Effect>, AllocError>
    requires few { length front.now ≤ most_entries }
    requires site_in { site.0 < schema.now.sites }
    ensures few { IfOk result (λ made. length made.items ≤ length front.now) }
    ensures value { IfOk result (λ made. reverse made.items
        ≡ effects (fresh schema.now site.0) false (own site.0 (reverse front.now))) }
{
    let mut made = Vec::new(alloc);
    for (i, entry) in front.iter().enumerate() {
        if entry.site.0 == site.0 {
            let effect = effect_here(schema, site, &made, entry.command, entry.reply);
            if let Some(effect) = effect {
                if counts(entry.reply, &front[i + 1..], site) {
                    made.push(effect)?;
                }
            }
        }
    }
    Ok(made)
}

/// The sizes of the escrows of the trace on a field that pass.
pub fn total(
    alloc: Global,
    schema: &Schema,
    front: &[Entry],
    which: Which,
    field: FieldNo,
    kind: Kind,
) -> Result<u128, AllocError>
    requires few { length front.now ≤ most_entries }
    requires sound { IsSound schema.now (reverse front.now) }
    ensures small { IfOk result (λ n. n ≤ 136112946768375385267290680900966154240) }
    ensures value { IfOk result (λ n. n
        ≡ sizes (λ s id. passes which (at_site schema.now (reverse front.now) s) id) field.0 kind
        (reverse front.now)) }
{
    let mut sum: u128 = 0;
    for site in 0..schema.sites() {
        let made = effects(alloc, schema, front, SiteNo(site))?;
        sum += granted_sizes(&made, which, field, kind);
    }
    Ok(sum)
}

/// What all sites have given up for good, of a kind on a field.
fn cuts(
    alloc: Global,
    schema: &Schema,
    front: &[Entry],
    field: FieldNo,
    kind: Kind,
) -> Result<u128, AllocError>
    requires few { length front.now ≤ most_entries }
    ensures { IfOk result (λ n. n ≡ cuts schema.now (reverse front.now) field.0 kind) }
{
    let mut sum: u128 = 0;
    for site in 0..schema.sites() {
        let made = effects(alloc, schema, front, SiteNo(site))?;
        sum += cut(&made, field, kind);
    }
    Ok(sum)
}

/// Whether what is there covers what is taken, and then what is cut off.
fn covers(there: u128, taken: u128, cut: u128) -> bool
    ensures { result ≡ (nat_le taken there && nat_le cut (there - taken)) }
{
    taken <= there && cut <= there - taken
}

/// Whether lowering by this much leaves the infimum at the floor or above, which lies so far above
/// that of the schema.
fn may_lower(bounds: &Bounds, raised: u128, lowered: u128, held: u128, by: u64, cut: u128) -> bool
    requires raised { raised ≤ 136112946768375385267290680900966154240 }
    requires lowered { lowered ≤ 136112946768375385267290680900966154240 }
    requires held { held ≤ 136112946768375385267290680900966154240 }
    requires ordered { bounds.now.floor ≤ℤ bounds.now.value }
    ensures { result
        ≡ int_le (bounds.now.floor +ℤ pos cut) (((bounds.now.value +ℤ (pos raised -ℤ pos lowered))
        -ℤ pos held) -ℤ pos by) }
{
    let there = u128::from(bounds.value.abs_diff(bounds.floor)) + raised;
    covers(there, lowered + held + u128::from(by), cut)
}

/// Whether raising by this much leaves the supremum at the ceiling or below, which lies so far
/// below that of the schema.
fn may_raise(bounds: &Bounds, raised: u128, lowered: u128, held: u128, by: u64, cut: u128) -> bool
    requires raised { raised ≤ 136112946768375385267290680900966154240 }
    requires lowered { lowered ≤ 136112946768375385267290680900966154240 }
    requires held { held ≤ 136112946768375385267290680900966154240 }
    requires ordered { bounds.now.value ≤ℤ bounds.now.ceiling }
    ensures { result
        ≡ int_le (((bounds.now.value +ℤ (pos raised -ℤ pos lowered)) +ℤ pos held) +ℤ pos by)
        (bounds.now.ceiling -ℤ pos cut) }
{
    let there = u128::from(bounds.ceiling.abs_diff(bounds.value)) + lowered;
    covers(there, raised + held + u128::from(by), cut)
}

/// Whether one central store may grant a change of a kind on a field, of this size.
pub fn within_bound(
    alloc: Global,
    schema: &Schema,
    front: &[Entry],
    field: FieldNo,
    by: u64,
    kind: Kind,
) -> Result<bool, AllocError>
    requires few { length front.now ≤ most_entries }
    requires sound { IsSound schema.now (reverse front.now) }
    requires in_schema { field.0 < length schema.now.fields }
    ensures { IfOk result (λ holds. holds ≡ within_bound schema.now
        (reverse front.now) field.0 by kind) }
{
    let bounds = bounds_of(schema, field);
    let raised = total(alloc, schema, front, Which::Committed, field, Kind::Raise)?;
    let lowered = total(alloc, schema, front, Which::Committed, field, Kind::Lower)?;
    let held = total(alloc, schema, front, Which::Open, field, kind)?;
    let cut = cuts(alloc, schema, front, field, kind)?;
    match kind {
        Kind::Lower => Ok(may_lower(&bounds, raised, lowered, held, by, cut)),
        Kind::Raise => Ok(may_raise(&bounds, raised, lowered, held, by, cut)),
    }
}

/// Whether a shortage names the true share, which is less than was asked.
pub fn true_share(
    alloc: Global,
    schema: &Schema,
    front: &[Entry],
    site: SiteNo,
    field: FieldNo,
    kind: Kind,
    asked: u64,
    told: u64,
) -> Result<bool, AllocError>
    requires few { length front.now ≤ most_entries }
    requires site_in { site.0 < schema.now.sites }
    ensures { IfOk result (λ holds. holds
        ≡ true_share schema.now (reverse front.now) site.0 field kind asked told) }
{
    if !has(schema, field) {
        return Ok(true);
    }
    let made = effects(alloc, schema, front, site)?;
    Ok(u128::from(told) == share(schema, site, &made, field, kind) && told < asked)
}

/// Whether a value, with its raisings and its lowerings, is at least this low.
fn is_above(low: i64, value: i64, raised: u128, lowered: u128) -> bool
    requires raised { raised ≤ 136112946768375385267290680900966154240 }
    requires lowered { lowered ≤ 136112946768375385267290680900966154240 }
    ensures { result ≡ int_le low (value +ℤ (pos raised -ℤ pos lowered)) }
{
    if low <= value {
        lowered <= u128::from(value.abs_diff(low)) + raised
    } else {
        lowered + u128::from(low.abs_diff(value)) <= raised
    }
}

/// Whether a value, with its raisings and its lowerings, is at most this high.
fn is_below(high: i64, value: i64, raised: u128, lowered: u128) -> bool
    requires raised { raised ≤ 136112946768375385267290680900966154240 }
    requires lowered { lowered ≤ 136112946768375385267290680900966154240 }
    ensures { result ≡ int_le (value +ℤ (pos raised -ℤ pos lowered)) high }
{
    if value <= high {
        raised <= u128::from(high.abs_diff(value)) + lowered
    } else {
        raised + u128::from(value.abs_diff(high)) <= lowered
    }
}

pub fn lies_between(lo: i64, hi: i64, bounds: &Bounds, raised: u128, lowered: u128) -> bool
    requires raised { raised ≤ 136112946768375385267290680900966154240 }
    requires lowered { lowered ≤ 136112946768375385267290680900966154240 }
    ensures { result
        ≡ (int_le lo (bounds.now.value +ℤ (pos raised -ℤ pos lowered))
        && int_le (bounds.now.value +ℤ (pos raised -ℤ pos lowered)) hi) }
{
    is_above(lo, bounds.value, raised, lowered) && is_below(hi, bounds.value, raised, lowered)
}

/// Whether the committed value lies between the two.
pub fn between(
    alloc: Global,
    schema: &Schema,
    front: &[Entry],
    field: FieldNo,
    lo: i64,
    hi: i64,
) -> Result<bool, AllocError>
    requires few { length front.now ≤ most_entries }
    requires sound { IsSound schema.now (reverse front.now) }
    requires in_schema { field.0 < length schema.now.fields }
    ensures { IfOk result (λ holds. holds
        ≡ (int_le lo (committed_value schema.now (reverse front.now) field.0)
        && int_le (committed_value schema.now (reverse front.now) field.0) hi)) }
{
    let bounds = bounds_of(schema, field);
    let raised = total(alloc, schema, front, Which::Committed, field, Kind::Raise)?;
    let lowered = total(alloc, schema, front, Which::Committed, field, Kind::Lower)?;
    Ok(lies_between(lo, hi, &bounds, raised, lowered))
}

/// Where a site on a fresh base stands after the front.
pub fn site_counts_at(schema: &Schema, front: &[Entry], site: SiteNo) -> SiteCounts
    requires few { length front.now ≤ most_entries }
    ensures up { result.up ≡ is_up (fresh schema.now site.0) (own site.0 (reverse front.now)) }
    ensures epoch { result.epoch ≡ epoch_of (fresh schema.now site.0)
        (own site.0 (reverse front.now)) }
    ensures begun { result.begun ≡ count_since is_begun_reply (own site.0 (reverse front.now)) }
    ensures still_down { result.still_down ≡ count_since is_still_down
        (own site.0 (reverse front.now)) }
    ensures unsure { result.unsure ≡ count_since is_unsure (own site.0 (reverse front.now)) }
    ensures few { (result.begun ≤ most_entries) × (result.still_down ≤ most_entries)
        × (result.unsure ≤ most_entries) }
{
    let _sites = schema.sites();
    let mut now = SiteCounts::new();
    for entry in front {
        if entry.site.0 == site.0 {
            now = now.after(*entry);
        }
    }
    now
}
