//! Whether the numbers of a base balance.

ghost use Rattle.std.specs.Prelude.{◌≡◌, ◌<◌, ◌≤◌, ◌↔◌, length, IsTrue, sum_by};
ghost use Rattle.std.specs.List.{list_all, AllByRecursion};
ghost use Rattle.field_bounds.specs.Owed.{max_change};
ghost use Rattle.kept_records.specs.Text.{IsSummary, IsListed, IsListedCut};
ghost use Rattle.kept_records.specs.Summary.{cut_told, cut_told_more};
ghost use Rattle.log_bases.specs.Bases.{IsBalanced, guarded_told, told_again};
ghost use Rattle.log_bases.specs.Numbers.{on_field, is_due, is_cut_due};

use field_bounds::{FieldNo, Kind, Schema, SiteNo};
use kept_records::{Cut, Summary, Total};

/// Whether a base is balanced: it tells each field of the schema, and totals of other sites and of
/// fields of the schema alone; and on each field what the site guards is within the width, it and
/// all that was given make up the parts and all that was accepted, and where the field has no width
/// nothing was given. The numbers of the base lie in the ranges that `Record::Summary` tells.
///
/// Costs four passes over the totals for each field, and no memory.
///
/// Source: Balegas and others 2015 for the rights and the totals; this project for the balance.
pub fn is_balanced(schema: &Schema, site: SiteNo, base: &Summary) -> bool
    requires site_in { site.0 < schema.now.sites }
    requires in_range { IsSummary base.now }
    ensures is { IsTrue result ↔ IsBalanced schema.now site.0 base.now }
{
    if !is_canonical(schema, site, base) {
        return false;
    }
    for number in 0..schema.fields() {
        let field = FieldNo(number);
        let (floor, ceiling, _) = schema.bounds(field);
        let width = ceiling.abs_diff(floor);
        let lower = u128::from(schema.part(site, field, Kind::Lower));
        let parts = lower + u128::from(schema.part(site, field, Kind::Raise));
        let guarded = guarded_on(base, field);
        let given = sum_on(base.gifts(), field, Kind::Lower)
            + sum_on(base.gifts(), field, Kind::Raise);
        let accepted = sum_on(base.accepts(), field, Kind::Lower)
            + sum_on(base.accepts(), field, Kind::Raise);
        if guarded > width {
            return false;
        }
        if u128::from(guarded) + given != parts + accepted {
            return false;
        }
        if width == 0 && given != 0 {
            return false;
        }
    }
    true
}

/// Whether a base is the canonical summary of its own numbers. Its totals rise, as its ranges say,
/// so it is where it tells each field, and other sites and fields of the schema alone.
fn is_canonical(schema: &Schema, site: SiteNo, base: &Summary) -> bool
    requires site_in { site.0 < schema.now.sites }
    requires in_range { IsSummary base.now }
    ensures is { IsTrue result ↔ (base.now ≡ told_again schema.now site.0 base.now) }
{
    if base.rights().len() != usize::from(schema.fields()) {
        return false;
    }
    if !are_due(schema, site, base.gifts()) {
        return false;
    }
    if !are_due(schema, site, base.accepts()) {
        return false;
    }
    are_cuts_due(schema, base.tightenings())
}

/// Whether each total is of another site of the schema, and of a field of it.
fn are_due(schema: &Schema, site: SiteNo, totals: &[Total]) -> bool
    ensures { result ≡ list_all (is_due schema.now site.0) totals.now }
{
    totals.iter().all(|told| {
        told.site.0 < schema.sites() && told.site.0 != site.0 && told.field.0 < schema.fields()
    })
}

/// Whether each total that was given up is of a field of the schema.
fn are_cuts_due(schema: &Schema, cuts: &[Cut]) -> bool
    ensures { result ≡ list_all (is_cut_due schema.now) cuts.now }
{
    cuts.iter().all(|told| told.field.0 < schema.fields())
}

/// The totals of a kind on a field, added up.
fn sum_on(totals: &[Total], field: FieldNo, kind: Kind) -> u128
    requires in_range { AllByRecursion IsListed totals.now }
    ensures sum { result ≡ sum_by (on_field field.0 kind) totals.now }
    ensures few { result ≤ 10_000_000_000_000_000_000_000_000_000_000_000_000 }
{
    let mut sum: u128 = 0;
    for told in totals {
        sum += u128::from(total_on(told, field, kind));
    }
    sum
}

/// A total, where it is of this field and kind, else 0.
fn total_on(told: &Total, field: FieldNo, kind: Kind) -> u64
    ensures value { result ≡ on_field field.0 kind told.now }
{
    if told.field.0 == field.0 && told.kind == kind {
        told.total
    } else {
        0
    }
}

/// What a base tells to be guarded of a field's width, of both kinds.
fn guarded_on(base: &Summary, field: FieldNo) -> u64
    requires in_range { IsSummary base.now }
    requires field_in { field.0 < length base.now.rights }
    ensures value { result ≡ guarded_told base.now field.0 }
{
    let (lower, raise) = base.rights()[usize::from(field.0)];
    let cuts = base.tightenings();
    lower + raise + (cut_on(cuts, field, Kind::Lower) + cut_on(cuts, field, Kind::Raise))
}

/// The total given up of a field and a kind, and 0 where none is told.
fn cut_on(cuts: &[Cut], field: FieldNo, kind: Kind) -> u64
    requires in_range { AllByRecursion IsListedCut cuts.now }
    ensures value { result ≡ cut_told cuts.now field.0 kind }
    ensures few { result ≤ max_change }
{
    let mut total = 0;
    for told in cuts {
        total = cut_or(told, field, kind, total);
    }
    total
}

/// The total given up of a field and a kind, told after the one before.
fn cut_or(told: &Cut, field: FieldNo, kind: Kind, before: u64) -> u64
    ensures value { result ≡ cut_told_more field.0 kind before told.now }
{
    if told.field.0 == field.0 && told.kind == kind {
        told.total
    } else {
        before
    }
}
