//! The summary of what was taken in.

ghost use Rattle.std.specs.Prelude.{◌≡◌, ◌++◌, ◌≤◌, ◌<◌, ◌≢◌, ℕ, IfOk, OnOk, List, length};
ghost use Rattle.kept_records.specs.declared.record.Record.{Record};
ghost use Rattle.kept_records.specs.Stands.{summary_of};
ghost use Rattle.kept_records.specs.Summary.{rights_of, totals_of, totals_of_site, cuts_of, told_more, same_rights, same_totals, same_total, same_cuts, same_cut};
ghost use Rattle.field_bounds.specs.Kind.{same_kind};
ghost use Rattle.site_rights.specs.Rights.{own_at};
ghost use Rattle.gift_ledger.specs.Ledger.{IsSlot};
ghost use Rattle.log_replay.specs.Standing.{HasSlots, Stands};
ghost use Rattle.log_replay.specs.Telling.{tells_same, side, side_in, side_with, is_of_site, cut_with, told_if, cut_if, summary_now};

use crate::standing::{Standing, cut_or};
use field_bounds::{FieldNo, Kind, Schema, SiteNo};
use gift_ledger::{FieldAccounts, Ledger};
use kept_records::{Cut, Cuts, OwnRights, Record, Summary, Total, Totals};
use site_rights::Rights;
use std::alloc::{AllocError, Global};

/// Adds a total, where it is above 0.
fn push_total(
    totals: &mut Vec<Total>,
    site: SiteNo,
    field: FieldNo,
    kind: Kind,
    total: u64,
) -> Result<(), AllocError>
    ensures { OnOk result (totals.new.items ≡ totals.old.items ++ told_if site field kind total) }
{
    if total != 0 {
        totals.push(Total {
            site,
            field,
            kind,
            total,
        })?;
    }
    Ok(())
}

fn total_on_side(ledger: &Ledger, given: bool, site: SiteNo, field: FieldNo, kind: Kind) -> u64
    requires place { IsSlot ledger.now site.0 field.0 }
    ensures value { result ≡ side given ledger.now site.0 field.0 kind }
{
    if given {
        ledger.total(site, field, kind)
    } else {
        ledger.accepted(site, field, kind)
    }
}

/// The same, of the accounts with one site: 0 of a field past their end.
fn total_in(accounts: &[FieldAccounts], given: bool, field: FieldNo, kind: Kind) -> u64
    ensures value { result ≡ side_in given accounts.now field.0 kind }
{
    let Some(on_field) = accounts.get(usize::from(field.0)) else {
        return 0;
    };
    let account = match kind {
        Kind::Lower => on_field.lower,
        Kind::Raise => on_field.raise,
    };
    if given {
        account.given
    } else {
        account.accepted
    }
}

/// The total that is told of a site, a field and a kind, where it is told, else the one before.
fn told_or(told: Total, site: SiteNo, field: FieldNo, kind: Kind, before: u64) -> u64
    ensures { result ≡ told_more site.0 field.0 kind before told }
{
    if told.site.0 == site.0 && told.field.0 == field.0 && told.kind == kind {
        told.total
    } else {
        before
    }
}

/// The total given or accepted, where one may be told anew.
fn total_with(
    ledger: &Ledger,
    given: bool,
    anew: Option<Total>,
    site: SiteNo,
    field: FieldNo,
    kind: Kind,
) -> u64
    requires place { IsSlot ledger.now site.0 field.0 }
    ensures value { result ≡ side_with anew given ledger.now site.0 field.0 kind }
{
    let before = total_on_side(ledger, given, site, field, kind);
    match anew {
        Some(told) => told_or(told, site, field, kind, before),
        None => before,
    }
}

/// Adds the totals of one site, field by field. Costs no look at the fields where no total was ever
/// set.
fn push_site(
    totals: &mut Vec<Total>,
    ledger: &Ledger,
    given: bool,
    site: SiteNo,
    fields: u16,
) -> Result<(), AllocError>
    ensures { OnOk result (totals.new.items ≡ totals.old.items
        ++ totals_of_site (side given ledger.now) site.0 fields) }
{
    let accounts = ledger.accounts(site);
    if accounts.is_empty() {
        return Ok(());
    }
    for number in 0..fields {
        let field = FieldNo(number);
        let lower = total_in(accounts, given, field, Kind::Lower);
        push_total(totals, site, field, Kind::Lower, lower)?;
        let raise = total_in(accounts, given, field, Kind::Raise);
        push_total(totals, site, field, Kind::Raise, raise)?;
    }
    Ok(())
}

/// The same, where one of them may be told anew.
fn push_site_with(
    totals: &mut Vec<Total>,
    ledger: &Ledger,
    given: bool,
    anew: Option<Total>,
    site: SiteNo,
    fields: u16,
) -> Result<(), AllocError>
    requires places { (f : ℕ) → f < fields → IsSlot ledger.now site.0 f }
    ensures { OnOk result (totals.new.items ≡ totals.old.items
        ++ totals_of_site (side_with anew given ledger.now) site.0 fields) }
{
    for number in 0..fields {
        let field = FieldNo(number);
        let lower = total_with(ledger, given, anew, site, field, Kind::Lower);
        push_total(totals, site, field, Kind::Lower, lower)?;
        let raise = total_with(ledger, given, anew, site, field, Kind::Raise);
        push_total(totals, site, field, Kind::Raise, raise)?;
    }
    Ok(())
}

/// Whether a total is told anew, and is one of this site.
fn is_of_site(anew: Option<Total>, site: SiteNo) -> bool
    ensures { result ≡ is_of_site anew site.0 }
{
    match anew {
        Some(told) => told.site.0 == site.0,
        None => false,
    }
}

/// Adds the totals of one site: the total that is told anew is looked for where it is one of them.
fn push_any_site(
    totals: &mut Vec<Total>,
    ledger: &Ledger,
    given: bool,
    anew: Option<Total>,
    site: SiteNo,
    fields: u16,
) -> Result<(), AllocError>
    requires places { (f : ℕ) → f < fields → IsSlot ledger.now site.0 f }
    ensures { OnOk result (totals.new.items ≡ totals.old.items
        ++ totals_of_site (side_with anew given ledger.now) site.0 fields) }
{
    if is_of_site(anew, site) {
        push_site_with(totals, ledger, given, anew, site, fields)
    } else {
        push_site(totals, ledger, given, site, fields)
    }
}

/// The totals given or accepted, site by site, where one may be told anew.
pub(crate) fn totals_on_side(
    alloc: Global,
    schema: &Schema,
    ledger: &Ledger,
    given: bool,
    anew: Option<Total>,
) -> Result<Vec<Total>, AllocError>
    requires places { (r f : ℕ) → r < schema.now.sites → r ≢ ledger.now.site
        → f < length schema.now.fields → IsSlot ledger.now r f }
    ensures { IfOk result (λ totals. totals.items ≡ totals_of
        (side_with anew given ledger.now) ledger.now.site
        (length schema.now.fields) schema.now.sites) }
{
    let mut totals = Vec::new(alloc);
    let own = ledger.site();
    for number in 0..schema.sites() {
        if number != own.0 {
            let site = SiteNo(number);
            push_any_site(&mut totals, ledger, given, anew, site, schema.fields())?;
        }
    }
    Ok(totals)
}

/// The own rights, field by field.
fn own_rights(alloc: Global, rights: &Rights, fields: u16) -> Result<Vec<(u64, u64)>, AllocError>
    requires count { fields ≤ length rights.now }
    ensures { IfOk result (λ told. told.items ≡ rights_of (own_at rights.now) fields) }
{
    let mut told = Vec::new(alloc);
    for number in 0..fields {
        let field = FieldNo(number);
        told.push((
            rights.own(field, Kind::Lower),
            rights.own(field, Kind::Raise),
        ))?;
    }
    Ok(told)
}

/// Adds a total given up, where it is above 0.
fn push_cut(totals: &mut Vec<Cut>, field: FieldNo, kind: Kind, total: u64) -> Result<(), AllocError>
    ensures { OnOk result (totals.new.items ≡ totals.old.items ++ cut_if field kind total) }
{
    if total != 0 {
        totals.push(Cut { field, kind, total })?;
    }
    Ok(())
}

/// What was given up for good of a kind on a field, where one total may be told anew.
fn cut_with(rights: &Rights, anew: Option<Cut>, field: FieldNo, kind: Kind) -> u64
    requires in_schema { field.0 < length rights.now }
    ensures value { result ≡ cut_with anew rights.now field.0 kind }
{
    let before = rights.tightened(field, kind);
    match anew {
        Some(told) => cut_or(&told, field, kind, before),
        None => before,
    }
}

/// What was given up for good, field by field, where one total may be told anew.
pub(crate) fn given_up(
    alloc: Global,
    rights: &Rights,
    anew: Option<Cut>,
    fields: u16,
) -> Result<Vec<Cut>, AllocError>
    requires count { fields ≤ length rights.now }
    ensures { IfOk result (λ told. told.items ≡ cuts_of (cut_with anew rights.now) fields) }
{
    let mut told = Vec::new(alloc);
    for number in 0..fields {
        let field = FieldNo(number);
        let lower = cut_with(rights, anew, field, Kind::Lower);
        push_cut(&mut told, field, Kind::Lower, lower)?;
        let raise = cut_with(rights, anew, field, Kind::Raise);
        push_cut(&mut told, field, Kind::Raise, raise)?;
    }
    Ok(told)
}

/// The summary of what was taken in: own rights, held ones included, the totals above 0 and the
/// epoch. It tells what any records stand for that the standing is for. The error is want of
/// memory. Costs a pass over the rights and the ledger, and memory for the summary.
fn summary(alloc: Global, schema: &Schema, standing: &Standing) -> Result<Summary, AllocError>
    requires places { HasSlots schema.now standing.now.rights standing.now.ledger }
    ensures now { IfOk result (λ summary. summary ≡ summary_now schema.now standing.now) }
    ensures told { IfOk result (λ summary. (s : ℕ) (rs : List Record)
        → Stands schema.now s rs standing.now → summary ≡ summary_of schema.now s rs) }
{
    let rights = own_rights(alloc, &standing.rights, schema.fields())?;
    let gifts = totals_on_side(alloc, schema, &standing.ledger, true, None)?;
    let accepts = totals_on_side(alloc, schema, &standing.ledger, false, None)?;
    let tightenings = given_up(alloc, &standing.rights, None, schema.fields())?;
    Ok(Summary::new(
        standing.epoch,
        OwnRights::new(rights),
        Totals::new(gifts),
        Totals::new(accepts),
        Cuts::new(tightenings),
    ))
}

/// Whether two lists of rights are the same.
fn same_rights(a: &[(u64, u64)], b: &[(u64, u64)]) -> bool
    ensures { result ≡ same_rights a.now b.now }
{
    let mut left = a;
    let mut right = b;
    while !left.is_empty() && !right.is_empty() {
        if left[0].0 != right[0].0 || left[0].1 != right[0].1 {
            return false;
        }
        left = &left[1..];
        right = &right[1..];
    }
    left.is_empty() && right.is_empty()
}

fn same_total(a: &Total, b: &Total) -> bool
    ensures { result ≡ same_total a.now b.now }
{
    a.site.0 == b.site.0
        && a.field.0 == b.field.0
        && same_kind(a.kind, b.kind)
        && a.total == b.total
}

fn same_kind(a: Kind, b: Kind) -> bool
    ensures { result ≡ same_kind a b }
{
    match (a, b) {
        (Kind::Lower, Kind::Lower) | (Kind::Raise, Kind::Raise) => true,
        _ => false,
    }
}

/// Whether two lists of totals are the same.
fn same_totals(a: &[Total], b: &[Total]) -> bool
    ensures { result ≡ same_totals a.now b.now }
{
    let mut left = a;
    let mut right = b;
    while !left.is_empty() && !right.is_empty() {
        if !same_total(&left[0], &right[0]) {
            return false;
        }
        left = &left[1..];
        right = &right[1..];
    }
    left.is_empty() && right.is_empty()
}

fn same_cut(a: &Cut, b: &Cut) -> bool
    ensures { result ≡ same_cut a.now b.now }
{
    a.field.0 == b.field.0 && same_kind(a.kind, b.kind) && a.total == b.total
}

/// Whether two lists of totals given up are the same.
fn same_cuts(a: &[Cut], b: &[Cut]) -> bool
    ensures { result ≡ same_cuts a.now b.now }
{
    let mut left = a;
    let mut right = b;
    while !left.is_empty() && !right.is_empty() {
        if !same_cut(&left[0], &right[0]) {
            return false;
        }
        left = &left[1..];
        right = &right[1..];
    }
    left.is_empty() && right.is_empty()
}

/// Whether a record is this summary's.
fn tells_same(told: &Record, own: &Summary) -> bool
    ensures { result ≡ tells_same told.now own.now }
{
    match told {
        Record::Summary {
            epoch,
            rights,
            gifts,
            accepts,
            tightenings,
        } => {
            *epoch == own.epoch()
                && same_rights(rights.as_slice(), own.rights())
                && same_totals(gifts.as_slice(), own.gifts())
                && same_totals(accepts.as_slice(), own.accepts())
                && same_cuts(tightenings.as_slice(), own.tightenings())
        }
        Record::Commit { .. }
        | Record::Gift { .. }
        | Record::Accept { .. }
        | Record::Tighten { .. }
        | Record::Restart { .. } => false,
    }
}

/// Whether a record is the summary of the records that a standing is for. The error is want of
/// memory.
pub(crate) fn tells(
    alloc: Global,
    schema: &Schema,
    standing: &Standing,
    told: &Record,
) -> Result<bool, AllocError>
    requires places { HasSlots schema.now standing.now.rights standing.now.ledger }
    ensures { IfOk result (λ may. (s : ℕ) (rs : List Record) → Stands schema.now s rs standing.now
        → may ≡ tells_same told.now (summary_of schema.now s rs)) }
{
    let own = summary(alloc, schema, standing)?;
    Ok(tells_same(told, &own))
}
