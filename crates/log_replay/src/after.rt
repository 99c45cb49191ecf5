//! The summary of what stands with one record more.

ghost use Rattle.std.specs.Prelude.{◌≡◌, ◌++◌, ◌∷◌, ◌≤◌, ◌<◌, ◌==◌, ◌&&◌, if◌then◌else◌, [], ℕ, false, IfOk, List, length, sum_by};
ghost use Rattle.field_bounds.specs.Kind.{same_kind};
ghost use Rattle.field_bounds.specs.Effects.{takes};
ghost use Rattle.field_bounds.specs.Owed.{max_change};
ghost use Rattle.kept_records.specs.declared.record.Record.{Record};
ghost use Rattle.kept_records.specs.Stands.{is_summary, summary_of};
ghost use Rattle.kept_records.specs.Text.{IsRecord};
ghost use Rattle.kept_records.specs.Summary.{rights_of};
ghost use Rattle.log_replay.specs.Resuming.{MayFollowNext};
ghost use Rattle.log_replay.specs.After.{gift_told, accept_told, tightening_told, HasSlotFor, rise_of, gained_by, spent_by, CanMove, own_after};

use crate::standing::Standing;
use crate::telling::{given_up, totals_on_side};
use field_bounds::{Escrow, FieldNo, Kind, Schema};
use kept_records::{Cut, Cuts, OwnRights, Record, Summary, Total, Totals};
use site_rights::Rights;
use std::alloc::{AllocError, Global};

/// The total given that a record tells.
fn gift_told(next: &Record) -> Option<Total>
    ensures { result ≡ gift_told next.now }
{
    match next {
        Record::Gift {
            to,
            field,
            kind,
            total,
        } => Some(Total {
            site: *to,
            field: *field,
            kind: *kind,
            total: *total,
        }),
        Record::Commit { .. }
        | Record::Accept { .. }
        | Record::Tighten { .. }
        | Record::Restart { .. }
        | Record::Summary { .. } => None,
    }
}

/// The total accepted that a record tells.
fn accept_told(next: &Record) -> Option<Total>
    ensures { result ≡ accept_told next.now }
{
    match next {
        Record::Accept {
            from,
            field,
            kind,
            total,
        } => Some(Total {
            site: *from,
            field: *field,
            kind: *kind,
            total: *total,
        }),
        Record::Commit { .. }
        | Record::Gift { .. }
        | Record::Tighten { .. }
        | Record::Restart { .. }
        | Record::Summary { .. } => None,
    }
}

/// The total given up that a record tells.
fn tightening_told(next: &Record) -> Option<Cut>
    ensures { result ≡ tightening_told next.now }
{
    match next {
        Record::Tighten { field, kind, total } => Some(Cut {
            field: *field,
            kind: *kind,
            total: *total,
        }),
        Record::Commit { .. }
        | Record::Gift { .. }
        | Record::Accept { .. }
        | Record::Restart { .. }
        | Record::Summary { .. } => None,
    }
}

/// How far the total that a record tells is above the one before, and 0 where it tells none.
fn rise_of(standing: &Standing, next: &Record) -> u64
    requires place { HasSlotFor standing.now next.now }
    ensures { result ≡ rise_of standing.now next.now }
{
    match next {
        Record::Gift {
            to,
            field,
            kind,
            total,
        } => total.saturating_sub(standing.ledger.total(*to, *field, *kind)),
        Record::Accept {
            from,
            field,
            kind,
            total,
        } => total.saturating_sub(standing.ledger.accepted(*from, *field, *kind)),
        Record::Tighten { field, kind, total } => {
            total.saturating_sub(standing.rights.tightened(*field, *kind))
        }
        Record::Commit { .. } | Record::Restart { .. } | Record::Summary { .. } => 0,
    }
}

/// What an escrow takes of the rights of a kind on a field.
fn size_of(escrow: Escrow, field: FieldNo, kind: Kind) -> u64
    ensures { result ≡ takes field.0 kind escrow }
{
    if escrow.field.0 == field.0 && Kind::of(escrow.change) == kind {
        escrow.change.unsigned_abs()
    } else {
        0
    }
}

/// What escrows take of the rights of a kind on a field.
fn size_of_all(escrows: &[Escrow], field: FieldNo, kind: Kind) -> u64
    requires few { sum_by (takes field.0 kind) escrows.now ≤ max_change }
    ensures { result ≡ sum_by (takes field.0 kind) escrows.now }
{
    let mut size = 0;
    for escrow in escrows {
        size += size_of(*escrow, field, kind);
    }
    size
}

/// The amount, where it is of this kind on this field.
fn amount_on(of: (FieldNo, Kind), amount: u64, field: FieldNo, kind: Kind) -> u64
    ensures { result ≡ if (of.0.0 == field.0) && same_kind of.1 kind then amount else 0 }
{
    if of.0.0 == field.0 && of.1 == kind {
        amount
    } else {
        0
    }
}

/// The rights of a kind on a field that a record adds.
fn gained_by(next: &Record, rise: u64, field: FieldNo, kind: Kind) -> u64
    requires few { gained_by next.now rise field.0 kind ≤ max_change }
    ensures { result ≡ gained_by next.now rise field.0 kind }
{
    match next {
        Record::Commit { escrows, .. } => size_of_all(escrows.as_slice(), field, kind.other()),
        Record::Accept {
            field: on,
            kind: of,
            ..
        } => amount_on((*on, *of), rise, field, kind),
        Record::Gift { .. }
        | Record::Tighten { .. }
        | Record::Restart { .. }
        | Record::Summary { .. } => 0,
    }
}

/// The rights of a kind on a field that a record takes.
fn spent_by(next: &Record, rise: u64, field: FieldNo, kind: Kind) -> u64
    requires few { spent_by next.now rise field.0 kind ≤ max_change }
    ensures { result ≡ spent_by next.now rise field.0 kind }
{
    match next {
        Record::Commit { escrows, .. } => size_of_all(escrows.as_slice(), field, kind),
        Record::Gift {
            field: on,
            kind: of,
            ..
        }
        | Record::Tighten {
            field: on,
            kind: of,
            ..
        } => amount_on((*on, *of), rise, field, kind),
        Record::Accept { .. } | Record::Restart { .. } | Record::Summary { .. } => 0,
    }
}

/// The own rights of a kind on a field with one record more.
fn own_after(rights: &Rights, next: &Record, rise: u64, field: FieldNo, kind: Kind) -> u64
    requires in_schema { field.0 < length rights.now }
    requires can { CanMove rights.now next.now rise field.0 kind }
    ensures value { result ≡ own_after rights.now next.now rise field.0 kind }
{
    let own = rights.own(field, kind);
    let gained = gained_by(next, rise, field, kind);
    let spent = spent_by(next, rise, field, kind);
    own + gained - spent
}

/// The own rights with one record more, field by field.
fn own_rights_after(
    alloc: Global,
    rights: &Rights,
    next: &Record,
    rise: u64,
    fields: u16,
) -> Result<Vec<(u64, u64)>, AllocError>
    requires count { fields ≤ length rights.now }
    requires can { (f : ℕ) (k : Kind) → f < fields → CanMove rights.now next.now rise f k }
    ensures { IfOk result (λ told. told.items ≡ rights_of
        (own_after rights.now next.now rise) fields) }
{
    let mut told = Vec::new(alloc);
    for number in 0..fields {
        let field = FieldNo(number);
        told.push((
            own_after(rights, next, rise, field, Kind::Lower),
            own_after(rights, next, rise, field, Kind::Raise),
        ))?;
    }
    Ok(told)
}

/// The summary that tells what stands after one record more, which may stand behind those that the
/// standing is for. The standing stays as it is, rights that are held included: so the summary that
/// is appended behind a record in one piece is there before either is. The error is want of memory.
/// Costs a pass over the rights and the ledger, for each field a pass over the record's escrows,
/// and memory for the summary.
pub fn summary_after(
    alloc: Global,
    schema: &Schema,
    standing: &Standing,
    next: &Record,
) -> Result<Summary, AllocError>
    requires in_range { IsRecord next.now }
    requires plain { is_summary next.now ≡ false }
    requires may { (rs : List Record) × MayFollowNext schema.now standing.now rs next.now }
    ensures after { IfOk result (λ summary. (rs : List Record)
        → MayFollowNext schema.now standing.now rs next.now
        → summary ≡ summary_of schema.now standing.now.ledger.site (rs ++ next.now ∷ [])) }
{
    let _sites = schema.sites();
    let rise = rise_of(standing, next);
    let rights = own_rights_after(alloc, &standing.rights, next, rise, schema.fields())?;
    let gifts = totals_on_side(alloc, schema, &standing.ledger, true, gift_told(next))?;
    let accepts = totals_on_side(alloc, schema, &standing.ledger, false, accept_told(next))?;
    let tightenings = given_up(
        alloc,
        &standing.rights,
        tightening_told(next),
        schema.fields(),
    )?;
    let epoch = next.epoch_behind(standing.epoch);
    Ok(Summary::new(
        epoch,
        OwnRights::new(rights),
        Totals::new(gifts),
        Totals::new(accepts),
        Cuts::new(tightenings),
    ))
}
