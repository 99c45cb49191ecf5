//! Where a site stands on one field, by what took effect there.

ghost use Rattle.std.specs.Prelude.{◌≡◌, ◌==◌, ◌<◌, ◌≤◌, ◌+◌, [], ℕ, true, not, if◌then◌else◌, unsigned_abs, OnOk, IfSome, length, get_or, filter};
ghost use Rattle.field_bounds.specs.declared.effect.Effect.{Effect};
ghost use Rattle.field_bounds.specs.declared.effect.Effect.TheVariants as effects;
ghost use Rattle.field_bounds.specs.declared.kind.Kind.TheVariants.{Lower, Raise};
ghost use Rattle.field_bounds.specs.Kind.{kind_of, same_kind};
ghost use Rattle.field_bounds.specs.Effects.{same_txn};
ghost use Rattle.reaching_steps.specs.FieldHoldings.{is_of, size_in, counted_of, held_sizes, pushed, Grows, Stands, Notes};

use field_bounds::{Effect, FieldNo, Kind, TxnId, same_txn};
use std::alloc::{AllocError, Global};

/// What an open transaction holds on the field: the sizes of its lowering escrows, and of its
/// raising ones.
#[derive(Clone, Copy, Drop)]
pub(crate) struct Held {
    pub(crate) txn: TxnId,
    pub(crate) lower: u128,
    pub(crate) raise: u128,
}

/// Where a site stands on one field: its open transactions, in order of begin, and what each holds
/// on the field, one row for each that holds something; by how much the committed ones have raised
/// the field, and lowered it; and what was given and accepted of the rights on it, the oldest first.
/// Of a transaction that has ended no more is kept than these sums.
#[derive(Drop)]
pub(crate) struct FieldHoldings {
    pub(crate) txns: Vec<TxnId>,
    pub(crate) held: Vec<Held>,
    pub(crate) raised: u128,
    pub(crate) lowered: u128,
    pub(crate) gifts: Vec<Effect>,
}

/// A site at which nothing took effect.
pub(crate) fn standing_at_first(alloc: Global) -> FieldHoldings
    ensures fresh { (f : ℕ) → Stands f result [] }
{
    FieldHoldings {
        txns: Vec::new(alloc),
        held: Vec::new(alloc),
        raised: 0,
        lowered: 0,
        gifts: Vec::new(alloc),
    }
}

/// Whether a transaction is this one, or any where none is named.
#[inline(always)]
fn is_of(holder: Option<TxnId>, txn: TxnId) -> bool
    ensures value { result ≡ is_of holder txn }
{
    match holder {
        None => true,
        Some(one) => same_txn(txn, one),
    }
}

/// What a row holds, of either kind, where it counts.
#[inline(always)]
fn counted(row: &Held, holder: Option<TxnId>) -> (u128, u128)
    ensures lower { result.0 ≡ counted_of (is_of holder) Lower row.now }
    ensures raise { result.1 ≡ counted_of (is_of holder) Raise row.now }
{
    if is_of(holder, row.txn) {
        (row.lower, row.raise)
    } else {
        (0, 0)
    }
}

/// The sizes of the escrows that a transaction holds, or all do: the lowering ones and the raising
/// ones. They are exact where they fit.
pub(crate) fn held_by(held: &[Held], holder: Option<TxnId>) -> (u128, u128)
    ensures lower { held_sizes (is_of holder) Lower held.now ≤ u128.MAX
        → result.0 ≡ held_sizes (is_of holder) Lower held.now }
    ensures raise { held_sizes (is_of holder) Raise held.now ≤ u128.MAX
        → result.1 ≡ held_sizes (is_of holder) Raise held.now }
{
    let mut lower: u128 = 0;
    let mut raise: u128 = 0;
    for row in held {
        let (less, more) = counted(row, holder);
        lower = lower.saturating_add(less);
        raise = raise.saturating_add(more);
    }
    (lower, raise)
}

/// The newest row of a transaction, if it has one.
fn newest_of(held: &[Held], txn: TxnId) -> Option<usize>
    ensures inside { IfSome result (λ i. i < length held.now) }
    ensures its { (d : Held) → IfSome result (λ i. same_txn (get_or held.now i d).txn txn ≡ true) }
{
    let mut i = held.len();
    while 0 < i {
        i -= 1;
        if same_txn(held[i].txn, txn) {
            return Some(i);
        }
    }
    None
}

/// A row with an escrow more.
#[inline(always)]
fn grown(row: Held, kind: Kind, size: u64) -> Held
    ensures txn { result.txn ≡ row.txn }
    ensures sizes { size_in kind row + size ≤ u128.MAX → (k : Kind) →
        size_in k result ≡ size_in k row + (if same_kind kind k then size else 0) }
{
    let more = u128::from(size);
    match kind {
        Kind::Lower => Held {
            txn: row.txn,
            lower: row.lower.saturating_add(more),
            raise: row.raise,
        },
        Kind::Raise => Held {
            txn: row.txn,
            lower: row.lower,
            raise: row.raise.saturating_add(more),
        },
    }
}

/// A transaction is granted an escrow on the field. The error is want of memory.
#[inline(always)]
fn grant(held: &mut Vec<Held>, txn: TxnId, change: i64) -> Result<(), AllocError>
    ensures grows { OnOk result (Grows txn (kind_of change) (unsigned_abs change)
        held.old.items held.new.items) }
    ensures small { unsigned_abs change ≤ 9_223_372_036_854_775_808 }
{
    let kind = Kind::of(change);
    let size = change.unsigned_abs();
    match newest_of(held, txn) {
        Some(i) => {
            held[i] = grown(held[i], kind, size);
            Ok(())
        }
        None => {
            let first = Held {
                txn,
                lower: 0,
                raise: 0,
            };
            held.push(grown(first, kind, size))?;
            Ok(())
        }
    }
}

/// An effect on a field is put behind others, where it is this field.
#[inline(always)]
fn push_on(
    list: &mut Vec<Effect>,
    effect: Effect,
    at: FieldNo,
    field: FieldNo,
) -> Result<(), AllocError>
    ensures pushed { OnOk result (list.new.items
        ≡ pushed (at.0 == field.0) list.old.items effect) }
{
    if at.0 == field.0 {
        list.push(effect)?;
    }
    Ok(())
}

/// A transaction ends: it is open no more, and holds nothing. Costs a look at each open transaction.
#[inline(always)]
fn end(standing: &mut FieldHoldings, txn: TxnId)
    ensures ids { standing.new.txns.items
        ≡ filter (λ x. not (same_txn x txn)) standing.old.txns.items }
    ensures held { standing.new.held.items
        ≡ filter (λ row. not (same_txn row.txn txn)) standing.old.held.items }
    ensures sums { (standing.new.raised ≡ standing.old.raised)
        × (standing.new.lowered ≡ standing.old.lowered) }
    ensures gifts { standing.new.gifts ≡ standing.old.gifts }
{
    standing.txns.retain(|one| !same_txn(*one, txn));
    standing.held.retain(|row| !same_txn(row.txn, txn));
}

/// A transaction is committed: what it holds is added to the sums, and it ends. Costs a look at each
/// open transaction, and no memory.
#[inline(always)]
fn commit(standing: &mut FieldHoldings, txn: TxnId)
    ensures noted { (f : ℕ) → Notes f standing.old (effects.Commits txn) standing.new }
{
    let (lower, raise) = held_by(&standing.held, Some(txn));
    standing.lowered = standing.lowered.saturating_add(lower);
    standing.raised = standing.raised.saturating_add(raise);
    end(standing, txn);
}

/// One effect more takes place at the site. The error is want of memory.
#[inline(always)]
pub(crate) fn note(
    standing: &mut FieldHoldings,
    effect: Effect,
    field: FieldNo,
) -> Result<(), AllocError>
    ensures noted { OnOk result (Notes field.0 standing.old effect standing.new) }
{
    match effect {
        Effect::Begins { txn } => {
            standing.txns.push(txn)?;
            Ok(())
        }
        Effect::Grants {
            txn,
            field: at,
            change,
        } => {
            if at.0 != field.0 {
                return Ok(());
            }
            grant(&mut standing.held, txn, change)
        }
        Effect::Commits { txn } => {
            commit(standing, txn);
            Ok(())
        }
        Effect::Aborts { txn } => {
            end(standing, txn);
            Ok(())
        }
        Effect::Gives { field: at, .. } => push_on(&mut standing.gifts, effect, at, field),
        Effect::Accepts { field: at, .. } => push_on(&mut standing.gifts, effect, at, field),
        Effect::Stops => {
            standing.txns.clear();
            standing.held.clear();
            Ok(())
        }
    }
}
