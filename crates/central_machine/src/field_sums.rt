//! What all sites together have done to the fields, in sums.

ghost use Rattle.std.specs.Prelude.{◌≡◌, ℕ, ◌+◌, ◌-◌, ◌<◌, ◌≤◌, true, unsigned_abs, [], IfOk};
ghost use Rattle.field_bounds.specs.declared.kind.Kind.{Kind};
ghost use Rattle.field_bounds.specs.Kind.{kind_of, other};
ghost use Rattle.central_machine.specs.FieldAmounts.{amount, has_slot, capped_sum};
ghost use Rattle.central_machine.specs.Open.{all_escrows};
ghost use Rattle.central_machine.specs.Running.{sizes_taken};
ghost use Rattle.central_machine.specs.Sums.{Grows, Shrinks, Moves, Tightens, SettlesDoubt, Closes, CommitsAndCloses, SetAside, SumsTake, SumsAfter, AreSums};

use crate::amounts::FieldAmounts;
use crate::journal::{OpenRow, OpenSet};
use crate::site_totals::settled;
use field_bounds::{Effect, Escrow, FieldNo, Kind, Reply, Schema};
use std::alloc::{AllocError, Global};

/// The sums of each field: how far the committed value stands above the schema's floor and below its
/// ceiling, the sizes of the open escrows, and what was given up for good.
#[derive(Drop)]
pub struct FieldSums {
    pub room: FieldAmounts,
    pub aside: FieldAmounts,
    pub cut: FieldAmounts,
}

/// Adds to the amount of a field, if there is one.
fn grow(amounts: &mut FieldAmounts, field: FieldNo, kind: Kind, size: u64)
    ensures { Grows amounts.old amounts.new field.0 kind size }
{
    let place = usize::from(field.0);
    let more = amounts.at(place, kind).saturating_add(size);
    amounts.put(place, kind, more);
}

/// Takes from the amount of a field, if there is one.
fn shrink(amounts: &mut FieldAmounts, field: FieldNo, kind: Kind, size: u64)
    ensures { Shrinks amounts.old amounts.new field.0 kind size }
{
    let place = usize::from(field.0);
    let left = amounts.at(place, kind).saturating_sub(size);
    amounts.put(place, kind, left);
}

/// Takes the size of an escrow, of its kind.
fn take_one(amounts: &mut FieldAmounts, escrow: Escrow)
    ensures { Shrinks amounts.old amounts.new escrow.field.0 (kind_of escrow.change)
        (unsigned_abs escrow.change) }
{
    let size = escrow.change.unsigned_abs();
    shrink(amounts, escrow.field, Kind::of(escrow.change), size);
}

/// Adds the size of an escrow, to the other kind.
fn add_one(amounts: &mut FieldAmounts, escrow: Escrow)
    ensures { Grows amounts.old amounts.new escrow.field.0 (other (kind_of escrow.change))
        (unsigned_abs escrow.change) }
{
    let size = escrow.change.unsigned_abs();
    let kind = Kind::of(escrow.change).other();
    grow(amounts, escrow.field, kind, size);
}

/// Takes the sizes of escrows, each of its kind.
fn take_all(amounts: &mut FieldAmounts, escrows: &[Escrow])
    ensures less { (f : ℕ) (k : Kind) → has_slot amounts.old f ≡ true →
        amount amounts.new f k ≡ amount amounts.old f k - sizes_taken f k escrows.now }
    ensures places { (g : ℕ) → has_slot amounts.new g ≡ has_slot amounts.old g }
{
    for escrow in escrows {
        take_one(amounts, *escrow);
    }
}

/// Adds the sizes of escrows, each to the other kind.
fn add_all(amounts: &mut FieldAmounts, escrows: &[Escrow])
    ensures more { (f : ℕ) (k : Kind) → has_slot amounts.old f ≡ true →
        amount amounts.old f k ≤ 18446744073709551615 → amount amounts.new f k
        ≡ capped_sum (amount amounts.old f k + sizes_taken f (other k) escrows.now) }
    ensures places { (g : ℕ) → has_slot amounts.new g ≡ has_slot amounts.old g }
{
    for escrow in escrows {
        add_one(amounts, *escrow);
    }
}

impl FieldSums {
    /// The sums of no entries. Takes memory for three numbers of each kind for each field.
    pub fn new(alloc: Global, schema: &Schema) -> Result<FieldSums, AllocError>
        ensures { IfOk result (λ made. AreSums schema.now [] made) }
    {
        let fields = usize::from(schema.fields());
        Ok(FieldSums {
            room: FieldAmounts::rooms(alloc, schema)?,
            aside: FieldAmounts::zeros(alloc, fields)?,
            cut: FieldAmounts::zeros(alloc, fields)?,
        })
    }

    /// Escrows are committed: the room moves from their kind to the other.
    fn commit(&mut self, escrows: &[Escrow])
        ensures { Moves self.old self.new escrows.now }
    {
        add_all(&mut self.room, escrows);
        take_all(&mut self.room, escrows);
    }

    /// Escrows aren't open any more.
    fn close(&mut self, escrows: &[Escrow])
        ensures { Closes self.old self.new escrows.now }
    {
        take_all(&mut self.aside, escrows);
    }

    /// Escrows are committed, and aren't open any more.
    fn commit_and_close(&mut self, escrows: &[Escrow])
        ensures { CommitsAndCloses self.old self.new escrows.now }
    {
        self.commit(escrows);
        self.close(escrows);
    }

    /// An escrow is open.
    #[inline(always)]
    fn set_aside(&mut self, field: FieldNo, change: i64)
        ensures { SetAside self.old self.new field.0 change }
    {
        let size = change.unsigned_abs();
        grow(&mut self.aside, field, Kind::of(change), size);
    }

    /// Rights are given up for good.
    fn tighten(&mut self, field: FieldNo, kind: Kind, size: u64)
        ensures { Tightens self.old self.new field.0 kind size }
    {
        grow(&mut self.cut, field, kind, size);
    }

    /// What was in doubt and is kept takes effect, but for the end of its escrows.
    fn settle(&mut self, journal: &OpenSet, effect: Option<Effect>)
        ensures { SettlesDoubt effect journal.now.rows.items self.old self.new }
    {
        match effect {
            Some(Effect::Commits { txn }) => self.commit(journal.escrows_or_none(txn)),
            Some(
                Effect::Gives {
                    to: None,
                    field,
                    kind,
                    amount,
                },
            ) => self.tighten(field, kind, amount),
            _ => {}
        }
    }

    /// Takes in one more effect, of a site where these transactions are open. The end of one costs
    /// a look through them, and a step for each of its escrows.
    #[inline(always)]
    fn take(&mut self, journal: &OpenSet, effect: Option<Effect>)
        ensures { SumsTake effect journal.now.rows.items self.old self.new }
    {
        match effect {
            Some(Effect::Grants { field, change, .. }) => self.set_aside(field, change),
            Some(Effect::Commits { txn }) => { self.commit_and_close(journal.escrows_or_none(txn)) }
            Some(Effect::Aborts { txn }) => self.close(journal.escrows_or_none(txn)),
            Some(
                Effect::Gives {
                    to: None,
                    field,
                    kind,
                    amount,
                },
            ) => self.tighten(field, kind, amount),
            _ => {}
        }
    }

    /// The escrows of all rows aren't open any more.
    fn close_all(&mut self, rows: &[OpenRow])
        ensures { Closes self.old self.new (all_escrows rows.now) }
    {
        for row in rows {
            self.close(&row.escrows);
        }
    }

    /// Takes in a reply with what it puts into effect, at a site where these transactions are open and
    /// this is in doubt. After a restart none is open there: that costs a step for each of their escrows.
    #[inline(always)]
    pub fn after(
        &mut self,
        journal: &OpenSet,
        doubt: Option<Effect>,
        effect: Option<Effect>,
        reply: Reply,
    )
        ensures { SumsAfter effect reply doubt journal.now.rows.items self.old self.new }
    {
        match reply {
            Reply::Restarted { last, .. } => {
                self.settle(journal, settled(last, doubt));
                self.close_all(&journal.rows);
            }
            Reply::Unsure => {}
            _ => self.take(journal, effect),
        }
    }
}
