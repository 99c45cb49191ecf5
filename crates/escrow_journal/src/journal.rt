//! The open transactions, in order of begin.

ghost use Rattle.std.specs.Prelude.{◌≡◌, ◌<◌, ◌≤◌, [], ◌∷◌, ◌++◌, true, false, length, is_some, option_map, slice_get, OnOk, OnErr, OnSome, IfSome, IfNone};
ghost use Rattle.field_bounds.specs.Owed.{max_open, max_escrows};
ghost use Rattle.escrow_journal.specs.Journal.{is_listed, escrows_at, rows_with, without, AreDistinct};
ghost use Rattle.escrow_journal.specs.Kept.{rows_of, index_of};

use field_bounds::{Escrow, FieldNo, TxnId};
use std::alloc::{AllocError, Global};
use std::marker::Model;
use std::mem;

#[derive(Drop)]
struct OpenTransaction {
    txn: TxnId,
    escrows: Vec<Escrow>,
}

/// The open transactions of a site. Contracts see them as a list of an id and its escrows, in order
/// of begin; the escrows are in order of grant. No id stands twice, there are at most 64 rows, and
/// none has more than 16 escrows.
///
/// A call that looks for a transaction guesses where it stands, in at most six steps, and none
/// where each number is one more than that before it. It costs no more where ids rise in order of
/// begin and the transaction is open; else it costs a look through those that are open too, at most
/// 64.
///
/// Source: O'Neil 1986 (the escrow journal).
#[derive(Drop)]
pub struct Journal {
    rows: Vec<OpenTransaction>,
    // The next transaction that begins puts its escrows here, in place of what it holds.
    spare: Vec<Escrow>,
}

impl Model for Journal {
    ghost use Rattle.std.specs.Prelude.{◌≤◌, List, vec_capacity};
    ghost use Rattle.escrow_journal.specs.Journal.{Row, IsJournal};
    ghost use Rattle.escrow_journal.specs.Kept.{rows_of};

    ghost Value = { List Row };

    ghost view = { λ j. rows_of j.rows.items };

    ghost invariant = { λ j. IsJournal (rows_of j.rows.items) × (vec_capacity j.spare ≤ 4) };
}

/// A look through so many rows costs no more than a guess.
const FEW: usize = 4;

/// Memory for so many escrows is what a first one takes.
const SPARE: usize = 4;

/// A guess at the place of the transaction of a number, among rows of one epoch whose numbers rise
/// from row to row. No more rows lie before it than numbers from the first row's to its own, and no
/// more behind it than from its own to the last row's: where each number follows the one before,
/// that leaves one place. Costs a step for each doubling of the places left, at most six for 64.
fn guess(rows: &[OpenTransaction], number: u32) -> usize {
    let (Some(first), Some(last)) = (rows.first(), rows.last()) else {
        return 0;
    };
    let behind = last.txn.number.saturating_sub(number) as usize;
    let before = number.saturating_sub(first.txn.number) as usize;
    let mut low = (rows.len() - 1).saturating_sub(behind);
    let mut high = before.min(rows.len() - 1);
    while low < high {
        let middle = low + (high - low) / 2;
        if rows[middle].txn.number < number {
            low = middle + 1;
        } else {
            high = middle;
        }
    }
    low
}

/// The place of a transaction, or None where it isn't there, by a look at each row before it.
fn look_through(rows: &[OpenTransaction], txn: TxnId) -> Option<usize>
    ensures there { is_some result ≡ is_listed txn (rows_of rows.now) }
    ensures within { IfSome result (λ at. at < length rows.now) }
    ensures first { IfSome result (λ at. at ≡ index_of txn rows.now) }
{
    for (i, row) in rows.iter().enumerate() {
        if row.txn == txn {
            return Some(i);
        }
    }
    None
}

/// The place of a transaction, or None where it isn't there. A guess is taken only where the
/// transaction stands there: then it stands nowhere else.
fn place(rows: &[OpenTransaction], txn: TxnId) -> Option<usize>
    requires distinct { AreDistinct (rows_of rows.now) }
    ensures there { is_some result ≡ is_listed txn (rows_of rows.now) }
    ensures within { IfSome result (λ at. at < length rows.now) }
    ensures first { IfSome result (λ at. at ≡ index_of txn rows.now) }
{
    if rows.len() > FEW {
        let at = guess(rows, txn.number);
        if at < rows.len() && rows[at].txn == txn {
            return Some(at);
        }
    }
    look_through(rows, txn)
}

impl Journal {
    /// No open transactions. Takes no memory; what `begin` and `add` take is of this allocator.
    pub fn new(alloc: Global) -> Journal
        ensures empty { result ≡ [] }
    {
        Journal {
            rows: Vec::new(alloc),
            spare: Vec::new(alloc),
        }
    }

    /// How many transactions are open, at most 64. Costs no look through them.
    pub fn count(&self) -> usize
        ensures value { result ≡ length self.now }
        ensures most { result ≤ max_open }
    {
        self.rows.len()
    }

    /// The n-th open transaction in order of begin, from 0, and None where no more than n are open.
    /// Costs no look through them.
    pub fn txn_at(&self, n: usize) -> Option<TxnId>
        ensures value { result ≡ option_map (λ row. row.0) (slice_get self.now n) }
    {
        let row = self.rows.get(n)?;
        Some(row.txn)
    }

    /// Whether a transaction is open. Costs a look through at most 64 rows.
    pub fn is_open(&self, txn: TxnId) -> bool
        ensures value { result ≡ is_listed txn self.now }
    {
        place(&self.rows, txn).is_some()
    }

    /// The escrows of a transaction in order of grant, at most 16, and None exactly where it isn't
    /// open. Costs a look through at most 64 rows.
    pub fn escrows(&self, txn: TxnId) -> Option<&[Escrow]>
        ensures open { is_some result ≡ is_listed txn self.now }
        ensures value { IfSome result (λ escrows. escrows.now ≡ escrows_at txn self.now) }
        ensures most { IfSome result (λ escrows. length escrows.now ≤ max_escrows) }
    {
        let at = place(&self.rows, txn)?;
        Some(&self.rows[at].escrows)
    }

    /// Opens a transaction, with no escrow, behind those that are open. It may not be open yet, and
    /// fewer than 64 may be: `is_open` and `count` tell both. The error is want of memory, and
    /// changes nothing. Costs one row. Its first escrows go where `reuse` left memory for them.
    pub fn begin(&mut self, txn: TxnId) -> Result<(), AllocError>
        requires closed { is_listed txn self.old ≡ false }
        requires room { length self.old < max_open }
        ensures ok { OnOk result (self.new ≡ self.old ++ (txn, []) ∷ []) }
        ensures err { OnErr result (self.new ≡ self.old) }
    {
        self.rows.reserve(1)?;
        let mut escrows = mem::replace(&mut self.spare, Vec::new(*self.rows.allocator()));
        escrows.clear();
        self.rows.push_reserved(OpenTransaction { txn, escrows });
        Ok(())
    }

    /// Adds an escrow of a change of the field behind those of an open transaction, and changes
    /// nothing else. The transaction has to be open with fewer than 16 escrows: `is_open` and
    /// `escrows` tell both. The error is want of memory, and changes nothing. Costs a look through
    /// at most 64 rows.
    pub fn add(&mut self, txn: TxnId, field: FieldNo, change: i64) -> Result<(), AllocError>
        requires open { is_listed txn self.old ≡ true }
        requires room { length (escrows_at txn self.old) < max_escrows }
        ensures ok { OnOk result (self.new ≡ rows_with txn
            (record { field = field; change = change }) self.old) }
        ensures err { OnErr result (self.new ≡ self.old) }
    {
        let at = place(&self.rows, txn).unwrap();
        self.rows[at].escrows.push(Escrow { field, change })?;
        Ok(())
    }

    /// Takes a transaction out and answers its escrows in order of grant; the others stay in their
    /// order. None exactly where it isn't open, and then nothing has changed. Takes no memory;
    /// costs a look through at most 64 rows, and a step for each row behind it.
    pub fn take_out(&mut self, txn: TxnId) -> Option<Vec<Escrow>>
        ensures open { is_some result ≡ is_listed txn self.old }
        ensures escrows { IfSome result (λ escrows. escrows.items ≡ escrows_at txn self.old) }
        ensures rest { OnSome result (self.new ≡ without txn self.old) }
        ensures none { IfNone result (self.new ≡ self.old) }
    {
        let at = place(&self.rows, txn)?;
        let OpenTransaction { txn: _, escrows } = self.rows.remove(at);
        Some(escrows)
    }

    /// Takes the memory of a list of escrows, as `take_out` answers them, for those of the next
    /// transaction that begins: so many small transactions, one after another, take it once. No
    /// more is kept than one memory, of at most 4 escrows, which any first escrow would take;
    /// other memory is given back. A list that never took memory leaves what is kept as it was.
    /// Changes no row.
    pub fn reuse(&mut self, escrows: Vec<Escrow>)
        ensures same { self.new ≡ self.old }
    {
        let capacity = escrows.capacity();
        if 0 < capacity && capacity <= SPARE {
            self.spare = escrows;
        }
    }

    /// Takes every transaction out. Takes no memory; costs a step for each row.
    pub fn clear(&mut self)
        ensures empty { self.new ≡ [] }
    {
        self.rows.clear();
    }
}
