use escrow_journal::Journal;
use field_bounds::{Escrow, FieldNo, MAX_ESCROWS, MAX_OPEN, TxnId};
use std::alloc::Global;

const FIRST: TxnId = TxnId {
    epoch: 0,
    number: 1,
};

const SECOND: TxnId = TxnId {
    epoch: 0,
    number: 2,
};

const THIRD: TxnId = TxnId {
    epoch: 0,
    number: 3,
};

const LOWER: Escrow = Escrow {
    field: FieldNo(0),
    change: -20,
};

const RAISE: Escrow = Escrow {
    field: FieldNo(3),
    change: 7,
};

/// The transaction begun, or None where memory was refused or it can't be.
fn begun(journal: &mut Journal, txn: TxnId) -> Option<()> {
    if journal.is_open(txn) || journal.count() >= MAX_OPEN {
        return None;
    }
    journal.begin(txn).ok()
}

/// The escrow added, or None where memory was refused or it can't be.
fn added(journal: &mut Journal, txn: TxnId, escrow: Escrow) -> Option<()> {
    if journal.escrows(txn)?.len() >= MAX_ESCROWS {
        return None;
    }
    journal.add(txn, escrow.field, escrow.change).ok()
}

/// Two transactions opened, the first with an escrow that lowers and one that raises.
fn two_open(journal: &mut Journal) -> Option<()> {
    begun(journal, FIRST)?;
    begun(journal, SECOND)?;
    added(journal, FIRST, LOWER)?;
    added(journal, FIRST, RAISE)
}

/// The escrow of a transaction at a place, or None where there is none.
fn escrow_at(journal: &Journal, txn: TxnId, at: usize) -> Option<Escrow> {
    journal.escrows(txn)?.get(at).copied()
}

/// The newest escrow of a transaction that is taken out, or None where there is none.
fn newest_taken(journal: &mut Journal, txn: TxnId) -> Option<Escrow> {
    journal.take_out(txn)?.pop()
}

/// The memory of a transaction that is taken out serves the next one, which begins with no escrow.
fn begun_anew(journal: &mut Journal, from: TxnId, txn: TxnId) -> Option<usize> {
    let escrows = journal.take_out(from)?;
    journal.reuse(escrows);
    begun(journal, txn)?;
    added(journal, txn, RAISE)?;
    Some(journal.escrows(txn)?.len())
}

/// A list with room for so many escrows is left to the journal, or None where memory was refused.
fn left(journal: &mut Journal, alloc: Global, room: usize) -> Option<()> {
    let escrows: Vec<Escrow> = Vec::with_capacity(alloc, room).ok()?;
    journal.reuse(escrows);
    Some(())
}

/// For how many escrows the next transaction has memory when it begins. It is taken out again.
fn room_at_begin(journal: &mut Journal) -> Option<usize> {
    begun(journal, THIRD)?;
    Some(journal.take_out(THIRD)?.capacity())
}

#[test]
fn memory_is_used_again(rt: HostRuntime) {
    let mut journal = Journal::new(rt.alloc());
    assert_eq!(rt; two_open(&mut journal), Some(()));
    assert_eq!(rt; begun_anew(&mut journal, FIRST, THIRD), Some(1));
    assert_eq!(rt; escrow_at(&journal, THIRD, 0), Some(RAISE));
    assert_eq!(rt; escrow_at(&journal, SECOND, 0), None);
}

#[test]
fn small_memory_alone_is_kept(rt: HostRuntime) {
    let mut journal = Journal::new(rt.alloc());
    assert_eq!(rt; left(&mut journal, rt.alloc(), 4), Some(()));
    assert_eq!(rt; left(&mut journal, rt.alloc(), 0), Some(()));
    assert_eq!(rt; room_at_begin(&mut journal), Some(4));
    assert_eq!(rt; left(&mut journal, rt.alloc(), 5), Some(()));
    assert_eq!(rt; room_at_begin(&mut journal), Some(0));
}

#[test]
fn each_call(rt: HostRuntime) {
    let mut journal = Journal::new(rt.alloc());
    assert_eq!(rt; two_open(&mut journal), Some(()));
    assert_eq!(rt; journal.count(), 2);
    assert_eq!(rt; escrow_at(&journal, FIRST, 0), Some(LOWER));
    assert_eq!(rt; escrow_at(&journal, FIRST, 1), Some(RAISE));
    assert_eq!(rt; escrow_at(&journal, SECOND, 0), None);
    assert_eq!(rt; newest_taken(&mut journal, FIRST), Some(RAISE));
    assert!(rt; !journal.is_open(FIRST) && journal.is_open(SECOND));
    journal.clear();
    assert_eq!(rt; journal.count(), 0);
}
