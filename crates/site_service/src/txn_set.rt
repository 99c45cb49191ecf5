//! A set of transactions that come mostly in rising order.

ghost use Rattle.std.specs.Prelude.{◌≡◌, ◌↔◌, ◌⊎◌, [], ◌∷◌, ◌++◌, Contains, IsTrue, OnOk, OnErr};
ghost use Rattle.field_bounds.specs.declared.id.TxnId.{TxnId as Txn};
ghost use Rattle.site_service.specs.Rising.{IsRising};

use field_bounds::TxnId;
use std::alloc::{AllocError, Global};
use std::collections::BTreeSet;
use std::marker::Model;

/// A set of transactions. Those that come in rising order stand one behind the other: 8 bytes each,
/// with room made by doubling, and one comparison to add one. Those that come behind a greater one
/// or once more stand in a tree: so in whatever order they come, to add one and to look one up costs
/// at most a step for each doubling of their number, but where the room of the list is doubled.
/// Contracts see a list of them. Source: this project.
#[derive(Drop)]
pub(crate) struct TxnSet {
    rising: Vec<TxnId>,
    late: BTreeSet<TxnId>,
}

impl Model for TxnSet {
    ghost use Rattle.std.specs.Prelude.{List, ◌++◌};
    ghost use Rattle.field_bounds.specs.declared.id.TxnId.{TxnId as Txn};
    ghost use Rattle.site_service.specs.Rising.{IsRising};

    ghost Value = { List Txn };

    ghost view = { λ s. s.rising.items ++ s.late.keys };

    ghost invariant = { λ s. IsRising s.rising.items };
}

impl TxnSet {
    /// The one that has none. Takes no memory.
    pub(crate) fn new(alloc: Global) -> TxnSet
        ensures none { result ≡ [] }
    {
        TxnSet {
            rising: Vec::new(alloc),
            late: BTreeSet::new(alloc),
        }
    }

    /// Adds a transaction, whether or not it is there. The error is want of memory.
    pub(crate) fn insert(&mut self, txn: TxnId) -> Result<(), AllocError>
        ensures ok { OnOk result ((other : Txn) → Contains self.new other
            ↔ ((txn ≡ other) ⊎ Contains self.old other)) }
        ensures err { OnErr result (self.new ≡ self.old) }
    {
        if rises_behind(&self.rising, txn) {
            self.rising.push(txn)?;
        } else {
            self.late.insert(txn)?;
        }
        Ok(())
    }

    /// Whether a transaction is there. Takes no memory.
    pub(crate) fn contains(&self, txn: &TxnId) -> bool
        ensures value { IsTrue result ↔ Contains self.now txn.now }
    {
        self.late.contains(txn) || self.rising.binary_search(txn).is_ok()
    }
}

// Whether they still rise with one more behind them: it is greater than the last, or the first.
fn rises_behind(rising: &[TxnId], txn: TxnId) -> bool
    requires rising { IsRising rising.now }
    ensures value { IsTrue result ↔ IsRising (rising.now ++ txn ∷ []) }
{
    match rising.last() {
        Some(last) => *last < txn,
        None => true,
    }
}
