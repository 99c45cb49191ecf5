//! How sites, fields and transactions are named.

ghost use Rattle.std.specs.Prelude.{◌≡◌};
ghost use Rattle.field_bounds.specs.Effects.{same_txn, is_up_to};

/// A site of a schema by its number, from 0. A value may lie outside any schema.
#[derive(Clone, Copy, Debug, PartialEq, Eq, PartialOrd, Ord, Hash)]
pub struct SiteNo(pub u16);

/// A field of a schema by its place in the header, from 0. A value may lie outside any schema.
#[derive(Clone, Copy, Debug, PartialEq, Eq, PartialOrd, Ord, Hash)]
pub struct FieldNo(pub u16);

/// A transaction at its site: the epoch in which it was begun, and its number there, from 1.
#[derive(Clone, Copy, Debug, PartialEq, Eq, PartialOrd, Ord, Hash)]
pub struct TxnId {
    pub epoch: u32,
    pub number: u32,
}

/// Whether two ids name one transaction: their epochs are alike, and their numbers. Costs no memory.
#[inline(always)]
pub fn same_txn(one: TxnId, other: TxnId) -> bool
    ensures value { result ≡ same_txn one other }
{
    one.epoch == other.epoch && one.number == other.number
}

/// Whether a transaction is of an earlier epoch than the first, or of its epoch with a number up to
/// its own. Costs no memory.
#[inline(always)]
pub fn is_up_to(latest: TxnId, txn: TxnId) -> bool
    ensures value { result ≡ is_up_to latest txn }
{
    txn.epoch < latest.epoch || (txn.epoch == latest.epoch && txn.number <= latest.number)
}
