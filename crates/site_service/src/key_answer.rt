//! What is told of the key of a caller.

use field_bounds::TxnId;

/// Which commit is kept with a key.
#[derive(Clone, Copy, Debug, PartialEq, Eq)]
pub enum KeyAnswer {
    /// That of this transaction, which is among the log's records.
    Kept(TxnId),
    /// None is, and none was.
    No,
    /// None is among the records that are held; one may be among those that were let go.
    Forgotten,
}
