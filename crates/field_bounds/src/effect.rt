//! What took effect at a site.

use crate::id::{FieldNo, SiteNo, TxnId};
use crate::kind::Kind;

/// What an entry did at its site, once it took effect.
#[derive(Clone, Copy, Debug, PartialEq, Eq)]
pub enum Effect {
    /// A transaction was opened.
    Begins {
        txn: TxnId,
    },
    /// A transaction set rights aside.
    Grants {
        txn: TxnId,
        field: FieldNo,
        change: i64,
    },
    /// The changes of a transaction became permanent.
    Commits {
        txn: TxnId,
    },
    /// The rights of a transaction came back.
    Aborts {
        txn: TxnId,
    },
    /// Free rights of a kind on a field left the site, so many: to another site, or for good where
    /// `to` is None.
    Gives {
        to: Option<SiteNo>,
        field: FieldNo,
        kind: Kind,
        amount: u64,
    },
    /// A statement was taken in: the rights of a kind on a field that a site has given to this one
    /// so far, all gifts together.
    Accepts {
        from: SiteNo,
        field: FieldNo,
        kind: Kind,
        total: u64,
    },
    /// The site stopped, and each open transaction was aborted.
    Stops,
}
