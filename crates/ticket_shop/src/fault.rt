//! Why the shop can't go on.

use field_bounds::{Entry, SchemaFault};
use site_desk::{DeskFault, ReceiptFault};
use site_step::OpenFault;
use std::alloc::AllocError;
use std::{fmt, io};
use thiserror::Error;
use trace_weave::WeaveFault;

/// Why the shop can't go on. `main` prints its `Debug`, which is the text of its `Display`.
#[derive(Drop, Error)]
pub enum ShopFault {
    #[error("header {0}")]
    Header(#[from] SchemaFault),
    #[error("the schema has {0} sites, and the shop has 3")]
    Sites(u16),
    #[error("not opened: {0}")]
    Open(#[from] OpenFault),
    #[error("not served: {0}")]
    Desk(#[from] DeskFault),
    /// A reply that leaves the shop nothing to do, as one of a site that stays down.
    #[error("{0:?}")]
    Reply(Entry),
    #[error("a desk has {0} entries, and its passes tell another number")]
    Close(u64),
    #[error("{0}")]
    Receipts(#[from] ReceiptFault),
    #[error("{0:?}")]
    Weave(WeaveFault),
    #[error(transparent)]
    Print(#[from] io::Error),
    #[error(transparent)]
    Memory(#[from(alloc)] AllocError),
}

impl fmt::Debug for ShopFault {
    fn fmt<W: fmt::Write>(&self, f: &mut fmt::Formatter<W>) -> fmt::Result {
        write!(f, "{self}")
    }
}
