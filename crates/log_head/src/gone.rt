//! What a head tells.

use crate::horizon::Horizon;

/// What was let go of a log, since its site was created.
#[derive(Drop)]
pub struct Gone {
    /// How many bytes of records.
    pub bytes: u64,
    /// How many records, summaries not counted.
    pub records: u64,
    /// Up to which transaction commits may be among them.
    pub horizon: Horizon,
}

/// What stands behind the head of a log.
#[derive(Drop)]
pub enum HeadKind {
    /// Version 1: all records of the site, in no batches.
    Plain,
    /// Version 2: all records of the site, in batches that sums close.
    Sealed,
    /// Version 3: the records of the site that were not let go, a summary the first of them, in
    /// batches that sums close.
    Shortened(Gone),
}

/// The head of a log.
#[derive(Drop)]
pub struct Head {
    pub kind: HeadKind,
    /// How many bytes it has.
    pub length: usize,
}
