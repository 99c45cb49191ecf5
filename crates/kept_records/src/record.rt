//! What a record is.

ghost use Rattle.std.specs.Prelude.{◌≡◌, false, IfSome, IfNone};
ghost use Rattle.kept_records.specs.Kinds.{commit_told, restart_told};
ghost use Rattle.kept_records.specs.Stands.{is_summary, later};
ghost use Rattle.kept_records.specs.Summary.{summary_record};

use crate::summary::Summary;
use crate::total::{Cuts, OwnRights, Totals};
use field_bounds::{Escrow, FieldNo, Kind, SiteNo, TxnId};
use std::marker::Model;

/// The escrows of a committed transaction, in the order in which they were granted. Contracts see
/// them as a list, so that two records of the same escrows are equal.
///
/// Source: O'Neil 1986 (the escrow journal).
#[derive(Drop)]
pub struct Escrows {
    held: Vec<Escrow>,
}

impl Model for Escrows {
    ghost use Rattle.std.specs.Prelude.{List};
    ghost use Rattle.field_bounds.specs.declared.entry.Escrow.{Escrow};

    ghost Value = { List Escrow };

    ghost view = { λ e. e.held.items };
}

impl Escrows {
    /// These escrows, in their order. Takes no memory.
    pub fn new(held: Vec<Escrow>) -> Escrows
        ensures all { result ≡ held.items }
    {
        Escrows { held }
    }

    /// The escrows, in their order. Takes no memory.
    pub fn as_slice(&self) -> &[Escrow]
        ensures all { result.now ≡ self.now }
    {
        &self.held
    }

    /// The memory that holds them.
    pub(crate) fn into_buffer(self) -> Vec<Escrow>
        ensures all { result.items ≡ self }
    {
        self.held
    }
}

/// What a site keeps of what it answered, so that it stands the same after a stop. Each record is
/// one line of text.
///
/// A record's numbers may lie outside the ranges of the text: then it has no place in a log, and
/// `write_record` doesn't take it.
#[derive(Drop)]
pub enum Record {
    /// A transaction was committed, with 1 to 16 escrows: epoch 0 to 1,000,000,000, number 1 to
    /// 1,000,000,000, each change other than 0 and without its sign at most
    /// 2,000,000,000,000,000.
    Commit {
        txn: TxnId,
        escrows: Escrows,
    },
    /// Rights of a kind were given to a site. `total` is all that it was given so far, 1 to
    /// 1,000,000,000,000,000,000 rights.
    Gift {
        to: SiteNo,
        field: FieldNo,
        kind: Kind,
        total: u64,
    },
    /// Rights of a kind were accepted from a site. `total` is what it stated to have given so far,
    /// 1 to 1,000,000,000,000,000,000 rights.
    Accept {
        from: SiteNo,
        field: FieldNo,
        kind: Kind,
        total: u64,
    },
    /// Rights of a kind on a field were given up for good. `total` is all that was given up of them
    /// so far, 1 to 2,000,000,000,000,000 rights.
    Tighten {
        field: FieldNo,
        kind: Kind,
        total: u64,
    },
    /// The site restarted in this epoch, 1 to 1,000,000,000.
    Restart {
        epoch: u32,
    },
    /// What the records before it stand for: the epoch, 0 to 1,000,000,000, and the own rights of
    /// each field, 1 to 256 of them, which together are at most 2,000,000,000,000,000 a field; the
    /// totals given and accepted, which rise strictly by site, field and kind, and those given up
    /// for good, which rise strictly by field and kind. It tells nothing new: a log stands for the
    /// same with it and without it, and what it tells needn't be read again.
    Summary {
        epoch: u32,
        rights: OwnRights,
        gifts: Totals,
        accepts: Totals,
        tightenings: Cuts,
    },
}

impl Record {
    /// The transaction that the record commits: None where it is no commit. Costs no memory.
    #[inline(always)]
    pub fn commit_told(&self) -> Option<TxnId>
        ensures value { result ≡ commit_told self.now }
    {
        match self {
            Record::Commit { txn, .. } => Some(*txn),
            Record::Gift { .. }
            | Record::Accept { .. }
            | Record::Tighten { .. }
            | Record::Restart { .. }
            | Record::Summary { .. } => None,
        }
    }

    /// The epoch in which the site restarted: None where the record tells of no restart. Costs no
    /// memory.
    #[inline(always)]
    pub fn restart_told(&self) -> Option<u32>
        ensures value { result ≡ restart_told self.now }
    {
        match self {
            Record::Restart { epoch } => Some(*epoch),
            Record::Commit { .. }
            | Record::Gift { .. }
            | Record::Accept { .. }
            | Record::Tighten { .. }
            | Record::Summary { .. } => None,
        }
    }

    /// The epoch of a site behind the record, where it was this one before. Costs no memory.
    #[inline(always)]
    pub fn epoch_behind(&self, epoch: u32) -> u32
        ensures value { result ≡ later epoch self.now }
    {
        match self.restart_told() {
            Some(new) => epoch.max(new),
            None => epoch,
        }
    }

    /// Whether the record is a summary, which tells nothing new. Costs no memory.
    #[inline(always)]
    pub fn is_summary(&self) -> bool
        ensures value { result ≡ is_summary self.now }
    {
        match self {
            Record::Summary { .. } => true,
            Record::Commit { .. }
            | Record::Gift { .. }
            | Record::Accept { .. }
            | Record::Tighten { .. }
            | Record::Restart { .. } => false,
        }
    }

    /// The summary that the record is: None where it is another. Costs no memory.
    pub fn into_summary(self) -> Option<Summary>
        ensures some { IfSome result (λ base. summary_record base ≡ self) }
        ensures none { IfNone result (is_summary self ≡ false) }
    {
        match self {
            Record::Summary {
                epoch,
                rights,
                gifts,
                accepts,
                tightenings,
            } => Some(Summary::new(epoch, rights, gifts, accepts, tightenings)),
            Record::Commit { .. }
            | Record::Gift { .. }
            | Record::Accept { .. }
            | Record::Tighten { .. }
            | Record::Restart { .. } => None,
        }
    }
}
