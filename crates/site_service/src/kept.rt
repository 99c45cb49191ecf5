//! Which commits a log holds.

ghost use Rattle.std.specs.Prelude.{◌≡◌, ◌↔◌, ◌⊎◌, ℕ, List, true, drop, Contains, IfOk, OnOk, OnErr};
ghost use Rattle.field_bounds.specs.declared.id.TxnId.{TxnId as Txn};
ghost use Rattle.kept_records.specs.Keeping.{IsKept};
ghost use Rattle.field_bounds.specs.declared.entry.Escrow.{Escrow};
ghost use Rattle.kept_records.specs.Lent.{record_told};
ghost use Rattle.kept_records.specs.Logs.{HasNoLf};
ghost use Rattle.site_step.specs.Shortening.{is_commit_of};
ghost use Rattle.site_service.specs.Kept.{TellsCommit};
ghost use Rattle.site_service.specs.Index.{IsIndexOf};

use crate::txn_set::TxnSet;
use field_bounds::TxnId;
use kept_records::{CommonRecord, LentRecords, Record, RecordLine, by_line};
use std::alloc::{AllocError, Global};

/// The transactions whose commits are among the records in the first so many bytes of a log. What
/// the log has got since is looked at when it is asked: so each record is read once, and a look-up
/// costs a step for each doubling of their number. A site's transactions rise, so that their commits
/// mostly rise in a log too: only those that were open at once can change places.
#[derive(Drop)]
pub(crate) struct KeptCommits {
    txns: TxnSet,
    seen: usize,
}

impl KeptCommits {
    /// Those in front of the first byte: none. Takes no memory.
    pub(crate) fn new(alloc: Global) -> KeptCommits
        ensures none { (bytes : List ℕ) → IsIndexOf result bytes }
    {
        KeptCommits {
            txns: TxnSet::new(alloc),
            seen: 0,
        }
    }

    // Takes in one more record, of which a commit alone counts.
    fn take_in(&mut self, next: &Record) -> Result<(), AllocError>
        ensures ok { OnOk result ((txn : Txn) → Contains self.new.txns txn
            ↔ ((is_commit_of txn next.now ≡ true) ⊎ Contains self.old.txns txn)) }
        ensures err { OnErr result (self.new ≡ self.old) }
        ensures seen { self.new.seen ≡ self.old.seen }
    {
        if let Record::Commit { txn, .. } = next {
            self.txns.insert(*txn)?;
        }
        Ok(())
    }

    // The same of a record that is lent, whatever its escrows are.
    fn take_common(&mut self, next: CommonRecord) -> Result<(), AllocError>
        ensures ok { OnOk result ((txn : Txn) (escrows : List Escrow)
            → Contains self.new.txns txn
            ↔ ((is_commit_of txn (record_told next escrows) ≡ true)
            ⊎ Contains self.old.txns txn)) }
        ensures err { OnErr result (self.new ≡ self.old) }
        ensures seen { self.new.seen ≡ self.old.seen }
    {
        if let CommonRecord::Commit { txn } = next {
            self.txns.insert(txn)?;
        }
        Ok(())
    }

    // Looks at what stands behind the bytes that were looked at.
    fn look(&mut self, alloc: Global, log: &[u8]) -> Result<(), AllocError>
        requires index { IsIndexOf self.old log.now }
        requires log { IsKept log.now }
        ensures index { IsIndexOf self.new log.now }
        ensures all { OnOk result (HasNoLf (drop self.new.seen log.now)) }
    {
        let mut records = LentRecords::new(alloc, &log[self.seen..]);
        by_line! { 'records: records.next_common(), records.next_line(alloc)?;
            Some(next) => {
                self.take_common(next)?;
                self.seen = log.len() - records.left();
            },
            RecordLine::Record(record) => {
                self.take_in(&record)?;
                records.give_back(record);
                let left = records.left();
                self.seen = log.len() - left;
            },
            RecordLine::NoRecord => unreachable!(),
            RecordLine::End => break 'records,
        }
        Ok(())
    }

    /// Whether the commit of a transaction is among the records of the log. The error is want of
    /// memory.
    pub(crate) fn holds(
        &mut self,
        alloc: Global,
        log: &[u8],
        txn: TxnId,
    ) -> Result<bool, AllocError>
        requires index { IsIndexOf self.old log.now }
        requires log { IsKept log.now }
        ensures index { IsIndexOf self.new log.now }
        ensures kept { IfOk result (TellsCommit log.now txn) }
    {
        self.look(alloc, log)?;
        Ok(self.txns.contains(&txn))
    }
}
