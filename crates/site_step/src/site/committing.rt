//! A commit, whose record is written from the escrows where they stand.

ghost use Rattle.std.specs.Prelude.{◌≡◌, None, OnErr, IfOk};
ghost use Rattle.field_bounds.specs.Owed.{first, refusals};
ghost use Rattle.site_step.specs.Site.{here, Applies};

use super::Site;
use super::ending::end_append;
use crate::extent::is_due;
use field_bounds::{Command, Entry, Reply, TxnId};
use history::History;
use kept_records::{Escrows, Medium, Record, append_commit};
use std::alloc::{AllocError, Global};

impl<M: Medium, H: History<Entry>> Site<M, H> {
    /// Commits an open transaction and adds the command's entry. Where it has escrows, its record is
    /// appended, and what they hold turns once the record stands whole; where it has none, nothing
    /// is written.
    // Commits are most of what is written. So where no summary is due behind the record, it is
    // written from the escrows where they stand, with no list made of them and one step for each;
    // where one is due, `write` does it.
    pub(super) fn commit(&mut self, alloc: Global, txn: TxnId) -> Result<Reply, AllocError>
        requires unrefused { first (refusals (here self.old) (Command.Commit txn)) ≡ None }
        ensures ok { IfOk result (λ reply. Applies self.old (Command.Commit txn) reply self.new) }
        ensures err { OnErr result (self.new ≡ self.old) }
    {
        let command = Command::Commit { txn };
        let escrows = self.accounts.journal.escrows(txn).unwrap();
        if escrows.is_empty() {
            return self.answer(command, Reply::Committed);
        }
        if is_due(self.extent.behind) {
            let escrows = Escrows::new(Vec::from_slice(alloc, escrows)?);
            let kept = Record::Commit { txn, escrows };
            return self.write(alloc, command, &kept, Reply::Committed);
        }
        self.history.reserve(1)?;
        end_append! {
            self, command, Reply::Committed;
            append_commit(&mut self.line, &mut self.medium, txn, escrows)? =>
                self.accounts.spend(txn)
        }
    }
}
