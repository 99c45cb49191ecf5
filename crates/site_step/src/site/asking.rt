//! What a command does that writes no record: it begins, escrows, reads, or tells of the shares.

ghost use Rattle.std.specs.Prelude.{◌≡◌, None, OnErr, IfOk};
ghost use Rattle.field_bounds.specs.Owed.{first, refusals};
ghost use Rattle.site_step.specs.Site.{here, Applies};

use super::Site;
use field_bounds::{Command, Entry, FieldNo, Kind, Reply, TxnId};
use history::History;
use kept_records::Medium;
use std::alloc::AllocError;

impl<M: Medium, H: History<Entry>> Site<M, H> {
    pub(super) fn begin(&mut self) -> Result<Reply, AllocError>
        requires unrefused { first (refusals (here self.old) Command.Begin) ≡ None }
        ensures ok { IfOk result (λ reply. Applies self.old Command.Begin reply self.new) }
        ensures err { OnErr result (self.new ≡ self.old) }
    {
        self.history.reserve(1)?;
        let txn = TxnId {
            epoch: self.accounts.standing.epoch,
            number: self.accounts.last + 1,
        };
        self.accounts.journal.begin(txn)?;
        self.accounts.last += 1;
        let reply = Reply::Begun(txn);
        self.history.push_reserved(Entry {
            site: self.number,
            command: Command::Begin,
            reply,
        });
        Ok(reply)
    }

    pub(super) fn grant(
        &mut self,
        txn: TxnId,
        field: FieldNo,
        change: i64,
    ) -> Result<Reply, AllocError>
        requires unrefused { first (refusals (here self.old) (Command.Escrow txn field change))
            ≡ None }
        ensures ok { IfOk result (λ reply. Applies self.old
            (Command.Escrow txn field change) reply self.new) }
        ensures err { OnErr result (self.new ≡ self.old) }
    {
        self.history.reserve(1)?;
        self.accounts.journal.add(txn, field, change)?;
        self.accounts
            .standing
            .rights
            .take(field, Kind::of(change), change.unsigned_abs())
            .unwrap();
        self.history.push_reserved(Entry {
            site: self.number,
            command: Command::Escrow { txn, field, change },
            reply: Reply::Granted,
        });
        Ok(Reply::Granted)
    }

    pub(super) fn read(&mut self, field: FieldNo) -> Result<Reply, AllocError>
        requires unrefused { first (refusals (here self.old) (Command.Read field)) ≡ None }
        ensures ok { IfOk result (λ reply. Applies self.old (Command.Read field) reply self.new) }
        ensures err { OnErr result (self.new ≡ self.old) }
    {
        let (lo, hi) = self.bounds_known(field);
        self.answer(Command::Read { field }, Reply::Between { lo, hi })
    }

    pub(super) fn tell_shares(&mut self, field: FieldNo) -> Result<Reply, AllocError>
        requires unrefused { first (refusals (here self.old) (Command.Share field)) ≡ None }
        ensures ok { IfOk result (λ reply. Applies self.old (Command.Share field) reply self.new) }
        ensures err { OnErr result (self.new ≡ self.old) }
    {
        let lower = self.free(field, Kind::Lower);
        let raise = self.free(field, Kind::Raise);
        self.answer(Command::Share { field }, Reply::Shares { lower, raise })
    }
}
