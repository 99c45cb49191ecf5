//! What a site that is up holds in memory.

ghost use Rattle.std.specs.Prelude.{◌≡◌, true, []};
ghost use Rattle.kept_records.specs.declared.record.Record.TheVariants.{Restart};
ghost use Rattle.kept_records.specs.Text.{IsRecord};
ghost use Rattle.site_rights.specs.Rights.{ending, by_escrows, AreInRange, AreHeld};
ghost use Rattle.escrow_journal.specs.Journal.{is_listed, escrows_at, without};
ghost use Rattle.log_replay.specs.Standing.{HasSlots, CanTakeIn, TakesIn};
ghost use Rattle.site_step.specs.State.{CanClose, CanEnd, CanSettle, CanCarry, after_release, after_spending, after_end, after_settling, before_taking_in};

use escrow_journal::Journal;
use field_bounds::{Command, Schema, TxnId, txn_ended};
use kept_records::Record;
use log_replay::Standing;
use site_rights::{Outcome, Rights};

/// What the kept records stand for, the open transactions, whose escrows are held there, and the
/// number of the last transaction begun in the epoch.
#[derive(Drop)]
pub(crate) struct SiteAccounts {
    pub standing: Standing,
    pub journal: Journal,
    pub last: u32,
}

/// Takes an open transaction out of the journal, and ends what it holds: it is given back, or it
/// turns.
fn end(journal: &mut Journal, rights: &mut Rights, txn: TxnId, outcome: Outcome)
    requires open { is_listed txn journal.old ≡ true }
    requires in_schema { AreInRange rights.old (escrows_at txn journal.old) }
    requires there { AreHeld rights.old (escrows_at txn journal.old) }
    ensures journal { journal.new ≡ without txn journal.old }
    ensures rights { rights.new ≡ by_escrows (ending outcome) rights.old
        (escrows_at txn journal.old) }
{
    let escrows = journal.take_out(txn).unwrap();
    rights.end(&escrows, outcome);
    journal.reuse(escrows);
}

impl SiteAccounts {
    /// Ends an open transaction: what it holds is given back.
    fn release(&mut self, txn: TxnId)
        requires can { CanClose self.old txn }
        ensures released { self.new ≡ after_release txn self.old }
    {
        end(
            &mut self.journal,
            &mut self.standing.rights,
            txn,
            Outcome::Aborted,
        );
    }

    /// Ends an open transaction whose commit was appended: what it holds turns. That is what
    /// `carry_out` of its record comes to, which gives back, takes anew and turns.
    pub(crate) fn spend(&mut self, txn: TxnId)
        requires can { CanClose self.old txn }
        ensures spent { self.new ≡ after_spending txn self.old }
    {
        end(
            &mut self.journal,
            &mut self.standing.rights,
            txn,
            Outcome::Committed,
        );
    }

    // Releases a transaction that ends, where one does.
    fn end_with(&mut self, ended: Option<TxnId>)
        requires can { CanEnd self.old ended }
        ensures ended { self.new ≡ after_end self.old ended }
    {
        if let Some(txn) = ended {
            self.release(txn);
        }
    }

    /// Does what a command does that writes no record: an end releases its transaction.
    pub(crate) fn settle(&mut self, command: Command)
        requires can { CanSettle self.old command }
        ensures settled { self.new ≡ after_settling self.old command }
    {
        self.end_with(txn_ended(command));
    }

    /// Takes in the record that was appended, as a restart does. A commit's transaction is released
    /// first.
    pub(crate) fn carry_out(&mut self, schema: &Schema, kept: &Record)
        requires can { CanCarry schema.now self.old kept.now }
        requires ranges { IsRecord kept.now }
        ensures took { TakesIn schema.now (before_taking_in self.old kept.now).standing kept.now
            true self.new.standing }
        ensures journal { self.new.journal ≡ (before_taking_in self.old kept.now).journal }
        ensures last { self.new.last ≡ self.old.last }
    {
        self.end_with(kept.commit_told());
        let took = self.standing.take_in(schema, kept);
        prove!(took);
    }

    /// Stands on what the records of a log stand for, and on the restart behind them: no
    /// transaction is open.
    pub(crate) fn stand_on(&mut self, schema: &Schema, standing: Standing, epoch: u32)
        requires places { HasSlots schema.now standing.rights standing.ledger }
        requires can { CanTakeIn schema.now standing (Restart epoch) }
        requires ranges { IsRecord (Restart epoch) }
        ensures took { TakesIn schema.now standing (Restart epoch) true self.new.standing }
        ensures journal { self.new.journal ≡ [] }
        ensures last { self.new.last ≡ 0 }
    {
        self.standing = standing;
        self.journal.clear();
        self.last = 0;
        let took = self.standing.take_in(schema, &Record::Restart { epoch });
        prove!(took);
    }
}
