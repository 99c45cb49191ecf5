//! How a command is refused, settled without a record, or written to the medium and carried out.

ghost use Rattle.std.specs.Prelude.{◌≡◌, ℕ, List, [], ◌∷◌, true, false, None, Some, OnErr, IfOk};
ghost use Rattle.std.specs.List.{AllByRecursion};
ghost use Rattle.kept_records.specs.declared.record.Record.{Record};
ghost use Rattle.kept_records.specs.Text.{IsRecord};
ghost use Rattle.kept_records.specs.Logs.{IsLog};
ghost use Rattle.kept_records.specs.Keeping.{with_due};
ghost use Rattle.kept_records.specs.Stands.{piece};
ghost use Rattle.field_bounds.specs.Owed.{first, refusals, answer, writes};
ghost use Rattle.kept_state.specs.Keeps.{record_left};
ghost use Rattle.site_step.specs.Site.{here, Applies};
ghost use Rattle.site_step.specs.State.{is_carried};

use super::Site;
use super::ending::end_append;
use crate::extent::due_behind;
use field_bounds::{Command, Entry, Refusal, Reply};
use history::History;
use kept_records::{Medium, Record, Summary, append_piece};
use std::alloc::{AllocError, Global};

impl<M: Medium, H: History<Entry>> Site<M, H> {
    /// Adds the entry of a refusal.
    pub(super) fn refuse(&mut self, command: Command, refusal: Refusal) -> Result<Reply, AllocError>
        requires refused { first (refusals (here self.old) command) ≡ Some refusal }
        ensures ok { IfOk result (λ answered. Applies self.old command answered self.new) }
        ensures err { OnErr result (self.new ≡ self.old) }
    {
        self.history.reserve(1)?;
        let reply = Reply::Refused(refusal);
        self.history.push_reserved(Entry {
            site: self.number,
            command,
            reply,
        });
        Ok(reply)
    }

    /// Settles a command that writes no record, and adds its entry.
    pub(super) fn answer(&mut self, command: Command, reply: Reply) -> Result<Reply, AllocError>
        requires unrefused { first (refusals (here self.old) command) ≡ None }
        requires carried { is_carried command ≡ true }
        requires silent { writes (here self.old) command ≡ false }
        requires owed { reply ≡ answer (here self.old) command }
        ensures ok { IfOk result (λ answered. Applies self.old command answered self.new) }
        ensures err { OnErr result (self.new ≡ self.old) }
    {
        self.history.reserve(1)?;
        self.accounts.settle(command);
        self.history.push_reserved(Entry {
            site: self.number,
            command,
            reply,
        });
        Ok(reply)
    }

    /// The summary that is due behind the record of a command, where one is.
    fn due(
        &self,
        alloc: Global,
        command: Command,
        kept: &Record,
    ) -> Result<Option<Summary>, AllocError>
        requires unrefused { first (refusals (here self.now) command) ≡ None }
        requires kept { record_left (here self.now) command ≡ kept.now ∷ [] }
        ensures due { IfOk result (λ due. (rs : List Record) (rest : List ℕ)
            → IsLog self.now.bytes rs rest →
            with_due kept.now due ≡ piece self.now.schema self.now.site.0 rs kept.now) }
        ensures ranges { IfOk result (λ due. AllByRecursion IsRecord (with_due kept.now due)) }
    {
        due_behind(
            alloc,
            &self.schema,
            &self.accounts.standing,
            self.extent.behind,
            kept,
        )
    }

    /// Carries out this record of a command, once it stands whole, and adds the command's entry.
    /// The summary that is due behind the record is appended with it. Where none is, `keep` costs
    /// less.
    pub(super) fn write(
        &mut self,
        alloc: Global,
        command: Command,
        kept: &Record,
        reply: Reply,
    ) -> Result<Reply, AllocError>
        requires unrefused { first (refusals (here self.old) command) ≡ None }
        requires kept { record_left (here self.old) command ≡ kept.now ∷ [] }
        requires owed { reply ≡ answer (here self.old) command }
        ensures ok { IfOk result (λ answered. Applies self.old command answered self.new) }
        ensures err { OnErr result (self.new ≡ self.old) }
    {
        self.history.reserve(1)?;
        let due = self.due(alloc, command, kept)?;
        end_append! {
            self, command, reply;
            append_piece(&mut self.line, &mut self.medium, kept, due)? =>
                self.accounts.carry_out(&self.schema, kept)
        }
    }
}
