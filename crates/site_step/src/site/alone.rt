//! A record that is written with no summary behind it, as most are.

ghost use Rattle.std.specs.Prelude.{◌≡◌, [], ◌∷◌, None, OnErr, IfOk};
ghost use Rattle.field_bounds.specs.Owed.{first, refusals, answer};
ghost use Rattle.kept_state.specs.Keeps.{record_left};
ghost use Rattle.site_step.specs.Site.{here, Applies};

use super::Site;
use super::ending::end_append;
use crate::extent::is_due;
use field_bounds::{Command, Entry, Reply};
use history::History;
use kept_records::{Medium, Record, append_record};
use std::alloc::{AllocError, Global};

impl<M: Medium, H: History<Entry>> Site<M, H> {
    /// Carries out this record of a command, once it stands whole, and adds the command's entry, as
    /// `write` does. Costs less than that where no summary is due behind the record, as mostly.
    // A summary that isn't due has over 100 bytes, which `write` moves from call to call: so where
    // none is, this doesn't speak of one.
    pub(super) fn keep(
        &mut self,
        alloc: Global,
        command: Command,
        kept: &Record,
        reply: Reply,
    ) -> Result<Reply, AllocError>
        requires unrefused { first (refusals (here self.old) command) ≡ None }
        requires kept { record_left (here self.old) command ≡ kept.now ∷ [] }
        requires owed { reply ≡ answer (here self.old) command }
        ensures ok { IfOk result (λ answered. Applies self.old command answered self.new) }
        ensures err { OnErr result (self.new ≡ self.old) }
    {
        if is_due(self.extent.behind) {
            return self.write(alloc, command, kept, reply);
        }
        self.history.reserve(1)?;
        end_append! {
            self, command, reply;
            append_record(&mut self.line, &mut self.medium, kept)? =>
                self.accounts.carry_out(&self.schema, kept)
        }
    }
}
