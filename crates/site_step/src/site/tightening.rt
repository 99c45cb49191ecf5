//! Rights given up for good: what refuses that, and what it writes.

ghost use Rattle.std.specs.Prelude.{◌≡◌, ◌<◌, ◌≤◌, true, None, length, OnErr, IfOk};
ghost use Rattle.field_bounds.specs.Owed.{first, refusals, cut_so_far, max_change, is_up};
ghost use Rattle.site_step.specs.Site.{here, base_of, Applies};

use super::Site;
use field_bounds::{Command, Entry, FieldNo, Kind, MAX_CHANGE, Refusal, Reply, refuse_first};
use history::History;
use kept_records::{Medium, Record};
use std::alloc::{AllocError, Global};

impl<M: Medium, H: History<Entry>> Site<M, H> {
    /// What the site has given up so far of a kind on the field.
    fn cut_so_far(&self, field: FieldNo, kind: Kind) -> u64
        requires up { is_up (base_of self.now) self.now.history ≡ true }
        requires field_in { field.0 < length self.now.schema.fields }
        ensures value { result ≡ cut_so_far (here self.now) field kind }
        ensures most { result ≤ max_change }
    {
        self.accounts.standing.rights.tightened(field, kind)
    }

    pub(super) fn tighten_refusal(&self, field: FieldNo, kind: Kind, amount: u64) -> Option<Refusal>
        ensures { result ≡ first (refusals (here self.now) (Command.Tighten field kind amount)) }
    {
        refuse_first! {
            !self.is_up() => Refusal::Down,
            !self.has(field) => Refusal::NoField,
            amount == 0 => Refusal::Zero,
            amount > MAX_CHANGE => Refusal::TooLarge,
            self.free(field, kind) < amount => Refusal::Short { share: self.free(field, kind) },
        }
    }

    pub(super) fn tighten(
        &mut self,
        alloc: Global,
        field: FieldNo,
        kind: Kind,
        amount: u64,
    ) -> Result<Reply, AllocError>
        requires unrefused { first (refusals (here self.old) (Command.Tighten field kind amount))
            ≡ None }
        ensures ok { IfOk result (λ reply. Applies self.old
            (Command.Tighten field kind amount) reply self.new) }
        ensures err { OnErr result (self.new ≡ self.old) }
    {
        let total = self.cut_so_far(field, kind) + amount;
        let record = Record::Tighten { field, kind, total };
        let command = Command::Tighten {
            field,
            kind,
            amount,
        };
        self.keep(alloc, command, &record, Reply::Tightened { total })
    }
}
