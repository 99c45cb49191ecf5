//! Gifts of rights: what refuses them, and what they write.

ghost use Rattle.std.specs.Prelude.{◌≡◌, ◌≢◌, ◌==◌, ◌<◌, ◌≤◌, nat_lt, true, None, length, OnErr, IfOk};
ghost use Rattle.field_bounds.specs.Owed.{first, refusals, room, told_so_far, spare_of, gain_of, max_change, max_total, is_up};
ghost use Rattle.site_step.specs.Site.{here, base_of, Applies};

use super::Site;
use field_bounds::{
    Command, Entry, FieldNo, Kind, MAX_CHANGE, MAX_TOTAL, Refusal, Reply, SiteNo, Statement,
    refuse_first,
};
use history::History;
use kept_records::{Medium, Record};
use rebalance::spare_amount;
use std::alloc::{AllocError, Global};

impl<M: Medium, H: History<Entry>> Site<M, H> {
    fn knows(&self, site: SiteNo) -> bool
        ensures { result ≡ nat_lt site.0 self.now.schema.sites }
    {
        site.0 < self.schema.sites()
    }

    fn is_here(&self, site: SiteNo) -> bool
        ensures { result ≡ (site.0 == self.now.site.0) }
    {
        site.0 == self.number.0
    }

    /// The total given so far to another site.
    fn told_so_far(&self, to: SiteNo, field: FieldNo, kind: Kind) -> u64
        requires up { is_up (base_of self.now) self.now.history ≡ true }
        requires other { to.0 ≢ self.now.site.0 }
        requires site_in { to.0 < self.now.schema.sites }
        requires field_in { field.0 < length self.now.schema.fields }
        ensures value { result ≡ told_so_far (here self.now) to field kind }
        ensures most { result ≤ max_total }
    {
        self.accounts.standing.ledger.total(to, field, kind)
    }

    /// What the site spares of its share where so much is wanted.
    fn spared_amount(&self, field: FieldNo, kind: Kind, want: u64) -> u64
        requires up { is_up (base_of self.now) self.now.history ≡ true }
        requires field_in { field.0 < length self.now.schema.fields }
        ensures value { result ≡ spare_of (here self.now) field kind want }
        ensures most { result ≤ max_change }
    {
        spare_amount(self.free(field, kind), want)
    }

    /// What a stated total has above those accepted before from its site.
    fn gain(&self, told: Statement) -> u64
        requires up { is_up (base_of self.now) self.now.history ≡ true }
        requires other { told.from.0 ≢ self.now.site.0 }
        requires site_in { told.from.0 < self.now.schema.sites }
        requires field_in { told.field.0 < length self.now.schema.fields }
        ensures value { result ≡ gain_of (here self.now) told.from told.field told.kind told.total }
    {
        told.total.saturating_sub(
            self.accounts
                .standing
                .ledger
                .accepted(told.from, told.field, told.kind),
        )
    }

    fn room(&self, field: FieldNo) -> u64
        requires up { is_up (base_of self.now) self.now.history ≡ true }
        requires field_in { field.0 < length self.now.schema.fields }
        ensures value { result ≡ room (here self.now) field }
        ensures most { result ≤ max_change }
    {
        self.accounts.standing.rights.room(field)
    }

    pub(super) fn give_refusal(
        &self,
        to: SiteNo,
        field: FieldNo,
        kind: Kind,
        amount: u64,
    ) -> Option<Refusal>
        ensures { result ≡ first (refusals (here self.now) (Command.Give to field kind amount)) }
    {
        refuse_first! {
            !self.is_up() => Refusal::Down,
            !self.knows(to) => Refusal::NoSite,
            !self.has(field) => Refusal::NoField,
            amount == 0 => Refusal::Zero,
            amount > MAX_CHANGE => Refusal::TooLarge,
            self.free(field, kind) < amount => Refusal::Short { share: self.free(field, kind) },
            self.is_here(to) => Refusal::SelfGift,
            self.told_so_far(to, field, kind) + amount > MAX_TOTAL => Refusal::LedgerFull {
                total: self.told_so_far(to, field, kind),
            },
        }
    }

    pub(super) fn restate_refusal(&self, to: SiteNo, field: FieldNo, kind: Kind) -> Option<Refusal>
        ensures { result ≡ first (refusals (here self.now) (Command.Restate to field kind)) }
    {
        refuse_first! {
            !self.is_up() => Refusal::Down,
            !self.knows(to) => Refusal::NoSite,
            !self.has(field) => Refusal::NoField,
            self.is_here(to) => Refusal::SelfGift,
            self.told_so_far(to, field, kind) == 0 => Refusal::NothingGiven,
        }
    }

    pub(super) fn spare_refusal(
        &self,
        to: SiteNo,
        field: FieldNo,
        kind: Kind,
        want: u64,
    ) -> Option<Refusal>
        ensures { result ≡ first (refusals (here self.now) (Command.Spare to field kind want)) }
    {
        refuse_first! {
            !self.is_up() => Refusal::Down,
            !self.knows(to) => Refusal::NoSite,
            !self.has(field) => Refusal::NoField,
            want == 0 => Refusal::Zero,
            want > MAX_CHANGE => Refusal::TooLarge,
            self.free(field, kind) == 0 => Refusal::Short { share: self.free(field, kind) },
            self.is_here(to) => Refusal::SelfGift,
            self.told_so_far(to, field, kind) + self.spared_amount(field, kind, want) > MAX_TOTAL =>
                Refusal::LedgerFull { total: self.told_so_far(to, field, kind) },
        }
    }

    pub(super) fn accept_refusal(&self, told: Statement) -> Option<Refusal>
        ensures { result ≡ first (refusals (here self.now) (Command.Accept told)) }
    {
        refuse_first! {
            !self.is_up() => Refusal::Down,
            !self.knows(told.from) => Refusal::NoSite,
            !self.knows(told.to) => Refusal::NoSite,
            !self.has(told.field) => Refusal::NoField,
            told.total == 0 => Refusal::Zero,
            told.total > MAX_TOTAL => Refusal::TooLarge,
            self.is_here(told.from) => Refusal::SelfGift,
            !self.is_here(told.to) => Refusal::NotYours,
            self.gain(told) > self.room(told.field) =>
                Refusal::Forged { room: self.room(told.field) },
        }
    }

    pub(super) fn give(
        &mut self,
        alloc: Global,
        to: SiteNo,
        field: FieldNo,
        kind: Kind,
        amount: u64,
    ) -> Result<Reply, AllocError>
        requires unrefused { first (refusals (here self.old) (Command.Give to field kind amount))
            ≡ None }
        ensures ok { IfOk result (λ reply. Applies self.old
            (Command.Give to field kind amount) reply self.new) }
        ensures err { OnErr result (self.new ≡ self.old) }
    {
        let total = self.told_so_far(to, field, kind) + amount;
        let record = Record::Gift {
            to,
            field,
            kind,
            total,
        };
        let command = Command::Give {
            to,
            field,
            kind,
            amount,
        };
        self.keep(alloc, command, &record, Reply::Given { total })
    }

    pub(super) fn restate(
        &mut self,
        to: SiteNo,
        field: FieldNo,
        kind: Kind,
    ) -> Result<Reply, AllocError>
        requires unrefused { first (refusals (here self.old) (Command.Restate to field kind))
            ≡ None }
        ensures ok { IfOk result (λ reply. Applies self.old
            (Command.Restate to field kind) reply self.new) }
        ensures err { OnErr result (self.new ≡ self.old) }
    {
        let total = self.told_so_far(to, field, kind);
        self.answer(
            Command::Restate { to, field, kind },
            Reply::Stated { total },
        )
    }

    pub(super) fn spare(
        &mut self,
        alloc: Global,
        to: SiteNo,
        field: FieldNo,
        kind: Kind,
        want: u64,
    ) -> Result<Reply, AllocError>
        requires unrefused { first (refusals (here self.old) (Command.Spare to field kind want))
            ≡ None }
        ensures ok { IfOk result (λ reply. Applies self.old
            (Command.Spare to field kind want) reply self.new) }
        ensures err { OnErr result (self.new ≡ self.old) }
    {
        let amount = self.spared_amount(field, kind, want);
        let total = self.told_so_far(to, field, kind) + amount;
        let record = Record::Gift {
            to,
            field,
            kind,
            total,
        };
        let command = Command::Spare {
            to,
            field,
            kind,
            want,
        };
        self.keep(alloc, command, &record, Reply::Spared { amount, total })
    }

    pub(super) fn accept(&mut self, alloc: Global, told: Statement) -> Result<Reply, AllocError>
        requires unrefused { first (refusals (here self.old) (Command.Accept told)) ≡ None }
        ensures ok { IfOk result (λ reply. Applies self.old (Command.Accept told) reply self.new) }
        ensures err { OnErr result (self.new ≡ self.old) }
    {
        let gain = self.gain(told);
        let command = Command::Accept(told);
        if gain == 0 {
            return self.answer(command, Reply::Accepted { gain });
        }
        let record = Record::Accept {
            from: told.from,
            field: told.field,
            kind: told.kind,
            total: told.total,
        };
        self.keep(alloc, command, &record, Reply::Accepted { gain })
    }
}
