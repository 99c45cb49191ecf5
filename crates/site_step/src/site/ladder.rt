//! What a site tells of where it stands, and the refusals of each command in their order.

ghost use Rattle.std.specs.Prelude.{◌≡◌, ◌&&◌, ◌∷◌, [], ◌<◌, ◌≤◌, nat_lt, true, None, length};
ghost use Rattle.field_bounds.specs.Effects.{is_begun, is_open};
ghost use Rattle.field_bounds.specs.Owed.{max_change, count_open, count_escrows, count_since, is_begun_reply, free, test_down, test_no_field, test_no_transaction, interval_at, first, refusals, is_up};
ghost use Rattle.site_step.specs.Site.{here, base_of};

use super::Site;
use field_bounds::{
    Command, Entry, FieldNo, Kind, MAX_CHANGE, MAX_ESCROWS, MAX_NUMBER, MAX_OPEN, Refusal, TxnId,
    by_command, refuse_first,
};
use history::History;
use kept_records::Medium;

impl<M: Medium, H: History<Entry>> Site<M, H> {
    pub(super) fn has(&self, field: FieldNo) -> bool
        ensures { result ≡ nat_lt field.0 (length self.now.schema.fields) }
    {
        field.0 < self.schema.fields()
    }

    fn is_open(&self, txn: TxnId) -> bool
        requires up { is_up (base_of self.now) self.now.history ≡ true }
        ensures { result ≡ (is_begun txn (here self.now).effects
            && is_open txn (here self.now).effects) }
    {
        self.accounts.journal.is_open(txn)
    }

    fn open_count(&self) -> usize
        requires up { is_up (base_of self.now) self.now.history ≡ true }
        ensures { result ≡ count_open (here self.now).effects }
    {
        self.accounts.journal.count()
    }

    fn escrow_count(&self, txn: TxnId) -> usize
        requires up { is_up (base_of self.now) self.now.history ≡ true }
        requires open { (is_begun txn (here self.now).effects
            && is_open txn (here self.now).effects) ≡ true }
        ensures { result ≡ count_escrows txn (here self.now).effects }
    {
        self.accounts.journal.escrows(txn).unwrap().len()
    }

    fn begun_count(&self) -> u32
        requires up { is_up (base_of self.now) self.now.history ≡ true }
        ensures { result ≡ count_since is_begun_reply self.now.history }
    {
        self.accounts.last
    }

    pub(super) fn free(&self, field: FieldNo, kind: Kind) -> u64
        requires up { is_up (base_of self.now) self.now.history ≡ true }
        requires field_in { field.0 < length self.now.schema.fields }
        ensures value { result ≡ free (here self.now) field kind }
        ensures most { result ≤ max_change }
    {
        self.accounts.standing.rights.free(field, kind)
    }

    /// The first refusal of a command's ladder that holds.
    pub(super) fn refusal(&self, command: Command) -> Option<Refusal>
        ensures { result ≡ first (refusals (here self.now) command) }
    {
        by_command! { command;
            Begin => self.begin_refusal(),
            Escrow { txn, field, change } => self.escrow_refusal(txn, field, change),
            Commit { txn } => self.end_refusal(txn),
            Abort { txn } => self.end_refusal(txn),
            Give { to, field, kind, amount } => self.give_refusal(to, field, kind, amount),
            Restate { to, field, kind } => self.restate_refusal(to, field, kind),
            Spare { to, field, kind, want } => self.spare_refusal(to, field, kind, want),
            Tighten { field, kind, amount } => self.tighten_refusal(field, kind, amount),
            Accept(told) => self.accept_refusal(told),
            Read { field } => self.field_refusal(field),
            Share { field } => self.field_refusal(field),
            Restart => None,
        }
    }

    fn begin_refusal(&self) -> Option<Refusal>
        ensures { result ≡ first (refusals (here self.now) Command.Begin) }
    {
        refuse_first! {
            !self.is_up() => Refusal::Down,
            self.open_count() >= MAX_OPEN => Refusal::TooManyOpen,
            self.begun_count() >= MAX_NUMBER => Refusal::NumbersFull,
        }
    }

    fn escrow_refusal(&self, txn: TxnId, field: FieldNo, change: i64) -> Option<Refusal>
        ensures { result ≡ first (refusals (here self.now) (Command.Escrow txn field change)) }
    {
        let kind = Kind::of(change);
        let amount = change.unsigned_abs();
        refuse_first! {
            !self.is_up() => Refusal::Down,
            !self.has(field) => Refusal::NoField,
            !self.is_open(txn) => Refusal::NoTransaction,
            amount == 0 => Refusal::Zero,
            amount > MAX_CHANGE => Refusal::TooLarge,
            self.free(field, kind) < amount => Refusal::Short { share: self.free(field, kind) },
            self.escrow_count(txn) >= MAX_ESCROWS => Refusal::TooManyEscrows,
        }
    }

    fn end_refusal(&self, txn: TxnId) -> Option<Refusal>
        ensures { result ≡ first (test_down (here self.now)
            ∷ test_no_transaction (here self.now) txn ∷ []) }
    {
        refuse_first! {
            !self.is_up() => Refusal::Down,
            !self.is_open(txn) => Refusal::NoTransaction,
        }
    }

    fn field_refusal(&self, field: FieldNo) -> Option<Refusal>
        ensures { result ≡ first (test_down (here self.now) ∷ test_no_field (here self.now) field
            ∷ []) }
    {
        refuse_first! {
            !self.is_up() => Refusal::Down,
            !self.has(field) => Refusal::NoField,
        }
    }

    /// The schema's floor raised by what the site guards of its width below, and the schema's
    /// ceiling lowered by what it guards above.
    pub(super) fn bounds_known(&self, field: FieldNo) -> (i64, i64)
        requires up { is_up (base_of self.now) self.now.history ≡ true }
        requires field_in { field.0 < length self.now.schema.fields }
        ensures { result ≡ interval_at (here self.now) field }
    {
        self.accounts.standing.rights.interval(&self.schema, field)
    }
}
