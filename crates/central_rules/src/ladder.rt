//! The ladder of refusals over what is told of a site, and whether a reply is owed there.

ghost use Rattle.std.specs.Prelude.{◌≡◌, ◌<◌, ◌≤◌, ◌&&◌, ◌==◌, ◌+◌, ◌∷◌, [], true, false, nat_lt, nat_le, length, is_some, IfSome};
ghost use Rattle.field_bounds.specs.declared.entry.Reply.TheVariants.{Granted, Given, Stated, Spared, Tightened, Accepted};
ghost use Rattle.field_bounds.specs.declared.entry.Refusal.TheVariants.{TooManyEscrows};
ghost use Rattle.field_bounds.specs.declared.entry.Command.TheVariants.{Begin, Escrow, Commit, Abort, Give, Restate, Spare, Tighten, Accept, Read, Share, Restart};
ghost use Rattle.field_bounds.specs.Parts.{field_at};
ghost use Rattle.field_bounds.specs.Owed.{Place, is_up, epoch_of, count_since, is_begun_reply, is_still_down, is_unsure, count_open, count_escrows, free, own_rights_at, cut_so_far, guarded_rights, told_so_far, spare_of, gain_of, room, first, when, max_escrows, test_down, test_no_site, test_no_field, test_zero, test_too_large, test_short, test_no_share, test_self_gift, test_ledger_full, test_not_yours, test_forged, test_nothing_given};
ghost use Rattle.central_rules.specs.Ladder.{is_open_at};
ghost use Rattle.central_rules.specs.Replies.{answer_test, reply_test};

use crate::front::{Bounds, bounds_of};
use crate::same::{
    is_aborted, is_accepted, is_begun, is_between, is_committed, is_forged, is_full, is_given,
    is_granted, is_refused, is_shares, is_short, is_spared, is_stated, is_tightened, is_unsure,
    same_last, same_refusal,
};
use crate::site_counts::SiteCounts;
use field_bounds::{
    Command, FieldNo, Kind, Last, MAX_CHANGE, MAX_EPOCH, MAX_ESCROWS, MAX_NUMBER, MAX_OPEN,
    MAX_TOTAL, Refusal, Reply, Schema, SiteNo, Statement, TxnId, by_command, refuse_first,
    spared_amount,
};

/// What is told of one site, where it stands after some entries of its own: what the ladder of
/// refusals looks at. Each number is the one that the definitions sum over these entries, wherever
/// the value is one of that place; over a place that isn't its own it may be any.
pub trait AtPlace {
    /// The value tells of this place.
    ghost is_at: { Self → Place → Type 0 };

    /// The schema. Costs no memory.
    fn schema(&self) -> &Schema
        ensures value { (at : Place) → is_at self.now at → result.now ≡ at.schema };

    /// The site. Costs no memory.
    fn site(&self) -> SiteNo
        ensures value { (at : Place) → is_at self.now at → result.0 ≡ at.site };

    /// Where the site stands. Costs no memory.
    fn site_counts(&self) -> SiteCounts
        ensures up { (at : Place) → is_at self.now at → result.up ≡ is_up at.base at.entries }
        ensures epoch { (at : Place) → is_at self.now at →
            result.epoch ≡ epoch_of at.base at.entries }
        ensures begun { (at : Place) → is_at self.now at →
            result.begun ≡ count_since is_begun_reply at.entries }
        ensures still_down { (at : Place) → is_at self.now at →
            result.still_down ≡ count_since is_still_down at.entries }
        ensures unsure { (at : Place) → is_at self.now at →
            result.unsure ≡ count_since is_unsure at.entries };

    /// How many transactions are open.
    fn open_count(&self) -> usize
        ensures value { (at : Place) → is_at self.now at → result ≡ count_open at.effects };

    /// How many escrows a transaction has, or None where it isn't open.
    fn open_escrows(&self, txn: TxnId) -> Option<usize>
        ensures open { (at : Place) → is_at self.now at → is_some result ≡ is_open_at at txn }
        ensures count { (at : Place) → is_at self.now at →
            IfSome result (λ n. n ≡ count_escrows txn at.effects) };

    /// The free rights of a kind on a field of the schema.
    fn free(&self, field: FieldNo, kind: Kind) -> u128
        ensures value { (at : Place) → is_at self.now at → field.0 < length at.schema.fields →
            result ≡ free at field kind }
        ensures small { result < 42535295865117307932921825928971026432 };

    /// The rights of a kind on a field of the schema that the site owns, free and held.
    fn own_rights(&self, field: FieldNo, kind: Kind) -> u128
        ensures value { (at : Place) → is_at self.now at → field.0 < length at.schema.fields →
            result ≡ own_rights_at at field kind }
        ensures small { result ≤ 63802943797675961899382738893456539648 };

    /// The rights of a kind on a field of the schema that the site has given up for good.
    fn cut(&self, field: FieldNo, kind: Kind) -> u128
        ensures value { (at : Place) → is_at self.now at → field.0 < length at.schema.fields →
            result ≡ cut_so_far at field kind }
        ensures small { result ≤ 5316911983139663491615228241121378304 };

    /// The total given so far to a site, of a kind on a field, both of the schema.
    fn told_so_far(&self, to: SiteNo, field: FieldNo, kind: Kind) -> u128
        ensures value { (at : Place) → is_at self.now at → to.0 < at.schema.sites →
            field.0 < length at.schema.fields → result ≡ told_so_far at to field kind }
        ensures small { result ≤ 5316911983139663491615228241121378304 };

    /// What a statement has above those accepted before from its site, of a field and a site of the
    /// schema.
    fn gain(&self, told: Statement) -> u64
        ensures value { (at : Place) → is_at self.now at → told.from.0 < at.schema.sites →
            told.field.0 < length at.schema.fields →
            result ≡ gain_of at told.from told.field told.kind told.total };
}

#[inline(always)]
fn is_up<P: AtPlace>(here: &P) -> bool
    ensures { (at : Place) → P.is_at here.now at → result ≡ is_up at.base at.entries }
{
    here.site_counts().up
}

#[inline(always)]
fn has<P: AtPlace>(here: &P, field: FieldNo) -> bool
    ensures { (at : Place) → P.is_at here.now at →
        result ≡ nat_lt field.0 (length at.schema.fields) }
{
    field.0 < here.schema().fields()
}

fn knows<P: AtPlace>(here: &P, site: SiteNo) -> bool
    ensures { (at : Place) → P.is_at here.now at → result ≡ nat_lt site.0 at.schema.sites }
{
    site.0 < here.schema().sites()
}

fn is_here<P: AtPlace>(here: &P, site: SiteNo) -> bool
    ensures { (at : Place) → P.is_at here.now at → result ≡ (site.0 == at.site) }
{
    site.0 == here.site().0
}

/// What the site guards of a field of the schema.
#[inline(always)]
fn rights_guarded<P: AtPlace>(here: &P, field: FieldNo, kind: Kind) -> u128
    ensures value { (at : Place) → P.is_at here.now at → field.0 < length at.schema.fields →
        result ≡ guarded_rights at field kind }
    ensures small { result ≤ 85070591730234615865843651857942052864 }
{
    here.cut(field, kind) + here.own_rights(field, kind)
}

/// The floor and the ceiling of a field of the schema.
#[inline(always)]
fn bounds<P: AtPlace>(here: &P, field: FieldNo) -> Bounds
    ensures floor { (at : Place) → P.is_at here.now at → field.0 < length at.schema.fields →
        result.floor ≡ (field_at at.schema field.0).floor }
    ensures ceiling { (at : Place) → P.is_at here.now at → field.0 < length at.schema.fields →
        result.ceiling ≡ (field_at at.schema field.0).ceiling }
{
    let schema = here.schema();
    if field.0 < schema.fields() {
        return bounds_of(schema, field);
    }
    Bounds {
        floor: 0,
        ceiling: 0,
        value: 0,
    }
}

/// What the rights that are guarded leave of the width of a field of the schema.
fn room<P: AtPlace>(here: &P, field: FieldNo) -> u128
    ensures { (at : Place) → P.is_at here.now at → field.0 < length at.schema.fields →
        result ≡ room at field }
{
    let bounds = bounds(here, field);
    let own = rights_guarded(here, field, Kind::Lower) + rights_guarded(here, field, Kind::Raise);
    u128::from(bounds.ceiling.abs_diff(bounds.floor)).saturating_sub(own)
}

/// The first refusal of a command on a field, before its amount is looked at.
#[inline(always)]
fn field_refusal<P: AtPlace>(here: &P, field: FieldNo) -> Option<Refusal>
    ensures { (at : Place) → P.is_at here.now at →
        result ≡ first (test_down at ∷ test_no_field at field ∷ []) }
{
    refuse_first! {
        !is_up(here) => Refusal::Down,
        !has(here, field) => Refusal::NoField,
    }
}

/// The first refusal of a command that names a site and a field, before its amount is looked at.
fn gift_refusal<P: AtPlace>(here: &P, to: SiteNo, field: FieldNo) -> Option<Refusal>
    ensures { (at : Place) → P.is_at here.now at →
        result ≡ first (test_down at ∷ test_no_site at to ∷ test_no_field at field ∷ []) }
{
    refuse_first! {
        !is_up(here) => Refusal::Down,
        !knows(here, to) => Refusal::NoSite,
        !has(here, field) => Refusal::NoField,
    }
}

/// The first refusal of a statement, before its total is looked at.
fn statement_refusal<P: AtPlace>(here: &P, told: Statement) -> Option<Refusal>
    ensures { (at : Place) → P.is_at here.now at →
        result ≡ first (test_down at ∷ test_no_site at told.from ∷ test_no_site at told.to
        ∷ test_no_field at told.field ∷ []) }
{
    refuse_first! {
        !is_up(here) => Refusal::Down,
        !knows(here, told.from) => Refusal::NoSite,
        !knows(here, told.to) => Refusal::NoSite,
        !has(here, told.field) => Refusal::NoField,
    }
}

/// The refusal of an amount by its size, where it may be so large.
#[inline(always)]
fn amount_refusal(amount: u64, most: u64) -> Option<Refusal>
    ensures { result ≡ first (test_zero amount ∷ test_too_large most amount ∷ []) }
{
    refuse_first! {
        amount == 0 => Refusal::Zero,
        amount > most => Refusal::TooLarge,
    }
}

#[inline(always)]
fn fits_begin<P: AtPlace>(here: &P, reply: Reply) -> bool
    ensures { (at : Place) → P.is_at here.now at → result ≡ reply_test at Begin reply }
{
    if !is_up(here) {
        return is_refused(reply, Refusal::Down);
    }
    if here.open_count() >= MAX_OPEN {
        return is_refused(reply, Refusal::TooManyOpen);
    }
    let site_counts = here.site_counts();
    if site_counts.begun >= u64::from(MAX_NUMBER) {
        return is_refused(reply, Refusal::NumbersFull);
    }
    is_begun(reply, site_counts.epoch, site_counts.begun + 1)
}

/// Whether the reply is owed to an escrow of an open transaction with so many escrows, on a field
/// of the schema, where the amount is neither zero nor too large.
#[inline(always)]
fn fits_grant<P: AtPlace>(
    here: &P,
    field: FieldNo,
    kind: Kind,
    amount: u64,
    escrows: usize,
    reply: Reply,
) -> bool
    ensures { (at : Place) → P.is_at here.now at → field.0 < length at.schema.fields → result
        ≡ answer_test (first (test_short at field kind amount
        ∷ when (nat_le max_escrows escrows) TooManyEscrows ∷ [])) Granted false reply }
{
    let free = here.free(field, kind);
    if free < u128::from(amount) {
        return is_short(reply, free);
    }
    if escrows >= MAX_ESCROWS {
        return is_refused(reply, Refusal::TooManyEscrows);
    }
    is_granted(reply)
}

#[inline(always)]
fn fits_escrow<P: AtPlace>(here: &P, txn: TxnId, field: FieldNo, change: i64, reply: Reply) -> bool
    ensures { (at : Place) → P.is_at here.now at →
        result ≡ reply_test at (Escrow txn field change) reply }
{
    let amount = change.unsigned_abs();
    if let Some(refusal) = field_refusal(here, field) {
        return is_refused(reply, refusal);
    }
    let Some(escrows) = here.open_escrows(txn) else {
        return is_refused(reply, Refusal::NoTransaction);
    };
    if let Some(refusal) = amount_refusal(amount, MAX_CHANGE) {
        return is_refused(reply, refusal);
    }
    fits_grant(here, field, Kind::of(change), amount, escrows, reply)
}

#[inline(always)]
fn fits_commit<P: AtPlace>(here: &P, txn: TxnId, reply: Reply) -> bool
    ensures { (at : Place) → P.is_at here.now at → result ≡ reply_test at (Commit txn) reply }
{
    if !is_up(here) {
        return is_refused(reply, Refusal::Down);
    }
    let Some(escrows) = here.open_escrows(txn) else {
        return is_refused(reply, Refusal::NoTransaction);
    };
    is_committed(reply) || is_unsure(reply) && escrows > 0
}

fn fits_abort<P: AtPlace>(here: &P, txn: TxnId, reply: Reply) -> bool
    ensures { (at : Place) → P.is_at here.now at → result ≡ reply_test at (Abort txn) reply }
{
    if !is_up(here) {
        return is_refused(reply, Refusal::Down);
    }
    if here.open_escrows(txn).is_none() {
        return is_refused(reply, Refusal::NoTransaction);
    }
    is_aborted(reply)
}

/// Whether the reply is owed to a gift between sites of the schema, on a field of it, where the
/// amount is neither zero nor too large.
fn fits_gift<P: AtPlace>(
    here: &P,
    to: SiteNo,
    field: FieldNo,
    kind: Kind,
    amount: u64,
    reply: Reply,
) -> bool
    ensures { (at : Place) → P.is_at here.now at → to.0 < at.schema.sites →
        field.0 < length at.schema.fields → result
        ≡ answer_test (first (test_short at field kind amount ∷ test_self_gift at to
        ∷ test_ledger_full at to field kind amount ∷ []))
        (Given (told_so_far at to field kind + amount)) true reply }
{
    let free = here.free(field, kind);
    if free < u128::from(amount) {
        return is_short(reply, free);
    }
    if is_here(here, to) {
        return is_refused(reply, Refusal::SelfGift);
    }
    let so_far = here.told_so_far(to, field, kind);
    let total = so_far + u128::from(amount);
    if total > u128::from(MAX_TOTAL) {
        return is_full(reply, so_far);
    }
    is_given(reply, total) || is_unsure(reply)
}

fn fits_give<P: AtPlace>(
    here: &P,
    to: SiteNo,
    field: FieldNo,
    kind: Kind,
    amount: u64,
    reply: Reply,
) -> bool
    ensures { (at : Place) → P.is_at here.now at →
        result ≡ reply_test at (Give to field kind amount) reply }
{
    if let Some(refusal) = gift_refusal(here, to, field) {
        return is_refused(reply, refusal);
    }
    if let Some(refusal) = amount_refusal(amount, MAX_CHANGE) {
        return is_refused(reply, refusal);
    }
    fits_gift(here, to, field, kind, amount, reply)
}

/// Whether the reply is owed to a restatement between sites of the schema, on a field of it.
fn fits_total<P: AtPlace>(here: &P, to: SiteNo, field: FieldNo, kind: Kind, reply: Reply) -> bool
    ensures { (at : Place) → P.is_at here.now at → to.0 < at.schema.sites →
        field.0 < length at.schema.fields → result
        ≡ answer_test (first (test_self_gift at to ∷ test_nothing_given at to field kind ∷ []))
        (Stated (told_so_far at to field kind)) false reply }
{
    if is_here(here, to) {
        return is_refused(reply, Refusal::SelfGift);
    }
    let so_far = here.told_so_far(to, field, kind);
    if so_far == 0 {
        return is_refused(reply, Refusal::NothingGiven);
    }
    is_stated(reply, so_far)
}

fn fits_restate<P: AtPlace>(here: &P, to: SiteNo, field: FieldNo, kind: Kind, reply: Reply) -> bool
    ensures { (at : Place) → P.is_at here.now at →
        result ≡ reply_test at (Restate to field kind) reply }
{
    if let Some(refusal) = gift_refusal(here, to, field) {
        return is_refused(reply, refusal);
    }
    fits_total(here, to, field, kind, reply)
}

/// Whether the reply is owed to a spare between sites of the schema, on a field of it, where what
/// is wanted is neither zero nor too large.
fn fits_spared<P: AtPlace>(
    here: &P,
    to: SiteNo,
    field: FieldNo,
    kind: Kind,
    want: u64,
    reply: Reply,
) -> bool
    ensures { (at : Place) → P.is_at here.now at → to.0 < at.schema.sites →
        field.0 < length at.schema.fields → result
        ≡ answer_test (first (test_no_share at field kind ∷ test_self_gift at to
        ∷ test_ledger_full at to field kind (spare_of at field kind want) ∷ []))
        (Spared (spare_of at field kind want)
        (told_so_far at to field kind + spare_of at field kind want)) true reply }
{
    let free = here.free(field, kind);
    if free == 0 {
        return is_short(reply, free);
    }
    if is_here(here, to) {
        return is_refused(reply, Refusal::SelfGift);
    }
    let amount = spared_amount(free, want);
    let so_far = here.told_so_far(to, field, kind);
    let total = so_far + u128::from(amount);
    if total > u128::from(MAX_TOTAL) {
        return is_full(reply, so_far);
    }
    is_spared(reply, amount, total) || is_unsure(reply)
}

fn fits_spare<P: AtPlace>(
    here: &P,
    to: SiteNo,
    field: FieldNo,
    kind: Kind,
    want: u64,
    reply: Reply,
) -> bool
    ensures { (at : Place) → P.is_at here.now at →
        result ≡ reply_test at (Spare to field kind want) reply }
{
    if let Some(refusal) = gift_refusal(here, to, field) {
        return is_refused(reply, refusal);
    }
    if let Some(refusal) = amount_refusal(want, MAX_CHANGE) {
        return is_refused(reply, refusal);
    }
    fits_spared(here, to, field, kind, want, reply)
}

/// Whether the reply is owed to a tightening on a field of the schema, where the amount is neither
/// zero nor too large.
fn fits_cut<P: AtPlace>(here: &P, field: FieldNo, kind: Kind, amount: u64, reply: Reply) -> bool
    ensures { (at : Place) → P.is_at here.now at → field.0 < length at.schema.fields → result
        ≡ answer_test (first (test_short at field kind amount ∷ []))
        (Tightened (cut_so_far at field kind + amount)) true reply }
{
    let free = here.free(field, kind);
    if free < u128::from(amount) {
        return is_short(reply, free);
    }
    is_tightened(reply, here.cut(field, kind) + u128::from(amount)) || is_unsure(reply)
}

fn fits_tighten<P: AtPlace>(here: &P, field: FieldNo, kind: Kind, amount: u64, reply: Reply) -> bool
    ensures { (at : Place) → P.is_at here.now at →
        result ≡ reply_test at (Tighten field kind amount) reply }
{
    if let Some(refusal) = field_refusal(here, field) {
        return is_refused(reply, refusal);
    }
    if let Some(refusal) = amount_refusal(amount, MAX_CHANGE) {
        return is_refused(reply, refusal);
    }
    fits_cut(here, field, kind, amount, reply)
}

/// Whether the reply is owed to a statement between sites of the schema, on a field of it, where
/// the total is neither zero nor too large.
fn fits_gain<P: AtPlace>(here: &P, told: Statement, reply: Reply) -> bool
    ensures { (at : Place) → P.is_at here.now at → told.from.0 < at.schema.sites →
        told.field.0 < length at.schema.fields → result
        ≡ answer_test (first (test_self_gift at told.from ∷ test_not_yours at told.to
        ∷ test_forged at told ∷ []))
        (Accepted (gain_of at told.from told.field told.kind told.total))
        (nat_lt 0 (gain_of at told.from told.field told.kind told.total)) reply }
{
    if is_here(here, told.from) {
        return is_refused(reply, Refusal::SelfGift);
    }
    if !is_here(here, told.to) {
        return is_refused(reply, Refusal::NotYours);
    }
    let gain = here.gain(told);
    let room = room(here, told.field);
    if u128::from(gain) > room {
        return is_forged(reply, room);
    }
    is_accepted(reply, gain) || is_unsure(reply) && gain > 0
}

fn fits_accept<P: AtPlace>(here: &P, told: Statement, reply: Reply) -> bool
    ensures { (at : Place) → P.is_at here.now at → result ≡ reply_test at (Accept told) reply }
{
    if let Some(refusal) = statement_refusal(here, told) {
        return is_refused(reply, refusal);
    }
    if let Some(refusal) = amount_refusal(told.total, MAX_TOTAL) {
        return is_refused(reply, refusal);
    }
    fits_gain(here, told, reply)
}

#[inline(always)]
fn fits_read<P: AtPlace>(here: &P, field: FieldNo, reply: Reply) -> bool
    ensures { (at : Place) → P.is_at here.now at → result ≡ reply_test at (Read field) reply }
{
    if !is_up(here) {
        return is_refused(reply, Refusal::Down);
    }
    if !has(here, field) {
        return is_refused(reply, Refusal::NoField);
    }
    let bounds = bounds(here, field);
    let lower = rights_guarded(here, field, Kind::Lower);
    let raise = rights_guarded(here, field, Kind::Raise);
    is_between(reply, bounds.floor, bounds.ceiling, lower, raise)
}

fn fits_share<P: AtPlace>(here: &P, field: FieldNo, reply: Reply) -> bool
    ensures { (at : Place) → P.is_at here.now at → result ≡ reply_test at (Share field) reply }
{
    if !is_up(here) {
        return is_refused(reply, Refusal::Down);
    }
    if !has(here, field) {
        return is_refused(reply, Refusal::NoField);
    }
    is_shares(
        reply,
        here.free(field, Kind::Lower),
        here.free(field, Kind::Raise),
    )
}

fn fits_restart<P: AtPlace>(here: &P, reply: Reply) -> bool
    ensures { (at : Place) → P.is_at here.now at → result ≡ reply_test at Restart reply }
{
    let site_counts = here.site_counts();
    let epoch = u64::from(site_counts.epoch);
    let last_epoch = epoch.saturating_add(site_counts.still_down);
    match reply {
        Reply::StillDown => true,
        Reply::Refused(refusal) => {
            same_refusal(refusal, Refusal::NumbersFull) && u64::from(MAX_EPOCH) <= last_epoch
        }
        Reply::Restarted { epoch: next, last } => {
            let next = u64::from(next);
            let nothing = same_last(last, Last::Nothing);
            epoch < next
                && next <= last_epoch.saturating_add(1)
                && next <= u64::from(MAX_EPOCH)
                && if site_counts.unsure == 0 {
                    nothing
                } else {
                    !nothing
                }
        }
        _ => false,
    }
}

/// Whether the reply is one that the site owes to the command, at the place of which the value
/// tells. Costs no memory, and a few of the calls of the value.
#[inline(always)]
pub fn fits<P: AtPlace>(here: &P, command: Command, reply: Reply) -> bool
    ensures { (at : Place) → P.is_at here.now at → result ≡ reply_test at command reply }
{
    by_command! { command;
        Begin => fits_begin(here, reply),
        Escrow { txn, field, change } => fits_escrow(here, txn, field, change, reply),
        Commit { txn } => fits_commit(here, txn, reply),
        Abort { txn } => fits_abort(here, txn, reply),
        Give { to, field, kind, amount } => fits_give(here, to, field, kind, amount, reply),
        Restate { to, field, kind } => fits_restate(here, to, field, kind, reply),
        Spare { to, field, kind, want } => fits_spare(here, to, field, kind, want, reply),
        Tighten { field, kind, amount } => fits_tighten(here, field, kind, amount, reply),
        Accept(told) => fits_accept(here, told, reply),
        Read { field } => fits_read(here, field, reply),
        Share { field } => fits_share(here, field, reply),
        Restart => fits_restart(here, reply),
    }
}
