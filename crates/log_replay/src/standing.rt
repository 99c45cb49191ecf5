//! What records stand for, and the step by which one more is taken in.

ghost use Rattle.std.specs.Prelude.{◌≡◌, ◌<◌, ◌≤◌, ◌&&◌, [], ℕ, List, true, false, IfOk, IsTrue, ◌↔◌};
ghost use Rattle.std.specs.List.{list_all, AllByRecursion};
ghost use Rattle.field_bounds.specs.declared.kind.Kind.{Kind};
ghost use Rattle.field_bounds.specs.Schema.{SchemaValue};
ghost use Rattle.field_bounds.specs.Owed.{max_total};
ghost use Rattle.kept_records.specs.declared.record.Record.{Record};
ghost use Rattle.kept_records.specs.declared.record.Record.TheVariants.{Commit, Gift, Accept, Tighten, Restart};
ghost use Rattle.kept_records.specs.Text.{IsRecord, IsSummary};
ghost use Rattle.kept_records.specs.Stands.{is_field, is_other_site, is_summary, Lawful};
ghost use Rattle.kept_records.specs.Summary.{rises, cut_told_more, cut_told, rights_of};
ghost use Rattle.kept_records.specs.Summaries.{TellsOf};
ghost use Rattle.kept_records.specs.Lent.{record_told};
ghost use Rattle.site_rights.specs.Rights.{AreInRange, by_escrows, after_take};
ghost use Rattle.gift_ledger.specs.Ledger.{IsSlot, total_at, accepted_at};
ghost use Rattle.log_replay.specs.Standing.{HasSlots, IsStandingFor, AreFree, TakesIn, is_on_field};
ghost use Rattle.log_replay.specs.Resuming.{NotesGifts, NotesAccepts};

use field_bounds::{Escrow, FieldNo, Kind, Schema, SiteNo, TxnId};
use gift_ledger::Ledger;
use kept_records::{CommonRecord, Cut, Record, Summary, Total};
use site_rights::{Outcome, Rights};
use std::alloc::{AllocError, Global};

/// What the records of a site taken in so far stand for, and what its open transactions hold of it.
/// A log that is read comes to one with no rights held; a site that is up stands on one too, and
/// takes in each record that it appends.
///
/// Source: Balegas and others 2015 for the rights and the totals; this project for the epoch.
#[derive(Drop)]
pub struct Standing {
    /// The own rights of the site on each field, those that are free and those that are held, and
    /// what it has given up for good.
    pub rights: Rights,
    /// The totals that it gave to and accepted from each other site, in rights.
    pub ledger: Ledger,
    /// The epoch of the last restart, 0 to 1,000,000,000, and 0 where there was none.
    pub epoch: u32,
}

impl Standing {
    /// What no records stand for: the site's parts with none of them held, nothing given up, given
    /// or accepted, and epoch 0. The error is want of memory. Costs memory for a row of each field,
    /// and for one of each site and field; no later call takes memory.
    pub fn new(alloc: Global, schema: &Schema, site: SiteNo) -> Result<Standing, AllocError>
        requires site_in { site.0 < schema.now.sites }
        ensures nothing { IfOk result (λ standing. IsStandingFor schema.now site.0 [] standing) }
    {
        Ok(Standing {
            rights: Rights::new(alloc, schema, site)?,
            ledger: Ledger::new(alloc, schema, site)?,
            epoch: 0,
        })
    }

    /// What a summary tells, with no rights held. The summary tells what some lawful records of the
    /// site stand for, and the standing is then for them. The error is want of memory. Costs memory
    /// for a row of each field, and for one of each site and field, and a pass over the tightenings
    /// that the summary tells for each field.
    pub fn of_summary(
        alloc: Global,
        schema: &Schema,
        site: SiteNo,
        summary: &Summary,
    ) -> Result<Standing, AllocError>
        requires site_in { site.0 < schema.now.sites }
        requires in_range { IsSummary summary.now }
        requires tells { (rs : List Record) × Lawful schema.now site.0 rs
            × TellsOf schema.now site.0 summary.now rs }
        ensures stands { IfOk result (λ standing. (rs : List Record)
            → TellsOf schema.now site.0 summary.now rs
            → IsStandingFor schema.now site.0 rs standing) }
    {
        let _sites = schema.sites();
        let mut ledger = Ledger::new(alloc, schema, site)?;
        note_gifts(&mut ledger, summary.gifts());
        note_accepts(&mut ledger, summary.accepts());
        let cuts = cut_rows(alloc, schema.fields(), summary.tightenings())?;
        let rights = Rights::of(alloc, schema, summary.rights(), &cuts)?;
        Ok(Standing {
            rights,
            ledger,
            epoch: summary.epoch(),
        })
    }

    /// Takes in the next record, and answers whether it did. It does exactly where a commit is of
    /// the standing's epoch, a restart's epoch and each total are above the one before, what the
    /// record spends is free and what it adds has room. Where no rights are held, that is exactly
    /// where the record may stand behind those before it. The standing is then for the old records
    /// and for this one, and what was held stays held. Where it doesn't, nothing is claimed of what
    /// is left.
    ///
    /// The schema is the one that the standing was made for, and the record's numbers lie in the
    /// ranges that `Record` tells. It is no summary: a summary is compared with what the records
    /// before it stand for, which `replay` does, and adds nothing to it. Costs one step for each
    /// escrow of the record, and no memory.
    ///
    /// Source: O'Neil 1986 for the commit; Balegas and others 2015 for the gift and the acceptance;
    /// this project for the tightening, the restart and for what each of them has to meet.
    pub fn take_in(&mut self, schema: &Schema, next: &Record) -> bool
        requires places { HasSlots schema.now self.old.rights self.old.ledger }
        requires in_range { IsRecord next.now }
        requires plain { is_summary next.now ≡ false }
        ensures takes_in { TakesIn schema.now self.old next.now result self.new }
    {
        match next {
            Record::Commit { txn, escrows } => self.commit(schema, *txn, escrows.as_slice()),
            Record::Gift {
                to,
                field,
                kind,
                total,
            } => self.give(schema, *to, *field, *kind, *total),
            Record::Accept {
                from,
                field,
                kind,
                total,
            } => self.accept(schema, *from, *field, *kind, *total),
            Record::Tighten { field, kind, total } => self.tighten(schema, *field, *kind, *total),
            Record::Restart { epoch } => self.restart(*epoch),
            Record::Summary { .. } => unreachable!(),
        }
    }

    /// Takes in the next record where it is one that a reader lends, with the escrows of a commit.
    /// Of it the same is said as of `take_in`.
    #[inline(always)]
    pub fn take_common(&mut self, schema: &Schema, told: CommonRecord, escrows: &[Escrow]) -> bool
        requires places { HasSlots schema.now self.old.rights self.old.ledger }
        requires in_range { IsRecord (record_told told escrows.now) }
        ensures takes_in { TakesIn schema.now self.old
            (record_told told escrows.now) result self.new }
    {
        match told {
            CommonRecord::Commit { txn } => self.commit(schema, txn, escrows),
            CommonRecord::Gift {
                to,
                field,
                kind,
                total,
            } => self.give(schema, to, field, kind, total),
            CommonRecord::Accept {
                from,
                field,
                kind,
                total,
            } => self.accept(schema, from, field, kind, total),
            CommonRecord::Tighten { field, kind, total } => {
                self.tighten(schema, field, kind, total)
            }
            CommonRecord::Restart { epoch } => self.restart(epoch),
        }
    }

    /// Takes in a commit. Most have one escrow: the code is there a second time for that number,
    /// which is known there, so that its loops are gone.
    fn commit(&mut self, schema: &Schema, txn: TxnId, escrows: &[Escrow]) -> bool
        requires places { HasSlots schema.now self.old.rights self.old.ledger }
        ensures takes_in { TakesIn schema.now self.old (Commit txn escrows.now) result self.new }
    {
        if escrows.len() == 1 {
            return self.commit_all(schema, txn, &escrows[..1]);
        }
        self.commit_all(schema, txn, escrows)
    }

    /// Takes in a commit: it is of the standing's epoch, and spends what is owned.
    #[inline(always)]
    fn commit_all(&mut self, schema: &Schema, txn: TxnId, escrows: &[Escrow]) -> bool
        requires places { HasSlots schema.now self.old.rights self.old.ledger }
        ensures takes_in { TakesIn schema.now self.old (Commit txn escrows.now) result self.new }
    {
        if txn.epoch != self.epoch || !are_fields(schema, escrows) {
            return false;
        }
        if !take_all(&mut self.rights, escrows) {
            return false;
        }
        self.rights.end(escrows, Outcome::Committed);
        true
    }

    /// Takes in a gift: its total is above the one before by what is owned, which leaves.
    fn give(&mut self, schema: &Schema, to: SiteNo, field: FieldNo, kind: Kind, total: u64) -> bool
        requires places { HasSlots schema.now self.old.rights self.old.ledger }
        requires small { total ≤ max_total }
        ensures takes_in { TakesIn schema.now self.old (Gift to field kind total) result self.new }
    {
        if !self.has_place(schema, to, field) {
            return false;
        }
        let before = self.ledger.total(to, field, kind);
        if total <= before {
            return false;
        }
        let amount = total - before;
        if self.rights.free(field, kind) < amount {
            return false;
        }
        self.rights.drop_free(field, kind, amount);
        self.ledger.give(to, field, kind, amount).is_ok()
    }

    /// Takes in an acceptance: its total is above the one before by what there is room for, which
    /// comes to the site.
    fn accept(
        &mut self,
        schema: &Schema,
        from: SiteNo,
        field: FieldNo,
        kind: Kind,
        total: u64,
    ) -> bool
        requires places { HasSlots schema.now self.old.rights self.old.ledger }
        ensures takes_in { TakesIn schema.now self.old
            (Accept from field kind total) result self.new }
    {
        if !self.has_place(schema, from, field) {
            return false;
        }
        let before = self.ledger.accepted(from, field, kind);
        if total <= before || total - before > self.rights.room(field) {
            return false;
        }
        let gain = self.ledger.accept(from, field, kind, total);
        self.rights.add(field, kind, gain);
        true
    }

    /// Takes in a tightening: its total is above the one before by what is owned, which is given
    /// up.
    fn tighten(&mut self, schema: &Schema, field: FieldNo, kind: Kind, total: u64) -> bool
        requires places { HasSlots schema.now self.old.rights self.old.ledger }
        ensures takes_in { TakesIn schema.now self.old (Tighten field kind total) result self.new }
    {
        if field.0 >= schema.fields() {
            return false;
        }
        let so_far = self.rights.tightened(field, kind);
        if total <= so_far {
            return false;
        }
        self.rights.tighten(field, kind, total - so_far).is_ok()
    }

    /// Takes in a restart: its epoch is above every one before.
    fn restart(&mut self, epoch: u32) -> bool
        ensures takes_in { (schema : SchemaValue) → TakesIn schema self.old
            (Restart epoch) result self.new }
    {
        if epoch <= self.epoch {
            return false;
        }
        self.epoch = epoch;
        true
    }

    /// Whether it is another site of the schema, and a field of it.
    fn has_place(&self, schema: &Schema, site: SiteNo, field: FieldNo) -> bool
        ensures { result ≡ (is_other_site schema.now self.now.ledger.site site.0
            && is_field schema.now field.0) }
    {
        site.0 < schema.sites() && site.0 != self.ledger.site().0 && field.0 < schema.fields()
    }
}

/// Gives the totals that were given, each of which is told once, at a ledger that has given nothing.
fn note_gifts(ledger: &mut Ledger, gifts: &[Total])
    requires places { AllByRecursion (λ t. IsSlot ledger.old t.site.0 t.field.0) gifts.now }
    requires small { AllByRecursion (λ t. t.total ≤ max_total) gifts.now }
    requires rises { rises gifts.now ≡ true }
    requires nothing { (r f : ℕ) (k : Kind) → total_at ledger.old r f k ≡ 0 }
    ensures noted { NotesGifts ledger.old gifts.now ledger.new }
{
    for told in gifts {
        let given = ledger
            .give(told.site, told.field, told.kind, told.total)
            .is_ok();
        prove!(given);
    }
}

/// Accepts the totals that were accepted, each of which is told once, at a ledger that has accepted
/// nothing.
fn note_accepts(ledger: &mut Ledger, accepts: &[Total])
    requires places { AllByRecursion (λ t. IsSlot ledger.old t.site.0 t.field.0) accepts.now }
    requires rises { rises accepts.now ≡ true }
    requires nothing { (r f : ℕ) (k : Kind) → accepted_at ledger.old r f k ≡ 0 }
    ensures noted { NotesAccepts ledger.old accepts.now ledger.new }
{
    for told in accepts {
        let _gain = ledger.accept(told.site, told.field, told.kind, told.total);
    }
}

/// The total given up of a field and a kind, told after the one before.
pub(crate) fn cut_or(told: &Cut, field: FieldNo, kind: Kind, before: u64) -> u64
    ensures value { result ≡ cut_told_more field.0 kind before told.now }
{
    if told.field.0 == field.0 && told.kind == kind {
        told.total
    } else {
        before
    }
}

/// The total given up of a field and a kind.
fn cut_told(cuts: &[Cut], field: FieldNo, kind: Kind) -> u64
    ensures value { result ≡ cut_told cuts.now field.0 kind }
{
    let mut total = 0;
    for told in cuts {
        total = cut_or(told, field, kind, total);
    }
    total
}

/// What was given up of each field, to lower and to raise it. Costs a pass over what was given up
/// for each field.
fn cut_rows(alloc: Global, fields: u16, cuts: &[Cut]) -> Result<Vec<(u64, u64)>, AllocError>
    ensures { IfOk result (λ rows. rows.items ≡ rights_of (cut_told cuts.now) fields) }
{
    let mut rows = Vec::new(alloc);
    for number in 0..fields {
        let lower = cut_told(cuts, FieldNo(number), Kind::Lower);
        let raise = cut_told(cuts, FieldNo(number), Kind::Raise);
        rows.push((lower, raise))?;
    }
    Ok(rows)
}

/// Whether each escrow is on a field of the schema.
#[inline(always)]
fn are_fields(schema: &Schema, escrows: &[Escrow]) -> bool
    ensures { result ≡ list_all (is_on_field schema.now) escrows.now }
{
    escrows
        .iter()
        .all(|escrow| escrow.field.0 < schema.fields())
}

/// Sets the rights aside that escrows take, one after another, and answers whether so many were
/// free. Where they weren't, nothing is claimed of what is left.
#[inline(always)]
fn take_all(rights: &mut Rights, escrows: &[Escrow]) -> bool
    requires in_range { AreInRange rights.old escrows.now }
    ensures enough { IsTrue result ↔ AreFree rights.old escrows.now }
    ensures taken { result ≡ true → rights.new ≡ by_escrows after_take rights.old escrows.now }
{
    for escrow in escrows {
        let kind = Kind::of(escrow.change);
        let amount = escrow.change.unsigned_abs();
        if rights.take(escrow.field, kind, amount).is_err() {
            return false;
        }
    }
    true
}
