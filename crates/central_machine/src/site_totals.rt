//! The running totals of one site.

ghost use Rattle.std.specs.Prelude.{◌≡◌, ◌<◌, List, [], ◌∷◌, length, IfOk, OnOk, true};
ghost use Rattle.field_bounds.specs.declared.entry.Entry.{Entry};
ghost use Rattle.field_bounds.specs.Effects.{says_doubt_kept, Base, effect_by, wanted_by, spared_at};
ghost use Rattle.field_bounds.specs.Owed.{is_up, epoch_of, count_since, is_begun_reply, is_still_down, is_unsure};
ghost use Rattle.central_machine.specs.FieldAmounts.{amount};
ghost use Rattle.central_machine.specs.Running.{NumbersAfter, doubt_after, settled_effect, IsSite, PutsIn, GoesOn};

use crate::amounts::FieldAmounts;
use crate::journal::OpenSet;
use crate::known::by_entry;
use crate::ledger::SparseTotals;
use crate::numbers::Numbers;
use central_rules::SiteCounts;
use field_bounds::{
    Command, Effect, Entry, Last, Reply, Schema, SiteNo, effect_of, spared_amount, wanted_by,
};
use std::alloc::{AllocError, Global};

/// A site's numbers, with where it stands and what is in doubt.
#[derive(Drop)]
pub struct SiteTotals {
    pub site_counts: SiteCounts,
    pub numbers: Numbers,
    pub doubt: Option<Effect>,
}

/// What a spare in doubt has spared at shares.
#[inline(always)]
fn spared_in_doubt(shares: &FieldAmounts, command: Command, reply: Reply) -> u64
    ensures { is_unsure reply ≡ true → result ≡ spared_at (amount shares.now) (wanted_by command) }
{
    match (wanted_by(command), reply) {
        (Some((field, kind, want)), Reply::Unsure) => {
            let share = shares.at(usize::from(field.0), kind);
            spared_amount(u128::from(share), want)
        }
        _ => 0,
    }
}

/// What a command puts into effect at shares, by its reply.
#[inline(always)]
fn effect_by(shares: &FieldAmounts, command: Command, reply: Reply) -> Option<Effect>
    ensures { result ≡ effect_by (amount shares.now) command reply }
{
    effect_of(command, reply, spared_in_doubt(shares, command, reply))
}

pub fn settled(last: Last, doubt: Option<Effect>) -> Option<Effect>
    ensures { result ≡ settled_effect (says_doubt_kept last) doubt }
{
    match last {
        Last::Kept => doubt,
        Last::Nothing | Last::Lost => None,
    }
}

/// Notes where a site stands after one more entry of its own: most replies leave it as it is.
#[inline(always)]
fn note_reply(counts: &mut SiteCounts, entry: &Entry)
    ensures up { (base : Base) (o : List Entry) → counts.old.up ≡ is_up base o →
        counts.new.up ≡ is_up base (entry.now ∷ o) }
    ensures epoch { (base : Base) (o : List Entry) → counts.old.epoch ≡ epoch_of base o →
        counts.new.epoch ≡ epoch_of base (entry.now ∷ o) }
    ensures begun { (o : List Entry) → length o < 18446744073709551615 →
        counts.old.begun ≡ count_since is_begun_reply o →
        counts.new.begun ≡ count_since is_begun_reply (entry.now ∷ o) }
    ensures still_down { (o : List Entry) → length o < 18446744073709551615 →
        counts.old.still_down ≡ count_since is_still_down o →
        counts.new.still_down ≡ count_since is_still_down (entry.now ∷ o) }
    ensures unsure { (o : List Entry) → length o < 18446744073709551615 →
        counts.old.unsure ≡ count_since is_unsure o →
        counts.new.unsure ≡ count_since is_unsure (entry.now ∷ o) }
{
    match entry.reply {
        Reply::Begun(_) | Reply::Restarted { .. } | Reply::Unsure | Reply::StillDown => {
            *counts = counts.after(*entry);
        }
        _ => {}
    }
}

impl SiteTotals {
    /// The totals of a site of no entries. Takes memory for 3 numbers of each kind for each field,
    /// and 2 for each 16 places of a field and a site.
    pub fn new(alloc: Global, schema: &Schema, site: SiteNo) -> Result<SiteTotals, AllocError>
        requires site_in { site.0 < schema.now.sites }
        ensures { IfOk result (λ made. IsSite schema.now site.0 [] made) }
    {
        let fields = schema.fields();
        let size = usize::from(schema.sites()) * usize::from(fields);
        let free = FieldAmounts::parts(alloc, schema, site)?;
        let held = FieldAmounts::zeros(alloc, usize::from(fields))?;
        let cut = FieldAmounts::zeros(alloc, usize::from(fields))?;
        let given = SparseTotals::zeros(alloc, size)?;
        let accepted = SparseTotals::zeros(alloc, size)?;
        let numbers = Numbers {
            stride: fields,
            free,
            held,
            cut,
            journal: OpenSet::new(alloc),
            given,
            accepted,
        };
        Ok(SiteTotals {
            site_counts: SiteCounts::new(),
            numbers,
            doubt: None,
        })
    }

    /// What an entry of the site puts into effect.
    #[inline(always)]
    pub fn effect_by(&self, entry: &Entry) -> Option<Effect>
        ensures { result
            ≡ effect_by (amount self.now.numbers.free) entry.now.command entry.now.reply }
    {
        effect_by(&self.numbers.free, entry.command, entry.reply)
    }

    /// Takes in what a reply puts into effect. What is in doubt changes by a reply in doubt, and by
    /// a restart, which settles it.
    #[inline(always)]
    fn put_effect(
        &mut self,
        alloc: Global,
        effect: Option<Effect>,
        reply: Reply,
    ) -> Result<(), AllocError>
        ensures numbers { OnOk result (NumbersAfter effect reply self.old.doubt
            self.old.numbers self.new.numbers) }
        ensures doubt { OnOk result (self.new.doubt ≡ doubt_after effect reply self.old.doubt) }
        ensures counts { self.new.site_counts ≡ self.old.site_counts }
    {
        match reply {
            Reply::Restarted { last, .. } => {
                self.numbers.may_take(alloc, settled(last, self.doubt))?;
                self.numbers.may_take(alloc, effect)?;
                self.doubt = None;
                Ok(())
            }
            Reply::Unsure => {
                self.doubt = effect;
                Ok(())
            }
            _ => self.numbers.may_take(alloc, effect),
        }
    }

    /// Takes in the next entry of the site, which puts this into effect.
    #[inline(always)]
    pub fn put_in(
        &mut self,
        alloc: Global,
        effect: Option<Effect>,
        entry: &Entry,
    ) -> Result<(), AllocError>
        ensures { OnOk result (PutsIn effect entry.now self.old self.new) }
    {
        self.put_effect(alloc, effect, entry.reply)?;
        note_reply(&mut self.site_counts, entry);
        Ok(())
    }

    /// Takes in the next entry of the site. Inlined where the command and the reply are known, so that
    /// nothing is left there of the others.
    #[inline(always)]
    fn take_by(&mut self, alloc: Global, entry: &Entry) -> Result<(), AllocError>
        ensures { OnOk result (GoesOn entry.now self.old self.new) }
    {
        let effect = self.effect_by(entry);
        self.put_in(alloc, effect, entry)
    }

    /// The same for an entry of any kind.
    fn take_any(&mut self, alloc: Global, entry: &Entry) -> Result<(), AllocError>
        ensures { OnOk result (GoesOn entry.now self.old self.new) }
    {
        self.take_by(alloc, entry)
    }

    /// The same, with the common entries each on a way of its own.
    pub fn take_in(&mut self, alloc: Global, entry: &Entry) -> Result<(), AllocError>
        ensures { OnOk result (GoesOn entry.now self.old self.new) }
    {
        by_entry! {
            entry;
            known => self.take_by(alloc, &known);
            self.take_any(alloc, entry)
        }
    }
}
