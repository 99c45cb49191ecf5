//! The running totals of a judge.

ghost use Rattle.std.specs.Prelude.{◌≡◌, ◌<◌, ℕ, length, slice_get, List, ◌∷◌, [], OnOk, IfOk, Some, None};
ghost use Rattle.field_bounds.specs.declared.entry.Entry.{Entry};
ghost use Rattle.field_bounds.specs.Effects.{fresh};
ghost use Rattle.central_rules.specs.Entries.{most_entries};
ghost use Rattle.central_rules.specs.declared.verdict.Verdict.TheVariants.{Legal};
ghost use Rattle.central_rules.specs.declared.verdict.Rule.TheVariants.{Reply as Owed};
ghost use Rattle.central_rules.specs.Verdict.{broken_rule, verdict_back, test_of};
ghost use Rattle.central_machine.specs.Parts.{field_broken, totals_broken};
ghost use Rattle.central_machine.specs.Running.{IsSite};
ghost use Rattle.central_machine.specs.FrontTotals.{AreTotals};
ghost use Rattle.central_rules.specs.Replies.{reply_test};
ghost use Rattle.field_bounds.specs.Owed.{place};

use crate::field_sums::FieldSums;
use crate::field_tests::shortage_holds;
use crate::known::by_entry;
use crate::owed::RunningSite;
use crate::site_totals::SiteTotals;
use central_rules::{Rule, fits};
use field_bounds::{Command, Entry, Reply, Schema, SiteNo};
use std::alloc::{AllocError, Global};

/// The totals of a front: the sums of the fields, and the totals of each site.
#[derive(Drop)]
pub struct FrontTotals {
    pub sums: FieldSums,
    pub sites: Vec<SiteTotals>,
}

/// Whether a site owes the reply, where its totals say that it stands.
#[inline(always)]
pub fn reply_fits(schema: &Schema, site: SiteNo, totals: &SiteTotals, entry: &Entry) -> bool
    ensures { (o : List Entry) → IsSite schema.now site.0 o totals.now → result
        ≡ reply_test (place schema.now site.0 (fresh schema.now site.0) o) entry.now.command
        entry.now.reply }
{
    let here = RunningSite {
        schema,
        site,
        totals,
    };
    fits(&here, entry.command, entry.reply)
}

/// The totals of each site of no entries.
fn sites_of(alloc: Global, schema: &Schema) -> Result<Vec<SiteTotals>, AllocError>
    ensures count { IfOk result (λ sites. length sites.items ≡ schema.now.sites) }
    ensures each { IfOk result (λ sites. (s : ℕ) (y : SiteTotals) →
        slice_get sites.items s ≡ Some y → IsSite schema.now s [] y) }
{
    let mut sites = Vec::new(alloc);
    for site in 0..schema.sites() {
        sites.push(SiteTotals::new(alloc, schema, SiteNo(site))?)?;
    }
    Ok(sites)
}

impl FrontTotals {
    /// The totals of no entries.
    pub fn new(alloc: Global, schema: &Schema) -> Result<FrontTotals, AllocError>
        ensures { IfOk result (λ made. AreTotals schema.now [] made) }
    {
        let sums = FieldSums::new(alloc, schema)?;
        let sites = sites_of(alloc, schema)?;
        Ok(FrontTotals { sums, sites })
    }

    /// Whether the entry keeps the rule on replies: it is one that the site owes.
    #[inline(always)]
    pub fn reply_holds(&self, schema: &Schema, entry: &Entry) -> bool
        requires site_in { entry.now.site.0 < schema.now.sites }
        ensures { (t : List Entry) → AreTotals schema.now t self.now →
            result ≡ test_of schema.now t entry.now Owed }
    {
        match self.sites.get(usize::from(entry.site.0)) {
            Some(totals) => reply_fits(schema, entry.site, totals, entry),
            None => false,
        }
    }

    /// Takes the totals of a front to those of the front with the next entry: first the sums, by
    /// what the site's totals tell of the entry, and then these. Inlined where the command and the
    /// reply are known, so that nothing is left there of the others.
    #[inline(always)]
    pub fn step_by(
        &mut self,
        alloc: Global,
        schema: &Schema,
        entry: &Entry,
    ) -> Result<(), AllocError>
        ensures { OnOk result ((t : List Entry) → length t < most_entries →
            AreTotals schema.now t self.old → verdict_back schema.now t ≡ Legal →
            broken_rule schema.now t entry.now ≡ None →
            AreTotals schema.now (entry.now ∷ t) self.new) }
    {
        let _sites = schema.sites();
        match self.sites.get_mut(usize::from(entry.site.0)) {
            Some(site) => {
                let effect = site.effect_by(entry);
                let journal = &site.numbers.journal;
                self.sums.after(journal, site.doubt, effect, entry.reply);
                site.put_in(alloc, effect, entry)
            }
            None => Ok(()),
        }
    }

    /// The first rule on fields that the next entry breaks: of Grant, Shortage and Interval, each by its
    /// own test.
    #[inline(always)]
    pub fn field_broken(&self, schema: &Schema, entry: &Entry) -> Option<Rule>
        ensures { (t : List Entry) → AreTotals schema.now t self.now →
            result ≡ field_broken schema.now t entry.now }
    {
        let Some(site) = self.sites.get(usize::from(entry.site.0)) else {
            return None;
        };
        if !self.sums.grant_holds(schema, entry) {
            return Some(Rule::Grant);
        }
        if !shortage_holds(schema, &site.numbers.free, entry) {
            return Some(Rule::Shortage);
        }
        if !self.sums.interval_holds(schema, entry) {
            return Some(Rule::Interval);
        }
        None
    }

    /// The first rule that the next entry breaks by what the totals tell: one on fields, or Reply.
    /// Of an entry of no site nothing is told.
    #[inline(always)]
    fn totals_broken(&self, schema: &Schema, entry: &Entry) -> Option<Rule>
        ensures { (t : List Entry) → AreTotals schema.now t self.now →
            result ≡ totals_broken schema.now t entry.now }
    {
        if entry.site.0 >= schema.sites() {
            return None;
        }
        if let Some(rule) = self.field_broken(schema, entry) {
            return Some(rule);
        }
        if !self.reply_holds(schema, entry) {
            return Some(Rule::Reply);
        }
        None
    }

    /// Tests the next entry by the totals, and takes it in where it breaks no such rule. Inlined
    /// where the command and the reply are known, so that nothing is left there of the others.
    #[inline(always)]
    fn take_by(
        &mut self,
        alloc: Global,
        schema: &Schema,
        entry: &Entry,
    ) -> Result<Option<Rule>, AllocError>
        ensures rule { IfOk result (λ rule. (t : List Entry) → AreTotals schema.now t self.old →
            rule ≡ totals_broken schema.now t entry.now) }
        ensures totals { IfOk result (λ rule. (t : List Entry) → length t < most_entries →
            AreTotals schema.now t self.old → verdict_back schema.now t ≡ Legal → rule ≡ None →
            broken_rule schema.now t entry.now ≡ None →
            AreTotals schema.now (entry.now ∷ t) self.new) }
    {
        if let Some(rule) = self.totals_broken(schema, entry) {
            return Ok(Some(rule));
        }
        self.step_by(alloc, schema, entry)?;
        Ok(None)
    }

    /// The same for an entry of any kind.
    fn take_any(
        &mut self,
        alloc: Global,
        schema: &Schema,
        entry: &Entry,
    ) -> Result<Option<Rule>, AllocError>
        ensures rule { IfOk result (λ rule. (t : List Entry) → AreTotals schema.now t self.old →
            rule ≡ totals_broken schema.now t entry.now) }
        ensures totals { IfOk result (λ rule. (t : List Entry) → length t < most_entries →
            AreTotals schema.now t self.old → verdict_back schema.now t ≡ Legal → rule ≡ None →
            broken_rule schema.now t entry.now ≡ None →
            AreTotals schema.now (entry.now ∷ t) self.new) }
    {
        self.take_by(alloc, schema, entry)
    }

    /// The same, with the common entries each on a way of its own.
    pub fn take_in(
        &mut self,
        alloc: Global,
        schema: &Schema,
        entry: &Entry,
    ) -> Result<Option<Rule>, AllocError>
        ensures rule { IfOk result (λ rule. (t : List Entry) → AreTotals schema.now t self.old →
            rule ≡ totals_broken schema.now t entry.now) }
        ensures totals { IfOk result (λ rule. (t : List Entry) → length t < most_entries →
            AreTotals schema.now t self.old → verdict_back schema.now t ≡ Legal → rule ≡ None →
            broken_rule schema.now t entry.now ≡ None →
            AreTotals schema.now (entry.now ∷ t) self.new) }
    {
        by_entry! { entry; known => self.take_by(alloc, schema, &known); self.take_any(alloc, schema, entry) }
    }
}
