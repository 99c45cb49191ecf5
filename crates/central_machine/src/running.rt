//! The running totals of a judge that goes over the entries.

ghost use Rattle.std.specs.Prelude.{◌≡◌, ◌≢◌, ◌<◌, length, List, ◌∷◌, [], OnOk, IfOk, None};
ghost use Rattle.field_bounds.specs.declared.entry.Entry.{Entry};
ghost use Rattle.field_bounds.specs.Schema.{SchemaValue};
ghost use Rattle.central_rules.specs.Entries.{most_entries};
ghost use Rattle.central_rules.specs.declared.verdict.Verdict.TheVariants.{Legal};
ghost use Rattle.central_rules.specs.declared.verdict.Rule.TheVariants.{Statement as Told};
ghost use Rattle.central_rules.specs.Verdict.{broken_rule, first_broken, verdict_back, test_of};
ghost use Rattle.central_machine.specs.FrontTotals.{AreRunning};
ghost use Rattle.central_machine.specs.Parts.{field_tests};

use crate::known::by_entry;
use crate::statements;
use crate::totals::FrontTotals;
use central_rules::Rule;
use field_bounds::{Command, Entry, Reply, Schema};
use statement_set::StatementSet;
use std::alloc::{AllocError, Global};

/// The totals of a front: those of all sites, and the statements issued.
#[derive(Drop)]
pub struct Running {
    pub totals: FrontTotals,
    pub issued: StatementSet,
}

impl Running {
    /// The totals of no entries.
    pub fn new(alloc: Global, schema: &Schema) -> Result<Running, AllocError>
        ensures { IfOk result (λ made. AreRunning schema.now [] made) }
    {
        Ok(Running {
            totals: FrontTotals::new(alloc, schema)?,
            issued: StatementSet::new(alloc),
        })
    }

    /// Whether the entry keeps the rule on statements.
    #[inline(always)]
    fn statement_holds(&self, entry: &Entry) -> bool
        ensures { (schema : SchemaValue) (t : List Entry) → AreRunning schema t self.now →
            result ≡ test_of schema t entry.now Told }
    {
        statements::holds(&self.issued, entry)
    }

    /// The first of the rules Grant, Shortage and Interval that the next entry breaks, each by its
    /// own test.
    #[inline(always)]
    fn field_rule(&self, schema: &Schema, entry: &Entry) -> Option<Rule>
        requires site_in { entry.now.site.0 < schema.now.sites }
        ensures { (t : List Entry) → AreRunning schema.now t self.now →
            result ≡ first_broken (field_tests schema.now t entry.now) }
    {
        self.totals.field_broken(schema, entry)
    }

    /// The first rule that the next entry breaks: each of the six is tested by what the totals tell,
    /// and none is left out because of another.
    #[inline(always)]
    fn broken_rule(&self, schema: &Schema, entry: &Entry) -> Option<Rule>
        ensures { (t : List Entry) → AreRunning schema.now t self.now →
            result ≡ broken_rule schema.now t entry.now }
    {
        if entry.site.0 >= schema.sites() {
            return Some(Rule::Site);
        }
        if let Some(rule) = self.field_rule(schema, entry) {
            return Some(rule);
        }
        if !self.statement_holds(entry) {
            return Some(Rule::Statement);
        }
        if !self.totals.reply_holds(schema, entry) {
            return Some(Rule::Reply);
        }
        None
    }

    /// Takes the totals of a front to those of the front with the next entry.
    #[inline(always)]
    fn step(&mut self, alloc: Global, schema: &Schema, entry: &Entry) -> Result<(), AllocError>
        ensures { OnOk result ((t : List Entry) → length t < most_entries →
            AreRunning schema.now t self.old → verdict_back schema.now t ≡ Legal →
            broken_rule schema.now t entry.now ≡ None →
            AreRunning schema.now (entry.now ∷ t) self.new) }
    {
        let _sites = schema.sites();
        statements::note(&mut self.issued, entry)?;
        self.totals.step_by(alloc, schema, entry)
    }

    /// Judges the next entry, and takes it in where it breaks no rule. Inlined where the command and
    /// the reply are known, so that nothing is left there of the others.
    #[inline(always)]
    fn take_by(
        &mut self,
        alloc: Global,
        schema: &Schema,
        entry: &Entry,
    ) -> Result<Option<Rule>, AllocError>
        ensures rule { IfOk result (λ rule. (t : List Entry) → AreRunning schema.now t self.old →
            rule ≡ broken_rule schema.now t entry.now) }
        ensures totals { IfOk result (λ rule. (t : List Entry) → length t < most_entries →
            AreRunning schema.now t self.old → verdict_back schema.now t ≡ Legal → rule ≡ None →
            AreRunning schema.now (entry.now ∷ t) self.new) }
        ensures kept { IfOk result (λ rule. rule ≢ None → self.new ≡ self.old) }
    {
        if let Some(rule) = self.broken_rule(schema, entry) {
            return Ok(Some(rule));
        }
        self.step(alloc, schema, entry)?;
        Ok(None)
    }

    /// The same for an entry of any kind.
    fn take_any(
        &mut self,
        alloc: Global,
        schema: &Schema,
        entry: &Entry,
    ) -> Result<Option<Rule>, AllocError>
        ensures rule { IfOk result (λ rule. (t : List Entry) → AreRunning schema.now t self.old →
            rule ≡ broken_rule schema.now t entry.now) }
        ensures totals { IfOk result (λ rule. (t : List Entry) → length t < most_entries →
            AreRunning schema.now t self.old → verdict_back schema.now t ≡ Legal → rule ≡ None →
            AreRunning schema.now (entry.now ∷ t) self.new) }
        ensures kept { IfOk result (λ rule. rule ≢ None → self.new ≡ self.old) }
    {
        self.take_by(alloc, schema, entry)
    }

    /// The same, with the common entries each on a way of its own.
    pub fn take_in(
        &mut self,
        alloc: Global,
        schema: &Schema,
        entry: &Entry,
    ) -> Result<Option<Rule>, AllocError>
        ensures rule { IfOk result (λ rule. (t : List Entry) → AreRunning schema.now t self.old →
            rule ≡ broken_rule schema.now t entry.now) }
        ensures totals { IfOk result (λ rule. (t : List Entry) → length t < most_entries →
            AreRunning schema.now t self.old → verdict_back schema.now t ≡ Legal → rule ≡ None →
            AreRunning schema.now (entry.now ∷ t) self.new) }
        ensures kept { IfOk result (λ rule. rule ≢ None → self.new ≡ self.old) }
    {
        by_entry! { entry; known => self.take_by(alloc, schema, &known); self.take_any(alloc, schema, entry) }
    }
}
