//! The verdict on the entries that were woven so far.

ghost use Rattle.std.specs.Prelude.{◌≡◌, List, [], ◌∷◌, ◌++◌, length, IfOk, OnOk};
ghost use Rattle.field_bounds.specs.Schema.{SchemaValue};
ghost use Rattle.field_bounds.specs.declared.entry.Entry.{Entry as EntryType};
ghost use Rattle.central_rules.specs.Verdict.{verdict_of, read_for};
ghost use Rattle.woven_verdict.specs.Judged.{AreJudged};

use central_machine::FrontJudge;
use central_rules::{Rule, Verdict};
use field_bounds::{Entry, Schema};
use std::alloc::{AllocError, Global};

/// The verdict on the entries so far. Each is judged where it is woven, so none is kept.
#[derive(Drop)]
pub(crate) enum Judged {
    /// They are legal.
    Legal(FrontJudge),
    /// This is the first bad one. Those behind it are judged no more.
    Illegal { at: u64, rule: Rule },
}

impl Judged {
    /// The verdict on no entries.
    pub(crate) fn new(alloc: Global, schema: &Schema) -> Result<Judged, AllocError>
        ensures none { IfOk result (AreJudged schema.now []) }
    {
        Ok(Judged::Legal(FrontJudge::new(alloc, schema)?))
    }

    /// Judges one more entry, behind the others. The error is want of memory.
    #[inline]
    pub(crate) fn take_in(
        &mut self,
        alloc: Global,
        schema: &Schema,
        entry: &Entry,
    ) -> Result<(), AllocError>
        ensures taken { OnOk result ((entries : List EntryType) →
            AreJudged schema.now entries self.old →
            AreJudged schema.now (entries ++ entry.now ∷ []) self.new) }
    {
        let Judged::Legal(judge) = self else {
            return Ok(());
        };
        if let Some(rule) = judge.next(alloc, schema, entry)? {
            let at = judge.count() + 1;
            *self = Judged::Illegal { at, rule };
        }
        Ok(())
    }

    /// The verdict, and how many entries were judged for it: all of them, or those up to the first bad
    /// one.
    pub(crate) fn verdict(&self) -> (Verdict, u64)
        ensures verdict { (schema : SchemaValue) (entries : List EntryType) →
            AreJudged schema entries self.now → result.0 ≡ verdict_of schema entries }
        ensures count { (schema : SchemaValue) (entries : List EntryType) →
            AreJudged schema entries self.now → result.1 ≡ read_for result.0 (length entries) }
    {
        match self {
            Judged::Legal(judge) => (Verdict::Legal, judge.count()),
            Judged::Illegal { at, rule } => {
                let verdict = Verdict::Illegal {
                    at: *at,
                    rule: *rule,
                };
                (verdict, *at)
            }
        }
    }
}
