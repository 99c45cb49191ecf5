//! Where the entries of an input go, as they are read.

ghost use Rattle.std.specs.Prelude.{◌≡◌, ◌≢◌, Bool, true, false, List, [], ◌∷◌, ◌++◌, length, IfOk, OnOk, OnErr};
ghost use Rattle.field_bounds.specs.Schema.{SchemaValue};
ghost use Rattle.field_bounds.specs.declared.entry.Entry.{Entry};
ghost use Rattle.central_rules.specs.Verdict.{verdict_of, read_for};
ghost use Rattle.escrow_audit.specs.Judged.{AreJudged};

use central_machine::FrontJudge;
use central_rules::{Rule, Verdict};
use field_bounds::{Entry, Schema};
use std::alloc::{AllocError, Global};

/// Takes in the entries of an input, one by one.
pub(crate) trait TakesEntries: Drop {
    /// It has taken in these entries under this schema, the oldest first.
    ghost has_taken: { SchemaValue → List Entry → Self → Type 0 };

    /// Each entry is kept, and a want of memory for that is told at once. Any other waits for the
    /// end of the input.
    ghost keeps: { Bool };

    /// Before the first entry.
    fn before_all(alloc: Global, schema: &Schema) -> Self
        ensures { has_taken schema.now [] result };

    /// One more entry, behind the others. The error is want of memory to keep it.
    fn take_in(&mut self, alloc: Global, schema: &Schema, entry: &Entry) -> Result<(), AllocError>
        ensures taken { OnOk result ((entries : List Entry) → has_taken schema.now entries self.old →
            has_taken schema.now (entries ++ entry.now ∷ []) self.new) }
        ensures told { OnErr result (keeps ≡ true) };
}

// The entries are kept.
impl TakesEntries for Vec<Entry> {
    ghost has_taken = { λ schema entries kept. kept.items ≡ entries };

    ghost keeps = { true };

    fn before_all(alloc: Global, _schema: &Schema) -> Vec<Entry> {
        Vec::new(alloc)
    }

    #[inline(always)]
    fn take_in(
        &mut self,
        _alloc: Global,
        _schema: &Schema,
        entry: &Entry,
    ) -> Result<(), AllocError> {
        self.push(*entry)?;
        Ok(())
    }
}

/// The verdict on the entries so far. Each is judged where it lies when it is read, so none is kept.
#[derive(Drop)]
pub(crate) enum JudgedEntries {
    /// There is none, and no judge yet: what is refused before its first entry costs none.
    Fresh,
    /// They are legal.
    Legal(FrontJudge),
    /// This is the first bad one. Those behind it are judged no more.
    Illegal { at: u64, rule: Rule },
    /// Memory for the judge was wanting. A line behind that may still be a bad entry, which goes
    /// before every verdict; so the want is told only at the end.
    NoMemory,
}

impl JudgedEntries {
    // Makes the judge, where there is none yet.
    #[inline]
    fn begin(&mut self, alloc: Global, schema: &Schema)
        ensures judged { (entries : List Entry) → AreJudged schema.now entries self.old →
            AreJudged schema.now entries self.new }
        ensures begun { self.new ≢ JudgedEntries.Fresh }
    {
        if let JudgedEntries::Fresh = self {
            *self = match FrontJudge::new(alloc, schema) {
                Ok(judge) => JudgedEntries::Legal(judge),
                Err(_) => JudgedEntries::NoMemory,
            };
        }
    }

    /// The verdict, and how many entries were read for it. The error is want of memory, now or
    /// before.
    pub(crate) fn verdict(&self) -> Result<(Verdict, u64), AllocError>
        ensures verdict { (schema : SchemaValue) (entries : List Entry) →
            AreJudged schema entries self.now →
            IfOk result (λ told. told.0 ≡ verdict_of schema entries) }
        ensures count { (schema : SchemaValue) (entries : List Entry) →
            AreJudged schema entries self.now →
            IfOk result (λ told. told.1 ≡ read_for told.0 (length entries)) }
    {
        match self {
            JudgedEntries::Fresh => Ok((Verdict::Legal, 0)),
            JudgedEntries::Legal(judge) => Ok((Verdict::Legal, judge.count())),
            JudgedEntries::Illegal { at, rule } => {
                let verdict = Verdict::Illegal {
                    at: *at,
                    rule: *rule,
                };
                Ok((verdict, *at))
            }
            JudgedEntries::NoMemory => Err(AllocError),
        }
    }
}

impl TakesEntries for JudgedEntries {
    ghost has_taken = { AreJudged };

    ghost keeps = { false };

    fn before_all(_alloc: Global, _schema: &Schema) -> JudgedEntries {
        JudgedEntries::Fresh
    }

    // A want of memory waits for the end: a line behind may still be a bad entry.
    #[inline(always)]
    fn take_in(&mut self, alloc: Global, schema: &Schema, entry: &Entry) -> Result<(), AllocError> {
        self.begin(alloc, schema);
        let JudgedEntries::Legal(judge) = self else {
            return Ok(());
        };
        match judge.next(alloc, schema, entry) {
            Ok(None) => {}
            Ok(Some(rule)) => {
                let at = judge.count() + 1;
                *self = JudgedEntries::Illegal { at, rule };
            }
            Err(_) => *self = JudgedEntries::NoMemory,
        }
        Ok(())
    }
}
