//! A judge that is given the entries one by one.

ghost use Rattle.std.specs.Prelude.{◌≡◌, ◌≢◌, ◌+◌, ◌≤◌, ◌^◌, List, [], ◌∷◌, ◌++◌, length, None, Some, IfOk, OnErr, IsErr};
ghost use Rattle.field_bounds.specs.declared.entry.Entry.{Entry};
ghost use Rattle.field_bounds.specs.Schema.{SchemaValue};
ghost use Rattle.central_rules.specs.declared.verdict.Rule.{Rule};
ghost use Rattle.central_rules.specs.declared.verdict.Verdict.TheVariants.{Legal, Illegal};
ghost use Rattle.central_rules.specs.Verdict.{verdict_of};

use crate::running::Running;
use central_rules::Rule;
use field_bounds::{Entry, Schema};
use std::alloc::{AllocError, Global};

// The most entries that are taken in, far fewer than the totals can count.
const MOST: u64 = 1 << 57;

/// Judges a trace entry by entry, as `judge` does all at once, so that the caller need not keep the
/// entries. It stands for the entries that it has taken in (`HasJudged`), all of them legal.
///
/// Source: O'Neil 1986 for the central store, this project for the judge.
#[derive(Drop)]
pub struct FrontJudge {
    running: Running,
    count: u64,
    ghost few: { count ≤ 2 ^ 57 },
}

impl FrontJudge {
    ghost use Rattle.central_machine.specs.Front.{HasJudged, IsSpent};

    /// A judge before the first entry. The error is want of memory. Takes the memory, and the time
    /// to clear it, that `judge` takes at first.
    pub fn new(alloc: Global, schema: &Schema) -> Result<FrontJudge, AllocError>
        ensures none { IfOk result (HasJudged schema.now []) }
    {
        Ok(FrontJudge {
            running: Running::new(alloc, schema)?,
            count: 0,
        })
    }

    /// How many entries were taken in; of a spent judge it tells nothing. Costs no memory.
    #[inline]
    pub fn count(&self) -> u64
        ensures value { (schema : SchemaValue) (entries : List Entry) →
            HasJudged schema entries self.now → result ≡ length entries }
        ensures few { result ≤ 2 ^ 57 }
    {
        self.count
    }

    /// Judges the next entry, over those that were taken in. None: with it they are legal, and it
    /// is taken in. Some rule: it is the first bad entry, and this the first rule that it breaks;
    /// the judge is as before.
    ///
    /// The error is want of memory, or there would be more than 2^57 entries: then the judge is
    /// spent, and each later call answers the same error. Takes time and memory as `judge` does for
    /// one of its entries: so now and then a call moves what the ones before it put into a list, one
    /// pass over that.
    #[inline]
    pub fn next(
        &mut self,
        alloc: Global,
        schema: &Schema,
        entry: &Entry,
    ) -> Result<Option<Rule>, AllocError>
        // With the entry all are legal, or it is the first bad one.
        ensures legal { IfOk result (λ found. (entries : List Entry) →
            HasJudged schema.now entries self.old → found ≡ None →
            verdict_of schema.now (entries ++ entry.now ∷ []) ≡ Legal) }
        ensures illegal { IfOk result (λ found. (entries : List Entry) (rule : Rule) →
            HasJudged schema.now entries self.old → found ≡ Some rule →
            verdict_of schema.now (entries ++ entry.now ∷ [])
            ≡ Illegal (length entries + 1) rule) }

        // A legal entry is taken in, and a bad one leaves the judge as it was.
        ensures taken { IfOk result (λ found. (entries : List Entry) →
            HasJudged schema.now entries self.old → found ≡ None →
            HasJudged schema.now (entries ++ entry.now ∷ []) self.new) }
        ensures kept { IfOk result (λ found. found ≢ None → self.new ≡ self.old) }

        // After an error there is no way back.
        ensures failed { OnErr result (IsSpent self.new) }
        ensures spent { IsSpent self.old → IsErr result }
    {
        if self.count >= MOST {
            return Err(AllocError);
        }
        match self.running.take_in(alloc, schema, entry) {
            Ok(None) => {
                self.count += 1;
                Ok(None)
            }
            Ok(Some(rule)) => Ok(Some(rule)),
            Err(error) => {
                self.count = MOST;
                Err(error)
            }
        }
    }
}
