//! The judge in parts, each in a thread.

ghost use Rattle.std.specs.Prelude.{◌≡◌, ◌↔◌, ℕ, IfOk, reverse};
ghost use Rattle.field_bounds.specs.Central.{IsSound, IsCentral};
ghost use Rattle.central_rules.specs.declared.verdict.Rule.{Rule};
ghost use Rattle.central_rules.specs.declared.verdict.Verdict.TheVariants.{Legal, Illegal};
ghost use Rattle.central_rules.specs.Verdict.{IsFirstBad, verdict_of};
ghost use Rattle.central_machine.specs.declared.part.Part.TheVariants.{Statements, OnTotals};
ghost use Rattle.central_machine.specs.Parts.{IsFault};

use crate::joined::earlier;
use crate::judging::length_of;
use crate::part::RuleFault;
use crate::statement_faults::statements_fault;
use crate::threads::both;
use crate::total_faults::totals_fault;
use central_rules::Verdict;
use field_bounds::{Entry, Schema};
use std::alloc::{AllocError, Global};
use std::thread::Threads;

/// What the two parts find first: that of the statements and that of the totals.
fn faults_of(
    rt: &impl Threads,
    alloc: Global,
    schema: &Schema,
    entries: &[Entry],
) -> Result<(Option<RuleFault>, Option<RuleFault>), AllocError>
    ensures statements { IfOk result (λ faults.
        IsFault schema.now entries.now Statements faults.0) }
    ensures totals { IfOk result (λ faults. IsFault schema.now entries.now OnTotals faults.1) }
{
    let (of_statements, of_totals) = both(
        rt,
        entries.len(),
        || -> Result<Option<RuleFault>, AllocError>
            ensures { IfOk result (λ fault. IsFault schema.entry.now entries.entry.now Statements
                fault) }
        { statements_fault(alloc, schema, entries) },
        || -> Result<Option<RuleFault>, AllocError>
            ensures { IfOk result (λ fault. IsFault schema.entry.now entries.entry.now OnTotals
                fault) }
        { totals_fault(alloc, schema, entries) },
    );
    let told = of_statements?;
    let tested = of_totals?;
    Ok((told, tested))
}

/// The verdict on entries, by what the parts find first.
fn judge_parts(
    rt: &impl Threads,
    alloc: Global,
    schema: &Schema,
    entries: &[Entry],
) -> Result<Verdict, AllocError>
    ensures verdict { IfOk result (λ verdict. verdict ≡ verdict_of schema.now entries.now) }
{
    let _sites = schema.sites();
    let _few = length_of(entries);
    let (told, tested) = faults_of(rt, alloc, schema, entries)?;
    match earlier(told, tested) {
        Some(fault) => {
            Ok(Verdict::Illegal {
                at: (fault.place + 1) as u64,
                rule: fault.rule,
            })
        }
        None => Ok(Verdict::Legal),
    }
}

/// The verdict on entries, the oldest first, as `judge` answers it, with the work done by two threads.
/// The rules Site and Statement are one part, by a set of the statements issued; Grant, Shortage,
/// Interval and Reply the other, by the running totals, which all four need. No part leaves out a rule
/// because another holds. The verdict is the lesser place of those that the parts tell, and where both
/// tell one place the rule that comes first in their order.
///
/// It is Legal exactly where the trace is sound and central (`legal`); else `at` is the first bad
/// entry, and `rule` the first rule that it breaks over the front before it (`illegal`). Over a
/// sound trace it is Legal (`sound`).
///
/// The error is want of memory. The part of the totals takes time and memory as `judge` does but for
/// the statements, and that of the statements what `judge` takes for these. Over fewer than 50 entries
/// the parts take turns in the caller's thread.
///
/// Source: O'Neil 1986 for the central store, this project for the judge and its parts.
pub fn judge_fields(
    rt: &(impl Threads + Sync),
    alloc: Global,
    schema: &Schema,
    entries: &[Entry],
) -> Result<Verdict, AllocError>
    ensures verdict { IfOk result (λ verdict. verdict ≡ verdict_of schema.now entries.now) }
    ensures legal { IfOk result (λ verdict. verdict ≡ Legal
        ↔ (IsSound schema.now (reverse entries.now) × IsCentral schema.now (reverse entries.now))) }
    ensures illegal { IfOk result (λ verdict. (at : ℕ) (rule : Rule) → verdict ≡ Illegal at rule →
        IsFirstBad schema.now (reverse entries.now) at rule) }
    ensures sound { IsSound schema.now (reverse entries.now) →
        IfOk result (λ verdict. verdict ≡ Legal) }
{
    let _sites = schema.sites();
    judge_parts(rt, alloc, schema, entries)
}
