//! The judge that sums afresh over each front.
ghost use Rattle.std.specs.Prelude.{◌≡◌, ◌≤◌, ◌<◌, ◌↔◌, ℕ, IfOk, reverse, length, Option, Some, None};
ghost use Rattle.central_rules.specs.Entries.{most_entries};
ghost use Rattle.central_rules.specs.declared.verdict.Rule.{Rule};
ghost use Rattle.central_rules.specs.Verdict.{IsFirstBad, verdict_of, broken_rule, statement_test, is_issued, same_statement, verdict_back, grant_test, shortage_test, interval_test, test_of};
ghost use Rattle.central_rules.specs.declared.verdict.Verdict.TheVariants.{Legal, Illegal};
ghost use Rattle.field_bounds.specs.Statements.{statement_of};
ghost use Rattle.field_bounds.specs.Central.{IsSound, IsCentral};
ghost use Rattle.central_rules.specs.declared.verdict.Rule.TheVariants.{Reply as Owed};

use crate::front::{between, has, true_share, within_bound};
use crate::here::Here;
use crate::ladder::fits;
use crate::verdict::{Rule, Verdict};
use field_bounds::{Command, Entry, Kind, Refusal, Reply, Schema, Statement, statement_of};
use std::alloc::{AllocError, Global};

/// The verdict on entries, the oldest first: Legal where they are a run of one central store in
/// which each reply was owed, else the first bad entry, counted from 1, and the first rule that it
/// breaks. Each front is summed afresh, as the definitions read.
///
/// It is Legal exactly where the trace is sound and central (`legal`); else `at` is the first bad
/// entry, and `rule` the first rule that it breaks over the front before it (`illegal`). Over a
/// sound trace it is Legal (`sound`).
///
/// The error is want of memory. Takes time in proportion to the cube of the number of entries, and
/// memory for what took effect at one site at a time.
pub fn judge_plain(alloc: Global, schema: &Schema, entries: &[Entry]) -> Result<Verdict, AllocError>
    ensures verdict { IfOk result (λ verdict. verdict ≡ verdict_of schema.now entries.now) }
    ensures legal { IfOk result (λ verdict. verdict ≡ Legal
        ↔ (IsSound schema.now (reverse entries.now) × IsCentral schema.now (reverse entries.now))) }
    ensures illegal { IfOk result (λ verdict. (at : ℕ) (rule : Rule) → verdict ≡ Illegal at rule →
        IsFirstBad schema.now (reverse entries.now) at rule) }
    ensures sound { IsSound schema.now (reverse entries.now) →
        IfOk result (λ verdict. verdict ≡ Legal) }
{
    let _sites = schema.sites();
    judge_fronts(alloc, schema, entries)
}

/// The verdict by each front in turn.
fn judge_fronts(alloc: Global, schema: &Schema, entries: &[Entry]) -> Result<Verdict, AllocError>
    ensures verdict { IfOk result (λ verdict. verdict ≡ verdict_of schema.now entries.now) }
{
    let _few = length_of(entries);
    for (i, entry) in entries.iter().enumerate() {
        if let Some(rule) = broken_rule(alloc, schema, &entries[..i], *entry)? {
            return Ok(Verdict::Illegal {
                at: (i + 1) as u64,
                rule,
            });
        }
    }
    Ok(Verdict::Legal)
}

/// How many entries there are: fewer than would fill the memory.
fn length_of(entries: &[Entry]) -> usize
    ensures value { result ≡ length entries.now }
    ensures few { length entries.now ≤ most_entries }
{
    entries.len()
}

/// Whether two statements are the same.
fn is_same(a: Statement, b: Statement) -> bool
    ensures { result ≡ same_statement a b }
{
    a == b
}

/// Whether an entry of the front issues the statement.
fn is_issued(front: &[Entry], statement: Statement) -> bool
    ensures { result ≡ is_issued statement (reverse front.now) }
{
    for entry in front {
        if let Some(told) = statement_of(entry) {
            if is_same(told, statement) {
                return true;
            }
        }
    }
    false
}

fn statement_holds(front: &[Entry], entry: Entry) -> bool
    ensures { result ≡ statement_test (reverse front.now) entry.command entry.reply }
{
    match (entry.command, entry.reply) {
        (Command::Accept(statement), Reply::Accepted { .. } | Reply::Unsure) => is_issued(
            front, statement,
        ),
        _ => true,
    }
}

fn grant_holds(
    alloc: Global,
    schema: &Schema,
    front: &[Entry],
    entry: Entry,
) -> Result<bool, AllocError>
    requires few { length front.now ≤ most_entries }
    requires sound { IsSound schema.now (reverse front.now) }
    ensures { IfOk result (λ holds. holds
        ≡ grant_test schema.now (reverse front.now) entry.command entry.reply) }
{
    match (entry.command, entry.reply) {
        (Command::Escrow { field, change, .. }, Reply::Granted) => {
            if !has(schema, field) {
                return Ok(true);
            }
            within_bound(
                alloc,
                schema,
                front,
                field,
                change.unsigned_abs(),
                Kind::of(change),
            )
        }
        (
            Command::Tighten {
                field,
                kind,
                amount,
            },
            Reply::Tightened { .. },
        ) => {
            if !has(schema, field) {
                return Ok(true);
            }
            within_bound(alloc, schema, front, field, amount, kind)
        }
        _ => Ok(true),
    }
}

fn interval_holds(
    alloc: Global,
    schema: &Schema,
    front: &[Entry],
    entry: Entry,
) -> Result<bool, AllocError>
    requires few { length front.now ≤ most_entries }
    requires sound { IsSound schema.now (reverse front.now) }
    ensures { IfOk result (λ holds. holds
        ≡ interval_test schema.now (reverse front.now) entry.command entry.reply) }
{
    match (entry.command, entry.reply) {
        (Command::Read { field }, Reply::Between { lo, hi }) => {
            if !has(schema, field) {
                return Ok(true);
            }
            between(alloc, schema, front, field, lo, hi)
        }
        _ => Ok(true),
    }
}

fn shortage_holds(
    alloc: Global,
    schema: &Schema,
    front: &[Entry],
    entry: Entry,
) -> Result<bool, AllocError>
    requires few { length front.now ≤ most_entries }
    requires site_in { entry.site.0 < schema.now.sites }
    ensures { IfOk result (λ holds. holds
        ≡ shortage_test schema.now (reverse front.now) entry.site.0 entry.command entry.reply) }
{
    let Reply::Refused(Refusal::Short { share }) = entry.reply else {
        return Ok(true);
    };
    let site = entry.site;
    match entry.command {
        Command::Escrow { field, change, .. } => {
            let asked = change.unsigned_abs();
            true_share(
                alloc,
                schema,
                front,
                site,
                field,
                Kind::of(change),
                asked,
                share,
            )
        }
        Command::Give {
            field,
            kind,
            amount,
            ..
        } => { true_share(alloc, schema, front, site, field, kind, amount, share) }
        Command::Spare {
            field,
            kind,
            want,
            ..
        } => { true_share(alloc, schema, front, site, field, kind, want, share) }
        Command::Tighten {
            field,
            kind,
            amount,
        } => { true_share(alloc, schema, front, site, field, kind, amount, share) }
        _ => Ok(true),
    }
}

fn reply_holds(
    alloc: Global,
    schema: &Schema,
    front: &[Entry],
    entry: Entry,
) -> Result<bool, AllocError>
    requires few { length front.now ≤ most_entries }
    requires site_in { entry.site.0 < schema.now.sites }
    ensures { IfOk result (λ holds. holds ≡ test_of schema.now (reverse front.now) entry Owed) }
{
    let here = Here::new(alloc, schema, front, entry.site)?;
    Ok(fits(&here, entry.command, entry.reply))
}

/// The first rule that the entry breaks over the front before it.
fn broken_rule(
    alloc: Global,
    schema: &Schema,
    front: &[Entry],
    entry: Entry,
) -> Result<Option<Rule>, AllocError>
    requires few { length front.now ≤ most_entries }
    requires legal { verdict_back schema.now (reverse front.now) ≡ Legal }
    ensures { IfOk result (λ rule. rule ≡ broken_rule schema.now (reverse front.now) entry) }
{
    if entry.site.0 >= schema.sites() {
        return Ok(Some(Rule::Site));
    }
    if !grant_holds(alloc, schema, front, entry)? {
        return Ok(Some(Rule::Grant));
    }
    if !shortage_holds(alloc, schema, front, entry)? {
        return Ok(Some(Rule::Shortage));
    }
    if !interval_holds(alloc, schema, front, entry)? {
        return Ok(Some(Rule::Interval));
    }
    if !statement_holds(front, entry) {
        return Ok(Some(Rule::Statement));
    }
    if !reply_holds(alloc, schema, front, entry)? {
        return Ok(Some(Rule::Reply));
    }
    Ok(None)
}
