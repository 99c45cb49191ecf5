//! A woven trace, judged while it is spelled.

ghost use Rattle.std.specs.Prelude.{◌≡◌, ◌⊎◌, IfOk, IfErr, OnOk};
ghost use Rattle.central_rules.specs.declared.verdict.Verdict.TheVariants.{Legal};
ghost use Rattle.central_rules.specs.Verdict.{verdict_of};
ghost use Rattle.escrow_work.specs.Work.{work_text, IsIllegal};

use central_machine::judge;
use central_rules::Verdict;
use entry_text::append_entry;
use field_bounds::{Entry, Schema};
use script_input::ScriptFault;
use std::alloc::{AllocError, Global};
use std::marker::Model;
use std::thread::{Threads, join};

/// Below so many entries one comes after the other: making a thread would cost as much as it saves.
const FEW: usize = 2_000;

/// The text of entries that were judged legal. `judged_and_spelled` alone makes one, of any entries, so
/// what they are can't stand in for the judge. Contracts see its bytes.
#[derive(Drop)]
pub(crate) struct LegalText {
    text: Vec<u8>,
}

impl Model for LegalText {
    ghost use Rattle.std.specs.Prelude.{ℕ, List};

    ghost Value = { List ℕ };

    ghost view = { λ t. t.text.items };
}

impl LegalText {
    /// Its bytes.
    pub(crate) fn bytes(&self) -> &[u8]
        ensures value { result.now ≡ self.now }
    {
        self.text.as_slice()
    }
}

// The header line, and a line for each entry.
fn text_of(schema: &Schema, header: Vec<u8>, entries: &[Entry]) -> Result<Vec<u8>, AllocError>
    ensures { IfOk result (λ text. text.items ≡ work_text schema.now header.items entries.now) }
{
    let mut out = header;
    out.push(b'\n')?;
    for entry in entries {
        append_entry(&mut out, schema, *entry)?;
        out.push(b'\n')?;
    }
    Ok(out)
}

// The verdict on entries, and their text behind a header line: one in a thread, since neither waits
// for the other. Over few entries, or where no thread can be made, one comes after the other.
fn verdict_and_text(
    rt: &impl Threads,
    alloc: Global,
    schema: &Schema,
    header: Vec<u8>,
    entries: &[Entry],
) -> (Result<Verdict, AllocError>, Result<Vec<u8>, AllocError>)
    ensures judged { IfOk result.0 (λ verdict. verdict ≡ verdict_of schema.now entries.now) }
    ensures spelled { IfOk result.1 (λ text. text.items
        ≡ work_text schema.now header.items entries.now) }
{
    if entries.len() < FEW {
        let verdict = judge(alloc, schema, entries);
        return (verdict, text_of(schema, header, entries));
    }
    join(
        rt,
        || -> Result<Verdict, AllocError>
            ensures { IfOk result (λ verdict. verdict
                ≡ verdict_of schema.entry.now entries.entry.now) }
        { judge(alloc, schema, entries) },
        || -> Result<Vec<u8>, AllocError>
            ensures { IfOk result (λ text. text.items
                ≡ work_text schema.entry.now header.items entries.entry.now) }
        { text_of(schema, header, entries) },
    )
}

/// The text of entries behind a header line, where the judge finds them legal. It tells want of memory,
/// that of the judge first, and that they aren't.
pub(crate) fn judged_and_spelled(
    rt: &impl Threads,
    alloc: Global,
    schema: &Schema,
    header: Vec<u8>,
    entries: &[Entry],
) -> Result<LegalText, ScriptFault>
    // Of whatever entries, a text comes out only where the verdict on exactly these is legal.
    ensures judged { OnOk result (verdict_of schema.now entries.now ≡ Legal) }
    ensures spelled { IfOk result (λ text. text
        ≡ work_text schema.now header.items entries.now) }
    ensures illegal { IfErr result (λ fault. fault ≡ ScriptFault.Illegal →
        IsIllegal schema.now entries.now) }
    ensures fault { IfErr result (λ fault. (fault ≡ ScriptFault.NoMemory)
        ⊎ (fault ≡ ScriptFault.Illegal)) }
{
    let (verdict, text) = verdict_and_text(rt, alloc, schema, header, entries);
    match verdict? {
        Verdict::Legal => Ok(LegalText { text: text? }),
        Verdict::Illegal { .. } => Err(ScriptFault::Illegal),
    }
}
