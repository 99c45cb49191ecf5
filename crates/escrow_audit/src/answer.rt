//! What an audit answers, and its text.

ghost use Rattle.std.specs.Prelude.{◌≡◌, ◌≢◌, ◌++◌, ◌∷◌, [], List, codes, string_bytes, length, IfOk, IfErr, true, false};
ghost use Rattle.std.specs.Fmt.{decimal};
ghost use Rattle.field_bounds.specs.Schema.{SchemaValue};
ghost use Rattle.field_bounds.specs.declared.entry.Entry.{Entry};
ghost use Rattle.central_rules.specs.Verdict.{verdict_of};
ghost use Rattle.script_input.specs.Streams.{HasFailed, GaveNothing, HasRefused};
ghost use Rattle.script_input.specs.Faults.{CountsReads, CountsWrites};
ghost use Rattle.escrow_audit.specs.Judged.{AreJudged};
ghost use Rattle.escrow_audit.specs.Reading.{Tells, FaultsIn, WantsIn};
ghost use Rattle.escrow_audit.specs.Audit.{rule_text, verdict_text, end_of, bad_entry_text, Audits, Fails};

use crate::reading::{ReadInput, read_entries};
use crate::taking::JudgedEntries;
use central_machine::judge_fields;
use central_rules::{Rule, Verdict};
use field_bounds::{Entry, Schema};
use script_input::{ScriptFault, Sink, Source, write_out};
use std::alloc::{AllocError, Global};
use std::thread::Threads;

/// What an audit found.
#[derive(Clone, Copy, Debug, PartialEq, Eq)]
pub enum AuditEnd {
    /// The entries are a run of one central store, in which each reply was owed.
    Legal,
    /// Some entry breaks a rule.
    Illegal,
    /// Some line is neither an entry nor a remark.
    BadEntry,
}

/// The word that tells a rule in a verdict's line, its name in lower case.
pub fn rule_word(rule: Rule) -> &'static str
    ensures word { result.now ≡ rule_text rule }
{
    match rule {
        Rule::Site => "site",
        Rule::Grant => "grant",
        Rule::Shortage => "shortage",
        Rule::Interval => "interval",
        Rule::Statement => "statement",
        Rule::Reply => "reply",
    }
}

// The line that tells that an entry breaks a rule.
fn illegal_line(alloc: Global, at: u64, word: &str) -> Result<String, AllocError>
    ensures { IfOk result (λ text. string_bytes text
        ≡ codes "illegal " ++ (decimal at ++ (codes " " ++ (word.now ++ 10 ∷ [])))) }
{
    format!(in alloc; "illegal {at} {word}\n")
}

/// The line that tells a verdict over so many entries: `legal N`, or `illegal AT RULE`. The error is want
/// of memory.
pub fn verdict_line(alloc: Global, verdict: Verdict, count: u64) -> Result<String, AllocError>
    ensures { IfOk result (λ text. string_bytes text ≡ verdict_text verdict count) }
{
    match verdict {
        Verdict::Legal => format!(in alloc; "legal {count}\n"),
        Verdict::Illegal { at, rule } => illegal_line(alloc, at, rule_word(rule)),
    }
}

// The line that tells the first bad entry.
fn bad_entry_line(alloc: Global, number: u64) -> Result<String, AllocError>
    ensures { IfOk result (λ text. string_bytes text ≡ bad_entry_text number) }
{
    format!(in alloc; "bad entry {number}\n")
}

// How an audit ends by a verdict.
fn end_of(verdict: Verdict) -> AuditEnd
    ensures { result ≡ end_of verdict }
{
    match verdict {
        Verdict::Legal => AuditEnd::Legal,
        Verdict::Illegal { .. } => AuditEnd::Illegal,
    }
}

// Tells a verdict, over so many entries.
fn tell(alloc: Global, verdict: Verdict, count: u64) -> Result<(AuditEnd, String), AllocError>
    ensures end { IfOk result (λ told. told.0 ≡ end_of verdict) }
    ensures text { IfOk result (λ told. string_bytes told.1 ≡ verdict_text verdict count) }
{
    let text = verdict_line(alloc, verdict, count)?;
    Ok((end_of(verdict), text))
}

// Judges the entries that were kept, in parts by threads.
fn judge_kept(
    rt: &(impl Threads + Sync),
    alloc: Global,
    schema: &Schema,
    entries: &[Entry],
) -> Result<(AuditEnd, String), AllocError>
    ensures end { IfOk result (λ told. told.0 ≡ end_of (verdict_of schema.now entries.now)) }
    ensures text { IfOk result (λ told. string_bytes told.1
        ≡ verdict_text (verdict_of schema.now entries.now) (length entries.now)) }
{
    let verdict = judge_fields(rt, alloc, schema, entries)?;
    tell(alloc, verdict, entries.len() as u64)
}

// Tells the verdict on the entries that were judged as they were read.
fn tell_judged(alloc: Global, judged: &JudgedEntries) -> Result<(AuditEnd, String), AllocError>
    ensures end { (schema : SchemaValue) (entries : List Entry) →
        AreJudged schema entries judged.now →
        IfOk result (λ told. told.0 ≡ end_of (verdict_of schema entries)) }
    ensures text { (schema : SchemaValue) (entries : List Entry) →
        AreJudged schema entries judged.now → IfOk result (λ told. string_bytes told.1
        ≡ verdict_text (verdict_of schema entries) (length entries)) }
{
    let (verdict, count) = judged.verdict()?;
    tell(alloc, verdict, count)
}

// What is told of a bad entry.
fn bad_entry(alloc: Global, number: u64) -> Result<(AuditEnd, String), AllocError>
    ensures end { IfOk result (λ told. told.0 ≡ AuditEnd.BadEntry) }
    ensures text { IfOk result (λ told. string_bytes told.1 ≡ bad_entry_text number) }
{
    Ok((AuditEnd::BadEntry, bad_entry_line(alloc, number)?))
}

// Reads the input, judges its entries in parts once all are read, and tells what is answered.
fn answer_by_fields<R: Source>(
    rt: &(impl Threads + Sync),
    alloc: Global,
    reader: &mut R,
) -> Result<(AuditEnd, String), ScriptFault>
    ensures ok { IfOk result (λ told. Tells (R.bytes reader.old) (R.bytes reader.new)
        (R.last reader.new) told.0 (string_bytes told.1)) }
    ensures fault { IfErr result (FaultsIn (R.bytes reader.old) (R.bytes reader.new)
        (R.last reader.new)) }
    ensures read { IfErr result (λ fault. fault ≡ ScriptFault.Read
        → HasFailed (R.last reader.new)) }
    ensures reads { CountsReads result (R.failures reader.old) (R.failures reader.new) }
    ensures other { IfErr result (λ fault. fault ≢ ScriptFault.Write) }
    ensures memory { IfErr result (λ fault. fault ≡ ScriptFault.NoMemory
        → WantsIn true (R.bytes reader.old) (R.bytes reader.new) (R.last reader.new)) }
{
    match read_entries::<R, Vec<Entry>>(alloc, reader)? {
        ReadInput::Entries(schema, entries) => {
            Ok(judge_kept(rt, alloc, &schema, entries.as_slice())?)
        }
        ReadInput::BadEntry(number) => Ok(bad_entry(alloc, number)?),
    }
}

// Reads the input, judges its entries as they are read, and tells what is answered.
fn answer_in_one_pass<R: Source>(
    alloc: Global,
    reader: &mut R,
) -> Result<(AuditEnd, String), ScriptFault>
    ensures ok { IfOk result (λ told. Tells (R.bytes reader.old) (R.bytes reader.new)
        (R.last reader.new) told.0 (string_bytes told.1)) }
    ensures fault { IfErr result (FaultsIn (R.bytes reader.old) (R.bytes reader.new)
        (R.last reader.new)) }
    ensures read { IfErr result (λ fault. fault ≡ ScriptFault.Read
        → HasFailed (R.last reader.new)) }
    ensures reads { CountsReads result (R.failures reader.old) (R.failures reader.new) }
    ensures other { IfErr result (λ fault. fault ≢ ScriptFault.Write) }
    ensures memory { IfErr result (λ fault. fault ≡ ScriptFault.NoMemory
        → WantsIn false (R.bytes reader.old) (R.bytes reader.new) (R.last reader.new)) }
{
    match read_entries::<R, JudgedEntries>(alloc, reader)? {
        ReadInput::Entries(_, judged) => Ok(tell_judged(alloc, &judged)?),
        ReadInput::BadEntry(number) => Ok(bad_entry(alloc, number)?),
    }
}

// Reads the input, and tells what is answered.
fn answer<R: Source>(
    rt: &(impl Threads + Sync),
    alloc: Global,
    fields: bool,
    reader: &mut R,
) -> Result<(AuditEnd, String), ScriptFault>
    ensures ok { IfOk result (λ told. Tells (R.bytes reader.old) (R.bytes reader.new)
        (R.last reader.new) told.0 (string_bytes told.1)) }
    ensures fault { IfErr result (FaultsIn (R.bytes reader.old) (R.bytes reader.new)
        (R.last reader.new)) }
    ensures read { IfErr result (λ fault. fault ≡ ScriptFault.Read
        → HasFailed (R.last reader.new)) }
    ensures reads { CountsReads result (R.failures reader.old) (R.failures reader.new) }
    ensures other { IfErr result (λ fault. fault ≢ ScriptFault.Write) }
    ensures memory { IfErr result (λ fault. fault ≡ ScriptFault.NoMemory
        → WantsIn fields (R.bytes reader.old) (R.bytes reader.new) (R.last reader.new)) }
{
    if fields {
        answer_by_fields(rt, alloc, reader)
    } else {
        answer_in_one_pass(alloc, reader)
    }
}

/// Audits what a run wrote: whether its entries are a run of one central escrow store in which each
/// reply was owed.
///
/// Line 1 is a header. Every other line is an entry under it, `COMMAND -> REPLY`, or one of the
/// remarks that a run writes, which are skipped: `bad line`; `deliver K -> refused 16 no
/// statement`; `level FIELD KIND -> moves M`; `reach SITE FIELD TARGET -> steps M`; and `reach SITE
/// FIELD TARGET -> no REASON`, where REASON is `site`, `field`, `down`, `flight`, `unstated`,
/// `tightened`, `numbers` or `outside`. A line ends with LF; a last line without LF counts where it
/// has at least one byte.
///
/// What is written at Ok is one line. `legal N` says that the N entries are legal, `illegal AT
/// RULE` that the entry AT, counted from 1, is the first that breaks a rule, and RULE the first
/// rule that it breaks: `site`, `grant`, `shortage`, `interval`, `statement` or `reply`. `bad entry
/// L` says that line L, counted from 1 with the header, is the first that is neither an entry nor a
/// remark, as any line of more than 256 bytes; then nothing behind it is read and no verdict is
/// told.
///
/// The faults are those of the input, line by line: `Header` and `NoMemory`; `TooLong` where a byte
/// follows the 1,000,000th line or the 268,435,456th byte; `Read` where a read answers an error of
/// any kind, which isn't tried again. At each of them nothing is written, and no line before it is a
/// bad entry: at `NoMemory` none that ends in front of the last 65,536 bytes that were read. `Write`
/// comes where a write answers an error of any kind or takes no byte; then a front of the answer was
/// written. The others, which are a work's alone, never come.
///
/// Reader and writer tell the contract how their calls end, and how many failed; `Watched::new`
/// makes such ones of std's. No call is made again after one that failed.
///
/// With `fields` the entries are kept, and judged once all are read: in two parts by threads, by the
/// statements issued and by running totals. Else each is judged as it is read, and none is kept. The
/// answer is the same.
///
/// Costs 128 KiB for input, memory for the judge and, with `fields`, for the entries, and time in
/// proportion to the input. Want of memory for the judge is told only where all lines are good
/// and the input was read to its end, within the limits; for the header and, with `fields`, for an
/// entry it is told before more is read than that line needs.
///
/// Source: O'Neil 1986 for the central store, Balegas and others 2015 for rights that are divided
/// among sites and given, this project for the audit.
pub fn audit_text<R: Source, W: Sink>(
    rt: &(impl Threads + Sync),
    alloc: Global,
    fields: bool,
    reader: &mut R,
    writer: &mut W,
) -> Result<AuditEnd, ScriptFault>
    // The answer to what was read is written. A verdict is on an input within the limits.
    ensures ok { IfOk result (Audits (R.bytes reader.old) (R.bytes reader.new)
        (W.bytes writer.old) (W.bytes writer.new) (R.last reader.new)) }

    // A verdict comes only after a read that had room and gave nothing.
    ensures end { IfOk result (λ end. end ≢ AuditEnd.BadEntry → GaveNothing (R.last reader.new)) }

    // A fault comes for a reason, and nothing but a front of the answer is written.
    ensures fault { IfErr result (Fails (R.bytes reader.old) (R.bytes reader.new)
        (W.bytes writer.old) (W.bytes writer.new) (R.last reader.new)) }

    // A read fault comes only where a read failed.
    ensures read { IfErr result (λ fault. fault ≡ ScriptFault.Read
        → HasFailed (R.last reader.new)) }

    // A write fault comes only where a write failed, or took none of its bytes.
    ensures write { IfErr result (λ fault. fault ≡ ScriptFault.Write
        → HasRefused (W.last writer.new)) }

    // One read failed in this call at a read fault, and else none.
    ensures reads { CountsReads result (R.failures reader.old) (R.failures reader.new) }

    // Want of memory comes where what was read has its answer, or else for the header or, with
    // `fields`, for an entry.
    ensures memory { IfErr result (λ fault. fault ≡ ScriptFault.NoMemory
        → WantsIn fields (R.bytes reader.old) (R.bytes reader.new) (R.last reader.new)) }

    // One write was refused in this call at a write fault, and else none.
    ensures writes { CountsWrites result (W.refusals writer.old) (W.refusals writer.new) }
{
    let (end, text) = answer(rt, alloc, fields, reader)?;
    write_out(writer, text.as_bytes())?;
    Ok(end)
}
