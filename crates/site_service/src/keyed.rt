//! Lines that name the key of a caller, answered.

ghost use Rattle.std.specs.Prelude.{◌≡◌, ◌<◌, ◌++◌, ℕ, List, [], Option, length, take, if◌then◌else◌, Some, None, IfOk, OnOk, OnErr};
ghost use Rattle.std.specs.Fmt.{decimal};
ghost use Rattle.field_bounds.specs.declared.entry.Command.{Command as CommandType};
ghost use Rattle.caller_keys.specs.Keys.{KeyNote, IsNote, note_of, note_line};
ghost use Rattle.field_bounds.specs.declared.id.TxnId.{TxnId as Txn};
ghost use Rattle.kept_records.specs.declared.record.Record.{Record};
ghost use Rattle.kept_records.specs.Logs.{IsLog};
ghost use Rattle.kept_records.specs.Keeping.{IsKept};
ghost use Rattle.site_service.specs.Shortening.{KeepsHeldNotes};
ghost use Rattle.site_service.specs.Shorter.{noted_if};
ghost use Rattle.site_service.specs.Index.{IsIndexOf, IsBehind};
ghost use Rattle.site_service.specs.Kept.{last_of, noted, TellsKey, kept_key_words};
ghost use Rattle.request_lines.specs.Requests.{kept_key_text};
ghost use Rattle.site_service.specs.Answers.{is_committed, NotesCommit};
ghost use Rattle.site_step.specs.Site.{Applies};

use crate::kept::KeptCommits;
use crate::key_answer::KeyAnswer;
use crate::keys::NotedKeys;
use caller_keys::Key;
use field_bounds::{Command, Entry, Reply, TxnId};
use history::GhostHistory;
use itoa::Buffer;
use kept_records::MemoryMedium;
use site_step::Site;
use std::alloc::{AllocError, Global};

// The transaction, where its commit is kept.
fn if_kept(is_kept: bool, txn: TxnId) -> Option<TxnId>
    ensures { result ≡ (if is_kept then Some txn else None) }
{
    if is_kept { Some(txn) } else { None }
}

/// The transaction whose commit is kept with a key, by what was noted of it and the records of the
/// log. The error is want of memory.
pub(crate) fn kept_with(
    alloc: Global,
    kept: &mut KeptCommits,
    keys: &NotedKeys,
    log: &[u8],
    key: Key<'_>,
) -> Result<Option<TxnId>, AllocError>
    requires index { IsIndexOf kept.old log.now }
    requires log { IsKept log.now }
    ensures index { IsIndexOf kept.new log.now }
    ensures kept { IfOk result (TellsKey log.now keys.now.last key.entry.bytes.now) }
{
    match keys.last(key) {
        Some(txn) => {
            let is_kept = kept.holds(alloc, log, txn)?;
            Ok(if_kept(is_kept, txn))
        }
        None => Ok(None),
    }
}

// Notes a key anew for the transaction that was noted last with it, where its commit is held.
fn note_held(
    alloc: Global,
    kept: &mut KeptCommits,
    old: &NotedKeys,
    log: &[u8],
    key: Key<'_>,
    noted: &mut NotedKeys,
) -> Result<(), AllocError>
    requires index { IsIndexOf kept.old log.now }
    requires log { IsKept log.now }
    ensures index { IsIndexOf kept.new log.now }
    ensures noted { OnOk result ((found : Option Txn)
        × TellsKey log.now old.now.last key.entry.bytes.now found
        × ((other : List ℕ) → last_of noted.new.last other
        ≡ noted_if noted.old.last key.entry.bytes.now found other)) }
    ensures behind { OnOk result (IsBehind [] noted.old.lines noted.old.last
        → IsBehind [] noted.new.lines noted.new.last) }
{
    let found = kept_with(alloc, kept, old, log, key)?;
    match found {
        Some(txn) => {
            noted.draft(key, txn)?;
            noted.keep_draft(key, txn);
            Ok(())
        }
        None => Ok(()),
    }
}

/// The keys whose commits are held, each with its last transaction. Their notes are lines that the
/// log hasn't got, in the order in which the keys were first noted. The error is want of memory.
/// Costs what `kept_with` costs for each key, and memory for those that stay.
pub(crate) fn held_keys(
    alloc: Global,
    kept: &mut KeptCommits,
    old: &NotedKeys,
    log: &[u8],
) -> Result<NotedKeys, AllocError>
    requires index { IsIndexOf kept.old log.now }
    requires log { IsKept log.now }
    ensures index { IsIndexOf kept.new log.now }
    ensures last { IfOk result (λ new. (rs : List Record) (rest : List ℕ) → IsLog log.now rs rest
        → KeepsHeldNotes old.now.last new.last rs) }
    ensures behind { IfOk result (λ new. IsBehind [] new.lines new.last) }
{
    let mut noted = NotedKeys::new(alloc);
    'keys: for n in 0..old.count() {
        let Some(key) = old.key_at(n) else {
            return Err(AllocError);
        };
        note_held(alloc, kept, old, log, key, &mut noted)?;
    }
    Ok(noted)
}

// Adds a number.
fn push_number(out: &mut Vec<u8>, number: u32) -> Result<(), AllocError>
    ensures ok { OnOk result (out.new.items ≡ out.old.items ++ decimal number) }
    ensures err { OnErr result (out.new.items ≡ out.old.items) }
{
    let mut buffer = Buffer::new();
    out.extend_from_slice(buffer.format(number).as_bytes())
}

// Adds the transaction that is kept with a key. Where memory is refused a front may have been added.
fn push_txn(out: &mut Vec<u8>, txn: TxnId) -> Result<(), AllocError>
    ensures ok { OnOk result (out.new.items
        ≡ out.old.items ++ kept_key_words (KeyAnswer.Kept txn)) }
    ensures err { OnErr result (take (length out.old.items) out.new.items ≡ out.old.items) }
{
    out.extend_from_slice(b" -> ")?;
    push_number(out, txn.epoch)?;
    out.extend_from_slice(b".")?;
    push_number(out, txn.number)?;
    out.extend_from_slice(b"\n")
}

// Adds what is told behind the question for a key. Where memory is refused a front may have been
// added.
fn push_answer(out: &mut Vec<u8>, kept: KeyAnswer) -> Result<(), AllocError>
    ensures ok { OnOk result (out.new.items ≡ out.old.items ++ kept_key_words kept) }
    ensures err { OnErr result (take (length out.old.items) out.new.items ≡ out.old.items) }
{
    match kept {
        KeyAnswer::Kept(txn) => push_txn(out, txn),
        KeyAnswer::No => out.extend_from_slice(b" -> no\n"),
        KeyAnswer::Forgotten => out.extend_from_slice(b" -> forgotten\n"),
    }
}

// Adds a line that asks for a key, and its answer. Where memory is refused a front may have been
// added.
fn push_asked(out: &mut Vec<u8>, line: &[u8], kept: KeyAnswer) -> Result<(), AllocError>
    ensures ok { OnOk result (out.new.items
        ≡ out.old.items ++ (line.now ++ kept_key_words kept)) }
    ensures err { OnErr result (take (length out.old.items) out.new.items ≡ out.old.items) }
{
    out.extend_from_slice(line)?;
    push_answer(out, kept)
}

/// Adds a line that asks which commit is kept with a key, and its answer, or nothing where memory is
/// refused.
pub(crate) fn add_asked_key(
    out: &mut Vec<u8>,
    line: &[u8],
    kept: KeyAnswer,
) -> Result<(), AllocError>
    ensures ok { OnOk result (out.new.items
        ≡ out.old.items ++ (line.now ++ kept_key_words kept)) }
    ensures err { OnErr result (out.new.items ≡ out.old.items) }
{
    let before = out.len();
    if push_asked(out, line, kept).is_err() {
        out.truncate(before);
        return Err(AllocError);
    }
    Ok(())
}

// Adds the question for a key and its answer. Where memory is refused a front may have been added.
fn push_kept(out: &mut Vec<u8>, key: Key<'_>, kept: KeyAnswer) -> Result<(), AllocError>
    ensures ok { OnOk result (out.new.items
        ≡ out.old.items ++ (kept_key_text key.entry.bytes.now ++ kept_key_words kept)) }
    ensures err { OnErr result (take (length out.old.items) out.new.items ≡ out.old.items) }
{
    out.extend_from_slice(b"kept key ")?;
    out.extend_from_slice(key.bytes)?;
    push_answer(out, kept)
}

/// Adds the question for a key with its answer, as a line, or nothing where memory is refused.
pub(crate) fn add_kept_key(
    out: &mut Vec<u8>,
    key: Key<'_>,
    kept: KeyAnswer,
) -> Result<(), AllocError>
    ensures ok { OnOk result (out.new.items
        ≡ out.old.items ++ (kept_key_text key.entry.bytes.now ++ kept_key_words kept)) }
    ensures err { OnErr result (out.new.items ≡ out.old.items) }
{
    let before = out.len();
    if push_kept(out, key, kept).is_err() {
        out.truncate(before);
        return Err(AllocError);
    }
    Ok(())
}

// The reply tells that a transaction was committed.
fn is_committed(reply: Reply) -> bool
    ensures { result ≡ is_committed reply }
{
    matches!(reply, Reply::Committed)
}

// Keeps the note that was drafted behind so many bytes of lines, or drops it.
fn end_draft(keys: &mut NotedKeys, before: usize, key: Key<'_>, txn: TxnId, keeps: bool)
    requires room { 0 < keys.old.room }
    ensures last { (other : List ℕ) → last_of keys.new.last other
        ≡ (if keeps then noted keys.old.last key.entry.bytes.now txn other
        else last_of keys.old.last other) }
    ensures behind { (notes : List KeyNote) (lines : List ℕ) → before ≡ length lines
        → keys.old.lines ≡ lines ++ note_line (note_of key.entry.bytes.now txn)
        → IsNote (note_of key.entry.bytes.now txn) → IsBehind notes lines keys.old.last
        → IsBehind notes keys.new.lines keys.new.last }
{
    if keeps {
        keys.keep_draft(key, txn);
    } else {
        keys.drop_draft(before);
    }
}

/// Carries out a commit, and notes its key where it is committed. The room for the note is got
/// before: where memory is refused nothing was carried out, and nothing noted.
pub(crate) fn commit_and_note(
    alloc: Global,
    site: &mut Site<MemoryMedium, GhostHistory<Entry>>,
    keys: &mut NotedKeys,
    key: Key<'_>,
    txn: TxnId,
) -> Result<Reply, AllocError>
    ensures ok { IfOk result (λ reply. Applies site.old (CommandType.Commit txn) reply site.new) }
    ensures noted { IfOk result (NotesCommit keys.old.last keys.new.last key.entry.bytes.now
        txn) }
    ensures err { OnErr result (site.new ≡ site.old) }
    ensures same { OnErr result (keys.new.last ≡ keys.old.last) }
    ensures behind { (notes : List KeyNote)
        → IsBehind notes keys.old.lines keys.old.last
        → IsBehind notes keys.new.lines keys.new.last }
{
    let before = keys.lines().len();
    keys.draft(key, txn)?;
    match site.apply(alloc, Command::Commit { txn }) {
        Ok(reply) => {
            end_draft(keys, before, key, txn, is_committed(reply));
            Ok(reply)
        }
        Err(AllocError) => {
            keys.drop_draft(before);
            Err(AllocError)
        }
    }
}
