//! The answers of a site, as text.

ghost use Rattle.std.specs.Prelude.{◌≡◌, ◌⊎◌, ◌<◌, ◌++◌, ◌∷◌, [], ℕ, Bool, List, Option, length, take, OnOk, OnErr};
ghost use Rattle.entry_text.specs.Spelling.{command_text, entry_text};
ghost use Rattle.entry_text.specs.Lines.{max_line};
ghost use Rattle.kept_records.specs.Keeping.{IsKept};
ghost use Rattle.field_bounds.specs.declared.entry.Command.{Command as CommandType};
ghost use Rattle.field_bounds.specs.declared.id.TxnId.{TxnId as Txn};
ghost use Rattle.caller_keys.specs.Keys.{KeyNote};
ghost use Rattle.site_service.specs.Answers.{served_of, CommitsWith, LeavesCommand, LeavesAnswer};
ghost use Rattle.request_lines.specs.Requests.{AsksCommit};
ghost use Rattle.site_service.specs.Index.{IsIndexOf, IsBehind, GoesOn};
ghost use Rattle.site_service.specs.Kept.{TellsCommit, TellsKey, kept_words, kept_key_words};
ghost use Rattle.site_service.specs.LetGo.{commit_answer, key_answer};
ghost use Rattle.site_service.specs.Service.{StandsOnHeld, Tells, TellsEntry};
ghost use Rattle.site_step.specs.Shortening.{held_of};

use crate::kept::KeptCommits;
use crate::key_answer::KeyAnswer;
use crate::keyed::{add_asked_key, add_kept_key, commit_and_note, kept_with};
use crate::keys::NotedKeys;
use crate::telling::{commit_answer, key_answer};
use caller_keys::Key;
use entry_text::{append_entry, append_reply};
use field_bounds::{Command, Entry, Reply, Schema, SiteNo, TxnId};
use history::GhostHistory;
use kept_records::MemoryMedium;
use log_head::{CommitAnswer, Gone};
use request_lines::{KeyedCommit, Request, add_bad, asked};
use site_step::Site;
use std::alloc::{AllocError, Global};

// Adds the text of an entry and an LF, or changes nothing where memory is refused.
fn add_entry(out: &mut Vec<u8>, schema: &Schema, entry: Entry) -> Result<(), AllocError>
    ensures ok { OnOk result (out.new.items
        ≡ out.old.items ++ (entry_text schema.now entry ++ 10 ∷ [])) }
    ensures err { OnErr result (out.new.items ≡ out.old.items) }
{
    let kept = out.len();
    append_entry(out, schema, entry)?;
    if out.push(b'\n').is_err() {
        out.truncate(kept);
        return Err(AllocError);
    }
    Ok(())
}

/// Carries out a command, and adds its entry as a line. Where memory is refused nothing is added;
/// the command may have been carried out.
pub(crate) fn carry_out(
    alloc: Global,
    site: &mut Site<MemoryMedium, GhostHistory<Entry>>,
    out: &mut Vec<u8>,
    command: Command,
) -> Result<(), AllocError>
    ensures ok { OnOk result (TellsEntry command site.old site.new out.old.items out.new.items) }
    ensures err { OnErr result (out.new.items ≡ out.old.items) }
    ensures grows { StandsOnHeld site.old → GoesOn site.old site.new }
{
    let number = site.site();
    let reply = site.apply(alloc, command)?;
    let entry = Entry {
        site: number,
        command,
        reply,
    };
    add_entry(out, site.schema(), entry)
}

// Adds a line that spells a command of the site, with its reply, and an LF: the text of its entry,
// in which the command isn't spelled again. Where memory is refused a front may have been added.
#[inline(always)]
fn push_spelled(
    out: &mut Vec<u8>,
    schema: &Schema,
    line: &[u8],
    site: SiteNo,
    command: Command,
    reply: Reply,
) -> Result<(), AllocError>
    requires spelled { line.now ≡ command_text schema.now site command }
    ensures ok { OnOk result (out.new.items ≡ out.old.items ++ (entry_text schema.now
        (record { site = site; command = command; reply = reply }) ++ 10 ∷ [])) }
    ensures err { OnErr result (take (length out.old.items) out.new.items ≡ out.old.items) }
{
    out.extend_from_slice(line)?;
    out.extend_from_slice(b" -> ")?;
    append_reply(out, reply)?;
    out.extend_from_slice(b"\n")
}

// The same, or changes nothing where memory is refused.
#[inline(always)]
fn add_spelled(
    out: &mut Vec<u8>,
    schema: &Schema,
    line: &[u8],
    site: SiteNo,
    command: Command,
    reply: Reply,
) -> Result<(), AllocError>
    requires spelled { line.now ≡ command_text schema.now site command }
    ensures ok { OnOk result (out.new.items ≡ out.old.items ++ (entry_text schema.now
        (record { site = site; command = command; reply = reply }) ++ 10 ∷ [])) }
    ensures err { OnErr result (out.new.items ≡ out.old.items) }
{
    let before = out.len();
    if push_spelled(out, schema, line, site, command, reply).is_err() {
        out.truncate(before);
        return Err(AllocError);
    }
    Ok(())
}

// Carries out the command that a line spells, and adds its entry as a line, as `carry_out` does.
fn carry_out_spelled(
    alloc: Global,
    site: &mut Site<MemoryMedium, GhostHistory<Entry>>,
    out: &mut Vec<u8>,
    line: &[u8],
    command: Command,
) -> Result<(), AllocError>
    requires spelled { line.now ≡ command_text site.old.schema site.old.site command }
    ensures ok { OnOk result (TellsEntry command site.old site.new out.old.items out.new.items) }
    ensures err { OnErr result (out.new.items ≡ out.old.items) }
    ensures left { OnErr result (LeavesCommand site.old command site.new) }
    ensures grows { StandsOnHeld site.old → GoesOn site.old site.new }
{
    let number = site.site();
    let reply = site.apply(alloc, command)?;
    add_spelled(out, site.schema(), line, number, command, reply)
}

// The words that tell whether a commit is kept.
fn words(kept: CommitAnswer) -> &'static [u8]
    ensures { result.now ≡ kept_words kept }
{
    match kept {
        CommitAnswer::Yes => b" -> yes\n",
        CommitAnswer::No => b" -> no\n",
        CommitAnswer::Forgotten => b" -> forgotten\n",
    }
}

// Adds a question and its answer. Where memory is refused a front of it may have been added.
fn push_kept(out: &mut Vec<u8>, line: &[u8], kept: CommitAnswer) -> Result<(), AllocError>
    ensures ok { OnOk result (out.new.items ≡ out.old.items ++ (line.now ++ kept_words kept)) }
    ensures err { OnErr result (take (length out.old.items) out.new.items ≡ out.old.items) }
{
    out.extend_from_slice(line)?;
    out.extend_from_slice(words(kept))
}

// The same, or changes nothing where memory is refused.
fn add_kept(out: &mut Vec<u8>, line: &[u8], kept: CommitAnswer) -> Result<(), AllocError>
    ensures ok { OnOk result (out.new.items ≡ out.old.items ++ (line.now ++ kept_words kept)) }
    ensures err { OnErr result (out.new.items ≡ out.old.items) }
{
    let before = out.len();
    if push_kept(out, line, kept).is_err() {
        out.truncate(before);
        return Err(AllocError);
    }
    Ok(())
}

// Adds a question for a commit with its answer, or nothing where memory is refused.
fn tell_commit(
    alloc: Global,
    kept: &mut KeptCommits,
    told: &Option<Gone>,
    log: &[u8],
    out: &mut Vec<u8>,
    line: &[u8],
    txn: TxnId,
) -> Result<(), AllocError>
    requires index { IsIndexOf kept.old log.now }
    requires log { IsKept log.now }
    ensures ok { OnOk result ((is_kept : Bool) × TellsCommit log.now txn is_kept
        × (out.new.items
        ≡ out.old.items ++ (line.now ++ kept_words (commit_answer told.now txn is_kept)))) }
    ensures err { OnErr result (out.new.items ≡ out.old.items) }
    ensures index { IsIndexOf kept.new log.now }
{
    let is_kept = kept.holds(alloc, log, txn)?;
    add_kept(out, line, commit_answer(told, txn, is_kept))?;
    Ok(())
}

// Adds a question for a key with its answer, or nothing where memory is refused.
fn tell_key(
    alloc: Global,
    kept: &mut KeptCommits,
    keys: &NotedKeys,
    told: &Option<Gone>,
    log: &[u8],
    out: &mut Vec<u8>,
    line: &[u8],
    key: Key<'_>,
    since: Option<TxnId>,
) -> Result<(), AllocError>
    requires index { IsIndexOf kept.old log.now }
    requires log { IsKept log.now }
    ensures ok { OnOk result ((txn : Option Txn)
        × TellsKey log.now keys.now.last key.entry.bytes.now txn
        × (out.new.items ≡ out.old.items
        ++ (line.now ++ kept_key_words (key_answer told.now since txn)))) }
    ensures err { OnErr result (out.new.items ≡ out.old.items) }
    ensures index { IsIndexOf kept.new log.now }
{
    let txn = kept_with(alloc, kept, keys, log, key)?;
    add_asked_key(out, line, key_answer(told, since, txn))?;
    Ok(())
}

// Carries out a commit with a key, notes the key where it is committed, and adds its entry as a line.
// Where memory is refused nothing is added; the commit may have been carried out, and the key noted
// with it.
fn commit_spelled(
    alloc: Global,
    site: &mut Site<MemoryMedium, GhostHistory<Entry>>,
    keys: &mut NotedKeys,
    out: &mut Vec<u8>,
    commit: KeyedCommit<'_>,
) -> Result<(), AllocError>
    requires spelled { commit.spelled.now ≡ command_text site.old.schema site.old.site
        (CommandType.Commit commit.txn) }
    ensures ok { OnOk result ((text : List ℕ)
        × CommitsWith site.old keys.old.last commit.entry.txn commit.entry.key.bytes.now site.new
        keys.new.last text
        × (out.new.items ≡ out.old.items ++ text)) }
    ensures err { OnErr result (out.new.items ≡ out.old.items) }
    ensures left { OnErr result (((site.new ≡ site.old)
        × (keys.new.last ≡ keys.old.last)) ⊎ ((text : List ℕ)
        × CommitsWith site.old keys.old.last commit.entry.txn commit.entry.key.bytes.now site.new
        keys.new.last text)) }
    ensures grows { StandsOnHeld site.old → GoesOn site.old site.new }
    ensures behind { (notes : List KeyNote)
        → IsBehind notes keys.old.lines keys.old.last
        → IsBehind notes keys.new.lines keys.new.last }
{
    let KeyedCommit {
        spelled,
        txn,
        key,
        ..
    } = commit;
    let number = site.site();
    let reply = commit_and_note(alloc, site, keys, key, txn)?;
    let command = Command::Commit { txn };
    add_spelled(out, site.schema(), spelled, number, command, reply)
}

// Answers a line that asks a commit with a key: tells which one is kept with it, or that one may be
// forgotten, or carries it out.
fn answer_commit(
    alloc: Global,
    site: &mut Site<MemoryMedium, GhostHistory<Entry>>,
    kept: &mut KeptCommits,
    keys: &mut NotedKeys,
    told: &Option<Gone>,
    out: &mut Vec<u8>,
    commit: KeyedCommit<'_>,
) -> Result<(), AllocError>
    requires spelled { commit.spelled.now ≡ command_text site.old.schema site.old.site
        (CommandType.Commit commit.txn) }
    requires stands { StandsOnHeld site.old }
    requires index { IsIndexOf kept.old (held_of site.old) }
    ensures ok { (line : List ℕ) (count number : ℕ) → AsksCommit site.old.schema site.old.site line
        commit.entry.txn commit.entry.key.bytes.now commit.entry.since → OnOk result (Tells line
        (served_of site.old keys.old.last told.now count)
        (served_of site.new keys.new.last told.now number) out.old.items out.new.items) }
    ensures err { OnErr result (out.new.items ≡ out.old.items) }
    ensures left { (line : List ℕ) (count number : ℕ) → AsksCommit site.old.schema site.old.site line
        commit.entry.txn commit.entry.key.bytes.now commit.entry.since → OnErr result
        (LeavesAnswer (served_of site.old keys.old.last told.now count) line
        (served_of site.new keys.new.last told.now number)) }
    ensures grows { GoesOn site.old site.new }
    ensures index { IsIndexOf kept.new (held_of site.new) }
    ensures behind { (notes : List KeyNote)
        → IsBehind notes keys.old.lines keys.old.last
        → IsBehind notes keys.new.lines keys.new.last }
{
    let KeyedCommit { key, since, .. } = commit;
    let found = kept_with(alloc, kept, keys, site.medium().bytes(), key)?;
    match key_answer(told, since, found) {
        KeyAnswer::Kept(other) => add_kept_key(out, key, KeyAnswer::Kept(other)),
        KeyAnswer::Forgotten => add_kept_key(out, key, KeyAnswer::Forgotten),
        KeyAnswer::No => commit_spelled(alloc, site, keys, out, commit),
    }
}

/// Answers the line of this number: adds the entry of the command that it asks, or whether a commit
/// is in the log, or which one with a key, or that it asks nothing. Where memory is refused nothing
/// is added; a command may have been carried out. The answer to a line that is too long is that to
/// each such line.
pub(crate) fn answer_line(
    alloc: Global,
    site: &mut Site<MemoryMedium, GhostHistory<Entry>>,
    kept: &mut KeptCommits,
    keys: &mut NotedKeys,
    told: &Option<Gone>,
    out: &mut Vec<u8>,
    number: u64,
    line: &[u8],
) -> Result<(), AllocError>
    requires stands { StandsOnHeld site.old }
    requires index { IsIndexOf kept.old (held_of site.old) }
    ensures ok { (count : ℕ) → OnOk result (Tells line.now
        (served_of site.old keys.old.last told.now count)
        (served_of site.new keys.new.last told.now number) out.old.items out.new.items) }
    ensures long { (count : ℕ) (whole : List ℕ) → max_line < length line.now
        → max_line < length whole → OnOk result (Tells whole
        (served_of site.old keys.old.last told.now count)
        (served_of site.new keys.new.last told.now number) out.old.items out.new.items) }
    ensures err { OnErr result (out.new.items ≡ out.old.items) }
    ensures left { (count : ℕ) → OnErr result (LeavesAnswer
        (served_of site.old keys.old.last told.now count) line.now
        (served_of site.new keys.new.last told.now number)) }
    ensures grows { GoesOn site.old site.new }
    ensures index { IsIndexOf kept.new (held_of site.new) }
    ensures behind { (notes : List KeyNote)
        → IsBehind notes keys.old.lines keys.old.last
        → IsBehind notes keys.new.lines keys.new.last }
{
    match asked(site.schema(), site.site(), line) {
        Ok(Request::Do(command)) => carry_out_spelled(alloc, site, out, line, command),
        Ok(Request::Commit(commit)) => { answer_commit(alloc, site, kept, keys, told, out, commit) }
        Ok(Request::Kept(txn)) => {
            tell_commit(alloc, kept, told, site.medium().bytes(), out, line, txn)
        }
        Ok(Request::KeptKey(key, since)) => {
            let log = site.medium().bytes();
            tell_key(alloc, kept, keys, told, log, out, line, key, since)
        }
        Err(why) => add_bad(out, number, why),
    }
}
