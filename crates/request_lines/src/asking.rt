//! What a line asks of a site.

ghost use Rattle.std.specs.Prelude.{◌≡◌, ◌≢◌, ◌≤◌, ◌++◌, ◌∷◌, ℕ, true, false, List, Option, length, codes, MatchOption, IfOk, IfErr, OnOk, IfSome, IfNone};
ghost use Rattle.field_bounds.specs.declared.id.SiteNo.{SiteNo as Site};
ghost use Rattle.field_bounds.specs.declared.id.TxnId.{TxnId as Txn};
ghost use Rattle.field_bounds.specs.declared.entry.Command.{Command as CommandType};
ghost use Rattle.entry_text.specs.Lines.{max_line};
ghost use Rattle.entry_text.specs.Ranges.{SiteFits, IdFits};
ghost use Rattle.entry_text.specs.Spelling.{command_text, id_text};
ghost use Rattle.request_lines.specs.Requests.{AsksCommit, IsBehindSince};
ghost use Rattle.request_lines.specs.BadLines.{IsBad};
ghost use Rattle.request_lines.specs.Asking.{IsAsked, IsQuestion, AsksKey, AsksNoQuestion, AsksNoCommand, HasNoSpace, IsCutAtKey, IsCutAtSince, SpellsCommit};

use crate::bad_line::BadLine;
use crate::line_fault::fault_in;
use caller_keys::{Key, read_key};
use entry_text::{MAX_LINE, read_command, read_txn};
use field_bounds::{Command, Schema, SiteNo, TxnId, is_up_to};
use memchr::memrchr;

/// A commit with a key of its caller. Source: this project.
#[derive(Clone, Copy)]
pub struct KeyedCommit<'a> {
    /// The text of the commit without its key, as the line spells it.
    pub spelled: &'a [u8],
    /// The transaction.
    pub txn: TxnId,
    /// The key.
    pub key: Key<'a>,
    /// The position behind which each commit with the key is, where the line tells one.
    pub since: Option<TxnId>,
}

/// What a line asks. Source: this project.
#[derive(Clone, Copy)]
pub enum Request<'a> {
    /// To carry out a command of this site.
    Do(Command),
    /// To carry out this commit of this site, unless one with its key is kept, or may be forgotten.
    Commit(KeyedCommit<'a>),
    /// Whether the commit of this transaction is in the log.
    Kept(TxnId),
    /// Which commit is kept with this key; each is behind the position, where one is told.
    KeptKey(Key<'a>, Option<TxnId>),
}

// What stands behind the word `kept`.
fn behind_kept(line: &[u8]) -> Option<&[u8]>
    ensures rest { MatchOption result ((rest : List ℕ) → line.now ≢ codes "kept " ++ rest)
        (λ rest. line.now ≡ codes "kept " ++ rest.now) }
{
    match line.strip_prefix(b"kept ") {
        Some(rest) => Some(rest),
        None => None,
    }
}

// What stands in front of the last space of a line, and behind it.
fn split_last(line: &[u8]) -> Option<(&[u8], &[u8])>
    ensures parts { IfSome result (λ parts. line.now ≡ parts.0.now ++ 32 ∷ parts.1.now) }
    ensures last { IfSome result (λ parts. HasNoSpace parts.1.now) }
    ensures none { IfNone result (HasNoSpace line.now) }
{
    match memrchr(b' ', line) {
        Some(at) => Some((&line[..at], &line[at + 1..])),
        None => None,
    }
}

// What stands in front of the last word, where that is `since`.
fn before_since(front: &[u8]) -> Option<&[u8]>
    ensures before { MatchOption result
        ((before : List ℕ) → front.now ≢ before ++ codes " since")
        (λ before. front.now ≡ before.now ++ codes " since") }
{
    match front.strip_suffix(b" since") {
        Some(before) => Some(before),
        None => None,
    }
}

// What stands in front of the word `since` and a position, and that position.
fn told_since(line: &[u8]) -> Option<(&[u8], TxnId)>
    ensures some { IfSome result (λ told. line.now
        ≡ told.0.now ++ (codes " since " ++ id_text told.1)) }
    ensures fits { IfSome result (λ told. IdFits told.1) }
    ensures none { IfNone result ((front : List ℕ) (since : Txn) → IdFits since
        → line.now ≢ front ++ (codes " since " ++ id_text since)) }
{
    let (front, word) = split_last(line)?;
    let before = before_since(front)?;
    match read_txn(word) {
        Some(since) => Some((before, since)),
        None => None,
    }
}

// What stands in front of where a line tells since when, and since when; all of it where it doesn't.
fn split_since(line: &[u8]) -> (&[u8], Option<TxnId>)
    ensures { IsCutAtSince line.now result.0.now result.1 }
{
    match told_since(line) {
        Some((front, since)) => (front, Some(since)),
        None => (line, None),
    }
}

// What stands behind the words `kept key`.
fn behind_kept_key(front: &[u8]) -> Option<&[u8]>
    ensures rest { MatchOption result ((rest : List ℕ) → front.now ≢ codes "kept key " ++ rest)
        (λ rest. front.now ≡ codes "kept key " ++ rest.now) }
{
    match front.strip_prefix(b"kept key ") {
        Some(rest) => Some(rest),
        None => None,
    }
}

// The key of which a line asks, and since when.
fn asked_key(line: &[u8]) -> Option<(Key<'_>, Option<TxnId>)>
    ensures some { IfSome result (λ asked. AsksKey line.now asked.0.bytes.now asked.1) }
    ensures none { IfNone result ((key : List ℕ) (since : Option Txn)
        → AsksKey line.now key since → ⊥) }
{
    let (front, since) = split_since(line);
    let rest = behind_kept_key(front)?;
    match read_key(rest) {
        Some(key) => Some((key, since)),
        None => None,
    }
}

// What a line asks that is a question.
fn asked_question(line: &[u8]) -> Option<Request<'_>>
    ensures some { IfSome result (IsQuestion line.now) }
    ensures none { IfNone result (AsksNoQuestion line.now) }
{
    let word = behind_kept(line)?;
    if let Some(txn) = read_txn(word) {
        return Some(Request::Kept(txn));
    }
    let (key, since) = asked_key(line)?;
    Some(Request::KeptKey(key, since))
}

// What stands in front of the last word, where that is `key`.
fn before_key(front: &[u8]) -> Option<&[u8]>
    ensures before { MatchOption result ((before : List ℕ) → front.now ≢ before ++ codes " key")
        (λ before. front.now ≡ before.now ++ codes " key") }
{
    match front.strip_suffix(b" key") {
        Some(before) => Some(before),
        None => None,
    }
}

// What stands in front of the word `key` and one last word, and that word.
fn split_key(line: &[u8]) -> Option<(&[u8], &[u8])>
    ensures some { IfSome result (λ parts. IsCutAtKey line.now parts.0.now parts.1.now) }
    ensures none { IfNone result ((front word : List ℕ) → IsCutAtKey line.now front word → ⊥) }
{
    let (front, word) = split_last(line)?;
    match before_key(front) {
        Some(before) => Some((before, word)),
        None => None,
    }
}

// The transaction of a commit.
fn commit_of(command: Command) -> Option<TxnId>
    ensures { MatchOption result ((txn : Txn) → command ≢ CommandType.Commit txn)
        (λ txn. command ≡ CommandType.Commit txn) }
{
    if let Command::Commit { txn } = command {
        return Some(txn);
    }
    None
}

// The site and the transaction of a commit that a text spells.
fn read_commit(schema: &Schema, text: &[u8]) -> Option<(SiteNo, TxnId)>
    ensures site { IfSome result (λ asked. SiteFits asked.0) }
    ensures some { IfSome result (λ asked. IdFits asked.1
        × (text.now ≡ command_text schema.now asked.0 (CommandType.Commit asked.1))) }
    ensures only { (site : Site) (txn : Txn) → SiteFits site → IdFits txn
        → text.now ≡ command_text schema.now site (CommandType.Commit txn)
        → MatchOption result ⊥ (λ asked. (asked.0 ≡ site) × (asked.1 ≡ txn)) }
{
    let (site, command) = read_command(schema, text)?;
    match commit_of(command) {
        Some(txn) => Some((site, txn)),
        None => None,
    }
}

// Whether a transaction is behind a position, where one is told.
fn is_behind_since(since: Option<TxnId>, txn: TxnId) -> bool
    ensures yes { result ≡ true → IsBehindSince since txn }
    ensures no { result ≡ false → IsBehindSince since txn → ⊥ }
{
    match since {
        Some(since) => !is_up_to(since, txn),
        None => true,
    }
}

// The site of a commit with a key that a line spells, and that commit.
fn read_with_key<'a>(schema: &Schema, line: &'a [u8]) -> Option<(SiteNo, KeyedCommit<'a>)>
    ensures site { IfSome result (λ asked. SiteFits asked.0) }
    ensures some { IfSome result (λ asked. SpellsCommit schema.now asked.0 line.now asked.1) }
    ensures only { (site : Site) (txn : Txn) (key : List ℕ) (since : Option Txn) → SiteFits site
        → AsksCommit schema.now site line.now txn key since
        → MatchOption result ⊥ (λ asked. asked.0 ≡ site) }
{
    let (order, since) = split_since(line);
    let (spelled, word) = split_key(order)?;
    let key = read_key(word)?;
    let (site, txn) = read_commit(schema, spelled)?;
    if !is_behind_since(since, txn) {
        return None;
    }
    let commit = KeyedCommit {
        spelled,
        txn,
        key,
        since,
    };
    Some((site, commit))
}

// What a line asks of this site by a commit with a key, or why it asks nothing. It spells no command
// of a site of the schema.
fn asked_with_key<'a>(
    schema: &Schema,
    number: SiteNo,
    line: &'a [u8],
) -> Result<Request<'a>, BadLine>
    requires short { length line.now ≤ max_line }
    requires question { AsksNoQuestion line.now }
    requires command { AsksNoCommand schema.now line.now }
    ensures ok { IfOk result (IsAsked schema.now number line.now) }
    ensures err { IfErr result (IsBad schema.now number line.now) }
{
    let Some((site, commit)) = read_with_key(schema, line) else {
        return Err(fault_in(schema, line));
    };
    if number == site {
        return Ok(Request::Commit(commit));
    }
    if schema.sites() > site.0 {
        return Err(BadLine::OtherSite);
    }
    Err(fault_in(schema, line))
}

// What a line asks of this site by a command, or why it asks nothing.
fn asked_command<'a>(
    schema: &Schema,
    number: SiteNo,
    line: &'a [u8],
) -> Result<Request<'a>, BadLine>
    requires short { length line.now ≤ max_line }
    requires question { AsksNoQuestion line.now }
    ensures ok { IfOk result (IsAsked schema.now number line.now) }
    ensures err { IfErr result (IsBad schema.now number line.now) }
{
    let Some((site, command)) = read_command(schema, line) else {
        return asked_with_key(schema, number, line);
    };
    if site == number {
        return Ok(Request::Do(command));
    }
    if site.0 < schema.sites() {
        return Err(BadLine::OtherSite);
    }
    asked_with_key(schema, number, line)
}

/// What a line, without its LF, asks of the site of this number; the error is why it asks nothing.
/// Costs some passes over the line, of no more than 256 bytes, some look-ups in a map of the schema,
/// and no memory. Source: this project.
pub fn asked<'a>(schema: &Schema, number: SiteNo, line: &'a [u8]) -> Result<Request<'a>, BadLine>
    ensures ok { IfOk result (IsAsked schema.now number line.now) }
    ensures short { OnOk result (length line.now ≤ max_line) }
    ensures err { IfErr result (IsBad schema.now number line.now) }
{
    if line.len() > MAX_LINE {
        return Err(BadLine::TooLong);
    }
    match asked_question(line) {
        Some(request) => Ok(request),
        None => asked_command(schema, number, line),
    }
}
