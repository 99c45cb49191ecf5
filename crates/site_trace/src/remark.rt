//! Lines of a trace that are no entries.

ghost use Rattle.std.specs.Prelude.{◌≡◌, ◌≢◌, ◌⊎◌, ◌++◌, ℕ, List, MatchOption, MatchBool, codes};
ghost use Rattle.caller_keys.specs.Keys.{IsKey};
ghost use Rattle.site_trace.specs.Lines.{AnswersKept, AnswersKey, AnswersBad, IsKeptAnswer, IsTold, IsTxn, IsRemark};
ghost use Rattle.site_trace.specs.Reading.{IsNumber, StartsWithNumber, TellsAnswer, TellsBehind, TellsKey, TellsPosition, TellsSince};

use crate::split::split_at_first;
use caller_keys::read_key;
use entry_text::{read_number, read_txn};

// What stands behind a word at the front of the line, or None where it doesn't stand there.
fn behind<'a>(line: &'a [u8], word: &[u8]) -> Option<&'a [u8]>
    ensures rest { MatchOption result ((rest : List ℕ) → line.now ≢ word.now ++ rest)
        (λ rest. line.now ≡ word.now ++ rest.now) }
{
    match line.strip_prefix(word) {
        Some(rest) => Some(rest),
        None => None,
    }
}

// What stands in front of a word at the end of the line, or None where it doesn't stand there.
fn before<'a>(line: &'a [u8], word: &[u8]) -> Option<&'a [u8]>
    ensures front { MatchOption result ((front : List ℕ) → line.now ≢ front ++ word.now)
        (λ front. line.now ≡ front.now ++ word.now) }
{
    match line.strip_suffix(word) {
        Some(front) => Some(front),
        None => None,
    }
}

// What stands between two words, of which one is at the front of the line and the other at its end,
// or None where they don't stand there.
fn between<'a>(line: &'a [u8], front: &[u8], end: &[u8]) -> Option<&'a [u8]>
    ensures inner { MatchOption result
        ((inner : List ℕ) → line.now ≢ front.now ++ (inner ++ end.now))
        (λ inner. line.now ≡ front.now ++ (inner.now ++ end.now)) }
{
    match behind(line, front) {
        Some(rest) => before(rest, end),
        None => None,
    }
}

// Whether the line tells in these words whether a commit is in the log.
fn tells_commit(line: &[u8], words: &[u8]) -> bool
    ensures tells { MatchBool result (AnswersKept line.now words.now)
        (AnswersKept line.now words.now → ⊥) }
{
    match between(line, b"kept ", words) {
        Some(txn) => read_txn(txn).is_some(),
        None => false,
    }
}

// Whether the line tells that a commit isn't in the log, or that it can't be told.
fn tells_no_commit(line: &[u8]) -> bool
    ensures tells { MatchBool result (AnswersKept line.now (codes " -> no")
        ⊎ AnswersKept line.now (codes " -> forgotten"))
        (AnswersKept line.now (codes " -> no")
        ⊎ AnswersKept line.now (codes " -> forgotten") → ⊥) }
{
    tells_commit(line, b" -> no") || tells_commit(line, b" -> forgotten")
}

// Whether the line answers a question for a commit.
fn is_kept_answer(line: &[u8]) -> bool
    ensures kept { MatchBool result (IsKeptAnswer line.now) (IsKeptAnswer line.now → ⊥) }
{
    tells_commit(line, b" -> yes") || tells_no_commit(line)
}

// Whether the word is a transaction.
fn is_txn(word: &[u8]) -> bool
    ensures txn { MatchBool result (IsTxn word.now) (IsTxn word.now → ⊥) }
{
    read_txn(word).is_some()
}

// Whether the word is a transaction, or `forgotten`.
fn is_txn_or_forgotten(word: &[u8]) -> bool
    ensures told { MatchBool result ((word.now ≡ codes "forgotten") ⊎ IsTxn word.now)
        ((word.now ≡ codes "forgotten") ⊎ IsTxn word.now → ⊥) }
{
    word == b"forgotten".as_slice() || is_txn(word)
}

// Whether the word is a transaction, `no`, or `forgotten`.
fn is_told(word: &[u8]) -> bool
    ensures told { MatchBool result (IsTold word.now) (IsTold word.now → ⊥) }
{
    word == b"no".as_slice() || is_txn_or_forgotten(word)
}

// Whether what is told of a key stands behind an arrow.
fn tells_behind(bytes: &[u8]) -> bool
    ensures tells { MatchBool result (TellsBehind bytes.now) (TellsBehind bytes.now → ⊥) }
{
    match behind(bytes, b"-> ") {
        Some(word) => is_told(word),
        None => false,
    }
}

// Whether the bytes are a position, and what is told since then behind a space.
fn tells_position(bytes: &[u8]) -> bool
    ensures tells { MatchBool result (TellsPosition bytes.now) (TellsPosition bytes.now → ⊥) }
{
    match split_at_first(bytes, b' ') {
        Some((word, rest)) => is_txn(word) && tells_behind(rest),
        None => false,
    }
}

// Whether that stands behind the word `since`.
fn tells_since(bytes: &[u8]) -> bool
    ensures tells { MatchBool result (TellsSince bytes.now) (TellsSince bytes.now → ⊥) }
{
    match behind(bytes, b"since ") {
        Some(rest) => tells_position(rest),
        None => false,
    }
}

// Whether the bytes are what is told of a key, maybe since a position.
fn tells_answer(bytes: &[u8]) -> bool
    ensures tells { MatchBool result (TellsAnswer bytes.now) (TellsAnswer bytes.now → ⊥) }
{
    tells_behind(bytes) || tells_since(bytes)
}

// Whether the word is a key.
fn is_key(word: &[u8]) -> bool
    ensures key { MatchBool result (IsKey word.now) (IsKey word.now → ⊥) }
{
    read_key(word).is_some()
}

// Whether the bytes are a key, and what is told of it behind a space.
fn tells_key(bytes: &[u8]) -> bool
    ensures tells { MatchBool result (TellsKey bytes.now) (TellsKey bytes.now → ⊥) }
{
    match split_at_first(bytes, b' ') {
        Some((key, rest)) => is_key(key) && tells_answer(rest),
        None => false,
    }
}

// Whether the line answers a question for a key.
fn is_key_answer(line: &[u8]) -> bool
    ensures key { MatchBool result (AnswersKey line.now) (AnswersKey line.now → ⊥) }
{
    match behind(line, b"kept key ") {
        Some(rest) => tells_key(rest),
        None => false,
    }
}

// Whether the word is a number.
fn is_number(word: &[u8]) -> bool
    ensures number { MatchBool result (IsNumber word.now) (IsNumber word.now → ⊥) }
{
    read_number(word).is_some()
}

// Whether a number and a space stand at the front of the bytes.
fn starts_with_number(bytes: &[u8]) -> bool
    ensures starts { MatchBool result (StartsWithNumber bytes.now)
        (StartsWithNumber bytes.now → ⊥) }
{
    match split_at_first(bytes, b' ') {
        Some((word, _)) => is_number(word),
        None => false,
    }
}

// Whether the line answers a line that asked nothing.
fn is_bad_answer(line: &[u8]) -> bool
    ensures bad { MatchBool result (AnswersBad line.now) (AnswersBad line.now → ⊥) }
{
    match behind(line, b"bad line ") {
        Some(rest) => starts_with_number(rest),
        None => false,
    }
}

// Whether the line answers a question for a key, or a line that asked nothing.
fn is_key_or_bad_answer(line: &[u8]) -> bool
    ensures either { MatchBool result (AnswersKey line.now ⊎ AnswersBad line.now)
        (AnswersKey line.now ⊎ AnswersBad line.now → ⊥) }
{
    is_key_answer(line) || is_bad_answer(line)
}

/// Whether the line is an answer that is no entry.
pub(crate) fn is_remark(line: &[u8]) -> bool
    ensures remark { MatchBool result (IsRemark line.now) (IsRemark line.now → ⊥) }
{
    is_kept_answer(line) || is_key_or_bad_answer(line)
}
