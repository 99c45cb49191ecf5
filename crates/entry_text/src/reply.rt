//! Replies as text.

ghost use Rattle.std.specs.Prelude.{◌^◌};
ghost use Rattle.field_bounds.specs.declared.entry.Reply.TheVariants.{Spared, Between, Shares, Restarted};
ghost use Rattle.line_words.specs.Reading.{Gives, below, number_of, signed_of, word_at};
ghost use Rattle.entry_text.specs.Reading.{two_words, table_at};
ghost use Rattle.entry_text.specs.Replies.{found_of, right_replies, reply_at};

use crate::refusal::refusal;
use crate::word::{epoch_at, expect_word, named, number_at, signed_at, txn_at};
use field_bounds::{Last, Reply};
use line_words::Words;

// Takes what a restart found.
#[tactic(auto, unfolding(line_words::specs::Reading::word_at, crate::specs::Replies::found_of))]
fn last_at(line: &mut Words<'_>) -> Option<Last>
    ensures { Gives result line.new (word_at found_of line.old) }
{
    if named(line, "nothing") {
        Some(Last::Nothing)
    } else if named(line, "kept") {
        Some(Last::Kept)
    } else if named(line, "lost") {
        Some(Last::Lost)
    } else {
        None
    }
}

// Takes what follows `between`.
fn between(line: &mut Words<'_>) -> Option<Reply>
    ensures { Gives result line.new (two_words signed_of signed_of Between line.old) }
{
    let lo = signed_at(line)?;
    let hi = signed_at(line)?;
    Some(Reply::Between { lo, hi })
}

// Takes what follows `restarted`.
fn restarted(line: &mut Words<'_>) -> Option<Reply>
    ensures { Gives result line.new (two_words (below (2 ^ 32)) found_of Restarted line.old) }
{
    let epoch = epoch_at(line)?;
    let last = last_at(line)?;
    Some(Reply::Restarted { epoch, last })
}

// Takes what follows `spared`.
fn spared(line: &mut Words<'_>) -> Option<Reply>
    ensures { Gives result line.new
        (two_words (number_of (2 ^ 64)) (number_of (2 ^ 64)) Spared line.old) }
{
    let amount = number_at(line)?;
    let total = number_at(line)?;
    Some(Reply::Spared { amount, total })
}

// Takes what follows `share`.
fn shares(line: &mut Words<'_>) -> Option<Reply>
    ensures { Gives result line.new
        (two_words (number_of (2 ^ 64)) (number_of (2 ^ 64)) Shares line.old) }
{
    let lower = number_at(line)?;
    let raise = number_at(line)?;
    Some(Reply::Shares { lower, raise })
}

// Takes a reply that tells of rights: its first word, and what follows that.
#[tactic(auto, unfolding(crate::specs::Reading::table_at))]
fn right_reply(line: &mut Words<'_>) -> Option<Reply>
    ensures { Gives result line.new (table_at right_replies line.old) }
{
    if named(line, "given") {
        let total = number_at(line)?;
        Some(Reply::Given { total })
    } else if named(line, "stated") {
        let total = number_at(line)?;
        Some(Reply::Stated { total })
    } else if named(line, "spared") {
        spared(line)
    } else if named(line, "tightened") {
        let total = number_at(line)?;
        Some(Reply::Tightened { total })
    } else if named(line, "accepted") {
        let gain = number_at(line)?;
        Some(Reply::Accepted { gain })
    } else if named(line, "share") {
        shares(line)
    } else {
        None
    }
}

/// Takes a reply: its first word, and what follows that.
#[tactic(auto, unfolding(crate::specs::Replies::reply_at, crate::specs::Reading::table_at))]
pub(crate) fn reply(line: &mut Words<'_>) -> Option<Reply>
    ensures { Gives result line.new (reply_at line.old) }
{
    if named(line, "begun") {
        let txn = txn_at(line)?;
        Some(Reply::Begun(txn))
    } else if named(line, "granted") {
        Some(Reply::Granted)
    } else if named(line, "committed") {
        Some(Reply::Committed)
    } else if named(line, "aborted") {
        Some(Reply::Aborted)
    } else if named(line, "between") {
        between(line)
    } else if named(line, "restarted") {
        restarted(line)
    } else if named(line, "unsure") {
        Some(Reply::Unsure)
    } else if named(line, "still") {
        expect_word(line, "down")?;
        Some(Reply::StillDown)
    } else if named(line, "refused") {
        let refusal = refusal(line)?;
        Some(Reply::Refused(refusal))
    } else {
        right_reply(line)
    }
}
