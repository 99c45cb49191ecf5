//! Replies that bytes are, from the first to the last: read in one look at each byte, with no cut
//! into words, where the reply is one of the common kinds.

ghost use Rattle.std.specs.Prelude.{◌≡◌, IfSome};
ghost use Rattle.std.specs.Fmt.{decimal};
ghost use Rattle.entry_text.specs.Ranges.{ReplyFits, IdFits};
ghost use Rattle.entry_text.specs.Spelling.{id_text, reply_text};

use crate::front::first_txn;
use crate::reply::reply;
use field_bounds::{Reply, TxnId};
use line_words::{Words, behind, first_number, first_signed};

#[inline(always)]
fn whole_number(bytes: &[u8]) -> Option<u64>
    ensures { IfSome result (λ n. bytes.now ≡ decimal n) }
{
    match first_number(bytes)? {
        (number, []) => Some(number),
        _ => None,
    }
}

#[inline(always)]
fn whole_txn(bytes: &[u8]) -> Option<TxnId>
    ensures text { IfSome result (λ t. bytes.now ≡ id_text t) }
    ensures fits { IfSome result IdFits }
{
    match first_txn(bytes)? {
        (txn, []) => Some(txn),
        _ => None,
    }
}

// The bytes are those of the text.
#[inline(always)]
fn is_whole(bytes: &[u8], text: &str) -> Option<()>
    ensures { IfSome result (λ u. bytes.now ≡ text.now) }
{
    match behind(bytes, text)? {
        [] => Some(()),
        _ => None,
    }
}

#[inline(always)]
fn whole_between(bytes: &[u8]) -> Option<Reply>
    ensures text { IfSome result (λ r. bytes.now ≡ reply_text r) }
    ensures fits { IfSome result ReplyFits }
{
    let (lo, rest) = first_signed(behind(bytes, "between ")?)?;
    match first_signed(behind(rest, " ")?)? {
        (hi, []) => Some(Reply::Between { lo, hi }),
        _ => None,
    }
}

#[inline(always)]
fn whole_shares(bytes: &[u8]) -> Option<Reply>
    ensures text { IfSome result (λ r. bytes.now ≡ reply_text r) }
    ensures fits { IfSome result ReplyFits }
{
    let (lower, rest) = first_number(behind(bytes, "share ")?)?;
    let raise = whole_number(behind(rest, " ")?)?;
    Some(Reply::Shares { lower, raise })
}

// A reply of a common kind, found by its first bytes.
#[inline(always)]
fn common_reply(bytes: &[u8]) -> Option<Reply>
    ensures text { IfSome result (λ r. bytes.now ≡ reply_text r) }
    ensures fits { IfSome result ReplyFits }
{
    match bytes {
        [b'g', b'r', ..] => {
            is_whole(bytes, "granted")?;
            Some(Reply::Granted)
        }
        [b'b', b'e', b'g', ..] => {
            let txn = whole_txn(behind(bytes, "begun ")?)?;
            Some(Reply::Begun(txn))
        }
        [b'c', ..] => {
            is_whole(bytes, "committed")?;
            Some(Reply::Committed)
        }
        [b'b', ..] => whole_between(bytes),
        [b's', ..] => whole_shares(bytes),
        [b'a', b'b', ..] => {
            is_whole(bytes, "aborted")?;
            Some(Reply::Aborted)
        }
        [b'g', ..] => {
            let total = whole_number(behind(bytes, "given ")?)?;
            Some(Reply::Given { total })
        }
        [b'a', ..] => {
            let gain = whole_number(behind(bytes, "accepted ")?)?;
            Some(Reply::Accepted { gain })
        }
        [b't', ..] => {
            let total = whole_number(behind(bytes, "tightened ")?)?;
            Some(Reply::Tightened { total })
        }
        _ => None,
    }
}

// A reply of any kind, the words cut one after another.
#[inline(never)]
fn cut_reply(bytes: &[u8]) -> Option<Reply>
    ensures text { IfSome result (λ r. bytes.now ≡ reply_text r) }
    ensures fits { IfSome result ReplyFits }
{
    let mut words = Words::new(bytes);
    let reply = reply(&mut words)?;
    if words.is_empty() { Some(reply) } else { None }
}

/// The reply that the bytes spell. None where they spell none.
#[inline(always)]
pub(crate) fn whole_reply(bytes: &[u8]) -> Option<Reply>
    ensures text { IfSome result (λ r. bytes.now ≡ reply_text r) }
    ensures fits { IfSome result ReplyFits }
{
    if let Some(reply) = common_reply(bytes) {
        return Some(reply);
    }
    cut_reply(bytes)
}
