//! What stands behind closed batches.

ghost use Rattle.std.specs.Prelude.{◌≡◌, ◌≢◌, ◌⊎◌, ◌++◌, [], ℕ, List, MatchOption};
ghost use Rattle.sealed_text.specs.Seals.{IsBatch, sum_line};
ghost use Rattle.sealed_text.specs.Rests.{IsClear, BeginsWithS, IsRest};

use crate::batch::{are_batch_bytes, end_batch, is_batch, sum_line};
use memchr::memchr;

/// What a text, or the rest of it, begins with.
#[derive(Clone, Copy)]
pub(crate) enum Rest<'a> {
    /// A closed batch of records, and what stands behind the line that closes it.
    Records(&'a [u8], &'a [u8]),
    /// The end of the world, and nothing behind it.
    Ended,
    /// What a stop leaves of a batch.
    Torn,
    /// Nothing of these.
    Damaged,
}

// The bytes before the first `s`, and those from it on: none where there is no `s`.
fn split_batch(bytes: &[u8]) -> (&[u8], &[u8])
    ensures parts { bytes.now ≡ result.0.now ++ result.1.now }
    ensures clear { IsClear result.0.now }
    ensures first { (result.1.now ≡ []) ⊎ BeginsWithS result.1.now }
{
    match memchr(b's', bytes) {
        Some(at) => bytes.split_at(at),
        None => (bytes, &[]),
    }
}

// What stands behind a line at the front of the bytes, or None where it doesn't stand there.
fn behind<'a>(bytes: &'a [u8], line: &[u8]) -> Option<&'a [u8]>
    ensures rest { MatchOption result ((rest : List ℕ) → bytes.now ≢ line.now ++ rest)
        (λ rest. bytes.now ≡ line.now ++ rest.now) }
{
    match bytes.strip_prefix(line) {
        Some(rest) => Some(rest),
        None => None,
    }
}

// What a closed batch and what stands behind it are.
fn closed<'a>(batch: &'a [u8], rest: &'a [u8]) -> Rest<'a>
    requires batch { IsBatch batch.now }
    ensures rest { IsRest (batch.now ++ (sum_line batch.now ++ rest.now)) result }
{
    match (batch == end_batch(), rest.is_empty()) {
        (false, _) => Rest::Records(batch, rest),
        (true, true) => Rest::Ended,
        (true, false) => Rest::Damaged,
    }
}

// What a batch and what stands behind it are, from the `s` on that begins the line of its sum.
fn sealed<'a>(batch: &'a [u8], bytes: &'a [u8]) -> Rest<'a>
    requires batch { IsBatch batch.now }
    requires first { BeginsWithS bytes.now }
    ensures rest { IsRest (batch.now ++ bytes.now) result }
{
    let line = sum_line(batch);
    if let Some(rest) = behind(bytes, &line) {
        return closed(batch, rest);
    }
    match behind(&line, bytes) {
        Some(_) => Rest::Torn,
        None => Rest::Damaged,
    }
}

/// What the bytes begin with. Costs two passes over the batch that they begin with.
pub(crate) fn rest_of(bytes: &[u8]) -> Rest<'_>
    ensures rest { IsRest bytes.now result }
{
    let (batch, sum) = split_batch(bytes);
    if !sum.is_empty() {
        return if is_batch(batch) {
            sealed(batch, sum)
        } else {
            Rest::Damaged
        };
    }
    if are_batch_bytes(batch) {
        Rest::Torn
    } else {
        Rest::Damaged
    }
}
