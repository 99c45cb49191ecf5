//! Lines of notes, read.

ghost use Rattle.std.specs.Prelude.{◌≡◌, ◌≢◌, ◌<◌, ◌^◌, ◌∷◌, ◌++◌, [], ℕ, List, MatchOption, IfSome, IfNone, IfOk};
ghost use Rattle.std.specs.Fmt.{decimal};
ghost use Rattle.hex.specs.Hex.{encode_upper};
ghost use Rattle.caller_keys.specs.Keys.{IsKey, KeyNote, IsNote, note_of, note_line};
ghost use Rattle.caller_keys.specs.Reading.{IsWord, spelled};

use crate::key::is_key;
use field_bounds::TxnId;
use hex::FromHexError;
use line_words::{behind, read_number};
use memchr::memchr;
use std::alloc::{AllocError, Global};

// The bytes before the first space, and those after it, or None where there is no space.
fn split_word(bytes: &[u8]) -> Option<(&[u8], &[u8])>
    ensures parts { MatchOption result (IsWord bytes.now)
        (λ parts. IsWord parts.0.now × (bytes.now ≡ parts.0.now ++ 32 ∷ parts.1.now)) }
{
    let at = memchr(b' ', bytes)?;
    Some((&bytes[..at], &bytes[at + 1..]))
}

// The number before the first space, and the bytes after it.
fn split_number(bytes: &[u8]) -> Option<(u64, &[u8])>
    ensures some { IfSome result (λ parts. (parts.0 < 2 ^ 64)
        × (bytes.now ≡ decimal parts.0 ++ 32 ∷ parts.1.now)) }
    ensures none { IfNone result ((number : ℕ) (rest : List ℕ) → number < 2 ^ 64
        → bytes.now ≢ decimal number ++ 32 ∷ rest) }
{
    let (word, rest) = split_word(bytes)?;
    let number = read_number(word)?;
    Some((number, rest))
}

// The two numbers and the digits of a line that is spelled as a note's.
fn split_note(line: &[u8]) -> Option<(u64, u64, &[u8])>
    ensures some { IfSome result (λ parts. (parts.0 < 2 ^ 64) × (parts.1 < 2 ^ 64)
        × (line.now ≡ spelled parts.0 parts.1 parts.2.now)) }
    ensures none { IfNone result ((epoch number : ℕ) (digits : List ℕ) → epoch < 2 ^ 64
        → number < 2 ^ 64 → line.now ≢ spelled epoch number digits) }
{
    let rest = behind(line, "K ")?;
    let (epoch, rest) = split_number(rest)?;
    let (number, digits) = split_number(rest)?;
    Some((epoch, number, digits))
}

// The transaction of two numbers, where it can have them.
fn txn_of(epoch: u64, number: u64) -> Option<TxnId>
    ensures { MatchOption result (epoch < 2 ^ 32 → number < 2 ^ 32 → ⊥)
        (λ txn. (txn.epoch ≡ epoch) × (txn.number ≡ number)) }
{
    Some(TxnId {
        epoch: u32::try_from(epoch).ok()?,
        number: u32::try_from(number).ok()?,
    })
}

// The key whose digits these are.
fn decode_key(alloc: Global, digits: &[u8]) -> Result<Option<Vec<u8>>, AllocError>
    ensures { IfOk result (λ found. MatchOption found
        ((key : List ℕ) → IsKey key → digits.now ≢ encode_upper key)
        (λ key. IsKey key.items × (digits.now ≡ encode_upper key.items))) }
{
    let key = match hex::decode(alloc, digits) {
        Ok(key) => key,
        Err(FromHexError::OutOfMemory) => return Err(AllocError),
        Err(FromHexError::OddLength) => return Ok(None),
        Err(FromHexError::InvalidStringLength) => return Ok(None),
        Err(FromHexError::InvalidHexCharacter { .. }) => return Ok(None),
    };
    if !is_key(key.as_slice()) {
        return Ok(None);
    }
    let again = hex::encode_upper(alloc, key.as_slice())?;
    if again.as_bytes() == digits {
        Ok(Some(key))
    } else {
        Ok(None)
    }
}

/// The key and the transaction of the note whose line it is, without its line feed, or None where it is
/// no note's. The error is want of memory. Costs a pass over the line, and the memory of the key, and
/// that of its digits while it is read.
pub(crate) fn read_note(alloc: Global, line: &[u8]) -> Result<Option<(Vec<u8>, TxnId)>, AllocError>
    ensures note { IfOk result (λ found. MatchOption found
        ((n : KeyNote) → IsNote n → note_line n ≢ line.now ++ 10 ∷ [])
        (λ found. IsNote (note_of found.0.items found.1)
        × (line.now ++ 10 ∷ [] ≡ note_line (note_of found.0.items found.1)))) }
{
    let Some((epoch, number, digits)) = split_note(line) else {
        return Ok(None);
    };
    let Some(txn) = txn_of(epoch, number) else {
        return Ok(None);
    };
    match decode_key(alloc, digits)? {
        Some(key) => Ok(Some((key, txn))),
        None => Ok(None),
    }
}
