//! What the bytes of a line begin with, read before a word is cut.

ghost use Rattle.std.specs.Prelude.{◌≡◌, ◌≢◌, ◌<◌, ◌≤◌, ◌^◌, ◌∷◌, ◌++◌, take, drop, length, slice_index_or, ℕ, List, MatchBool, MatchOption, IfSome, false};
ghost use Rattle.std.specs.Str.Parse.{digits_value, AllDigits};
ghost use Rattle.line_words.specs.Reading.{number_of};
ghost use Rattle.line_words.specs.Words.{words, words_of};
ghost use Rattle.line_words.specs.Fronts.{IsSpaceFree};

// So many digits spell no number past u64, whatever they are.
const SAFE_DIGITS: usize = 19;

// So many digits are read by the short way.
const SHORT: usize = 8;

// The number of the digits that were read, so many of this value, and of those behind them up to
// the first byte that is no digit, 19 in all at most; and how many these are.
#[inline(always)]
fn more_digits(bytes: &[u8], so_far: u64, read: usize) -> (u64, usize)
    requires some { 0 < read }
    requires few { read ≤ 19 }
    requires within { read ≤ length bytes.now }
    requires first { slice_index_or bytes.now 0 0 ≢ 48 }
    requires digits { AllDigits 10 (take read bytes.now) }
    requires value { so_far ≡ digits_value 10 (take read bytes.now) }
    ensures within { result.1 ≤ length bytes.now }
    ensures value { number_of (2 ^ 64) (take result.1 bytes.now) ≡ Some result.0 }
    ensures no_space { IsSpaceFree (take result.1 bytes.now) }
{
    let end = bytes.len().min(SAFE_DIGITS);
    let mut value = so_far;
    for at in read..end {
        let digit = bytes[at];
        if !digit.is_ascii_digit() {
            return (value, at);
        }
        value = value * 10 + u64::from(digit - b'0');
    }
    (value, end)
}

// The number that the bytes begin with, and how many digits spell it, as of `number_in_front`.
#[inline(always)]
fn long_number(bytes: &[u8]) -> Option<(u64, usize)>
    ensures within { IfSome result (λ n. n.1 ≤ length bytes.now) }
    ensures value { IfSome result (λ n. number_of (2 ^ 64) (take n.1 bytes.now) ≡ Some n.0) }
    ensures no_space { IfSome result (λ n. IsSpaceFree (take n.1 bytes.now)) }
{
    if bytes.is_empty() || !bytes[0].is_ascii_digit() {
        return None;
    }
    if bytes[0] == b'0' {
        return Some((0, 1));
    }
    Some(more_digits(bytes, u64::from(bytes[0] - b'0'), 1))
}

// The same where so many bytes are there. Their end hasn't to be looked at behind each of the first
// digits, whose loop, of a fixed number of turns, is unrolled.
#[inline(always)]
fn short_number(bytes: &[u8]) -> Option<(u64, usize)>
    requires room { 8 ≤ length bytes.now }
    ensures within { IfSome result (λ n. n.1 ≤ length bytes.now) }
    ensures value { IfSome result (λ n. number_of (2 ^ 64) (take n.1 bytes.now) ≡ Some n.0) }
    ensures no_space { IfSome result (λ n. IsSpaceFree (take n.1 bytes.now)) }
{
    if !bytes[0].is_ascii_digit() {
        return None;
    }
    let mut value = u64::from(bytes[0] - b'0');
    if value == 0 {
        return Some((value, 1));
    }
    for at in 1..SHORT {
        let digit = bytes[at];
        if !digit.is_ascii_digit() {
            return Some((value, at));
        }
        value = value * 10 + u64::from(digit - b'0');
    }
    Some(more_digits(bytes, value, SHORT))
}

/// The number that the bytes begin with, and how many digits spell it, 19 at most. None where there
/// is no digit in front. Behind a 0 that is the first digit no more of them are read. Nothing here is
/// a call in the end: what was read stays in registers.
#[inline(always)]
pub(crate) fn number_in_front(bytes: &[u8]) -> Option<(u64, usize)>
    ensures within { IfSome result (λ n. n.1 ≤ length bytes.now) }
    ensures value { IfSome result (λ n. number_of (2 ^ 64) (take n.1 bytes.now) ≡ Some n.0) }
    ensures no_space { IfSome result (λ n. IsSpaceFree (take n.1 bytes.now)) }
{
    if bytes.len() < SHORT {
        long_number(bytes)
    } else {
        short_number(bytes)
    }
}

/// What is left of a line behind the first so many bytes of it. None where no word ends there.
#[inline(always)]
pub(crate) fn left_behind<'a>(bytes: &'a [u8], count: usize) -> Option<Option<&'a [u8]>>
    requires within { count ≤ length bytes.now }
    requires no_space { IsSpaceFree (take count bytes.now) }
    ensures { IfSome result (λ left. words bytes.now ≡ take count bytes.now ∷ words_of left) }
{
    if count == bytes.len() {
        return Some(None);
    }
    if bytes[count] == b' ' {
        return Some(Some(&bytes[count + 1..]));
    }
    None
}

// The text stands in front of the bytes. A loop, since it is unrolled where the text is a literal.
#[inline(always)]
pub(crate) fn begins_with(bytes: &[u8], text: &[u8]) -> bool
    ensures { MatchBool result (bytes.now ≡ text.now ++ drop (length text.now) bytes.now)
        ((rest : List ℕ) → bytes.now ≢ text.now ++ rest) }
{
    if bytes.len() < text.len() {
        return false;
    }
    for at in 0..text.len() {
        if bytes[at] != text[at] {
            return false;
        }
    }
    true
}

/// What is left of a line behind the text that it begins with. None where it begins with another,
/// or no word ends behind it.
#[inline(always)]
pub(crate) fn left_behind_text<'a>(bytes: &'a [u8], text: &str) -> Option<Option<&'a [u8]>>
    ensures { MatchOption result ((ws : List (List ℕ)) → words bytes.now ≢ words text.now ++ ws)
        (λ left. words bytes.now ≡ words text.now ++ words_of left) }
{
    if !begins_with(bytes, text.as_bytes()) {
        return None;
    }
    if bytes.len() == text.len() {
        return Some(None);
    }
    if bytes[text.len()] == b' ' {
        return Some(Some(&bytes[text.len() + 1..]));
    }
    None
}
