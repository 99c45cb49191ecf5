//! Numbers: decimal digits with no leading zero.

ghost use Rattle.std.specs.Prelude.{◌≡◌, ℕ, ◌<◌, ◌^◌, IfSome, Some, FitsSigned, ℤ, ◌≤◌, MatchBool, slice_index_or, length, position, ◌==◌};
ghost use Rattle.std.specs.Int.{w64};
ghost use Rattle.std.specs.Fmt.{decimal, signed_decimal};
ghost use Rattle.line_words.specs.Reading.{number_of, negative_of, positive_of, signed_of};
ghost use Rattle.line_words.specs.Fronts.{below_zero_of, from_zero_of, dotted_of};

use crate::front::number_in_front;

// The greatest i64.
const GREATEST: u64 = 9_223_372_036_854_775_807;

// The least i64 without its sign.
const LEAST: u64 = 9_223_372_036_854_775_808;

#[inline(always)]
fn has_leading_zero(word: &[u8]) -> bool
    ensures { MatchBool result ((slice_index_or word.now 0 0 ≡ 48) × (1 < length word.now))
        (slice_index_or word.now 0 0 ≡ 48 → length word.now ≤ 1) }
{
    word.len() > 1 && word[0] == b'0'
}

/// The number that the word spells, 0 to 18,446,744,073,709,551,615: decimal digits, none leading
/// that is 0, and `0` alone for zero. None where the word spells no number of that range. So each
/// number has one word. Costs a pass over the word, and no memory.
#[inline]
pub fn read_number(word: &[u8]) -> Option<u64>
    ensures value { result ≡ number_of (2 ^ 64) word.now }
    ensures found { IfSome result (λ n. word.now ≡ decimal n) }
    ensures only { (n : ℕ) → n < 2 ^ 64 → word.now ≡ decimal n → result ≡ Some n }
{
    if let Some((number, count)) = number_in_front(word) {
        if count == word.len() {
            return Some(number);
        }
    }
    read_tested(word)
}

// The same, each step tested for what is past u64.
fn read_tested(word: &[u8]) -> Option<u64>
    ensures { result ≡ number_of (2 ^ 64) word.now }
{
    if word.is_empty() || has_leading_zero(word) {
        return None;
    }
    let mut value: u64 = 0;
    for digit in word {
        if !digit.is_ascii_digit() {
            return None;
        }
        value = value
            .checked_mul(10)?
            .checked_add(u64::from(*digit - b'0'))?;
    }
    Some(value)
}

/// The number that is so far below 0.
#[inline]
pub(crate) fn below_zero(size: u64) -> Option<i64>
    ensures { result ≡ below_zero_of size }
{
    if size == 0 {
        return None;
    }
    if size > LEAST {
        return None;
    }
    Some(-1 - (size - 1) as i64)
}

/// The number of so many from 0 on.
#[inline]
pub(crate) fn from_zero(size: u64) -> Option<i64>
    ensures { result ≡ from_zero_of size }
{
    if size > GREATEST {
        return None;
    }
    Some(size as i64)
}

/// The number below 0 whose digits these are.
#[tactic(auto, unfolding(crate::specs::Reading::negative_of))]
fn negative(digits: &[u8]) -> Option<i64>
    ensures { result ≡ negative_of digits.now }
{
    below_zero(read_number(digits)?)
}

/// The number from 0 on that the word spells.
#[tactic(auto, unfolding(crate::specs::Reading::positive_of))]
fn positive(word: &[u8]) -> Option<i64>
    ensures { result ≡ positive_of word.now }
{
    from_zero(read_number(word)?)
}

/// The number with a sign that the word spells, -9,223,372,036,854,775,808 to
/// 9,223,372,036,854,775,807: a number, or `-` and a number other than 0. None where the word
/// spells no number of that range. Costs a pass over the word, and no memory.
#[inline]
pub fn read_signed(word: &[u8]) -> Option<i64>
    ensures value { result ≡ signed_of word.now }
    ensures found { IfSome result (λ z. word.now ≡ signed_decimal z) }
    ensures only { (z : ℤ) → FitsSigned w64 z → word.now ≡ signed_decimal z → result ≡ Some z }
{
    match word {
        [b'-', digits @ ..] => negative(digits),
        _ => positive(word),
    }
}

#[inline(always)]
fn place_of_dot(bytes: &[u8]) -> Option<usize>
    ensures { result ≡ position (λ b. b == 46) bytes.now }
{
    bytes.iter().position(|b| *b == b'.')
}

/// The two numbers that the word spells with a dot between them, each as of `read_number`. None
/// where the word is no such two. Costs a pass over the word, and no memory.
#[inline]
#[tactic(auto, unfolding(crate::specs::Fronts::dotted_of))]
pub fn read_dotted(word: &[u8]) -> Option<(u64, u64)>
    ensures value { result ≡ dotted_of word.now }
{
    let dot = place_of_dot(word)?;
    let first = read_number(&word[..dot])?;
    let second = read_number(&word[dot + 1..])?;
    Some((first, second))
}
