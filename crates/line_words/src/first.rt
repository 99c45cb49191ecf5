//! What bytes begin with, and the bytes that follow it: for readers that look at each byte of a
//! line once, and cut no words.

ghost use Rattle.std.specs.Prelude.{◌≡◌, ◌≢◌, ◌∷◌, ◌++◌, ℕ, List, IfSome, MatchOption};
ghost use Rattle.std.specs.Fmt.{decimal, signed_decimal};

use crate::front::{begins_with, number_in_front};
use crate::number::{below_zero, from_zero};

/// What follows the text, where the bytes begin with it, and None where they don't. Costs a pass
/// over the text, and no memory.
#[inline(always)]
pub fn behind<'a>(bytes: &'a [u8], text: &str) -> Option<&'a [u8]>
    ensures cut { MatchOption result ((rest : List ℕ) → bytes.now ≢ text.now ++ rest)
        (λ rest. bytes.now ≡ text.now ++ rest.now) }
{
    if !begins_with(bytes, text.as_bytes()) {
        return None;
    }
    Some(&bytes[text.len()..])
}

/// A number that the bytes begin with, 0 to 9,999,999,999,999,999,999, and what follows it, which may
/// begin with a digit: at most 19 digits are read, and none behind a 0 in front. None tells nothing,
/// nor does where the number ends: who has to know reads the word (`read_number`). Costs a pass over
/// the digits, and no memory.
#[inline(always)]
pub fn first_number(bytes: &[u8]) -> Option<(u64, &[u8])>
    ensures cut { IfSome result (λ n. bytes.now ≡ decimal n.0 ++ n.1.now) }
{
    let (number, count) = number_in_front(bytes)?;
    Some((number, &bytes[count..]))
}

// The same of one digit.
#[inline(always)]
fn digit_and(bytes: &[u8], mark: u8) -> Option<(u64, &[u8])>
    ensures { IfSome result (λ n. bytes.now ≡ decimal n.0 ++ mark ∷ n.1.now) }
{
    match bytes {
        [digit, after, rest @ ..] if *after == mark && digit.is_ascii_digit() => {
            Some((u64::from(*digit - b'0'), rest))
        }
        _ => None,
    }
}

/// A number that the bytes begin with, as of `first_number`, and what follows the mark behind it.
/// None tells nothing. Costs a pass over the digits, and no memory.
#[inline(always)]
pub fn number_and(bytes: &[u8], mark: u8) -> Option<(u64, &[u8])>
    ensures cut { IfSome result (λ n. bytes.now ≡ decimal n.0 ++ mark ∷ n.1.now) }
{
    if let Some(found) = digit_and(bytes, mark) {
        return Some(found);
    }
    match first_number(bytes)? {
        (number, [after, rest @ ..]) if *after == mark => Some((number, rest)),
        _ => None,
    }
}

/// A number with a sign that the bytes begin with, -9,223,372,036,854,775,808 to
/// 9,223,372,036,854,775,807, and what follows it, as of `first_number`. None, as for `-0`, tells
/// nothing. Costs a pass over the digits, and no memory.
#[inline(always)]
pub fn first_signed(bytes: &[u8]) -> Option<(i64, &[u8])>
    ensures cut { IfSome result (λ z. bytes.now ≡ signed_decimal z.0 ++ z.1.now) }
{
    if let [b'-', digits @ ..] = bytes {
        let (size, rest) = first_number(digits)?;
        let number = below_zero(size)?;
        return Some((number, rest));
    }
    let (size, rest) = first_number(bytes)?;
    let number = from_zero(size)?;
    Some((number, rest))
}
