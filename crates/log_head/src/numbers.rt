//! Lines of numbers, read.

ghost use Rattle.std.specs.Prelude.{◌≡◌, ◌≢◌, ◌<◌, ◌^◌, ◌++◌, ◌∷◌, ℕ, List, All, IfOk, IfSome, IfNone, MatchOption};
ghost use Rattle.site_folder.specs.Identity.{IsOneLine};
ghost use Rattle.log_head.specs.Heads.{IsU64, numbers_text};
ghost use Rattle.log_head.specs.Reading.{TellsNumbers, TellsNoNumbers};

use line_words::{Words, split_line};
use std::alloc::{AllocError, Global};

/// What stands behind a word at the front of the bytes, or None where it doesn't stand there.
pub(crate) fn behind<'a>(bytes: &'a [u8], word: &[u8]) -> Option<&'a [u8]>
    ensures rest { MatchOption result ((rest : List ℕ) → bytes.now ≢ word.now ++ rest)
        (λ rest. bytes.now ≡ word.now ++ rest.now) }
{
    bytes.strip_prefix(word)
}

// The numbers that a line spells, with one space between them, or None where it spells no such ones.
fn read_numbers(alloc: Global, line: &[u8]) -> Result<Option<Vec<u64>>, AllocError>
    ensures some { IfOk result (λ told. IfSome told (λ numbers. line.now ≡ numbers_text numbers.items)) }
    ensures fit { IfOk result (λ told. IfSome told (λ numbers. All IsU64 numbers.items)) }
    ensures none { IfOk result (λ told. IfNone told ((n : ℕ) (ns : List ℕ) → All IsU64 (n ∷ ns)
        → line.now ≢ numbers_text (n ∷ ns))) }
{
    let mut words = Words::new(line);
    let mut numbers = Vec::new(alloc);
    while !words.is_empty() {
        let Some(number) = words.next_number() else {
            return Ok(None);
        };
        numbers.push(number)?;
    }
    Ok(Some(numbers))
}

/// The numbers that the first line spells behind a word, with one space between them, and what stands
/// behind the line. None where it is no such line.
pub(crate) fn split_numbers<'a>(
    alloc: Global,
    bytes: &'a [u8],
    word: &[u8],
) -> Result<Option<(Vec<u64>, &'a [u8])>, AllocError>
    requires line { IsOneLine word.now }
    ensures some { IfOk result (λ told. IfSome told (λ parts.
        TellsNumbers bytes.now word.now parts.0.items parts.1.now)) }
    ensures none { IfOk result (λ told. IfNone told (TellsNoNumbers bytes.now word.now)) }
{
    let Some((line, rest)) = split_line(bytes) else {
        return Ok(None);
    };
    let Some(line) = behind(line, word) else {
        return Ok(None);
    };
    match read_numbers(alloc, line)? {
        Some(numbers) => Ok(Some((numbers, rest))),
        None => Ok(None),
    }
}

/// The same numbers, where each has at most 32 bits.
#[tactic(auto, using(crate::proofs::NumberLines::too_large))]
pub(crate) fn narrowed(alloc: Global, numbers: &[u64]) -> Result<Option<Vec<u32>>, AllocError>
    ensures some { IfOk result (λ told. IfSome told (λ narrow. narrow.items ≡ numbers.now)) }
    ensures none { IfOk result (λ told. IfNone told (All (λ n. n < 2 ^ 32) numbers.now → ⊥)) }
{
    let mut narrow = Vec::new(alloc);
    for number in numbers {
        let Ok(number) = u32::try_from(*number) else {
            return Ok(None);
        };
        narrow.push(number)?;
    }
    Ok(Some(narrow))
}
