//! Lines, and words that are a text.

ghost use Rattle.std.specs.Prelude.{◌≡◌, ◌≢◌, ◌∷◌, ◌++◌, All, MatchOption, bytes_eq};

use memchr::memchr;

/// The bytes before the first line feed, and those after it, or None where there is no line feed. Costs
/// a pass over the line, and no memory.
pub fn split_line(bytes: &[u8]) -> Option<(&[u8], &[u8])>
    ensures parts { MatchOption result (All (λ b. b ≢ 10) bytes.now)
        (λ parts. All (λ b. b ≢ 10) parts.0.now × (bytes.now ≡ parts.0.now ++ 10 ∷ parts.1.now)) }
{
    let at = memchr(b'\n', bytes)?;
    Some((&bytes[..at], &bytes[at + 1..]))
}

/// Whether the word is this text. Costs a pass over them, and no memory.
#[inline(always)]
pub fn is_text(word: &[u8], text: &str) -> bool
    ensures { result ≡ bytes_eq word.now text.now }
{
    word == text.as_bytes()
}
