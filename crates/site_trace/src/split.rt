//! Bytes cut at their first byte of a kind.

ghost use Rattle.std.specs.Prelude.{◌≡◌, ◌≢◌, ◌++◌, ◌∷◌, All, MatchOption};

use memchr::memchr;

/// The bytes before the first of this kind, and those after it, or None where there is none.
pub(crate) fn split_at_first(bytes: &[u8], mark: u8) -> Option<(&[u8], &[u8])>
    ensures parts { MatchOption result (All (λ b. b ≢ mark) bytes.now)
        (λ parts. All (λ b. b ≢ mark) parts.0.now
        × (bytes.now ≡ parts.0.now ++ mark ∷ parts.1.now)) }
{
    let at = memchr(mark, bytes)?;
    Some((&bytes[..at], &bytes[at + 1..]))
}
