//! Keys of callers.

ghost use Rattle.std.specs.Prelude.{◌≡◌, ◌↔◌, IsTrue, MatchOption};
ghost use Rattle.caller_keys.specs.Keys.{is_key_byte, IsKey};

// The greatest number of bytes of a key.
const MAX_KEY: usize = 64;

/// A key of a caller: 1 to 64 bytes of `A-Z`, `a-z`, `0-9`, `.`, `_` and `-`.
#[derive(Clone, Copy)]
pub struct Key<'a> {
    /// The bytes of the key.
    pub bytes: &'a [u8],
    pub ghost is_key: { IsKey bytes.now },
}

#[tactic(auto, unfolding(crate::specs::Keys::is_key_byte))]
fn is_key_byte(byte: u8) -> bool
    ensures { result ≡ is_key_byte byte }
{
    matches!(byte, b'A'..=b'Z' | b'a'..=b'z' | b'0'..=b'9' | b'.' | b'_' | b'-')
}

/// Whether the bytes are a key. Costs a pass over them.
pub(crate) fn is_key(word: &[u8]) -> bool
    ensures decides { IsTrue result ↔ IsKey word.now }
{
    !word.is_empty() && word.len() <= MAX_KEY && word.iter().all(|byte| is_key_byte(*byte))
}

/// The key that the word is, or None where it is no key. Costs a pass over the word, and no memory.
pub fn read_key(word: &[u8]) -> Option<Key<'_>>
    ensures key { MatchOption result (IsKey word.now → ⊥) (λ key. key.bytes.now ≡ word.now) }
    ensures is_key { MatchOption result (IsKey word.now → ⊥) (λ _. IsKey word.now) }
{
    if !is_key(word) {
        return None;
    }
    Some(Key { bytes: word })
}
