//! A look-up of a name by bytes that may be no text.

ghost use Rattle.std.specs.Hash as fed;
ghost use Rattle.std.specs.Str.{bytes_eq};
ghost use Rattle.std.specs.String.{string_bytes};
ghost use Rattle.std.specs.Cmp.Lexicographic.{bytes_decides, nat_list_eq_equiv};
ghost use Rattle.std.proofs.Common.{ap, rules};

use indexmap::Equivalent;
use std::hash::{Hash, Hasher};

/// Bytes that ask for the name that they spell, be they text or not.
#[derive(Clone, Copy, PartialEq, Eq)]
pub(crate) struct Spelling<'b> {
    pub bytes: &'b [u8],
}

/// As the text of these bytes is hashed.
impl<'b> Hash for Spelling<'b> {
    ghost hash_input = { λ s. fed.str s.bytes.now };

    ghost respects_eq = { Prim.search rules };

    fn hash<H: Hasher>(&self, state: &mut H) {
        state.write(self.bytes);
        state.write_u8(0xff);
    }
}

impl<'b> Equivalent<String> for Spelling<'b> {
    ghost equivalent = { λ q k. bytes_eq q.bytes.now (string_bytes k) };

    ghost respects_hash = { λ q k h. ap fed.str ((bytes_decides q.bytes.now (string_bytes k)).0 h) };

    ghost respects_eq = { λ q x y. nat_list_eq_equiv.congr q.bytes.now (string_bytes x) (string_bytes y) };

    fn equivalent(&self, key: &String) -> bool {
        self.bytes == key.as_bytes()
    }
}
