//! What a line is answered with that asks nothing.

ghost use Rattle.std.specs.Prelude.{◌≡◌, ◌++◌, length, take, OnOk, OnErr};
ghost use Rattle.request_lines.specs.BadLines.{bad_words, bad_text};

use itoa::Buffer;
use std::alloc::AllocError;

/// Why a line asks nothing of a site. Source: this project.
#[derive(Clone, Copy, Debug, PartialEq, Eq)]
pub enum BadLine {
    /// It has more than 256 bytes.
    TooLong,
    /// It is the text of a command of another site of the schema.
    OtherSite,
    /// Its second word, which is to name a command, names none.
    UnknownWord,
    /// The word that is to name a field names none of the schema.
    NoField,
    /// It is the text of no command under the schema, for another reason than these.
    NoCommand,
}

// The words that tell it.
fn words(why: BadLine) -> &'static [u8]
    ensures { result.now ≡ bad_words why }
{
    match why {
        BadLine::TooLong => b"too long",
        BadLine::OtherSite => b"other site",
        BadLine::UnknownWord => b"unknown word",
        BadLine::NoField => b"no such field",
        BadLine::NoCommand => b"no command",
    }
}

// Adds the answer to a line of this number. Where memory is refused a front of it may have been
// added.
fn push_bad(out: &mut Vec<u8>, number: u64, why: BadLine) -> Result<(), AllocError>
    ensures ok { OnOk result (out.new.items ≡ out.old.items ++ bad_text number why) }
    ensures err { OnErr result (take (length out.old.items) out.new.items ≡ out.old.items) }
{
    let mut buffer = Buffer::new();
    out.extend_from_slice(b"bad line ")?;
    out.extend_from_slice(buffer.format(number).as_bytes())?;
    out.extend_from_slice(b" ")?;
    out.extend_from_slice(words(why))?;
    out.extend_from_slice(b"\n")
}

/// Adds the answer to the line of this number, which asks nothing: up to 44 bytes, with an LF. Where
/// memory is refused (`AllocError`), nothing is added. Costs memory for those bytes, where the vector
/// has no room for them. Source: this project.
pub fn add_bad(out: &mut Vec<u8>, number: u64, why: BadLine) -> Result<(), AllocError>
    ensures ok { OnOk result (out.new.items ≡ out.old.items ++ bad_text number why) }
    ensures err { OnErr result (out.new.items ≡ out.old.items) }
{
    let kept = out.len();
    if push_bad(out, number, why).is_err() {
        out.truncate(kept);
        return Err(AllocError);
    }
    Ok(())
}
