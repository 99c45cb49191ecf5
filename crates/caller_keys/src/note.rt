//! Lines of notes, written.

ghost use Rattle.std.specs.Prelude.{◌≡◌, ◌++◌, ◌∷◌, [], OnOk, OnErr, IfOk};
ghost use Rattle.std.specs.Fmt.{decimal};
ghost use Rattle.hex.specs.Hex.{encode_upper};
ghost use Rattle.caller_keys.specs.Keys.{IsNote, note_of, note_line};

use crate::key::Key;
use field_bounds::TxnId;
use itoa::Buffer;
use std::alloc::{AllocError, Global};

// Adds a number, and a space behind it.
fn push_number(line: &mut Vec<u8>, number: u32) -> Result<(), AllocError>
    ensures { OnOk result (line.new.items ≡ line.old.items ++ decimal number ++ 32 ∷ []) }
{
    let mut buffer = Buffer::new();
    line.extend_from_slice(buffer.format(number).as_bytes())?;
    line.push(b' ')?;
    Ok(())
}

// The line of a note, its line feed included.
fn line_of(alloc: Global, key: Key<'_>, txn: TxnId) -> Result<Vec<u8>, AllocError>
    ensures { IfOk result (λ line. line.items ≡ note_line (note_of key.entry.bytes.now txn)) }
{
    let digits = hex::encode_upper(alloc, key.bytes)?;
    let mut line = Vec::new(alloc);
    line.extend_from_slice(b"K ")?;
    push_number(&mut line, txn.epoch)?;
    push_number(&mut line, txn.number)?;
    line.extend_from_slice(digits.as_bytes())?;
    line.push(b'\n')?;
    Ok(line)
}

/// Adds the line of a note behind what `out` holds, its line feed included. The error is want of memory;
/// nothing is added then. Costs the memory of the line, twice while it is written.
pub fn push_note(out: &mut Vec<u8>, key: Key<'_>, txn: TxnId) -> Result<(), AllocError>
    ensures ok { OnOk result (out.new.items
        ≡ out.old.items ++ note_line (note_of key.entry.bytes.now txn)) }
    ensures err { OnErr result (out.new.items ≡ out.old.items) }
    ensures is_note { IsNote (note_of key.entry.bytes.now txn) }
{
    let line = line_of(*out.allocator(), key, txn)?;
    out.extend_from_slice(line.as_slice())
}
