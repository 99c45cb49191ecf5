//! Texts of notes and records, split.

ghost use Rattle.std.specs.Prelude.{◌≢◌, ◌↔◌, ◌++◌, ◌∷◌, [], List, All, IfOk, OnOk, IsOk, IsTrue};
ghost use Rattle.caller_keys.specs.Keys.{IsKey, KeyNote, note_of, IsKeyed};
ghost use Rattle.caller_keys.specs.Tables.{Splits, Tells};
ghost use Rattle.caller_keys.specs.Reading.{IsOneLine, Takes};

use crate::key::Key;
use crate::reading::read_note;
use crate::table::KeyTable;
use field_bounds::TxnId;
use line_words::split_line;
use memchr::memchr;
use std::alloc::{AllocError, Global};

// Notes a key that was read.
fn note_read(keys: &mut KeyTable, key: &[u8], txn: TxnId) -> Result<(), AllocError>
    requires key { IsKey key.now }
    ensures noted { OnOk result ((notes : List KeyNote) → Tells keys.old notes
        → Tells keys.new (notes ++ note_of key.now txn ∷ [])) }
{
    keys.reserve()?;
    keys.note(Key { bytes: key }, txn);
    Ok(())
}

// Takes a line: notes it where it is a note's, and else puts it behind the records.
fn take_line(
    alloc: Global,
    keys: &mut KeyTable,
    records: &mut Vec<u8>,
    line: &[u8],
) -> Result<(), AllocError>
    requires line { IsOneLine line.now }
    ensures taken { OnOk result (Takes keys.old keys.new records.old.items records.new.items line.now) }
{
    match read_note(alloc, line)? {
        Some((key, txn)) => note_read(keys, key.as_slice(), txn),
        None => {
            records.extend_from_slice(line)?;
            records.push(b'\n')?;
            Ok(())
        }
    }
}

// The same as `split_notes`, whatever the text.
fn split_lines(alloc: Global, text: &[u8]) -> Result<(KeyTable, Vec<u8>), AllocError>
    ensures { IfOk result (λ parts. Splits text.now parts.0 parts.1.items) }
{
    let mut keys = KeyTable::new(alloc);
    let mut records = Vec::with_capacity(alloc, text.len())?;
    let mut left = text;
    while let Some((line, behind)) = split_line(left) {
        take_line(alloc, &mut keys, &mut records, line)?;
        left = behind;
    }
    records.extend_from_slice(left)?;
    Ok((keys, records))
}

// Whether no byte is a `K`.
fn is_clear(text: &[u8]) -> bool
    ensures clear { IsTrue result ↔ All (λ b. b ≢ 75) text.now }
{
    memchr(b'K', text).is_none()
}

/// Whether no byte is a `K`, with which each line of a note begins: then no line is a note's. Costs a pass
/// over the text, and no memory.
pub fn has_no_marks(text: &[u8]) -> bool
    ensures clear { IsTrue result ↔ All (λ b. b ≢ 75) text.now }
    ensures keyed { IsTrue result → IsKeyed text.now [] text.now }
{
    is_clear(text)
}

/// Splits a text: the table of the notes of its lines, and its records, which are its other lines one
/// behind another, and what stands behind the last line feed. Where no byte `K` is in the text it is
/// handed through as it is, and there is no error. The error is want of memory. Costs a pass over the
/// text, and where there is a `K` memory of its length, and of each key that is noted.
pub fn split_notes(alloc: Global, text: Vec<u8>) -> Result<(KeyTable, Vec<u8>), AllocError>
    ensures split { IfOk result (λ parts. Splits text.items parts.0 parts.1.items) }
    ensures clear { All (λ b. b ≢ 75) text.items → IsOk result }
{
    if has_no_marks(text.as_slice()) {
        return Ok((KeyTable::new(alloc), text));
    }
    split_lines(alloc, text.as_slice())
}
