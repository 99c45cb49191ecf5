//! The entries of a trace as text.

ghost use Rattle.std.specs.Prelude.{◌≡◌, IfOk, IfErr};
ghost use Rattle.escrow_c.specs.Texts.{lines_text, TellsBadLine};

use entry_text::read_entry;
use field_bounds::{Entry, Schema};
use line_words::split_line;
use std::alloc::Global;

/// Why a text isn't read as entries.
#[derive(Clone, Copy, Debug)]
pub(crate) enum EntriesFault {
    /// Memory is wanting.
    NoMemory,
    /// This line, counted from 1, is the first that is no entry.
    BadEntry(u64),
}

/// The entries of which a text is the lines.
pub(crate) fn entries_of(
    alloc: Global,
    schema: &Schema,
    text: &[u8],
) -> Result<Vec<Entry>, EntriesFault>
    ensures ok { IfOk result (λ entries. text.now ≡ lines_text schema.now entries.items) }
    ensures err { IfErr result (TellsBadLine schema.now text.now) }
{
    let mut entries = Vec::new(alloc);
    let mut rest = text;
    'lines: while let Some((line, behind)) = split_line(rest) {
        let Some(entry) = read_entry(schema, line) else {
            return Err(EntriesFault::BadEntry(entries.len() as u64 + 1));
        };
        if entries.push(entry).is_err() {
            return Err(EntriesFault::NoMemory);
        }
        rest = behind;
    }
    if rest.is_empty() {
        Ok(entries)
    } else {
        Err(EntriesFault::BadEntry(entries.len() as u64 + 1))
    }
}
