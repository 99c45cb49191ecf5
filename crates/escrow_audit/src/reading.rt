//! The reading of an input, line by line.

ghost use Rattle.std.specs.Prelude.{◌≡◌, ◌≢◌, IfOk, IfErr, OnOk, OnErr, true, false};
ghost use Rattle.script_input.specs.Streams.{HasFailed};
ghost use Rattle.script_input.specs.Faults.{CountsReads};
ghost use Rattle.escrow_audit.specs.Reading.{TakesIn, FindsIn, FaultsIn, WantsAt};
ghost use Rattle.escrow_audit.specs.Audit.{IsBadEntry};

use crate::remark::is_remark;
use crate::taking::TakesEntries;
use entry_text::{MAX_LINE, read_entry};
use field_bounds::Schema;
use script_input::{LineReader, NextLine, ScriptFault, Source};
use std::alloc::{AllocError, Global};

/// What an input has: the schema of its header, and what has taken in the entries of its lines; or a
/// line, counted from 1 with the header, that is neither an entry nor a remark.
#[derive(Drop)]
pub(crate) enum ReadInput<E> {
    Entries(Schema, E),
    BadEntry(u64),
}

// Takes in a line behind the header, and tells whether it is an entry or a remark.
#[inline(always)]
fn note<E: TakesEntries>(
    alloc: Global,
    taken: &mut E,
    schema: &Schema,
    line: &[u8],
) -> Result<bool, AllocError>
    ensures good { IfOk result (λ good. good ≡ true
        → TakesIn E.has_taken schema.now line.now taken.old taken.new) }
    ensures bad { IfOk result (λ good. good ≡ false → IsBadEntry schema.now line.now) }
    ensures told { OnErr result (E.keeps ≡ true) }
{
    if line.len() > MAX_LINE {
        return Ok(false);
    }
    if let Some(entry) = read_entry(schema, line) {
        taken.take_in(alloc, schema, &entry)?;
        return Ok(true);
    }
    Ok(is_remark(schema, line))
}

/// Reads the whole input, up to a line that is neither an entry nor a remark. Its entries are taken
/// in as they are read.
pub(crate) fn read_entries<R: Source, E: TakesEntries>(
    alloc: Global,
    reader: &mut R,
) -> Result<ReadInput<E>, ScriptFault>
    ensures ok { IfOk result (FindsIn E.has_taken (R.bytes reader.old) (R.bytes reader.new)
        (R.last reader.new)) }
    ensures fault { IfErr result (FaultsIn (R.bytes reader.old) (R.bytes reader.new)
        (R.last reader.new)) }
    ensures failed { IfErr result (λ fault. fault ≡ ScriptFault.Read
        → HasFailed (R.last reader.new)) }
    ensures reads { CountsReads result (R.failures reader.old) (R.failures reader.new) }
    ensures other { IfErr result (λ fault. fault ≢ ScriptFault.Write) }

    // The lines in front of the last piece that was read are good.
    ensures no_further { OnOk result (WantsAt true (R.bytes reader.old) (R.bytes reader.new)) }

    // Where no entry is kept, want of memory comes for the header alone.
    ensures memory { IfErr result (λ fault. fault ≡ ScriptFault.NoMemory
        → WantsAt E.keeps (R.bytes reader.old) (R.bytes reader.new)) }
{
    let mut lines = LineReader::new(alloc)?;
    let schema = lines.header(alloc, reader)?;
    let mut taken = E::before_all(alloc, &schema);
    'lines: loop {
        match lines.next(reader, MAX_LINE)? {
            NextLine::Line => {
                if !note(alloc, &mut taken, &schema, lines.line())? {
                    return Ok(ReadInput::BadEntry(u64::from(lines.lines())));
                }
            }
            NextLine::Long => return Ok(ReadInput::BadEntry(u64::from(lines.lines()) + 1)),
            NextLine::Passed => unreachable!(),
            NextLine::End => return Ok(ReadInput::Entries(schema, taken)),
        }
    }
}
