//! The reading of an input, line by line.

ghost use Rattle.std.specs.Prelude.{◌≡◌, ◌≢◌, IfOk, IfErr, OnOk};
ghost use Rattle.script_input.specs.Streams.{HasFailed};
ghost use Rattle.script_input.specs.Faults.{CountsReads};
ghost use Rattle.escrow_work.specs.Reading.{ReadsThrough, WantsAt};
ghost use Rattle.escrow_work.specs.Work.{FaultsIn};

use crate::scripts::Scripts;
use entry_text::MAX_LINE;
use script_input::{LineReader, NextLine, ScriptFault, Source};
use std::alloc::Global;

/// Reads the whole input, up to a line that is no plain command.
pub(crate) fn read_scripts<R: Source>(alloc: Global, reader: &mut R) -> Result<Scripts, ScriptFault>
    ensures ok { IfOk result (ReadsThrough (R.bytes reader.old) (R.bytes reader.new)
        (R.last reader.new)) }
    ensures fault { IfErr result (FaultsIn (R.bytes reader.old) (R.bytes reader.new)
        (R.last reader.new)) }

    // The lines in front of the last piece that was read are good.
    ensures no_further { OnOk result (WantsAt (R.bytes reader.old) (R.bytes reader.new)) }
    ensures failed { IfErr result (λ fault. fault ≡ ScriptFault.Read
        → HasFailed (R.last reader.new)) }
    ensures reads { CountsReads result (R.failures reader.old) (R.failures reader.new) }
    ensures other { IfErr result (λ fault. fault ≢ ScriptFault.Write) }
{
    let mut lines = LineReader::new(alloc)?;
    let schema = lines.header(alloc, reader)?;
    let mut scripts = Scripts::start(alloc, schema, lines.line())?;
    'lines: loop {
        match lines.next(reader, MAX_LINE)? {
            NextLine::Line => {
                if !scripts.take_in(lines.line())? {
                    return Err(ScriptFault::BadLine(u64::from(lines.lines())));
                }
            }
            NextLine::Long => return Err(ScriptFault::BadLine(u64::from(lines.lines()) + 1)),
            NextLine::Passed => unreachable!(),
            NextLine::End => return Ok(scripts),
        }
    }
}
