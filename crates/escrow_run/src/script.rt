//! The loop of a script: lines in, each answered by a world, pieces of output out.

ghost use Rattle.std.specs.Prelude.{◌≡◌, ◌≢◌, ℕ, Option, List, ◌<◌, [], true, length, OnOk, OnErr, IfOk, IfErr};
ghost use Rattle.escrow_run.specs.Run.{Answers, Fails};
ghost use Rattle.script_input.specs.Faults.{CountsReads, CountsWrites};
ghost use Rattle.script_input.specs.Streams.{HasFailed, GaveNothing, HasRefused};

use crate::machine::{Machine, add_line};
use entry_text::MAX_LINE;
use script_input::{LineReader, NextLine, PIECE, ScriptFault, Sink, Source, write_out};
use std::alloc::Global;

// The reader of lines, the world, and what is to be written.
#[derive(Drop)]
struct Script {
    alloc: Global,
    lines: LineReader,
    machine: Machine,
    out: Vec<u8>,
}

impl Script {
    ghost use Rattle.std.specs.Io.KnownBytes.{Appends};
    ghost use Rattle.script_input.specs.Streams.{AppendsPrefix};
    ghost use Rattle.script_input.specs.Reader.{StopsAt, ahead_of};
    ghost use Rattle.escrow_run.specs.Run.{Runs, RunsOn, RunsThrough, StopsAfter, HasWritten};

    // Reads the header line, which is to be written.
    fn start<R: Source>(alloc: Global, reader: &mut R) -> Result<Script, ScriptFault>
        ensures ok { IfOk result (λ script. (before : Option (List ℕ))
            → Runs (R.bytes reader.old) (R.bytes reader.new) before before (R.last reader.new)
            script) }
        ensures err { IfErr result (StopsAt (R.bytes reader.old) (R.bytes reader.new)
            (R.last reader.new) []) }
        ensures failed { IfErr result (λ fault. fault ≡ ScriptFault.Read
            → HasFailed (R.last reader.new)) }
        ensures reads { CountsReads result (R.failures reader.old) (R.failures reader.new) }
        ensures other { IfErr result (λ fault. fault ≢ ScriptFault.Write) }
    {
        let mut lines = LineReader::new(alloc)?;
        let schema = lines.header(alloc, reader)?;
        let machine = Machine::new(alloc, schema)?;
        let mut out = Vec::new(alloc);
        add_line(&mut out, lines.line())?;
        Ok(Script {
            alloc,
            lines,
            machine,
            out,
        })
    }

    // Writes what is to be written.
    fn write_out<W: Sink>(&mut self, writer: &mut W) -> Result<(), ScriptFault>
        ensures ok { OnOk result (HasWritten self.old self.new
            × Appends (W.bytes writer.old) (W.bytes writer.new) self.old.out.items) }
        ensures front { OnErr result (AppendsPrefix
            (W.bytes writer.old) (W.bytes writer.new) self.old.out.items) }
        ensures fault { IfErr result (λ fault. fault ≡ ScriptFault.Write) }
        ensures some { OnErr result (0 < length self.old.out.items) }
        ensures refused { OnErr result (HasRefused (W.last writer.new)) }
        ensures writes { CountsWrites result (W.refusals writer.old) (W.refusals writer.new) }
    {
        write_out(writer, self.out.as_slice())?;
        self.out.clear();
        Ok(())
    }

    // Answers the next line, or writes what is to be written and reads more, and tells whether
    // there may be more.
    #[inline(always)]
    fn take_next<R: Source, W: Sink>(
        &mut self,
        reader: &mut R,
        writer: &mut W,
    ) -> Result<bool, ScriptFault>
        ensures ok { (from before : Option (List ℕ))
            → Runs from (R.bytes reader.old) before (W.bytes writer.old) (R.last reader.old) self.old
            → IfOk result (RunsOn from (R.bytes reader.new) before (W.bytes writer.new)
            (R.last reader.new) self.new) }
        ensures err { (from before : Option (List ℕ))
            → Runs from (R.bytes reader.old) before (W.bytes writer.old) (R.last reader.old) self.old
            → IfErr result (StopsAfter from (R.bytes reader.new) before (W.bytes writer.new)
            (R.last reader.new) self.new.out.items) }
        ensures refused { IfErr result (λ fault. fault ≡ ScriptFault.Write
            → HasRefused (W.last writer.new)) }
        ensures failed { IfErr result (λ fault. fault ≡ ScriptFault.Read
            → HasFailed (R.last reader.new)) }
        ensures reads { CountsReads result (R.failures reader.old) (R.failures reader.new) }
        ensures writes { CountsWrites result (W.refusals writer.old) (W.refusals writer.new) }
        ensures empty { IfErr result (λ fault. fault ≡ ScriptFault.Read → self.new.out.items ≡ []) }
        ensures ahead { IfOk result (λ more. more ≡ true
            → ahead_of self.new.lines < ahead_of self.old.lines) }
    {
        match self.lines.find(MAX_LINE)? {
            Some(NextLine::Line) => {
                self.machine
                    .answer(self.alloc, self.lines.line(), &mut self.out)?;
            }
            Some(NextLine::Long) => {}
            Some(NextLine::Passed) => add_line(&mut self.out, b"bad line")?,
            Some(NextLine::End) => return Ok(false),
            None => {
                self.write_out(writer)?;
                self.lines.read(reader)?;
            }
        }
        Ok(true)
    }

    // Answers all lines behind the header. Some of the output may stay in the buffer.
    fn answer_all<R: Source, W: Sink>(
        &mut self,
        reader: &mut R,
        writer: &mut W,
    ) -> Result<(), ScriptFault>
        ensures ok { (from before : Option (List ℕ))
            → Runs from (R.bytes reader.old) before (W.bytes writer.old) (R.last reader.old) self.old
            → OnOk result (RunsThrough from (R.bytes reader.new) before (W.bytes writer.new)
            (R.last reader.new) self.new) }
        ensures err { (from before : Option (List ℕ))
            → Runs from (R.bytes reader.old) before (W.bytes writer.old) (R.last reader.old) self.old
            → IfErr result (StopsAfter from (R.bytes reader.new) before (W.bytes writer.new)
            (R.last reader.new) self.new.out.items) }
        ensures refused { IfErr result (λ fault. fault ≡ ScriptFault.Write
            → HasRefused (W.last writer.new)) }
        ensures failed { IfErr result (λ fault. fault ≡ ScriptFault.Read
            → HasFailed (R.last reader.new)) }
        ensures reads { CountsReads result (R.failures reader.old) (R.failures reader.new) }
        ensures writes { CountsWrites result (W.refusals writer.old) (W.refusals writer.new) }
        ensures empty { IfErr result (λ fault. fault ≡ ScriptFault.Read → self.new.out.items ≡ []) }
    {
        'lines: while self.take_next(reader, writer)? {
            if self.out.len() >= PIECE {
                self.write_out(writer)?;
            }
        }
        Ok(())
    }
}

/// Runs a script: a header line, and then the lines of steps, each answered by a line, or by more
/// where a field is levelled or a value is reached.
///
/// Line 1 is a header, and is written as it was read. Every other line asks a step of a world of
/// the header's sites: a command, answered by `COMMAND -> REPLY` at the site that it names, or
/// `deliver K`, by which the statement of that number, counted from 1 as they were issued, is taken
/// in by the site that it is for, answered by that site's entry, or by `deliver K -> refused 16 no
/// statement`. Such a line may end in ` torn N`: then the append of its step keeps the first N
/// bytes. `level FIELD KIND` evens out the free rights of a field of the schema among the sites
/// that are up: it is answered by ` -> moves M` behind the line, and then by the entries of M
/// gifts, those of the even plan of the sites' shares, one after another. `reach SITE FIELD TARGET`
/// takes the M steps at the other sites after which the committed value of the field is the target,
/// as `reaching_steps::reach` answers them: it is answered by ` -> steps M` behind the line, and
/// then by their entries; or, where a fault holds, by ` -> no REASON`, and nothing changes: REASON
/// is `down`, `flight`, `unstated`, `tightened`, `numbers` or `outside`. Any other line is answered
/// by `bad line` and changes nothing. A line ends with LF; a last line without LF counts where it
/// has at least one byte.
///
/// So what is written at Ok is the text of the one trace that the steps make, and that trace is a
/// run of one central escrow store, with all that `World::trace` says of it: rights are conserved,
/// and however the open transactions end, the value of every field lies within its bounds.
///
/// The faults are those of the input, line by line: `Header` and `NoMemory`; `TooLong` where a byte
/// follows the 1,000,000th line or the 268,435,456th byte; `Read` where a read answers an error of
/// any kind, which isn't tried again. At each of them the text of the whole lines before it was
/// written, and at `Header` nothing. `NoMemory` comes before more is read than the line that met it
/// needs: so each line that ends in front of the last 65,536 bytes that were read was answered.
/// `Write` comes where a write answers an error of any kind or takes no byte; then a front of the
/// text was written. The others, which are a work's alone, never come.
///
/// Reader and writer tell the contract how their calls end, and how many failed; `Watched::new`
/// makes such ones of std's. No call is made again after one that failed.
///
/// Output is written before each read, once 64 KiB of it have gathered behind a line, and at the
/// end. Costs 128 KiB for input and somewhat more than 64 KiB for output, and memory for the world,
/// which keeps each entry in its trace. A line that reaches for a value costs what `reach_in` does,
/// so a look at all entries so far, once more for each site that moves the field, and memory for
/// what is open and what was given.
///
/// Source: O'Neil 1986 for the central store, Balegas and others 2015 for rights that are divided
/// among sites and given, this project for the script.
pub fn run_script<R: Source, W: Sink>(
    alloc: Global,
    reader: &mut R,
    writer: &mut W,
) -> Result<(), ScriptFault>
    // All the input is read, it is within the limits, and its text is written.
    ensures ok { OnOk result (Answers (R.bytes reader.old) (R.bytes reader.new)
        (W.bytes writer.old) (W.bytes writer.new)) }

    // That is so only after a read that had room and gave nothing.
    ensures end { OnOk result (GaveNothing (R.last reader.new)) }

    // A fault comes for a reason, and the text of the whole lines before it is written: at want of
    // memory of all lines but those that end in the last 65,536 bytes that were read, at most.
    ensures fault { IfErr result (Fails (R.bytes reader.old) (R.bytes reader.new)
        (W.bytes writer.old) (W.bytes writer.new) (R.last reader.new)) }

    // A read fault comes only where a read failed.
    ensures read { IfErr result (λ fault. fault ≡ ScriptFault.Read
        → HasFailed (R.last reader.new)) }

    // A write fault comes only where a write failed, or took none of its bytes.
    ensures write { IfErr result (λ fault. fault ≡ ScriptFault.Write
        → HasRefused (W.last writer.new)) }

    // One read failed in this call at a read fault, and else none.
    ensures reads { CountsReads result (R.failures reader.old) (R.failures reader.new) }

    // One write was refused in this call at a write fault, and else none.
    ensures writes { CountsWrites result (W.refusals writer.old) (W.refusals writer.new) }
{
    let mut script = Script::start(alloc, reader)?;
    let Err(fault) = script.answer_all(reader, writer) else {
        return script.write_out(writer);
    };
    if let ScriptFault::Write = fault {
        return Err(fault);
    }
    script.write_out(writer)?;
    Err(fault)
}
