//! What a work reads and writes.

ghost use Rattle.std.specs.Prelude.{◌≡◌, ◌≢◌, ℕ, List, IfOk, IfErr, OnOk};
ghost use Rattle.site_workers.specs.Scripts.{scripts_of, ScriptsFit};
ghost use Rattle.script_input.specs.Faults.{CountsReads, CountsWrites};
ghost use Rattle.script_input.specs.Streams.{HasFailed, GaveNothing, HasRefused};
ghost use Rattle.escrow_work.specs.Scripts.{HasScripts};
ghost use Rattle.escrow_work.specs.Work.{work_text, MakesNone, IsWorkOf, WritesWork, Fails, Tells, FaultsIn};

use crate::judged::{LegalText, judged_and_spelled};
use crate::reading::read_scripts;
use crate::scripts::Scripts;
use crate::woven::work_woven;
use script_input::{ScriptFault, Sink, Source, write_out};
use site_desk::FreeGate;
use std::alloc::Global;
use std::sync::Wait;
use std::thread::Threads;

// The text of what workers make of the scripts.
fn made(
    rt: &(impl Threads + Wait + Sync),
    alloc: Global,
    scripts: Scripts,
) -> Result<LegalText, ScriptFault>
    requires fit { ScriptsFit scripts.schema (scripts_of scripts.rows.items) }
    ensures ok { IfOk result (λ text. (lines : List (List ℕ)) →
        HasScripts scripts.schema scripts.header.items (scripts_of scripts.rows.items) lines →
        IsWorkOf lines text) }
    ensures fault { IfErr result (MakesNone scripts.schema (scripts_of scripts.rows.items)) }
{
    let Scripts {
        schema,
        header,
        rows,
    } = scripts;
    let _sites = schema.sites();
    let entries = work_woven(rt, alloc, &schema, rows, &FreeGate)?;
    judged_and_spelled(rt, alloc, &schema, header, entries.as_slice())
}

// Reads the input, and tells the text of its work.
fn answer<R: Source>(
    rt: &(impl Threads + Wait + Sync),
    alloc: Global,
    reader: &mut R,
) -> Result<LegalText, ScriptFault>
    ensures ok { IfOk result (λ text.
        Tells (R.bytes reader.old) (R.bytes reader.new) (R.last reader.new) text) }
    ensures fault { IfErr result
        (FaultsIn (R.bytes reader.old) (R.bytes reader.new) (R.last reader.new)) }
    ensures read { IfErr result (λ fault. fault ≡ ScriptFault.Read
        → HasFailed (R.last reader.new)) }
    ensures reads { CountsReads result (R.failures reader.old) (R.failures reader.new) }
    ensures not_written { IfErr result (λ fault. fault ≢ ScriptFault.Write) }
{
    let scripts = read_scripts(alloc, reader)?;
    made(rt, alloc, scripts)
}

/// Sets all sites to work on their scripts at the same time, each in threads of its own, and takes
/// what one states to the other. Writes the header line as it was read, and one trace of all that
/// the sites did, woven of their histories.
///
/// Line 1 is a header. Every other line is a command at a site of the schema, `SITE COMMAND`,
/// other than an accept and without a luck: site s's script is its lines in their order. A line
/// ends with LF; a last line without LF counts where it has at least one byte.
///
/// What is written at Ok is the header line and a line for each entry, `COMMAND -> REPLY`. The
/// trace is woven of histories, one for each site, each a run of owed replies on the site's fresh
/// base, whose commands without its accepts are its script. It is judged legal, and so is a run of
/// one central store. Which of such traces comes is the threads' doing.
///
/// The faults are those of the input, line by line: `Header` and `NoMemory`; `TooLong` where a
/// byte follows the 1,000,000th line or the 268,435,456th byte; `Read` where a read answers an
/// error of any kind, which isn't tried again; `BadLine` at the first line that is no such
/// command, as any line of more than 256 bytes, behind which nothing is read. Then those of the
/// work: `Work` where the workers come to a fault, which says of scripts that the input holds what
/// `run_workers` says of it, `Stuck` where no trace weaves their histories; `Illegal` never comes.
/// At each of them nothing is written. At `NoMemory` each line that ends in front of the last 65,536
/// bytes that were read is such a command. `Write` comes where a write answers an error of any kind
/// or takes no byte; then a front of such a text was written.
///
/// Reader and writer tell the contract how their calls end, and how many failed; `Watched::new`
/// makes such ones of std's. No call is made again after one that failed.
///
/// Costs 128 KiB for input, two threads and an inbox of 1,024 letters for each site, behind these one
/// thread for the judge where there are 2,000 entries or more, memory for the scripts, for the
/// histories and their receipts, for the text and for the judge beside it, and time in proportion to
/// the input.
///
/// Source: O'Neil 1986 for escrows and the central store, Balegas and others 2015 for sites that
/// act alone on rights that they hold, this project for workers and weaving.
pub fn work_text<R: Source, W: Sink>(
    rt: &(impl Threads + Wait + Sync),
    alloc: Global,
    reader: &mut R,
    writer: &mut W,
) -> Result<(), ScriptFault>
    // The work of what was read is written, up to the input's end, and within the limits.
    ensures ok { OnOk result (WritesWork
        (R.bytes reader.old) (R.bytes reader.new)
        (W.bytes writer.old) (W.bytes writer.new) (R.last reader.new)) }

    // It ends well only after a read that had room and gave nothing.
    ensures end { OnOk result (GaveNothing (R.last reader.new)) }

    // A fault comes for a reason, and nothing but a front of such a text is written.
    ensures fault { IfErr result (Fails
        (R.bytes reader.old) (R.bytes reader.new)
        (W.bytes writer.old) (W.bytes writer.new) (R.last reader.new)) }

    // A read fault comes only where a read failed.
    ensures read { IfErr result (λ fault. fault ≡ ScriptFault.Read
        → HasFailed (R.last reader.new)) }

    // A write fault comes only where a write failed, or took none of its bytes.
    ensures write { IfErr result (λ fault. fault ≡ ScriptFault.Write
        → HasRefused (W.last writer.new)) }

    // One read failed in this call at a read fault, and else none.
    ensures reads { CountsReads result (R.failures reader.old) (R.failures reader.new) }

    // One write was refused in this call at a write fault, and else none.
    ensures writes { CountsWrites result (W.refusals writer.old) (W.refusals writer.new) }
{
    let text = answer(rt, alloc, reader)?;
    write_out(writer, text.bytes())
}
