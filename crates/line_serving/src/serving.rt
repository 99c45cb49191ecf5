//! The serving of an input: what one read brings is a batch.

ghost use Rattle.std.specs.Prelude.{◌≡◌, ◌<◌, ◌≤◌, ◌⊎◌, ◌+◌, ◌++◌, ℕ, List, Option, [], true, false, length, take, IfOk, IfErr, OnOk, OnErr, vec_len};
ghost use Rattle.std.specs.Io.{ReadsAtMost};
ghost use Rattle.std.specs.Io.KnownBytes.{IsAtEnd, ReadConsumes};
ghost use Rattle.script_input.specs.Lines.{whole_lines_after, last_part_after};
ghost use Rattle.script_input.specs.Streams.{HasFailed, GaveNothing, HasRefused};
ghost use Rattle.site_service.specs.Service.{ServiceValue, IsSettled, KeepsLog, HasAnswered, HasAnsweredAll};
ghost use Rattle.site_service.specs.Traces.{TraceValue, trace_of};
ghost use Rattle.line_serving.specs.Serving.{IsKeptOf, Serves, ServesPart, ServesOn, Stops, StopsAtOnce};
ghost use Rattle.site_service.specs.Counting.{CountsReads, CountsWrites};

use entry_text::MAX_LINE;
use file_medium::LogFile;
use line_words::split_line;
use script_input::{PIECE, Sink, Source};
use site_service::{ServeFault, Service};
use std::alloc::{AllocError, Global};

// The first bytes.
fn front(bytes: &[u8], count: usize) -> &[u8]
    requires there { count ≤ length bytes.now }
    ensures bytes { result.now ≡ take count bytes.now }
{
    &bytes[..count]
}

// Adds a part of a line to what is kept of it: of one that is too long no more is kept than tells
// so.
fn keep(line: &mut Vec<u8>, bytes: &[u8]) -> Result<(), AllocError>
    ensures { (part : List ℕ) → IsKeptOf part line.old.items
        → OnOk result (IsKeptOf (part ++ bytes.now) line.new.items) }
{
    let room = (MAX_LINE + 1).saturating_sub(line.len());
    line.extend_from_slice(front(bytes, bytes.len().min(room)))
}

// Memory for what one read brings.
pub(crate) fn new_buffer(alloc: Global) -> Result<Vec<u8>, AllocError>
    ensures some { IfOk result (λ buffer. 0 < vec_len buffer) }
{
    vec![in alloc; 0u8; PIECE]
}

// Answers the line that a part of it ends, in front of which so much was kept; none is kept then.
// Where nothing was kept the part is the line, and is answered where it lies.
fn answer_end<F: LogFile>(
    alloc: Global,
    service: &mut Service<F>,
    line: &mut Vec<u8>,
    end: &[u8],
) -> Result<(), AllocError>
    ensures ok { (part : List ℕ) → IsKeptOf part line.old.items
        → OnOk result (HasAnswered (part ++ end.now) service.old service.new) }
    ensures none { OnOk result (line.new.items ≡ []) }
    ensures log { KeepsLog service.old service.new }
{
    if line.is_empty() {
        return service.answer(alloc, end);
    }
    keep(line, end)?;
    service.answer(alloc, line.as_slice())?;
    line.clear();
    Ok(())
}

// Answers the lines that a piece ends, and keeps what stands behind them.
fn answer_piece<F: LogFile>(
    alloc: Global,
    service: &mut Service<F>,
    line: &mut Vec<u8>,
    piece: &[u8],
) -> Result<(), AllocError>
    ensures ok { (part : List ℕ) → IsKeptOf part line.old.items
        → OnOk result (IsKeptOf (last_part_after part piece.now) line.new.items
        × HasAnsweredAll (whole_lines_after part piece.now) service.old service.new) }
    ensures log { KeepsLog service.old service.new }
{
    let mut rest = piece;
    'lines: while let Some((end, behind)) = split_line(rest) {
        answer_end(alloc, service, line, end)?;
        rest = behind;
    }
    keep(line, rest)
}

// Reads the next bytes, and tells how many: one read of the source, which isn't tried again.
fn read_piece<R: Source>(reader: &mut R, buffer: &mut [u8]) -> Result<usize, ServeFault>
    ensures bound { ReadsAtMost result buffer.new }
    ensures bytes { ReadConsumes (R.bytes reader.old) (R.bytes reader.new) result buffer.new }
    ensures nothing { IfOk result (λ n. n ≡ 0 → 0 < length buffer.new
        → GaveNothing (R.last reader.new)) }
    ensures fault { IfErr result (λ fault. fault ≡ ServeFault.Read) }
    ensures failed { OnErr result (HasFailed (R.last reader.new)) }
    ensures reads { CountsReads result (R.failures reader.old) (R.failures reader.new) }
{
    match reader.read(buffer) {
        Ok(count) => Ok(count),
        Err(_) => Err(ServeFault::Read),
    }
}

// One read, the answers to the lines that it ends, and their release: they are in the trace before.
// Tells whether there may be more.
pub(crate) fn take_batch<F: LogFile, T: LogFile, R: Source, W: Sink>(
    alloc: Global,
    service: &mut Service<F>,
    trace: &mut T,
    line: &mut Vec<u8>,
    buffer: &mut [u8],
    reader: &mut R,
    writer: &mut W,
) -> Result<bool, ServeFault>
    requires room { 0 < length buffer.old }
    ensures ok { (keep : Option ℕ) (from before : Option (List ℕ)) (was : TraceValue)
        (start : ServiceValue) (reads : ℕ)
        → ServesPart keep from (R.bytes reader.old) before (W.bytes writer.old)
        was (trace_of (T.bytes trace.old) (T.safe trace.old)) start service.old line.old.items reads
        → IfOk result (ServesOn keep from (R.bytes reader.new) before (W.bytes writer.new)
        was (trace_of (T.bytes trace.new) (T.safe trace.new)) start service.new line.new.items
        (reads + 1)) }
    ensures err { (keep : Option ℕ) (from before : Option (List ℕ)) (was : TraceValue)
        (start : ServiceValue) (reads : ℕ)
        → ServesPart keep from (R.bytes reader.old) before (W.bytes writer.old)
        was (trace_of (T.bytes trace.old) (T.safe trace.old)) start service.old line.old.items reads
        → IfErr result (Stops keep from (R.bytes reader.new) before (W.bytes writer.new)
        was (trace_of (T.bytes trace.new) (T.safe trace.new)) start service.new) }
    ensures settled { IfOk result (λ more. more ≡ true → IsSettled service.new) }
    ensures least { service.new.least ≡ service.old.least }
    ensures uncut { T.least trace.new ≡ T.least trace.old }
    ensures end { IfOk result (λ more. more ≡ false → GaveNothing (R.last reader.new)) }
    ensures read { IfErr result (λ fault. fault ≡ ServeFault.Read
        → HasFailed (R.last reader.new)) }
    ensures write { IfErr result (λ fault. fault ≡ ServeFault.Write
        → HasRefused (W.last writer.new)) }
    ensures reads { CountsReads result (R.failures reader.old) (R.failures reader.new) }
    ensures writes { CountsWrites result (W.refusals writer.old) (W.refusals writer.new) }
{
    let count = read_piece(reader, buffer)?;
    if count == 0 {
        return Ok(false);
    }
    answer_piece(alloc, service, line, front(buffer, count))?;
    service.write_trace(trace)?;
    service.release(writer)?;
    Ok(true)
}

// Serves the input, batch by batch, to its end.
fn serve_batches<F: LogFile, T: LogFile, R: Source, W: Sink>(
    alloc: Global,
    service: &mut Service<F>,
    trace: &mut T,
    reader: &mut R,
    writer: &mut W,
) -> Result<(), ServeFault>
    ensures ok { (from before : Option (List ℕ)) (was : TraceValue) (start : ServiceValue)
        → ServesPart None from (R.bytes reader.old) before (W.bytes writer.old)
        was (trace_of (T.bytes trace.old) (T.safe trace.old)) start service.old [] 0
        → OnOk result (Serves None from (R.bytes reader.new) before (W.bytes writer.new)
        was (trace_of (T.bytes trace.new) (T.safe trace.new)) start service.new
        × IsAtEnd (R.bytes reader.new)) }
    ensures err { (from before : Option (List ℕ)) (was : TraceValue) (start : ServiceValue)
        → ServesPart None from (R.bytes reader.old) before (W.bytes writer.old)
        was (trace_of (T.bytes trace.old) (T.safe trace.old)) start service.old [] 0
        → IfErr result (Stops None from (R.bytes reader.new) before (W.bytes writer.new)
        was (trace_of (T.bytes trace.new) (T.safe trace.new)) start service.new) }
    ensures least { service.new.least ≡ service.old.least }
    ensures uncut { T.least trace.new ≡ T.least trace.old }
    ensures end { OnOk result (GaveNothing (R.last reader.new)) }
    ensures read { IfErr result (λ fault. fault ≡ ServeFault.Read
        → HasFailed (R.last reader.new)) }
    ensures write { IfErr result (λ fault. fault ≡ ServeFault.Write
        → HasRefused (W.last writer.new)) }
    ensures reads { CountsReads result (R.failures reader.old) (R.failures reader.new) }
    ensures writes { CountsWrites result (W.refusals writer.old) (W.refusals writer.new) }
{
    let mut buffer = new_buffer(alloc)?;
    let mut line = Vec::new(alloc);
    'batches: for _reads in 0..u64::MAX {
        if !take_batch(
            alloc,
            service,
            trace,
            &mut line,
            buffer.as_mut_slice(),
            reader,
            writer,
        )? {
            return Ok(());
        }
    }
    Err(ServeFault::TooLong)
}

/// Lets out what waits, and then serves the lines of an input until it ends: each is answered by
/// the entry of the command that it asks of this site, or by `bad line N WHY`. What one read of at
/// most 64 KiB brings is a batch: its whole lines are answered, the log is settled, by at most one
/// sync, and then their answers are written. Before the log they are written to the trace, and are
/// safe there, by at most one sync more; what waits at first is in it already, by `Service::open`.
/// `NoTrace` is for a site that keeps no trace. A last line without LF is no line, since its end
/// may be wanting. There is no limit to the input but that of 2^64 - 1 reads.
///
/// The faults: `Read`, a read answered an error, which isn't tried again; `Write`, a write did, or
/// took no byte; `Device`, a call of the log's or the trace's file failed; `NoMemory`; `TooLong`, so
/// many reads were made, each of which brought a byte at least. At each but
/// `Write` exactly the answers of the batches before it were written, and at `Write` a front of
/// these with its own. Then neither the service nor the trace is to be used any more.
///
/// Costs 64 KiB, memory for the longest batch of answers, and what the site's own steps cost.
/// Source: this project.
pub fn serve<F: LogFile, T: LogFile, R: Source, W: Sink>(
    alloc: Global,
    service: &mut Service<F>,
    trace: &mut T,
    reader: &mut R,
    writer: &mut W,
) -> Result<(), ServeFault>
    // All the input is read, and the text of the answers to its whole lines is written, and is in
    // the trace.
    ensures ok { OnOk result (Serves None (R.bytes reader.old) (R.bytes reader.new)
        (W.bytes writer.old) (W.bytes writer.new) (trace_of (T.bytes trace.old) (T.safe trace.old))
        (trace_of (T.bytes trace.new) (T.safe trace.new)) service.old service.new
        × IsAtEnd (R.bytes reader.new)) }

    // That is so only after a read that had room and gave nothing.
    ensures end { OnOk result (GaveNothing (R.last reader.new)) }

    // At a fault what was written is the text of the answers to the whole lines of a front, which is
    // safe in the trace. The input is too long only where the front has 2^64 - 1 bytes at least.
    ensures err { IfErr result (λ fault. StopsAtOnce (R.bytes reader.old) (R.bytes reader.new)
        (W.bytes writer.old) (W.bytes writer.new) (trace_of (T.bytes trace.old) (T.safe trace.old))
        (trace_of (T.bytes trace.new) (T.safe trace.new)) service.old service.new fault
        ⊎ Stops None (R.bytes reader.old) (R.bytes reader.new)
        (W.bytes writer.old) (W.bytes writer.new) (trace_of (T.bytes trace.old) (T.safe trace.old))
        (trace_of (T.bytes trace.new) (T.safe trace.new)) service.old service.new fault) }

    // No cut is made, of the log or of the trace.
    ensures least { service.new.least ≡ service.old.least }
    ensures uncut { T.least trace.new ≡ T.least trace.old }

    // A read fault comes only where a read failed.
    ensures read { IfErr result (λ fault. fault ≡ ServeFault.Read
        → HasFailed (R.last reader.new)) }

    // A write fault comes only where a write failed, or took none of its bytes.
    ensures write { IfErr result (λ fault. fault ≡ ServeFault.Write
        → HasRefused (W.last writer.new)) }

    // One read failed in this call at a read fault, and else none.
    ensures reads { CountsReads result (R.failures reader.old) (R.failures reader.new) }

    // One write was refused in this call at a write fault, and else none.
    ensures writes { CountsWrites result (W.refusals writer.old) (W.refusals writer.new) }
{
    match service.release(writer) {
        Ok(()) => serve_batches(alloc, service, trace, reader, writer),
        Err(fault) => Err(fault),
    }
}
