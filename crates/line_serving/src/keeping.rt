//! The serving of an input over a log whose front is let go meanwhile.

ghost use Rattle.std.specs.Prelude.{◌≡◌, ◌⊎◌, ◌<◌, ◌≤◌, ◌+◌, ℕ, List, Option, Some, [], true, false, length, IfOk, IfErr, OnOk, OnErr};
ghost use Rattle.std.specs.Io.KnownBytes.{IsAtEnd};
ghost use Rattle.script_input.specs.Streams.{HasFailed, GaveNothing, HasRefused};
ghost use Rattle.line_serving.specs.Keeping.{Shortens};
ghost use Rattle.site_service.specs.Service.{ServiceValue, IsSettled};
ghost use Rattle.site_service.specs.Shortening.{LeavesEither};
ghost use Rattle.site_service.specs.Traces.{TraceValue, trace_of};
ghost use Rattle.line_serving.specs.Serving.{Serves, ServesPart, ServesOn, Stops, StopsAtOnce};
ghost use Rattle.site_service.specs.Counting.{CountsReads, CountsWrites};

use crate::serving::{new_buffer, take_batch};
use file_medium::LogFile;
use kept_records::Device;
use script_input::{Sink, Source};
use short_log::ShortLog;
use site_service::{ServeFault, Service};
use std::alloc::Global;

/// The bytes that about a thousand records take: so far apart are the summaries of a log, and only in
/// front of one can it be let go.
const APART: usize = 16_384;

// When a log is looked at next: once so many bytes of it are held, where so many are to stay. A look
// that shortens it makes a copy of what stays, so the log grows by twice that before the next; and
// by the distance of two summaries, so that the next may find one.
//
// A log that was long at the start is looked at soon, however often runs are started: none grows
// beyond 8 times what is to stay and that distance. One that was short is looked at once it has grown
// by as much as behind a look: until then a commit that a stop left unanswered is told yes or no. And
// a look that was for nothing, as where the disk is full, isn't made again at each batch.
#[derive(Clone, Copy)]
struct Due {
    keep: usize,
    at: usize,
}

// How many bytes are held once that is due, where so many were.
fn next_look(held: usize, keep: usize) -> usize
    ensures later { held ≤ result }
{
    held.saturating_add(keep.saturating_mul(2))
        .saturating_add(APART)
}

impl Due {
    // At a start over a log of which so many bytes are held.
    fn new(held: usize, keep: usize) -> Due
        ensures keep { result.keep ≡ keep }
    {
        Due {
            keep,
            at: next_look(held.min(keep.saturating_mul(6)), keep),
        }
    }
}

// How many bytes of the log are held.
fn held_length<F: LogFile>(service: &Service<F>) -> usize {
    service.site().medium().bytes().len()
}

// Shortens the log where that is due, and can be done. At the fault nothing is let out any more.
fn shorten_if_due<F: ShortLog>(
    alloc: Global,
    service: &mut Service<F>,
    due: &mut Due,
) -> Result<(), Device>
    requires settled { IsSettled service.old }
    ensures ok { OnOk result (IsSettled service.new) }
    ensures shortens { OnOk result (Shortens due.old.keep service.old.served service.new.served) }
    ensures waiting { service.new.waiting ≡ service.old.waiting }
    ensures served { OnErr result (service.new.served ≡ service.old.served) }
    ensures safe { OnErr result (LeavesEither due.old.keep service.old.served service.new.safe) }
    ensures keep { due.new.keep ≡ due.old.keep }
{
    if held_length(service) < due.at {
        return Ok(());
    }
    let looked = service.shorten(alloc, due.keep);
    due.at = next_look(held_length(service), due.keep);
    looked
}

// A batch, as `take_batch` serves it, and behind its release a look at the log where one is due.
fn take_and_shorten<F: ShortLog, T: LogFile, R: Source, W: Sink>(
    alloc: Global,
    service: &mut Service<F>,
    trace: &mut T,
    line: &mut Vec<u8>,
    buffer: &mut [u8],
    reader: &mut R,
    writer: &mut W,
    due: &mut Due,
) -> Result<bool, ServeFault>
    requires room { 0 < length buffer.old }
    ensures ok { (from before : Option (List ℕ)) (was : TraceValue) (start : ServiceValue)
        (reads : ℕ)
        → ServesPart (Some due.old.keep) from (R.bytes reader.old) before (W.bytes writer.old)
        was (trace_of (T.bytes trace.old) (T.safe trace.old)) start service.old line.old.items reads
        → IfOk result
        (ServesOn (Some due.old.keep) from (R.bytes reader.new) before (W.bytes writer.new)
        was (trace_of (T.bytes trace.new) (T.safe trace.new)) start service.new line.new.items
        (reads + 1)) }
    ensures err { (from before : Option (List ℕ)) (was : TraceValue) (start : ServiceValue)
        (reads : ℕ)
        → ServesPart (Some due.old.keep) from (R.bytes reader.old) before (W.bytes writer.old)
        was (trace_of (T.bytes trace.old) (T.safe trace.old)) start service.old line.old.items reads
        → IfErr result
        (Stops (Some due.old.keep) from (R.bytes reader.new) before (W.bytes writer.new)
        was (trace_of (T.bytes trace.new) (T.safe trace.new)) start service.new) }
    ensures uncut { T.least trace.new ≡ T.least trace.old }
    ensures end { IfOk result (λ more. more ≡ false → GaveNothing (R.last reader.new)) }
    ensures read { IfErr result (λ fault. fault ≡ ServeFault.Read
        → HasFailed (R.last reader.new)) }
    ensures write { IfErr result (λ fault. fault ≡ ServeFault.Write
        → HasRefused (W.last writer.new)) }
    ensures reads { CountsReads result (R.failures reader.old) (R.failures reader.new) }
    ensures writes { CountsWrites result (W.refusals writer.old) (W.refusals writer.new) }
    ensures keep { due.new.keep ≡ due.old.keep }
{
    if !take_batch(alloc, service, trace, line, buffer, reader, writer)? {
        return Ok(false);
    }
    shorten_if_due(alloc, service, due)?;
    Ok(true)
}

// Serves the input, batch by batch, to its end, and behind each looks at the log where that is due.
fn keep_batches<F: ShortLog, T: LogFile, R: Source, W: Sink>(
    alloc: Global,
    service: &mut Service<F>,
    trace: &mut T,
    reader: &mut R,
    writer: &mut W,
    keep: usize,
) -> Result<(), ServeFault>
    ensures ok { (from before : Option (List ℕ)) (was : TraceValue) (start : ServiceValue)
        → ServesPart (Some keep) from (R.bytes reader.old) before (W.bytes writer.old)
        was (trace_of (T.bytes trace.old) (T.safe trace.old)) start service.old [] 0
        → OnOk result (Serves (Some keep) from (R.bytes reader.new) before (W.bytes writer.new)
        was (trace_of (T.bytes trace.new) (T.safe trace.new)) start service.new
        × IsAtEnd (R.bytes reader.new)) }
    ensures err { (from before : Option (List ℕ)) (was : TraceValue) (start : ServiceValue)
        → ServesPart (Some keep) from (R.bytes reader.old) before (W.bytes writer.old)
        was (trace_of (T.bytes trace.old) (T.safe trace.old)) start service.old [] 0
        → IfErr result (Stops (Some keep) from (R.bytes reader.new) before (W.bytes writer.new)
        was (trace_of (T.bytes trace.new) (T.safe trace.new)) start service.new) }
    ensures uncut { T.least trace.new ≡ T.least trace.old }
    ensures end { OnOk result (GaveNothing (R.last reader.new)) }
    ensures read { IfErr result (λ fault. fault ≡ ServeFault.Read
        → HasFailed (R.last reader.new)) }
    ensures write { IfErr result (λ fault. fault ≡ ServeFault.Write
        → HasRefused (W.last writer.new)) }
    ensures reads { CountsReads result (R.failures reader.old) (R.failures reader.new) }
    ensures writes { CountsWrites result (W.refusals writer.old) (W.refusals writer.new) }
{
    let mut buffer = new_buffer(alloc)?;
    let mut line = Vec::new(alloc);
    let mut due = Due::new(held_length(service), keep);
    'batches: for _reads in 0..u64::MAX {
        if !take_and_shorten(
            alloc,
            service,
            trace,
            &mut line,
            buffer.as_mut_slice(),
            reader,
            writer,
            &mut due,
        )? {
            return Ok(());
        }
    }
    Err(ServeFault::TooLong)
}

/// Serves an input as `serve` does, and behind the release of a batch shortens the log where that is
/// due, as `Service::shorten` does: each time a summary stays, and behind its line at least `keep`
/// bytes and another summary. So the answers are those of `serve`, but those that hang on a commit or
/// a key that was let go, which is forgotten. Of a transaction that is open, and hasn't committed,
/// nothing more is forgotten.
///
/// The log is looked at once it holds twice `keep` and 16,384 bytes more than behind the last look,
/// or than at the start, of which no more counts than 6 times `keep`: never before the first batch. A
/// look that can't shorten it, since no summary stands so that it could, memory is wanting, or the
/// new log is refused, leaves it as it is, and the serving goes on.
///
/// The faults are those of `serve`, and leave what they leave there. `Device` comes also where it
/// isn't known whether a shorter log has taken the place of the log: each is whole, all answers were
/// let out, and nothing is read or written behind that. Since a new log takes the place of the old
/// one, nothing is said of cuts of the log, as it is for `serve`.
///
/// Costs what `serve` does; and where the log is shortened twice the memory of what stays, a look at
/// each record, and a write of what stays with two syncs. Source: this project.
pub fn serve_keeping<F: ShortLog, T: LogFile, R: Source, W: Sink>(
    alloc: Global,
    service: &mut Service<F>,
    trace: &mut T,
    reader: &mut R,
    writer: &mut W,
    keep: usize,
) -> Result<(), ServeFault>
    // All the input is read, and the text of the answers to its whole lines is written, and is in
    // the trace. Between the lines more of the log may be let go, and at least `keep` bytes stay.
    ensures ok { OnOk result (Serves (Some keep) (R.bytes reader.old) (R.bytes reader.new)
        (W.bytes writer.old) (W.bytes writer.new) (trace_of (T.bytes trace.old) (T.safe trace.old))
        (trace_of (T.bytes trace.new) (T.safe trace.new)) service.old service.new
        × IsAtEnd (R.bytes reader.new)) }

    // That is so only after a read that had room and gave nothing.
    ensures end { OnOk result (GaveNothing (R.last reader.new)) }

    // At a fault what was written is the text of the answers to the whole lines of a front, which
    // is safe in the trace; at a device fault the log may be a shorter one. The input is too long
    // only where the front has 2^64 - 1 bytes at least.
    ensures err { IfErr result (λ fault. StopsAtOnce (R.bytes reader.old) (R.bytes reader.new)
        (W.bytes writer.old) (W.bytes writer.new) (trace_of (T.bytes trace.old) (T.safe trace.old))
        (trace_of (T.bytes trace.new) (T.safe trace.new)) service.old service.new fault
        ⊎ Stops (Some keep) (R.bytes reader.old) (R.bytes reader.new)
        (W.bytes writer.old) (W.bytes writer.new) (trace_of (T.bytes trace.old) (T.safe trace.old))
        (trace_of (T.bytes trace.new) (T.safe trace.new)) service.old service.new fault) }

    // No cut is made of the trace.
    ensures uncut { T.least trace.new ≡ T.least trace.old }

    // A read fault comes only where a read failed.
    ensures read { IfErr result (λ fault. fault ≡ ServeFault.Read
        → HasFailed (R.last reader.new)) }

    // A write fault comes only where a write failed, or took none of its bytes.
    ensures write { IfErr result (λ fault. fault ≡ ServeFault.Write
        → HasRefused (W.last writer.new)) }

    // One read failed in this call at a read fault, and else none.
    ensures reads { CountsReads result (R.failures reader.old) (R.failures reader.new) }

    // One write was refused in this call at a write fault, and else none.
    ensures writes { CountsWrites result (W.refusals writer.old) (W.refusals writer.new) }
{
    match service.release(writer) {
        Ok(()) => keep_batches(alloc, service, trace, reader, writer, keep),
        Err(fault) => Err(fault),
    }
}
