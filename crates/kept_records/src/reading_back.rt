//! Reading what a site needs of its log for a restart, from its end.

ghost use Rattle.std.specs.Prelude.{◌≡◌, ◌≤◌, ◌<◌, ◌⊎◌, [], ◌∷◌, List, ℕ, IfOk, IfSome, None, length, drop};
ghost use Rattle.std.specs.List.{flat_map};
ghost use Rattle.kept_records.specs.Text.{text};
ghost use Rattle.kept_records.specs.Logs.{AreAll};
ghost use Rattle.kept_records.specs.Keeping.{IsKept};
ghost use Rattle.kept_records.specs.Cursor.{HandsSummary};
ghost use Rattle.kept_records.specs.Stands.{plain};
ghost use Rattle.kept_records.specs.Medium.{CountsRead, ReadFate};
ghost use Rattle.kept_records.specs.ReadingBack.{PartsAt, AreBehind, AreLast, IsWhole, IsSummaryLine, IsLastLine, EndsAt, ReadsEnd};

use crate::cursor::Cursor;
use crate::log::{RecordFault, read_records};
use crate::medium::{End, Medium, MediumFault};
use crate::record::Record;
use crate::summary::Summary;
use memchr::memrchr;
use std::alloc::{AllocError, Global};
use std::marker::Model;

/// How many bytes are read at first. Where they don't tell all, twice as many are read.
const FIRST_READ: usize = 16_384;

/// The lines of a log behind its last summary, or all of them, with what is torn behind them.
/// Contracts see their bytes.
#[derive(Drop)]
pub struct LastLines {
    held: Vec<u8>,
    start: usize,
}

impl Model for LastLines {
    ghost use Rattle.std.specs.Prelude.{◌≤◌, List, ℕ, drop, length};

    ghost Value = { List ℕ };

    ghost view = { λ l. drop l.start l.held.items };

    ghost invariant = { λ l. l.start ≤ length l.held.items };
}

impl LastLines {
    /// The bytes. Takes no memory.
    pub fn as_slice(&self) -> &[u8]
        ensures all { result.now ≡ self.now }
    {
        &self.held[self.start..]
    }
}

/// What the end of a log was read as.
#[derive(Drop)]
pub struct ReadBack {
    /// The last whole summary of the log, where it has one.
    pub summary: Option<Summary>,
    /// The lines behind that summary, or all lines.
    pub lines: LastLines,
    /// The records behind the place.
    pub behind: Vec<Record>,
    /// The length of the texts of all records of the log, in bytes.
    pub whole: usize,
    /// How many bytes there are.
    pub present: usize,
}

/// The records of bytes that are a log, and the length of their texts.
fn read_log_bytes(alloc: Global, bytes: &[u8]) -> Result<(Vec<Record>, usize), AllocError>
    requires log { IsKept bytes.now }
    ensures only { IfOk result (λ read. AreAll bytes.now read.0.items read.1) }
    ensures whole { IfOk result (λ read. read.1 ≡ length (flat_map text read.0.items)) }
    ensures within { IfOk result (λ read. read.1 ≤ length bytes.now) }
{
    match read_records(alloc, bytes) {
        Ok(read) => Ok(read),
        Err(RecordFault::NoMemory) => Err(AllocError),
        Err(RecordFault::Line(_)) => unreachable!(),
    }
}

/// Where the last whole line starts that has a summary's letter and stands behind another line.
fn last_summary(bytes: &[u8]) -> Option<usize>
    ensures line { IfSome result (λ start. IsSummaryLine bytes.now start) }
    ensures last { IfSome result (λ start. IsLastLine bytes.now start) }
    ensures none { result ≡ None → IsLastLine bytes.now 0 }
{
    let mut end = memrchr(b'\n', bytes)?;
    while let Some(at) = memrchr(b'S', &bytes[..end]) {
        if at > 0 && bytes[at - 1] == b'\n' {
            return Some(at);
        }
        end = at;
    }
    None
}

/// Where to read the last records from, in the end of a log that starts behind so many bytes: from
/// its last whole summary on, or from the front.
fn start_in(bytes: &[u8], from: usize) -> Option<usize>
    ensures start { IfSome result (λ start. IsSummaryLine bytes.now start
        ⊎ ((from ≡ 0) × (start ≡ 0))) }
    ensures last { IfSome result (λ start. IsLastLine bytes.now start) }
    ensures within { IfSome result (λ start. start ≤ length bytes.now) }
    ensures none { result ≡ None → 0 < from }
{
    match last_summary(bytes) {
        Some(start) => Some(start),
        None => { if from == 0 { Some(0) } else { None } }
    }
}

/// The summary that the bytes of a log start with, where they do, and how long its line is.
fn first_summary(alloc: Global, bytes: &[u8]) -> Result<(Option<Summary>, usize), AllocError>
    requires log { IsKept bytes.now }
    ensures handed { IfOk result (λ read. HandsSummary bytes.now read.0 (drop read.1 bytes.now)) }
    ensures within { IfOk result (λ read. read.1 ≤ length bytes.now) }
{
    let mut cursor = Cursor::new(alloc, bytes);
    let summary = cursor.next_summary(alloc)?;
    Ok((summary, bytes.len() - cursor.left()))
}

/// What the end of a log tells, where it reaches back to the place and to a whole summary, or is
/// all of the log.
fn take_end(alloc: Global, end: End, place: usize) -> Result<Option<ReadBack>, AllocError>
    requires ends { (bytes : List ℕ) × (most : ℕ) × EndsAt bytes most place end }
    ensures reads { IfOk result (λ read. IfSome read (λ told. (bytes : List ℕ) (most : ℕ)
        → EndsAt bytes most place end → ReadsEnd bytes place told)) }
    ensures more { IfOk result (λ read. read ≡ None → length end.bytes.items < end.length) }
{
    let from = end.length - end.bytes.len();
    if place < from {
        return Ok(None);
    }
    let Some(start) = start_in(&end.bytes, from) else {
        return Ok(None);
    };
    let (summary, size) = first_summary(alloc, &end.bytes[start..])?;
    let (behind, length) = read_log_bytes(alloc, &end.bytes[place - from..])?;
    let whole = place + length;
    let lines_start = start + size;
    let lines = LastLines {
        held: end.bytes,
        start: lines_start,
    };
    Ok(Some(ReadBack {
        summary,
        lines,
        behind,
        whole,
        present: end.length,
    }))
}

/// Reads the end of the log that a medium holds: its last whole summary and the lines behind it, or
/// all lines where it has none; and the records that stand behind a place, in bytes, where the
/// texts of some records end. A torn record takes up the bytes from `whole` up to `present`. The
/// bytes stay as they are. The errors are a fault of the device and want of memory.
///
/// Reads 16,384 bytes, and while these don't reach back to a whole summary and to the place, twice
/// as many, up to all. Costs a look for the summary, and a pass over it and over the bytes behind
/// the place; and memory for the bytes that are read, for the summary and for the records behind
/// the place. The lines behind the summary aren't read as records: a `Cursor` does that.
pub fn read_back<M: Medium>(
    alloc: Global,
    medium: &mut M,
    place: usize,
) -> Result<ReadBack, MediumFault>
    requires log { PartsAt (M.bytes medium.old) place }
    ensures last { IfOk result (λ read. AreLast (M.bytes medium.old) read.summary read.lines) }
    ensures behind { IfOk result (λ read. AreBehind (M.bytes medium.old) place read.behind.items) }
    ensures whole { IfOk result (λ read. IsWhole (M.bytes medium.old) read.whole) }
    ensures present { IfOk result (λ read. read.present ≡ length (M.bytes medium.old)) }
    ensures within { IfOk result (λ read. read.whole ≤ read.present) }
    ensures bytes { M.bytes medium.new ≡ M.bytes medium.old }
    ensures failed { CountsRead result (M.failed medium.old) (M.failed medium.new) }
    ensures foretold { ReadFate (M.foretold medium.old) result (M.foretold medium.new) }
{
    let mut most = FIRST_READ;
    loop {
        let end = medium.read_end(alloc, most)?;
        match take_end(alloc, end, place) {
            Ok(Some(read)) => return Ok(read),
            Ok(None) => most = most.saturating_mul(2),
            Err(AllocError) => return Err(MediumFault::NoMemory),
        }
    }
}

/// How many of the records are no summaries. Costs a look at each.
pub fn count_plain(records: &[Record]) -> usize
    ensures count { result ≡ length (plain records.now) }
{
    let mut count = 0;
    for record in records {
        count += plain_count(record);
    }
    count
}

/// How many records one counts for: a summary for none. Costs no memory.
pub fn plain_count(kept: &Record) -> usize
    ensures value { result ≡ length (plain (kept.now ∷ [])) }
    ensures few { result ≤ 1 }
{
    if kept.is_summary() { 0 } else { 1 }
}
