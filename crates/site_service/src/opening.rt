//! What a service finds in its log.

ghost use Rattle.std.specs.Prelude.{◌≡◌, ◌<◌, ◌≤◌, [], ℕ, List, false, length, take, drop, IfOk, IfErr, OnOk, OnErr};
ghost use Rattle.kept_records.specs.Logs.{HasNoLf};
ghost use Rattle.script_input.specs.Lines.{last_part};
ghost use Rattle.site_step.specs.Site.{Opens};
ghost use Rattle.site_step.specs.Opening.{TellsLine, SparesLogs};
ghost use Rattle.file_medium.specs.Copies.{IsCopyOf};
ghost use Rattle.site_service.specs.Opening.{HoldsLines, HoldsWhole, HoldsRecords, KeepsLines, SparesLines, TellsBadLine};
ghost use Rattle.site_service.specs.Service.{IsWhole, IsTextOf};

use crate::keys::NotedKeys;
use caller_keys::split_notes;
use field_bounds::{Entry, Schema, SiteNo};
use file_medium::{FileFailed, LogFile, read_whole};
use history::GhostHistory;
use kept_records::{MediumFault, MemoryMedium};
use memchr::memrchr;
use site_step::{OpenFault, Site};
use std::alloc::{AllocError, Global};

// How many bytes the whole lines have: those up to and with the last LF.
fn lines_length(bytes: &[u8]) -> usize
    ensures within { result ≤ length bytes.now }
    ensures whole { last_part (take result bytes.now) ≡ [] }
    ensures rest { HasNoLf (drop result bytes.now) }
{
    match memrchr(b'\n', bytes) {
        Some(at) => at + 1,
        None => 0,
    }
}

/// What a log holds: its whole lines, and whether a torn end stands behind them.
#[derive(Drop)]
pub(crate) struct HeldLines {
    pub(crate) lines: Vec<u8>,
    pub(crate) torn: bool,
}

// Reads the whole lines of a log, which stays as it is.
pub(crate) fn read_lines<F: LogFile>(alloc: Global, log: &mut F) -> Result<HeldLines, MediumFault>
    ensures lines { IfOk result (λ held. HoldsLines (F.bytes log.old) held.lines.items) }
    ensures all { IfOk result (λ held. held.torn ≡ false
        → IsCopyOf (F.bytes log.old) held.lines.items) }
    ensures bytes { F.bytes log.new ≡ F.bytes log.old }
    ensures safe { F.safe log.new ≡ F.safe log.old }
    ensures least { F.least log.new ≡ F.least log.old }
{
    let mut held = read_whole(alloc, log)?;
    let kept = lines_length(held.as_slice());
    let torn = kept < held.len();
    held.truncate(kept);
    Ok(HeldLines { lines: held, torn })
}

// Cuts off what stands behind the whole lines of a log, of so many bytes, where there is any of it.
fn cut_behind<F: LogFile>(log: &mut F, whole: usize, torn: bool) -> Result<(), MediumFault>
    requires lines { HoldsWhole (F.bytes log.old) whole torn }
    ensures cut { (held : List ℕ) → HoldsLines (F.bytes log.old) held
        → OnOk result (IsCopyOf (F.bytes log.new) held) }
    ensures safe { KeepsLines (F.bytes log.old) (F.safe log.old) (F.safe log.new) }
    ensures least { SparesLines (F.bytes log.old) (F.least log.old) (F.least log.new) }
{
    if !torn {
        return Ok(());
    }
    match log.cut(whole as u64) {
        Ok(()) => Ok(()),
        Err(FileFailed) => Err(MediumFault::Device),
    }
}

// Makes safe what a file holds. What was safe still is, also at the fault.
fn make_safe<F: LogFile>(log: &mut F) -> Result<(), MediumFault>
    ensures bytes { OnOk result (F.bytes log.new ≡ F.bytes log.old) }
    ensures safe { OnOk result (F.safe log.new ≡ F.bytes log.old) }
    ensures kept { OnErr result (F.safe log.new ≡ F.safe log.old) }
    ensures least { F.least log.new ≡ F.least log.old }
{
    match log.sync() {
        Ok(()) => Ok(()),
        Err(FileFailed) => Err(MediumFault::Device),
    }
}

// Leaves in a log its whole lines alone, of so many bytes, and makes them safe. What was safe of them
// still is, also at the fault.
pub(crate) fn keep_lines<F: LogFile>(
    log: &mut F,
    whole: usize,
    torn: bool,
) -> Result<(), MediumFault>
    requires lines { HoldsWhole (F.bytes log.old) whole torn }
    ensures bytes { (held : List ℕ) → HoldsLines (F.bytes log.old) held
        → OnOk result (IsCopyOf (F.bytes log.new) held) }
    ensures safe { (held : List ℕ) → HoldsLines (F.bytes log.old) held
        → OnOk result (IsCopyOf (F.safe log.new) held) }
    ensures kept { OnErr result (KeepsLines (F.bytes log.old) (F.safe log.old)
        (F.safe log.new)) }
    ensures least { SparesLines (F.bytes log.old) (F.least log.old) (F.least log.new) }
{
    cut_behind(log, whole, torn)?;
    make_safe(log)
}

// The keys that the notes of whole lines tell, and their records. The error is want of memory.
pub(crate) fn split_lines(alloc: Global, lines: Vec<u8>) -> Result<(NotedKeys, Vec<u8>), AllocError>
    requires whole { last_part lines.items ≡ [] }
    ensures is { IfOk result (λ parts. IsTextOf lines.items parts.0.last parts.1.items) }
    ensures none { IfOk result (λ parts. parts.0.lines ≡ []) }
    ensures whole { IfOk result (λ parts. last_part parts.1.items ≡ []) }
{
    let (table, records) = split_notes(alloc, lines)?;
    Ok((NotedKeys::of_table(alloc, table), records))
}

// Opens the site over whole lines of records. The medium is dropped at a fault.
fn open_site(
    alloc: Global,
    schema: Schema,
    number: SiteNo,
    held: Vec<u8>,
) -> Result<Site<MemoryMedium, GhostHistory<Entry>>, OpenFault>
    requires in_schema { number.0 < schema.sites }
    requires whole { last_part held.items ≡ [] }
    ensures opens { IfOk result (Opens schema number held.items 0) }
    ensures whole { IfOk result IsWhole }
    ensures line { IfErr result (TellsLine schema number.0 held.items) }
    ensures never { IfErr result (SparesLogs schema number.0 held.items) }
{
    match Site::open_with(alloc, schema, number, MemoryMedium::new(held)) {
        Ok(site) => Ok(site),
        Err((fault, _medium)) => Err(fault),
    }
}

/// What a log was opened as: the site over its records, and the keys of its notes.
#[derive(Drop)]
pub(crate) struct OpenedLog {
    pub(crate) site: Site<MemoryMedium, GhostHistory<Entry>>,
    pub(crate) keys: NotedKeys,
}

/// Opens the site over the records among the whole lines of a log, and takes the keys of its notes.
/// Then what stands behind the whole lines is cut off, and they are made safe. A log that is refused
/// stays as it is; and at each fault what was safe of its whole lines still is.
pub(crate) fn open_lines<F: LogFile>(
    alloc: Global,
    schema: Schema,
    number: SiteNo,
    log: &mut F,
) -> Result<OpenedLog, OpenFault>
    requires in_schema { number.0 < schema.sites }
    ensures lines { IfOk result (λ opened. (held : List ℕ)
        × HoldsRecords (F.bytes log.old) held opened.keys.last opened.site.bytes
        × IsCopyOf (F.bytes log.new) held × IsCopyOf (F.safe log.new) held) }
    ensures none { IfOk result (λ opened. opened.keys.lines ≡ []) }
    ensures opens { IfOk result (λ opened. Opens schema number opened.site.bytes 0
        opened.site) }
    ensures whole { IfOk result (λ opened. IsWhole opened.site) }
    ensures line { IfErr result (TellsBadLine schema number (F.bytes log.old)) }
    ensures kept { OnErr result (KeepsLines (F.bytes log.old) (F.safe log.old)
        (F.safe log.new)) }
    ensures least { SparesLines (F.bytes log.old) (F.least log.old) (F.least log.new) }
    ensures same_bytes { IfErr result (λ fault. (n : ℕ) → fault ≡ OpenFault.Line n
        → F.bytes log.new ≡ F.bytes log.old) }
    ensures same_safe { IfErr result (λ fault. (n : ℕ) → fault ≡ OpenFault.Line n
        → F.safe log.new ≡ F.safe log.old) }
    ensures same_least { IfErr result (λ fault. (n : ℕ) → fault ≡ OpenFault.Line n
        → F.least log.new ≡ F.least log.old) }
{
    let held = read_lines(alloc, log)?;
    let torn = held.torn;
    let whole = held.lines.as_slice().len();
    let (keys, records) = split_lines(alloc, held.lines)?;
    let site = open_site(alloc, schema, number, records)?;
    keep_lines(log, whole, torn)?;
    Ok(OpenedLog { site, keys })
}
