//! The trace of a served site, beside its log: what of it stays, and how it is cut back to that.

ghost use Rattle.std.specs.Prelude.{◌≡◌, ◌++◌, IfOk, OnOk, string_bytes};
ghost use Rattle.file_medium.specs.Files.{cut_known};
ghost use Rattle.site_folder.specs.Identity.{trace_name};
ghost use Rattle.world_folders.specs.Traces.{AreEntriesRead, IsCutRead, IsOfFile, IsTraceEnd, kept_of};

use crate::folder::{Paths, read_file};
use crate::folder_log::count_records;
use crate::reading::ReadsFiles;
use crate::tells_fault::TellsFault;
use field_bounds::{Entry, Schema};
use file_medium::FileFailed;
use folder_faults::{Fault, Missing, Why, device_fault, refused, with_call};
use folder_logs::trace_text;
use site_folder::Identity;
use site_trace::{TraceEnd, TraceFault, kept_entries, read_trace, trace_end_at};
use std::alloc::Global;

/// Where the trace of a folder is cut back to what its log holds.
#[derive(Drop)]
pub struct TraceCut {
    /// Where the text ends that stays, behind the name.
    pub end: TraceEnd,
    /// The length of the name of its file, in bytes.
    pub name: usize,
    /// The length of all of the file, in bytes.
    pub length: usize,
}

// The text of a trace, behind the name with which its file begins.
fn behind_trace_name<'a>(
    alloc: Global,
    paths: &Paths,
    identity: &Identity,
    bytes: &'a [u8],
) -> Result<&'a [u8], Fault>
    ensures text { IfOk result (λ text. bytes.now ≡ trace_name identity.now ++ text.now) }
{
    match trace_text(alloc, identity, bytes)? {
        Some(text) => Ok(text),
        None => Err(refused(alloc, paths.trace.as_str(), Why::OtherTrace)),
    }
}

// Why a trace isn't read, as a fault at its path.
fn trace_fault(alloc: Global, paths: &Paths, fault: TraceFault) -> Fault {
    match fault {
        TraceFault::Line(line) => refused(alloc, paths.trace.as_str(), Why::BadEntry(line)),
        TraceFault::NoMemory => Fault::NoMemory,
    }
}

// The fault that a trace tells of fewer records than its log holds.
fn trace_behind(alloc: Global, paths: &Paths) -> Fault {
    refused(alloc, paths.trace.as_str(), Why::TraceBehind)
}

// Where the text of a trace ends that is cut back to a log of so many records.
fn end_at(
    alloc: Global,
    paths: &Paths,
    schema: &Schema,
    text: &[u8],
    kept: usize,
) -> Result<TraceEnd, Fault>
    ensures end { IfOk result (IsTraceEnd schema.now text.now kept) }
{
    let trace = match read_trace(alloc, schema, text) {
        Ok(trace) => trace,
        Err(fault) => return Err(trace_fault(alloc, paths, fault)),
    };
    match trace_end_at(&trace, kept) {
        Some(end) => Ok(end),
        None => Err(trace_behind(alloc, paths)),
    }
}

/// Where the trace of a folder is cut back to the folder's log. Both are read without locks, the log
/// first: so the trace of a site that is being served isn't behind it.
pub fn read_cut<R: ReadsFiles>(
    files: &R,
    alloc: Global,
    paths: &Paths,
    identity: &Identity,
) -> Result<TraceCut, Fault>
    ensures cut { IfOk result (IsCutRead (R.holds files.now) (string_bytes paths.now.log)
        (string_bytes paths.now.trace) identity.now) }
{
    let log = count_records(files, alloc, paths, identity)?;
    let bytes = read_file(files, alloc, paths.trace.as_str(), Missing::Trace)?;
    let text = behind_trace_name(alloc, paths, identity, bytes.as_slice())?;
    let end = end_at(alloc, paths, identity.schema(), text, log.plain)?;
    Ok(TraceCut {
        end,
        name: bytes.len().saturating_sub(text.len()),
        length: bytes.len(),
    })
}

/// The entries of the trace of a folder that its log has the records of. Both are read without
/// locks, the log first.
pub fn read_kept_entries<R: ReadsFiles>(
    files: &R,
    alloc: Global,
    paths: &Paths,
    identity: &Identity,
) -> Result<Vec<Entry>, Fault>
    ensures read { IfOk result (λ entries. AreEntriesRead (R.holds files.now)
        (string_bytes paths.now.log) (string_bytes paths.now.trace) identity.now
        entries.items) }
{
    let log = count_records(files, alloc, paths, identity)?;
    let bytes = read_file(files, alloc, paths.trace.as_str(), Missing::Trace)?;
    let text = behind_trace_name(alloc, paths, identity, bytes.as_slice())?;
    match kept_entries(alloc, identity.schema(), text, log.plain) {
        Ok(Some(entries)) => Ok(entries),
        Ok(None) => Err(trace_behind(alloc, paths)),
        Err(fault) => Err(trace_fault(alloc, paths, fault)),
    }
}

/// Cuts the file of a trace back, where it holds more than stays. At a device fault the call that failed
/// is told, and what the file holds isn't known.
pub fn cut_back<T: TellsFault>(
    alloc: Global,
    paths: &Paths,
    file: &mut T,
    cut: &TraceCut,
) -> Result<(), Fault>
    requires sized { IsOfFile cut.now (T.bytes file.old) }
    ensures cut { OnOk result (T.bytes file.new ≡ cut_known (kept_of cut.now)
        (T.bytes file.old)) }
{
    let length = cut.name.saturating_add(cut.end.length);
    if length >= cut.length {
        return Ok(());
    }
    match file.cut(length as u64) {
        Ok(()) => Ok(()),
        Err(FileFailed) => {
            let fault = device_fault(alloc, paths.trace.as_str());
            Err(with_call(fault, file.take_fault()))
        }
    }
}
