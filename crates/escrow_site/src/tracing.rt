//! The trace of a served site, beside its log.

use crate::locking::file_fault;
use file_medium::{HostFile, Opening, open_log};
use folder_faults::{Fault, Missing, Why, failed, refused};
use site_folder::{Identity, trace_name};
use std::fs::File;
use std::io::Write;
use std::{fs, io};
use world_folders::{Paths, count_records, cut_back, read_cut};

// Writes a file, in place of one that is there, and makes it safe from a stop of the machine.
fn write_anew(rt: &HostRuntime, path: &str, text: &[u8]) -> io::Result<()> {
    let mut file = File::create(rt, path)?;
    file.write_all(text)?;
    file.sync_all()
}

// Writes a trace with no entries beside its place, and puts it there.
fn put_trace(rt: &HostRuntime, paths: &Paths, name: &[u8]) -> io::Result<()> {
    write_anew(rt, paths.new_trace.as_str(), name)?;
    fs::rename(rt, paths.new_trace.as_str(), paths.trace.as_str())
}

// Makes a trace with no entries, for a log that holds no records. It is there whole, or not at all.
fn make_trace(rt: &HostRuntime, paths: &Paths, identity: &Identity) -> Result<(), Fault> {
    let alloc = rt.alloc();
    let log = count_records(rt, alloc, paths, identity)?;
    if log.length > 0 {
        return Err(refused(alloc, paths.trace.as_str(), Why::NoTrace));
    }
    let name = trace_name(alloc, identity)?;
    match put_trace(rt, paths, name.as_slice()) {
        Ok(()) => Ok(()),
        Err(error) => Err(failed(alloc, paths.trace.as_str(), error)),
    }
}

// Whether the folder has a trace.
fn has_trace(rt: &HostRuntime, paths: &Paths) -> Result<bool, Fault> {
    match fs::exists(rt, paths.trace.as_str()) {
        Ok(is_there) => Ok(is_there),
        Err(error) => Err(failed(rt.alloc(), paths.trace.as_str(), error)),
    }
}

// The file of the trace, opened and locked.
fn open_trace(rt: &HostRuntime, paths: &Paths) -> Result<HostFile, Fault> {
    match open_log(rt, paths.trace.as_str(), Opening::Existing) {
        Ok(file) => Ok(file),
        Err(fault) => Err(file_fault(rt.alloc(), paths.trace.as_str(), fault, Missing::Trace)),
    }
}

// Cuts the file of the trace back to the folder's log.
fn settle_trace(
    rt: &HostRuntime,
    paths: &Paths,
    identity: &Identity,
    file: &mut HostFile,
) -> Result<(), Fault> {
    let cut = read_cut(rt, rt.alloc(), paths, identity)?;
    cut_back(rt.alloc(), paths, file, &cut)
}

// The trace of the folder, opened, locked and cut back to the folder's log; it is made where the log
// holds no records yet.
fn lock_trace(rt: &HostRuntime, paths: &Paths, identity: &Identity) -> Result<HostFile, Fault> {
    if !has_trace(rt, paths)? {
        make_trace(rt, paths, identity)?;
    }
    let mut file = open_trace(rt, paths)?;
    settle_trace(rt, paths, identity, &mut file)?;
    Ok(file)
}

// Refuses a folder that has a trace, which would miss what is answered.
fn refuse_trace(rt: &HostRuntime, paths: &Paths) -> Result<(), Fault> {
    if has_trace(rt, paths)? {
        return Err(refused(rt.alloc(), paths.trace.as_str(), Why::TraceThere));
    }
    Ok(())
}

/// The trace of a folder whose log is locked, opened, locked and cut back to that log, where one is to
/// be kept; a folder with a trace is refused where none is.
pub(crate) fn trace_for(
    rt: &HostRuntime,
    paths: &Paths,
    identity: &Identity,
    is_traced: bool,
) -> Result<Option<HostFile>, Fault> {
    if is_traced {
        return Ok(Some(lock_trace(rt, paths, identity)?));
    }
    refuse_trace(rt, paths)?;
    Ok(None)
}
