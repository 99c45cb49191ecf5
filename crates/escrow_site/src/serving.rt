//! The command `serve`.

use crate::archived::ArchivedLog;
use crate::closing::{is_settled, settled_fault};
use crate::creating::sync_site;
use crate::linked::paths_of;
use crate::locking::lock_log;
use crate::told_swap::{Notices, ToldSwap};
use crate::tracing::trace_for;
use crate::unsynced::UnsyncedFile;
use file_medium::{HostFile, LogFile};
use file_swap::{HostSwap, LogSyncs, Replaceable};
use folder_faults::{Fault, Why, failed, refused};
use folder_serving::{
    TellsSwap, check_age, gone_of, keep_streams, open_named, open_service, open_short,
    refuse_plain, serve_streams, short_fault, told_fault,
};
use log_head::Gone;
use script_input::Watched;
use short_files::{ShortFault, ShortFile};
use short_log::ShortLog;
use site_folder::{Identity, log_name};
use site_service::NoTrace;
use site_tasks::Serving;
use std::alloc::Global;
use world_folders::{Paths, TellsFault, check_mark, read_site};

// Opens the site over a log that is kept whole, and serves it over standard input and output.
fn serve_whole<F: LogFile + Drop, T: LogFile>(
    rt: &HostRuntime,
    paths: &Paths,
    identity: &Identity,
    log: F,
    trace: &mut T,
) -> Result<(), Fault> {
    let alloc = rt.alloc();
    let mut service = open_service(alloc, paths, identity, None, log, trace)?;
    let mut reader = Watched::new(rt.stdin());
    let mut writer = Watched::new(rt.stdout());
    serve_streams(alloc, paths, &mut service, trace, &mut reader, &mut writer)
}

// Opens the site over a log of which this was let go, and serves it over standard input and output:
// the log lets go of more, where so many bytes are to stay. (The error is of any type that a fault
// becomes: with a fault itself, which has texts of the program, the borrow checker doesn't cover a call
// for a log that borrows.)
fn serve_behind<L: ShortLog + Drop, T: LogFile, E: From<Fault>>(
    rt: &HostRuntime,
    paths: &Paths,
    identity: &Identity,
    gone: Option<Gone>,
    log: L,
    trace: &mut T,
    how: Serving,
) -> Result<(), E> {
    let alloc = rt.alloc();
    let mut service = open_service(alloc, paths, identity, gone, log, trace)?;
    let mut reader = Watched::new(rt.stdin());
    let mut writer = Watched::new(rt.stdout());
    let served = match how.keep {
        Some(keep) => keep_streams(
            alloc,
            paths,
            &mut service,
            trace,
            &mut reader,
            &mut writer,
            keep,
        ),
        None => serve_streams(alloc, paths, &mut service, trace, &mut reader, &mut writer),
    };
    Ok(served?)
}

// The same, and over its trace where it has one.
fn serve_traced<L: ShortLog + Drop, T: TellsFault, E: From<Fault>>(
    rt: &HostRuntime,
    paths: &Paths,
    identity: &Identity,
    gone: Option<Gone>,
    log: L,
    trace: &mut Option<T>,
    how: Serving,
) -> Result<(), E> {
    match trace {
        Some(trace) => serve_behind(rt, paths, identity, gone, log, trace, how),
        None => serve_behind(rt, paths, identity, gone, log, &mut NoTrace, how),
    }
}

// Serves the site over its log of version 2 or 3. What it lets go of is kept beside it, where that is
// asked for.
fn serve_short<F: Replaceable + Drop, T: TellsFault>(
    rt: &HostRuntime,
    paths: &Paths,
    identity: &Identity,
    log: ShortFile<'_, F>,
    trace: &mut Option<T>,
    how: Serving,
) -> Result<(), Fault> {
    let gone = gone_of(rt.alloc(), &log)?;
    let kept = ArchivedLog::new(rt, paths, log, how.is_archived);
    serve_traced(rt, paths, identity, gone, kept, trace, how)
}

// Why the serving over a log of closed batches ended: where no call of a file failed, memory was wanting
// for a batch.
fn batch_fault<F: TellsSwap, T: TellsFault>(
    alloc: Global,
    paths: &Paths,
    fault: Fault,
    file: &mut F,
    trace: &mut Option<T>,
) -> Fault {
    match told_fault(alloc, paths, fault, file, trace) {
        Fault::Device(_) => Fault::NoMemory,
        fault => fault,
    }
}

// Serves the site over its log of version 1.
fn serve_plain<F: TellsSwap, T: TellsFault>(
    rt: &HostRuntime,
    paths: &Paths,
    identity: &Identity,
    file: &mut F,
    trace: &mut Option<T>,
) -> Result<(), Fault> {
    let alloc = rt.alloc();
    let name = log_name(alloc, identity)?;
    let Some(log) = open_named(alloc, paths, file, name.as_slice())? else {
        return Err(refused(alloc, paths.log.as_str(), Why::OtherLog));
    };
    match trace {
        Some(trace) => serve_whole(rt, paths, identity, log, trace),
        None => serve_whole(rt, paths, identity, log, &mut NoTrace),
    }
}

// Serves the site over its files, which are lent. The version of the log is told by its head.
fn serve_lent<F: TellsSwap, T: TellsFault>(
    rt: &HostRuntime,
    paths: &Paths,
    identity: &Identity,
    file: &mut F,
    trace: &mut Option<T>,
    how: Serving,
) -> Result<(), Fault> {
    match open_short(rt.alloc(), identity, &mut *file) {
        Ok(log) => match serve_short(rt, paths, identity, log, trace, how) {
            Ok(()) => Ok(()),
            Err(fault) => Err(batch_fault(rt.alloc(), paths, fault, file, trace)),
        },
        Err(ShortFault::Plain) => serve_plain(rt, paths, identity, file, trace),
        Err(fault) => Err(short_fault(rt.alloc(), paths, identity, fault, file)),
    }
}

// Serves the site over its files. At a device fault the call that failed is told.
fn serve_files<F: TellsSwap, T: TellsFault>(
    rt: &HostRuntime,
    paths: &Paths,
    identity: &Identity,
    file: F,
    trace: Option<T>,
    how: Serving,
) -> Result<(), Fault> {
    let mut file = file;
    let mut trace = trace;
    match serve_lent(rt, paths, identity, &mut file, &mut trace, how) {
        Ok(()) => Ok(()),
        Err(fault) => Err(told_fault(rt.alloc(), paths, fault, &mut file, &mut trace)),
    }
}

// The log, which another file can take the place of, and which tells people where none can. One that a
// stop left there before is removed.
fn swap_of<'a>(
    rt: &'a HostRuntime,
    paths: &'a Paths,
    file: HostFile,
    syncs: LogSyncs,
) -> Result<ToldSwap<'a>, Fault> {
    let swap = HostSwap::new(rt.alloc(), rt, paths.log.as_str(), file, syncs)?;
    match swap.remove_left() {
        Ok(()) => Ok(ToldSwap::new(swap, Notices::new(rt, paths))),
        Err(error) => {
            let path = format!(in rt.alloc(); "{}.new", paths.log)?;
            Err(failed(rt.alloc(), path.as_str(), error))
        }
    }
}

// Serves the site over files that are synced.
fn serve_synced(
    rt: &HostRuntime,
    paths: &Paths,
    identity: &Identity,
    file: HostFile,
    trace: Option<HostFile>,
    how: Serving,
) -> Result<(), Fault> {
    let swap = swap_of(rt, paths, file, LogSyncs::Made)?;
    serve_files(rt, paths, identity, swap, trace, how)
}

// Serves the site over files that aren't synced.
fn serve_unsynced(
    rt: &HostRuntime,
    paths: &Paths,
    identity: &Identity,
    file: HostFile,
    trace: Option<HostFile>,
    how: Serving,
) -> Result<(), Fault> {
    let swap = swap_of(rt, paths, file, LogSyncs::LeftOut)?;
    let trace = match trace {
        Some(trace) => Some(UnsyncedFile::new(trace)),
        None => None,
    };
    serve_files(rt, paths, identity, swap, trace, how)
}

// The trace of a locked log, which is refused where it is older than was seen before, or than the mark
// that its folder keeps of an older one.
fn trace_beside(
    rt: &HostRuntime,
    paths: &Paths,
    identity: &Identity,
    how: Serving,
) -> Result<Option<HostFile>, Fault> {
    if let Some(seen) = how.not_before {
        check_age(rt, rt.alloc(), paths, identity, seen)?;
    }
    check_mark(rt, rt.alloc(), paths, identity)?;
    trace_for(rt, paths, identity, how.is_traced)
}

// Refuses the folder of a site whose world was settled: another world has its rights. The log is locked,
// so none is settled meanwhile.
fn refuse_settled(rt: &HostRuntime, paths: &Paths) -> Result<(), Fault> {
    if is_settled(rt, paths)? {
        return Err(settled_fault(rt.alloc(), paths));
    }
    Ok(())
}

// Refuses a folder whose site can't be served, or not so.
fn refuse_folder(
    rt: &HostRuntime,
    paths: &Paths,
    identity: &Identity,
    how: Serving,
) -> Result<(), Fault> {
    refuse_settled(rt, paths)?;
    if how.keep.is_some() {
        refuse_plain(rt, rt.alloc(), paths, identity)?;
    }
    sync_site(rt, paths)
}

// Serves the site over its log and its trace. What it stands on is safe from a stop of the machine
// before anything is answered.
fn serve_site(
    rt: &HostRuntime,
    paths: &Paths,
    identity: &Identity,
    how: Serving,
) -> Result<(), Fault> {
    let file = lock_log(rt, paths)?;
    refuse_folder(rt, paths, identity, how)?;
    let trace = trace_beside(rt, paths, identity, how)?;
    if how.is_synced {
        serve_synced(rt, paths, identity, file, trace, how)
    } else {
        serve_unsynced(rt, paths, identity, file, trace, how)
    }
}

/// Serves the site of a folder over standard input and output, to the end of the input. Where it
/// isn't synced, what is answered may be lost by a stop of the machine.
pub(crate) fn serve_folder(rt: &HostRuntime, folder: &str, how: Serving) -> Result<(), Fault> {
    let paths = paths_of(rt, folder)?;
    let identity = read_site(rt, rt.alloc(), &paths)?;
    serve_site(rt, &paths, &identity, how)
}
