//! Which call of a file failed where the serving of a site ended, and why a log isn't opened.

use file_medium::{FileCall, FileFault, LogFile, read_whole};
use file_swap::{HostSwap, Replaceable, SwapFault, SwapStep};
use folder_faults::{Fault, Why, device_fault, refused, with_call};
use short_files::ShortFault;
use site_folder::Identity;
use std::alloc::Global;
use std::fs::{File, Files};
use world_folders::{Paths, TellsFault, held_in};

/// A log's file that tells which call of it failed, or of the file that was to take its place.
pub trait TellsSwap: Replaceable + Drop {
    /// The last call of the file that failed, where one did.
    fn take_call(&mut self) -> Option<FileFault>;

    /// The last step of a new file that failed, where one did.
    fn take_step(&mut self) -> Option<SwapFault>;
}

impl<'a, R: Files<File = File>> TellsSwap for HostSwap<'a, R> {
    fn take_call(&mut self) -> Option<FileFault> {
        self.take_fault()
    }

    fn take_step(&mut self) -> Option<SwapFault> {
        self.take_swap_fault()
    }
}

// The call of the trace that failed last.
fn trace_call<T: TellsFault>(trace: &mut Option<T>) -> Option<FileFault> {
    match trace {
        Some(trace) => trace.take_fault(),
        None => None,
    }
}

// The fault that this call of the trace failed.
fn trace_fault(alloc: Global, paths: &Paths, failed: FileFault) -> Fault {
    with_call(device_fault(alloc, paths.trace.as_str()), Some(failed))
}

// The sync of the folder that failed once another file had the log's name. A step before that is no
// fault: the log is as it was then.
fn folder_call<F: TellsSwap>(file: &mut F) -> Option<FileFault> {
    match file.take_step() {
        Some(
            SwapFault {
                step: SwapStep::SyncFolder,
                error: Some(error),
            },
        ) => Some(FileFault {
            call: FileCall::Sync,
            error,
        }),
        _ => None,
    }
}

// A device fault of which no call of the log tells: the folder's sync failed, or a call of the trace.
fn beside_fault<F: TellsSwap, T: TellsFault>(
    alloc: Global,
    paths: &Paths,
    path: String,
    file: &mut F,
    trace: &mut Option<T>,
) -> Fault {
    if let Some(failed) = folder_call(file) {
        return with_call(device_fault(alloc, paths.folder.as_str()), Some(failed));
    }
    match trace_call(trace) {
        Some(failed) => trace_fault(alloc, paths, failed),
        None => Fault::Device(path),
    }
}

/// A device fault with the call that failed last: one of the log; or the sync of its folder, once
/// another file had its name; or one of the trace where neither did.
pub fn told_fault<F: TellsSwap, T: TellsFault>(
    alloc: Global,
    paths: &Paths,
    fault: Fault,
    file: &mut F,
    trace: &mut Option<T>,
) -> Fault {
    match (fault, file.take_call()) {
        (Fault::Device(path), None) => beside_fault(alloc, paths, path, file, trace),
        (fault, failed) => with_call(fault, failed),
    }
}

// The fault that a batch is damaged, at the line of the file at which it begins.
fn damaged_fault<F: LogFile>(
    alloc: Global,
    paths: &Paths,
    identity: &Identity,
    file: &mut F,
) -> Fault {
    let Ok(bytes) = read_whole(alloc, file) else {
        return device_fault(alloc, paths.log.as_str());
    };
    match held_in(alloc, paths, identity, bytes.as_slice()) {
        Ok(_) => device_fault(alloc, paths.log.as_str()),
        Err(fault) => fault,
    }
}

/// Why the log of a folder isn't opened, as a fault at its path, or at the folder's where its world was
/// settled. Where a batch is damaged the file is read once more, for the line at which that begins.
pub fn short_fault<F: LogFile>(
    alloc: Global,
    paths: &Paths,
    identity: &Identity,
    fault: ShortFault,
    file: &mut F,
) -> Fault {
    let path = paths.log.as_str();
    match fault {
        ShortFault::Other => refused(alloc, path, Why::OtherLog),
        ShortFault::Changed => refused(alloc, path, Why::HeadChanged),
        ShortFault::Plain => refused(alloc, path, Why::Plain),
        ShortFault::Damaged { .. } => damaged_fault(alloc, paths, identity, file),
        ShortFault::Ended => refused(alloc, paths.folder.as_str(), Why::Settled),
        ShortFault::Device => device_fault(alloc, path),
        ShortFault::NoMemory => Fault::NoMemory,
    }
}
