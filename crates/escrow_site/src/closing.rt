//! Folders whose world was settled: no site is ever served over them again.

ghost use Rattle.std.specs.Prelude.{◌≡◌, true};

use crate::creating::{sync_path, write_file};
use file_medium::{FileFailed, HostFile, LogFile};
use folder_faults::{Fault, Why, device_fault, failed, not_closed, refused};
use folder_serving::{open_short, short_fault};
use sealed_log::Ends;
use sealed_text::{end_batch, sum_line};
use short_files::{ShortFault, ShortFile};
use std::alloc::Global;
use std::fs::File;
use std::os::unix::fs::FileExt;
use std::{fs, io};
use world_folders::{Paths, SiteFolder};

// What stands in the file of a folder that was closed, for people: that it is there is what counts.
const SETTLED: &[u8] = b"escrow settled 1\n";

// The first line of a log of version 2, and of one of version 3, and how many bytes each has.
const SEALED: &[u8] = b"escrow log 2\n";

const SHORTENED: &[u8] = b"escrow log 3\n";

const FIRST_LENGTH: usize = 13;

// How many bytes the batch that ends a world has with its sum.
const END: usize = 23;

// Whether the bytes are the batch that ends a world, and its sum.
fn is_end(bytes: &[u8]) -> bool {
    let sum = sum_line(end_batch());
    match bytes.strip_prefix(end_batch()) {
        Some(line) => line == sum.as_slice(),
        None => false,
    }
}

// Whether the first line is that of a log of closed batches.
fn is_of_batches(first: &[u8]) -> bool {
    first == SEALED || first == SHORTENED
}

// Whether a log is of version 2 or 3, and ends as that of a world that was settled.
fn is_ended(rt: &HostRuntime, path: &str) -> io::Result<bool> {
    let file = File::open(rt, path)?;
    let Some(at) = file.metadata()?.len().checked_sub(END as u64) else {
        return Ok(false);
    };
    let mut first = [0u8; FIRST_LENGTH];
    let mut last = [0u8; END];
    file.read_exact_at(&mut first, 0)?;
    file.read_exact_at(&mut last, at)?;
    Ok(is_of_batches(&first) && is_end(&last))
}

// Whether the file is there that closes a folder with a log of version 1.
fn has_settled(rt: &HostRuntime, paths: &Paths) -> Result<bool, Fault> {
    match fs::exists(rt, paths.settled.as_str()) {
        Ok(is_there) => Ok(is_there),
        Err(error) => Err(failed(rt.alloc(), paths.settled.as_str(), error)),
    }
}

/// Whether the world of the folder's site was settled, so that the site is never served again. The log
/// is there. Reads its first and its last bytes.
pub(crate) fn is_settled(rt: &HostRuntime, paths: &Paths) -> Result<bool, Fault> {
    if has_settled(rt, paths)? {
        return Ok(true);
    }
    match is_ended(rt, paths.log.as_str()) {
        Ok(is_ended) => Ok(is_ended),
        Err(error) => Err(failed(rt.alloc(), paths.log.as_str(), error)),
    }
}

/// The fault that the folder was closed.
pub(crate) fn settled_fault(alloc: Global, paths: &Paths) -> Fault {
    refused(alloc, paths.folder.as_str(), Why::Settled)
}

// Ends the world in a log of version 2 or 3.
fn end_short<F: LogFile + Drop>(
    alloc: Global,
    paths: &Paths,
    log: ShortFile<'_, F>,
) -> Result<(), Fault> {
    let mut log = log;
    match log.end() {
        Ok(()) => Ok(()),
        Err(FileFailed) if log.is_lost() => Err(device_fault(alloc, paths.log.as_str())),
        Err(FileFailed) => Err(Fault::NoMemory),
    }
}

// Ends the world in the log of a folder, unless it was ended before, and tells whether it is of
// version 2 or 3: else it can't be.
fn end_log(alloc: Global, folder: &SiteFolder, file: &mut HostFile) -> Result<bool, Fault> {
    let SiteFolder { paths, identity } = folder;
    match open_short(alloc, identity, &mut *file) {
        Ok(log) => end_short(alloc, paths, log)?,
        Err(ShortFault::Ended) => {}
        Err(ShortFault::Plain) => return Ok(false),
        Err(fault) => return Err(short_fault(alloc, paths, identity, fault, file)),
    }
    Ok(true)
}

// Closes a folder with a log of version 1 by a file beside it. One that is there may not be safe yet.
fn leave_settled(rt: &HostRuntime, paths: &Paths) -> Result<(), Fault> {
    let path = paths.settled.as_str();
    if has_settled(rt, paths)? {
        sync_path(rt, path)?;
    } else {
        write_file(rt, path, SETTLED)?;
    }
    sync_path(rt, paths.folder.as_str())
}

// The same in either version.
fn close_by_version(
    rt: &HostRuntime,
    folder: &SiteFolder,
    file: &mut HostFile,
) -> Result<(), Fault> {
    if end_log(rt.alloc(), folder, file)? {
        return Ok(());
    }
    leave_settled(rt, &folder.paths)
}

/// The folder of a site whose log is locked as long as this lives, to be closed.
#[derive(Drop)]
pub(crate) struct LockedFolder<'a> {
    rt: &'a HostRuntime,
    folder: &'a SiteFolder,
    log: HostFile,
    is_closed: bool,
}

impl LockedFolder<'_> {
    pub(crate) fn new<'a>(
        rt: &'a HostRuntime,
        folder: &'a SiteFolder,
        log: HostFile,
    ) -> LockedFolder<'a> {
        LockedFolder {
            rt,
            folder,
            log,
            is_closed: false,
        }
    }
}

impl Ends<Fault> for LockedFolder<'_> {
    ghost is_ended = { λ l. l.is_closed ≡ true };

    /// Closes the folder, unless it was closed before. It is safe then from a stop of the machine.
    fn end(&mut self) -> Result<(), Fault> {
        match close_by_version(self.rt, self.folder, &mut self.log) {
            Ok(()) => {
                self.is_closed = true;
                Ok(())
            }
            Err(fault) => Err(not_closed(fault, self.log.take_fault())),
        }
    }
}
