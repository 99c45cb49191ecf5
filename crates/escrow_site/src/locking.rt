//! The files of a folder, opened and locked.

use file_medium::{HostFile, OpenLogFault, Opening, open_log};
use folder_faults::{Fault, Missing, Why, failed, refused};
use std::alloc::Global;
use std::io::ErrorKind;
use world_folders::Paths;

/// Why a file wasn't opened, as a fault at its path; or why it is refused where it isn't there.
pub(crate) fn file_fault(
    alloc: Global,
    path: &str,
    fault: OpenLogFault,
    missing: Missing,
) -> Fault {
    match fault {
        OpenLogFault::Busy => match String::from_str(alloc, path) {
            Ok(path) => Fault::Busy(path),
            Err(_) => Fault::NoMemory,
        },
        OpenLogFault::System(error) if error.kind() == ErrorKind::NotFound => {
            refused(alloc, path, Why::from(missing))
        }
        OpenLogFault::System(error) => failed(alloc, path, error),
    }
}

/// The log of the folder, opened and locked.
pub(crate) fn lock_log(rt: &HostRuntime, paths: &Paths) -> Result<HostFile, Fault> {
    match open_log(rt, paths.log.as_str(), Opening::Existing) {
        Ok(log) => Ok(log),
        Err(fault) => Err(file_fault(rt.alloc(), paths.log.as_str(), fault, Missing::Log)),
    }
}
