//! The paths of a folder whose log may be a link.

use folder_faults::{Fault, Missing};
use std::fs;
use std::io::{self, ErrorKind};
use std::path::Path;
use world_folders::{PathFault, Paths, read_fault};

// The path of the file to which a link leads, or None where it is none, or leads nowhere.
fn target_of(rt: &HostRuntime, path: &str) -> io::Result<Option<String>> {
    if !fs::symlink_metadata(rt, path)?.is_symlink() {
        return Ok(None);
    }
    Ok(Some(fs::canonicalize(rt, path)?.into_string()))
}

/// The paths of a folder. Where its log is a link, as to a file on a larger disk, they name that file: so
/// what takes its place does so where it lies, and no older copy of the log stays behind the link. That a
/// log isn't there is told by who opens it.
pub(crate) fn paths_of(rt: &HostRuntime, folder: &str) -> Result<Paths, Fault> {
    let mut paths = Paths::new(rt.alloc(), folder)?;
    match target_of(rt, paths.log.as_str()) {
        Ok(Some(target)) => paths.log = target,
        Ok(None) => {}
        Err(error) if error.kind() == ErrorKind::NotFound => {}
        Err(error) => {
            let why = PathFault::of(error);
            return Err(read_fault(rt.alloc(), paths.log.as_str(), why, Missing::Log));
        }
    }
    Ok(paths)
}

/// The folder in which a path lies.
pub(crate) fn folder_of(path: &str) -> &str {
    match Path::new(path).parent() {
        Some(folder) if !folder.as_str().is_empty() => folder.as_str(),
        Some(_) | None => ".",
    }
}
