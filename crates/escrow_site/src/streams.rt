//! Standard streams that are closed where the program starts, or go to a file of a site.

use folder_faults::{Fault, Why, failed, refused};
use site_tasks::Task;
use std::fs::{self, File};
use std::io::{self, ErrorKind};
use std::os::fd::{AsRawFd, IntoRawFd};
use std::os::unix::fs::MetadataExt;
use std::slice;
use world_folders::{Paths, read_site};

/// The greatest number of a standard stream.
const LAST: i32 = 2;

/// Gives the number of each standard stream that is closed to a folder, which can't be read or written:
/// else the system gives it to the first file that is opened, and answers, or a fault, would be written
/// into a log. So a stream that is closed is one that fails. The fault is that of a call of the system.
pub(crate) fn take_closed(rt: &HostRuntime) -> Result<(), Fault> {
    for _stream in 0..LAST + 1 {
        let taken = match File::open(rt, "/") {
            Ok(taken) => taken,
            Err(error) => return Err(failed(rt.alloc(), "/", error)),
        };
        if taken.as_raw_fd() > LAST {
            return Ok(());
        }
        let _stays_open = taken.into_raw_fd();
    }
    Ok(())
}

/// A standard stream that is written.
#[derive(Clone, Copy)]
pub(crate) enum Stream {
    Output,
    Error,
}

impl Stream {
    /// The file to which it goes.
    fn path(self) -> &'static str {
        match self {
            Stream::Output => "/proc/self/fd/1",
            Stream::Error => "/proc/self/fd/2",
        }
    }

    /// Why that may be none of a site.
    fn reason(self) -> Why {
        match self {
            Stream::Output => Why::Output,
            Stream::Error => Why::ErrorOutput,
        }
    }
}

// The device of the file at a path, and its number there.
fn node_at(rt: &HostRuntime, path: &str) -> io::Result<(u64, u64)> {
    let found = fs::metadata(rt, path)?;
    Ok((found.dev(), found.ino()))
}

// Refuses a file where a stream goes to it. That it isn't there is told by who opens it.
fn refuse_file(
    rt: &HostRuntime,
    path: &str,
    stream: Stream,
    goes_to: (u64, u64),
) -> Result<(), Fault> {
    match node_at(rt, path) {
        Ok(node) if node == goes_to => Err(refused(rt.alloc(), path, stream.reason())),
        Ok(_) => Ok(()),
        Err(error) => match error.kind() {
            ErrorKind::NotFound | ErrorKind::NotADirectory => Ok(()),
            _ => Err(failed(rt.alloc(), path, error)),
        },
    }
}

// Refuses a folder to a file of which a stream goes.
fn refuse_folder(
    rt: &HostRuntime,
    folder: &str,
    stream: Stream,
    goes_to: (u64, u64),
) -> Result<(), Fault> {
    let paths = Paths::new(rt.alloc(), folder)?;
    refuse_file(rt, paths.site.as_str(), stream, goes_to)?;
    refuse_file(rt, paths.log.as_str(), stream, goes_to)?;
    refuse_file(rt, paths.trace.as_str(), stream, goes_to)?;
    refuse_file(rt, paths.not_before.as_str(), stream, goes_to)
}

// Refuses the folder of the file to which a stream goes, by the name that the system has for that, where
// it is one of a site's files: whether a task names the folder or not.
fn refuse_home(rt: &HostRuntime, stream: Stream, goes_to: (u64, u64)) -> Result<(), Fault> {
    let Ok(file) = fs::read_link(rt, stream.path()) else {
        return Ok(());
    };
    let Some(home) = file.parent().filter(|home| home.is_absolute()) else {
        return Ok(()); // a pipe, or a socket
    };
    let Err(fault) = refuse_folder(rt, home.as_str(), stream, goes_to) else {
        return Ok(());
    };
    let paths = Paths::new(rt.alloc(), home.as_str())?;
    match read_site(rt, rt.alloc(), &paths) {
        Ok(_) => Err(fault),
        Err(_) => Ok(()),
    }
}

// The folders that a task names, but for one that it is to make.
fn folders_of(task: &Task) -> &[String] {
    match task {
        Task::Serve { folder, .. } | Task::Show { folder } | Task::Verify { folder } => {
            slice::from_ref(folder)
        }
        Task::Check { folders }
        | Task::Settle { folders, .. }
        | Task::Weave { folders }
        | Task::Judge { folders } => folders.as_slice(),
        Task::Create { .. } | Task::Version => &[],
    }
}

/// Refuses a stream that goes to a file of a site, as by `>> FOLDER/log`: of a folder that the task names,
/// or of that in which the file lies. Answers, or the text of a fault, would stand among its records.
/// Where the system doesn't tell which file that is, nothing is refused. No task is one that the command
/// line doesn't tell.
pub(crate) fn refuse_stream(
    rt: &HostRuntime,
    task: Option<&Task>,
    stream: Stream,
) -> Result<(), Fault> {
    let Ok(goes_to) = node_at(rt, stream.path()) else {
        return Ok(());
    };
    for folder in task.map_or(&[] as &[String], folders_of) {
        refuse_folder(rt, folder.as_str(), stream, goes_to)?;
    }
    refuse_home(rt, stream, goes_to)
}

/// The same of both streams.
pub(crate) fn refuse_streams(rt: &HostRuntime, task: Option<&Task>) -> Result<(), Fault> {
    refuse_stream(rt, task, Stream::Output)?;
    refuse_stream(rt, task, Stream::Error)
}

/// Whether a stream goes to a file of a site, as far as the system tells.
pub(crate) fn is_refused(rt: &HostRuntime, task: Option<&Task>, stream: Stream) -> bool {
    match refuse_stream(rt, task, stream) {
        Err(Fault::Refused(_, _)) => true,
        Ok(()) | Err(_) => false,
    }
}
