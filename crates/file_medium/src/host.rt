//! A file of the system.

ghost use Rattle.std.specs.Prelude.{None};

use crate::log_file::{FileFailed, LogFile};
use crate::memory_file::FileCall;
use std::fs::{self, File, Files, OpenOptions, TryLockError};
use std::io::{self, Write};
use std::os::unix::fs::{FileExt, MetadataExt};
use std::path::Path;
use thiserror::Error;

/// A call of a file of the system that failed, and what the system told of it.
#[derive(Debug, Drop)]
pub struct FileFault {
    pub call: FileCall,
    pub error: io::Error,
}

/// A log in a file of the system, locked for its owner as long as this value lives. It keeps the last
/// call that failed, for who tells people.
///
/// This is the one place in which it is read, and not proved, that a file keeps the law of
/// `LogFile`: no contract can see what a file of the system holds, so `bytes`, `safe` and `least`
/// are None, of which each clause holds whatever the body. The bodies of `read_at`, `write`, `cut`
/// and `sync` make one call of the system each, at the file that was opened, and hand its answer on.
#[derive(Drop)]
pub struct HostFile {
    file: File,
    last_fault: Option<FileFault>,
}

impl HostFile {
    // Notes a call that failed.
    fn note(&mut self, call: FileCall, error: io::Error) -> FileFailed {
        self.last_fault = Some(FileFault { call, error });
        FileFailed
    }

    /// The last call that failed since this was asked, or None where none did. Costs no memory.
    pub fn take_fault(&mut self) -> Option<FileFault> {
        self.last_fault.take()
    }

    /// Whether a path is that of this file: no more where the file, or a folder on its path, was moved,
    /// or another file was put there. The error is that of the system, also where nothing is there.
    /// Costs no memory.
    pub fn is_at<R: Files<File = File>>(&self, rt: &R, path: &str) -> io::Result<bool> {
        is_at(rt, path, &self.file)
    }
}

impl LogFile for HostFile {
    ghost bytes = { λ f. None };

    ghost safe = { λ f. None };

    ghost least = { λ f. None };

    fn read_at(&mut self, at: u64, buffer: &mut [u8]) -> Result<usize, FileFailed> {
        match self.file.read_at(buffer, at) {
            Ok(count) => Ok(count),
            Err(error) => Err(self.note(FileCall::Read, error)),
        }
    }

    fn write(&mut self, piece: &[u8]) -> Result<usize, FileFailed> {
        match self.file.write(piece) {
            Ok(count) => Ok(count),
            Err(error) => Err(self.note(FileCall::Write, error)),
        }
    }

    fn cut(&mut self, kept: u64) -> Result<(), FileFailed> {
        match self.file.set_len(kept) {
            Ok(()) => Ok(()),
            Err(error) => Err(self.note(FileCall::Cut, error)),
        }
    }

    fn sync(&mut self) -> Result<(), FileFailed> {
        match self.file.sync_data() {
            Ok(()) => Ok(()),
            Err(error) => Err(self.note(FileCall::Sync, error)),
        }
    }
}

/// Whether a log is to be there before it is opened.
#[derive(Clone, Copy, Debug, PartialEq, Eq)]
pub enum Opening {
    /// The file is made, and mustn't be there.
    New,
    /// The file has to be there.
    Existing,
}

/// Why a log wasn't opened.
#[derive(Debug, Drop, Error)]
pub enum OpenLogFault {
    /// Another process has it locked, or another value of this one; or another file took the place of
    /// the one that was opened before that was locked.
    #[error("the log is open elsewhere")]
    Busy,
    /// The system refused a call. Its kind is `AlreadyExists` where a new log is there already, and
    /// `NotFound` where an existing one isn't.
    #[error(transparent)]
    System(#[from] io::Error),
}

/// Opens the log at a path, and locks it: who else opens it by this call is answered `Busy`. A
/// process that ends, however it does, lets go of it.
///
/// A lock is on a file, and not on its path. So once it has the lock it looks whether the path still
/// is that file: where whoever had the log locked put another file in its place meanwhile, which it
/// had locked before, the answer is `Busy` too.
///
/// The file is synced before it is read, and so is its folder, so that a new file is found after a
/// stop of the machine. Where a sync of an earlier process failed, the system may hold pages in
/// memory that the disk hasn't got, and no later sync tells: so until the machine is started anew
/// what is read may be other than what the disk has.
///
/// No clause says what becomes of a file: this is read, and not proved. A fault may leave a new
/// file, which is empty. Costs no memory, and two syncs.
pub fn open_log<R: Files<File = File>>(
    rt: &R,
    path: &str,
    opening: Opening,
) -> Result<HostFile, OpenLogFault> {
    let file = open_file(rt, path, opening)?;
    match file.try_lock() {
        Ok(()) => {}
        Err(TryLockError::WouldBlock) => return Err(OpenLogFault::Busy),
        Err(TryLockError::Error(fault)) => return Err(OpenLogFault::System(fault)),
    }
    if !is_at(rt, path, &file)? {
        return Err(OpenLogFault::Busy);
    }
    file.sync_all()?;
    File::open(rt, folder_of(path))?.sync_all()?;
    Ok(HostFile {
        file,
        last_fault: None,
    })
}

/// The file, opened to be read and added to.
fn open_file<R: Files<File = File>>(rt: &R, path: &str, opening: Opening) -> io::Result<File> {
    OpenOptions::new()
        .read(true)
        .append(true)
        .create_new(opening == Opening::New)
        .open(rt, path)
}

/// Whether the file at a path is this one: of the same device, and of the same number there.
fn is_at<R: Files<File = File>>(rt: &R, path: &str, file: &File) -> io::Result<bool> {
    let there = fs::metadata(rt, path)?;
    let own = file.metadata()?;
    Ok(there.dev() == own.dev() && there.ino() == own.ino())
}

/// The folder in which a path lies.
fn folder_of(path: &str) -> &str {
    match Path::new(path).parent() {
        Some(folder) if !folder.as_str().is_empty() => folder.as_str(),
        Some(_) | None => ".",
    }
}
