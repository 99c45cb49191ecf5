//! A file of the system, and a new one beside it.

ghost use Rattle.std.specs.Prelude.{None};

use crate::replaceable::{PutFault, Replaceable};
use file_medium::{FileFailed, FileFault, HostFile, LogFile, OpenLogFault, Opening, open_log};
use std::alloc::{AllocError, Global};
use std::fs::{self, File, Files};
use std::io::{self, ErrorKind};
use std::os::unix::fs::{MetadataExt, chown};
use std::path::Path;

/// Whether the syncs of a log are made.
#[derive(Clone, Copy, Debug, PartialEq, Eq)]
pub enum LogSyncs {
    /// Each is one of the system.
    Made,
    /// Each is answered without one: the log is safe from a stop of the process, and not from one of
    /// the machine.
    LeftOut,
}

/// A step in which a new file takes the place of a log.
#[derive(Clone, Copy, Debug, PartialEq, Eq)]
pub enum SwapStep {
    /// The new file is made and locked, and gets the modes of the log, and its owner.
    Begin,
    Write,
    Sync,
    /// It gets the name of the log.
    Put,
    /// The folder is synced, in which it has that name now.
    SyncFolder,
}

/// A step that failed, and what the system told of it: None where another has the new file locked, none
/// was begun, or the log isn't at its path any more.
#[derive(Debug, Drop)]
pub struct SwapFault {
    pub step: SwapStep,
    pub error: Option<io::Error>,
}

/// A log in a file of the system, and the new file that is to take its place: `PATH.new`, where PATH is
/// that of the log. It keeps the last step that failed, for who tells people.
///
/// This is read, and not proved, as `HostFile` is: no contract can see what a file of the system holds,
/// so what is told of both files is None, of which each clause holds whatever the body. What is asked of
/// the bodies:
///
/// - a new file that a stop or a refusal has left is removed, and the new one is made and locked by
///   `open_log` before anything is written to it, so that it is locked when it gets the name of the log;
/// - it has the modes of the log before anything is written to it, and its owner where the system lets
///   the process give that;
/// - nothing is made or put at the path where that isn't the log's any more: a folder that was moved, or a
///   link that was turned, may have another site's log there;
/// - where a step fails the new file is removed, since it may hold the room that the log wants;
/// - it is synced, also where the syncs of the log are left out: else a stop of the machine could leave
///   an empty log;
/// - it gets the name of the log by one `rename`, once the folder was opened, and the folder is synced
///   then. Where that sync fails it isn't known which of the two files has the name after a stop of the
///   machine: `Failed`. Before the `rename` each fault is `Refused`, and so is one of it: a `rename` that
///   fails has changed nothing;
/// - from there on calls go to the new file, and the old one is closed, which lets go of its lock.
#[derive(Drop)]
pub struct HostSwap<'a, R: Files<File = File>> {
    rt: &'a R,
    path: String,
    new_path: String,
    file: HostFile,
    beside: Option<HostFile>,
    syncs: LogSyncs,
    last_fault: Option<SwapFault>,
}

impl<'a, R: Files<File = File>> HostSwap<'a, R> {
    /// The log at a path, which was opened there and is locked. The error is want of memory. Costs
    /// memory for the path, twice.
    pub fn new(
        alloc: Global,
        rt: &'a R,
        path: &str,
        file: HostFile,
        syncs: LogSyncs,
    ) -> Result<HostSwap<'a, R>, AllocError> {
        let mut new_path = String::from_str(alloc, path)?;
        new_path.push_str(".new")?;
        Ok(HostSwap {
            rt,
            path: String::from_str(alloc, path)?,
            new_path,
            file,
            beside: None,
            syncs,
            last_fault: None,
        })
    }

    /// The last call of the log that failed since this was asked, or None where none did. Costs no
    /// memory.
    pub fn take_fault(&mut self) -> Option<FileFault> {
        self.file.take_fault()
    }

    /// The last step of a new file that failed since this was asked, or None where none did. Costs no
    /// memory.
    pub fn take_swap_fault(&mut self) -> Option<SwapFault> {
        self.last_fault.take()
    }

    /// Removes a new file that a stop has left, where there is one: for who has the log locked, and
    /// begins no other. Costs no memory.
    pub fn remove_left(&self) -> io::Result<()> {
        match fs::remove_file(self.rt, self.new_path.as_str()) {
            Err(error) if error.kind() == ErrorKind::NotFound => Ok(()),
            removed => removed,
        }
    }

    // Notes a step that failed.
    fn note(&mut self, step: SwapStep, error: Option<io::Error>) -> FileFailed {
        self.last_fault = Some(SwapFault { step, error });
        FileFailed
    }

    // Whether the log is at its path still: no more where it, or a folder on its path, was moved. Another
    // log may be there then.
    fn is_in_place(&self) -> bool {
        matches!(self.file.is_at(self.rt, self.path.as_str()), Ok(true))
    }

    // A new file with nothing in it, locked, which those may read and write that may the log.
    fn make_new(&self) -> Result<HostFile, OpenLogFault> {
        self.remove_left()?;
        let new = open_log(self.rt, self.new_path.as_str(), Opening::New)?;
        match self.give_access() {
            Ok(()) => Ok(new),
            Err(error) => {
                self.remove_new(&new);
                Err(OpenLogFault::System(error))
            }
        }
    }

    // The new file gets the modes of the log, where it hasn't them; and its owner, where the system lets
    // this process give it away.
    fn give_access(&self) -> io::Result<()> {
        let log = fs::metadata(self.rt, self.path.as_str())?;
        let new = fs::metadata(self.rt, self.new_path.as_str())?;
        if (new.uid(), new.gid()) != (log.uid(), log.gid()) {
            let (owner, group) = (Some(log.uid()), Some(log.gid()));
            let _ = chown(self.rt, self.new_path.as_str(), owner, group);
        }
        if new.permissions() == log.permissions() {
            return Ok(());
        }
        fs::set_permissions(self.rt, self.new_path.as_str(), log.permissions())
    }

    // Removes a new file that won't take the place of the log, since it holds room that the log may want.
    // Where that fails it stays until the next start, or the next new file.
    fn remove_new(&self, new: &HostFile) {
        if let Ok(true) = new.is_at(self.rt, self.new_path.as_str()) {
            let _ = self.remove_left();
        }
    }

    // Gives the new file up, where there is one.
    fn give_up(&mut self) {
        if let Some(new) = self.beside.take() {
            self.remove_new(&new);
        }
    }

    // Notes a call of the new file that failed, and gives it up.
    fn note_new(&mut self, step: SwapStep) -> FileFailed {
        let error = match &mut self.beside {
            Some(new) => new.take_fault(),
            None => None,
        };
        self.give_up();
        match error {
            Some(fault) => self.note(step, Some(fault.error)),
            None => self.note(step, None),
        }
    }
}

impl<'a, R: Files<File = File>> LogFile for HostSwap<'a, R> {
    ghost bytes = { λ f. None };

    ghost safe = { λ f. None };

    ghost least = { λ f. None };

    fn read_at(&mut self, at: u64, buffer: &mut [u8]) -> Result<usize, FileFailed> {
        self.file.read_at(at, buffer)
    }

    fn write(&mut self, piece: &[u8]) -> Result<usize, FileFailed> {
        self.file.write(piece)
    }

    fn cut(&mut self, kept: u64) -> Result<(), FileFailed> {
        self.file.cut(kept)
    }

    fn sync(&mut self) -> Result<(), FileFailed> {
        match self.syncs {
            LogSyncs::Made => self.file.sync(),
            LogSyncs::LeftOut => Ok(()),
        }
    }
}

impl<'a, R: Files<File = File>> Replaceable for HostSwap<'a, R> {
    ghost beside = { λ f. None };

    ghost beside_safe = { λ f. None };

    fn begin_beside(&mut self) -> Result<(), FileFailed> {
        self.give_up();
        if !self.is_in_place() {
            return Err(self.note(SwapStep::Begin, None));
        }
        match self.make_new() {
            Ok(new) => {
                self.beside = Some(new);
                Ok(())
            }
            Err(OpenLogFault::System(error)) => Err(self.note(SwapStep::Begin, Some(error))),
            Err(OpenLogFault::Busy) => Err(self.note(SwapStep::Begin, None)),
        }
    }

    fn write_beside(&mut self, piece: &[u8]) -> Result<usize, FileFailed> {
        if let Some(new) = &mut self.beside
            && let Ok(count) = new.write(piece)
        {
            return Ok(count);
        }
        Err(self.note_new(SwapStep::Write))
    }

    fn sync_beside(&mut self) -> Result<(), FileFailed> {
        if let Some(new) = &mut self.beside
            && new.sync().is_ok()
        {
            return Ok(());
        }
        Err(self.note_new(SwapStep::Sync))
    }

    fn put_in_place(&mut self) -> Result<(), PutFault> {
        let Some(new) = self.beside.take() else {
            self.note(SwapStep::Put, None);
            return Err(PutFault::Refused);
        };
        if !self.is_in_place() {
            self.remove_new(&new);
            self.note(SwapStep::Put, None);
            return Err(PutFault::Refused);
        }
        let renamed = match File::open(self.rt, folder_of(self.path.as_str())) {
            Ok(folder) => rename(self.rt, self.new_path.as_str(), self.path.as_str(), folder),
            Err(error) => Err(error),
        };
        let folder = match renamed {
            Ok(folder) => folder,
            Err(error) => {
                self.remove_new(&new);
                self.note(SwapStep::Put, Some(error));
                return Err(PutFault::Refused);
            }
        };
        self.file = new;
        match folder.sync_all() {
            Ok(()) => Ok(()),
            Err(error) => {
                self.note(SwapStep::SyncFolder, Some(error));
                Err(PutFault::Failed)
            }
        }
    }
}

// Gives a file another name, and hands the folder back.
fn rename<R: Files<File = File>>(rt: &R, from: &str, to: &str, folder: File) -> io::Result<File> {
    fs::rename(rt, from, to)?;
    Ok(folder)
}

// The folder in which a path lies.
fn folder_of(path: &str) -> &str {
    match Path::new(path).parent() {
        Some(folder) if !folder.as_str().is_empty() => folder.as_str(),
        Some(_) | None => ".",
    }
}
