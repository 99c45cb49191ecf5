//! A file of the system that isn't synced.

ghost use Rattle.std.specs.Prelude.{None};

use file_medium::{FileFailed, FileFault, HostFile, LogFile};
use world_folders::TellsFault;

/// A log whose bytes are safe from a stop of the process, and not from one of the machine: a sync
/// is answered without one. Read, and not proved, as `HostFile` is.
#[derive(Drop)]
pub(crate) struct UnsyncedFile {
    file: HostFile,
}

impl UnsyncedFile {
    pub(crate) fn new(file: HostFile) -> UnsyncedFile {
        UnsyncedFile { file }
    }
}

impl LogFile for UnsyncedFile {
    ghost bytes = { λ f. None };

    ghost safe = { λ f. None };

    ghost least = { λ f. None };

    fn read_at(&mut self, at: u64, buffer: &mut [u8]) -> Result<usize, FileFailed> {
        self.file.read_at(at, buffer)
    }

    fn write(&mut self, piece: &[u8]) -> Result<usize, FileFailed> {
        self.file.write(piece)
    }

    fn cut(&mut self, kept: u64) -> Result<(), FileFailed> {
        self.file.cut(kept)
    }

    fn sync(&mut self) -> Result<(), FileFailed> {
        Ok(())
    }
}

impl TellsFault for UnsyncedFile {
    fn take_fault(&mut self) -> Option<FileFault> {
        self.file.take_fault()
    }
}
