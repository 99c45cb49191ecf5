//! Two files in memory, one beside the other.

ghost use Rattle.std.specs.Prelude.{◌≡◌, [], None, Some, IfSome, length};

use crate::replaceable::{PutFault, Replaceable};
use file_medium::{FileFailed, LogFile, MemoryFile};
use std::alloc::Global;

/// What the next `put_in_place` comes to, where it doesn't go well.
#[derive(Clone, Copy, Debug, PartialEq, Eq)]
pub enum PutMishap {
    /// It is refused, and nothing changes.
    Refused,
    /// It fails, and the old file is there.
    FailedOld,
    /// It fails, and the new file is there.
    FailedNew,
}

/// A file in memory and one beside it, for tests: it shows that the clauses of `Replaceable` can be
/// met. Calls on them go and fail as those of a `MemoryFile` do, where to begin the new file is to
/// cut it to nothing; and `put_in_place` as it is told. That is refused for want of memory too,
/// since it copies the new file.
#[derive(Drop)]
pub struct TwoFiles {
    alloc: Global,
    /// The file itself.
    pub file: MemoryFile,
    /// The new one.
    pub beside: MemoryFile,
    /// What the next `put_in_place` comes to.
    pub mishap: Option<PutMishap>,
}

impl TwoFiles {
    /// This file, and an empty one beside it. Takes no memory.
    pub fn new(alloc: Global, file: MemoryFile) -> TwoFiles
        ensures file { result.file ≡ file }
        ensures beside { result.beside.bytes ≡ [] }
        ensures mishap { result.mishap ≡ None }
    {
        TwoFiles {
            alloc,
            file,
            beside: MemoryFile::new(alloc, Vec::new(alloc)),
            mishap: None,
        }
    }

    /// The new file as the old one, all of it safe, or None where memory was refused.
    fn copy_of_new(&self) -> Option<MemoryFile>
        ensures bytes { IfSome result (λ copy. copy.bytes ≡ self.now.beside.bytes) }
        ensures safe { IfSome result (λ copy. copy.safe ≡ self.now.beside.bytes) }
        ensures least { IfSome result (λ copy. copy.least ≡ length self.now.beside.bytes) }
    {
        let held = Vec::from_slice(self.alloc, self.beside.bytes()).ok()?;
        let mut copy = MemoryFile::new(self.alloc, held);
        copy.sync().ok()?;
        Some(copy)
    }
}

impl LogFile for TwoFiles {
    ghost bytes = { λ f. Some f.file.bytes };

    ghost safe = { λ f. Some f.file.safe };

    ghost least = { λ f. Some f.file.least };

    fn read_at(&mut self, at: u64, buffer: &mut [u8]) -> Result<usize, FileFailed> {
        self.file.read_at(at, buffer)
    }

    fn write(&mut self, piece: &[u8]) -> Result<usize, FileFailed> {
        self.file.write(piece)
    }

    fn cut(&mut self, kept: u64) -> Result<(), FileFailed> {
        self.file.cut(kept)
    }

    fn sync(&mut self) -> Result<(), FileFailed> {
        self.file.sync()
    }
}

impl Replaceable for TwoFiles {
    ghost beside = { λ f. Some f.beside.bytes };

    ghost beside_safe = { λ f. Some f.beside.safe };

    fn begin_beside(&mut self) -> Result<(), FileFailed> {
        self.beside.cut(0)
    }

    fn write_beside(&mut self, piece: &[u8]) -> Result<usize, FileFailed> {
        self.beside.write(piece)
    }

    fn sync_beside(&mut self) -> Result<(), FileFailed> {
        self.beside.sync()
    }

    fn put_in_place(&mut self) -> Result<(), PutFault> {
        let mishap = self.mishap;
        self.mishap = None;
        match mishap {
            Some(PutMishap::Refused) => return Err(PutFault::Refused),
            Some(PutMishap::FailedOld) => return Err(PutFault::Failed),
            Some(PutMishap::FailedNew) | None => {}
        }
        let Some(new) = self.copy_of_new() else {
            return Err(PutFault::Refused);
        };
        self.file = new;
        match mishap {
            Some(_) => Err(PutFault::Failed),
            None => Ok(()),
        }
    }
}
