//! What is asked of the file of a trace.

ghost use Rattle.std.specs.Prelude.{◌≡◌, ℕ, List, Option, Some, IfOk, OnErr};
ghost use Rattle.std.specs.Io.{ReadsAtMost};
ghost use Rattle.file_medium.specs.Files.{ReadsAt};

use file_medium::{FileFailed, LogFile, MemoryFile};

/// A file that is read from any place, and whose bytes stay the same meanwhile.
///
/// No contract can see the bytes of a file of the system, so they may be None: then each clause holds,
/// and tells nothing. What is proved over this trait is proved of every file that is read as it says;
/// that a file of the system is, and that nobody writes to what was read of it, is a premise.
pub trait ReadAt: Drop {
    /// The bytes that it holds, or None where they aren't known.
    ghost bytes: { Self → Option (List ℕ) };

    /// A read of it has failed.
    ghost has_failed: { Self → Type 0 };

    /// One read of the bytes behind the first `at`. It gives none only at the end, or where there is no
    /// room.
    fn read_at(&mut self, at: u64, buffer: &mut [u8]) -> Result<usize, FileFailed>
        ensures bound { ReadsAtMost result buffer.new }
        ensures read { IfOk result (λ n. ReadsAt (bytes self.old) at n buffer.new) }
        ensures bytes { bytes self.new ≡ bytes self.old }
        ensures failed { OnErr result (has_failed self.new) };
}

/// A file in memory tells its bytes, and nothing of a read that failed.
impl ReadAt for MemoryFile {
    ghost bytes = { λ f. Some f.bytes };

    ghost has_failed = { λ _. Unit {0} };

    fn read_at(&mut self, at: u64, buffer: &mut [u8]) -> Result<usize, FileFailed> {
        LogFile::read_at(self, at, buffer)
    }
}
