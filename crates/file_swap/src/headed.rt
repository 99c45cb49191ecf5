//! A log that stands behind a head in its file.

ghost use Rattle.std.specs.Prelude.{◌≡◌, ◌++◌, [], ℕ, List, Option, Some, IfErr, OnOk, length};
ghost use Rattle.file_medium.specs.Copies.{IsCopyOf};
ghost use Rattle.file_medium.specs.Files.{IsSpared};
ghost use Rattle.file_swap.specs.Heads.{LeavesEither};

use crate::replaceable::PutFault;
use file_medium::{LogFile, MemoryFile};

/// A log behind a head in its file. Its calls are those of the log, and none of them changes the head.
/// Source: this project.
pub trait HeadedLog: LogFile {
    /// The head, as it stands safe in front of the log, or None where that isn't known.
    ghost head: { Self → Option (List ℕ) };
}

/// A log behind a head, of which both can be replaced at once: another file takes the place of theirs.
/// Its law is that of `Replaceable`, told of the head and the log. Source: this project.
pub trait ReplaceableLog: HeadedLog {
    /// Puts a new file in the place of the file: it begins with this head, and these bytes are its log.
    /// At Ok that is the log, all of it safe, and a stop of the machine leaves it; no cut has left
    /// fewer. `Refused`: the log is as it was. `Failed`: a stop of the machine leaves what was safe of
    /// the old file, or the new one, whole, and the log isn't to be used any more.
    fn replace(&mut self, head: &[u8], held: &[u8]) -> Result<(), PutFault>
        ensures bytes { OnOk result (IsCopyOf (Self.bytes self.new) held.now) }
        ensures safe { OnOk result (Self.safe self.new ≡ Self.bytes self.new) }
        ensures head { OnOk result (IsCopyOf (Self.head self.new) head.now) }
        ensures least { OnOk result (IsSpared (length held.now) (Self.least self.new)) }
        ensures refused { IfErr result (λ fault. fault ≡ PutFault.Refused
            → (Self.bytes self.new ≡ Self.bytes self.old)
            × (Self.safe self.new ≡ Self.safe self.old)
            × (Self.least self.new ≡ Self.least self.old)
            × (Self.head self.new ≡ Self.head self.old)) }
        ensures failed { IfErr result (λ fault. fault ≡ PutFault.Failed
            → LeavesEither (Self.head self.old) (Self.safe self.old) (Self.head self.new)
            (Self.safe self.new) (head.now ++ held.now)) };
}

/// A file in memory is a log with nothing in front of it.
impl HeadedLog for MemoryFile {
    ghost head = { λ f. Some [] };
}

/// A log that is lent: its owner has it back once the borrower is gone.
impl<F: HeadedLog> HeadedLog for &mut F {
    ghost head = { λ f. F.head f.now };
}

impl<F: ReplaceableLog> ReplaceableLog for &mut F {
    fn replace(&mut self, head: &[u8], held: &[u8]) -> Result<(), PutFault> {
        ReplaceableLog::replace(&mut **self, head, held)
    }
}
