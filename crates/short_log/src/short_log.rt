//! What is asked of a log's file that can let go of its front.

ghost use Rattle.std.specs.Prelude.{◌≡◌, ◌⊎◌, Option, Some, length, IfErr, OnOk};
ghost use Rattle.file_medium.specs.Copies.{IsCopyOf};
ghost use Rattle.file_medium.specs.Files.{IsSpared};
ghost use Rattle.log_head.specs.declared.gone.Gone.{Gone as GoneValue};

use file_medium::LogFile;
use file_swap::PutFault;
use log_head::Gone;

/// A log's file that can let go of its front: another takes its place, with a head that tells what is
/// gone.
///
/// Its law, beside that of `LogFile`: the other log takes the place of this one whole and in one
/// moment, as `Replaceable` of `file_swap` tells it. Source: this project.
pub trait ShortLog: LogFile {
    /// What its head tells to be gone, or None where nothing was let go.
    ghost gone: { Self → Option GoneValue };

    /// Puts a log of these bytes, whose head tells this front to be gone, in the place of this one. At Ok
    /// the file is the new log, all of it is safe, and no cut has left fewer bytes. `Refused`: nothing has
    /// changed. `Failed`: a stop of the machine leaves what was safe, or the new log, whole; the file
    /// isn't to be used any more.
    fn replace(&mut self, front: &Gone, held: &[u8]) -> Result<(), PutFault>
        ensures bytes { OnOk result (IsCopyOf (Self.bytes self.new) held.now) }
        ensures safe { OnOk result (IsCopyOf (Self.safe self.new) held.now) }
        ensures least { OnOk result (IsSpared (length held.now) (Self.least self.new)) }
        ensures told { OnOk result (gone self.new ≡ Some front.now) }
        ensures refused { IfErr result (λ fault. fault ≡ PutFault.Refused
            → (Self.bytes self.new ≡ Self.bytes self.old)
            × (Self.safe self.new ≡ Self.safe self.old)
            × (Self.least self.new ≡ Self.least self.old)
            × (gone self.new ≡ gone self.old)) }
        ensures failed { IfErr result (λ fault. fault ≡ PutFault.Failed
            → (Self.safe self.new ≡ Self.safe self.old) ⊎ IsCopyOf (Self.safe self.new) held.now) };
}

/// A file that is lent: its owner has it back once the borrower is gone.
impl<F: ShortLog> ShortLog for &mut F {
    ghost gone = { λ f. F.gone f.now };

    fn replace(&mut self, front: &Gone, held: &[u8]) -> Result<(), PutFault> {
        ShortLog::replace(&mut **self, front, held)
    }
}
