//! What is asked of a file that another takes the place of.

ghost use Rattle.std.specs.Prelude.{◌≡◌, ◌⊎◌, [], ℕ, List, Option, IfErr, OnOk, option_map, length};
ghost use Rattle.std.specs.Io.{WritesAtMost};
ghost use Rattle.file_medium.specs.Copies.{IsCopyOf};
ghost use Rattle.file_medium.specs.Files.{AddsTo};

use file_medium::{FileFailed, LogFile};
use thiserror::Error;

/// Why a new file isn't known to be in the place of the old one.
#[derive(Clone, Copy, Debug, PartialEq, Eq, Error)]
pub enum PutFault {
    /// Nothing has changed.
    #[error("the new file was refused")]
    Refused,
    /// It isn't known which of them is there. Each is whole.
    #[error("it isn't known which file is there")]
    Failed,
}

/// A file beside which a new one can be written, and put in its place.
///
/// Its law, beside that of `LogFile`: while the new file is begun, written and synced the file
/// itself stays as it is, also where such a call fails. Once all of the new file is safe it takes
/// the place of the old one in one moment: a stop of the machine finds the one or the other, each
/// whole, and from the end of a call that went well on the new one. As with `LogFile`, what isn't
/// known is None, and that a file of the system keeps the law is a premise: a file that is put in
/// the place of another by a rename, in a folder that is then synced, is there after a stop of the
/// machine, and before that either is. Source: this project.
pub trait Replaceable: LogFile {
    /// What the new file holds, or None where that isn't known.
    ghost beside: { Self → Option (List ℕ) };

    /// What a stop of the machine leaves of the new file, or None where that isn't known.
    ghost beside_safe: { Self → Option (List ℕ) };

    /// Begins a new file, with nothing in it, in place of one that was begun before.
    fn begin_beside(&mut self) -> Result<(), FileFailed>
        ensures none { OnOk result (IsCopyOf (beside self.new) []) }
        ensures bytes { Self.bytes self.new ≡ Self.bytes self.old }
        ensures safe { Self.safe self.new ≡ Self.safe self.old }
        ensures least { Self.least self.new ≡ Self.least self.old };

    /// One write behind all bytes of the new file: it takes a front of the piece, and tells how many
    /// bytes that are, which may be none. Where it fails it has added nothing.
    fn write_beside(&mut self, piece: &[u8]) -> Result<usize, FileFailed>
        ensures bound { WritesAtMost result piece.now }
        ensures added { AddsTo (beside self.old) (beside self.new) result piece.now }
        ensures bytes { Self.bytes self.new ≡ Self.bytes self.old }
        ensures safe { Self.safe self.new ≡ Self.safe self.old }
        ensures least { Self.least self.new ≡ Self.least self.old };

    /// Makes all bytes of the new file safe from a stop of the machine. Where it fails nothing is
    /// known of the new file any more.
    fn sync_beside(&mut self) -> Result<(), FileFailed>
        ensures same { OnOk result (beside self.new ≡ beside self.old) }
        ensures ok { OnOk result (beside_safe self.new ≡ beside self.new) }
        ensures bytes { Self.bytes self.new ≡ Self.bytes self.old }
        ensures safe { Self.safe self.new ≡ Self.safe self.old }
        ensures least { Self.least self.new ≡ Self.least self.old };

    /// Puts the new file, all of which is safe, in the place of the file. At Ok the file is the new
    /// one, and a stop of the machine leaves that; no cut of it was made. `Refused`: nothing has
    /// changed. `Failed`: a stop of the machine leaves what was safe, or the new file, whole;
    /// nothing is known of the bytes any more.
    fn put_in_place(&mut self) -> Result<(), PutFault>
        requires safe { beside_safe self.old ≡ beside self.old }
        ensures ok { OnOk result ((Self.bytes self.new ≡ beside self.old)
            × (Self.safe self.new ≡ beside self.old)
            × (Self.least self.new ≡ option_map (λ held. length held) (beside self.old))) }
        ensures refused { IfErr result (λ fault. fault ≡ PutFault.Refused
            → (Self.bytes self.new ≡ Self.bytes self.old)
            × (Self.safe self.new ≡ Self.safe self.old)
            × (Self.least self.new ≡ Self.least self.old)) }
        ensures failed { IfErr result (λ fault. fault ≡ PutFault.Failed
            → (Self.safe self.new ≡ Self.safe self.old)
            ⊎ (Self.safe self.new ≡ beside self.old)) };
}

/// A file that is lent: its owner has it back once the borrower is gone.
impl<F: Replaceable> Replaceable for &mut F {
    ghost beside = { λ f. F.beside f.now };

    ghost beside_safe = { λ f. F.beside_safe f.now };

    fn begin_beside(&mut self) -> Result<(), FileFailed> {
        Replaceable::begin_beside(&mut **self)
    }

    fn write_beside(&mut self, piece: &[u8]) -> Result<usize, FileFailed> {
        Replaceable::write_beside(&mut **self, piece)
    }

    fn sync_beside(&mut self) -> Result<(), FileFailed> {
        Replaceable::sync_beside(&mut **self)
    }

    fn put_in_place(&mut self) -> Result<(), PutFault> {
        Replaceable::put_in_place(&mut **self)
    }
}
