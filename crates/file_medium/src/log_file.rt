//! What a medium asks of its file.

ghost use Rattle.std.specs.Prelude.{◌≡◌, ℕ, List, Option, IfOk, OnOk, OnErr};
ghost use Rattle.std.specs.Io.{ReadsAtMost, WritesAtMost};
ghost use Rattle.file_medium.specs.Files.{AddsTo, AreThere, CutsTo, KeepsFront, LowersTo, ReadsAt};

use thiserror::Error;

/// A call on a file failed.
#[derive(Clone, Copy, Debug, PartialEq, Eq, Error)]
#[error("file fault")]
pub struct FileFailed;

/// A file that is read, added to at its end, and cut.
///
/// A file is seen by three things: the bytes that it holds; of these the ones that are safe, which
/// is what a stop of the machine leaves, and maybe more behind it; and the fewest bytes that a cut
/// of it has left so far, so that a contract of many calls can say what no cut took at any moment
/// between them. Its law:
///
/// - a write adds a front of its piece at the end, and one that fails adds nothing;
/// - a cut drops the bytes behind a place, and one that fails changes nothing;
/// - a sync that goes well makes all bytes safe. After one that fails what was safe still is, and
///   nothing is known of the rest: the system may have dropped it, and tells so once;
/// - what is safe stays so in writes and syncs, and in front of a cut;
/// - a cut that goes well lowers the fewest bytes that one has left to what it left, where that is
///   less, and nothing else changes that number;
/// - nobody else writes to the file.
///
/// No contract can see the bytes of a file of the system, so each may be None: then each clause
/// holds, and tells nothing. What is proved over this trait is proved of every file that keeps the
/// law; that a file of the system does is a premise. Source: this project.
pub trait LogFile {
    /// The bytes that it holds, or None where they aren't known.
    ghost bytes: { Self → Option (List ℕ) };

    /// The bytes that a stop of the machine leaves, and maybe more behind them; or None where they
    /// aren't known.
    ghost safe: { Self → Option (List ℕ) };

    /// The fewest bytes that a cut has left so far, or None where that isn't known. Of a file that
    /// was never cut it is as many as it began with.
    ghost least: { Self → Option ℕ };

    /// One read of the bytes behind the first `at`. It gives none only at the end, or where there
    /// is no room. Nothing changes, also where it fails.
    fn read_at(&mut self, at: u64, buffer: &mut [u8]) -> Result<usize, FileFailed>
        ensures bound { ReadsAtMost result buffer.new }
        ensures read { IfOk result (λ n. ReadsAt (bytes self.old) at n buffer.new) }
        ensures bytes { bytes self.new ≡ bytes self.old }
        ensures safe { safe self.new ≡ safe self.old }
        ensures least { least self.new ≡ least self.old };

    /// One write behind all bytes: it takes a front of the piece, and tells how many bytes that
    /// are, which may be none. Where it fails it has added nothing. What is safe stays so, and what
    /// was added isn't yet.
    fn write(&mut self, piece: &[u8]) -> Result<usize, FileFailed>
        ensures bound { WritesAtMost result piece.now }
        ensures bytes { AddsTo (bytes self.old) (bytes self.new) result piece.now }
        ensures safe { safe self.new ≡ safe self.old }
        ensures least { least self.new ≡ least self.old };

    /// Drops the bytes behind the first `kept`, which may be at most as many as there are. Where it
    /// fails nothing changes. What was safe in front of the cut still is. The cut itself isn't safe
    /// before the next sync: a stop of the machine may leave what stood behind it.
    fn cut(&mut self, kept: u64) -> Result<(), FileFailed>
        requires within { AreThere kept (bytes self.old) }
        ensures bytes { CutsTo kept (bytes self.old) (bytes self.new) result }
        ensures safe { CutsTo kept (safe self.old) (safe self.new) result }
        ensures least { LowersTo kept (least self.old) (least self.new) result };

    /// Makes all bytes safe from a stop of the machine. What was safe still is, also where it fails;
    /// then nothing is known of the bytes any more.
    fn sync(&mut self) -> Result<(), FileFailed>
        ensures bytes { OnOk result (bytes self.new ≡ bytes self.old) }
        ensures ok { OnOk result (safe self.new ≡ bytes self.new) }
        ensures err { OnErr result (safe self.new ≡ safe self.old) }
        ensures kept { KeepsFront (safe self.old) (safe self.new) }
        ensures least { least self.new ≡ least self.old };
}

/// A file that is lent: its owner has it back once the borrower is gone.
impl<F: LogFile> LogFile for &mut F {
    ghost bytes = { λ f. F.bytes f.now };

    ghost safe = { λ f. F.safe f.now };

    ghost least = { λ f. F.least f.now };

    fn read_at(&mut self, at: u64, buffer: &mut [u8]) -> Result<usize, FileFailed> {
        LogFile::read_at(&mut **self, at, buffer)
    }

    fn write(&mut self, piece: &[u8]) -> Result<usize, FileFailed> {
        LogFile::write(&mut **self, piece)
    }

    fn cut(&mut self, kept: u64) -> Result<(), FileFailed> {
        LogFile::cut(&mut **self, kept)
    }

    fn sync(&mut self) -> Result<(), FileFailed> {
        LogFile::sync(&mut **self)
    }
}
