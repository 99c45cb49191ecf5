//! The medium over a file.

ghost use Rattle.std.specs.Prelude.{◌≡◌, ◌<◌, ◌≤◌, ◌-◌, ◌+◌, ◌^◌, ◌++◌, ℕ, None, false, true, length, take, vec_len, IfOk, IfErr, OnOk, OnErr};
ghost use Rattle.kept_records.specs.Medium.{Counts, CountsRead, IsCutShort, last_bytes};
ghost use Rattle.file_medium.specs.Copies.{IsCopyOf, IsSafeAtOnce, IsSafeCopy, IsTrueCopy, MayNotAnswer, StaysSound};
ghost use Rattle.file_medium.specs.Files.{KeepsFront, SparesFront, cut_known};

use crate::copying::{holds, new_piece, read_whole, write_front};
use crate::log_file::{FileFailed, LogFile};
use kept_records::{Device, End, Medium, MediumFault};
use std::alloc::{AllocError, Global};
use std::marker::Model;

/// When what a medium was given is safe from a stop of the machine. A stop of the process alone
/// loses nothing either way.
#[derive(Clone, Copy, Debug, PartialEq, Eq)]
pub enum Durability {
    /// Before each append and each cut answers: the file is synced then.
    EachAppend,
    /// Once the caller has called `sync`, which it does before it tells anyone of what depends on
    /// it: so one sync serves many appends.
    Caller,
}

/// A medium whose bytes are a copy in memory of what a file holds. Each change is made in the file
/// first: the copy is what the file holds, unless a sync has failed. After a sync that failed,
/// which is never forgotten, each call fails: the system may have dropped what wasn't safe, and
/// tells so once. What the file then has is seen by who opens it anew.
///
/// A read answers the copy, and only after a look at the file: where it isn't the same any more,
/// which a file that keeps its law never shows, the device has failed. A write that fails, or takes
/// only a part of the piece, is the medium's fault of an append: the copy has what the file took.
///
/// No call cuts the file but `cut`, and that only behind the bytes that it is to keep: whichever call
/// fails, and whether a sync has failed before or not, what was safe stays so, in front of such a cut.
///
/// No mishap is foretold. A count of failures that is at the greatest `u64`, which no run reaches,
/// can't rise: from there on no call of `Medium` fails, and what is changed is the copy alone, as
/// if a sync had failed.
///
/// Contracts see the bytes, how many can be added without memory, the count of failures, whether a
/// sync has failed, the durability, and what the file holds, what of it is safe, and the fewest bytes
/// that a cut of it has left, where it tells so. It costs memory for the bytes, and 64 KiB to look at the file. An append costs one write and
/// its copy, where the file takes all at once, a cut one call of the file, and one sync each, by
/// the durability. `read_all` and `read_end` read as many bytes of the file as they answer.
/// Source: this project.
#[derive(Drop)]
pub struct FileMedium<F: LogFile> {
    file: F,
    held: Vec<u8>,
    failures: u64,
    lost: bool,
    durability: Durability,
    // A piece of the file, to be compared with the copy; its memory is used again.
    piece: Vec<u8>,
}

impl<F: LogFile> Model for FileMedium<F> {
    ghost use Rattle.std.specs.Prelude.{◌-◌, vec_capacity, vec_len};
    ghost use Rattle.file_medium.specs.Copies.{FileCopy, IsSoundCopy};

    ghost Value = { FileCopy };

    ghost view = { λ m. record {
      bytes = m.held.items;
      room = vec_capacity m.held - vec_len m.held;
      failures = m.failures;
      lost = m.lost;
      durability = m.durability;
      file = F.bytes m.file;
      safe = F.safe m.file;
      least = F.least m.file;
    } };

    ghost invariant = { λ m. IsSoundCopy m.durability m.lost (F.bytes m.file) (F.safe m.file)
        m.held.items (vec_len m.piece) };
}

/// Syncs the file, where each append is to be safe at once, and tells whether that went well.
fn make_safe<F: LogFile>(file: &mut F, durability: Durability) -> bool
    ensures bytes { result ≡ true → F.bytes file.new ≡ F.bytes file.old }
    ensures safe { result ≡ true → durability ≡ Durability.EachAppend
        → F.safe file.new ≡ F.bytes file.new }
    ensures kept { KeepsFront (F.safe file.old) (F.safe file.new) }
    ensures least { F.least file.new ≡ F.least file.old }
{
    match durability {
        Durability::EachAppend => file.sync().is_ok(),
        Durability::Caller => true,
    }
}

/// What a file holds, and memory for a piece of it.
struct Copied {
    held: Vec<u8>,
    piece: Vec<u8>,
}

/// Syncs a file and reads it whole.
fn copy_synced<F: LogFile>(alloc: Global, file: &mut F) -> Result<Copied, MediumFault>
    ensures copy { IfOk result (λ copied. IsCopyOf (F.bytes file.old) copied.held.items) }
    ensures piece { IfOk result (λ copied. 0 < vec_len copied.piece) }
    ensures bytes { OnOk result (F.bytes file.new ≡ F.bytes file.old) }
    ensures safe { OnOk result (F.safe file.new ≡ F.bytes file.old) }
    ensures kept { KeepsFront (F.safe file.old) (F.safe file.new) }
    ensures least { F.least file.new ≡ F.least file.old }
{
    match file.sync() {
        Ok(()) => {}
        Err(FileFailed) => return Err(MediumFault::Device),
    }
    let held = read_whole(alloc, file)?;
    let piece = new_piece(alloc)?;
    Ok(Copied { held, piece })
}

impl<F: LogFile> FileMedium<F> {
    /// A medium that holds what the file holds, which is synced, so that all of it is safe, and
    /// read whole. `Device`: the sync or a read failed. `NoMemory`: memory is wanting. With either
    /// the file is handed back: it wasn't cut, and what was safe still is. Costs memory for the bytes.
    pub fn new(
        alloc: Global,
        file: F,
        durability: Durability,
    ) -> Result<FileMedium<F>, (MediumFault, F)>
        ensures copy { IfOk result (λ medium. IsCopyOf (F.bytes file) medium.bytes) }
        ensures file { IfOk result (λ medium. medium.file ≡ F.bytes file) }
        ensures safe { IfOk result (λ medium. medium.safe ≡ F.bytes file) }
        ensures kept { IfOk result (λ medium. KeepsFront (F.safe file) medium.safe) }
        ensures least { IfOk result (λ medium. medium.least ≡ F.least file) }
        ensures sound { IfOk result (λ medium. medium.lost ≡ false) }
        ensures failures { IfOk result (λ medium. medium.failures ≡ 0) }
        ensures durability { IfOk result (λ medium. medium.durability ≡ durability) }
        ensures handed_back { IfErr result (λ refused. KeepsFront (F.safe file)
            (F.safe refused.1)) }
        ensures not_cut { IfErr result (λ refused. F.least refused.1 ≡ F.least file) }
    {
        let mut file = file;
        match copy_synced(alloc, &mut file) {
            Ok(Copied { held, piece }) => Ok(FileMedium {
                file,
                held,
                failures: 0,
                lost: false,
                durability,
                piece,
            }),
            Err(fault) => Err((fault, file)),
        }
    }

    /// Makes all that it holds safe from a stop of the machine, by one sync of the file. `Device`:
    /// the sync failed, or one did before. Then what was safe still is, and each later call fails.
    /// Bytes, room and the count of failures stay in either case: that count is of the calls of
    /// `Medium` alone. Costs no memory.
    pub fn sync(&mut self) -> Result<(), Device>
        ensures ok { OnOk result (self.new ≡ record self.old { safe = self.old.file }) }
        ensures all { OnOk result (IsCopyOf self.new.safe self.new.bytes) }
        ensures sound { OnOk result (self.old.lost ≡ false) }
        ensures err { OnErr result
            (self.new ≡ record self.old { lost = true; file = self.new.file }) }
        ensures kept { KeepsFront self.old.safe self.new.safe }
    {
        if self.lost {
            return Err(Device);
        }
        match self.file.sync() {
            Ok(()) => Ok(()),
            Err(FileFailed) => {
                self.lost = true;
                Err(Device)
            }
        }
    }

    /// Whether a sync has failed. Where none has, the bytes are those of the file, and where each
    /// append is to be safe at once they are safe. Costs no memory.
    pub fn is_lost(&self) -> bool
        ensures value { result ≡ self.now.lost }
        ensures copy { IsTrueCopy result self.now.file self.now.bytes }
        ensures safe { IsSafeCopy self.now.durability result self.now.safe self.now.bytes }
    {
        self.lost
    }

    /// The file. Costs no memory.
    pub fn file(&self) -> &F
        ensures bytes { F.bytes result.now ≡ self.now.file }
        ensures safe { F.safe result.now ≡ self.now.safe }
        ensures least { F.least result.now ≡ self.now.least }
    {
        &self.file
    }

    /// Whether a call fails that can't be carried out.
    fn may_fail(&self) -> bool
        ensures yes { result ≡ true → self.now.failures < 2 ^ 64 - 1 }
        ensures no { result ≡ false → 2 ^ 64 - 1 ≤ self.now.failures }
    {
        self.failures < u64::MAX
    }

    /// Whether the file still holds the last bytes of the copy, and no more, and none was lost.
    fn agrees(&mut self, most: usize) -> bool
        ensures same { self.new ≡ self.old }
        ensures lost { self.old.lost ≡ true → result ≡ false }
    {
        let start = self.held.len().saturating_sub(most);
        !self.lost
            && holds(
                &mut self.file,
                &mut self.piece,
                start as u64,
                &self.held[start..],
            )
    }

    /// Whether a read answers: the file agrees, or no call fails any more.
    fn may_answer(&mut self, most: usize) -> bool
        ensures same { self.new ≡ self.old }
        ensures no { result ≡ false → self.old.failures < 2 ^ 64 - 1 }
        ensures lost { self.old.lost ≡ true → self.old.failures < 2 ^ 64 - 1 → result ≡ false }
    {
        self.agrees(most) || !self.may_fail()
    }

    /// Notes that a call failed.
    fn fail(&mut self) -> Device
        requires { self.old.failures < 2 ^ 64 - 1 }
        ensures { self.new ≡ record self.old { failures = self.old.failures + 1 } }
    {
        self.failures += 1;
        Device
    }

    /// Adds as much of the piece to the file as it takes, and the same to the copy, and tells
    /// whether that was all, and is safe where each append is to be.
    fn add(&mut self, piece: &[u8]) -> bool
        requires room { length piece.now ≤ self.old.room }
        ensures all { result ≡ true → self.new.bytes ≡ self.old.bytes ++ piece.now }
        ensures safe { result ≡ true → IsSafeAtOnce self.old self.new }
        ensures front { (kept : ℕ) × (self.new.bytes ≡ self.old.bytes ++ take kept piece.now) }
        ensures failures { self.new.failures ≡ self.old.failures }
        ensures lost { self.old.lost ≡ true → result ≡ false }
        ensures sticky { self.old.lost ≡ true → self.new.lost ≡ true }
        ensures sound { result ≡ true → self.new.lost ≡ false }
        ensures durability { self.new.durability ≡ self.old.durability }
        ensures kept { KeepsFront self.old.safe self.new.safe }
        ensures least { self.new.least ≡ self.old.least }
    {
        if self.lost {
            return false;
        }
        let written = write_front(&mut self.file, piece);
        let safe = make_safe(&mut self.file, self.durability);
        self.held.extend_from_slice(&piece[..written]).unwrap();
        if !safe {
            self.lost = true;
        }
        safe && written == piece.len()
    }

    /// Cuts the file and the copy, and makes that safe where each append is to be. Where it doesn't
    /// go well the copy stays.
    fn cut_both(&mut self, kept: usize) -> bool
        requires within { kept ≤ length self.old.bytes }
        ensures cut { result ≡ true → self.new.bytes ≡ take kept self.old.bytes }
        ensures safe { result ≡ true → IsSafeAtOnce self.old self.new }
        ensures not_cut { result ≡ false → self.new.bytes ≡ self.old.bytes }
        ensures room { self.old.room ≤ self.new.room }
        ensures failures { self.new.failures ≡ self.old.failures }
        ensures lost { self.old.lost ≡ true → result ≡ false }
        ensures sticky { self.old.lost ≡ true → self.new.lost ≡ true }
        ensures sound { result ≡ true → self.new.lost ≡ false }
        ensures durability { self.new.durability ≡ self.old.durability }
        ensures kept { KeepsFront (cut_known kept self.old.safe) self.new.safe }
        ensures least { SparesFront kept self.old.least self.new.least }
    {
        if self.lost {
            return false;
        }
        match self.file.cut(kept as u64) {
            Ok(()) => {
                if make_safe(&mut self.file, self.durability) {
                    self.held.truncate(kept);
                    true
                } else {
                    self.lost = true;
                    false
                }
            }
            Err(FileFailed) => false,
        }
    }

    /// Adds the piece to the copy alone.
    fn pretend(&mut self, piece: &[u8])
        requires room { length piece.now ≤ self.old.room }
        ensures bytes { self.new.bytes ≡ self.old.bytes ++ piece.now }
        ensures lost { self.new.lost ≡ true }
        ensures durability { self.new.durability ≡ self.old.durability }
        ensures failures { self.new.failures ≡ self.old.failures }
        ensures safe { self.new.safe ≡ self.old.safe }
        ensures least { self.new.least ≡ self.old.least }
    {
        self.lost = true;
        self.held.extend_from_slice(piece).unwrap();
    }
}

impl<F: LogFile> Medium for FileMedium<F> {
    ghost bytes = { λ m. m.bytes };

    ghost room = { λ m. m.room };

    ghost failed = { λ m. m.failures };

    ghost foretold = { λ m. None };

    fn read_all(&mut self, alloc: Global) -> Result<Vec<u8>, MediumFault>
        ensures read { IfOk result (λ read. read.items ≡ self.old.bytes) }
        ensures same { self.new ≡ record self.old { failures = self.new.failures } }
        ensures failed { CountsRead result self.old.failures self.new.failures }
        ensures lost { MayNotAnswer self.old result }
    {
        let whole = self.held.len();
        if !self.may_answer(whole) {
            self.fail();
            return Err(MediumFault::Device);
        }
        Vec::from_slice(alloc, &self.held).map_err(|_| MediumFault::NoMemory)
    }

    fn read_end(&mut self, alloc: Global, most: usize) -> Result<End, MediumFault>
        ensures read { IfOk result (λ end. end.bytes.items ≡ last_bytes most self.old.bytes) }
        ensures length { IfOk result (λ end. end.length ≡ length self.old.bytes) }
        ensures same { self.new ≡ record self.old { failures = self.new.failures } }
        ensures failed { CountsRead result self.old.failures self.new.failures }
        ensures lost { MayNotAnswer self.old result }
    {
        if !self.may_answer(most) {
            self.fail();
            return Err(MediumFault::Device);
        }
        let start = self.held.len().saturating_sub(most);
        let bytes = Vec::from_slice(alloc, &self.held[start..]).map_err(|_| MediumFault::NoMemory)?;
        Ok(End {
            bytes,
            length: self.held.len(),
        })
    }

    fn reserve(&mut self, additional: usize) -> Result<(), AllocError>
        ensures ok { OnOk result (additional ≤ self.new.room) }
        ensures room { self.old.room ≤ self.new.room }
        ensures same { self.new ≡ record self.old { room = self.new.room } }
    {
        self.held.reserve(additional)
    }

    fn append(&mut self, piece: &[u8]) -> Result<(), Device>
        requires room { length piece.now ≤ self.old.room }
        ensures ok { OnOk result (self.new.bytes ≡ self.old.bytes ++ piece.now) }
        ensures safe { OnOk result (IsSafeAtOnce self.old self.new) }
        ensures err { OnErr result (IsCutShort self.old.bytes piece.now self.new.bytes) }
        ensures failed { Counts result self.old.failures self.new.failures }
        ensures lost { MayNotAnswer self.old result }
        ensures sticky { self.old.lost ≡ true → self.new.lost ≡ true }
        ensures sound { OnOk result (StaysSound self.old self.new) }
        ensures durability { self.new.durability ≡ self.old.durability }
        ensures kept { KeepsFront self.old.safe self.new.safe }
        ensures least { self.new.least ≡ self.old.least }
    {
        if !self.may_fail() {
            self.pretend(piece);
            return Ok(());
        }
        if self.add(piece) {
            Ok(())
        } else {
            Err(self.fail())
        }
    }

    fn cut(&mut self, kept: usize) -> Result<(), Device>
        requires within { kept ≤ length self.old.bytes }
        ensures ok { OnOk result (self.new.bytes ≡ take kept self.old.bytes) }
        ensures safe { OnOk result (IsSafeAtOnce self.old self.new) }
        ensures err { OnErr result (self.new.bytes ≡ self.old.bytes) }
        ensures room { self.old.room ≤ self.new.room }
        ensures failed { Counts result self.old.failures self.new.failures }
        ensures lost { MayNotAnswer self.old result }
        ensures sticky { self.old.lost ≡ true → self.new.lost ≡ true }
        ensures sound { OnOk result (StaysSound self.old self.new) }
        ensures durability { self.new.durability ≡ self.old.durability }
        ensures kept { KeepsFront (cut_known kept self.old.safe) self.new.safe }
        ensures least { SparesFront kept self.old.least self.new.least }
    {
        if !self.may_fail() {
            self.lost = true;
            self.held.truncate(kept);
            return Ok(());
        }
        if !self.cut_both(kept) {
            return Err(self.fail());
        }
        Ok(())
    }

    fn failures(&self) -> u64 {
        self.failures
    }
}
