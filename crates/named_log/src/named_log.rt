//! The log behind a name.

ghost use Rattle.std.specs.Prelude.{◌≡◌, ◌++◌, false, true, length, Err, IfOk, IfErr, IsErr, OnOk, OnErr};
ghost use Rattle.std.specs.Io.{ReadsAtMost, WritesAtMost};
ghost use Rattle.std.specs.Io.KnownBytes.{Keeps};
ghost use Rattle.file_medium.specs.Copies.{IsCopyOf};
ghost use Rattle.file_medium.specs.Files.{AddsTo, AreThere, CutsTo, IsSpared, KeepsFront, LowersTo, ReadsAt, cut_known};
ghost use Rattle.named_log.specs.Names.{BeginsWith, IsInDoubt, IsNot, Opens, behind, count_behind};
ghost use Rattle.named_log.specs.declared.named_log.NameFault.TheVariants.{Device};

use crate::naming::starts_with;
use file_medium::{FileFailed, LogFile};
use file_swap::{HeadedLog, PutFault, Replaceable, ReplaceableLog, put_anew};
use std::marker::Model;
use thiserror::Error;

/// Why a file isn't opened as the log of a name.
#[derive(Clone, Copy, Debug, Drop, PartialEq, Eq, Error)]
pub enum NameFault {
    /// The file begins with other bytes: it is another's log, or none.
    #[error("another name")]
    Other,
    /// A call of the file failed.
    #[error("file fault")]
    Device,
}

impl From<FileFailed> for NameFault {
    ghost from_gives = { λ _ fault. fault ≡ Device };

    fn from(_failed: FileFailed) -> NameFault {
        NameFault::Device
    }
}

/// A file that begins with a name, as a file that holds what stands behind the name. It keeps the
/// law of `LogFile` wherever the file does, and so no call of it changes the name.
///
/// A sync that failed is never forgotten: nothing is known of the file's bytes then, so each later
/// write, cut and sync fails. So too where it isn't known whether another file has taken its place.
///
/// Contracts see the bytes behind the name, those of them that are safe, and the fewest that a cut has
/// left, where they are known; whether a sync has failed, or such a put; and the name, as it stands
/// safe in front of them. A call costs one of the file, and no memory. Source: this project.
#[derive(Drop)]
pub struct NamedLog<F: LogFile> {
    file: F,
    // How many bytes the name has.
    name: u64,
    lost: bool,
}

impl<F: LogFile> Model for NamedLog<F> {
    ghost use Rattle.named_log.specs.Names.{LogBehind, behind, count_behind, HasName};
    ghost use Rattle.file_medium.specs.Files.{cut_known};

    ghost Value = { LogBehind };

    ghost view = { λ l. record {
      bytes = behind l.name (F.bytes l.file);
      safe = behind l.name (F.safe l.file);
      least = count_behind l.name (F.least l.file);
      lost = l.lost;
      name_size = l.name;
      name = cut_known l.name (F.safe l.file);
    } };

    ghost invariant = { λ l. HasName l.name l.lost (F.bytes l.file) (F.safe l.file) };
}

/// Syncs a file, and refuses one that begins otherwise.
fn check_name<F: LogFile>(file: &mut F, name: &[u8]) -> Result<(), NameFault>
    ensures begins { OnOk result (BeginsWith (F.bytes file.old) name.now) }
    ensures safe { OnOk result (F.safe file.new ≡ F.bytes file.new) }
    ensures bytes { OnOk result (F.bytes file.new ≡ F.bytes file.old) }
    ensures other { IfErr result (λ fault. fault ≡ NameFault.Other
        → IsNot (F.bytes file.old) name.now) }
    ensures untouched { IfErr result (λ fault. fault ≡ NameFault.Other
        → F.bytes file.new ≡ F.bytes file.old) }
    ensures kept { KeepsFront (F.safe file.old) (F.safe file.new) }
    ensures least { F.least file.new ≡ F.least file.old }
{
    file.sync()?;
    if !starts_with(file, name)? {
        return Err(NameFault::Other);
    }
    Ok(())
}

impl<F: LogFile> NamedLog<F> {
    /// The log in a file that begins with this name. The file is synced first, so that all of it is
    /// safe. The faults are `Other`, where it begins with other bytes, and `Device`, where a call of
    /// it failed. With either the file is handed back: nothing was written to it or cut from it, and
    /// what was safe still is. Costs a sync and the reads of the name, and no memory.
    pub fn open(file: F, name: &[u8]) -> Result<NamedLog<F>, (NameFault, F)>
        ensures ok { IfOk result (Opens (F.bytes file) name.now) }
        ensures kept { IfOk result (λ log. KeepsFront (behind (length name.now) (F.safe file))
            log.safe) }
        ensures least { IfOk result (λ log. log.least
            ≡ count_behind (length name.now) (F.least file)) }
        ensures err { IfErr result (λ refused. refused.0 ≡ NameFault.Other
            → IsNot (F.bytes file) name.now) }
        ensures untouched { IfErr result (λ refused. refused.0 ≡ NameFault.Other
            → F.bytes refused.1 ≡ F.bytes file) }
        ensures handed_back { IfErr result (λ refused. KeepsFront (F.safe file)
            (F.safe refused.1)) }
        ensures not_cut { IfErr result (λ refused. F.least refused.1 ≡ F.least file) }
    {
        let mut file = file;
        match check_name(&mut file, name) {
            Ok(()) => Ok(NamedLog {
                file,
                name: name.len() as u64,
                lost: false,
            }),
            Err(fault) => Err((fault, file)),
        }
    }

    /// The file, with the name in front of what the log was. Costs no memory.
    pub fn into_file(self) -> F
        ensures bytes { behind self.name_size (F.bytes result) ≡ self.bytes }
        ensures safe { behind self.name_size (F.safe result) ≡ self.safe }
        ensures least { count_behind self.name_size (F.least result) ≡ self.least }
        ensures name { cut_known self.name_size (F.safe result) ≡ self.name }
    {
        self.file
    }
}

impl<F: LogFile> HeadedLog for NamedLog<F> {
    ghost head = { λ l. l.name };
}

impl<F: Replaceable> ReplaceableLog for NamedLog<F> {
    fn replace(&mut self, head: &[u8], held: &[u8]) -> Result<(), PutFault> {
        NamedLog::replace(self, head, held)
    }
}

impl<F: Replaceable> NamedLog<F> {
    /// Puts a new file in the place of the file: it begins with this name, and these bytes are its log.
    /// At Ok that is the log, all of it safe, and a stop of the machine leaves it. `Refused`, as it is
    /// always where a sync has failed before: the log is as it was. `Failed`: a stop of the machine
    /// leaves what was safe of the old file, or the new one, whole, and the log is lost: from there on
    /// each write, cut and sync fails. Costs a write of the name and the bytes, two syncs, and no
    /// memory.
    pub fn replace(&mut self, name: &[u8], held: &[u8]) -> Result<(), PutFault>
        ensures bytes { OnOk result (IsCopyOf self.new.bytes held.now) }
        ensures safe { OnOk result (IsCopyOf self.new.safe held.now) }
        ensures all_safe { OnOk result (self.new.safe ≡ self.new.bytes) }
        ensures name { OnOk result (IsCopyOf self.new.name name.now) }
        ensures size { OnOk result (self.new.name_size ≡ length name.now) }
        ensures least { OnOk result (IsSpared (length held.now) self.new.least) }
        ensures sound { OnOk result (self.new.lost ≡ false) }
        ensures refused { IfErr result (λ fault. fault ≡ PutFault.Refused → self.new ≡ self.old) }
        ensures failed { IfErr result (λ fault. fault ≡ PutFault.Failed
            → IsInDoubt self.old self.new (name.now ++ held.now)) }
        ensures lost { self.old.lost ≡ true → result ≡ Err PutFault.Refused }
    {
        if !self.lost {
            return self.put(name, held);
        }
        Err(PutFault::Refused)
    }

    // The same of a log that isn't lost.
    fn put(&mut self, name: &[u8], held: &[u8]) -> Result<(), PutFault>
        requires sound { self.old.lost ≡ false }
        ensures bytes { OnOk result (IsCopyOf self.new.bytes held.now) }
        ensures safe { OnOk result (IsCopyOf self.new.safe held.now) }
        ensures all_safe { OnOk result (self.new.safe ≡ self.new.bytes) }
        ensures name { OnOk result (IsCopyOf self.new.name name.now) }
        ensures size { OnOk result (self.new.name_size ≡ length name.now) }
        ensures least { OnOk result (IsSpared (length held.now) self.new.least) }
        ensures sound { OnOk result (self.new.lost ≡ false) }
        ensures refused { IfErr result (λ fault. fault ≡ PutFault.Refused → self.new ≡ self.old) }
        ensures failed { IfErr result (λ fault. fault ≡ PutFault.Failed
            → IsInDoubt self.old self.new (name.now ++ held.now)) }
    {
        match put_anew(&mut self.file, name, held) {
            Ok(()) => {
                self.name = name.len() as u64;
                Ok(())
            }
            Err(PutFault::Refused) => Err(PutFault::Refused),
            Err(PutFault::Failed) => {
                self.lost = true;
                Err(PutFault::Failed)
            }
        }
    }
}

impl<F: LogFile> LogFile for NamedLog<F> {
    ghost bytes = { λ l. l.bytes };

    ghost safe = { λ l. l.safe };

    ghost least = { λ l. l.least };

    fn read_at(&mut self, at: u64, buffer: &mut [u8]) -> Result<usize, FileFailed>
        ensures bound { ReadsAtMost result buffer.new }
        ensures read { IfOk result (λ n. ReadsAt self.old.bytes at n buffer.new) }
        ensures same { self.new ≡ self.old }
    {
        match self.name.checked_add(at) {
            Some(place) => self.file.read_at(place, buffer),
            None => Err(FileFailed),
        }
    }

    /// One write behind all bytes. Fails where a call of the file does, or a sync has failed before.
    fn write(&mut self, piece: &[u8]) -> Result<usize, FileFailed>
        ensures bound { WritesAtMost result piece.now }
        ensures bytes { AddsTo self.old.bytes self.new.bytes result piece.now }
        ensures same { self.new ≡ record self.old { bytes = self.new.bytes } }
        ensures lost { self.old.lost ≡ true → IsErr result }
    {
        if self.lost {
            return Err(FileFailed);
        }
        self.file.write(piece)
    }

    /// Drops the bytes behind the first `kept` behind the name. Fails where a call of the file does, or
    /// a sync has failed before.
    fn cut(&mut self, kept: u64) -> Result<(), FileFailed>
        requires within { AreThere kept self.old.bytes }
        ensures bytes { CutsTo kept self.old.bytes self.new.bytes result }
        ensures safe { CutsTo kept self.old.safe self.new.safe result }
        ensures least { LowersTo kept self.old.least self.new.least result }
        ensures same { self.new ≡ record self.old {
          bytes = self.new.bytes;
          safe = self.new.safe;
          least = self.new.least;
        } }
        ensures lost { self.old.lost ≡ true → IsErr result }
    {
        match self.name.checked_add(kept) {
            Some(place) if !self.lost => self.file.cut(place),
            _ => Err(FileFailed),
        }
    }

    /// Makes all bytes safe. Where it fails the log is lost: from there on each write, cut and sync
    /// fails.
    fn sync(&mut self) -> Result<(), FileFailed>
        ensures ok { OnOk result (self.new ≡ record self.old {
          safe = self.old.bytes;
          name = self.new.name;
        }) }
        ensures sound { OnOk result (self.old.lost ≡ false) }
        ensures kept { KeepsFront self.old.safe self.new.safe }
        ensures name { Keeps self.old.name self.new.name }
        ensures err { OnErr result (self.new ≡ record self.old {
          bytes = self.new.bytes;
          lost = true;
        }) }
        ensures lost { self.old.lost ≡ true → self.new ≡ self.old }
    {
        if self.lost || self.file.sync().is_err() {
            self.lost = true;
            return Err(FileFailed);
        }
        Ok(())
    }
}
