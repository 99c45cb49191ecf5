//! The log of a site's folder.

ghost use Rattle.std.specs.Prelude.{◌≡◌, ◌++◌, ◌⊎◌, [], Some, false, true, length, Err, IfOk, IfErr, OnOk, OnErr, option_map};
ghost use Rattle.std.specs.Io.{ReadsAtMost, WritesAtMost};
ghost use Rattle.std.specs.Io.KnownBytes.{append_known};
ghost use Rattle.file_medium.specs.Copies.{IsCopyOf};
ghost use Rattle.file_medium.specs.Files.{AddsTo, CutsTo, IsSpared, KeepsFront, LowersTo, ReadsAt};
ghost use Rattle.file_swap.specs.Heads.{joined};
ghost use Rattle.sealed_text.specs.Seals.{IsBatch, IsRecords, end_batch, sealed_batch};
ghost use Rattle.sealed_log.specs.Sealed.{IsLengthOf};
ghost use Rattle.log_head.specs.Heads.{shortened_name};
ghost use Rattle.short_files.specs.Short.{IsInDoubt, IsKept, IsOfHead, OpensShort, Refuses, safe_of};

use crate::copying::copy_gone;
use crate::fault::{ShortFault, of_seal};
use crate::finding::{FoundHead, find_head};
use file_medium::{FileFailed, LogFile};
use file_swap::{PutFault, Replaceable};
use log_head::{Gone, write_head};
use named_log::NamedLog;
use sealed_log::SealedLog;
use short_log::ShortLog;
use site_folder::Identity;
use std::alloc::Global;
use std::marker::Model;

/// The log of a site's folder, of version 2 or 3: batches that sums close, behind a head that tells whose
/// log it is, and in version 3 what was let go of its front. It keeps the law of `LogFile` wherever the
/// file does, and that of `ShortLog` where another can take the place of the file: from there on it is
/// of version 3.
///
/// Contracts see the batches, as `SealedLog` shows them; the site; what is gone, where something is; and
/// whether it isn't known which of two files is there, since one was put in the place of the other and
/// that failed. Then nothing is told of what is safe of the log, though the file's own bytes are told;
/// and it is lost: each later call fails. A log of version 1 isn't opened: its records are in no batches.
/// Costs what `SealedLog` does. Source: this project.
#[derive(Drop)]
pub struct ShortFile<'a, F: LogFile> {
    alloc: Global,
    log: SealedLog<NamedLog<F>>,
    identity: &'a Identity,
    gone: Option<Gone>,
    in_doubt: bool,
}

impl<'a, F: LogFile> Model for ShortFile<'a, F> {
    ghost use Rattle.short_files.specs.Short.{ShortValue, IsSound};

    ghost Value = { ShortValue };

    ghost view = { λ f. record {
      log = f.log;
      identity = f.identity.now;
      gone = f.gone;
      in_doubt = f.in_doubt;
    } };

    ghost invariant = { λ f. IsSound f.in_doubt f.log };
}

impl<'a, F: LogFile> ShortFile<'a, F> {
    /// The log of a site in a file: of version 2 or 3, as `sealed_log_name` and `write_head` spell its
    /// head. The file is synced, so that all of it is safe, and read; what a stop has left behind the
    /// closed batches is cut off, and that is synced too.
    ///
    /// The faults: `Other`, `Changed` and `Plain`, as `read_head` tells heads apart: then nothing was
    /// done to the file but that it was read. `Damaged` and `Ended`, as `SealedLog::open` tells them.
    /// `Device`, where a call of the file failed, or it isn't what it was read to be. `NoMemory`, where
    /// memory is wanting, can come in place of any answer. With each the file is handed back: what was
    /// safe of it still is, or the batches that sums close in what it held. Costs one or two syncs, a
    /// read of the file, two passes over it, and memory for it twice, of which that for the records is
    /// kept.
    pub fn open(
        alloc: Global,
        identity: &'a Identity,
        file: F,
    ) -> Result<ShortFile<'a, F>, (ShortFault, F)>
        ensures opens { IfOk result (OpensShort identity.now (F.bytes file)) }
        ensures identity { IfOk result (λ f. f.identity ≡ identity.now) }
        ensures safe { IfOk result (λ f. f.log.safe ≡ f.log.bytes) }
        ensures file_safe { IfOk result (λ f. f.log.file_safe ≡ f.log.file) }
        ensures closed { IfOk result (λ f. IsLengthOf f.log.bytes f.log.closed) }
        ensures opened { IfOk result (λ f. f.log.opened ≡ f.log.closed) }
        ensures batch { IfOk result (λ f. f.log.batch ≡ []) }
        ensures sound { IfOk result (λ f. f.log.is_lost ≡ false) }
        ensures known { IfOk result (λ f. f.in_doubt ≡ false) }
        ensures going_on { IfOk result (λ f. f.log.is_ended ≡ false) }
        ensures err { IfErr result (λ refused. Refuses identity.now (F.bytes file) refused.0) }
        ensures untouched { IfErr result (λ refused. IsOfHead refused.0
            → (F.bytes refused.1 ≡ F.bytes file)
            × (F.safe refused.1 ≡ F.safe file)
            × (F.least refused.1 ≡ F.least file)) }
        ensures kept { IfErr result (λ refused. IsKept identity.now (F.bytes file) (F.safe file)
            (F.safe refused.1)) }
    {
        let mut file = file;
        let FoundHead { gone, name } = match find_head(alloc, identity, &mut file) {
            Ok(found) => found,
            Err(fault) => return Err((fault, file)),
        };
        let named = match NamedLog::open(file, name.as_slice()) {
            Ok(named) => named,
            Err((_fault, file)) => return Err((ShortFault::Device, file)),
        };
        match SealedLog::open(alloc, named) {
            Ok(log) => Ok(ShortFile {
                alloc,
                log,
                identity,
                gone,
                in_doubt: false,
            }),
            Err((fault, named)) => Err((of_seal(fault), named.into_file())),
        }
    }

    /// Ends the world, as `SealedLog::end` does. Fails where a batch is open, where memory is wanting,
    /// where a call of the file has failed, or the world was ended before: then nothing has changed.
    /// Where the write falls short or the sync fails the log is lost. Costs a write and a sync.
    pub fn end(&mut self) -> Result<(), FileFailed>
        ensures ok { OnOk result (self.new.log ≡ record self.old.log {
          is_ended = true;
          file = append_known self.old.log.file (sealed_batch end_batch);
          file_safe = self.new.log.file;
          head = self.new.log.head;
        }) }
        ensures nothing_open { OnOk result (self.old.log.batch ≡ []) }
        ensures sound { OnOk result (self.old.log.is_lost ≡ false) }
        ensures once { OnOk result (self.old.log.is_ended ≡ false) }
        ensures same { self.new ≡ record self.old { log = self.new.log } }
        ensures safe { OnErr result (self.new.log.safe ≡ self.old.log.safe) }
        ensures err { OnErr result (self.new.log.is_lost ≡ false → self.new ≡ self.old) }
        ensures lost { self.old.log.is_lost ≡ true → self.new ≡ self.old }
    {
        self.log.end()
    }

    /// Whether a call of the file has failed. Costs no memory.
    pub fn is_lost(&self) -> bool
        ensures value { result ≡ self.now.log.is_lost }
    {
        self.log.is_lost()
    }

    /// What was let go of the log, or None where nothing was. Costs no memory.
    pub fn gone(&self) -> Option<&Gone>
        ensures value { option_map (λ gone. gone.now) result ≡ self.now.gone }
    {
        match &self.gone {
            Some(gone) => Some(gone),
            None => None,
        }
    }
}

impl<'a, F: LogFile> LogFile for ShortFile<'a, F> {
    ghost bytes = { λ f. f.log.bytes };

    ghost safe = { safe_of };

    ghost least = { λ f. Some f.log.opened };

    fn read_at(&mut self, at: u64, buffer: &mut [u8]) -> Result<usize, FileFailed>
        ensures bound { ReadsAtMost result buffer.new }
        ensures read { IfOk result (λ n. ReadsAt self.old.log.bytes at n buffer.new) }
        ensures same { self.new ≡ self.old }
    {
        self.log.read_at(at, buffer)
    }

    /// Adds the piece to the open batch. Fails where it isn't whole lines of the bytes that records
    /// are spelled with, where memory is wanting, or the log is lost or ended.
    fn write(&mut self, piece: &[u8]) -> Result<usize, FileFailed>
        ensures bound { WritesAtMost result piece.now }
        ensures bytes { AddsTo self.old.log.bytes self.new.log.bytes result piece.now }
        ensures safe { safe_of self.new ≡ safe_of self.old }
        ensures least { Some self.new.log.opened ≡ Some self.old.log.opened }
        ensures whole { IfOk result (λ n. n ≡ length piece.now) }
        ensures batch { OnOk result (self.new.log.batch ≡ self.old.log.batch ++ piece.now) }
        ensures lines { OnOk result (IsBatch piece.now) }
        ensures same { self.new ≡ record self.old { log = self.new.log } }
        ensures err { OnErr result (self.new ≡ self.old) }
    {
        self.log.write(piece)
    }

    /// Cuts the open batch behind one of its lines, or in front of the first one. Fails where the
    /// place isn't so, or the log is lost or ended.
    #[tactic(auto, using(crate::proofs::Doubt::cuts_unless))]
    fn cut(&mut self, kept: u64) -> Result<(), FileFailed>
        ensures bytes { CutsTo kept self.old.log.bytes self.new.log.bytes result }
        ensures safe { CutsTo kept (safe_of self.old) (safe_of self.new) result }
        ensures least { LowersTo kept (Some self.old.log.opened) (Some self.new.log.opened) result }
        ensures same { self.new ≡ record self.old { log = self.new.log } }
        ensures err { OnErr result (self.new ≡ self.old) }
    {
        self.log.cut(kept)
    }

    /// Closes the open batch, and changes nothing where none is open. Fails where the batch is the one
    /// that ends a world, which `end` alone writes, or the log is lost or ended; and where the write
    /// falls short or the sync fails: then the log is lost.
    #[tactic(auto, using(crate::proofs::Doubt::keeps_unless, crate::proofs::Doubt::stays_unless, crate::proofs::Doubt::synced_known))]
    fn sync(&mut self) -> Result<(), FileFailed>
        ensures bytes { OnOk result (self.new.log.bytes ≡ self.old.log.bytes) }
        ensures ok { OnOk result (safe_of self.new ≡ self.new.log.bytes) }
        ensures stays { OnErr result (safe_of self.new ≡ safe_of self.old) }
        ensures kept { KeepsFront (safe_of self.old) (safe_of self.new) }
        ensures least { Some self.new.log.opened ≡ Some self.old.log.opened }
        ensures batch { OnOk result (self.new.log.batch ≡ []) }
        ensures sound { OnOk result (self.new.log.is_lost ≡ false) }
        ensures known { OnOk result (self.new.in_doubt ≡ false) }
        ensures same { self.new ≡ record self.old { log = self.new.log } }
        ensures err { OnErr result (self.new.log.is_lost ≡ false → self.new ≡ self.old) }
        ensures lost { self.old.log.is_lost ≡ true → self.new ≡ self.old }
    {
        self.log.sync()
    }
}

impl<'a, F: Replaceable> ShortLog for ShortFile<'a, F> {
    ghost gone = { λ f. f.gone };

    /// Puts a log of version 3 in the place of this one: its head tells this front to be gone, and
    /// behind it stands one closed batch of the records that are held. At Ok none of those can be read, and no
    /// batch is open. `Refused`: the log is as it was. So it is always where a batch is open, where what
    /// is held is no batch of records, where the log is lost or was ended, and where memory is wanting.
    /// `Failed`: it isn't known which of the two files is there, each of them whole, and the log is lost.
    /// Costs what `SealedLog::replace` does, and memory for the head and for what is gone.
    #[tactic(auto, using(crate::proofs::Doubt::known_false))]
    fn replace(&mut self, front: &Gone, held: &[u8]) -> Result<(), PutFault>
        ensures bytes { OnOk result (IsCopyOf self.new.log.bytes held.now) }
        ensures safe { OnOk result (IsCopyOf (safe_of self.new) held.now) }
        ensures least { OnOk result (IsSpared (length held.now) (Some self.new.log.opened)) }
        ensures opened { OnOk result (self.new.log.opened ≡ length held.now) }
        ensures closed { OnOk result (self.new.log.closed ≡ length held.now) }
        ensures batch { OnOk result (self.new.log.batch ≡ []) }
        ensures told { OnOk result (self.new.gone ≡ Some front.now) }
        ensures file { OnOk result (IsCopyOf (joined self.new.log.head self.new.log.file)
            (shortened_name self.old.identity front.now ++ sealed_batch held.now)) }
        ensures file_safe { OnOk result (self.new.log.file_safe ≡ self.new.log.file) }
        ensures sound { OnOk result (self.new.log.is_lost ≡ false) }
        ensures known { OnOk result (self.new.in_doubt ≡ false) }
        ensures going_on { OnOk result (self.new.log.is_ended ≡ false) }
        ensures identity { self.new.identity ≡ self.old.identity }
        ensures records { OnOk result (IsRecords held.now) }
        ensures nothing_open { OnOk result (self.old.log.batch ≡ []) }
        ensures same { IfErr result (λ fault. fault ≡ PutFault.Refused → self.new ≡ self.old) }
        ensures refused { IfErr result (λ fault. fault ≡ PutFault.Refused
            → (self.new.log.bytes ≡ self.old.log.bytes)
            × (safe_of self.new ≡ safe_of self.old)
            × (Some self.new.log.opened ≡ Some self.old.log.opened)
            × (self.new.gone ≡ self.old.gone)) }
        ensures failed { IfErr result (λ fault. fault ≡ PutFault.Failed
            → (safe_of self.new ≡ safe_of self.old) ⊎ IsCopyOf (safe_of self.new) held.now) }
        ensures left { IfErr result (λ fault. fault ≡ PutFault.Failed
            → IsInDoubt self.old self.new
            (shortened_name self.old.identity front.now ++ sealed_batch held.now)) }
        ensures lost { self.old.log.is_lost ≡ true → result ≡ Err PutFault.Refused }
    {
        let Ok(head) = write_head(self.alloc, self.identity, front) else {
            return Err(PutFault::Refused);
        };
        let Some(copy) = copy_gone(self.alloc, front) else {
            return Err(PutFault::Refused);
        };
        match self.log.replace(head.as_slice(), held) {
            Ok(()) => {
                self.gone = Some(copy);
                Ok(())
            }
            Err(PutFault::Refused) => Err(PutFault::Refused),
            Err(PutFault::Failed) => {
                self.in_doubt = true;
                Err(PutFault::Failed)
            }
        }
    }
}
