//! The log of closed batches.

ghost use Rattle.std.specs.Prelude.{◌≡◌, ◌≢◌, ◌+◌, ◌-◌, ◌≤◌, ◌++◌, [], None, Some, false, true, length, take, Err, IfOk, IfErr, IsOk, OnOk, OnErr};
ghost use Rattle.std.specs.Io.KnownBytes.{append_known};
ghost use Rattle.std.specs.Io.{ReadsAtMost};
ghost use Rattle.file_medium.specs.Copies.{IsCopyOf};
ghost use Rattle.file_medium.specs.Files.{CutsTo, IsSpared, KeepsFront, LowersTo, ReadsAt, cut_known};
ghost use Rattle.sealed_text.specs.Seals.{IsBatch, IsRecords, end_batch, sealed_batch};
ghost use Rattle.sealed_log.specs.Sealed.{Opens, Refuses, IsInDoubt, IsLengthOf, IsOpen, IsUntouched, KeepsAll, LosesNothing, SparesClosed, sealed_open};

use crate::adding::{add_piece, add_sealed, are_lines, seal_records};
use crate::fault::SealFault;
use crate::opening::read_closed;
use crate::reading::copy_behind;
use file_medium::{FileFailed, LogFile};
use file_swap::{HeadedLog, PutFault, ReplaceableLog};
use sealed_text::{end_batch, is_batch};
use std::alloc::Global;
use std::marker::Model;

/// A file of batches that sums close, as a file that holds their records. It keeps the law of
/// `LogFile` wherever the file does.
///
/// What is written is added to an open batch in memory. A sync closes it: it writes the batch and its
/// sum behind the bytes of the file, by one write where the file takes them whole, and syncs the
/// file. So a batch is there whole after a stop, or not at all. Only whole lines are written, of the
/// bytes that records are spelled with, and only what isn't closed is cut.
///
/// A write of the file that falls short, or a sync of it that fails, is never forgotten: nothing is
/// known of the file's bytes then, so each later call fails. Once the world was ended each call fails
/// but a read.
///
/// The records that were there at the opening are kept in memory until a read has come to their end;
/// from there on only the open batch can be read, and a read in front of it fails. Contracts see the
/// records, those that are safe, how many bytes of them are closed, and were at the opening, the open
/// batch, whether a call of the file has failed, whether the world was ended, and what the file holds,
/// what of it is safe, what its cuts have left, and its head, where it tells one. No call cuts the file
/// once it was opened.
/// Costs memory for the greatest batch, and until they were read for the records. Source: this
/// project.
#[derive(Drop)]
pub struct SealedLog<F: HeadedLog> {
    alloc: Global,
    file: F,
    // The first records, as long as they are kept.
    records: Vec<u8>,
    // How many bytes of records are closed.
    closed: u64,
    // How many were closed when it was opened: no cut leaves fewer.
    opened: u64,
    batch: Vec<u8>,
    is_lost: bool,
    is_ended: bool,
}

impl<F: HeadedLog> Model for SealedLog<F> {
    ghost use Rattle.std.specs.Prelude.{vec_capacity};
    ghost use Rattle.sealed_log.specs.Sealed.{SealedBatches, log_of, IsSealed};

    ghost Value = { SealedBatches };

    ghost view = { λ l. log_of l.closed l.is_lost l.is_ended (F.bytes l.file) (F.safe l.file)
        l.batch.items l.opened (F.least l.file) (F.head l.file) };

    ghost invariant = { λ l. IsSealed l.closed l.is_lost l.is_ended (F.bytes l.file)
        (F.safe l.file) l.records.items l.batch.items (vec_capacity l.batch) l.opened };
}

impl<F: HeadedLog> SealedLog<F> {
    /// The log in a file of closed batches. The file is synced first, so that all of it is safe, and
    /// read whole; what a stop has left behind the closed batches is cut off, and that is synced too.
    ///
    /// The faults: `Damaged`, where the file holds what was neither written so nor left so by a stop,
    /// with the line at which that begins; `Ended`, where the world was ended; `Device`, where a call
    /// of the file failed; `NoMemory`, where memory is wanting. With each the file is handed back. At
    /// no moment is anything of it taken that a sum closes; where no call of it failed nothing is
    /// taken of it or added to it, and all of it is safe. Costs one or two syncs, a read of the file,
    /// two passes over it, and memory for the file twice, of which that for the records is kept.
    pub fn open(alloc: Global, file: F) -> Result<SealedLog<F>, (SealFault, F)>
        ensures opens { IfOk result (Opens (F.bytes file)) }
        ensures safe { IfOk result (λ log. log.safe ≡ log.bytes) }
        ensures file_safe { IfOk result (λ log. log.file_safe ≡ log.file) }
        ensures closed { IfOk result (λ log. IsLengthOf log.bytes log.closed) }
        ensures opened { IfOk result (λ log. log.opened ≡ log.closed) }
        ensures batch { IfOk result (λ log. log.batch ≡ []) }
        ensures sound { IfOk result (λ log. log.is_lost ≡ false) }
        ensures going_on { IfOk result (λ log. log.is_ended ≡ false) }
        ensures loses { IfOk result (λ log. LosesNothing (F.bytes file) (F.safe file)
            log.file_safe) }
        ensures keeps { IfOk result (λ log. KeepsAll (F.safe file) log.file_safe) }
        ensures spares { IfOk result (λ log. SparesClosed (F.bytes file) (F.least file)
            log.file_least) }
        ensures err { IfErr result (λ refused. Refuses (F.bytes file) refused.0) }
        ensures kept { IfErr result (λ refused. LosesNothing (F.bytes file) (F.safe file)
            (F.safe refused.1)) }
        ensures safe_still { IfErr result (λ refused. KeepsAll (F.safe file) (F.safe refused.1)) }
        ensures spared { IfErr result (λ refused. SparesClosed (F.bytes file) (F.least file)
            (F.least refused.1)) }
        ensures untouched { IfErr result (λ refused. refused.0 ≢ SealFault.Device
            → IsUntouched (F.bytes file) (F.least file) (F.bytes refused.1) (F.safe refused.1)
            (F.least refused.1)) }
    {
        let mut file = file;
        let records = match read_closed(alloc, &mut file) {
            Ok(unsealed) => unsealed.records,
            Err(fault) => return Err((fault, file)),
        };
        let closed = records.len() as u64;
        Ok(SealedLog {
            alloc,
            file,
            closed,
            opened: closed,
            records,
            batch: Vec::new(alloc),
            is_lost: false,
            is_ended: false,
        })
    }

    /// Ends the world: writes the batch that tells so, with its sum, and syncs the file. From there on
    /// each call fails but a read, and no opening takes the file any more. Fails where a batch is
    /// open, where memory is wanting, where a call of the file has failed, or the world was ended
    /// before: then nothing has changed. Where the write falls short or the sync fails the log is
    /// lost. Costs a write and a sync.
    pub fn end(&mut self) -> Result<(), FileFailed>
        ensures ok { OnOk result (self.new ≡ record self.old {
          is_ended = true;
          file = append_known self.old.file (sealed_batch end_batch);
          file_safe = self.new.file;
          head = self.new.head;
        }) }
        ensures nothing_open { OnOk result (self.old.batch ≡ []) }
        ensures sound { OnOk result (self.old.is_lost ≡ false) }
        ensures once { OnOk result (self.old.is_ended ≡ false) }
        ensures safe { OnErr result (self.new.safe ≡ self.old.safe) }
        ensures file_safe { OnErr result (self.new.file_safe ≡ self.old.file_safe) }
        ensures opened { self.new.opened ≡ self.old.opened }
        ensures file_least { self.new.file_least ≡ self.old.file_least }
        ensures err { OnErr result (self.new.is_lost ≡ false → self.new ≡ self.old) }
        ensures lost { self.old.is_lost ≡ true → self.new ≡ self.old }
    {
        if self.is_lost || self.is_ended || !self.batch.is_empty() {
            return Err(FileFailed);
        }
        add_piece(&mut self.batch, end_batch())?;
        let ended = add_sealed(&mut self.file, &mut self.batch);
        match ended {
            Ok(()) => self.is_ended = true,
            Err(FileFailed) => self.is_lost = true,
        }
        ended
    }

    /// Whether a call of the file has failed. Costs no memory.
    pub fn is_lost(&self) -> bool
        ensures value { result ≡ self.now.is_lost }
    {
        self.is_lost
    }

    /// The file. Costs no memory.
    pub fn file(&self) -> &F
        ensures bytes { F.bytes result.now ≡ self.now.file }
        ensures safe { F.safe result.now ≡ self.now.file_safe }
        ensures least { F.least result.now ≡ self.now.file_least }
        ensures head { F.head result.now ≡ self.now.head }
    {
        &self.file
    }
}

impl<F: ReplaceableLog> SealedLog<F> {
    /// Puts another file in the place of the file: it begins with this head, and behind it stands one
    /// closed batch of these records. At Ok they are the records, all of them closed and safe, and a
    /// stop of the machine leaves them; no batch is open, and none of the records can be read.
    ///
    /// `Refused`: the log is as it was. So it is always where a batch is open, where the bytes are no
    /// batch of records, where a call of the file has failed or the world was ended before, and where
    /// memory is wanting. `Failed`: a stop of the machine leaves what was safe of the old file, or the
    /// new one, whole, and the log is lost: each later call fails. Costs memory for the text of the
    /// batch as long as the call takes, a write of it and the head, and two syncs. At Ok what was kept
    /// in memory of the records is given back.
    pub fn replace(&mut self, head: &[u8], held: &[u8]) -> Result<(), PutFault>
        ensures bytes { OnOk result (IsCopyOf self.new.bytes held.now) }
        ensures safe { OnOk result (IsCopyOf self.new.safe held.now) }
        ensures closed { OnOk result (self.new.closed ≡ length held.now) }
        ensures opened { OnOk result (self.new.opened ≡ length held.now) }
        ensures batch { OnOk result (self.new.batch ≡ []) }
        ensures sound { OnOk result (self.new.is_lost ≡ false) }
        ensures going_on { OnOk result (self.new.is_ended ≡ false) }
        ensures head { OnOk result (IsCopyOf self.new.head head.now) }
        ensures file { OnOk result (IsCopyOf self.new.file (sealed_batch held.now)) }
        ensures file_safe { OnOk result (self.new.file_safe ≡ self.new.file) }
        ensures file_least { OnOk result (IsSpared (length (sealed_batch held.now))
            self.new.file_least) }
        ensures refused { IfErr result (λ fault. fault ≡ PutFault.Refused → self.new ≡ self.old) }
        ensures failed { IfErr result (λ fault. fault ≡ PutFault.Failed
            → IsInDoubt self.old self.new (head.now ++ sealed_batch held.now)) }
        ensures nothing_open { OnOk result (self.old.batch ≡ []) }
        ensures records { OnOk result (IsRecords held.now) }
        ensures lost { self.old.is_lost ≡ true → result ≡ Err PutFault.Refused }
        ensures ended { self.old.is_ended ≡ true → result ≡ Err PutFault.Refused }
    {
        if self.is_ended || self.is_lost || !self.batch.is_empty() {
            return Err(PutFault::Refused);
        }
        let Some(text) = seal_records(self.alloc, held) else {
            return Err(PutFault::Refused);
        };
        match self.file.replace(head, text.as_slice()) {
            Ok(()) => {
                self.records = Vec::new(self.alloc);
                self.closed = held.len() as u64;
                self.opened = self.closed;
                Ok(())
            }
            Err(PutFault::Refused) => Err(PutFault::Refused),
            Err(PutFault::Failed) => {
                self.records.clear();
                self.is_lost = true;
                Err(PutFault::Failed)
            }
        }
    }
}

impl<F: HeadedLog> LogFile for SealedLog<F> {
    ghost bytes = { λ l. l.bytes };

    ghost safe = { λ l. l.safe };

    ghost least = { λ l. Some l.opened };

    fn read_at(&mut self, at: u64, buffer: &mut [u8]) -> Result<usize, FileFailed>
        ensures bound { ReadsAtMost result buffer.new }
        ensures read { IfOk result (λ n. ReadsAt self.old.bytes at n buffer.new) }
        ensures open_batch { self.old.is_lost ≡ false → self.old.closed ≤ at → IsOk result }
        ensures same { self.new ≡ self.old }
    {
        if self.is_lost {
            return Err(FileFailed);
        }
        if at >= self.closed {
            return Ok(copy_behind(&self.batch, at - self.closed, buffer));
        }
        if at >= self.records.len() as u64 {
            return Err(FileFailed);
        }
        let count = copy_behind(&self.records, at, buffer);
        if at + count as u64 == self.records.len() as u64 {
            self.records = Vec::new(self.alloc);
        }
        Ok(count)
    }

    /// Adds the piece to the open batch. Fails where it isn't whole lines of the bytes that records
    /// are spelled with, where memory is wanting, or the log is lost or ended.
    fn write(&mut self, piece: &[u8]) -> Result<usize, FileFailed>
        ensures ok { IfOk result (λ n. n ≡ length piece.now) }
        ensures added { OnOk result (self.new ≡ record self.old {
          bytes = append_known self.old.bytes piece.now;
          batch = self.old.batch ++ piece.now;
        }) }
        ensures lines { OnOk result (IsBatch piece.now) }
        ensures sound { OnOk result (self.old.is_lost ≡ false) }
        ensures going_on { OnOk result (self.old.is_ended ≡ false) }
        ensures err { OnErr result (self.new ≡ self.old) }
    {
        if self.is_lost || self.is_ended || !is_batch(piece) {
            return Err(FileFailed);
        }
        add_piece(&mut self.batch, piece)?;
        Ok(piece.len())
    }

    /// Cuts the open batch behind one of its lines, or in front of the first one. Fails where the
    /// place isn't so, or the log is lost or ended.
    fn cut(&mut self, kept: u64) -> Result<(), FileFailed>
        ensures ok { OnOk result (self.new ≡ record self.old {
          bytes = cut_known kept self.old.bytes;
          batch = take (kept - self.old.closed) self.old.batch;
        }) }
        ensures safe { CutsTo kept self.old.safe self.new.safe result }
        ensures least { LowersTo kept (Some self.old.opened) (Some self.new.opened) result }
        ensures behind { OnOk result (self.old.closed ≤ kept) }
        ensures lines { OnOk result (IsOpen self.new.batch) }
        ensures sound { OnOk result (self.old.is_lost ≡ false) }
        ensures going_on { OnOk result (self.old.is_ended ≡ false) }
        ensures err { OnErr result (self.new ≡ self.old) }
    {
        if self.is_lost || self.is_ended {
            return Err(FileFailed);
        }
        let lines = match kept.checked_sub(self.closed) {
            Some(lines) => lines as usize,
            None => return Err(FileFailed),
        };
        if !are_lines(&self.batch, lines) {
            return Err(FileFailed);
        }
        self.batch.truncate(lines);
        Ok(())
    }

    /// Closes the open batch, and changes nothing where none is open. Fails where the batch is the one
    /// that ends a world, which `end` alone writes, or the log is lost or ended; and where the write
    /// falls short or the sync fails: then the log is lost.
    fn sync(&mut self) -> Result<(), FileFailed>
        ensures ok { OnOk result (self.new ≡ record self.old {
          safe = self.old.bytes;
          closed = self.old.closed + length self.old.batch;
          batch = [];
          file = append_known self.old.file (sealed_open self.old.batch);
          file_safe = self.new.file;
          head = self.new.head;
        }) }
        ensures records { OnOk result (self.old.batch ≢ end_batch) }
        ensures sound { OnOk result (self.old.is_lost ≡ false) }
        ensures going_on { OnOk result (self.old.is_ended ≡ false) }
        ensures safe { OnErr result (self.new.safe ≡ self.old.safe) }
        ensures file_safe { OnErr result (self.new.file_safe ≡ self.old.file_safe) }
        ensures kept { KeepsFront self.old.safe self.new.safe }
        ensures opened { self.new.opened ≡ self.old.opened }
        ensures file_least { self.new.file_least ≡ self.old.file_least }
        ensures err { OnErr result (self.new.is_lost ≡ false → self.new ≡ self.old) }
        ensures lost { self.old.is_lost ≡ true → self.new ≡ self.old }
    {
        if self.is_lost || self.is_ended || self.batch.as_slice() == end_batch() {
            return Err(FileFailed);
        }
        if self.batch.is_empty() {
            return Ok(());
        }
        let Some(closed) = self.closed.checked_add(self.batch.len() as u64) else {
            return Err(FileFailed);
        };
        match add_sealed(&mut self.file, &mut self.batch) {
            Ok(()) => {
                self.closed = closed;
                Ok(())
            }
            Err(FileFailed) => {
                self.is_lost = true;
                Err(FileFailed)
            }
        }
    }
}
