//! The records at the front of bytes, one after another, of which the common ones are lent.

ghost use Rattle.std.specs.Prelude.{◌≡◌, ◌<◌, ◌≤◌, IfOk, IfSome, OnErr, length};
ghost use Rattle.field_bounds.specs.declared.entry.Escrow.{Escrow};
ghost use Rattle.kept_records.specs.Lines.{HandsLine, IsFewer};

use crate::log::line_feed;
use crate::reading::{LineFault, read_line};
use crate::record::{Escrows, Record};
use crate::record_lines::RecordLine;
use crate::straight::common_at;
use field_bounds::{Escrow, FieldNo, Kind, SiteNo, TxnId};
use std::alloc::{AllocError, Global};
use std::marker::Model;
use std::mem;

/// A record of any kind but a summary, without its list. It is small, so that it is handed out in
/// registers, where a `Record` is moved through memory.
#[derive(Clone, Copy)]
pub enum CommonRecord {
    /// A transaction was committed, with the escrows that the reader lends: of their number and of
    /// all numbers the same is said as of `Record::Commit`.
    Commit {
        txn: TxnId,
    },
    /// Rights of a kind were given to a site, as `Record::Gift` tells.
    Gift {
        to: SiteNo,
        field: FieldNo,
        kind: Kind,
        total: u64,
    },
    /// Rights of a kind were accepted from a site, as `Record::Accept` tells.
    Accept {
        from: SiteNo,
        field: FieldNo,
        kind: Kind,
        total: u64,
    },
    /// Rights of a kind on a field were given up for good, as `Record::Tighten` tells.
    Tighten {
        field: FieldNo,
        kind: Kind,
        total: u64,
    },
    /// The site restarted in this epoch, 1 to 1,000,000,000.
    Restart {
        epoch: u32,
    },
}

/// The lines of some bytes, read as records one after another, up to the first that is none. The
/// escrows of a commit stay in the reader's memory, which lends them. No list of records is made.
/// `by_line!` walks over the lines. Contracts see the bytes that are left, and the escrows that are
/// lent.
#[derive(Drop)]
pub struct LentRecords<'a> {
    left: &'a [u8],
    held: Vec<Escrow>,
}

impl<'a> Model for LentRecords<'a> {
    ghost use Rattle.kept_records.specs.Lent.{LentValue};

    ghost Value = { LentValue };

    ghost view = { λ r. record { left = r.left.now; escrows = r.held.items } };
}

impl<'a> LentRecords<'a> {
    ghost use Rattle.kept_records.specs.Lent.{HandsCommon, record_told};

    /// All lines of these bytes. Takes no memory.
    pub fn new(alloc: Global, bytes: &'a [u8]) -> LentRecords<'a>
        ensures all { result.left ≡ bytes.now }
    {
        LentRecords {
            left: bytes,
            held: Vec::new(alloc),
        }
    }

    /// How many bytes are left. Takes no memory.
    pub fn left(&self) -> usize
        ensures value { result ≡ length self.now.left }
    {
        self.left.len()
    }

    // The bytes that are left.
    pub(crate) fn rest(&self) -> &'a [u8]
        ensures all { result.now ≡ self.now.left }
    {
        self.left
    }

    /// The escrows of the commit that `next_common` took, where neither it nor `next_line` was called
    /// since. Takes no memory.
    #[inline(always)]
    pub fn escrows(&self) -> &[Escrow]
        ensures all { result.now ≡ self.now.escrows }
    {
        &self.held
    }

    /// Takes the next line where it is the text of a record but a summary; a commit's escrows are
    /// then lent. None tells nothing, for such a record too, and leaves the bytes as they are:
    /// `next_line` takes it then. Costs a pass over the line, and no memory.
    #[inline(always)]
    pub fn next_common(&mut self) -> Option<CommonRecord>
        ensures handed { HandsCommon self.old.left result self.new }
        ensures shorter { IfSome result (λ _. length self.new.left < length self.old.left) }
        ensures within { length self.new.left ≤ length self.old.left }
    {
        let (next, behind) = common_at(&mut self.held, self.left)?;
        self.left = behind;
        Some(next)
    }

    /// The record that `next_common` told, where neither it nor `next_line` was called since: a
    /// commit takes the escrows that were lent with it, and `give_back` gives their memory back.
    /// Takes no memory.
    #[inline(always)]
    pub fn whole(&mut self, alloc: Global, told: CommonRecord) -> Record
        ensures whole { result ≡ record_told told self.old.escrows }
        ensures same { self.new.left ≡ self.old.left }
    {
        match told {
            CommonRecord::Commit { txn } => {
                let escrows = Escrows::new(mem::replace(&mut self.held, Vec::new(alloc)));
                Record::Commit { txn, escrows }
            }
            CommonRecord::Gift {
                to,
                field,
                kind,
                total,
            } => Record::Gift {
                to,
                field,
                kind,
                total,
            },
            CommonRecord::Accept {
                from,
                field,
                kind,
                total,
            } => Record::Accept {
                from,
                field,
                kind,
                total,
            },
            CommonRecord::Tighten { field, kind, total } => Record::Tighten { field, kind, total },
            CommonRecord::Restart { epoch } => Record::Restart { epoch },
        }
    }

    // A record that was taken, to be kept: a commit has a copy of its escrows, in no more memory than
    // they take, and the memory that they were read into is given back. The error is want of memory.
    pub(crate) fn kept(&mut self, alloc: Global, next: Record) -> Result<Record, AllocError>
        ensures same_record { IfOk result (λ kept. kept ≡ next) }
        ensures same { self.new.left ≡ self.old.left }
    {
        match next {
            Record::Commit { txn, escrows } => {
                let copy = Vec::from_slice(alloc, escrows.as_slice())?;
                self.held = escrows.into_buffer();
                let escrows = Escrows::new(copy);
                Ok(Record::Commit { txn, escrows })
            }
            other => Ok(other),
        }
    }

    /// Takes the next line where it is the text of a record, of any kind; else tells why not, and
    /// leaves the bytes as they are. The error is want of memory; it leaves them too. Costs a pass
    /// over the line, and serves where `next_common`, which is quicker, told None. Memory is taken
    /// for a summary, and for the escrows of a commit that has more of them than each one before
    /// that was given back.
    #[inline(never)]
    pub fn next_line(&mut self, alloc: Global) -> Result<RecordLine, AllocError>
        ensures handed { IfOk result (λ line. HandsLine self.old.left line self.new.left) }
        ensures shorter { IfOk result (λ line. IsFewer self.old.left line self.new.left) }
        ensures within { length self.new.left ≤ length self.old.left }
        ensures stays { OnErr result (self.new.left ≡ self.old.left) }
    {
        let Some(end) = line_feed(self.left) else {
            return Ok(RecordLine::End);
        };
        match read_line(alloc, &mut self.held, &self.left[..end]) {
            Ok(kept) => {
                self.left = &self.left[end + 1..];
                Ok(RecordLine::Record(kept))
            }
            Err(LineFault::NoRecord) => Ok(RecordLine::NoRecord),
            Err(LineFault::NoMemory) => Err(AllocError),
        }
    }

    /// Gives the memory of a record back that isn't needed any more, which is lent from then on.
    /// The bytes that are left stay.
    #[inline(always)]
    pub fn give_back(&mut self, kept: Record)
        ensures same { self.new.left ≡ self.old.left }
    {
        if let Record::Commit { escrows, .. } = kept {
            self.held = escrows.into_buffer();
        }
    }
}
