//! The records of a log, straight from its bytes, one after another.

ghost use Rattle.std.specs.Prelude.{◌≡◌, ◌<◌, ◌≤◌, IfOk, IfSome, OnErr, length};
ghost use Rattle.kept_records.specs.Keeping.{IsKept};
ghost use Rattle.kept_records.specs.Cursor.{HandsOut, HandsSummary};

use crate::lent_records::LentRecords;
use crate::record::Record;
use crate::record_lines::RecordLine;
use crate::summary::Summary;
use std::alloc::{AllocError, Global};
use std::marker::Model;

/// A cursor over the bytes of a log. It hands out one record after another, each read from its line
/// as it is asked for, and no list of them is made. Contracts see the bytes that are left.
#[derive(Drop)]
pub struct Cursor<'a> {
    lines: LentRecords<'a>,
}

impl<'a> Model for Cursor<'a> {
    ghost use Rattle.std.specs.Prelude.{List, ℕ};

    ghost Value = { List ℕ };

    ghost view = { λ c. c.lines.left };
}

impl<'a> Cursor<'a> {
    /// A cursor before the first of these bytes. Takes no memory.
    pub fn new(alloc: Global, bytes: &'a [u8]) -> Cursor<'a>
        ensures all { result ≡ bytes.now }
    {
        Cursor {
            lines: LentRecords::new(alloc, bytes),
        }
    }

    /// How many bytes are left.
    pub fn left(&self) -> usize
        ensures value { result ≡ length self.now }
    {
        self.lines.left()
    }

    /// Takes the next record, whose line is then behind the cursor, or tells None where no line
    /// ends in the bytes that are left. The bytes are a log. The error is want of memory; it leaves
    /// the cursor where it was. Costs a pass over the line, word by word. Memory is taken for a
    /// summary, and for the escrows of a commit.
    pub fn next(&mut self, alloc: Global) -> Result<Option<Record>, AllocError>
        requires log { IsKept self.old }
        ensures handed { IfOk result (λ next. HandsOut self.old next self.new) }
        ensures log { IfOk result (λ _. IsKept self.new) }
        ensures shorter { IfOk result (λ next. IfSome next
            (λ _. length self.new < length self.old)) }
        ensures stays { OnErr result (self.new ≡ self.old) }
    {
        match self.lines.next_line(alloc)? {
            RecordLine::Record(kept) => Ok(Some(kept)),
            RecordLine::NoRecord => unreachable!(),
            RecordLine::End => Ok(None),
        }
    }

    /// Takes the next record where it is a summary. The same is said of the bytes, the error and
    /// the cost as of `next`.
    pub fn next_summary(&mut self, alloc: Global) -> Result<Option<Summary>, AllocError>
        requires log { IsKept self.old }
        ensures handed { IfOk result (λ next. HandsSummary self.old next self.new) }
        ensures within { IfOk result (λ _. length self.new ≤ length self.old) }
        ensures stays { OnErr result (self.new ≡ self.old) }
    {
        if self.lines.rest().first() != Some(&b'S') {
            return Ok(None);
        }
        match self.next(alloc)? {
            Some(
                Record::Summary {
                    epoch,
                    rights,
                    gifts,
                    accepts,
                    tightenings,
                },
            ) => Ok(Some(Summary::new(epoch, rights, gifts, accepts, tightenings))),
            Some(_) => unreachable!(),
            None => Ok(None),
        }
    }
}
