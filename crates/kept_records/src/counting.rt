//! Counting the records of a log, with no list of them.

ghost use Rattle.std.specs.Prelude.{IfOk};
ghost use Rattle.kept_records.specs.Counting.{IsCountOf};

use crate::by_line;
use crate::lent_records::LentRecords;
use crate::reading_back::plain_count;
use crate::record_lines::RecordLine;
use std::alloc::{AllocError, Global};

/// How many records stand in front of the first line that is none, or in all where there is no such
/// line.
#[derive(Clone, Copy, Debug, PartialEq, Eq)]
pub struct LogCount {
    /// How many of the records are no summaries.
    pub plain: usize,
    /// The length of the records' texts, in bytes.
    pub length: usize,
    /// The first line, counted from 1, that is no record.
    pub bad_line: Option<u64>,
}

/// Counts the records in front of the first line that is no record. These are the records that
/// `read_front` reads; no list of them is made. The error is want of memory. Costs a pass over the
/// bytes, and memory for one record at a time: for a summary, and once for the escrows of a commit.
pub fn count_log(alloc: Global, bytes: &[u8]) -> Result<LogCount, AllocError>
    ensures count { IfOk result (IsCountOf bytes.now) }
{
    let mut plain: usize = 0;
    let mut summaries: usize = 0;
    let mut lines = LentRecords::new(alloc, bytes);
    let bad_line = by_line! { 'lines: lines.next_common(), lines.next_line(alloc)?;
        Some(_) => plain += 1,
        RecordLine::Record(next) => {
            let one = plain_count(&next);
            plain += one;
            summaries += 1 - one;
            lines.give_back(next);
        },
        RecordLine::NoRecord => break 'lines Some((plain + summaries) as u64 + 1),
        RecordLine::End => break 'lines None,
    };
    let length = bytes.len() - lines.left();
    Ok(LogCount {
        plain,
        length,
        bad_line,
    })
}
