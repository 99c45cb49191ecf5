//! Records one after the other.

ghost use Rattle.std.specs.Prelude.{◌≡◌, ◌==◌, IfOk, IfErr, length, position};
ghost use Rattle.std.specs.List.{flat_map};
ghost use Rattle.kept_records.specs.declared.log.RecordFault.TheVariants.{NoMemory};
ghost use Rattle.kept_records.specs.Text.{text};
ghost use Rattle.kept_records.specs.Logs.{Reads, AreAll, AreGoodRecords};
ghost use Rattle.kept_records.specs.Faults.{TellsBadLine, TellsNoLog};

use crate::by_line;
use crate::lent_records::LentRecords;
use crate::record::Record;
use crate::record_lines::RecordLine;
use std::alloc::{AllocError, Global};
use thiserror::Error;

/// Why records weren't read.
#[derive(Clone, Copy, Debug, PartialEq, Eq, Error)]
pub enum RecordFault {
    /// This line, counted from 1, is the first that is no record.
    #[error("line {0} is no record")]
    Line(u64),
    #[error("out of memory")]
    NoMemory,
}

impl From<AllocError> for RecordFault {
    ghost from_gives = { λ _ e. e ≡ NoMemory };

    fn from(_refused: AllocError) -> RecordFault {
        RecordFault::NoMemory
    }
}

/// The records in front of the first line that is none, or all records where there is no such line.
#[derive(Drop)]
pub struct Front {
    pub records: Vec<Record>,
    /// The length of the records' texts, in bytes.
    pub length: usize,
    /// The first line, counted from 1, that is no record.
    pub bad_line: Option<u64>,
}

pub(crate) fn line_feed(bytes: &[u8]) -> Option<usize>
    ensures { result ≡ position (λ b. b == 10) bytes.now }
{
    bytes.iter().position(|b| *b == b'\n')
}

/// The records in front of the first line that is no record. A line is read where its line feed is
/// there. Where each is a record, these are all the records of the bytes, and what lies behind them
/// is a torn record, whatever it is. Else `bad_line` is the number of the records and 1: that line
/// is the text of no record. The error is want of memory. Costs a pass over the bytes, and memory
/// for the records, a commit's escrows in no more than they take; and, while it runs, once more for
/// the escrows of a commit.
pub fn read_front(alloc: Global, bytes: &[u8]) -> Result<Front, AllocError>
    ensures front { IfOk result (λ front. AreGoodRecords bytes.now front.records.items front.length
        front.bad_line) }
    ensures length { IfOk result (λ front. front.length
        ≡ length (flat_map text front.records.items)) }
{
    let mut records = Vec::new(alloc);
    let mut lines = LentRecords::new(alloc, bytes);
    let bad_line = by_line! { 'lines: lines.next_common(), lines.next_line(alloc)?;
        Some(told) => {
            let next = lines.whole(alloc, told);
            records.push(lines.kept(alloc, next)?)?;
        },
        RecordLine::Record(next) => records.push(lines.kept(alloc, next)?)?,
        RecordLine::NoRecord => break 'lines Some(records.len() as u64 + 1),
        RecordLine::End => break 'lines None,
    };
    let length = bytes.len() - lines.left();
    Ok(Front {
        records,
        length,
        bad_line,
    })
}

/// The records whose texts the bytes are, and the length of these texts in bytes: up to and with
/// the last line feed. What lies behind it is a torn record, whatever it is, and is left out. A
/// line up to and with its line feed that is the text of no record is the fault `Line`, counted
/// from 1, and the lines before it are records; so bytes that are a log are never refused for a
/// line. The other fault is want of memory. Costs a pass over the bytes, and memory for the
/// records.
pub fn read_records(alloc: Global, bytes: &[u8]) -> Result<(Vec<Record>, usize), RecordFault>
    ensures reads { IfOk result (λ read. Reads bytes.now read.0.items read.1) }
    ensures only { IfOk result (λ read. AreAll bytes.now read.0.items read.1) }
    ensures line { IfErr result (λ fault. TellsBadLine fault bytes.now) }
    ensures no_log { IfErr result (λ fault. TellsNoLog fault bytes.now) }
{
    let front = read_front(alloc, bytes)?;
    match front.bad_line {
        Some(line) => Err(RecordFault::Line(line)),
        None => Ok((front.records, front.length)),
    }
}
