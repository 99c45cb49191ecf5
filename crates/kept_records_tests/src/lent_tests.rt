//! Records that are lent, beside those that are read from the same bytes word by word.

use crate::tests::{NO_RECORDS, RECORDS, log_of};
use crate::told::{Told, by_words};
use kept_records::*;
use std::alloc::{AllocError, Global};

/// What the records tell that bytes begin with, how many bytes are left behind them, and whether a
/// line that is no record is next.
type Walked = (Told, usize, bool);

fn lent(alloc: Global, bytes: &[u8]) -> Result<Walked, AllocError> {
    let mut lines = LentRecords::new(alloc, bytes);
    let mut told = Told::new(alloc);
    let is_bad = by_line! { 'lines: lines.next_common(), lines.next_line(alloc)?;
        Some(next) => {
            let whole = lines.whole(alloc, next);
            told.tell(&whole)?;
            lines.give_back(whole);
        },
        RecordLine::Record(next) => {
            told.tell(&next)?;
            lines.give_back(next);
        },
        RecordLine::NoRecord => break 'lines true,
        RecordLine::End => break 'lines false,
    };
    Ok((told, lines.left(), is_bad))
}

/// Of so many bytes of some lines, how many those are that stand in front of the first line that
/// isn't whole, or that is this one; and whether it is this one.
pub(crate) fn in_front(lines: &[&str], length: usize, bad: &str) -> (usize, bool) {
    let mut front: usize = 0;
    for line in lines {
        let end = front.saturating_add(line.len());
        if end > length {
            return (front, false);
        }
        if *line == bad {
            return (front, true);
        }
        front = end;
    }
    (front, false)
}

/// Whether each front of some lines, one behind the other, is lent as the records that are read word
/// by word from the lines in front of this one, which is none.
fn same_fronts(alloc: Global, lines: &[&str], bad: &str) -> Option<bool> {
    let mut text = String::new(alloc);
    for line in lines {
        text.push_str(*line).ok()?;
    }
    let bytes = text.as_bytes();
    for length in 0..bytes.len().saturating_add(1) {
        let (told, left, is_bad) = lent(alloc, bytes.get(..length)?).ok()?;
        let (front, wanted) = in_front(lines, length, bad);
        let read = by_words(alloc, &log_of(alloc, text.get(..front)?)?)?;
        if !told.is(&read) || left != length.saturating_sub(front) || is_bad != wanted {
            return Some(false);
        }
    }
    Some(true)
}

/// Lines whose numbers have each length up to the longest, beside the ends of the ranges.
pub(crate) const NUMBERS: [&str; 16] = [
    "C 1 12 0 -1 7 12\n",
    "C 12 123 65 123 654 -1234\n",
    "C 123 1234 6553 -12345 0 123456\n",
    "C 1234 12345 1 1234567 2 -12345678\n",
    "C 12345 123456 3 123456789 4 -1234567890\n",
    "C 123456 1234567 5 12345678901 6 -123456789012\n",
    "C 1234567 12345678 7 1234567890123 8 -12345678901234\n",
    "C 12345678 123456789 9 123456789012345 10 -1234567890123456\n",
    "C 123456789 1 65535 -2000000000000000 65534 1999999999999999\n",
    "G 12 345 l 1234567\n",
    "A 123 4567 r 12345678\n",
    "T 12345 l 1234567890123456\n",
    "G 1 0 l 12345678901234567\n",
    "A 1 0 r 123456789012345678\n",
    "G 2 3 r 999999999999999999\n",
    "R 12345678\n",
];

/// Commits behind one another, and restarts among them.
const COMMITS: [&str; 7] = [
    "C 0 1 0 -20 1 7\n",
    "C 0 2 3 4\n",
    "R 1\n",
    "C 1 1 5 -6 7 8 9 -10\n",
    "R 2\n",
    "R 3\n",
    "C 3 1 0 1\n",
];

#[test]
fn lent_as_read(rt: HostRuntime) {
    let alloc = rt.alloc();
    assert_eq!(rt; same_fronts(alloc, &COMMITS, ""), Some(true));
    assert_eq!(rt; same_fronts(alloc, &NUMBERS, ""), Some(true));
    assert_eq!(rt; same_fronts(alloc, &RECORDS, ""), Some(true));
}

#[test]
fn lent_up_to_a_line_that_is_no_record(rt: HostRuntime) {
    let alloc = rt.alloc();
    for line in &NO_RECORDS {
        let lines = ["C 0 1 0 -20\n", *line, "G 1 0 l 5\n", "C 0 2 0 5 1 6\n"];
        assert_eq!(rt; same_fronts(alloc, &lines, *line), Some(true));
        assert_eq!(rt; same_fronts(alloc, &lines[1..2], *line), Some(true));
    }
}
