//! Logs that are read to a list of records, beside those that are read line by line, and those that
//! are counted.

use crate::lent_tests::{NUMBERS, in_front};
use crate::tests::{NO_RECORDS, RECORDS};
use crate::told::{Told, by_words};
use kept_records::*;
use std::alloc::Global;

/// What the records tell that are read to a list.
fn listed(alloc: Global, bytes: &[u8]) -> Option<Told> {
    let front = read_front(alloc, bytes).ok()?;
    let mut told = Told::new(alloc);
    for kept in &front.records {
        told.tell(kept).ok()?;
    }
    Some(told)
}

/// What those tell that are read line by line, each word by word, of the bytes of records alone.
fn walked(alloc: Global, records: &[u8]) -> Option<Told> {
    match read_records(alloc, records) {
        Ok(_) => by_words(alloc, records),
        Err(_) => None,
    }
}

/// How many records but summaries stand in front of the first line that is none, how many bytes all
/// of them take up, and that line.
type Counted = (usize, usize, Option<u64>);

fn counted(alloc: Global, bytes: &[u8]) -> Option<Counted> {
    let count = count_log(alloc, bytes).ok()?;
    Some((count.plain, count.length, count.bad_line))
}

/// The same of the list.
fn counted_in_list(alloc: Global, bytes: &[u8]) -> Option<Counted> {
    let front = read_front(alloc, bytes).ok()?;
    Some((count_plain(&front.records), front.length, front.bad_line))
}

/// Whether each way tells the same of these bytes, of which so many in front are records.
fn agree(alloc: Global, bytes: &[u8], front: usize) -> Option<bool> {
    let same = listed(alloc, bytes)?.is(&walked(alloc, bytes.get(..front)?)?);
    Some(same && counted(alloc, bytes)? == counted_in_list(alloc, bytes)?)
}

/// The same of each front of some lines, one behind the other, of which this one is no record.
fn fronts_agree(alloc: Global, lines: &[&str], bad: &str) -> Option<bool> {
    let mut bytes = Vec::new(alloc);
    for line in lines {
        bytes.extend_from_slice(line.as_bytes()).ok()?;
    }
    for length in 0..bytes.len().saturating_add(1) {
        let (front, _) = in_front(lines, length, bad);
        if !agree(alloc, bytes.get(..length)?, front)? {
            return Some(false);
        }
    }
    Some(true)
}

/// A log of each kind of record, with commits of 1, 4, 5, 16 and again 1 escrows, and a torn end.
const EACH_KIND: [&str; 11] = [
    "C 1 1 0 -5\n",
    "G 1 0 l 5\n",
    "C 1 2 0 1 1 -2 2 3 3 -4\n",
    "S 1 1 20 30\n",
    "C 1 3 9 1 8 -2 7 3 6 -4 5 5\n",
    "A 1 0 r 6\n",
    "C 1 4 0 1 1 2 2 3 3 4 4 5 5 6 6 7 7 8 8 9 9 1 0 2 1 3 2 4 3 5 4 6 5 7\n",
    "T 0 l 7\n",
    "R 2\n",
    "C 2 1 4 -9\n",
    "G 1",
];

const FIELDS: [u16; 27] = [
    0, 0, 1, 2, 3, 9, 8, 7, 6, 5, 0, 1, 2, 3, 4, 5, 6, 7, 8, 9, 0, 1, 2, 3, 4, 5, 4,
];

const CHANGES: [i64; 27] = [
    -5, 1, -2, 3, -4, 1, -2, 3, -4, 5, 1, 2, 3, 4, 5, 6, 7, 8, 9, 1, 2, 3, 4, 5, 6, 7, -9,
];

/// Whether the log of each kind of record is read as it is written.
fn each_kind_is_read(alloc: Global) -> Option<bool> {
    let mut bytes = Vec::new(alloc);
    for line in &EACH_KIND {
        bytes.extend_from_slice(line.as_bytes()).ok()?;
    }
    let told = listed(alloc, &bytes)?;
    let read = told.letters.as_slice() == b"CGCSCACTRC".as_slice()
        && told.sizes.as_slice() == [1, 4, 5, 16, 1].as_slice()
        && told.fields.as_slice() == FIELDS.as_slice()
        && told.changes.as_slice() == CHANGES.as_slice();
    Some(read && counted(alloc, &bytes)? == (9, 188, None))
}

#[test]
fn records_of_each_kind_are_listed(rt: HostRuntime) {
    assert_eq!(rt; each_kind_is_read(rt.alloc()), Some(true));
}

#[test]
fn listed_and_counted_as_read_by_line(rt: HostRuntime) {
    let alloc = rt.alloc();
    assert_eq!(rt; fronts_agree(alloc, &EACH_KIND, ""), Some(true));
    assert_eq!(rt; fronts_agree(alloc, &NUMBERS, ""), Some(true));
    assert_eq!(rt; fronts_agree(alloc, &RECORDS, ""), Some(true));
}

#[test]
fn listed_and_counted_up_to_a_line_that_is_no_record(rt: HostRuntime) {
    let alloc = rt.alloc();
    for line in &NO_RECORDS {
        let lines = ["C 0 1 0 -20\n", "S 0 1 20 30\n", *line, "C 0 2 0 5 1 6\n"];
        assert_eq!(rt; fronts_agree(alloc, &lines, *line), Some(true));
    }
}

/// Logs, and what they are counted as.
const COUNTS: [(&str, Counted); 9] = [
    ("", (0, 0, None)),
    ("R 1", (0, 0, None)),
    ("\n", (0, 0, Some(1))),
    ("S 0 1 20 30\nS 0 1 20 30\n", (0, 24, None)),
    ("R 1\nS 1 1 20 30\nG 1 0 l 5\nC 1 1 0 -5 1", (2, 26, None)),
    (
        "R 1\nS 1 1 20 30\nG 1 0 l 5\nG 1 0 l 0\nR 2\n",
        (2, 26, Some(4)),
    ),
    ("S 0 1 20 30\nS 0 1 20\nR 1\n", (0, 12, Some(2))),
    // The first is lent, the others are too long for that.
    (
        "G 1 0 l 99999999999999999\nG 1 0 l 100000000000000000\nA 1 0 r 1000000000000000000\n",
        (3, 81, None),
    ),
    // A commit of 16 escrows, and one of 17.
    (
        "C 0 1 0 1 0 1 0 1 0 1 0 1 0 1 0 1 0 1 0 1 0 1 0 1 0 1 0 1 0 1 0 1 0 1\n\
         C 0 2 0 1 0 1 0 1 0 1 0 1 0 1 0 1 0 1 0 1 0 1 0 1 0 1 0 1 0 1 0 1 0 1 0 1\n",
        (1, 70, Some(2)),
    ),
];

#[test]
fn logs_are_counted(rt: HostRuntime) {
    for (text, count) in &COUNTS {
        let found = (*text, counted(rt.alloc(), text.as_bytes()));
        assert_eq!(rt; found, (*text, Some(*count)));
    }
}
