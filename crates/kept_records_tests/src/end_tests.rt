//! Worked rows of the end of a medium.

ghost use Rattle.kept_records.specs.Keeping.{IsKept};

use crate::tests::{log_of, memory_of, torn_of};
use kept_records::*;
use std::alloc::{AllocError, Global};

/// A medium of the calls that have no body of their own.
#[derive(Drop)]
struct Plain {
    under: TornMedium,
}

impl Medium for Plain {
    ghost use Rattle.kept_records.specs.Media.{mishap_next};

    ghost bytes = { λ m. m.under.bytes };

    ghost room = { λ m. m.under.room };

    ghost failed = { λ m. m.under.failures };

    ghost foretold = { λ m. mishap_next m.under };

    fn read_all(&mut self, alloc: Global) -> Result<Vec<u8>, MediumFault> {
        self.under.read_all(alloc)
    }

    fn reserve(&mut self, additional: usize) -> Result<(), AllocError> {
        self.under.reserve(additional)
    }

    fn append(&mut self, piece: &[u8]) -> Result<(), Device> {
        self.under.append(piece)
    }

    fn cut(&mut self, kept: usize) -> Result<(), Device> {
        self.under.cut(kept)
    }

    fn failures(&self) -> u64 {
        self.under.failures()
    }
}

/// Whether the medium ends with these bytes where so many are read, and holds so many in all.
fn ends_with<M: Medium>(
    alloc: Global,
    medium: &mut M,
    most: usize,
    wanted: &str,
    length: usize,
) -> bool {
    match medium.read_end(alloc, most) {
        Ok(end) => end.bytes.as_slice() == wanted.as_bytes() && end.length == length,
        Err(_) => false,
    }
}

/// What each medium holds.
const HELD: &str = "R 1\nG 1 0";

/// How many bytes are read from the end of those held, and which come.
const READ: [(usize, &str); 4] = [(0, ""), (5, "G 1 0"), (9, "R 1\nG 1 0"), (10, "R 1\nG 1 0")];

/// Whether each of these ends is read of the medium.
fn ends<M: Medium>(alloc: Global, medium: &mut M) -> bool {
    for (most, wanted) in &READ {
        if !ends_with(alloc, medium, *most, *wanted, 9) {
            return false;
        }
    }
    true
}

/// The same of a medium in memory, or None where memory was refused.
fn memory_ends(alloc: Global) -> Option<bool> {
    let mut medium = memory_of(alloc, HELD)?;
    Some(ends(alloc, &mut medium))
}

/// The same of a medium that mishaps can strike.
fn torn_ends(alloc: Global) -> Option<bool> {
    let mut medium = torn_of(alloc, HELD)?;
    Some(ends(alloc, &mut medium))
}

/// The same of one whose calls have no body of their own.
fn plain_ends(alloc: Global) -> Option<bool> {
    let under = torn_of(alloc, HELD)?;
    let mut medium = Plain { under };
    Some(ends(alloc, &mut medium))
}

#[test]
fn the_end_of_each_medium(rt: HostRuntime) {
    let alloc = rt.alloc();
    let ends = [memory_ends(alloc), torn_ends(alloc), plain_ends(alloc)];
    assert_eq!(rt; ends, [Some(true), Some(true), Some(true)]);
}

/// Whether a read of the end meets a fault of the device.
fn end_fails<M: Medium>(alloc: Global, medium: &mut M) -> bool {
    matches!(medium.read_end(alloc, 5), Err(MediumFault::Device))
}

/// Whether a first read of the end fails under a mishap, whether a second one gives the end, and
/// how many failures there were.
fn struck_end(alloc: Global) -> Option<(bool, bool, u64)> {
    let mut medium = torn_of(alloc, HELD)?;
    medium.arm(Mishap::Read);
    let fails = end_fails(alloc, &mut medium);
    let ends = ends_with(alloc, &mut medium, 5, "G 1 0", 9);
    Some((fails, ends, medium.failures()))
}

#[test]
fn a_mishap_for_reads_strikes_the_end(rt: HostRuntime) {
    assert_eq!(rt; struck_end(rt.alloc()), Some((true, true, 1)));
}

/// How many records a cursor hands out.
fn handed_out(alloc: Global, lines: &[u8]) -> Option<u64>
    requires { IsKept lines.now }
{
    let mut count: u64 = 0;
    let mut records = Cursor::new(alloc, lines);
    while let Some(_record) = records.next(alloc).ok()? {
        count = count.saturating_add(1);
    }
    Some(count)
}

/// What the end of a log is read as, with all records behind the place: the epoch of the last
/// summary; how many records stand behind it, and in all; and the length of the records and of all
/// bytes.
fn told_back(alloc: Global, text: &str) -> Option<(Option<u32>, (u64, usize), (usize, usize))> {
    let mut medium = MemoryMedium::new(log_of(alloc, text)?);
    let read = read_back(alloc, &mut medium, 0).ok()?;
    let behind = handed_out(alloc, read.lines.as_slice())?;
    let epoch = match &read.summary {
        Some(summary) => Some(summary.epoch()),
        None => None,
    };
    Some((
        epoch,
        (behind, read.behind.len()),
        (read.whole, read.present),
    ))
}

/// Logs, and what their ends are read as.
const ENDS: [(&str, (Option<u32>, (u64, usize), (usize, usize))); 7] = [
    (
        "R 1\nS 1 1 20 30\nR 2\nC 2 1 0 -5 0 3\nC 2 2 0 1\n",
        (Some(1), (3, 5), (45, 45)),
    ),
    (
        "R 1\nS 1 1 20 30\nR 2\nS 2 1 20 30\nR 3\nG 1",
        (Some(2), (1, 5), (36, 39)),
    ),
    (
        "R 1\nS 1 1 20 30\nR 2\nS 2 1 20 3",
        (Some(1), (1, 3), (20, 30)),
    ),
    ("R 1\nG 1 0 l 5\nR", (None, (2, 2), (14, 15))),
    // A summary at the front of a log, the same without its line feed, and no log.
    ("S 0 1 20 30\nT 0 l 5\n", (Some(0), (1, 2), (20, 20))),
    ("S 0 1 20 30", (None, (0, 0), (0, 11))),
    ("", (None, (0, 0), (0, 0))),
];

#[test]
fn the_last_summary_and_the_lines_behind_it(rt: HostRuntime) {
    for (text, end) in &ENDS {
        let found = (*text, told_back(rt.alloc(), *text));
        assert_eq!(rt; found, (*text, Some(*end)));
    }
}
