ghost use Rattle.std.specs.Prelude.{◌<◌, length};
ghost use Rattle.gift_ledger.specs.Ledger.{IsSlot};

use super::{BASE, HEADER, gone, joined};
use field_bounds::{FieldNo, Kind, SiteNo};
use held_logs::replay_held;
use log_head::Gone;
use log_replay::{LogReplayed, Standing};
use site_folder::Identity;
use std::alloc::Global;

const STOCK: FieldNo = FieldNo(0);

/// What lines come to.
#[derive(Clone, Copy, Debug, PartialEq, Eq)]
enum Came {
    /// The epoch, the free rights to lower the stock and to raise it, what site 0 was given of those to
    /// lower, and how many bytes the records have.
    Stands(u32, u64, u64, u64, usize),
    BadLine(u64),
    BreaksRule(u64),
}

/// What is told of a standing of site 1.
fn told(standing: &Standing, size: usize) -> Came
    requires stock { 0 < length standing.now.rights }
    requires place { IsSlot standing.now.ledger 0 0 }
{
    let rights = &standing.rights;
    Came::Stands(
        standing.epoch,
        rights.free(STOCK, Kind::Lower),
        rights.free(STOCK, Kind::Raise),
        standing.ledger.total(SiteNo(0), STOCK, Kind::Lower),
        size,
    )
}

/// What records of site 1 come to of which this is gone, or None where memory was refused.
fn replayed(alloc: Global, gone: &Option<Gone>, records: &[u8]) -> Option<Came> {
    let identity = Identity::new(alloc, 1, HEADER.as_bytes()).ok()?;
    let schema = identity.schema();
    if schema.sites() != 2 || schema.fields() != 1 {
        return None;
    }
    match replay_held(alloc, schema, SiteNo(1), gone, records) {
        Ok(LogReplayed::Standing { standing, length }) => Some(told(&standing, length)),
        Ok(LogReplayed::BadLine { number }) => Some(Came::BadLine(number)),
        Ok(LogReplayed::BreaksRule { number }) => Some(Came::BreaksRule(number)),
        Err(_) => None,
    }
}

/// Lines behind the base, and what they come to with it.
const BEHIND: [(&str, Came); 22] = [
    ("", Came::Stands(7, 12, 33, 5, 22)),
    ("R 8", Came::Stands(7, 12, 33, 5, 22)),
    ("R 8\n", Came::Stands(8, 12, 33, 5, 26)),
    // 3 of 12 turn; then 4 of 9 are given.
    ("C 7 1000432 0 -3\nR 8\n", Came::Stands(8, 9, 36, 5, 43)),
    ("C 7 1 0 -3\nG 0 0 l 9\nC 7", Came::Stands(7, 5, 36, 9, 43)),
    // All of both kinds.
    ("C 7 1 0 -12\nC 7 2 0 45\n", Came::Stands(7, 45, 0, 5, 45)),
    // It tells what the base and the commit leave.
    (
        "C 7 1 0 -2\nS 7 1 10 35 g 0 0 l 5\n",
        Came::Stands(7, 10, 35, 5, 55),
    ),
    ("x\n", Came::BadLine(2)),
    ("\n", Came::BadLine(2)),
    ("R 08\n", Came::BadLine(2)),
    // A note among the records isn't one.
    ("K 7 1 6F\n", Came::BadLine(2)),
    ("C 7 1000432 0 -3\nC 7 1000433 0\nR 8\n", Came::BadLine(3)),
    ("x\nR 7\n", Came::BadLine(2)),
    ("R 7\n", Came::BreaksRule(2)),
    ("R 7\nx\n", Came::BreaksRule(2)),
    ("C 6 1 0 -1\n", Came::BreaksRule(2)),
    ("C 7 1 0 -13\n", Came::BreaksRule(2)),
    ("C 7 1 0 34\n", Came::BreaksRule(2)),
    ("G 0 0 l 5\n", Came::BreaksRule(2)),
    ("G 1 0 l 6\n", Came::BreaksRule(2)),
    ("C 7 1 0 -2\nS 7 1 12 33 g 0 0 l 5\n", Came::BreaksRule(3)),
    ("R 8\nC 8 1 0 -1\nA 0 0 l 56\nR 9\n", Came::BreaksRule(4)),
];

#[test]
fn lines_behind_a_base_come_to_what_they_stand_for(rt: HostRuntime) {
    let alloc = rt.alloc();
    let gone = gone(&rt, alloc, 16_000_123, 1_000_000);
    for (lines, expected) in &BEHIND {
        let records = joined(&rt, alloc, &[BASE, *lines]);
        let came = replayed(alloc, &gone, records.as_slice());
        assert_eq!(rt; came, Some(*expected), "{lines}");
    }
}

/// Lines that begin with no base.
const NO_BASES: [(&str, Came); 15] = [
    ("", Came::BadLine(1)),
    ("S 7 1 12 33 g 0 0 l 5", Came::BadLine(1)),
    ("S 7 1 12 33 g 0 0 l 5 \nR 8\n", Came::BadLine(1)),
    ("S 7 1 12 33 g 0 0\n", Came::BadLine(1)),
    ("s 7 1 12 33\n", Came::BadLine(1)),
    ("\nS 7 1 12 33 g 0 0 l 5\n", Came::BadLine(1)),
    ("R 8\n", Came::BreaksRule(1)),
    ("C 0 1 0 -1\nS 0 1 19 31\n", Came::BreaksRule(1)),
    ("G 0 0 l 5\n", Came::BreaksRule(1)),
    // Out of balance by one.
    ("S 7 1 12 34 g 0 0 l 5\n", Came::BreaksRule(1)),
    ("S 7 1 12 33 g 0 0 l 4\n", Came::BreaksRule(1)),
    ("S 7 1 12 33 a 0 0 l 5\n", Came::BreaksRule(1)),
    // Totals of the own site, and of one that there isn't.
    ("S 7 1 20 30 g 1 0 l 5 a 1 0 l 5\n", Came::BreaksRule(1)),
    ("S 7 1 12 33 g 2 0 l 5\n", Came::BreaksRule(1)),
    // A field too many.
    ("S 7 2 12 33 0 0 g 0 0 l 5\n", Came::BreaksRule(1)),
];

#[test]
fn lines_that_begin_with_no_base_are_refused_at_the_first(rt: HostRuntime) {
    let alloc = rt.alloc();
    let gone = gone(&rt, alloc, 16_000_123, 1_000_000);
    for (lines, expected) in &NO_BASES {
        let came = replayed(alloc, &gone, lines.as_bytes());
        assert_eq!(rt; came, Some(*expected), "{lines}");
    }
}

/// Lines of a log of which nothing is gone.
const WHOLE: [(&str, Came); 7] = [
    ("", Came::Stands(0, 20, 30, 0, 0)),
    (
        "R 1\nC 1 1 0 -15\nG 0 0 l 5\nC 1",
        Came::Stands(1, 0, 45, 5, 26),
    ),
    ("S 7 1 12 33 g 0 0 l 5\n", Came::BreaksRule(1)),
    ("S 0 1 20 30\nR 1\n", Came::Stands(1, 20, 30, 0, 16)),
    ("R 1\nC 1 1 0 -21\nx\n", Came::BreaksRule(2)),
    ("R 1\nx\nR 1\n", Came::BadLine(2)),
    ("R 08\n", Came::BadLine(1)),
];

#[test]
fn whole_logs_come_to_what_they_stand_for(rt: HostRuntime) {
    let alloc = rt.alloc();
    for (lines, expected) in &WHOLE {
        let came = replayed(alloc, &None, lines.as_bytes());
        assert_eq!(rt; came, Some(*expected), "{lines}");
    }
}
