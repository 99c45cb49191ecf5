//! Worked logs of site 0 of two, on one field from 0 to 100 at 40: each site begins with 20 rights
//! to lower it and 30 to raise it. Every expected value is worked out by hand.

ghost use Rattle.std.specs.Prelude.{◌<◌, ◌≤◌, length};
ghost use Rattle.field_bounds.specs.Owed.{max_total};
ghost use Rattle.gift_ledger.specs.Ledger.{IsSlot};

use check_kit::{STOCK, stock_of_two};
use field_bounds::{Kind, SiteNo};
use kept_records::{MemoryMedium, Record, read_back, read_front, read_records};
use log_replay::*;
use std::alloc::Global;

const HERE: SiteNo = SiteNo(0);

const OTHER: SiteNo = SiteNo(1);

/// What is read off a standing: the rights of both kinds, what was given up of each, the totals of
/// lowering rights with the other site, and the epoch.
#[derive(Clone, Copy, Debug, PartialEq, Eq)]
struct Stands {
    lower: u64,
    raise: u64,
    cut_lower: u64,
    cut_raise: u64,
    given: u64,
    accepted: u64,
    epoch: u32,
}

const PARTS: Stands = Stands {
    lower: 20,
    raise: 30,
    cut_lower: 0,
    cut_raise: 0,
    given: 0,
    accepted: 0,
    epoch: 0,
};

/// What differs from the parts.
macro_rules! stands {
    ($($part:ident: $value:literal),*) => {
        Stands { $($part: $value,)* ..PARTS }
    };
}

/// Logs that break no rule, and what they stand for.
const LAWFUL: [(&str, Stands); 21] = [
    ("", PARTS),
    ("C 0 1 0 -20\n", stands!(lower: 0, raise: 50)),
    ("C 0 1 0 -5 0 3 0 -1\n", stands!(lower: 17, raise: 33)),
    ("G 1 0 l 5\n", stands!(lower: 15, given: 5)),
    ("G 1 0 l 5\nG 1 0 l 20\n", stands!(lower: 0, given: 20)),
    ("A 1 0 l 5\n", stands!(lower: 25, accepted: 5)),
    ("A 1 0 l 5\nA 1 0 l 50\n", stands!(lower: 70, accepted: 50)),
    ("R 1\n", stands!(epoch: 1)),
    ("R 1\nC 1 1 0 -1\n", stands!(lower: 19, raise: 31, epoch: 1)),
    (
        "C 0 1 0 -20\nR 3\nA 1 0 l 4\nG 1 0 l 4\n",
        stands!(lower: 0, raise: 50, given: 4, accepted: 4, epoch: 3),
    ),
    ("T 0 l 5\n", stands!(lower: 15, cut_lower: 5)),
    (
        "T 0 l 5\nT 0 r 30\nT 0 l 20\n",
        stands!(lower: 0, raise: 0, cut_lower: 20, cut_raise: 30),
    ),
    (
        "T 0 l 5\nR 1\nC 1 1 0 -15\nT 0 r 45\n",
        stands!(lower: 0, raise: 0, cut_lower: 5, cut_raise: 45, epoch: 1),
    ),
    (
        "T 0 l 20\nA 1 0 l 50\n",
        stands!(lower: 50, cut_lower: 20, accepted: 50),
    ),
    ("S 0 1 20 30\n", PARTS),
    (
        "G 1 0 l 5\nS 0 1 15 30 g 1 0 l 5\n",
        stands!(lower: 15, given: 5),
    ),
    (
        "T 0 l 5\nS 0 1 15 30 t 0 l 5\n",
        stands!(lower: 15, cut_lower: 5),
    ),
    (
        "C 0 1 0 -20\nR 3\nS 3 1 0 50\nA 1 0 l 4\nG 1 0 l 4\n",
        stands!(lower: 0, raise: 50, given: 4, accepted: 4, epoch: 3),
    ),
    (
        "G 1 0 l 5\nA 1 0 l 4\nS 0 1 19 30 g 1 0 l 5 a 1 0 l 4\nG 1 0 l 6\n",
        stands!(lower: 18, given: 6, accepted: 4),
    ),
    (
        "T 0 l 5\nS 0 1 15 30 t 0 l 5\nA 1 0 l 50\n",
        stands!(lower: 65, cut_lower: 5, accepted: 50),
    ),
    (
        "G 1 0 l 5\nT 0 r 30\nT 0 l 15\nS 0 1 0 0 g 1 0 l 5 t 0 l 15 t 0 r 30\n",
        stands!(lower: 0, raise: 0, cut_lower: 15, cut_raise: 30, given: 5),
    ),
];

/// Logs that break a rule, and the first record that does.
const BROKEN: [(&str, u64); 33] = [
    ("C 0 1 0 -20\nC 0 2 0 -20\n", 2),
    ("C 0 1 0 -20 0 -1\n", 1),
    ("C 0 1 0 31\n", 1),
    ("C 1 1 0 -1\n", 1),
    ("R 1\nC 0 1 0 -1\n", 2),
    ("R 1\nR 1\n", 2),
    ("R 2\nR 1\nG 0 0 l 5\n", 2),
    ("G 0 0 l 5\n", 1),
    ("G 2 0 l 5\n", 1),
    ("G 1 0 l 21\n", 1),
    ("G 1 0 l 5\nG 1 0 l 5\n", 2),
    ("A 0 0 l 5\n", 1),
    ("A 2 0 l 5\n", 1),
    ("A 1 0 l 51\n", 1),
    ("A 1 0 l 5\nA 1 0 l 5\n", 2),
    ("C 0 1 1 -1\n", 1),
    ("G 1 1 l 5\n", 1),
    ("A 1 1 l 5\n", 1),
    ("T 0 l 5\nT 0 l 5\n", 2),
    ("T 0 l 5\nT 0 l 4\n", 2),
    ("T 0 l 21\n", 1),
    ("T 1 l 5\n", 1),
    ("T 0 l 20\nA 1 0 l 51\n", 2),
    ("T 0 l 5\nC 0 1 0 -16\n", 2),
    ("S 0 1 20 31\n", 1),
    ("S 1 1 20 30\n", 1),
    ("S 0 2 20 30 0 0\n", 1),
    ("G 1 0 l 5\nS 0 1 15 30\n", 2),
    ("G 1 0 l 5\nS 0 1 15 30 g 1 0 l 5 a 1 0 l 5\n", 2),
    ("T 0 l 5\nS 0 1 15 30\n", 2),
    ("T 0 l 5\nS 0 1 20 30 t 0 l 5\n", 2),
    ("S 0 1 20 30 t 0 l 5\n", 1),
    ("S 0 1 20 30\nT 0 l 5\nS 0 1 20 30\n", 3),
];

fn read_off(standing: &Standing) -> Stands
    requires rights { 0 < length standing.now.rights }
    requires place { IsSlot standing.now.ledger 1 0 }
{
    Stands {
        lower: standing.rights.free(STOCK, Kind::Lower),
        raise: standing.rights.free(STOCK, Kind::Raise),
        cut_lower: standing.rights.tightened(STOCK, Kind::Lower),
        cut_raise: standing.rights.tightened(STOCK, Kind::Raise),
        given: standing.ledger.total(OTHER, STOCK, Kind::Lower),
        accepted: standing.ledger.accepted(OTHER, STOCK, Kind::Lower),
        epoch: standing.epoch,
    }
}

/// What the log comes to, or None where memory was refused.
fn replayed(alloc: Global, log: &str) -> Option<Result<Stands, u64>> {
    let schema = stock_of_two(alloc)?;
    if schema.sites() != 2 || schema.fields() != 1 {
        return None;
    }
    let (records, _) = read_records(alloc, log.as_bytes()).ok()?;
    match replay(alloc, &schema, HERE, &records) {
        Ok(Replayed::Standing(standing)) => Some(Ok(read_off(&standing))),
        Ok(Replayed::BreaksRule { number }) => Some(Err(number)),
        Err(_) => None,
    }
}

/// Whether the record of a first restart is taken in, and the epoch behind it, or None where memory
/// was refused.
fn restarted(alloc: Global) -> Option<(bool, u32)> {
    let schema = stock_of_two(alloc)?;
    if schema.sites() != 2 {
        return None;
    }
    let mut standing = Standing::new(alloc, &schema, HERE).ok()?;
    let next = Record::Restart { epoch: 1 };
    let may = take_next(alloc, &schema, &mut standing, &next).ok()?;
    Some((may, standing.epoch))
}

#[test]
fn one_record_is_taken_in(rt: HostRuntime) {
    assert_eq!(rt; restarted(rt.alloc()), Some((true, 1)));
}

#[test]
fn lawful_logs(rt: HostRuntime) {
    for (log, stands) in &LAWFUL {
        assert_eq!(rt; replayed(rt.alloc(), *log), Some(Ok(*stands)));
    }
}

#[test]
fn broken_logs(rt: HostRuntime) {
    for (log, number) in &BROKEN {
        assert_eq!(rt; replayed(rt.alloc(), *log), Some(Err(*number)));
    }
}

/// What a lawful log comes to from its last summary on, and how many records were taken in for
/// that.
fn resumed(alloc: Global, log: &str) -> Option<(Stands, u64)> {
    let schema = stock_of_two(alloc)?;
    if schema.sites() != 2 || schema.fields() != 1 {
        return None;
    }
    let bytes = log.as_bytes();
    let (records, _) = read_records(alloc, bytes).ok()?;
    let Ok(Replayed::Standing(_)) = replay(alloc, &schema, HERE, &records) else {
        return None;
    };
    let mut medium = MemoryMedium::new(Vec::from_slice(alloc, bytes).ok()?);
    let end = read_back(alloc, &mut medium, 0).ok()?;
    match resume(alloc, &schema, HERE, &end) {
        Ok(resumed) => Some((read_off(&resumed.standing), resumed.turns)),
        Err(_) => None,
    }
}

fn resumed_stands(alloc: Global, log: &str) -> Option<Stands> {
    let (stands, _) = resumed(alloc, log)?;
    Some(stands)
}

#[test]
fn every_lawful_log_resumes(rt: HostRuntime) {
    for (log, stands) in &LAWFUL {
        assert_eq!(rt; resumed_stands(rt.alloc(), *log), Some(*stands));
    }
}

#[test]
fn a_log_resumes_at_its_last_summary(rt: HostRuntime) {
    let alloc = rt.alloc();
    let given = stands!(lower: 15, given: 5);
    assert_eq!(rt; resumed(alloc, "G 1 0 l 5\n"), Some((given, 1)));
    assert_eq!(rt;
        resumed(alloc, "S 0 1 20 30\nG 1 0 l 5\nS 0 1 15 30 g 1 0 l 5\n"),
        Some((given, 0))
    );
    assert_eq!(rt; resumed(alloc, "G 1 0 l 5\nS 0 1 15 3"), Some((given, 1)));
    let restarted = Stands { epoch: 2, ..given };
    assert_eq!(rt;
        resumed(alloc, "G 1 0 l 5\nS 0 1 15 30 g 1 0 l 5\nR 1\nR 2\n"),
        Some((restarted, 2))
    );
    assert_eq!(rt;
        resumed(
            alloc,
            "G 1 0 l 5\nS 0 1 15 30 g 1 0 l 5\nR 1\nR 2\nS 2 1 15 30 g 1 0 l"
        ),
        Some((restarted, 2))
    );
}

/// What the summary tells that follows a first gift of so many rights to lower: the epoch, the
/// rights, and how many totals each group has. None where the gift breaks a rule.
fn told_after_gift(
    alloc: Global,
    total: u64,
) -> Option<(u32, Option<(u64, u64)>, (usize, usize, usize))>
    requires some { 0 < total }
    requires few { total ≤ max_total }
{
    let schema = stock_of_two(alloc)?;
    if schema.sites() != 2 {
        return None;
    }
    let records = [Record::Gift {
        to: OTHER,
        field: STOCK,
        kind: Kind::Lower,
        total,
    }];
    let Ok(Replayed::Standing(_)) = replay(alloc, &schema, HERE, &records) else {
        return None;
    };
    let Ok(standing) = Standing::new(alloc, &schema, HERE) else {
        return None;
    };
    let told = summary_after(alloc, &schema, &standing, &records[0]).ok()?;
    Some((
        told.epoch(),
        told.rights().get(0).copied(),
        (
            told.gifts().len(),
            told.accepts().len(),
            told.tightenings().len(),
        ),
    ))
}

#[test]
fn a_summary_after_one_more_record(rt: HostRuntime) {
    let alloc = rt.alloc();
    assert_eq!(rt;
        told_after_gift(alloc, 5),
        Some((0, Some((15, 30)), (1, 0, 0)))
    );
    assert_eq!(rt; told_after_gift(alloc, 21), None);
}

/// What the bytes of a log come to: what it stands for and the length of its records, or the first
/// line that is no record, or the first record that breaks a rule.
#[derive(Clone, Copy, Debug, PartialEq, Eq)]
enum Came {
    To(Stands, usize),
    BadLine(u64),
    BreaksRule(u64),
}

const GIVEN: Stands = stands!(lower: 15, given: 5);

/// Logs with a torn end, with lines that are no records, and with records that break a rule, before
/// and behind one another. The gift of five has 10 bytes, the commit of twenty 12.
const ROWS: [(&str, Came); 31] = [
    ("", Came::To(PARTS, 0)),
    ("x", Came::To(PARTS, 0)),
    ("R 1", Came::To(PARTS, 0)),
    ("R 1\n", Came::To(stands!(epoch: 1), 4)),
    ("G 1 0 l 5\nG 1 0 l", Came::To(GIVEN, 10)),
    ("G 1 0 l 5\nS 0 1 15 3", Came::To(GIVEN, 10)),
    (
        "C 0 1 0 -20\nG 1 0 l 1",
        Came::To(stands!(lower: 0, raise: 50), 12),
    ),
    // The summary has 22 bytes.
    ("G 1 0 l 5\nS 0 1 15 30 g 1 0 l 5\nx", Came::To(GIVEN, 32)),
    ("\n", Came::BadLine(1)),
    ("x\n", Came::BadLine(1)),
    ("R 0\n", Came::BadLine(1)),
    ("R 1\r\n", Came::BadLine(1)),
    ("G 1 0 l 05\n", Came::BadLine(1)),
    ("C 0 1\n", Came::BadLine(1)),
    ("S 0 0\n", Came::BadLine(1)),
    ("G 1 0 l 5\nC 0 1 0\nG 1 0 l 6\n", Came::BadLine(2)),
    ("S 0 1 20 30\n\n", Came::BadLine(2)),
    // A broken rule in front of a line that is no record.
    ("G 1 0 l 21\nx\n", Came::BadLine(2)),
    ("S 0 1 20 31\nx\n", Came::BadLine(2)),
    ("R 1\nR 1\nS 1 1 20 30\nC 1 1 0 -1\n\n", Came::BadLine(5)),
    ("S 0 1 20 31\nS 0 1 20 31\nx\nx\n", Came::BadLine(3)),
    // Behind one.
    ("x\nG 1 0 l 21\n", Came::BadLine(1)),
    ("R 1\nx\nR 1\n", Came::BadLine(2)),
    ("R 1\nx\nS 0 1 20 31\n", Came::BadLine(2)),
    // No line is bad: what is torn is none.
    ("G 1 0 l 21\nx", Came::BreaksRule(1)),
    ("R 1\nR 1\nR 2\nR 2\nx", Came::BreaksRule(2)),
    ("S 0 1 20 31\nG 1 0 l 21\nS 0 1 20 30", Came::BreaksRule(1)),
    ("G 1 0 l 5\nS 0 1 20 30\n", Came::BreaksRule(2)),
    ("S 0 1 20 30\nS 1 1 20 30\nR 1\n", Came::BreaksRule(2)),
    ("T 0 l 5\nA 1 0 l 56\nR 1\n", Came::BreaksRule(2)),
    ("C 0 1 0 -1 0 -1\nC 0 2 0 -19\n", Came::BreaksRule(2)),
];

/// What a log comes to, straight from its bytes, or None where memory was refused.
fn from_bytes(alloc: Global, bytes: &[u8]) -> Option<Came> {
    let schema = stock_of_two(alloc)?;
    if schema.sites() != 2 || schema.fields() != 1 {
        return None;
    }
    match replay_log(alloc, &schema, HERE, bytes) {
        Ok(LogReplayed::Standing { standing, length }) => {
            Some(Came::To(read_off(&standing), length))
        }
        Ok(LogReplayed::BadLine { number }) => Some(Came::BadLine(number)),
        Ok(LogReplayed::BreaksRule { number }) => Some(Came::BreaksRule(number)),
        Err(_) => None,
    }
}

/// The same, of the list of its records.
fn from_records(alloc: Global, bytes: &[u8]) -> Option<Came> {
    let schema = stock_of_two(alloc)?;
    if schema.sites() != 2 || schema.fields() != 1 {
        return None;
    }
    let front = read_front(alloc, bytes).ok()?;
    if let Some(number) = front.bad_line {
        return Some(Came::BadLine(number));
    }
    match replay(alloc, &schema, HERE, &front.records) {
        Ok(Replayed::Standing(standing)) => Some(Came::To(read_off(&standing), front.length)),
        Ok(Replayed::BreaksRule { number }) => Some(Came::BreaksRule(number)),
        Err(_) => None,
    }
}

#[test]
fn logs_come_to_the_same_from_bytes(rt: HostRuntime) {
    for (log, came) in &ROWS {
        assert_eq!(rt;
            from_bytes(rt.alloc(), log.as_bytes()),
            Some(*came),
            "{log}"
        );
        assert_eq!(rt;
            from_records(rt.alloc(), log.as_bytes()),
            Some(*came),
            "{log}"
        );
    }
}

#[test]
fn lawful_logs_from_bytes(rt: HostRuntime) {
    for (log, stands) in &LAWFUL {
        let came = Some(Came::To(*stands, log.len()));
        assert_eq!(rt; from_bytes(rt.alloc(), log.as_bytes()), came, "{log}");
    }
}

#[test]
fn broken_logs_from_bytes(rt: HostRuntime) {
    for (log, number) in &BROKEN {
        let came = Some(Came::BreaksRule(*number));
        assert_eq!(rt; from_bytes(rt.alloc(), log.as_bytes()), came, "{log}");
    }
}

/// The log of a commit of so many escrows, of one right each: six bytes, and five for each escrow.
fn commit_of(alloc: Global, escrows: u8) -> Option<Vec<u8>> {
    let mut log = Vec::from_slice(alloc, b"C 0 1").ok()?;
    for _escrow in 0..escrows {
        log.extend_from_slice(b" 0 -1").ok()?;
    }
    log.push(b'\n').ok()?;
    Some(log)
}

/// What that comes to.
fn committed(alloc: Global, escrows: u8) -> Option<Came> {
    from_bytes(alloc, commit_of(alloc, escrows)?.as_slice())
}

#[test]
fn commits_from_bytes(rt: HostRuntime) {
    for escrows in 1..17u8 {
        let spent = u64::from(escrows);
        let stands = Stands {
            lower: 20 - spent,
            raise: 30 + spent,
            ..PARTS
        };
        let came = Came::To(stands, 6 + 5 * usize::from(escrows));
        assert_eq!(rt; committed(rt.alloc(), escrows), Some(came));
    }
    assert_eq!(rt; committed(rt.alloc(), 0), Some(Came::BadLine(1)));
    assert_eq!(rt; committed(rt.alloc(), 17), Some(Came::BadLine(1)));
}
