//! Worked rows of stops: each expected answer is worked out by hand.

mod hostile;

use super::tears::{After, Tear, assert_lengths};
use super::*;
use check_kit::{command, entry, reply};
use kept_records::Mishap::{Append, Cut, Never, Read};
use kept_records::{Mishap, TornMedium};

/// A command under a mishap, and what the site answers.
type Step = (Mishap, Entry);

/// An open transaction is aborted by a restart, and numbers start anew in the new epoch.
const OPEN_AT_A_RESTART: [Step; 5] = [
    (Never, entry!(0 begin -> begun 0.1)),
    (Never, entry!(0 escrow 0.1 stock -20 -> granted)),
    (Never, entry!(0 restart -> restarted 1 nothing)),
    (Never, entry!(0 commit 0.1 -> refused 4 no transaction)),
    (Never, entry!(0 begin -> begun 1.1)),
];

/// A commit's record that lacks its last byte is lost.
const LOST: [Step; 7] = [
    (Never, entry!(0 begin -> begun 0.1)),
    (Never, entry!(0 escrow 0.1 stock -20 -> granted)),
    (Append(11), entry!(0 commit 0.1 -> unsure)),
    (Never, entry!(0 read stock -> refused 1 down)),
    (Never, entry!(0 restart -> restarted 1 lost)),
    (Never, entry!(0 share stock -> share 20 30)),
    (Never, entry!(0 read stock -> between 20 70)),
];

/// A commit's record that stands whole is kept.
const KEPT: [Step; 7] = [
    (Never, entry!(0 begin -> begun 0.1)),
    (Never, entry!(0 escrow 0.1 stock -20 -> granted)),
    (Append(12), entry!(0 commit 0.1 -> unsure)),
    (Never, entry!(0 read stock -> refused 1 down)),
    (Never, entry!(0 restart -> restarted 1 kept)),
    (Never, entry!(0 share stock -> share 0 50)),
    (Never, entry!(0 read stock -> between 0 50)),
];

/// A restart that fails leaves the record in doubt to the next one.
const FAILED_RESTART: [Step; 5] = [
    (Never, entry!(0 begin -> begun 0.1)),
    (Never, entry!(0 escrow 0.1 stock -20 -> granted)),
    (Append(12), entry!(0 commit 0.1 -> unsure)),
    (Append(2), entry!(0 restart -> still down)),
    (Never, entry!(0 restart -> restarted 1 kept)),
];

/// A restart that fails with its record whole uses its epoch up.
const EPOCH_USED_UP: [Step; 2] = [
    (Append(4), entry!(0 restart -> still down)),
    (Never, entry!(0 restart -> restarted 2 nothing)),
];

/// Each kind of call fails once.
const EACH_MISHAP: [Step; 6] = [
    (Never, entry!(0 begin -> begun 0.1)),
    (Never, entry!(0 escrow 0.1 stock -20 -> granted)),
    (Append(11), entry!(0 commit 0.1 -> unsure)),
    (Cut, entry!(0 restart -> still down)),
    (Read, entry!(0 restart -> still down)),
    (Never, entry!(0 restart -> restarted 1 lost)),
];

/// Over the record of the last epoch.
const LAST_EPOCH: [Step; 2] = [
    (Never, entry!(0 begin -> refused 1 down)),
    (Never, entry!(0 restart -> refused 14 numbers full)),
];

/// Over a torn record.
const TORN_RECORD: [Step; 2] = [
    (Never, entry!(0 begin -> refused 1 down)),
    (Never, entry!(0 restart -> restarted 1 nothing)),
];

/// Of 20 rights to lower and 30 to raise the commit turned 5, 3 to lower were given, and 7 to raise
/// were gained. So 12 and 42 are free, and the totals go on from what was kept.
const KEPT_RECORDS: &str = "C 0 1 0 -5\nG 1 0 l 3\nA 1 0 r 7\n";

const OVER_KEPT_RECORDS: [Step; 11] = [
    (Never, entry!(0 share stock -> refused 1 down)),
    (Never, entry!(0 restart -> restarted 1 nothing)),
    (Never, entry!(0 share stock -> share 12 42)),
    (Never, entry!(0 read stock -> between 12 58)),
    (Never, entry!(0 give 1 stock lower 2 -> given 5)),
    (Never, entry!(0 accept 1 0 stock raise 7 -> accepted 0)),
    (Never, entry!(0 accept 1 0 stock raise 9 -> accepted 2)),
    (Never, entry!(0 begin -> begun 1.1)),
    (Never, entry!(0 share stock -> share 10 44)),
    (Never, entry!(0 restart -> restarted 2 nothing)),
    (Never, entry!(0 share stock -> share 10 44)),
];

/// Of 20 rights to lower 5 were given up, and 30 to raise; a restart knows them, and they go on
/// from there.
const KEPT_TIGHTENINGS: &str = "T 0 l 5\nT 0 r 30\n";

const OVER_KEPT_TIGHTENINGS: [Step; 6] = [
    (Never, entry!(0 restart -> restarted 1 nothing)),
    (Never, entry!(0 share stock -> share 15 0)),
    (Never, entry!(0 read stock -> between 20 70)),
    (Never, entry!(0 tighten stock lower 2 -> tightened 7)),
    (Never, entry!(0 restart -> restarted 2 nothing)),
    (Never, entry!(0 read stock -> between 20 70)),
];

/// A restart over a log that starts with a summary, and one over logs that end with one: of 20
/// rights to lower 5 were given to another site, or given up.
const OVER_FRESH_SUMMARY: [Step; 2] = [
    (Never, entry!(0 restart -> restarted 1 nothing)),
    (Never, entry!(0 share stock -> share 20 30)),
];

const OVER_SUMMARY: [Step; 2] = [
    (Never, entry!(0 restart -> restarted 1 nothing)),
    (Never, entry!(0 share stock -> share 15 30)),
];

/// Under a mishap for reads a restart fails also where no epoch is left, and else it is refused,
/// which leaves a torn end and a mishap for cuts.
const LAST_EPOCH_UNDER_MISHAPS: [Step; 2] = [
    (Read, entry!(0 restart -> still down)),
    (Cut, entry!(0 restart -> refused 14 numbers full)),
];

/// A mishap for cuts doesn't strike where nothing stands behind the last line feed.
const NOTHING_TO_CUT: [Step; 1] = [(Cut, entry!(0 restart -> restarted 2 nothing))];

/// A medium that holds these bytes.
fn medium_over(rt: &impl Abort, alloc: Global, bytes: &str) -> TornMedium {
    TornMedium::new(Vec::from_slice(alloc, bytes.as_bytes()).expect(rt, "memory"))
}

/// How many of the answers are as told, from the first on.
fn count_told(alloc: Global, site: &mut Site<TornMedium>, steps: &[Step]) -> usize {
    for (at, step) in steps.iter().enumerate() {
        let (mishap, entry) = *step;
        site.arm(mishap);
        if answer(alloc, site, entry.command) != Some(entry.reply) {
            return at;
        }
    }
    steps.len()
}

/// The same of site 0 over these bytes.
fn count_told_over(rt: &impl Abort, alloc: Global, bytes: &str, steps: &[Step]) -> usize {
    let mut site = open_over(rt, alloc, 0, medium_over(rt, alloc, bytes));
    count_told(alloc, &mut site, steps)
}

/// The bytes that a site is opened over, its steps, and how many of them it answers as told: all.
type Run = (&'static str, &'static [Step], usize);

/// Each run is answered as told.
fn assert_runs(rt: &impl Abort, alloc: Global, runs: &[Run]) {
    for (bytes, steps, told) in runs {
        assert_eq!(rt; count_told_over(rt, alloc, *bytes, *steps), *told);
    }
}

const OVER_NOTHING: [Run; 6] = [
    ("", &OPEN_AT_A_RESTART, 5),
    ("", &LOST, 7),
    ("", &KEPT, 7),
    ("", &FAILED_RESTART, 5),
    ("", &EPOCH_USED_UP, 2),
    ("", &EACH_MISHAP, 6),
];

#[test]
fn stops_and_restarts(rt: HostRuntime) {
    assert_runs(&rt, rt.alloc(), &OVER_NOTHING);
}

const OVER_WHAT_IS_KEPT: [Run; 6] = [
    ("R 1000000000\n", &LAST_EPOCH, 2),
    ("R 1", &TORN_RECORD, 2),
    (KEPT_RECORDS, &OVER_KEPT_RECORDS, 11),
    (KEPT_TIGHTENINGS, &OVER_KEPT_TIGHTENINGS, 6),
    ("R 1000000000\nR 1", &LAST_EPOCH_UNDER_MISHAPS, 2),
    ("R 1\n", &NOTHING_TO_CUT, 1),
];

#[test]
fn opens_over_what_is_kept(rt: HostRuntime) {
    assert_runs(&rt, rt.alloc(), &OVER_WHAT_IS_KEPT);
}

const OVER_SUMMARIES: [Run; 4] = [
    ("S 0 1 20 30\n", &OVER_FRESH_SUMMARY, 2),
    ("G 1 0 l 5\nS 0 1 15 30 g 1 0 l 5\n", &OVER_SUMMARY, 2),
    ("T 0 l 5\nS 0 1 15 30 t 0 l 5\n", &OVER_SUMMARY, 2),
    (
        "S 0 1 20 30\nG 1 0 l 5\nS 0 1 15 30 g 1 0 l 5\nS 0",
        &OVER_SUMMARY,
        2,
    ),
];

#[test]
fn opens_over_summaries(rt: HostRuntime) {
    assert_runs(&rt, rt.alloc(), &OVER_SUMMARIES);
}

/// Logs of site 0, and the first line that is no record or breaks a rule.
const BAD_LOGS: [(&str, u64); 14] = [
    ("R 01\n", 1),
    ("R 1\nR 1\n", 2),
    ("C 0 1 0 -21\n", 1),
    ("G 1 0 l 5\nR 1\nhello\n", 3),
    ("G 0 0 l 5\nhello\n", 1),
    ("hello\nG 0 0 l 5\n", 1),
    ("T 0 l 5\nT 0 l 5\n", 2),
    ("T 0 l 21\n", 1),
    ("T 0 l 20\nA 1 0 l 51\n", 2),
    ("S 0 1 20 31\n", 1),
    ("S 1 1 20 30\n", 1),
    ("S 0 2 20 30 0 0\n", 1),
    ("G 1 0 l 5\nS 0 1 15 30\n", 2),
    ("R 1\nS 1 1 20 30\nT 0 l 5\nS 1 1 20 30\n", 4),
];

/// The fault of an open, and how many failures the medium has that comes back.
fn fault_of(opened: Result<Site<TornMedium>, (OpenFault, TornMedium)>) -> Option<(OpenFault, u64)> {
    match opened {
        Ok(_) => None,
        Err((fault, back)) => Some((fault, back.failures())),
    }
}

/// The same of an open of site 0 over these bytes under a mishap.
fn open_fault(
    rt: &impl Abort,
    alloc: Global,
    bytes: &str,
    mishap: Mishap,
) -> Option<(OpenFault, u64)> {
    let mut medium = medium_over(rt, alloc, bytes);
    medium.arm(mishap);
    fault_of(opened_over(rt, alloc, 0, medium))
}

/// The first bad line of each log is found, and the medium hasn't failed.
fn assert_bad_logs(rt: &impl Abort, alloc: Global, logs: &[(&str, u64)]) {
    for (bytes, line) in logs {
        assert_eq!(rt;
            open_fault(rt, alloc, *bytes, Mishap::Never),
            Some((OpenFault::Line(*line), 0))
        );
    }
}

#[test]
fn faults_of_open(rt: HostRuntime) {
    let alloc = rt.alloc();
    assert_bad_logs(&rt, alloc, &BAD_LOGS);
    assert_eq!(rt;
        open_fault(&rt, alloc, "", Mishap::Read),
        Some((OpenFault::Device, 1))
    );
}

/// The record in doubt is lost: nothing stands, and nothing is replayed.
const AFTER_NONE: After = (reply!(restarted 1 lost), 0, Some((20, 30)));

/// The record in doubt is kept, and replayed: a commit of 20 rights to lower.
const AFTER_COMMIT: After = (reply!(restarted 1 kept), 1, Some((0, 50)));

/// A gift of 5 rights to lower, or as many given up.
const AFTER_GIFT: After = (reply!(restarted 1 kept), 1, Some((15, 30)));

/// A spare of 15 rights to raise.
const AFTER_SPARE: After = (reply!(restarted 1 kept), 1, Some((20, 15)));

const TORN_COMMIT: Tear = Tear {
    first: 1,
    end: 1,
    before: &[command!(begin), command!(escrow 0.1 stock -20)],
    torn: entry!(0 commit 0.1 -> unsure),
};

const TORN_GIFT: Tear = Tear {
    first: 1,
    end: 1,
    before: &[],
    torn: entry!(0 give 1 stock lower 5 -> unsure),
};

const TORN_SPARE: Tear = Tear {
    first: 1,
    end: 1,
    before: &[],
    torn: entry!(0 spare 1 stock raise 100 -> unsure),
};

const TORN_TIGHTENING: Tear = Tear {
    first: 1,
    end: 1,
    before: &[],
    torn: entry!(0 tighten stock lower 5 -> unsure),
};

#[test]
fn each_length_of_a_torn_commit(rt: HostRuntime) {
    assert_lengths(&rt, rt.alloc(), &TORN_COMMIT, (0, 12), AFTER_NONE);
    assert_lengths(&rt, rt.alloc(), &TORN_COMMIT, (12, 14), AFTER_COMMIT);
}

#[test]
fn each_length_of_a_torn_gift(rt: HostRuntime) {
    assert_lengths(&rt, rt.alloc(), &TORN_GIFT, (0, 10), AFTER_NONE);
    assert_lengths(&rt, rt.alloc(), &TORN_GIFT, (10, 12), AFTER_GIFT);
}

#[test]
fn each_length_of_a_torn_spare(rt: HostRuntime) {
    assert_lengths(&rt, rt.alloc(), &TORN_SPARE, (0, 11), AFTER_NONE);
    assert_lengths(&rt, rt.alloc(), &TORN_SPARE, (11, 13), AFTER_SPARE);
}

#[test]
fn each_length_of_a_torn_tightening(rt: HostRuntime) {
    assert_lengths(&rt, rt.alloc(), &TORN_TIGHTENING, (0, 8), AFTER_NONE);
    assert_lengths(&rt, rt.alloc(), &TORN_TIGHTENING, (8, 10), AFTER_GIFT);
}
