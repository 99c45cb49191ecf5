//! Worked rows of a site that writes a summary at a stop: each expected answer is worked out by
//! hand.

use super::tears::{After, Tear, assert_lengths};
use super::*;
use check_kit::{command, entry, reply};

/// A restart behind 999 that the site itself made.
const ITS_OWN_THOUSANDTH: Tear = Tear {
    first: 1,
    end: 1000,
    before: &[],
    torn: entry!(0 restart -> still down),
};

/// A restart behind 999, of which the site itself made the last.
pub const THOUSANDTH: Tear = Tear {
    first: 999,
    end: 1000,
    before: &[],
    torn: entry!(0 restart -> still down),
};

/// A commit of 20 rights to lower behind 999 restarts.
pub const COMMIT_BEHIND_999: Tear = Tear {
    first: 999,
    end: 1000,
    before: &[command!(begin), command!(escrow 999.1 stock -20)],
    torn: entry!(0 commit 999.1 -> unsure),
};

/// The thousandth restart left nothing.
const RECORD_LOST: After = (reply!(restarted 1000 nothing), 999, Some((20, 30)));

/// It left its record, and no summary.
const RECORD_KEPT: After = (reply!(restarted 1001 nothing), 1000, Some((20, 30)));

/// It left its record and a summary.
const SUMMARY_KEPT: After = (reply!(restarted 1001 nothing), 0, Some((20, 30)));

/// The commit left nothing.
const COMMIT_LOST: After = (reply!(restarted 1000 lost), 999, Some((20, 30)));

/// It left its record, and no summary.
const COMMIT_KEPT: After = (reply!(restarted 1000 kept), 1000, Some((0, 50)));

/// It left its record and a summary.
const COMMIT_IN_SUMMARY: After = (reply!(restarted 1000 kept), 0, Some((0, 50)));

#[test]
fn thousandth_restart_torn_behind_its_record(rt: HostRuntime) {
    assert_lengths(&rt, rt.alloc(), &ITS_OWN_THOUSANDTH, (7, 8), RECORD_KEPT);
}

#[test]
fn thousandth_restart_torn_in_its_record(rt: HostRuntime) {
    assert_lengths(&rt, rt.alloc(), &ITS_OWN_THOUSANDTH, (6, 7), RECORD_LOST);
}

// The piece is `R 1000` and `S 1000 1 20 30`, each with a line feed: 7 bytes and 15.
#[test]
fn each_length_of_a_torn_restart_with_a_summary(rt: HostRuntime) {
    assert_lengths(&rt, rt.alloc(), &THOUSANDTH, (0, 7), RECORD_LOST);
    assert_lengths(&rt, rt.alloc(), &THOUSANDTH, (7, 22), RECORD_KEPT);
    assert_lengths(&rt, rt.alloc(), &THOUSANDTH, (22, 23), SUMMARY_KEPT);
}

// The piece is `C 999 1 0 -20` and `S 999 1 0 50`, each with a line feed: 14 bytes and 13.
#[test]
fn each_length_of_a_torn_commit_with_a_summary(rt: HostRuntime) {
    assert_lengths(&rt, rt.alloc(), &COMMIT_BEHIND_999, (0, 14), COMMIT_LOST);
    assert_lengths(&rt, rt.alloc(), &COMMIT_BEHIND_999, (14, 27), COMMIT_KEPT);
    assert_lengths(
        &rt,
        rt.alloc(),
        &COMMIT_BEHIND_999,
        (27, 28),
        COMMIT_IN_SUMMARY,
    );
}
