//! Logs that no site left, and stops one after another: each expected answer is worked out by hand.

use super::*;
use check_kit::entry;

/// Logs of site 0, each with the first line that breaks a rule: more than its rights, an epoch that
/// hasn't begun, a gift to itself, rights past its room, a site that isn't in the schema, a field
/// that isn't, a line that ends in CR, and a total that doesn't grow.
const HOSTILE_LOGS: [(&str, u64); 12] = [
    ("C 0 1 0 -21\n", 1),
    ("C 0 1 0 31\n", 1),
    ("C 1 1 0 -20\n", 1),
    ("G 0 0 l 1\n", 1),
    ("G 2 0 l 1\n", 1),
    ("G 1 1 l 1\n", 1),
    ("G 1 0 l 21\n", 1),
    ("A 1 0 l 51\n", 1),
    ("A 2 0 l 1\n", 1),
    ("R 1\r\n", 1),
    ("G 1 0 l 5\nG 1 0 l 5\n", 2),
    ("A 1 0 l 5\nA 1 0 l 5\n", 2),
];

#[test]
fn opens_over_no_hostile_log(rt: HostRuntime) {
    assert_bad_logs(&rt, rt.alloc(), &HOSTILE_LOGS);
}

/// All that fits beside the 50 rights of site 0 was accepted.
const OVER_ALL_THE_ROOM: [Step; 2] = [
    (Never, entry!(0 restart -> restarted 1 nothing)),
    (Never, entry!(0 share stock -> share 70 30)),
];

const ALL_THE_ROOM: [Run; 1] = [("A 1 0 l 50\n", &OVER_ALL_THE_ROOM, 2)];

#[test]
fn opens_over_all_the_room(rt: HostRuntime) {
    assert_runs(&rt, rt.alloc(), &ALL_THE_ROOM);
}

/// Each failed restart left its whole record, `R 1` to `R 3`.
const STOPPED_THREE_TIMES: [Step; 4] = [
    (Append(4), entry!(0 restart -> still down)),
    (Append(4), entry!(0 restart -> still down)),
    (Append(4), entry!(0 restart -> still down)),
    (Never, entry!(0 restart -> restarted 4 nothing)),
];

/// The read fails first, and then the cut.
const READ_THEN_CUT: [Step; 6] = [
    (Never, entry!(0 begin -> begun 0.1)),
    (Never, entry!(0 escrow 0.1 stock -20 -> granted)),
    (Append(11), entry!(0 commit 0.1 -> unsure)),
    (Read, entry!(0 restart -> still down)),
    (Cut, entry!(0 restart -> still down)),
    (Never, entry!(0 restart -> restarted 1 lost)),
];

const ONE_AFTER_ANOTHER: [Run; 2] = [("", &STOPPED_THREE_TIMES, 4), ("", &READ_THEN_CUT, 6)];

#[test]
fn stops_one_after_another(rt: HostRuntime) {
    assert_runs(&rt, rt.alloc(), &ONE_AFTER_ANOTHER);
}

#[test]
fn an_append_torn_far_behind_its_end(rt: HostRuntime) {
    assert_lengths(&rt, rt.alloc(), &TORN_COMMIT, (1000, 1001), AFTER_COMMIT);
    assert_lengths(&rt, rt.alloc(), &TORN_GIFT, (1000, 1001), AFTER_GIFT);
}
