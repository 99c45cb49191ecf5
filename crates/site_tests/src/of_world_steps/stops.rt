//! Worked rows of stops: each expected reply is worked out by hand.

use super::*;
use check_kit::step;

/// The open transaction is aborted, and the next one begins in the new epoch.
const ABORTED: [Told; 5] = [
    step!(0 begin -> begun 0.1),
    step!(0 escrow 0.1 stock -20 -> granted),
    step!(0 restart -> restarted 1 nothing),
    step!(0 commit 0.1 -> refused 4 no transaction),
    step!(0 begin -> begun 1.1),
];

/// The record of the commit, `C 0 1 0 -20`, has 12 bytes with its line feed. Without the last of
/// them the commit is lost.
const LOST: [Told; 6] = [
    step!(0 begin -> begun 0.1),
    step!(0 escrow 0.1 stock -20 -> granted),
    step!(0 commit 0.1 torn 11 -> unsure),
    step!(0 read stock -> refused 1 down),
    step!(0 restart -> restarted 1 lost),
    step!(0 share stock -> share 20 30),
];

/// With all of them it is kept.
const KEPT: [Told; 6] = [
    step!(0 begin -> begun 0.1),
    step!(0 escrow 0.1 stock -20 -> granted),
    step!(0 commit 0.1 torn 12 -> unsure),
    step!(0 read stock -> refused 1 down),
    step!(0 restart -> restarted 1 kept),
    step!(0 share stock -> share 0 50),
];

/// A gift in doubt is issued by nothing but its restatement.
const GIFT_KEPT: [Told; 5] = [
    step!(0 give 1 stock lower 5 torn 10 -> unsure),
    step!(deliver 1 -> refused 16 no statement),
    step!(0 restart -> restarted 1 kept),
    step!(0 restate 1 stock lower -> stated 5),
    step!(deliver 1 -> accepted 5),
];

/// A restart that fails leaves the record in doubt to the next one.
const KEPT_LATE: [Told; 5] = [
    step!(0 begin -> begun 0.1),
    step!(0 escrow 0.1 stock -20 -> granted),
    step!(0 commit 0.1 torn 12 -> unsure),
    step!(0 restart torn 2 -> still down),
    step!(0 restart -> restarted 1 kept),
];

/// The record of the restart, `R 1`, stood whole.
const EPOCH_USED: [Told; 2] = [
    step!(0 restart torn 4 -> still down),
    step!(0 restart -> restarted 2 nothing),
];

/// The receiver's record, `A 0 0 l 5`, has 10 bytes, and all of them stand.
const TAKEN_IN: [Told; 6] = [
    step!(0 give 1 stock lower 5 -> given 5),
    step!(deliver 1 torn 10 -> unsure),
    step!(deliver 1 -> refused 1 down),
    step!(1 restart -> restarted 1 kept),
    step!(deliver 1 -> accepted 0),
    step!(1 share stock -> share 25 30),
];

/// One is lost, and the next delivery brings what the first one didn't.
const TAKEN_IN_LATE: [Told; 6] = [
    step!(0 give 1 stock lower 5 -> given 5),
    step!(deliver 1 torn 9 -> unsure),
    step!(deliver 1 -> refused 1 down),
    step!(1 restart -> restarted 1 lost),
    step!(deliver 1 -> accepted 5),
    step!(1 share stock -> share 25 30),
];

/// What is in doubt at one site doesn't touch what another one reads.
const READ_ELSEWHERE: [Told; 6] = [
    step!(0 begin -> begun 0.1),
    step!(0 escrow 0.1 stock -20 -> granted),
    step!(0 commit 0.1 torn 12 -> unsure),
    step!(1 read stock -> between 20 70),
    step!(0 restart -> restarted 1 kept),
    step!(1 read stock -> between 20 70),
];

/// The luck of a step is its own: a read appends nothing, and the commit behind it is whole.
const LUCK_OF_ONE_STEP: [Told; 4] = [
    step!(0 begin -> begun 0.1),
    step!(0 escrow 0.1 stock -20 -> granted),
    step!(0 read stock torn 0 -> between 20 70),
    step!(0 commit 0.1 -> committed),
];

#[test]
fn worked_stops(rt: HostRuntime) {
    assert_comes(&rt, rt.alloc(), &ABORTED);
    assert_comes(&rt, rt.alloc(), &LOST);
    assert_comes(&rt, rt.alloc(), &KEPT);
    assert_comes(&rt, rt.alloc(), &KEPT_LATE);
    assert_comes(&rt, rt.alloc(), &EPOCH_USED);
}

#[test]
fn worked_gifts_in_doubt(rt: HostRuntime) {
    assert_comes(&rt, rt.alloc(), &GIFT_KEPT);
    assert_comes(&rt, rt.alloc(), &TAKEN_IN);
    assert_comes(&rt, rt.alloc(), &TAKEN_IN_LATE);
    assert_comes(&rt, rt.alloc(), &READ_ELSEWHERE);
    assert_comes(&rt, rt.alloc(), &LUCK_OF_ONE_STEP);
}
