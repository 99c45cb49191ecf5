//! Worked rows of gifts and refusals: each expected reply is worked out by hand.

use super::*;
use check_kit::step;

/// Site 1 is short until it takes in what site 0 gave; told again, the gift brings nothing.
const PASSED_ON: [Told; 6] = [
    step!(0 give 1 stock lower 5 -> given 5),
    step!(1 begin -> begun 0.1),
    step!(1 escrow 0.1 stock -25 -> refused 7 short 20),
    step!(deliver 1 -> accepted 5),
    step!(1 escrow 0.1 stock -25 -> granted),
    step!(deliver 1 -> accepted 0),
];

/// The later statement tells of both gifts.
const OUT_OF_ORDER: [Told; 4] = [
    step!(0 give 1 stock lower 3 -> given 3),
    step!(0 give 1 stock lower 2 -> given 5),
    step!(deliver 2 -> accepted 5),
    step!(deliver 1 -> accepted 0),
];

/// Each is refused for its own reason, and nothing was issued.
const REFUSED: [Told; 7] = [
    step!(0 give 0 stock lower 1 -> refused 8 self gift),
    step!(0 restate 1 stock raise -> refused 15 nothing given),
    step!(0 begin -> begun 0.1),
    step!(0 escrow 0.1 stock 0 -> refused 5 zero),
    step!(0 read #1 -> refused 3 no field),
    step!(deliver 1 -> refused 16 no statement),
    step!(deliver 1 torn 3 -> refused 16 no statement),
];

#[test]
fn worked_gifts(rt: HostRuntime) {
    assert_comes(&rt, rt.alloc(), &PASSED_ON);
    assert_comes(&rt, rt.alloc(), &OUT_OF_ORDER);
    assert_comes(&rt, rt.alloc(), &REFUSED);
}

/// Both bounds are tightened at site 0; what it reads stays as it was.
const TIGHTENED: [Told; 6] = [
    step!(0 tighten stock lower 5 -> tightened 5),
    step!(0 share stock -> share 15 30),
    step!(0 read stock -> between 20 70),
    step!(0 tighten stock lower 16 -> refused 7 short 15),
    step!(0 tighten stock raise 30 -> tightened 30),
    step!(0 read stock -> between 20 70),
];

/// What was given up at one site leaves the other's share and interval as they were.
const TIGHTENED_ELSEWHERE: [Told; 4] = [
    step!(0 tighten stock lower 20 -> tightened 20),
    step!(1 read stock -> between 20 70),
    step!(1 tighten stock lower 20 -> tightened 20),
    step!(1 tighten stock lower 5 -> refused 7 short 0),
];

#[test]
fn worked_tightenings(rt: HostRuntime) {
    assert_comes(&rt, rt.alloc(), &TIGHTENED);
    assert_comes(&rt, rt.alloc(), &TIGHTENED_ELSEWHERE);
}
