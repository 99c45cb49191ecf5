//! Lines that reach for a value, and the steps that answer them.

use super::{Said, check_each, check_said};
use check_kit::{STOCK_OF_THREE, STOCK_OF_TWO};

const BOTH_ENDS: [(&str, &str); 7] = said! {
    "0 read stock" => "0 read stock -> between 20 70",
    "reach 0 stock 20" => "reach 0 stock 20 -> steps 3\n1 begin -> begun 0.1\n1 escrow 0.1 stock -20 -> granted\n1 commit 0.1 -> committed",
    "reach 0 stock 70" => "reach 0 stock 70 -> steps 3\n1 begin -> begun 0.2\n1 escrow 0.2 stock 50 -> granted\n1 commit 0.2 -> committed",
    "reach 0 stock 70" => "reach 0 stock 70 -> steps 0",
    "reach 0 stock 19" => "reach 0 stock 19 -> no outside",
    "reach 0 stock 9223372036854775807" => "reach 0 stock 9223372036854775807 -> no outside",
    "reach 0 stock -9223372036854775808" => "reach 0 stock -9223372036854775808 -> no outside",
};

// To both ends of what site 0 reads, and no further.
#[test]
fn reaches_both_ends(rt: HostRuntime) {
    check_said(&rt, rt.alloc(), STOCK_OF_TWO, &BOTH_ENDS);
}

const DELIVERED: [(&str, &str); 5] = said! {
    "1 give 0 stock lower 5" => "1 give 0 stock lower 5 -> given 5",
    "reach 0 stock 20" => "reach 0 stock 20 -> no flight",
    "deliver 1" => "0 accept 1 0 stock lower 5 -> accepted 5",
    "reach 0 stock 24" => "reach 0 stock 24 -> no outside",
    "reach 0 stock 25" => "reach 0 stock 25 -> steps 3\n1 begin -> begun 0.1\n1 escrow 0.1 stock -15 -> granted\n1 commit 0.1 -> committed",
};

const STATED: [(&str, &str); 5] = said! {
    "0 give 1 stock lower 5 torn 10" => "0 give 1 stock lower 5 -> unsure",
    "0 restart" => "0 restart -> restarted 1 kept",
    "reach 0 stock 25" => "reach 0 stock 25 -> no unstated",
    "0 restate 1 stock lower" => "0 restate 1 stock lower -> stated 5",
    "reach 0 stock 15" => "reach 0 stock 15 -> steps 4\n1 accept 0 1 stock lower 5 -> accepted 5\n1 begin -> begun 0.1\n1 escrow 0.1 stock -25 -> granted\n1 commit 0.1 -> committed",
};

const DOWN: [(&str, &str); 2] = said! {
    "1 restart torn 0" => "1 restart -> still down",
    "reach 0 stock 40" => "reach 0 stock 40 -> no down",
};

const TIGHTENED: [(&str, &str); 2] = said! {
    "1 tighten stock lower 1" => "1 tighten stock lower 1 -> tightened 1",
    "reach 0 stock 40" => "reach 0 stock 40 -> no tightened",
};

const BAD: [(&str, &str); 2] = said! {
    "reach 2 stock 40" => "bad line",
    "reach 1 stock 40" => "reach 1 stock 40 -> steps 0",
};

const ALL_OTHERS: [(&str, &str); 6] = said! {
    "1 give 2 stock lower 3 torn 10" => "1 give 2 stock lower 3 -> unsure",
    "1 restart" => "1 restart -> restarted 1 kept",
    "2 begin" => "2 begin -> begun 0.1",
    "2 escrow 0.1 stock -9" => "2 escrow 0.1 stock -9 -> granted",
    "reach 0 stock 14" => "reach 0 stock 14 -> steps 9\n2 abort 0.1 -> aborted\n1 restate 2 stock lower -> stated 3\n2 accept 1 2 stock lower 3 -> accepted 3\n1 begin -> begun 1.1\n1 escrow 1.1 stock -10 -> granted\n1 commit 1.1 -> committed\n2 begin -> begun 0.2\n2 escrow 0.2 stock -16 -> granted\n2 commit 0.2 -> committed",
    "reach 0 stock 14 torn 3" => "bad line",
};

/// A gift to site 0 stands in the way until it is delivered. A gift of site 0 stands in the way until
/// it is stated, and is then delivered by a step. So do a site that is down, a bound that was
/// tightened, and a site that there is not. An open transaction of another site is aborted, and what
/// was kept of a gift between two others is stated and delivered. The last line has a luck, so it
/// asks nothing.
const IN_THE_WAY: [Said; 6] = [
    (STOCK_OF_TWO, &DELIVERED),
    (STOCK_OF_TWO, &STATED),
    (STOCK_OF_TWO, &DOWN),
    (STOCK_OF_TWO, &TIGHTENED),
    (STOCK_OF_TWO, &BAD),
    (STOCK_OF_THREE, &ALL_OTHERS),
];

#[test]
fn reaches_past_what_stands_in_the_way(rt: HostRuntime) {
    check_each(&rt, rt.alloc(), &IN_THE_WAY);
}
