//! Lines that level a field, and the gifts that answer them.

use super::{Said, Talk, check_each};
use check_kit::{STOCK_OF_THREE, STOCK_OF_TWO, add};
use itoa::Buffer;
use std::alloc::AllocError;

const UNEVEN: [(&str, &str); 7] = said! {
    "0 give 1 stock lower 5" => "0 give 1 stock lower 5 -> given 5",
    "deliver 1" => "1 accept 0 1 stock lower 5 -> accepted 5",
    "level stock lower" => "level stock lower -> moves 1\n1 give 0 stock lower 5 -> given 5",
    "1 share stock" => "1 share stock -> share 20 30",
    "level stock raise" => "level stock raise -> moves 0",
    "deliver 2" => "0 accept 1 0 stock lower 5 -> accepted 5",
    "level stock lower" => "level stock lower -> moves 0",
};

const ONE_DOWN: [(&str, &str); 5] = said! {
    "0 give 1 stock lower 14" => "0 give 1 stock lower 14 -> given 14",
    "deliver 1" => "1 accept 0 1 stock lower 14 -> accepted 14",
    "1 restart torn 0" => "1 restart -> still down",
    "level stock lower" => "level stock lower -> moves 1\n2 give 0 stock lower 7 -> given 7",
    "level stock raise" => "level stock raise -> moves 0",
};

const EVEN: [(&str, &str); 1] = [("level stock raise", "level stock raise -> moves 0")];

const NONE_UP: [(&str, &str); 4] = said! {
    "0 restart torn 0" => "0 restart -> still down",
    "1 restart torn 0" => "1 restart -> still down",
    "level stock lower" => "level stock lower -> moves 0",
    "level stock raise" => "level stock raise -> moves 0",
};

/// Two sites are levelled by one gift, which isn't delivered. A site that is down neither gives nor
/// gets. Where all sites are down there is nothing to move.
const LEVELS: [Said; 4] = [
    (STOCK_OF_TWO, &UNEVEN),
    (STOCK_OF_THREE, &ONE_DOWN),
    (STOCK_OF_TWO, &EVEN),
    (STOCK_OF_TWO, &NONE_UP),
];

#[test]
fn levels_the_sites_that_are_up(rt: HostRuntime) {
    check_each(&rt, rt.alloc(), &LEVELS);
}

/// The widest field at its ceiling, among three sites: lower 666666666666667, the same, and one
/// less.
const WIDEST_OF_THREE: &str =
    "{\"sites\":3,\"fields\":[{\"name\":\"stock\",\"floor\":-1000000000000000,\"ceiling\":1000000000000000,\"value\":1000000000000000}]}";

impl Talk {
    /// The same with the numbers spelled.
    fn carry_spelled(
        &mut self,
        number: &str,
        from: &str,
        to: &str,
        amount: &str,
        total: &str,
    ) -> Result<(), AllocError> {
        let gift = [from, " give ", to, " stock lower ", amount];
        add(&mut self.input, &gift)?;
        add(&mut self.input, &["\ndeliver ", number, "\n"])?;
        add(&mut self.wanted, &gift)?;
        let told = [
            " -> given ",
            total,
            "\n",
            to,
            " accept ",
            from,
            " ",
            to,
            " stock lower ",
            total,
            " -> accepted ",
            amount,
            "\n",
        ];
        add(&mut self.wanted, &told)
    }

    /// A gift of lowering rights with the total so far, and its delivery.
    fn carry(
        &mut self,
        number: u64,
        from: &str,
        to: &str,
        amount: u64,
        total: u64,
    ) -> Result<(), AllocError> {
        let (mut of_number, mut of_amount, mut of_total) = (
            Buffer::new(),
            Buffer::new(),
            Buffer::new(),
        );
        self.carry_spelled(
            of_number.format(number),
            from,
            to,
            of_amount.format(amount),
            of_total.format(total),
        )
    }
}

/// The most that a gift may move.
const ALL: u64 = 2_000_000_000_000_000;

impl Talk {
    /// Gifts of all rights to and fro, until site 0 has given site 1 as much as one may.
    fn carry_to_the_limit(&mut self) -> Result<(), AllocError> {
        for round in 1..500u64 {
            let back = 666_666_666_666_667 + round * ALL;
            self.carry(2 * round + 1, "0", "1", ALL, round * ALL)?;
            self.carry(2 * round + 2, "1", "0", ALL, back)?;
        }
        self.carry(1_001, "0", "1", ALL, 500 * ALL)
    }

    /// All rights go to site 0, then to the limit, and then back to it by site 2.
    fn carry_all(&mut self) -> Result<(), AllocError> {
        self.carry(1, "1", "0", 666_666_666_666_667, 666_666_666_666_667)?;
        self.carry(2, "2", "0", 666_666_666_666_666, 666_666_666_666_666)?;
        self.carry_to_the_limit()?;
        self.carry(1_002, "1", "2", ALL, ALL)?;
        self.carry(1_003, "2", "0", ALL, 666_666_666_666_666 + ALL)
    }
}

/// How the rights are levelled then.
const LEVELLED: [(&str, &str); 1] = said! {
    "level stock lower" => "level stock lower -> moves 2\n0 give 1 stock lower 666666666666667 -> refused 9 ledger full 1000000000000000000\n0 give 2 stock lower 666666666666666 -> given 666666666666666",
};

// The total of gifts from site 0 to site 1 is as large as one may be, so a gift is refused; the one
// after it is given.
#[test]
fn levels_past_a_refused_gift(rt: HostRuntime) {
    let mut talk = Talk::new(&rt, rt.alloc(), WIDEST_OF_THREE);
    talk.carry_all().expect(&rt, "memory");
    talk.all_said(&LEVELLED).expect(&rt, "memory");
    talk.check(&rt, rt.alloc());
}
