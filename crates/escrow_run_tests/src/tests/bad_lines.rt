//! Lines that ask nothing.

use super::{HEADER, Talk, check_reader, check_said};
use check_kit::{STOCK_OF_TWO, add};
use std::alloc::{AllocError, Global};
use std::process::Abort;
use stream_kit::Trickle;

/// Lines behind a header of one site, none of which is a command.
const BAD: [&str; 82] = [
    "0 read sock",
    "2 begin",
    "1 begin",
    "0  begin",
    "",
    "0 begin ",
    " 0 begin",
    "00 begin",
    "0 escrow 0.1 stock -0",
    "0 escrow 0.1 stock +1",
    "0 escrow 0.1 stock 9223372036854775808",
    "0 escrow 0.01 stock 1",
    "0 commit 0.4294967296",
    "0 commit 1",
    "0 read #0",
    "0 read #65536",
    "0 read #01",
    "65536 begin",
    "0 begin\r",
    "0 Begin",
    "0 accept 1 0 stock lower 5",
    "0 give 1 stock lower",
    "0 give 1 stock up 1",
    "0 share sock",
    "0 share",
    "0 restart 1",
    "0 begin torn",
    "0 begin torn 03",
    "0 begin torn -3",
    "0 begin  torn 3",
    "0 begin torn 3 ",
    "0 begin torn 3 torn 3",
    "0 begin torn 18446744073709551616",
    "0 accept 1 0 stock lower 5 torn 3",
    "2 begin torn 3",
    "torn 3",
    "deliver",
    "deliver 01",
    "deliver -1",
    "deliver 1 1",
    "deliver 18446744073709551616",
    "deliver 1 torn",
    "deliver 1 torn 18446744073709551616",
    "1 deliver 1",
    "level",
    "level stock",
    "level stock ",
    "level stock up",
    "level stock lower ",
    "level  stock lower",
    "level sock lower",
    "level #0 lower",
    "level #1 lower",
    "level stock lower 1",
    "level stock lower torn 3",
    "0 level stock lower",
    "Level stock lower",
    "reach",
    "reach 0",
    "reach 0 stock",
    "reach 0 stock ",
    "reach stock 40",
    "reach 0 stock 040",
    "reach 0 stock -0",
    "reach 0 stock +40",
    "reach 0 stock 9223372036854775808",
    "reach 0 stock -9223372036854775809",
    "reach 0 stock 40 ",
    "reach 0 stock 40 1",
    "reach 0 stock 40 torn 3",
    "reach  0 stock 40",
    "reach 0  stock 40",
    "reach 1 stock 40",
    "reach 2 stock 40",
    "reach 00 stock 40",
    "reach -1 stock 40",
    "reach 65536 stock 40",
    "reach 0 sock 40",
    "reach 0 #0 40",
    "reach 0 #1 40",
    "0 reach 0 stock 40",
    "Reach 0 stock 40",
];

impl Talk {
    /// Each bad line.
    fn all_bad(&mut self) -> Result<(), AllocError> {
        for line in &BAD {
            self.bad(*line)?;
        }
        Ok(())
    }

    /// A line that is too long: this text, so often.
    fn long(&mut self, rt: &impl Abort, alloc: Global, text: &str, count: usize) {
        let line = text.repeat(alloc, count).expect(rt, "memory");
        self.bad(line.as_str()).expect(rt, "memory");
    }

    /// Each bad line, two that are too long, and a last one that has no LF.
    fn bad_and_last(&mut self, rt: &impl Abort, alloc: Global) {
        self.row("0 begin", "begun 0.1").expect(rt, "memory");
        self.all_bad().expect(rt, "memory");
        self.long(rt, alloc, "x", 257);
        self.long(rt, alloc, " ", 70_000);
        self.row("0 begin", "begun 0.2").expect(rt, "memory");
        add(&mut self.input, &["0 begin"]).expect(rt, "memory");
        add(&mut self.wanted, &["0 begin -> begun 0.3\n"]).expect(rt, "memory");
    }
}

#[test]
fn answers_bad_lines(rt: HostRuntime) {
    let alloc = rt.alloc();
    let mut talk = Talk::new(&rt, alloc, HEADER);
    talk.bad_and_last(&rt, alloc);
    talk.check(&rt, alloc);
    let reader = Trickle(talk.input.as_bytes());
    check_reader(&rt, alloc, reader, Ok(()), talk.wanted.as_str());
}

/// Lines over two sites, each beside what answers it: refusals, and then lines that ask nothing.
const OVER_TWO: [(&str, &str); 10] = said! {
    "0 give 0 stock lower 1" => "0 give 0 stock lower 1 -> refused 8 self gift",
    "0 restate 1 stock raise" => "0 restate 1 stock raise -> refused 15 nothing given",
    "0 begin" => "0 begin -> begun 0.1",
    "0 escrow 0.1 stock 0" => "0 escrow 0.1 stock 0 -> refused 5 zero",
    "0 read #1" => "0 read #1 -> refused 3 no field",
    "0 read sock" => "bad line",
    "2 begin" => "bad line",
    "0 accept 1 0 stock lower 5" => "bad line",
    "0  begin" => "bad line",
    "" => "bad line",
};

#[test]
fn answers_bad_lines_over_two_sites(rt: HostRuntime) {
    check_said(&rt, rt.alloc(), STOCK_OF_TWO, &OVER_TWO);
}
