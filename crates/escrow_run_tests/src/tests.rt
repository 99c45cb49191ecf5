//! What no clause says: the texts, whole runs, and readers and writers that fail.

/// Lines, each beside what answers it.
macro_rules! said {
    ($($line:expr => $answer:expr,)*) => {
        [$(($line, $answer)),*]
    };
}

mod bad_lines;
mod faults;
mod hostile;
mod levels;
mod reaches;
mod worked;

use check_kit::{STOCK_OF_TWO, add, joined};
use escrow_run::{CallEnd, ScriptFault, Watched, run_script};
use field_bounds::SchemaFault;
use itoa::Buffer;
use std::alloc::{AllocError, Global};
use std::io;
use std::io::Read;
use std::process::Abort;
use stream_kit::{Narrow, broken_behind, same_bytes};

const HEADER: &str =
    "{\"sites\":1,\"fields\":[{\"name\":\"stock\",\"floor\":0,\"ceiling\":100,\"value\":40}]}";

/// How a run ends.
type Ended = Result<(), ScriptFault>;

const READ_FAULT: Ended = Err(ScriptFault::Read);

/// How a run over a reader ended, and what it wrote.
fn run<R: Read + Drop>(alloc: Global, reader: R) -> (Ended, Vec<u8>) {
    let mut writer = Watched::new(Vec::new(alloc));
    let end = run_script(alloc, &mut Watched::new(reader), &mut writer);
    (end, writer.into_inner())
}

/// Tests how a run ended, and what it wrote.
fn check_ran(rt: &impl Abort, end: Ended, wanted: Ended, out: &[u8], output: &[u8]) {
    assert_eq!(rt; end, wanted);
    assert_eq!(rt; str::from_utf8(out), str::from_utf8(output));
}

/// Runs over a reader, and tests how the run ends and what it writes.
fn check_reader<R: Read + Drop>(
    rt: &impl Abort,
    alloc: Global,
    reader: R,
    wanted: Ended,
    output: &str,
) {
    let (end, out) = run(alloc, reader);
    check_ran(rt, end, wanted, out.as_slice(), output.as_bytes());
}

/// A script beside the output that it is to give.
#[derive(Drop)]
struct Talk {
    input: String,
    wanted: String,
}

impl Talk {
    fn new(rt: &impl Abort, alloc: Global, header: &str) -> Talk {
        Talk {
            input: joined(alloc, &[header, "\n"]).expect(rt, "memory"),
            wanted: joined(alloc, &[header, "\n"]).expect(rt, "memory"),
        }
    }

    /// A line whose answer begins with it.
    fn row(&mut self, line: &str, reply: &str) -> Result<(), AllocError> {
        add(&mut self.input, &[line, "\n"])?;
        add(&mut self.wanted, &[line, " -> ", reply, "\n"])
    }

    fn rows(&mut self, rows: &[(&str, &str)]) -> Result<(), AllocError> {
        for (line, reply) in rows {
            self.row(*line, *reply)?;
        }
        Ok(())
    }

    /// A line whose answer doesn't begin with it.
    fn said(&mut self, line: &str, answer: &str) -> Result<(), AllocError> {
        add(&mut self.input, &[line, "\n"])?;
        add(&mut self.wanted, &[answer, "\n"])
    }

    fn all_said(&mut self, rows: &[(&str, &str)]) -> Result<(), AllocError> {
        for (line, answer) in rows {
            self.said(*line, *answer)?;
        }
        Ok(())
    }

    /// A line whose record is torn behind so many bytes.
    fn torn(&mut self, line: &str, bytes: u64) -> Result<(), AllocError> {
        let mut number = Buffer::new();
        add(
            &mut self.input,
            &[line, " torn ", number.format(bytes), "\n"],
        )?;
        add(&mut self.wanted, &[line, " -> unsure\n"])
    }

    fn bad(&mut self, line: &str) -> Result<(), AllocError> {
        self.said(line, "bad line")
    }

    /// Runs the script, and tests what it gives.
    fn check(&self, rt: &impl Abort, alloc: Global) {
        check_reader(
            rt,
            alloc,
            self.input.as_bytes(),
            Ok(()),
            self.wanted.as_str(),
        );
    }
}

/// Lines over two sites, with deliveries and torn appends, each beside what answers it.
const SAID: [&[(&str, &str)]; 15] = [
    // A gift is delivered, and again.
    &said! {
        "0 give 1 stock lower 5" => "0 give 1 stock lower 5 -> given 5",
        "1 begin" => "1 begin -> begun 0.1",
        "1 escrow 0.1 stock -25" => "1 escrow 0.1 stock -25 -> refused 7 short 20",
        "deliver 1" => "1 accept 0 1 stock lower 5 -> accepted 5",
        "1 escrow 0.1 stock -25" => "1 escrow 0.1 stock -25 -> granted",
        "deliver 1" => "1 accept 0 1 stock lower 5 -> accepted 0",
    },
    // The later statement comes first.
    &said! {
        "0 give 1 stock lower 3" => "0 give 1 stock lower 3 -> given 3",
        "0 give 1 stock lower 2" => "0 give 1 stock lower 2 -> given 5",
        "deliver 2" => "1 accept 0 1 stock lower 5 -> accepted 5",
        "deliver 1" => "1 accept 0 1 stock lower 3 -> accepted 0",
    },
    // A restart aborts what is open.
    &said! {
        "0 begin" => "0 begin -> begun 0.1",
        "0 escrow 0.1 stock -20" => "0 escrow 0.1 stock -20 -> granted",
        "0 restart" => "0 restart -> restarted 1 nothing",
        "0 commit 0.1" => "0 commit 0.1 -> refused 4 no transaction",
        "0 begin" => "0 begin -> begun 1.1",
    },
    // A gift in doubt issues no statement before it is stated.
    &said! {
        "0 give 1 stock lower 5 torn 10" => "0 give 1 stock lower 5 -> unsure",
        "deliver 1" => "deliver 1 -> refused 16 no statement",
        "0 restart" => "0 restart -> restarted 1 kept",
        "0 restate 1 stock lower" => "0 restate 1 stock lower -> stated 5",
        "deliver 1" => "1 accept 0 1 stock lower 5 -> accepted 5",
    },
    // So does a spare, which gives what it would have been answered.
    &said! {
        "0 spare 1 stock raise 100 torn 11" => "0 spare 1 stock raise 100 -> unsure",
        "deliver 1" => "deliver 1 -> refused 16 no statement",
        "0 restart" => "0 restart -> restarted 1 kept",
        "0 restate 1 stock raise" => "0 restate 1 stock raise -> stated 15",
        "0 spare 1 stock raise 100" => "0 spare 1 stock raise 100 -> spared 8 23",
        "deliver 2" => "1 accept 0 1 stock raise 23 -> accepted 23",
        "deliver 1" => "1 accept 0 1 stock raise 15 -> accepted 0",
        "1 share stock" => "1 share stock -> share 20 53",
    },
    // A tightening in doubt that was kept, and one that lacked a byte.
    &said! {
        "0 tighten stock lower 5 torn 8" => "0 tighten stock lower 5 -> unsure",
        "0 restart" => "0 restart -> restarted 1 kept",
        "0 share stock" => "0 share stock -> share 15 30",
    },
    &said! {
        "0 tighten stock lower 5 torn 7" => "0 tighten stock lower 5 -> unsure",
        "0 restart" => "0 restart -> restarted 1 lost",
        "0 share stock" => "0 share stock -> share 20 30",
    },
    // A restart whose record is torn fails.
    &said! {
        "0 begin" => "0 begin -> begun 0.1",
        "0 escrow 0.1 stock -20" => "0 escrow 0.1 stock -20 -> granted",
        "0 commit 0.1 torn 12" => "0 commit 0.1 -> unsure",
        "0 restart torn 2" => "0 restart -> still down",
        "0 restart" => "0 restart -> restarted 1 kept",
    },
    // Where its record stands whole, its epoch is used up.
    &said! {
        "0 restart torn 4" => "0 restart -> still down",
        "0 restart" => "0 restart -> restarted 2 nothing",
    },
    // No statement has these numbers.
    &said! {
        "deliver 0" => "deliver 0 -> refused 16 no statement",
        "deliver 1" => "deliver 1 -> refused 16 no statement",
        "deliver 1 torn 3" => "deliver 1 -> refused 16 no statement",
        "deliver 18446744073709551615" => "deliver 18446744073709551615 -> refused 16 no statement",
    },
    // A step that appends nothing can't be torn.
    &said! {
        "0 begin torn 3" => "0 begin -> begun 0.1",
        "0 read stock torn 0" => "0 read stock -> between 20 70",
        "0 escrow 0.1 stock -20 torn 18446744073709551615" => "0 escrow 0.1 stock -20 -> granted",
        "0 commit 0.1" => "0 commit 0.1 -> committed",
    },
    // An acceptance in doubt that was kept.
    &said! {
        "0 give 1 stock lower 5" => "0 give 1 stock lower 5 -> given 5",
        "deliver 1 torn 10" => "1 accept 0 1 stock lower 5 -> unsure",
        "deliver 1" => "1 accept 0 1 stock lower 5 -> refused 1 down",
        "1 restart" => "1 restart -> restarted 1 kept",
        "deliver 1" => "1 accept 0 1 stock lower 5 -> accepted 0",
        "1 share stock" => "1 share stock -> share 25 30",
    },
    // One that was lost.
    &said! {
        "0 give 1 stock lower 5" => "0 give 1 stock lower 5 -> given 5",
        "deliver 1 torn 9" => "1 accept 0 1 stock lower 5 -> unsure",
        "deliver 1" => "1 accept 0 1 stock lower 5 -> refused 1 down",
        "1 restart" => "1 restart -> restarted 1 lost",
        "deliver 1" => "1 accept 0 1 stock lower 5 -> accepted 5",
        "1 share stock" => "1 share stock -> share 25 30",
    },
    // What is in doubt at one site isn't in doubt at the other.
    &said! {
        "0 begin" => "0 begin -> begun 0.1",
        "0 escrow 0.1 stock -20" => "0 escrow 0.1 stock -20 -> granted",
        "0 commit 0.1 torn 12" => "0 commit 0.1 -> unsure",
        "1 read stock" => "1 read stock -> between 20 70",
        "0 restart" => "0 restart -> restarted 1 kept",
        "1 read stock" => "1 read stock -> between 20 70",
    },
    // Luck is for its own line.
    &said! {
        "0 begin torn 0" => "0 begin -> begun 0.1",
        "0 escrow 0.1 stock -20" => "0 escrow 0.1 stock -20 -> granted",
        "0 commit 0.1" => "0 commit 0.1 -> committed",
        "0 share stock" => "0 share stock -> share 0 50",
    },
];

/// A field whose name is the word of luck.
const TORN: &str =
    "{\"sites\":1,\"fields\":[{\"name\":\"torn\",\"floor\":0,\"ceiling\":10,\"value\":5}]}";

fn check_said(rt: &impl Abort, alloc: Global, header: &str, rows: &[(&str, &str)]) {
    let mut talk = Talk::new(rt, alloc, header);
    talk.all_said(rows).expect(rt, "memory");
    talk.check(rt, alloc);
}

/// A header, and lines over it, each beside what answers it.
type Said = (&'static str, &'static [(&'static str, &'static str)]);

fn check_each(rt: &impl Abort, alloc: Global, tables: &[Said]) {
    for (header, rows) in tables {
        check_said(rt, alloc, *header, *rows);
    }
}

fn check_over_two(rt: &impl Abort, alloc: Global, tables: &[&[(&str, &str)]]) {
    for rows in tables {
        check_said(rt, alloc, STOCK_OF_TWO, *rows);
    }
}

#[test]
fn answers_deliveries_and_luck(rt: HostRuntime) {
    check_over_two(&rt, rt.alloc(), &SAID);
}

/// Lines over a field of that name, each beside what answers it.
const OVER_TORN: [(&str, &str); 4] = said! {
    "0 begin" => "0 begin -> begun 0.1",
    "0 escrow 0.1 torn 5" => "0 escrow 0.1 torn 5 -> granted",
    "0 escrow 0.1 torn -1 torn 5" => "0 escrow 0.1 torn -1 -> granted",
    "0 commit 0.1 torn 5" => "0 commit 0.1 -> unsure",
};

#[test]
fn reads_no_field_as_luck(rt: HostRuntime) {
    check_said(&rt, rt.alloc(), TORN, &OVER_TORN);
}

const BEFORE_COMMIT: [(&str, &str); 2] = [
    ("0 begin", "begun 0.1"),
    ("0 escrow 0.1 stock -20", "granted"),
];

const COMMIT_LOST: [(&str, &str); 3] = [
    ("0 read stock", "refused 1 down"),
    ("0 restart", "restarted 1 lost"),
    ("0 share stock", "share 20 30"),
];

const COMMIT_KEPT: [(&str, &str); 3] = [
    ("0 read stock", "refused 1 down"),
    ("0 restart", "restarted 1 kept"),
    ("0 share stock", "share 0 50"),
];

impl Talk {
    /// A commit that is torn behind so many bytes. Its record has 12.
    fn tear_commit(&mut self, bytes: u64) -> Result<(), AllocError> {
        self.rows(&BEFORE_COMMIT)?;
        self.torn("0 commit 0.1", bytes)?;
        self.rows(if bytes < 12 {
            &COMMIT_LOST
        } else {
            &COMMIT_KEPT
        })
    }
}

fn check_torn_commit(rt: &impl Abort, alloc: Global, bytes: u64) {
    let mut talk = Talk::new(rt, alloc, STOCK_OF_TWO);
    talk.tear_commit(bytes).expect(rt, "memory");
    talk.check(rt, alloc);
}

#[test]
fn keeps_a_commit_that_is_whole(rt: HostRuntime) {
    for bytes in 0..=13u64 {
        check_torn_commit(&rt, rt.alloc(), bytes);
    }
}

impl Talk {
    /// A first transaction of as many escrows as there may be, and one more.
    fn escrow_past_the_limit(&mut self) -> Result<(), AllocError> {
        self.row("0 begin", "begun 0.1")?;
        for _ in 0..16 {
            self.row("0 escrow 0.1 stock -1", "granted")?;
        }
        self.row("0 escrow 0.1 stock -1", "refused 13 too many escrows")?;
        self.row("0 escrow 0.1 stock -5", "refused 7 short 4")
    }

    /// As many open transactions behind the first as there may be, and one more.
    fn begin_past_the_limit(&mut self) -> Result<(), AllocError> {
        for number in 2..=64u32 {
            let mut digits = Buffer::new();
            self.input.push_str("0 begin\n")?;
            let begun = ["0 begin -> begun 0.", digits.format(number), "\n"];
            add(&mut self.wanted, &begun)?;
        }
        self.row("0 begin", "refused 12 too many open")
    }
}

#[test]
fn refuses_past_the_limits(rt: HostRuntime) {
    let mut talk = Talk::new(&rt, rt.alloc(), STOCK_OF_TWO);
    talk.escrow_past_the_limit().expect(&rt, "memory");
    talk.begin_past_the_limit().expect(&rt, "memory");
    talk.check(&rt, rt.alloc());
}

/// Headers that are refused, and why.
const BAD_HEADERS: [(&str, SchemaFault); 4] = [
    ("", SchemaFault::NotJson),
    ("\n0 begin\n", SchemaFault::NotJson),
    ("{\"sites\":1}\n0 begin\n", SchemaFault::Shape),
    (
        "{\"sites\":0,\"fields\":[{\"name\":\"stock\",\"floor\":0,\"ceiling\":100,\"value\":40}]}",
        SchemaFault::SiteCount,
    ),
];

#[test]
fn tells_bad_headers(rt: HostRuntime) {
    for (header, fault) in &BAD_HEADERS {
        let wanted = Err(ScriptFault::Header(*fault));
        check_reader(&rt, rt.alloc(), header.as_bytes(), wanted, "");
    }
}

// The 65,537th byte of a header ends the run before the next read.
#[test]
fn ends_at_a_long_header(rt: HostRuntime) {
    let long = Err(ScriptFault::Header(SchemaFault::TooLong));
    check_reader(&rt, rt.alloc(), same_bytes(b' ', 65_537), long, "");
    check_reader(&rt, rt.alloc(), same_bytes(b' ', 65_536), READ_FAULT, "");
}

// A header is echoed with its CR and, where its LF is missing, with LF.
#[test]
fn echoes_a_header(rt: HostRuntime) {
    let alloc = rt.alloc();
    let header = joined(alloc, &[HEADER, "\r"]).expect(&rt, "memory");
    let wanted = joined(alloc, &[HEADER, "\r\n"]).expect(&rt, "memory");
    check_reader(&rt, alloc, header.as_bytes(), Ok(()), wanted.as_str());
}

/// Runs over a header, 999,999 bad lines and so many further bytes.
fn check_lines(rt: &impl Abort, alloc: Global, header: &[u8], more: u64, wanted: Ended) {
    let lines = io::repeat(b'\n').take(999_999);
    let reader = header.chain(lines).chain(io::repeat(b'x').take(more));
    let (end, out) = run(alloc, reader);
    assert_eq!(rt; end, wanted);
    // The text of a bad line has nine bytes.
    assert_eq!(rt; out.len(), HEADER.len() + 1 + 9 * 999_999);
}

#[test]
fn keeps_the_limit_of_lines(rt: HostRuntime) {
    let alloc = rt.alloc();
    let text = joined(alloc, &[HEADER, "\n"]).expect(&rt, "memory");
    check_lines(&rt, alloc, text.as_bytes(), 0, Ok(()));
    check_lines(&rt, alloc, text.as_bytes(), 1, Err(ScriptFault::TooLong));
}

/// A script of one site, each line beside what answers it.
const ROW: [(&str, &str); 6] = said! {
    HEADER => HEADER,
    "0 begin" => "0 begin -> begun 0.1",
    "0 escrow 0.1 stock -20" => "0 escrow 0.1 stock -20 -> granted",
    "0 read stock" => "0 read stock -> between 40 40",
    "0 commit 0.1" => "0 commit 0.1 -> committed",
    "0 read stock" => "0 read stock -> between 20 20",
};

/// Adds the lines of the row.
fn add_lines(input: &mut String) -> Result<(), AllocError> {
    for (line, _) in &ROW {
        add(input, &[*line, "\n"])?;
    }
    Ok(())
}

/// The input of the row.
fn row_input(rt: &impl Abort, alloc: Global) -> String {
    let mut input = String::new(alloc);
    add_lines(&mut input).expect(rt, "memory");
    input
}

/// Adds what answers the whole lines among the first so many bytes of the row.
fn add_answers(output: &mut String, bytes: usize) -> Result<(), AllocError> {
    let mut left = bytes;
    for (line, answer) in &ROW {
        if left <= line.len() {
            return Ok(());
        }
        left -= line.len() + 1;
        add(output, &[*answer, "\n"])?;
    }
    Ok(())
}

/// What answers the whole lines among the first so many bytes of the row.
fn row_output(rt: &impl Abort, alloc: Global, bytes: usize) -> String {
    let mut output = String::new(alloc);
    add_answers(&mut output, bytes).expect(rt, "memory");
    output
}

/// Runs over the first so many bytes of the row, behind which every read fails.
fn check_front(rt: &impl Abort, alloc: Global, front: &[u8]) {
    let output = row_output(rt, alloc, front.len());
    check_reader(rt, alloc, broken_behind(front), READ_FAULT, output.as_str());
}

#[test]
fn ends_where_a_read_fails(rt: HostRuntime) {
    let input = row_input(&rt, rt.alloc());
    let bytes = input.as_bytes();
    for count in 0..=bytes.len() {
        check_front(&rt, rt.alloc(), &bytes[..count]);
    }
}

/// How a run over a text ends whose writer takes so many bytes, and what was taken.
fn run_narrow(rt: &impl Abort, alloc: Global, text: &[u8], room: usize) -> (Ended, Vec<u8>) {
    let mut writer = Watched::new(Narrow::new(alloc, room));
    let end = run_script(alloc, &mut Watched::new(text), &mut writer);
    assert!(rt; writer.last() != CallEnd::NotCalled);
    (end, writer.into_inner().into_taken())
}

/// Behind each byte of the wanted output a write fails.
fn check_rooms(rt: &impl Abort, alloc: Global, input: &[u8], wanted: &[u8]) {
    for room in 0..=wanted.len() {
        let (end, taken) = run_narrow(rt, alloc, input, room);
        let fault = if room < wanted.len() {
            Err(ScriptFault::Write)
        } else {
            Ok(())
        };
        check_ran(rt, end, fault, taken.as_slice(), &wanted[..room]);
    }
}

#[test]
fn ends_where_a_write_fails(rt: HostRuntime) {
    let input = row_input(&rt, rt.alloc());
    let wanted = row_output(&rt, rt.alloc(), input.len());
    check_rooms(&rt, rt.alloc(), input.as_bytes(), wanted.as_bytes());
}
