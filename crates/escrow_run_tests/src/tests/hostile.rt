//! Appends torn at each byte, a header without end, and readers and writers that are interrupted
//! once.

use super::{
    Ended, READ_FAULT, Said, Talk, check_each, check_ran, check_reader, row_input, row_output,
};
use check_kit::{STOCK_OF_TWO, joined};
use escrow_run::{ScriptFault, Watched, run_script};
use field_bounds::SchemaFault;
use std::alloc::{AllocError, Global};
use std::io;
use std::io::Read;
use std::process::Abort;
use stream_kit::{InterruptedReader, InterruptedWriter};

const GIFT_LOST: [(&str, &str); 3] = [
    ("0 restart", "restarted 1 lost"),
    ("0 restate 1 stock lower", "refused 15 nothing given"),
    ("0 share stock", "share 20 30"),
];

const GIFT_KEPT: [(&str, &str); 3] = [
    ("0 restart", "restarted 1 kept"),
    ("0 restate 1 stock lower", "stated 5"),
    ("0 share stock", "share 15 30"),
];

impl Talk {
    /// A gift that is torn behind so many bytes. Its record has 10.
    fn tear_gift(&mut self, bytes: u64) -> Result<(), AllocError> {
        self.torn("0 give 1 stock lower 5", bytes)?;
        self.row("deliver 1", "refused 16 no statement")?;
        self.rows(if bytes < 10 { &GIFT_LOST } else { &GIFT_KEPT })
    }
}

fn check_torn_gift(rt: &impl Abort, alloc: Global, bytes: u64) {
    let mut talk = Talk::new(rt, alloc, STOCK_OF_TWO);
    talk.tear_gift(bytes).expect(rt, "memory");
    talk.check(rt, alloc);
}

#[test]
fn keeps_a_gift_that_is_whole(rt: HostRuntime) {
    for bytes in 0..=10u64 {
        check_torn_gift(&rt, rt.alloc(), bytes);
    }
    check_torn_gift(&rt, rt.alloc(), 1000);
}

const COMMIT_TORN_FAR_BEHIND: [(&str, &str); 6] = said! {
    "0 begin" => "0 begin -> begun 0.1",
    "0 escrow 0.1 stock -20" => "0 escrow 0.1 stock -20 -> granted",
    "0 commit 0.1 torn 1000" => "0 commit 0.1 -> unsure",
    "0 read stock" => "0 read stock -> refused 1 down",
    "0 restart" => "0 restart -> restarted 1 kept",
    "0 share stock" => "0 share stock -> share 0 50",
};

const FAILED_RESTARTS: [(&str, &str); 4] = said! {
    "0 restart torn 4" => "0 restart -> still down",
    "0 restart torn 4" => "0 restart -> still down",
    "0 restart torn 4" => "0 restart -> still down",
    "0 restart" => "0 restart -> restarted 4 nothing",
};

/// A commit is kept that was torn far behind its end, and a site restarts behind three failed restarts.
const TORN_BEHIND_THE_END: [Said; 2] = [
    (STOCK_OF_TWO, &COMMIT_TORN_FAR_BEHIND),
    (STOCK_OF_TWO, &FAILED_RESTARTS),
];

#[test]
fn restarts_behind_whole_records(rt: HostRuntime) {
    check_each(&rt, rt.alloc(), &TORN_BEHIND_THE_END);
}

#[test]
fn ends_a_header_without_end(rt: HostRuntime) {
    let wanted = Err(ScriptFault::Header(SchemaFault::TooLong));
    check_reader(&rt, rt.alloc(), io::repeat(b'x'), wanted, "");
}

/// A reader of spaces without end that gives a byte a read, and counts its reads.
#[derive(Drop)]
struct CountedSpaces {
    reads: u64,
}

impl Read for CountedSpaces {
    fn read(&mut self, buf: &mut [u8]) -> io::Result<usize> {
        self.reads = self.reads.saturating_add(1);
        let count = buf.len().min(1);
        io::repeat(b' ').read(&mut buf[..count])
    }
}

// A header line ends the run at the very read that gives its 65,537th byte.
#[test]
fn reads_no_more_once_a_header_is_too_long(rt: HostRuntime) {
    let mut reader = Watched::new(CountedSpaces { reads: 0 });
    let mut writer = Watched::new(Vec::new(rt.alloc()));
    let end = run_script(rt.alloc(), &mut reader, &mut writer);
    assert_eq!(rt; end, Err(ScriptFault::Header(SchemaFault::TooLong)));
    assert_eq!(rt; reader.into_inner().reads, 65_537);
}

/// Runs over a header line that begins with these spaces, and a begin.
fn check_spaced(rt: &impl Abort, alloc: Global, spaces: &str) {
    let input = joined(alloc, &[spaces, STOCK_OF_TWO, "\n0 begin\n"]).expect(rt, "memory");
    let answers = "\n0 begin -> begun 0.1\n";
    let wanted = joined(alloc, &[spaces, STOCK_OF_TWO, answers]).expect(rt, "memory");
    check_reader(rt, alloc, input.as_bytes(), Ok(()), wanted.as_str());
}

// Where that byte is its LF, the header has 65,536 bytes and is read, and so is what follows.
#[test]
fn reads_a_header_of_the_greatest_length(rt: HostRuntime) {
    let count = 65_536usize.saturating_sub(STOCK_OF_TWO.len());
    let spaces = " ".repeat(rt.alloc(), count).expect(&rt, "memory");
    check_spaced(&rt, rt.alloc(), spaces.as_str());
}

/// Runs over a text whose read is interrupted once, behind so many bytes.
fn check_interrupted(rt: &impl Abort, alloc: Global, before: &[u8], behind: &[u8]) {
    let output = row_output(rt, alloc, before.len());
    let reader = InterruptedReader::new(before, behind);
    check_reader(rt, alloc, reader, READ_FAULT, output.as_str());
}

#[test]
fn reads_no_more_once_interrupted(rt: HostRuntime) {
    let input = row_input(&rt, rt.alloc());
    let bytes = input.as_bytes();
    for count in 0..=bytes.len() {
        check_interrupted(&rt, rt.alloc(), &bytes[..count], &bytes[count..]);
    }
}

/// How a run over a text ends whose write is interrupted once, and what was taken.
fn run_interrupted(alloc: Global, text: &[u8], room: usize) -> (Ended, Vec<u8>) {
    let mut writer = Watched::new(InterruptedWriter::new(alloc, room));
    let end = run_script(alloc, &mut Watched::new(text), &mut writer);
    (end, writer.into_inner().into_taken())
}

/// Behind each byte of the wanted output a write is interrupted once.
fn check_interruptions(rt: &impl Abort, alloc: Global, input: &[u8], wanted: &[u8]) {
    for room in 0..wanted.len() {
        let (end, taken) = run_interrupted(alloc, input, room);
        check_ran(
            rt,
            end,
            Err(ScriptFault::Write),
            taken.as_slice(),
            &wanted[..room],
        );
    }
}

#[test]
fn writes_no_more_once_interrupted(rt: HostRuntime) {
    let input = row_input(&rt, rt.alloc());
    let wanted = row_output(&rt, rt.alloc(), input.len());
    check_interruptions(&rt, rt.alloc(), input.as_bytes(), wanted.as_bytes());
}
