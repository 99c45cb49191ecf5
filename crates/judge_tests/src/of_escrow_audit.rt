//! What no clause says: the texts, whole audits, and readers and writers that fail.

mod behind;
mod faults;
mod hostile;
mod memory;

use check_kit::{STOCK_OF_TWO, text_of_two};
use escrow_audit::{AuditEnd, ScriptFault, Sink, Source, Watched, audit_text};
use field_bounds::SchemaFault;
use std::alloc::{AllocError, Global};
use std::io::Read;
use std::process::Abort;
use std::thread::Threads;
use stream_kit::{Narrow, Trickle, broken_behind, same_bytes};

/// How an audit ends.
type Ended = Result<AuditEnd, ScriptFault>;

const READ_FAULT: Ended = Err(ScriptFault::Read);

/// How an audit of a source ends.
fn ended<R: Source, W: Sink>(
    rt: &(impl Threads + Sync),
    alloc: Global,
    fields: bool,
    source: &mut R,
    sink: &mut W,
) -> Ended {
    audit_text(rt, alloc, fields, source, sink)
}

/// How an audit ends by whether its legal answer is written whole.
fn written(is_whole: bool) -> Ended {
    if is_whole {
        Ok(AuditEnd::Legal)
    } else {
        Err(ScriptFault::Write)
    }
}

/// How an audit over a reader ended, and what it wrote.
fn audit<R: Read + Drop>(
    rt: &(impl Threads + Sync),
    alloc: Global,
    fields: bool,
    reader: R,
) -> (Ended, Vec<u8>) {
    let mut writer = Watched::new(Vec::new(alloc));
    let end = ended(rt, alloc, fields, &mut Watched::new(reader), &mut writer);
    (end, writer.into_inner())
}

/// Tests how an audit ended, and what it wrote.
fn check_end(rt: &impl Abort, end: Ended, out: &[u8], wanted: Ended, answer: &str) {
    assert_eq!(rt; end, wanted, "at {answer}");
    assert_eq!(rt; str::from_utf8(out), Ok(answer));
}

/// Audits a reader, and tests how the audit ends and what it writes.
fn check_reader<R: Read + Drop>(
    rt: &(impl Abort + Threads + Sync),
    alloc: Global,
    fields: bool,
    reader: R,
    wanted: Ended,
    answer: &str,
) {
    let (end, out) = audit(rt, alloc, fields, reader);
    check_end(rt, end, out.as_slice(), wanted, answer);
}

/// Audits lines behind the header of two sites, in one pass and field by field.
fn check(
    rt: &(impl Abort + Threads + Sync),
    alloc: Global,
    lines: &[&str],
    end: AuditEnd,
    answer: &str,
) -> Result<(), AllocError> {
    let text = text_of_two(alloc, lines)?;
    check_text(rt, alloc, text.as_bytes(), Ok(end), answer);
    Ok(())
}

/// Audits a text, in one pass and field by field.
fn check_text(
    rt: &(impl Abort + Threads + Sync),
    alloc: Global,
    text: &[u8],
    wanted: Ended,
    answer: &str,
) {
    check_reader(rt, alloc, false, text, wanted, answer);
    check_reader(rt, alloc, true, text, wanted, answer);
}

/// A transaction, with reads and the shares before and after it.
const ROW: [&str; 6] = [
    "0 begin -> begun 0.1",
    "0 escrow 0.1 stock -20 -> granted",
    "0 read stock -> between 20 70",
    "0 commit 0.1 -> committed",
    "0 share stock -> share 0 50",
    "0 read stock -> between 0 50",
];

/// Entries, the end of their audit, and what is answered.
macro_rules! judged {
    ($($line:expr),* => $end:ident, $answer:literal) => {
        (&[$($line),*], AuditEnd::$end, $answer)
    };
}

/// Entries under two sites, and what is answered.
const JUDGED: [(&[&str], AuditEnd, &str); 14] = [
    judged!(=> Legal, "legal 0\n"),
    (&ROW, AuditEnd::Legal, "legal 6\n"),
    judged!("5 begin -> begun 0.1" => Illegal, "illegal 1 site\n"),
    judged!("0 read stock -> between 41 100" => Illegal, "illegal 1 interval\n"),
    judged!("0 read stock -> between 0 100" => Illegal, "illegal 1 reply\n"),
    judged!(
        "0 begin -> begun 0.1",
        "0 escrow 0.1 stock -21 -> refused 7 short 19"
        => Illegal, "illegal 2 shortage\n"
    ),
    judged!(
        "0 begin -> begun 0.1",
        "0 escrow 0.1 stock -21 -> refused 7 short 20"
        => Legal, "legal 2\n"
    ),
    judged!(
        "0 begin -> begun 0.1",
        "0 escrow 0.1 stock -41 -> granted"
        => Illegal, "illegal 2 grant\n"
    ),
    judged!(
        "0 begin -> begun 0.1",
        "0 escrow 0.1 stock -25 -> granted"
        => Illegal, "illegal 2 reply\n"
    ),
    judged!("0 begin -> begun 0.1", "hello" => BadEntry, "bad entry 3\n"),
    // Each site accepts what the other gives only later.
    judged!(
        "0 accept 1 0 stock lower 5 -> accepted 5",
        "0 give 1 stock lower 5 -> given 5",
        "1 accept 0 1 stock lower 5 -> accepted 5",
        "1 give 0 stock lower 5 -> given 5"
        => Illegal, "illegal 1 statement\n"
    ),
    // A statement that nobody issued.
    judged!("1 accept 0 1 stock lower 50 -> accepted 50" => Illegal, "illegal 1 statement\n"),
    // Two tightenings leave nothing to lower.
    judged!(
        "0 tighten stock lower 20 -> tightened 20",
        "1 tighten stock lower 20 -> tightened 20",
        "0 begin -> begun 0.1",
        "0 escrow 0.1 stock -1 -> granted"
        => Illegal, "illegal 4 grant\n"
    ),
    // A bad entry goes before every verdict.
    judged!("5 begin -> begun 0.1", "" => BadEntry, "bad entry 3\n"),
];

#[test]
fn judges_entries(rt: HostRuntime) -> Result<(), AllocError> {
    for (lines, end, answer) in &JUDGED {
        check(&rt, rt.alloc(), *lines, *end, *answer)?;
    }
    Ok(())
}

/// What the program writes in its stored run.
const STORED: &str = "\
{\"sites\":1,\"fields\":[{\"name\":\"stock\",\"floor\":0,\"ceiling\":100,\"value\":40}]}
0 begin -> begun 0.1
0 escrow 0.1 stock -20 -> granted
0 read stock -> between 40 40
0 commit 0.1 -> committed
0 read stock -> between 20 20
";

#[test]
fn judges_the_stored_run(rt: HostRuntime) {
    let text = STORED.as_bytes();
    check_text(&rt, rt.alloc(), text, Ok(AuditEnd::Legal), "legal 5\n");
}

/// The remarks that a run writes.
const REMARKS: [&str; 14] = [
    "bad line",
    "deliver 0 -> refused 16 no statement",
    "deliver 18446744073709551615 -> refused 16 no statement",
    "level stock lower -> moves 0",
    "level stock raise -> moves 18446744073709551615",
    "reach 0 stock -9223372036854775808 -> steps 3",
    "reach 1 stock 20 -> no site",
    "reach 1 stock 20 -> no field",
    "reach 1 stock 20 -> no down",
    "reach 1 stock 20 -> no flight",
    "reach 1 stock 20 -> no unstated",
    "reach 1 stock 20 -> no tightened",
    "reach 1 stock 20 -> no numbers",
    "reach 1 stock 20 -> no outside",
];

/// Lines that are nearly remarks or entries.
const BAD: [&str; 24] = [
    "",
    " bad line",
    "bad line ",
    "bad  line",
    "bad lines",
    "bad",
    "deliver 1 torn 3 -> refused 16 no statement",
    "deliver 01 -> refused 16 no statement",
    "deliver 18446744073709551616 -> refused 16 no statement",
    "deliver 1 -> refused 16 no statements",
    "deliver 1 -> refused 15 nothing given",
    "deliver 1",
    "level sock lower -> moves 1",
    "level #1 lower -> moves 1",
    "level stock lowered -> moves 1",
    "level stock lower -> moves -1",
    "level stock lower",
    "reach 2 stock 20 -> steps 3",
    "reach 0 sock 20 -> steps 3",
    "reach 0 #1 20 -> no field",
    "reach 0 stock -0 -> steps 3",
    "reach 0 stock 20 -> no way",
    "reach 0 stock 20 -> no down 1",
    "0 begin->begun 0.1",
];

/// What runs write whose lines reach for a value, and what is answered.
const REACHED: [(&[&str], &str); 6] = [
    (
        &[
            "reach 0 stock 20 -> steps 3",
            "1 begin -> begun 0.1",
            "1 escrow 0.1 stock -20 -> granted",
            "1 commit 0.1 -> committed",
            "reach 0 stock 70 -> steps 3",
            "1 begin -> begun 0.2",
            "1 escrow 0.2 stock 50 -> granted",
            "1 commit 0.2 -> committed",
            "reach 0 stock 70 -> steps 0",
            "reach 0 stock 19 -> no outside",
        ],
        "legal 6\n",
    ),
    (
        &[
            "1 give 0 stock lower 5 -> given 5",
            "reach 0 stock 20 -> no flight",
            "0 accept 1 0 stock lower 5 -> accepted 5",
            "reach 0 stock 24 -> no outside",
            "reach 0 stock 25 -> steps 3",
            "1 begin -> begun 0.1",
            "1 escrow 0.1 stock -15 -> granted",
            "1 commit 0.1 -> committed",
        ],
        "legal 5\n",
    ),
    (
        &[
            "0 give 1 stock lower 5 -> unsure",
            "0 restart -> restarted 1 kept",
            "reach 0 stock 25 -> no unstated",
            "0 restate 1 stock lower -> stated 5",
            "reach 0 stock 15 -> steps 4",
            "1 accept 0 1 stock lower 5 -> accepted 5",
            "1 begin -> begun 0.1",
            "1 escrow 0.1 stock -25 -> granted",
            "1 commit 0.1 -> committed",
        ],
        "legal 7\n",
    ),
    (
        &["1 restart -> still down", "reach 0 stock 40 -> no down"],
        "legal 1\n",
    ),
    (
        &[
            "1 tighten stock lower 1 -> tightened 1",
            "reach 0 stock 40 -> no tightened",
        ],
        "legal 1\n",
    ),
    (&["bad line"], "legal 0\n"),
];

#[test]
fn judges_what_reaches(rt: HostRuntime) -> Result<(), AllocError> {
    for (lines, answer) in &REACHED {
        check(&rt, rt.alloc(), *lines, AuditEnd::Legal, *answer)?;
    }
    Ok(())
}

/// Audits a line before and behind an entry, as remarks.
fn check_remark(
    rt: &(impl Abort + Threads + Sync),
    alloc: Global,
    line: &str,
) -> Result<(), AllocError> {
    let lines = [line, "0 begin -> begun 0.1", line];
    check(rt, alloc, &lines, AuditEnd::Legal, "legal 1\n")
}

/// Audits a bad line between a remark and an entry.
fn check_bad(
    rt: &(impl Abort + Threads + Sync),
    alloc: Global,
    line: &str,
) -> Result<(), AllocError> {
    let lines = ["bad line", line, "0 begin -> begun 0.1"];
    check(rt, alloc, &lines, AuditEnd::BadEntry, "bad entry 3\n")
}

#[test]
fn skips_remarks(rt: HostRuntime) -> Result<(), AllocError> {
    let alloc = rt.alloc();
    check(&rt, alloc, &REMARKS, AuditEnd::Legal, "legal 0\n")?;
    for line in &REMARKS {
        check_remark(&rt, alloc, *line)?;
    }
    for line in &BAD {
        check_bad(&rt, alloc, *line)?;
    }
    Ok(())
}

/// What stands behind a header without its end, and what is answered.
const LAST_LINES: [(&str, AuditEnd, &str); 7] = [
    ("", AuditEnd::Legal, "legal 0\n"),
    ("\n", AuditEnd::Legal, "legal 0\n"),
    ("\n0 begin -> begun 0.1", AuditEnd::Legal, "legal 1\n"),
    (
        "\n0 begin -> begun 0.2",
        AuditEnd::Illegal,
        "illegal 1 reply\n",
    ),
    ("\n0 begin -> begun", AuditEnd::BadEntry, "bad entry 2\n"),
    ("\n\n", AuditEnd::BadEntry, "bad entry 2\n"),
    (
        "\r\n0 begin -> begun 0.1\r\n",
        AuditEnd::BadEntry,
        "bad entry 2\n",
    ),
];

/// Audits a text in large reads, and byte by byte.
fn check_reads(
    rt: &(impl Abort + Threads + Sync),
    alloc: Global,
    text: &[u8],
    wanted: Ended,
    answer: &str,
) {
    check_reader(rt, alloc, false, text, wanted, answer);
    check_reader(rt, alloc, false, Trickle(text), wanted, answer);
}

#[test]
fn takes_a_last_line_without_its_end(rt: HostRuntime) -> Result<(), AllocError> {
    let alloc = rt.alloc();
    for (behind, end, answer) in &LAST_LINES {
        let text = [STOCK_OF_TWO, *behind].concat(alloc)?;
        check_reads(&rt, alloc, text.as_bytes(), Ok(*end), *answer);
    }
    Ok(())
}

/// Headers that are refused, and why.
const BAD_HEADERS: [(&str, SchemaFault); 4] = [
    ("", SchemaFault::NotJson),
    ("\n0 begin\n", SchemaFault::NotJson),
    ("{\"sites\":1}\nhello\n", SchemaFault::Shape),
    (
        "{\"sites\":0,\"fields\":[{\"name\":\"stock\",\"floor\":0,\"ceiling\":100,\"value\":40}]}",
        SchemaFault::SiteCount,
    ),
];

#[test]
fn tells_bad_headers(rt: HostRuntime) {
    let alloc = rt.alloc();
    for (header, fault) in &BAD_HEADERS {
        let wanted = Err(ScriptFault::Header(*fault));
        check_reader(&rt, alloc, false, header.as_bytes(), wanted, "");
    }
    // The 65,537th byte of a header ends the audit before the next read.
    let long = Err(ScriptFault::Header(SchemaFault::TooLong));
    check_reader(&rt, alloc, false, same_bytes(b' ', 65_537), long, "");
    check_reader(&rt, alloc, false, same_bytes(b' ', 65_536), READ_FAULT, "");
}

/// Line lengths behind an entry, how the audit ends, and what is answered.
const LONG_LINES: [(u64, Ended, &str); 3] = [
    (256, READ_FAULT, ""),
    (257, Ok(AuditEnd::BadEntry), "bad entry 3\n"),
    (100_000, Ok(AuditEnd::BadEntry), "bad entry 3\n"),
];

// The 257th byte of a line behind the header ends the audit before the next read.
#[test]
fn ends_at_a_long_line(rt: HostRuntime) -> Result<(), AllocError> {
    let alloc = rt.alloc();
    let text = text_of_two(alloc, &["0 begin -> begun 0.1"])?;
    for (bytes, wanted, answer) in &LONG_LINES {
        let reader = text.as_bytes().chain(same_bytes(b'x', *bytes));
        check_reader(&rt, alloc, false, reader, *wanted, *answer);
    }
    Ok(())
}

#[test]
fn keeps_the_limit_of_lines(rt: HostRuntime) -> Result<(), AllocError> {
    let alloc = rt.alloc();
    let lines = "bad line\n".repeat(alloc, 999_999)?;
    let text = [STOCK_OF_TWO, "\n", lines.as_str()].concat(alloc)?;
    let bytes = text.as_bytes();
    check_reader(&rt, alloc, false, bytes, Ok(AuditEnd::Legal), "legal 0\n");
    let longer = bytes.chain(b"x".as_slice());
    check_reader(&rt, alloc, false, longer, Err(ScriptFault::TooLong), "");
    Ok(())
}

/// Behind each byte of a text a read fails.
fn check_fronts(rt: &(impl Abort + Threads + Sync), alloc: Global, text: &[u8]) {
    for count in 0..=text.len() {
        let reader = broken_behind(&text[..count]);
        check_reader(rt, alloc, false, reader, READ_FAULT, "");
    }
}

#[test]
fn ends_where_a_read_fails(rt: HostRuntime) -> Result<(), AllocError> {
    let text = text_of_two(rt.alloc(), &ROW)?;
    check_fronts(&rt, rt.alloc(), text.as_bytes());
    Ok(())
}

/// How an audit of a text ends whose writer takes so many bytes, and what was taken.
fn audit_narrow(
    rt: &(impl Threads + Sync),
    alloc: Global,
    text: &[u8],
    room: usize,
) -> (Ended, Vec<u8>) {
    let mut writer = Watched::new(Narrow::new(alloc, room));
    let end = ended(rt, alloc, false, &mut Watched::new(text), &mut writer);
    (end, writer.into_inner().into_taken())
}

/// Behind each byte of the answer a write fails.
fn check_rooms(rt: &(impl Abort + Threads + Sync), alloc: Global, text: &[u8]) {
    let wanted = b"legal 6\n";
    for room in 0..=wanted.len() {
        let (end, taken) = audit_narrow(rt, alloc, text, room);
        assert_eq!(rt; end, written(room == wanted.len()));
        assert_eq!(rt; taken.as_slice(), &wanted[..room]);
    }
}

#[test]
fn ends_where_a_write_fails(rt: HostRuntime) -> Result<(), AllocError> {
    let text = text_of_two(rt.alloc(), &ROW)?;
    check_rooms(&rt, rt.alloc(), text.as_bytes());
    Ok(())
}
