//! What no clause says: the texts, honest works, and readers and writers that fail.

use check_kit::text_of_two;
use escrow_work::{ScriptFault, Watched, WorkFault, work_text};
use field_bounds::SchemaFault;
use std::alloc::{AllocError, Global};
use std::io::Read;
use std::sync::Wait;
use std::test::Fail;
use std::thread::Threads;
use stream_kit::{Narrow, broken_behind, same_bytes};

/// How a work over a reader ended, and what it wrote.
fn work<R: Read + Drop>(
    rt: &(impl Threads + Wait + Sync),
    alloc: Global,
    reader: R,
) -> (Result<(), ScriptFault>, Vec<u8>) {
    let mut writer = Watched::new(Vec::new(alloc));
    let end = work_text(rt, alloc, &mut Watched::new(reader), &mut writer);
    (end, writer.into_inner())
}

/// Works that have one trace, and that trace.
const WORKS: [(&[&str], &[&str]); 4] = [
    (&[], &[]),
    (
        &["0 give 1 stock lower 5"],
        &[
            "0 give 1 stock lower 5 -> given 5",
            "1 accept 0 1 stock lower 5 -> accepted 5",
        ],
    ),
    (
        &[
            "1 begin",
            "1 escrow 0.1 stock -20",
            "1 read stock",
            "1 commit 0.1",
            "1 share stock",
            "1 read stock",
        ],
        &[
            "1 begin -> begun 0.1",
            "1 escrow 0.1 stock -20 -> granted",
            "1 read stock -> between 20 70",
            "1 commit 0.1 -> committed",
            "1 share stock -> share 0 50",
            "1 read stock -> between 0 50",
        ],
    ),
    // Sites that state nothing stand one behind the other, the lowest first.
    (
        &["1 begin", "0 begin", "1 read stock"],
        &[
            "0 begin -> begun 0.1",
            "1 begin -> begun 0.1",
            "1 read stock -> between 20 70",
        ],
    ),
];

#[test]
fn writes_what_the_sites_do(rt: HostRuntime) -> Result<(), Fail> {
    let alloc = rt.alloc();
    for (lines, entries) in &WORKS {
        let (end, out) = work(&rt, alloc, text_of_two(alloc, *lines)?.as_bytes());
        assert_eq!(rt; end, Ok(()));
        let wanted = text_of_two(alloc, *entries)?;
        assert_eq!(rt; str::from_utf8(out.as_slice()), Ok(wanted.as_str()));
    }
    Ok(())
}

/// How many lines there are, and how many of them end so.
fn count(text: &[u8], ending: &str) -> (usize, usize) {
    let text = str::from_utf8(text).unwrap_or("");
    let lines = text.lines().count();
    let ended = text.lines().filter(|line| line.ends_with(ending)).count();
    (lines, ended)
}

// Ten gifts each way, whose traces are many: each is judged before it is written.
#[test]
fn gifts_go_both_ways(rt: HostRuntime) -> Result<(), Fail> {
    let alloc = rt.alloc();
    let mut text = text_of_two(alloc, &[])?;
    for _ in 0..10 {
        text.push_str("0 give 1 stock lower 1\n1 give 0 stock lower 1\n")?;
    }
    let (end, out) = work(&rt, alloc, text.as_bytes());
    assert_eq!(rt; end, Ok(()));
    assert_eq!(rt; count(out.as_slice(), " -> given 10"), (41, 2));
    Ok(())
}

/// A text of two sites with the first line so many times, and the second behind it.
fn text_of_many(alloc: Global, lines: [&str; 2], counts: [usize; 2]) -> Result<String, AllocError> {
    let mut all = vec![in alloc; lines[0]; counts[0]]?;
    all.extend_from_slice(vec![in alloc; lines[1]; counts[1]]?.as_slice())?;
    text_of_two(alloc, all.as_slice())
}

// From 2,000 entries on one thread judges a trace while another spells it. Sites that state nothing
// stand one behind the other, so each of these has one trace.
#[test]
fn a_long_trace_is_judged_while_it_is_spelled(rt: HostRuntime) -> Result<(), Fail> {
    let alloc = rt.alloc();
    let commands = ["0 read stock", "1 share stock"];
    let entries = [
        "0 read stock -> between 20 70",
        "1 share stock -> share 20 30",
    ];
    for count in [998, 999, 1_000, 1_001, 1_000, 4_000, 1_000, 4_000] {
        let text = text_of_many(alloc, commands, [1_000, count])?;
        let (end, out) = work(&rt, alloc, text.as_bytes());
        assert_eq!(rt; end, Ok(()));
        let wanted = text_of_many(alloc, entries, [1_000, count])?;
        assert!(rt; out.as_slice() == wanted.as_bytes());
    }
    Ok(())
}

/// Lines that are no plain commands.
const BAD: [&str; 14] = [
    "",
    "0 begin torn 3",
    "0 accept 1 0 stock lower 5",
    "2 begin",
    "0  begin",
    "0 begin ",
    "begin",
    "deliver 1",
    "level stock lower",
    "reach 0 stock 20",
    "bad line",
    "0 read sock",
    "0 begin -> begun 0.1",
    "0 begin\r",
];

#[test]
fn tells_the_first_bad_line(rt: HostRuntime) -> Result<(), Fail> {
    let alloc = rt.alloc();
    for line in &BAD {
        for (lines, number) in [([*line, "0 begin"], 2), (["0 begin", *line], 3)] {
            let (end, out) = work(&rt, alloc, text_of_two(alloc, &lines)?.as_bytes());
            assert_eq!(rt; end, Err(ScriptFault::BadLine(number)));
            assert_eq!(rt; out.len(), 0);
        }
    }
    Ok(())
}

// The 257th byte of a line behind the header ends the work before the next read.
#[test]
fn ends_at_a_long_line(rt: HostRuntime) -> Result<(), Fail> {
    let alloc = rt.alloc();
    let header = text_of_two(alloc, &["0 begin"])?;
    for (bytes, fault) in [(256, ScriptFault::Read), (257, ScriptFault::BadLine(3))] {
        let reader = header.as_bytes().chain(same_bytes(b'x', bytes));
        let (end, out) = work(&rt, alloc, reader);
        assert_eq!(rt; end, Err(fault));
        assert_eq!(rt; out.len(), 0);
    }
    Ok(())
}

#[test]
fn tells_bad_headers(rt: HostRuntime) -> Result<(), Fail> {
    let alloc = rt.alloc();
    for (header, fault) in [
        ("", SchemaFault::NotJson),
        ("\n0 begin\n", SchemaFault::NotJson),
        ("{\"sites\":1}\nhello\n", SchemaFault::Shape),
    ] {
        let (end, out) = work(&rt, alloc, header.as_bytes());
        let wanted = ScriptFault::Header(fault);
        assert_eq!(rt; end, Err(wanted), "at {header}");
        assert_eq!(rt; out.len(), 0);
    }
    Ok(())
}

#[test]
fn ends_where_a_read_fails(rt: HostRuntime) -> Result<(), Fail> {
    let alloc = rt.alloc();
    let text = text_of_two(alloc, &["0 give 1 stock lower 5"])?;
    for count in 0..=text.len() {
        let reader = broken_behind(&text.as_bytes()[..count]);
        let (end, out) = work(&rt, alloc, reader);
        assert_eq!(rt; end, Err(ScriptFault::Read));
        assert_eq!(rt; out.len(), 0);
    }
    Ok(())
}

#[test]
fn ends_where_a_write_fails(rt: HostRuntime) -> Result<(), Fail> {
    let alloc = rt.alloc();
    let text = text_of_two(alloc, &["0 begin"])?;
    let wanted = text_of_two(alloc, &["0 begin -> begun 0.1"])?;
    for room in 0..=wanted.len() {
        let mut writer = Watched::new(Narrow::new(alloc, room));
        let end = work_text(&rt, alloc, &mut Watched::new(text.as_bytes()), &mut writer);
        if room < wanted.len() {
            assert_eq!(rt; end, Err(ScriptFault::Write));
        } else {
            assert_eq!(rt; end, Ok(()));
        }
        assert_eq!(rt;
            writer.into_inner().into_taken().as_slice(),
            &wanted.as_bytes()[..room]
        );
    }
    Ok(())
}

// The texts by which a program tells the faults.
#[test]
fn tells_faults(rt: HostRuntime) -> Result<(), Fail> {
    let alloc = rt.alloc();
    for (fault, text) in [
        (ScriptFault::Read, "read fault"),
        (ScriptFault::TooLong, "input too long"),
        (ScriptFault::Write, "write fault"),
        (ScriptFault::Header(SchemaFault::NotJson), "header S1"),
        (ScriptFault::BadLine(2), "bad line 2"),
        (ScriptFault::Work(WorkFault::GateTurns), "work fault"),
        (ScriptFault::Stuck, "stuck"),
        (ScriptFault::Illegal, "illegal"),
        (ScriptFault::NoMemory, "out of memory"),
    ] {
        assert_eq!(rt; format!(in alloc; "{fault}")?.as_str(), text);
    }
    Ok(())
}
