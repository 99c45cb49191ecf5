//! Traces that are read by windows of a few bytes each. What is told was worked out by hand from their
//! lines.

use check_kit::{STOCK_OF_TWO, schema_of};
use entry_text::read_entry;
use field_bounds::{Entry, Schema};
use file_medium::{FileCall, FileMishap, MemoryFile};
use std::alloc::Global;
use std::process::Abort;
use trace_windows::{TraceWindow, TraceWindows, WindowFault};
use woven_verdict::{VerdictFault, judge_histories, verdict_line};

/// The name of a file: of 8 bytes.
const NAME: &str = "a trace\n";

/// Four entries and two remarks, and the front of a line that a stop has torn.
const TORN: &str = "\
a trace
0 begin -> begun 0.1
kept 0.1 -> no
0 escrow 0.1 stock -5 -> granted
0 commit 0.1 -> committed
bad line 7 no command
0 give 1 stock lower 5 -> given 5
0 read sto";

/// Its entries.
const ENTRIES: [&str; 4] = [
    "0 begin -> begun 0.1",
    "0 escrow 0.1 stock -5 -> granted",
    "0 commit 0.1 -> committed",
    "0 give 1 stock lower 5 -> given 5",
];

/// A file in memory that holds this text.
fn file_of(rt: &impl Abort, alloc: Global, text: &str) -> MemoryFile {
    MemoryFile::new(
        alloc,
        Vec::from_slice(alloc, text.as_bytes()).expect(rt, "memory"),
    )
}

/// The same, of which a read fails once so many went well.
fn failing(rt: &impl Abort, alloc: Global, text: &str, good: u64) -> MemoryFile {
    let mut file = file_of(rt, alloc, text);
    file.arm(FileMishap {
        call: FileCall::Read,
        good,
    });
    file
}

/// Room for a read of so many bytes.
fn room(rt: &impl Abort, alloc: Global, bytes: usize) -> Vec<u8> {
    vec![in alloc; 0u8; bytes].expect(rt, "memory")
}

/// The entries that a window tells of a file of which so many count, each with its number, and why it
/// tells no more.
fn told_of(
    rt: &impl Abort,
    alloc: Global,
    file: MemoryFile,
    count: usize,
    at_once: usize,
) -> (Vec<(u64, Entry)>, Option<WindowFault>) {
    let schema = schema_of(alloc, STOCK_OF_TWO).expect(rt, "a schema");
    let mut piece = room(rt, alloc, at_once);
    assert!(rt; piece.len() > 0);
    let mut told = Vec::new(alloc);
    let mut window = TraceWindow::new(alloc, file, 8, count);
    let mut fault = window.fill(alloc, &schema, piece.as_mut_slice()).err();
    for _ in 0..100 {
        let Some(entry) = window.upcoming() else {
            return (told, fault);
        };
        told.push((window.next_number(), entry))
            .expect(rt, "memory");
        fault = window.take(alloc, &schema, piece.as_mut_slice()).err();
    }
    (told, fault)
}

/// The entry of a line.
fn entry_of(rt: &impl Abort, alloc: Global, line: &str) -> Entry {
    let schema = schema_of(alloc, STOCK_OF_TWO).expect(rt, "a schema");
    read_entry(&schema, line.as_bytes()).expect(rt, "an entry")
}

/// Whether the first so many entries were told, each once, with their numbers from 1.
fn are_first(rt: &impl Abort, alloc: Global, told: &[(u64, Entry)], count: usize) -> bool {
    if told.len() != count {
        return false;
    }
    for (place, (number, entry)) in told.iter().enumerate() {
        let Some(line) = ENTRIES.get(place) else {
            return false;
        };
        if *number != place as u64 + 1 || *entry != entry_of(rt, alloc, *line) {
            return false;
        }
    }
    true
}

/// The first so many entries are told, and then this.
fn assert_told(
    rt: &impl Abort,
    alloc: Global,
    file: MemoryFile,
    row: (usize, usize),
    first: usize,
    fault: Option<WindowFault>,
) {
    let (count, at_once) = row;
    let (told, why) = told_of(rt, alloc, file, count, at_once);
    assert!(rt;
        are_first(rt, alloc, told.as_slice(), first),
        "{count} by {at_once}"
    );
    assert_eq!(rt; why, fault, "{count} by {at_once}");
}

// By pieces of 1, 2, 3, 7, 21 and 64 bytes, and by one that is longer than the file.
const AT_ONCE: [usize; 7] = [1, 2, 3, 7, 21, 64, 4096];

#[test]
fn tells_what_counts(rt: HostRuntime) {
    let alloc = rt.alloc();
    for at_once in &AT_ONCE {
        for count in 0..5 {
            let file = file_of(&rt, alloc, TORN);
            assert_told(&rt, alloc, file, (count, *at_once), count, None);
        }
    }
}

// The fifth entry is torn, and so isn't there.
#[test]
fn a_trace_that_is_shorter_than_what_was_counted(rt: HostRuntime) {
    let alloc = rt.alloc();
    for at_once in &AT_ONCE {
        let file = file_of(&rt, alloc, TORN);
        let behind = Some(WindowFault::Behind);
        assert_told(&rt, alloc, file, (5, *at_once), 4, behind);
        let file = file_of(&rt, alloc, NAME);
        assert_told(&rt, alloc, file, (1, *at_once), 0, behind);
    }
}

/// What is told by pieces of 40 bytes where a read fails once so many went well: the pieces end 40, 80,
/// 120, 160 and 172 bytes behind the name, and of the entries the lines end 21, 69, 95 and 151 bytes
/// behind it.
const FAILED: [(u64, usize, Option<WindowFault>); 5] = [
    (0, 0, Some(WindowFault::Read)),
    (1, 1, Some(WindowFault::Read)),
    (2, 2, Some(WindowFault::Read)),
    (3, 3, Some(WindowFault::Read)),
    (4, 4, None),
];

#[test]
fn a_read_that_fails_is_no_end(rt: HostRuntime) {
    let alloc = rt.alloc();
    for (good, first, fault) in &FAILED {
        let file = failing(&rt, alloc, TORN, *good);
        assert_told(&rt, alloc, file, (4, 40), *first, *fault);
    }
}

const OTHER: &str = "a trace\n0 begin -> begun 0.1\n0 begin\n0 escrow 0.1 stock -5 -> granted\n";

// The line that is no entry ends 29 bytes behind the name: by pieces of 21 the first entry comes in
// front of it.
#[test]
fn a_line_that_is_no_entry(rt: HostRuntime) {
    let alloc = rt.alloc();
    let line = Some(WindowFault::Line);
    assert_told(&rt, alloc, file_of(&rt, alloc, OTHER), (2, 21), 1, line);
    assert_told(&rt, alloc, file_of(&rt, alloc, OTHER), (2, 64), 0, line);
    assert_told(&rt, alloc, file_of(&rt, alloc, OTHER), (1, 21), 1, None);
}

// ---- many sites

/// The traces of two sites: the first accepts what the second gives, and spends. Their last entries
/// don't count.
const ZERO: &str = "\
a trace
0 accept 1 0 stock lower 5 -> accepted 5
0 begin -> begun 0.1
kept 0.1 -> no
0 escrow 0.1 stock -25 -> granted
0 commit 0.1 -> committed
0 read stock -> between 41 100
";

const ONE: &str = "a trace\n1 give 0 stock lower 5 -> given 5\n1 begin -> begun 1.1\n";

/// The window of a trace, of which so many entries count, at its first entry.
fn window_of(
    rt: &impl Abort,
    alloc: Global,
    schema: &Schema,
    traced: (MemoryFile, usize),
    piece: &mut [u8],
) -> TraceWindow<MemoryFile> {
    let (file, count) = traced;
    assert!(rt; piece.len() > 0);
    let mut window = TraceWindow::new(alloc, file, 8, count);
    window
        .fill(alloc, schema, piece)
        .expect(rt, "a first entry");
    window
}

/// The windows of two traces, of which so many entries count.
fn windows_of<'a>(
    rt: &impl Abort,
    alloc: Global,
    schema: &'a Schema,
    files: [(MemoryFile, usize); 2],
    at_once: usize,
) -> TraceWindows<'a, MemoryFile> {
    let mut piece = room(rt, alloc, at_once);
    let mut traces = Vec::new(alloc);
    for traced in files {
        let window = window_of(rt, alloc, schema, traced, piece.as_mut_slice());
        traces.push(window).expect(rt, "memory");
    }
    assert!(rt; piece.len() > 0);
    assert!(rt; traces.len() <= 65_535);
    TraceWindows::new(alloc, schema, traces, piece)
}

/// The line that is told of the two sites, of which so many entries count.
fn line_of(rt: &impl Abort, alloc: Global, zero: usize, one: usize, at_once: usize) -> String {
    let schema = schema_of(alloc, STOCK_OF_TWO).expect(rt, "a schema");
    let files = [
        (file_of(rt, alloc, ZERO), zero),
        (file_of(rt, alloc, ONE), one),
    ];
    let mut windows = windows_of(rt, alloc, &schema, files, at_once);
    let (verdict, count) = judge_histories(alloc, &schema, &mut windows).expect(rt, "a verdict");
    verdict_line(alloc, verdict, count).expect(rt, "memory")
}

// Woven are 1 give, 0 accept, 0 begin, 0 escrow, 0 commit, 0 read.
#[test]
fn traces_are_judged_by_windows(rt: HostRuntime) {
    let alloc = rt.alloc();
    for at_once in &AT_ONCE {
        assert_eq!(rt; line_of(&rt, alloc, 4, 1, *at_once).as_str(), "legal 5\n");
        assert_eq!(rt;
            line_of(&rt, alloc, 5, 1, *at_once).as_str(),
            "illegal 6 interval\n"
        );
    }
}

#[test]
fn a_trace_that_is_not_read_on(rt: HostRuntime) {
    let alloc = rt.alloc();
    let schema = schema_of(alloc, STOCK_OF_TWO).expect(&rt, "a schema");
    let files = [
        (failing(&rt, alloc, ZERO, 1), 4),
        (file_of(&rt, alloc, ONE), 1),
    ];
    let mut windows = windows_of(&rt, alloc, &schema, files, 64);
    let told = judge_histories(alloc, &schema, &mut windows);
    assert_eq!(rt; told.err(), Some(VerdictFault::Unread));
    assert_eq!(rt; windows.fault(), Some((0, WindowFault::Read)));
}
