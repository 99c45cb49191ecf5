//! A worked trace of site 0 of two, on one field, and logs that it is cut back to. The places of its
//! lines, which a shell counted, and its records were worked out by hand.

use check_kit::{FieldNo, SiteNo, stock_of_two};
use field_bounds::{Command, Entry, Kind, Reply, Schema, Statement};
use kept_records::read_front;
use site_trace::{Trace, TraceEnd, TraceFault, kept_entries, read_trace, trace_end, trace_end_at};
use std::alloc::Global;
use std::process::Abort;

/// Nine entries and two remarks. Records are left by the restart, the first commit, the gift and the
/// first acceptance.
const TRACE: &str = "\
0 restart -> restarted 1 nothing
0 begin -> begun 1.1
0 escrow 1.1 stock -15 -> granted
0 commit 1.1 -> committed
kept 1.1 -> yes
0 begin -> begun 1.2
0 commit 1.2 -> committed
bad line 7 no command
0 give 1 stock lower 5 -> given 5
0 accept 1 0 stock raise 3 -> accepted 3
0 accept 1 0 stock raise 3 -> accepted 0
";

/// The bytes in front of each entry's line.
const STARTS: [usize; 9] = [0, 33, 54, 88, 130, 151, 199, 233, 274];

/// A row of a log and where the trace is cut back to it.
macro_rules! cut {
    ($log:literal, $entries:literal, $length:literal) => {
        (
            $log,
            TraceEnd {
                entries: $entries,
                length: $length,
            },
        )
    };
}

/// The records of logs, and where the trace is cut back to them. A summary isn't counted.
const CUTS: [(&str, TraceEnd); 6] = [
    cut!("", 0, 0),
    cut!("R 1\n", 3, 88),
    cut!("R 1\nC 1 1 0 -15\n", 6, 199),
    cut!("R 1\nC 1 1 0 -15\nS 1 1 5 45\n", 6, 199),
    cut!("R 1\nC 1 1 0 -15\nG 1 0 l 5\n", 7, 233),
    cut!("R 1\nC 1 1 0 -15\nG 1 0 l 5\nA 1 0 r 3\n", 9, 315),
];

/// The schema, where memory is ample.
fn schema(rt: &impl Abort, alloc: Global) -> Schema {
    stock_of_two(alloc).expect(rt, "memory is ample")
}

/// What a read of the text gives.
fn read(rt: &impl Abort, alloc: Global, text: &str) -> Result<Trace, TraceFault> {
    read_trace(alloc, &schema(rt, alloc), text.as_bytes())
}

/// The trace of a text that is one.
fn trace_of(rt: &impl Abort, alloc: Global, text: &str) -> Trace {
    read(rt, alloc, text).expect(rt, "a trace")
}

/// Where the trace is cut back to a log.
fn cut(rt: &impl Abort, alloc: Global, trace: &Trace, log: &str) -> Option<TraceEnd> {
    let front = read_front(alloc, log.as_bytes()).expect(rt, "memory");
    trace_end(trace, front.records.as_slice())
}

/// The text is refused at this line.
fn assert_bad(rt: &impl Abort, alloc: Global, text: &str, line: u64) {
    let fault = read(rt, alloc, text).err();
    assert_eq!(rt; fault, Some(TraceFault::Line(line)), "{text}");
}

/// Each entry is of site 0, and starts at its place.
fn assert_starts(rt: &impl Abort, trace: &Trace) {
    assert_eq!(rt; trace.entries.len(), 9);
    for (traced, start) in trace.entries.iter().zip(STARTS.iter()) {
        assert_eq!(rt; (traced.entry.site, traced.start), (SiteNo(0), *start));
    }
}

#[test]
fn reads_entries_and_passes_remarks(rt: HostRuntime) {
    let trace = trace_of(&rt, rt.alloc(), TRACE);
    assert_eq!(rt; trace.length, 315);
    assert_starts(&rt, &trace);
}

const ACCEPTED: Entry = Entry {
    site: SiteNo(0),
    command: Command::Accept(Statement {
        from: SiteNo(1),
        to: SiteNo(0),
        field: FieldNo(0),
        kind: Kind::Raise,
        total: 3,
    }),
    reply: Reply::Accepted { gain: 3 },
};

/// Whether there is one entry, which is this.
fn is_only(trace: &Trace, entry: Entry) -> bool {
    match trace.entries.as_slice() {
        [traced] => traced.entry == entry,
        _ => false,
    }
}

#[test]
fn tells_each_entry(rt: HostRuntime) {
    let text = "0 accept 1 0 stock raise 3 -> accepted 3\n";
    let trace = trace_of(&rt, rt.alloc(), text);
    assert!(rt; is_only(&trace, ACCEPTED));
}

/// How many entries the trace of a text has, and their length.
fn lengths(rt: &impl Abort, alloc: Global, text: &str) -> (usize, usize) {
    let trace = trace_of(rt, alloc, text);
    (trace.entries.len(), trace.length)
}

#[test]
fn leaves_a_torn_end_out(rt: HostRuntime) {
    let text = "0 begin -> begun 0.1\n0 read stock -> betw";
    assert_eq!(rt; lengths(&rt, rt.alloc(), text), (1, 21));
    assert_eq!(rt; lengths(&rt, rt.alloc(), "0 begin"), (0, 0));
}

/// Texts, and the first line of each that no trace has.
const OTHER_LINES: [(&str, u64); 25] = [
    ("\n", 1),
    ("0 begin\n", 1),
    ("0 begin -> begun 0.1\n0 begin -> begun\n\n", 2),
    ("kept 1.1 -> yes\nkept 1.1 -> no\nkept 1.1\n", 3),
    ("kept 01.1 -> yes\n", 1),
    ("kept 1.1 -> Yes\n", 1),
    (
        "bad line 1 too long\nbad line 2 no such field\nbad line 3\n",
        3,
    ),
    ("bad line  no command\n", 1),
    ("bad line 01 no command\n", 1),
    ("bad line\n", 1),
    (
        "kept key order-17 -> 1.1\nkept key a -> 0.0\nkept key order-17 -> no\nkept key order-17\n",
        4,
    ),
    ("kept key order 17 -> 1.1\n", 1),
    ("kept key  -> no\n", 1),
    ("kept key order-17 -> yes\n", 1),
    ("kept key order-17 -> 01.1\n", 1),
    ("kept key order-17 -> no \n", 1),
    ("kept key order-17 -> 1.1 -> committed\n", 1),
    ("kept 1.1 -> forgotten\nkept 1.1 -> forgot\n", 2),
    ("kept key a -> forgotten\nkept key a -> forgotten \n", 2),
    (
        "kept key a since 1.0 -> no\nkept key a since 2.17 -> forgotten\nkept key a since 1.4 -> 1.5\nkept key a since 1.0\n",
        4,
    ),
    (
        "kept key since -> no\nkept key since since 1.0 -> no\nkept key since 1.0 -> no\n",
        3,
    ),
    ("kept key a since 1 -> no\n", 1),
    ("kept key a since 01.1 -> no\n", 1),
    ("kept key a since -> no\n", 1),
    ("kept key a since 1.0 -> yes\n", 1),
];

#[test]
fn names_the_first_other_line(rt: HostRuntime) {
    for (text, line) in &OTHER_LINES {
        assert_bad(&rt, rt.alloc(), *text, *line);
    }
}

#[test]
fn cuts_back_to_logs(rt: HostRuntime) {
    let trace = trace_of(&rt, rt.alloc(), TRACE);
    for (log, end) in &CUTS {
        assert_eq!(rt; cut(&rt, rt.alloc(), &trace, *log), Some(*end), "{log}");
    }
}

#[test]
fn refuses_a_trace_behind_its_log(rt: HostRuntime) {
    let trace = trace_of(&rt, rt.alloc(), TRACE);
    let log = "R 1\nC 1 1 0 -15\nG 1 0 l 5\nA 1 0 r 3\nR 2\n";
    assert_eq!(rt; cut(&rt, rt.alloc(), &trace, log), None);
}

/// How many of the entries stay where the trace is cut back to so many records.
const KEPT: [Option<usize>; 6] = [Some(0), Some(3), Some(6), Some(7), Some(9), None];

/// The entries that stay, by the whole trace and its cut.
fn cut_entries(rt: &impl Abort, alloc: Global, kept: usize) -> Option<Vec<Entry>> {
    let trace = trace_of(rt, alloc, TRACE);
    let end = trace_end_at(&trace, kept)?;
    let mut entries = Vec::new(alloc);
    for traced in trace.entries.iter().take(end.entries) {
        entries.push(traced.entry).expect(rt, "memory");
    }
    Some(entries)
}

/// The entries that stay, read alone.
fn entries_read(
    rt: &impl Abort,
    alloc: Global,
    text: &str,
    kept: usize,
) -> Result<Option<Vec<Entry>>, TraceFault> {
    kept_entries(alloc, &schema(rt, alloc), text.as_bytes(), kept)
}

/// Whether both are the same.
fn are_same(read: Option<Vec<Entry>>, cut: Option<Vec<Entry>>) -> bool {
    match (read, cut) {
        (Some(read), Some(cut)) => read.as_slice() == cut.as_slice(),
        (read, cut) => read.is_none() && cut.is_none(),
    }
}

#[test]
fn keeps_the_entries_in_front_of_the_cut(rt: HostRuntime) {
    for kept in 0..KEPT.len() {
        let read = entries_read(&rt, rt.alloc(), TRACE, kept).expect(&rt, "a trace");
        assert_eq!(rt; read.as_ref().map(|entries| entries.len()), KEPT[kept]);
        assert!(rt; are_same(read, cut_entries(&rt, rt.alloc(), kept)));
    }
}

#[test]
fn names_the_first_other_line_behind_the_cut_too(rt: HostRuntime) {
    for (text, line) in &OTHER_LINES {
        let fault = entries_read(&rt, rt.alloc(), *text, 0).err();
        assert_eq!(rt; fault, Some(TraceFault::Line(*line)));
    }
    let text = "0 restart -> restarted 1 nothing\n0 begin\n";
    let fault = entries_read(&rt, rt.alloc(), text, 0).err();
    assert_eq!(rt; fault, Some(TraceFault::Line(2)));
}
