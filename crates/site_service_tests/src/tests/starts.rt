//! Each call of an opening fails in its turn, over a log of several records and a torn end.

use super::*;

/// Three records, and behind them a torn one.
const RECORDS: &str = "R 1\nC 1 1 0 -5\nG 1 0 l 4\n";

const TORN: &str = "R 1\nC 1 1 0 -5\nG 1 0 l 4\nC 1 2 0";

/// What a start leaves: the record of its restart behind the others, and the answer to it.
const STARTED: &str = "R 1\nC 1 1 0 -5\nG 1 0 l 4\nR 2\n";

const RESTARTED: &str = "0 restart -> restarted 2 nothing\n";

/// Which file's call fails, if any.
#[derive(Clone, Copy)]
enum Failing {
    Log(FileCall, u64),
    Trace(FileCall, u64),
    Neither,
}

/// What a file holds, and what of it is safe.
type Left = (&'static str, &'static str);

/// The call that fails, and what the log and the trace have then: of both all was safe.
type Row = (Failing, Left, Left);

/// The reads are that of the bytes and that of the end; the one cut is that of the torn end; the one
/// write is that of the restart's record. Sync 0 is that behind the cut, sync 1 that behind the
/// restart. The trace comes between the two.
const ROWS: [Row; 9] = [
    (Failing::Log(FileCall::Read, 0), (TORN, TORN), ("", "")),
    (Failing::Log(FileCall::Read, 1), (TORN, TORN), ("", "")),
    (Failing::Log(FileCall::Cut, 0), (TORN, TORN), ("", "")),
    (
        Failing::Log(FileCall::Sync, 0),
        (RECORDS, RECORDS),
        ("", ""),
    ),
    (
        Failing::Trace(FileCall::Write, 0),
        (RECORDS, RECORDS),
        ("", ""),
    ),
    (
        Failing::Trace(FileCall::Sync, 0),
        (RECORDS, RECORDS),
        (RESTARTED, ""),
    ),
    (
        Failing::Log(FileCall::Write, 0),
        (RECORDS, RECORDS),
        (RESTARTED, RESTARTED),
    ),
    (
        Failing::Log(FileCall::Sync, 1),
        (STARTED, RECORDS),
        (RESTARTED, RESTARTED),
    ),
    (Failing::Neither, (STARTED, STARTED), (RESTARTED, RESTARTED)),
];

/// Arms the call that is to fail.
fn arm(failing: Failing, log: &mut MemoryFile, trace: &mut MemoryFile) {
    match failing {
        Failing::Log(call, good) => log.arm(FileMishap { call, good }),
        Failing::Trace(call, good) => trace.arm(FileMishap { call, good }),
        Failing::Neither => {},
    }
}

/// A file that holds these bytes, all of them safe.
fn safe_file(rt: &impl Abort, alloc: Global, text: &str) -> MemoryFile {
    let mut file = file_of(rt, alloc, text.as_bytes());
    assert_eq!(rt; file.sync(), Ok(()));
    file
}

/// Tests what a file holds, and what of it is safe.
fn assert_left(rt: &impl Abort, file: &MemoryFile, left: Left) {
    assert_eq!(rt; str::from_utf8(file.bytes()), Ok(left.0));
    assert_eq!(rt; str::from_utf8(file.safe()), Ok(left.1));
}

/// How a service over this log isn't opened, with the log that it hands back; None where it is.
fn refusal_of(
    rt: &impl Abort,
    alloc: Global,
    log: MemoryFile,
    trace: &mut MemoryFile,
) -> Option<(OpenFault, MemoryFile)> {
    let schema = stock_of_two(alloc).expect(rt, "memory");
    assert!(rt; schema.sites() == 2);
    Service::open(alloc, schema, SiteNo(0), log, trace).err()
}

/// Tests the log that is handed back by an opening that failed.
fn assert_handed_back(
    rt: &impl Abort,
    alloc: Global,
    log: MemoryFile,
    trace: &mut MemoryFile,
    left: Left,
) {
    match refusal_of(rt, alloc, log, trace) {
        Some((fault, log)) => {
            assert_eq!(rt; fault, OpenFault::Device);
            assert_left(rt, &log, left);
        }
        None => assert!(rt; false),
    }
}

/// Tests what an opening over a log that is lent leaves, and how it ends.
fn assert_opens(
    rt: &impl Abort,
    alloc: Global,
    log: &mut MemoryFile,
    trace: &mut MemoryFile,
    row: &Row,
) {
    let opened = open_traced(rt, alloc, &mut *log, trace).is_ok();
    assert_eq!(rt; opened, matches!(row.0, Failing::Neither));
    assert_left(rt, log, row.1);
}

// Nothing that was safe of the records is lost, and the log has nothing that the trace hasn't.
#[test]
fn each_call_of_an_opening_fails_in_turn(rt: HostRuntime) {
    for row in &ROWS {
        let mut log = safe_file(&rt, rt.alloc(), TORN);
        let mut trace = empty_file(rt.alloc());
        arm(row.0, &mut log, &mut trace);
        assert_opens(&rt, rt.alloc(), &mut log, &mut trace, row);
        assert_left(&rt, &trace, row.2);
    }
}

// The same of a log that is handed over: at a fault it comes back so.
#[test]
fn a_log_is_handed_back(rt: HostRuntime) {
    for row in ROWS.iter().take(8) {
        let mut log = safe_file(&rt, rt.alloc(), TORN);
        let mut trace = empty_file(rt.alloc());
        arm(row.0, &mut log, &mut trace);
        assert_handed_back(&rt, rt.alloc(), log, &mut trace, row.1);
        assert_left(&rt, &trace, row.2);
    }
}

/// What a site answers behind a start over the three records.
const LOOK: &str = "0 share stock\nkept 1.1\nkept 1.2\n";

const FOUND: &str =
    "0 restart -> restarted 2 nothing\n0 share stock -> share 11 35\nkept 1.1 -> yes\nkept 1.2 -> no\n";

/// The same once a start has left its record.
const FOUND_BEHIND: &str =
    "0 restart -> restarted 3 nothing\n0 share stock -> share 11 35\nkept 1.1 -> yes\nkept 1.2 -> no\n";

/// Tests what is answered over what a stop of the machine leaves of a log.
fn assert_found(rt: &impl Abort, alloc: Global, log: &MemoryFile) {
    let wanted = if log.safe() == STARTED.as_bytes() {
        FOUND_BEHIND
    } else {
        FOUND
    };
    let mut service = open_over(rt, alloc, file_of(rt, alloc, log.safe())).expect(rt, "opened");
    assert_serves(rt, alloc, &mut service, LOOK.as_bytes(), wanted);
}

// Whichever call failed, the next start finds all that was safe.
#[test]
fn a_later_start_finds_all_that_was_safe(rt: HostRuntime) {
    for row in &ROWS {
        let mut log = safe_file(&rt, rt.alloc(), TORN);
        let mut trace = empty_file(rt.alloc());
        arm(row.0, &mut log, &mut trace);
        assert_opens(&rt, rt.alloc(), &mut log, &mut trace, row);
        assert_found(&rt, rt.alloc(), &log);
    }
}

/// Logs that are refused, with a torn end, and the line that is named: no record; a record that may
/// not stand there.
const REFUSED: [(&str, u64); 3] = [
    ("R 1\nC 1 1 0 -5\nhello\nC 1 2", 3),
    ("R 1\nR 1\nC 1", 2),
    ("hello\nR", 1),
];

/// Tests that a log is refused at this line, and comes back as it was, and nothing is traced.
fn assert_refused(rt: &impl Abort, alloc: Global, text: &'static str, line: u64) {
    let log = safe_file(rt, alloc, text);
    let mut trace = empty_file(alloc);
    match refusal_of(rt, alloc, log, &mut trace) {
        Some((fault, log)) => {
            assert_eq!(rt; fault, OpenFault::Line(line));
            assert_left(rt, &log, (text, text));
        }
        None => assert!(rt; false),
    }
    assert_left(rt, &trace, ("", ""));
}

#[test]
fn a_log_that_is_refused_keeps_its_torn_end(rt: HostRuntime) {
    for (text, line) in &REFUSED {
        assert_refused(&rt, rt.alloc(), *text, *line);
    }
}
