//! The trace of a worked run: each of its writes and syncs fails in turn, and each sync of the log.

use super::turns::{assert_front, assert_text};
use super::*;

/// What the log holds behind the opening and each batch.
const LOGS: [&str; 4] = [
    "R 1\n",
    "R 1\nC 1 1 0 -5\n",
    "R 1\nC 1 1 0 -5\n",
    "R 1\nC 1 1 0 -5\nG 1 0 l 4\nC 1 2 0 -3\n",
];

/// What is safe of a log behind so many batches that were let out, or where the service isn't opened.
fn log_behind(count: Option<usize>) -> &'static str {
    match count {
        Some(count) if count < LOGS.len() => LOGS[count],
        Some(_) | None => "",
    }
}

/// Tests that exactly the first so many batches are let out of a service that is to be opened.
fn assert_opened<F: LogFile>(
    rt: &impl Abort,
    alloc: Global,
    service: &mut Service<F>,
    trace: &mut MemoryFile,
    count: Option<usize>,
) {
    assert_front(rt, alloc, service, trace, count.expect(rt, "not opened"));
}

/// Tests that exactly the first so many batches are let out, or that the service isn't opened.
fn assert_run(
    rt: &impl Abort,
    alloc: Global,
    log: &mut MemoryFile,
    trace: &mut MemoryFile,
    count: Option<usize>,
) {
    match open_traced(rt, alloc, log, &mut *trace) {
        Ok(mut service) => assert_opened(rt, alloc, &mut service, trace, count),
        Err(_) => assert!(rt; count.is_none()),
    }
}

/// Tests that the answers of the opening and of so many batches are safe in a trace, and no others.
fn assert_traced(rt: &impl Abort, alloc: Global, safe: &[u8], batches: Option<usize>) {
    match batches {
        Some(count) => assert_text(rt, alloc, safe, count),
        None => assert_eq!(rt; safe.len(), 0),
    }
}

/// An empty file of which this call fails.
fn file_under(alloc: Global, call: FileCall, good: u64) -> MemoryFile {
    let mut file = empty_file(alloc);
    file.arm(FileMishap { call, good });
    file
}

/// Which batches are let out where this call of the trace fails; None where the service isn't opened.
const TRACE_ROWS: [(FileCall, u64, Option<usize>); 10] = [
    (FileCall::Write, 0, None),
    (FileCall::Write, 1, Some(0)),
    (FileCall::Write, 2, Some(1)),
    (FileCall::Write, 3, Some(2)),
    (FileCall::Write, 4, Some(3)),
    (FileCall::Sync, 0, None),
    (FileCall::Sync, 1, Some(0)),
    (FileCall::Sync, 2, Some(1)),
    (FileCall::Sync, 3, Some(2)),
    (FileCall::Sync, 4, Some(3)),
];

// The log has nothing of a batch that the trace hasn't got.
#[test]
fn each_call_of_a_trace_fails_in_turn(rt: HostRuntime) {
    for (call, good, count) in &TRACE_ROWS {
        let mut log = empty_file(rt.alloc());
        let mut trace = file_under(rt.alloc(), *call, *good);
        assert_run(&rt, rt.alloc(), &mut log, &mut trace, *count);
        assert_traced(&rt, rt.alloc(), trace.safe(), *count);
        assert!(rt; log.bytes() == log_behind(*count).as_bytes());
    }
}

/// Which sync of the log fails; the batches that are let out; and those whose answers the trace has,
/// None where not even that of the opening.
const LOG_ROWS: [(u64, Option<usize>, Option<usize>); 5] = [
    (0, None, None),
    (1, None, Some(0)),
    (2, Some(0), Some(1)),
    (3, Some(2), Some(3)),
    (4, Some(3), Some(3)),
];

// The trace has the answers of the batch that the log failed to get.
#[test]
fn a_trace_is_ahead_of_a_log_that_fails(rt: HostRuntime) {
    for (good, count, traced) in &LOG_ROWS {
        let mut log = file_under(rt.alloc(), FileCall::Sync, *good);
        let mut trace = empty_file(rt.alloc());
        assert_run(&rt, rt.alloc(), &mut log, &mut trace, *count);
        assert_traced(&rt, rt.alloc(), trace.safe(), *traced);
        assert!(rt; log.safe() == log_behind(*count).as_bytes());
    }
}
