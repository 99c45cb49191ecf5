//! A source and a sink that fail once, and would go on.

use super::{Ended, READ_FAULT, check_ran, row_input, row_output};
use escrow_run::{ScriptFault, Watched, run_script};
use std::alloc::Global;
use std::process::Abort;
use stream_kit::{FailingSource, RefusingSink};

/// How a run over a source ended, and what it wrote. No write failed.
fn run_failing(rt: &impl Abort, alloc: Global, source: &mut FailingSource) -> (Ended, Vec<u8>) {
    let mut sink = Watched::new(Vec::new(alloc));
    let end = run_script(alloc, source, &mut sink);
    assert_eq!(rt; sink.failures(), 0);
    (end, sink.into_inner())
}

/// Runs over a source, and tests how the run ends, what it writes and that one read failed so far.
fn check_failing(
    rt: &impl Abort,
    alloc: Global,
    source: &mut FailingSource,
    wanted: Ended,
    bytes: usize,
) {
    let (end, out) = run_failing(rt, alloc, source);
    let output = row_output(rt, alloc, bytes);
    check_ran(rt, end, wanted, out.as_slice(), output.as_bytes());
    assert!(rt; source.failures() == 1);
}

// Behind each byte of the row a read fails once. It isn't tried again: nothing behind it is read.
#[test]
fn reads_no_more_once_a_source_failed(rt: HostRuntime) {
    let input = row_input(&rt, rt.alloc());
    let bytes = input.as_bytes();
    for count in 0..=bytes.len() {
        let mut source = FailingSource::new(bytes, count);
        check_failing(&rt, rt.alloc(), &mut source, READ_FAULT, count);
        assert_eq!(rt; source.left(), bytes.len() - count);
    }
}

/// How a run over a text ended. No read failed.
fn run_refused(rt: &impl Abort, alloc: Global, text: &[u8], sink: &mut RefusingSink) -> Ended {
    let mut source = Watched::new(text);
    let end = run_script(alloc, &mut source, sink);
    assert_eq!(rt; source.failures(), 0);
    end
}

/// Behind each byte of the wanted output a write is refused once.
fn check_refusals(rt: &impl Abort, alloc: Global, input: &[u8], wanted: &[u8]) {
    for room in 0..wanted.len() {
        let mut sink = RefusingSink::new(alloc, room);
        let end = run_refused(rt, alloc, input, &mut sink);
        check_ran(
            rt,
            end,
            Err(ScriptFault::Write),
            sink.taken(),
            &wanted[..room],
        );
        assert!(rt; sink.refusals() == 1);
    }
}

// Behind each byte of the row's output a write is refused once. It isn't tried again.
#[test]
fn writes_no_more_once_a_sink_refused(rt: HostRuntime) {
    let input = row_input(&rt, rt.alloc());
    let wanted = row_output(&rt, rt.alloc(), input.len());
    check_refusals(&rt, rt.alloc(), input.as_bytes(), wanted.as_bytes());
}

// The same source goes on in a next run, behind the read that failed.
#[test]
fn goes_on_in_the_next_run(rt: HostRuntime) {
    let input = row_input(&rt, rt.alloc());
    let mut source = FailingSource::new(input.as_bytes(), 0);
    check_failing(&rt, rt.alloc(), &mut source, READ_FAULT, 0);
    check_failing(&rt, rt.alloc(), &mut source, Ok(()), input.len());
}
