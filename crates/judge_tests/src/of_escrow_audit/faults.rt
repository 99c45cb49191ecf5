//! A source and a sink that fail once, and would go on.

use super::{Ended, READ_FAULT, ROW, ended, written};
use check_kit::text_of_two;
use escrow_audit::{CallEnd, Watched};
use std::alloc::{AllocError, Global};
use std::process::Abort;
use std::thread::Threads;
use stream_kit::{FailingSource, RefusingSink};

/// The answer to the row.
const ANSWER: &[u8] = b"legal 6\n";

/// Tests that an audit of a source ends at the one read that fails, and writes nothing.
fn check_failing(
    rt: &(impl Abort + Threads + Sync),
    alloc: Global,
    source: &mut FailingSource,
    sink: &mut Watched<Vec<u8>>,
) {
    let end = ended(rt, alloc, false, source, sink);
    assert_eq!(rt; end, READ_FAULT);
    assert_eq!(rt; source.failures(), 1);
    assert_eq!(rt; sink.last(), CallEnd::NotCalled);
}

/// Behind each byte of a text a read fails once.
fn check_failures(rt: &(impl Abort + Threads + Sync), alloc: Global, text: &[u8]) {
    for count in 0..=text.len() {
        let mut source = FailingSource::new(text, count);
        let mut sink = Watched::new(Vec::new(alloc));
        check_failing(rt, alloc, &mut source, &mut sink);
        assert_eq!(rt; source.left(), text.len() - count);
    }
}

// Behind each byte of the row a read fails once. It isn't tried again, and nothing is written.
#[test]
fn reads_no_more_once_a_source_failed(rt: HostRuntime) -> Result<(), AllocError> {
    let text = text_of_two(rt.alloc(), &ROW)?;
    check_failures(&rt, rt.alloc(), text.as_bytes());
    Ok(())
}

/// How an audit of a text into a sink ends. No read fails.
fn end_into(
    rt: &(impl Abort + Threads + Sync),
    alloc: Global,
    text: &[u8],
    sink: &mut RefusingSink,
) -> Ended {
    let mut source = Watched::new(text);
    let end = ended(rt, alloc, false, &mut source, sink);
    assert_eq!(rt; source.failures(), 0);
    end
}

/// Audits a text into a sink that takes so many bytes of the answer before it refuses a write.
fn check_refusing(rt: &(impl Abort + Threads + Sync), alloc: Global, text: &[u8], taken: &[u8]) {
    let mut sink = RefusingSink::new(alloc, taken.len());
    let end = end_into(rt, alloc, text, &mut sink);
    let is_whole = taken.len() == ANSWER.len();
    assert_eq!(rt; end, written(is_whole));
    assert_eq!(rt; sink.refusals(), u64::from(!is_whole));
    assert_eq!(rt; sink.taken(), taken);
}

// Behind each byte of the answer a write is refused once. It isn't tried again.
#[test]
fn writes_no_more_once_a_sink_refused(rt: HostRuntime) -> Result<(), AllocError> {
    let text = text_of_two(rt.alloc(), &ROW)?;
    for room in 0..=ANSWER.len() {
        check_refusing(&rt, rt.alloc(), text.as_bytes(), &ANSWER[..room]);
    }
    Ok(())
}
