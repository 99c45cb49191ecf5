//! A source and a sink that fail once, and would go on.

use super::*;
use stream_kit::{FailingSource, RefusingSink};

const INPUT: &str = "0 begin\n0 read stock\nhello\n0 share stock\n";

/// The answer of the opening, and that of each line.
const OUTPUT: [&str; 5] = [
    FRESH,
    "0 begin -> begun 1.1\n",
    "0 read stock -> between 20 70\n",
    "bad line 3 no command\n",
    "0 share stock -> share 20 30\n",
];

/// The answer of the opening, and those of the first so many lines.
fn text_of(alloc: Global, lines: usize) -> Result<String, AllocError> {
    let mut text = String::new(alloc);
    for answer in OUTPUT.iter().take(lines.saturating_add(1)) {
        text.push_str(*answer)?;
    }
    Ok(text)
}

/// How many lines end in these bytes.
fn count_lines(bytes: &[u8]) -> usize {
    bytes.iter().filter(|byte| **byte == b'\n').count()
}

/// Serves a source. No write fails.
fn serve_source<F: LogFile>(
    rt: &impl Abort,
    alloc: Global,
    service: &mut Service<F>,
    source: &mut FailingSource,
) -> Told {
    let mut writer = Watched::new(Vec::new(alloc));
    let end = serve(alloc, service, &mut NoTrace, source, &mut writer);
    assert_eq!(rt; writer.failures(), 0);
    (end, writer.into_inner())
}

/// The same over an empty log.
fn serve_first(rt: &impl Abort, alloc: Global, source: &mut FailingSource) -> Told {
    let mut service = fresh(rt, alloc);
    serve_source(rt, alloc, &mut service, source)
}

/// Serves a source whose only failure ends the serving, with the answers of so many lines.
fn assert_failing(rt: &impl Abort, alloc: Global, source: &mut FailingSource, lines: usize) {
    let told = serve_first(rt, alloc, source);
    let wanted = text_of(alloc, lines).expect(rt, "memory");
    assert_told(rt, &told, Err(ServeFault::Read), wanted.as_str());
}

// Behind each byte a read fails once. It isn't tried again: nothing behind it is read.
#[test]
fn reads_no_more_once_a_source_failed(rt: HostRuntime) {
    let bytes = INPUT.as_bytes();
    for count in 0..=bytes.len() {
        let mut source = FailingSource::new(bytes, count);
        assert_failing(&rt, rt.alloc(), &mut source, count_lines(&bytes[..count]));
        assert_eq!(rt; source.failures(), 1);
        assert_eq!(rt; source.left(), bytes.len() - count);
    }
}

/// How a serving into a sink ends. No read fails.
fn serve_into<F: LogFile>(
    rt: &impl Abort,
    alloc: Global,
    service: &mut Service<F>,
    sink: &mut RefusingSink,
) -> Result<(), ServeFault> {
    let mut source = Watched::new(INPUT.as_bytes());
    let end = serve(alloc, service, &mut NoTrace, &mut source, sink);
    assert_eq!(rt; source.failures(), 0);
    end
}

/// Whether a sink took these bytes, and what waits isn't written where it would take more.
fn takes_no_more<F: LogFile>(
    service: &mut Service<F>,
    sink: &mut RefusingSink,
    wanted: &[u8],
) -> [bool; 4] {
    [
        sink.taken() == wanted,
        service.release(sink) == Ok(()),
        sink.refusals() == 1,
        sink.taken() == wanted,
    ]
}

/// Serves into a sink that refuses a write once. What wasn't written isn't written later.
fn assert_front_taken<F: LogFile>(
    rt: &impl Abort,
    alloc: Global,
    service: &mut Service<F>,
    sink: &mut RefusingSink,
    wanted: &[u8],
) {
    let end = serve_into(rt, alloc, service, sink);
    assert_eq!(rt; end, Err(ServeFault::Write));
    assert_eq!(rt; takes_no_more(service, sink, wanted), [true; 4]);
}

/// The same over an empty log.
fn assert_refused(rt: &impl Abort, alloc: Global, sink: &mut RefusingSink, wanted: &[u8]) {
    let mut service = fresh(rt, alloc);
    assert_front_taken(rt, alloc, &mut service, sink, wanted);
}

/// The same behind each byte of the output.
fn assert_refusals(rt: &impl Abort, alloc: Global, wanted: &[u8]) {
    for room in 0..wanted.len() {
        let mut sink = RefusingSink::new(alloc, room);
        assert_refused(rt, alloc, &mut sink, &wanted[..room]);
    }
}

// Behind each byte of the output a write is refused once.
#[test]
fn writes_no_more_once_a_sink_refused(rt: HostRuntime) {
    let text = text_of(rt.alloc(), 4).expect(&rt, "memory");
    assert_refusals(&rt, rt.alloc(), text.as_bytes());
}
