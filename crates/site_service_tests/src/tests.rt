//! Each expected answer is worked out by hand from the definitions.

mod batches;
mod faults;
mod kept;
mod keys;
mod shortening;
mod since;
mod starts;
mod traces;
mod turns;

use check_kit::{STOCK, command, joined, stock_of_two};
use field_bounds::{SiteNo, TxnId};
use file_medium::{FileCall, FileMishap, LogFile, MemoryFile};
use kept_records::Device;
use line_serving::{serve, serve_keeping};
use site_service::*;
use std::alloc::{AllocError, Global};
use std::io::Read;
use std::process::Abort;
use stream_kit::Trickle;

/// The answer to the restart of a site whose log is empty.
const FRESH: &str = "0 restart -> restarted 1 nothing\n";

/// How a release or a serving ended, and what was written.
type Told = (Result<(), ServeFault>, Vec<u8>);

/// A file in memory that holds these bytes.
fn file_of(rt: &impl Abort, alloc: Global, bytes: &[u8]) -> MemoryFile {
    MemoryFile::new(alloc, Vec::from_slice(alloc, bytes).expect(rt, "memory"))
}

/// One that holds none.
fn empty_file(alloc: Global) -> MemoryFile {
    MemoryFile::new(alloc, Vec::new(alloc))
}

/// Site 0 of two, served over this file and told to this trace.
fn open_traced<F: LogFile + Drop, T: LogFile>(
    rt: &impl Abort,
    alloc: Global,
    file: F,
    trace: &mut T,
) -> Result<Service<F>, OpenFault> {
    let schema = stock_of_two(alloc).expect(rt, "memory");
    assert!(rt; schema.sites() == 2);
    match Service::open(alloc, schema, SiteNo(0), file, trace) {
        Ok(service) => Ok(service),
        Err((fault, _file)) => Err(fault),
    }
}

/// Site 0 of two, served over this file.
fn open_over<F: LogFile + Drop>(
    rt: &impl Abort,
    alloc: Global,
    file: F,
) -> Result<Service<F>, OpenFault> {
    open_traced(rt, alloc, file, &mut NoTrace)
}

/// Site 0 of two, served over an empty log.
fn fresh(rt: &impl Abort, alloc: Global) -> Service<MemoryFile> {
    open_over(rt, alloc, empty_file(alloc)).expect(rt, "opened")
}

/// Lets out what waits.
fn let_out<F: LogFile>(alloc: Global, service: &mut Service<F>) -> Told {
    let mut writer = Watched::new(Vec::new(alloc));
    let end = service.release(&mut writer);
    (end, writer.into_inner())
}

/// Serves what a reader gives, and tells it to a trace.
fn serve_traced<F: LogFile, T: LogFile, R: Read + Drop>(
    alloc: Global,
    service: &mut Service<F>,
    trace: &mut T,
    reader: R,
) -> Told {
    let mut reader = Watched::new(reader);
    let mut writer = Watched::new(Vec::new(alloc));
    let end = serve(alloc, service, trace, &mut reader, &mut writer);
    (end, writer.into_inner())
}

/// Tests how it ended, and that this text was written.
fn assert_told(rt: &impl Abort, told: &Told, end: Result<(), ServeFault>, text: &str) {
    assert_eq!(rt; told.0, end, "at {text}");
    assert_eq!(rt; str::from_utf8(told.1.as_slice()), Ok(text));
}

/// Lets out what waits, and tests how that ends and that this is its text.
fn assert_let_out<F: LogFile>(
    rt: &impl Abort,
    alloc: Global,
    service: &mut Service<F>,
    end: Result<(), ServeFault>,
    text: &str,
) {
    let told = let_out(alloc, service);
    assert_told(rt, &told, end, text);
}

/// Serves what a reader gives, and tests that all goes well and this text is written.
fn assert_serves<F: LogFile, R: Read + Drop>(
    rt: &impl Abort,
    alloc: Global,
    service: &mut Service<F>,
    reader: R,
    text: &str,
) {
    let told = serve_traced(alloc, service, &mut NoTrace, reader);
    assert_told(rt, &told, Ok(()), text);
}

/// The same over an empty log.
fn assert_served<R: Read + Drop>(rt: &impl Abort, alloc: Global, reader: R, text: &str) {
    let mut service = fresh(rt, alloc);
    assert_serves(rt, alloc, &mut service, reader, text);
}

/// An escrow, a commit and a question.
const ASKED: [&str; 3] = ["0 escrow 1.1 stock -20", "0 commit 1.1", "kept 1.1"];

/// A begin by its value, and those by their lines.
fn answer_each<F: LogFile>(alloc: Global, service: &mut Service<F>) -> Result<(), AllocError> {
    service.apply(alloc, command!(begin))?;
    for line in &ASKED {
        service.answer(alloc, line.as_bytes())?;
    }
    Ok(())
}

/// The four answers, which wait behind that of the opening.
const EACH: &str = "0 restart -> restarted 1 nothing
0 begin -> begun 1.1
0 escrow 1.1 stock -20 -> granted
0 commit 1.1 -> committed
kept 1.1 -> yes
";

/// The first transaction of the site, which its opening restarts.
const FIRST: TxnId = TxnId {
    epoch: 1,
    number: 1,
};

/// Whether the service knows what the four calls leave: the share, that the commit is kept, that
/// the log is settled, and that no call of the file failed.
fn knows_each<F: LogFile>(alloc: Global, service: &mut Service<F>) -> [bool; 4] {
    [
        service.site().share(STOCK) == Some((0, 50)),
        service.has_kept(alloc, FIRST) == Ok(CommitAnswer::Yes),
        service.settle() == Ok(()),
        !service.is_lost(),
    ]
}

/// Tests each call.
fn assert_each<F: LogFile>(rt: &impl Abort, alloc: Global, service: &mut Service<F>) {
    answer_each(alloc, service).expect(rt, "memory");
    assert_eq!(rt; knows_each(alloc, service), [true; 4]);
    assert_let_out(rt, alloc, service, Ok(()), EACH);
    assert_let_out(rt, alloc, service, Ok(()), "");
}

/// The same over this log.
fn assert_each_over(rt: &impl Abort, alloc: Global, file: &mut MemoryFile) {
    let mut service = open_over(rt, alloc, file).expect(rt, "opened");
    assert_each(rt, alloc, &mut service);
}

#[test]
fn each_call(rt: HostRuntime) {
    stop_leaves_a_front();
    let mut file = empty_file(rt.alloc());
    assert_each_over(&rt, rt.alloc(), &mut file);
    assert!(rt; file.bytes() == "R 1\nC 1 1 0 -20\n".as_bytes());
    assert!(rt; file.safe() == "R 1\nC 1 1 0 -20\n".as_bytes());
}

/// Lines that ask something, and lines that don't: the site has 20 rights to lower and 30 to raise.
const LINES: &str = "0 begin
0 escrow 1.1 stock -21
0 escrow 1.1 stock -5
kept 1.1
0 commit 1.1
kept 1.1
kept 1.2
kept 1.01
0 read stock
1 read stock
0 read sock

0 share stock\r
kept
0 accept 1 0 stock lower 4
0 share stock
";

/// The interval is from what is guarded below, 15, to 35 below the ceiling.
const ANSWERS: &str = "0 restart -> restarted 1 nothing
0 begin -> begun 1.1
0 escrow 1.1 stock -21 -> refused 7 short 20
0 escrow 1.1 stock -5 -> granted
kept 1.1 -> no
0 commit 1.1 -> committed
kept 1.1 -> yes
kept 1.2 -> no
bad line 8 no command
0 read stock -> between 15 65
bad line 10 other site
bad line 11 no such field
bad line 12 no command
bad line 13 no such field
bad line 14 no command
0 accept 1 0 stock lower 4 -> accepted 4
0 share stock -> share 19 35
";

/// Whole, and byte by byte, so that each line is a batch of its own.
#[test]
fn answers_each_line(rt: HostRuntime) {
    assert_served(&rt, rt.alloc(), LINES.as_bytes(), ANSWERS);
    assert_served(&rt, rt.alloc(), Trickle(LINES.as_bytes()), ANSWERS);
}

/// Lines that ask nothing, and why.
const BAD_LINES: [(&str, &str); 20] = [
    ("hello", "no command"),
    ("0  begin", "unknown word"),
    ("0 sell stock", "unknown word"),
    ("0 Begin", "unknown word"),
    ("x begin", "no command"),
    ("0 begin now", "no command"),
    ("0 commit", "no command"),
    ("0 share sock", "no such field"),
    ("0 read #0", "no such field"),
    ("0 tighten stock", "no command"),
    ("0 give 1 sock lower 4", "no such field"),
    ("0 give 1", "no command"),
    ("0 accept 1 0 sock lower 4", "no such field"),
    ("kept begin", "no command"),
    ("2 begin", "no command"),
    ("2 share stock", "no command"),
    ("65535 restart", "no command"),
    ("2 sell stock", "unknown word"),
    ("2 share sock", "no such field"),
    ("1 begin", "other site"),
];

/// Answers a line, and lets the answer out.
fn assert_answer<F: LogFile>(
    rt: &impl Abort,
    alloc: Global,
    service: &mut Service<F>,
    line: &str,
    text: &str,
) {
    service.answer(alloc, line.as_bytes()).expect(rt, "memory");
    assert_let_out(rt, alloc, service, Ok(()), text);
}

/// The same over an empty log.
fn assert_first_answer(rt: &impl Abort, alloc: Global, line: &str, text: &str) {
    let mut service = fresh(rt, alloc);
    assert_answer(rt, alloc, &mut service, line, text);
}

/// Tests why the line is bad.
fn assert_bad(rt: &impl Abort, alloc: Global, line: &str, why: &str) {
    let wanted = joined(alloc, &[FRESH, "bad line 1 ", why, "\n"]).expect(rt, "memory");
    assert_first_answer(rt, alloc, line, wanted.as_str());
}

// A field that isn't there has a name with `#`, from the count of fields on.
#[test]
fn tells_why_a_line_is_bad(rt: HostRuntime) {
    for (line, why) in &BAD_LINES {
        assert_bad(&rt, rt.alloc(), *line, *why);
    }
}

/// So many bytes that are no command, with a line feed behind them.
fn line_of(alloc: Global, count: usize) -> Result<Vec<u8>, AllocError> {
    let mut line = vec![in alloc; b'x'; count]?;
    line.push(b'\n')?;
    Ok(line)
}

/// How many bytes a line has, and what it is answered.
const LONG_LINES: [(usize, &str); 3] = [
    (256, "bad line 1 no command\n"),
    (257, "bad line 1 too long\n"),
    (1000, "bad line 1 too long\n"),
];

/// Tests what a line of so many bytes is answered that comes byte by byte.
fn assert_long(rt: &impl Abort, alloc: Global, count: usize, answer: &str) {
    let line = line_of(alloc, count).expect(rt, "memory");
    let wanted = joined(alloc, &[FRESH, answer]).expect(rt, "memory");
    assert_served(rt, alloc, Trickle(line.as_slice()), wanted.as_str());
}

#[test]
fn a_long_line_is_told(rt: HostRuntime) {
    for (count, answer) in &LONG_LINES {
        assert_long(&rt, rt.alloc(), *count, *answer);
    }
}

/// A first input, whose last line has no end, and a second one.
fn assert_two_inputs<F: LogFile>(rt: &impl Abort, alloc: Global, service: &mut Service<F>) {
    assert_serves(rt, alloc, service, b"0 restart".as_slice(), FRESH);
    assert_serves(
        rt,
        alloc,
        service,
        b"\n0 share stock\n".as_slice(),
        "bad line 1 no command\n0 share stock -> share 20 30\n",
    );
}

/// A last line without its end isn't answered, and a later input doesn't end it.
#[test]
fn a_line_without_its_end_is_none(rt: HostRuntime) {
    let mut service = fresh(&rt, rt.alloc());
    assert_two_inputs(&rt, rt.alloc(), &mut service);
}

/// How a service over this log isn't opened where the first such call of its file fails, or none;
/// None where it is.
fn fault_of(
    rt: &impl Abort,
    alloc: Global,
    log: &str,
    call: Option<FileCall>,
) -> Option<OpenFault> {
    let mut file = file_of(rt, alloc, log.as_bytes());
    if let Some(call) = call {
        file.arm(FileMishap { call, good: 0 });
    }
    open_over(rt, alloc, file).err()
}

/// A log, which call of its file fails, and how it isn't opened.
type Opened = (&'static str, Option<FileCall>, Option<OpenFault>);

/// A log of a restart and a torn record, and one whose second line is no record.
const OPENED: [Opened; 6] = [
    ("R 1\nhello\n", None, Some(OpenFault::Line(2))),
    ("R 1\nC 1 1", None, None),
    ("R 1\nC 1 1", Some(FileCall::Read), Some(OpenFault::Device)),
    ("R 1\nC 1 1", Some(FileCall::Write), Some(OpenFault::Device)),
    ("R 1\nC 1 1", Some(FileCall::Cut), Some(OpenFault::Device)),
    ("R 1\nC 1 1", Some(FileCall::Sync), Some(OpenFault::Device)),
];

#[test]
fn a_log_is_opened(rt: HostRuntime) {
    for (log, call, fault) in &OPENED {
        assert_eq!(rt; fault_of(&rt, rt.alloc(), *log, *call), *fault);
    }
}

/// The texts by which a program tells the faults.
const FAULT_TEXTS: [(ServeFault, &str); 5] = [
    (ServeFault::Read, "read fault"),
    (ServeFault::Write, "write fault"),
    (ServeFault::Device, "device fault"),
    (ServeFault::TooLong, "input too long"),
    (ServeFault::NoMemory, "out of memory"),
];

fn assert_tells(rt: &impl Abort, alloc: Global, fault: ServeFault, text: &str) {
    let told = fault.to_string(alloc).expect(rt, "memory");
    assert_eq!(rt; told.as_str(), text);
}

#[test]
fn tells_faults(rt: HostRuntime) {
    for (fault, text) in &FAULT_TEXTS {
        assert_tells(&rt, rt.alloc(), *fault, *text);
    }
}
