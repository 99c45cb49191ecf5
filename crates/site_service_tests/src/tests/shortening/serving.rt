//! Logs that let go of their front while an input is served.

use super::*;

/// An open transaction, in front of the commits.
const FIRST_OPEN: &str = "0 begin\n0 escrow 1.1 stock -1\n";

/// How many commits stand behind it, 1.2 to 1.4001. With the restart and the commit of 1.1 the log
/// has 4,002 records, and behind each thousand a summary.
const COMMITS: u32 = 4000;

/// What is asked behind them: the answers are those of a log that lets go of nothing.
const LAST_LINES: &str = "kept 1.1
kept 1.4001
kept 1.5000
kept key last
0 share stock
0 commit 1.1
kept 1.1
0 share stock
";

const LAST_ANSWERS: &str = "kept 1.1 -> no
kept 1.4001 -> yes
kept 1.5000 -> no
kept key last -> 1.4001
0 share stock -> share 19 30
0 commit 1.1 -> committed
kept 1.1 -> yes
0 share stock -> share 19 31
";

const DIGITS: [&str; 10] = ["0", "1", "2", "3", "4", "5", "6", "7", "8", "9"];

/// A number of four digits at most.
fn push_number(text: &mut String, number: u32) -> Result<(), AllocError> {
    let places = [1000, 100, 10, 1];
    for place in &places {
        if number >= *place {
            let digit = (number / *place) % 10;
            text.push_str(DIGITS[digit as usize])?;
        }
    }
    Ok(())
}

/// The lines of one commit: by turns one unit less, and one more. The last has a key.
fn push_commit(text: &mut String, number: u32) -> Result<(), AllocError> {
    text.push_str("0 begin\n0 escrow 1.")?;
    push_number(text, number)?;
    let change = if number % 2 == 0 {
        " stock -1"
    } else {
        " stock 1"
    };
    text.push_str(change)?;
    text.push_str("\n0 commit 1.")?;
    push_number(text, number)?;
    let end = if number == COMMITS + 1 {
        " key last since 1.4000\n"
    } else {
        "\n"
    };
    text.push_str(end)
}

/// All these lines.
fn long_input(alloc: Global) -> Result<String, AllocError> {
    let mut text = String::from_str(alloc, FIRST_OPEN)?;
    for number in 2..COMMITS + 2 {
        push_commit(&mut text, number)?;
    }
    text.push_str(LAST_LINES)?;
    Ok(text)
}

/// The log of site 0 with no record.
const EMPTY: &str = "escrow log 2
number 0
world 145aa8408cfe4e170aa9ab522fe2e8b9b4c23917b59218cbdada91cf44b1183a
head 0 0
sum 00001dc100065641
";

/// What was let go of a log, once more.
fn copy_of(rt: &impl Abort, alloc: Global, gone: &Gone) -> Gone {
    let listed = Vec::from_slice(alloc, gone.horizon.open_then()).expect(rt, "memory");
    let horizon = Horizon::new(gone.horizon.epoch(), gone.horizon.number(), listed);
    Gone {
        bytes: gone.bytes,
        records: gone.records,
        horizon: horizon.expect(rt, "a horizon"),
    }
}

/// Site 0, served over the log in these files, of which something may be gone, and told to a trace.
fn open_either<'a, 'b, T: LogFile>(
    rt: &impl Abort,
    alloc: Global,
    identity: &'a Identity,
    files: &'b mut TwoFiles,
    trace: &mut T,
) -> Service<ShortFile<'a, &'b mut TwoFiles>> {
    let log = ShortFile::open(alloc, identity, files)
        .ok()
        .expect(rt, "a log");
    let gone = log.gone().map(|gone| copy_of(rt, alloc, gone));
    let Some(gone) = gone else {
        return open_traced(rt, alloc, log, trace).expect(rt, "opened");
    };
    let schema = stock_of_two(alloc).expect(rt, "memory");
    assert!(rt; schema.sites() == 2);
    Service::open_behind(alloc, schema, SiteNo(0), gone, log, trace)
        .ok()
        .expect(rt, "opened")
}

/// A serving of an input: how it ended, what was written and traced, and how much was left unread.
#[derive(Drop)]
struct Outcome {
    told: Told,
    traced: Vec<u8>,
    left: usize,
}

/// Serves an input, and shortens the log where bytes to keep are told. Tells how much was left unread.
fn serve_either<F: LogFile + ShortLog, T: LogFile>(
    alloc: Global,
    service: &mut Service<F>,
    trace: &mut T,
    input: &str,
    keep: Option<usize>,
) -> (Told, usize) {
    let mut reader = Watched::new(input.as_bytes());
    let mut writer = Watched::new(Vec::new(alloc));
    let end = match keep {
        Some(keep) => serve_keeping(alloc, service, trace, &mut reader, &mut writer, keep),
        None => serve(alloc, service, trace, &mut reader, &mut writer),
    };
    ((end, writer.into_inner()), reader.into_inner().len())
}

/// The same over the log in these files.
fn run(
    rt: &impl Abort,
    alloc: Global,
    files: &mut TwoFiles,
    input: &str,
    keep: Option<usize>,
) -> Outcome {
    let identity = identity(rt, alloc);
    let mut trace = empty_file(alloc);
    let mut service = open_either(rt, alloc, &identity, files, &mut trace);
    let (told, left) = serve_either(alloc, &mut service, &mut trace, input, keep);
    Outcome {
        told,
        traced: Vec::from_slice(alloc, trace.safe()).expect(rt, "memory"),
        left,
    }
}

/// Files that hold the log of site 0 with no record.
fn empty_files(rt: &impl Abort, alloc: Global) -> TwoFiles {
    files(rt, alloc, EMPTY)
}

/// The end of a text.
fn end_of(text: &[u8], end: &str) -> bool {
    text.ends_with(end.as_bytes())
}

/// The run of the long input over a log that lets go of nothing, whose answers end as worked out.
fn plain_run(rt: &impl Abort, alloc: Global, files: &mut TwoFiles, input: &str) -> Outcome {
    let plain = run(rt, alloc, files, input, None);
    assert_eq!(rt; plain.told.0, Ok(()));
    assert!(rt; end_of(plain.told.1.as_slice(), LAST_ANSWERS));
    assert!(rt; files.file.bytes().len() > 50_000);
    plain
}

/// A run ended well, with these answers, which the trace tells too.
fn assert_answered(rt: &impl Abort, outcome: &Outcome, answers: &[u8]) {
    assert_eq!(rt; outcome.told.0, Ok(()));
    assert!(rt; outcome.told.1.as_slice() == answers);
    assert!(rt; outcome.traced.as_slice() == answers);
    assert_eq!(rt; outcome.left, 0);
}

/// What is told behind a start over the log that is left: what is gone is forgotten, and all else
/// is as it was.
const STARTED: [(&str, &str); 7] = [
    ("kept 1.1", "kept 1.1 -> yes"),
    ("kept 1.2", "kept 1.2 -> forgotten"),
    ("kept 1.4001", "kept 1.4001 -> yes"),
    ("kept 1.5000", "kept 1.5000 -> no"),
    ("kept key last", "kept key last -> 1.4001"),
    ("kept key other", "kept key other -> forgotten"),
    ("0 share stock", "0 share stock -> share 19 31"),
];

/// A start over the log that is left.
fn assert_starts(rt: &impl Abort, alloc: Global, files: &mut TwoFiles) {
    let identity = identity(rt, alloc);
    let mut service = open_either(rt, alloc, &identity, files, &mut NoTrace);
    assert_let_out(rt, alloc, &mut service, Ok(()), RESTARTED);
    assert_answers(rt, alloc, &mut service, &STARTED);
}

#[test]
fn a_log_stays_short_while_it_is_served(rt: HostRuntime) {
    let alloc = rt.alloc();
    let input = long_input(alloc).expect(&rt, "memory");
    let mut all = empty_files(&rt, alloc);
    let plain = plain_run(&rt, alloc, &mut all, input.as_str());
    let mut short = empty_files(&rt, alloc);
    let kept = run(&rt, alloc, &mut short, input.as_str(), Some(0));
    assert_answered(&rt, &kept, plain.told.1.as_slice());
    assert!(&rt; short.file.bytes().len() < 40_000);
    assert_starts(&rt, alloc, &mut short);
}

/// What is served, how many bytes are to stay, and whether the log is shortened, which holds some
/// 56,000 bytes at the start. The first look comes behind a batch, which is what one read brings. It
/// is due at 8 times what is to stay and 16,384 bytes, or, where that is more than is held, never
/// here.
const DUE: [(&str, usize, bool); 6] = [
    ("", 0, false),
    ("0 share stock", 0, true),
    ("0 share stock\n", 0, true),
    ("0 share stock\n", 4_000, true),
    ("0 share stock\n", 6_000, false),
    ("0 share stock\n", 20_000, false),
];

/// Whether a run over a log shortens it.
fn is_shortened(rt: &impl Abort, alloc: Global, log: &[u8], input: &str, keep: usize) -> bool {
    let mut files = TwoFiles::new(alloc, file_of(rt, alloc, log));
    let kept = run(rt, alloc, &mut files, input, Some(keep));
    assert_eq!(rt; kept.told.0, Ok(()));
    files.file.bytes().len() < log.len()
}

#[test]
fn a_log_is_shortened_once_it_is_due(rt: HostRuntime) {
    let alloc = rt.alloc();
    let input = long_input(alloc).expect(&rt, "memory");
    let mut all = empty_files(&rt, alloc);
    let _plain = plain_run(&rt, alloc, &mut all, input.as_str());
    for (line, keep, wanted) in &DUE {
        let found = is_shortened(&rt, alloc, all.file.bytes(), *line, *keep);
        assert_eq!(&rt; found, *wanted, "at {keep}");
    }
}

// The next look finds a log that can be shortened.
#[test]
fn the_serving_goes_on_behind_a_refusal(rt: HostRuntime) {
    let alloc = rt.alloc();
    let input = long_input(alloc).expect(&rt, "memory");
    let mut all = empty_files(&rt, alloc);
    let plain = plain_run(&rt, alloc, &mut all, input.as_str());
    let mut short = empty_files(&rt, alloc);
    short.mishap = Some(PutMishap::Refused);
    let kept = run(&rt, alloc, &mut short, input.as_str(), Some(0));
    assert_answered(&rt, &kept, plain.told.1.as_slice());
    assert!(&rt; short.mishap.is_none());
    assert!(&rt; short.file.bytes().len() < 40_000);
    assert_starts(&rt, alloc, &mut short);
}

/// How many of these bytes end a line.
fn count_lines(bytes: &[u8]) -> usize {
    bytes.iter().filter(|byte| **byte == b'\n').count()
}

/// How many commits are told in these answers.
fn count_commits(rt: &impl Abort, answers: &[u8]) -> usize {
    let text = str::from_utf8(answers).expect(rt, "a text");
    text.lines()
        .filter(|line| line.ends_with(" -> committed"))
        .count()
}

/// A run ended where the file failed behind a batch: its answers were let out, all of them, and
/// nothing was read behind it.
fn assert_stopped(rt: &impl Abort, outcome: &Outcome, input: &[u8], plain: &[u8]) {
    let answers = outcome.told.1.as_slice();
    assert_eq!(rt; outcome.told.0, Err(ServeFault::Device));
    assert!(rt; outcome.left > 0 && outcome.left < input.len());
    let read = input.len() - outcome.left;
    assert_eq!(rt;
        count_lines(answers).checked_sub(1),
        Some(count_lines(&input[..read]))
    );
    assert!(rt; plain.starts_with(answers));
    assert!(rt; outcome.traced.as_slice() == answers);
}

/// A start over the log that is left, in which so many commits were answered: none is told as no,
/// and the last is told as yes.
fn assert_keeps(rt: &impl Abort, alloc: Global, files: &mut TwoFiles, commits: usize) {
    let identity = identity(rt, alloc);
    let mut service = open_either(rt, alloc, &identity, files, &mut NoTrace);
    assert_let_out(rt, alloc, &mut service, Ok(()), RESTARTED);
    let mut last = CommitAnswer::No;
    for number in 2..COMMITS {
        if (number as usize) < commits.saturating_add(2) {
            last = service
                .has_kept(alloc, TxnId { epoch: 1, number })
                .expect(rt, "memory");
            assert!(rt; last != CommitAnswer::No, "at {number}");
        }
    }
    assert_eq!(rt; last, CommitAnswer::Yes);
}

/// Serves the long input over a log whose new file comes to this.
fn assert_stops(
    rt: &impl Abort,
    alloc: Global,
    input: &str,
    plain: &[u8],
    mishap: PutMishap,
) -> usize {
    let mut short = empty_files(rt, alloc);
    short.mishap = Some(mishap);
    let kept = run(rt, alloc, &mut short, input, Some(0));
    assert_stopped(rt, &kept, input.as_bytes(), plain);
    let commits = count_commits(rt, kept.told.1.as_slice());
    assert_keeps(rt, alloc, &mut short, commits);
    short.file.bytes().len()
}

// It isn't known which log is there: each is whole, and knows all that was answered.
#[test]
fn a_put_that_fails_ends_the_serving(rt: HostRuntime) {
    let alloc = rt.alloc();
    let input = long_input(alloc).expect(&rt, "memory");
    let mut all = empty_files(&rt, alloc);
    let plain = plain_run(&rt, alloc, &mut all, input.as_str());
    let answers = plain.told.1.as_slice();
    let old = assert_stops(&rt, alloc, input.as_str(), answers, PutMishap::FailedOld);
    let new = assert_stops(&rt, alloc, input.as_str(), answers, PutMishap::FailedNew);
    assert!(&rt; new < old);
}
