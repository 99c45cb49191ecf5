//! Commits with keys of callers: what each line is answered, what the log holds then, and what a
//! retry finds, wherever a stop fell.

use super::*;

/// Lines with keys, and their answers: the site has 20 rights to lower and 30 to raise. The second
/// commit with the first key isn't carried out, so that its transaction can be committed with
/// another key; a transaction that isn't open, and one without escrows, keep no key.
const ANSWERED: [(&str, &str); 19] = [
    ("kept key order-1", "kept key order-1 -> no"),
    ("0 begin", "0 begin -> begun 1.1"),
    ("0 escrow 1.1 stock -5", "0 escrow 1.1 stock -5 -> granted"),
    ("0 commit 1.1 key order-1", "0 commit 1.1 -> committed"),
    ("kept key order-1", "kept key order-1 -> 1.1"),
    ("kept 1.1", "kept 1.1 -> yes"),
    ("0 begin", "0 begin -> begun 1.2"),
    ("0 escrow 1.2 stock -3", "0 escrow 1.2 stock -3 -> granted"),
    ("0 commit 1.2 key order-1", "kept key order-1 -> 1.1"),
    ("kept 1.2", "kept 1.2 -> no"),
    ("0 commit 1.2 key Order_1.", "0 commit 1.2 -> committed"),
    ("kept key Order_1.", "kept key Order_1. -> 1.2"),
    (
        "0 commit 1.2 key order-3",
        "0 commit 1.2 -> refused 4 no transaction",
    ),
    ("kept key order-3", "kept key order-3 -> no"),
    ("0 begin", "0 begin -> begun 1.3"),
    ("0 commit 1.3 key order-4", "0 commit 1.3 -> committed"),
    ("kept key order-4", "kept key order-4 -> no"),
    ("0 share stock", "0 share stock -> share 12 38"),
    ("kept 1.3", "kept 1.3 -> no"),
];

/// The log of a site that answered these lines in one batch: the notes stand in front of its records.
const LOGGED: &str = "R 1
K 1 1 6F726465722D31
K 1 2 4F726465725F312E
K 1 3 6F726465722D34
C 1 1 0 -5
C 1 2 0 -3
";

/// The lines of one side of a table of lines and answers, each with its line feed.
fn sides(alloc: Global, rows: &[(&str, &str)], answers: bool) -> Result<String, AllocError> {
    let mut text = String::new(alloc);
    for (line, answer) in rows {
        text.push_str(if answers { *answer } else { *line })?;
        text.push_str("\n")?;
    }
    Ok(text)
}

/// Serves the lines of a table whole, in one batch, and tests their answers behind this text.
fn assert_rows<F: LogFile>(
    rt: &impl Abort,
    alloc: Global,
    service: &mut Service<F>,
    first: &str,
    rows: &[(&str, &str)],
) {
    let lines = sides(alloc, rows, false).expect(rt, "memory");
    let answers = sides(alloc, rows, true).expect(rt, "memory");
    let wanted = joined(alloc, &[first, answers.as_str()]).expect(rt, "memory");
    assert_serves(rt, alloc, service, lines.as_bytes(), wanted.as_str());
}

/// The same over a file.
fn assert_rows_over(
    rt: &impl Abort,
    alloc: Global,
    file: &mut MemoryFile,
    first: &str,
    rows: &[(&str, &str)],
) {
    let mut service = open_over(rt, alloc, file).expect(rt, "opened");
    assert_rows(rt, alloc, &mut service, first, rows);
}

// What is safe is all of it.
#[test]
fn answers_lines_with_keys(rt: HostRuntime) {
    let mut file = empty_file(rt.alloc());
    assert_rows_over(&rt, rt.alloc(), &mut file, FRESH, &ANSWERED);
    assert_eq!(rt; str::from_utf8(file.bytes()), Ok(LOGGED));
    assert_eq!(rt; str::from_utf8(file.safe()), Ok(LOGGED));
}

/// The answer of a start behind one, and behind two.
const SECOND: &str = "0 restart -> restarted 2 nothing\n";

/// A retry behind a restart: of what is kept nothing is done, and of what isn't it is.
const RETRIED: [(&str, &str); 9] = [
    ("kept key order-1", "kept key order-1 -> 1.1"),
    ("kept key Order_1.", "kept key Order_1. -> 1.2"),
    ("kept key order-4", "kept key order-4 -> no"),
    ("0 begin", "0 begin -> begun 2.1"),
    ("0 escrow 2.1 stock -5", "0 escrow 2.1 stock -5 -> granted"),
    ("0 commit 2.1 key order-1", "kept key order-1 -> 1.1"),
    ("0 commit 2.1 key order-4", "0 commit 2.1 -> committed"),
    ("kept key order-4", "kept key order-4 -> 2.1"),
    ("0 share stock", "0 share stock -> share 7 43"),
];

#[test]
fn a_retry_finds_its_key_behind_a_restart(rt: HostRuntime) {
    let mut file = file_of(&rt, rt.alloc(), LOGGED.as_bytes());
    assert_rows_over(&rt, rt.alloc(), &mut file, SECOND, &RETRIED);
    let wanted = joined(
        rt.alloc(),
        &[LOGGED, "R 2\nK 2 1 6F726465722D34\nC 2 1 0 -5\n"],
    )
    .expect(&rt, "memory");
    assert_eq!(rt; str::from_utf8(file.bytes()), Ok(wanted.as_str()));
}

/// A log, and what a key `k` is told over it: a note without its commit; one with it; and one with a
/// later note without one.
const NOTED: [(&str, &str); 4] = [
    ("R 1\nK 1 1 6B\n", "kept key k -> no"),
    ("R 1\nK 1 1 6B\nC 1 1 0 -5\n", "kept key k -> 1.1"),
    ("R 1\nK 1 1 6B\nC 1 1 0 -5\nK 1 2 6B\n", "kept key k -> no"),
    (
        "R 1\nK 1 1 6B\nK 1 2 6B\nC 1 1 0 -5\nC 1 2 0 -1\n",
        "kept key k -> 1.2",
    ),
];

// A note counts only with its commit, and the last one of a key counts.
#[test]
fn a_note_counts_with_its_commit(rt: HostRuntime) {
    for (log, answer) in &NOTED {
        let mut file = file_of(&rt, rt.alloc(), (*log).as_bytes());
        assert_rows_over(
            &rt,
            rt.alloc(),
            &mut file,
            SECOND,
            &[("kept key k", *answer)],
        );
    }
}

/// Lines in which the key is none, and those of other sites and commands.
const BAD_KEYS: [(&str, &str); 14] = [
    ("0 commit 1.1 key", "no command"),
    ("0 commit 1.1 key ", "no command"),
    ("0 commit 1.1 key a b", "no command"),
    ("0 commit 1.1 key a/b", "no command"),
    ("0 commit 1.1 keys a", "no command"),
    ("0 commit 1.01 key a", "no command"),
    ("0 begin key a", "no command"),
    ("0 read stock key a", "no command"),
    ("1 commit 1.1 key a", "other site"),
    ("2 commit 1.1 key a", "no command"),
    ("kept key", "no command"),
    ("kept key ", "no command"),
    ("kept key a b", "no command"),
    ("kept key a/b", "no command"),
];

#[test]
fn tells_why_a_line_with_a_key_is_bad(rt: HostRuntime) {
    for (line, why) in &BAD_KEYS {
        assert_bad(&rt, rt.alloc(), *line, *why);
    }
}

/// A question for a key of so many bytes.
fn question_of(alloc: Global, count: usize) -> Result<String, AllocError> {
    let mut line = joined(alloc, &["kept key "])?;
    for _ in 0..count {
        line.push_str("k")?;
    }
    Ok(line)
}

// A key has at most 64 bytes.
#[test]
fn a_long_key_is_none(rt: HostRuntime) {
    let line = question_of(rt.alloc(), 64).expect(&rt, "memory");
    let wanted = joined(rt.alloc(), &[FRESH, line.as_str(), " -> no\n"]).expect(&rt, "memory");
    assert_first_answer(&rt, rt.alloc(), line.as_str(), wanted.as_str());
    let long = question_of(rt.alloc(), 65).expect(&rt, "memory");
    assert_bad(&rt, rt.alloc(), long.as_str(), "no command");
}

/// Logs whose record of this number is bad: lines of notes aren't counted.
const BAD_LOGS: [(&str, u64); 3] = [
    ("R 1\nK 1 1 6B\nhello\n", 2),
    ("R 1\nK 1 1 6B\nC 1 1 0 -5\nK 1 2 6B\nR 1\n", 3),
    ("R 1\nK 1 1 6b\n", 2),
];

#[test]
fn a_bad_line_is_told_among_the_records(rt: HostRuntime) {
    for (log, line) in &BAD_LOGS {
        let fault = fault_of(&rt, rt.alloc(), *log, None);
        assert_eq!(rt; fault, Some(OpenFault::Line(*line)));
    }
}

/// A log with a torn end behind a note, and the log of a start over it.
const TORN: (&str, &str) = (
    "R 1\nK 1 1 6B\nC 1 1 0 -5\nK 1 2",
    "R 1\nK 1 1 6B\nC 1 1 0 -5\nR 2\n",
);

#[test]
fn a_torn_note_is_cut_off(rt: HostRuntime) {
    let mut file = file_of(&rt, rt.alloc(), TORN.0.as_bytes());
    assert_rows_over(&rt, rt.alloc(), &mut file, SECOND, &[]);
    assert_eq!(rt; str::from_utf8(file.bytes()), Ok(TORN.1));
}

/// What a caller sends first, and the log that it leaves.
const SALE: &str = "0 begin\n0 escrow 1.1 stock -5\n0 commit 1.1 key order-1\n";

const SOLD: &str = "R 1\nK 1 1 6F726465722D31\nC 1 1 0 -5\n";

/// What the caller sends again over the log of a first, and of a second start. Whether the commit is
/// carried out or refused for its key, and its transaction aborted, the stock was sold once.
const AGAIN: [&str; 2] = [
    "0 begin\n0 escrow 1.1 stock -5\n0 commit 1.1 key order-1\n0 abort 1.1\n0 share stock\n",
    "0 begin\n0 escrow 2.1 stock -5\n0 commit 2.1 key order-1\n0 abort 2.1\n0 share stock\n",
];

/// The share once the stock was sold once.
const SOLD_ONCE: &str = "0 share stock -> share 15 35\n";

/// Sends the sale again to a service over these bytes, and tests that it was sold once.
fn assert_sold_once(rt: &impl Abort, alloc: Global, bytes: &[u8]) {
    let again = if bytes.len() < 4 { AGAIN[0] } else { AGAIN[1] };
    let mut service = open_over(rt, alloc, file_of(rt, alloc, bytes)).expect(rt, "opened");
    let told = serve_traced(alloc, &mut service, &mut NoTrace, again.as_bytes());
    assert_eq!(rt; told.0, Ok(()));
    assert!(rt; told.1.as_slice().ends_with(SOLD_ONCE.as_bytes()));
}

// A stop may leave any front of what was written.
#[test]
fn a_stop_behind_any_byte_sells_once(rt: HostRuntime) {
    let bytes = SOLD.as_bytes();
    for count in 0..=bytes.len() {
        assert_sold_once(&rt, rt.alloc(), &bytes[..count]);
    }
}

/// Serves the sale over a file, whatever comes of it.
fn try_sale(rt: &impl Abort, alloc: Global, file: &mut MemoryFile) {
    if let Ok(mut service) = open_over(rt, alloc, file) {
        let _told = serve_traced(alloc, &mut service, &mut NoTrace, SALE.as_bytes());
    }
}

/// Serves the sale where this call of the file fails, and then again over what the process leaves,
/// and over what the machine does.
fn assert_stopped(rt: &impl Abort, alloc: Global, call: FileCall, good: u64) {
    let mut file = empty_file(alloc);
    file.limit_writes(7);
    file.arm(FileMishap { call, good });
    try_sale(rt, alloc, &mut file);
    assert_sold_once(rt, alloc, file.bytes());
    assert_sold_once(rt, alloc, file.safe());
}

// A write takes at most seven bytes: the record of the restart takes one, the note four, and the
// commit two. The syncs are those of the opening, the restart and the batch.
#[test]
fn a_failure_of_any_call_sells_once(rt: HostRuntime) {
    for good in 0..8u64 {
        assert_stopped(&rt, rt.alloc(), FileCall::Write, good);
    }
    for good in 0..4u64 {
        assert_stopped(&rt, rt.alloc(), FileCall::Sync, good);
    }
}

/// Which commits are kept with a key and without it, by the calls.
fn keys_of<F: LogFile>(
    rt: &impl Abort,
    alloc: Global,
    service: &mut Service<F>,
) -> [Result<KeyAnswer, AllocError>; 2] {
    let known = read_key(b"order-1").expect(rt, "a key");
    let other = read_key(b"order-2").expect(rt, "a key");
    [
        service.kept_key(alloc, known, None),
        service.kept_key(alloc, other, None),
    ]
}

#[test]
fn the_call_tells_the_same(rt: HostRuntime) {
    let file = file_of(&rt, rt.alloc(), SOLD.as_bytes());
    let mut service = open_over(&rt, rt.alloc(), file).expect(&rt, "opened");
    assert_eq!(rt;
        keys_of(&rt, rt.alloc(), &mut service),
        [Ok(KeyAnswer::Kept(FIRST)), Ok(KeyAnswer::No)]
    );
}
