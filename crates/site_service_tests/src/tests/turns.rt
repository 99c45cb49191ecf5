//! Each write and each sync of a worked run fails in turn, and what a stop leaves is opened again.

use super::*;

/// What one read brings, and the text of its answers.
type Batch = (&'static str, &'static str);

/// A commit; a look; a gift and a commit.
const BATCHES: [Batch; 3] = [
    (
        "0 begin\n0 escrow 1.1 stock -5\n0 commit 1.1\n",
        "0 begin -> begun 1.1\n0 escrow 1.1 stock -5 -> granted\n0 commit 1.1 -> committed\n",
    ),
    ("0 share stock\n", "0 share stock -> share 15 35\n"),
    (
        "0 give 1 stock lower 4\n0 begin\n0 escrow 1.2 stock -3\n0 commit 1.2\n",
        "0 give 1 stock lower 4 -> given 4\n0 begin -> begun 1.2\n0 escrow 1.2 stock -3 -> granted\n0 commit 1.2 -> committed\n",
    ),
];

/// How many records stand behind the opening and each batch.
const RECORDS_BEHIND: [usize; 4] = [1, 2, 2, 4];

/// The model. A site begins with 20 rights to lower and 30 to raise; a commit turns the rights of
/// its change into the other kind, and a gift takes away what it gives. So over the first records of
/// the run, none to all four, this is what a site that is opened anew answers.
const FOUND: [(&str, &str); 5] = [
    (
        "",
        "0 restart -> restarted 1 nothing\n0 share stock -> share 20 30\nkept 1.1 -> no\nkept 1.2 -> no\n",
    ),
    (
        "R 1\n",
        "0 restart -> restarted 2 nothing\n0 share stock -> share 20 30\nkept 1.1 -> no\nkept 1.2 -> no\n",
    ),
    (
        "C 1 1 0 -5\n",
        "0 restart -> restarted 2 nothing\n0 share stock -> share 15 35\nkept 1.1 -> yes\nkept 1.2 -> no\n",
    ),
    (
        "G 1 0 l 4\n",
        "0 restart -> restarted 2 nothing\n0 share stock -> share 11 35\nkept 1.1 -> yes\nkept 1.2 -> no\n",
    ),
    (
        "C 1 2 0 -3\n",
        "0 restart -> restarted 2 nothing\n0 share stock -> share 8 38\nkept 1.1 -> yes\nkept 1.2 -> yes\n",
    ),
];

/// The call that fails; the batches that are let out, or None where the service isn't opened; and how
/// many whole records the file has then, and how many are safe.
type Row = (FileCall, u64, Option<usize>, usize, usize);

/// A write takes at most seven bytes. Write 0 is that of the restart's record; 1 and 2 are those of
/// the first batch; 3 to 5 those of the third, of which the second ends behind the gift. Sync 0 is
/// that of the opening, 1 that of the restart, 2 and 3 those of the two batches that write.
const ROWS: [Row; 12] = [
    (FileCall::Write, 0, None, 0, 0),
    (FileCall::Write, 1, Some(0), 1, 1),
    (FileCall::Write, 2, Some(0), 1, 1),
    (FileCall::Write, 3, Some(2), 2, 2),
    (FileCall::Write, 4, Some(2), 2, 2),
    (FileCall::Write, 5, Some(2), 3, 2),
    (FileCall::Write, 6, Some(3), 4, 4),
    (FileCall::Sync, 0, None, 0, 0),
    (FileCall::Sync, 1, None, 1, 0),
    (FileCall::Sync, 2, Some(0), 2, 1),
    (FileCall::Sync, 3, Some(2), 4, 2),
    (FileCall::Sync, 4, Some(3), 4, 4),
];

/// The answer of the opening, and those of the first so many batches.
fn text_behind(alloc: Global, count: usize) -> Result<String, AllocError> {
    let mut text = joined(alloc, &[FRESH])?;
    for (_lines, answers) in BATCHES.iter().take(count) {
        text.push_str(*answers)?;
    }
    Ok(text)
}

/// Tests that these are the answer of the opening and those of the first so many batches.
pub(crate) fn assert_text(rt: &impl Abort, alloc: Global, bytes: &[u8], count: usize) {
    let wanted = text_behind(alloc, count).expect(rt, "memory");
    assert_eq!(rt; str::from_utf8(bytes), Ok(wanted.as_str()));
}

/// The lines of the first so many records.
fn records_behind(alloc: Global, count: usize) -> Result<String, AllocError> {
    let mut log = String::new(alloc);
    for (record, _found) in FOUND.iter().skip(1).take(count) {
        log.push_str(*record)?;
    }
    Ok(log)
}

/// Tests that these are the lines of the first so many records, and that of the restart behind them.
fn assert_log(rt: &impl Abort, alloc: Global, bytes: &[u8], count: usize) {
    let mut wanted = records_behind(alloc, count).expect(rt, "memory");
    let restart = if count == 0 { "R 1\n" } else { "R 2\n" };
    wanted.push_str(restart).expect(rt, "memory");
    assert!(rt; bytes == wanted.as_bytes());
}

/// Serves the three batches, and tells them to a trace.
fn serve_batches<F: LogFile, T: LogFile>(
    alloc: Global,
    service: &mut Service<F>,
    trace: &mut T,
) -> Told {
    let [first, second, third] = &BATCHES;
    let two = first.0.as_bytes().chain(second.0.as_bytes());
    serve_traced(alloc, service, trace, two.chain(third.0.as_bytes()))
}

/// How the serving of the batches ends where the first so many are let out.
fn end_behind(count: usize) -> Result<(), ServeFault> {
    if count < BATCHES.len() {
        Err(ServeFault::Device)
    } else {
        Ok(())
    }
}

/// Serves the three batches, and tests that exactly the first so many are let out.
pub(crate) fn assert_front<F: LogFile, T: LogFile>(
    rt: &impl Abort,
    alloc: Global,
    service: &mut Service<F>,
    trace: &mut T,
    count: usize,
) {
    let told = serve_batches(alloc, service, trace);
    assert_eq!(rt; told.0, end_behind(count));
    assert_text(rt, alloc, told.1.as_slice(), count);
}

/// Tests that nothing is let out any more.
fn assert_lost<F: LogFile>(rt: &impl Abort, alloc: Global, service: &mut Service<F>) {
    assert!(rt; service.is_lost());
    assert_eq!(rt; service.settle(), Err(Device));
    assert_let_out(rt, alloc, service, Err(ServeFault::Device), "");
}

/// Tests that a failed batch isn't let out, now or later, and that all before it is.
fn assert_batches<F: LogFile>(
    rt: &impl Abort,
    alloc: Global,
    service: &mut Service<F>,
    count: usize,
) {
    assert_front(rt, alloc, service, &mut NoTrace, count);
    if count < BATCHES.len() {
        assert_lost(rt, alloc, service);
    }
}

/// The run of a row over a file.
fn assert_row(rt: &impl Abort, alloc: Global, file: &mut MemoryFile, count: usize) {
    let mut service = open_over(rt, alloc, file).expect(rt, "opened");
    assert_batches(rt, alloc, &mut service, count);
}

/// The same of a row whose service may not be opened.
fn assert_opened_or_not(
    rt: &impl Abort,
    alloc: Global,
    file: &mut MemoryFile,
    count: Option<usize>,
) {
    match count {
        Some(count) => assert_row(rt, alloc, file, count),
        None => {
            let fault = open_over(rt, alloc, file).err();
            assert_eq!(rt; fault, Some(OpenFault::Device));
        }
    }
}

/// A look and two questions.
const LOOK: &str = "0 share stock\nkept 1.1\nkept 1.2\n";

/// Tests what they are answered over a file.
fn assert_look(rt: &impl Abort, alloc: Global, file: &mut MemoryFile, text: &str) {
    let mut service = open_over(rt, alloc, file).expect(rt, "opened");
    assert_serves(rt, alloc, &mut service, LOOK.as_bytes(), text);
}

/// What is answered over the first so many records.
fn found_behind(count: usize) -> &'static str {
    if count < FOUND.len() {
        FOUND[count].1
    } else {
        ""
    }
}

/// Tests that a service over these bytes finds so many records, and nothing of a torn one.
fn assert_found(rt: &impl Abort, alloc: Global, bytes: &[u8], count: usize) {
    let mut file = file_of(rt, alloc, bytes);
    assert_look(rt, alloc, &mut file, found_behind(count));
    assert_log(rt, alloc, file.safe(), count);
}

/// Tests that each record of an answer that was let out is among those that are safe.
fn assert_none_lost(rt: &impl Abort, count: Option<usize>, safe: usize) {
    if let Some(count) = count
        && count < RECORDS_BEHIND.len()
    {
        assert!(rt; RECORDS_BEHIND[count] <= safe);
    }
}

/// Tests what the process and the machine leave of a run over this file.
fn assert_left(rt: &impl Abort, alloc: Global, file: &mut MemoryFile, row: &Row) {
    let (_call, _good, count, held, safe) = *row;
    assert_opened_or_not(rt, alloc, &mut *file, count);
    assert_none_lost(rt, count, safe);
    assert_found(rt, alloc, file.bytes(), held);
    assert_found(rt, alloc, file.safe(), safe);
}

// What the process leaves is the file, and what the machine leaves is at least what is safe.
#[test]
fn each_write_and_each_sync_fails_in_turn(rt: HostRuntime) {
    for row in &ROWS {
        let mut file = empty_file(rt.alloc());
        file.limit_writes(7);
        file.arm(FileMishap {
            call: row.0,
            good: row.1,
        });
        assert_left(&rt, rt.alloc(), &mut file, row);
    }
}

// The third batch finds room for a part of its first record alone.
#[test]
fn a_full_device_lets_nothing_out(rt: HostRuntime) {
    let mut file = empty_file(rt.alloc());
    file.limit_length(20);
    assert_row(&rt, rt.alloc(), &mut file, 2);
    assert!(rt; file.bytes() == "R 1\nC 1 1 0 -5\nG 1 0".as_bytes());
    assert_found(&rt, rt.alloc(), file.bytes(), 2);
    assert_found(&rt, rt.alloc(), file.safe(), 2);
}
