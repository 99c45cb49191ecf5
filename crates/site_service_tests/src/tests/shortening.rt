//! A log that lets go of its front: what its file holds then, and what is told of the commits and keys
//! that it held. Texts and places are worked out by hand. The sums were computed by another program,
//! from what docs/FORMATS.md says of them.

use super::*;
use file_swap::{PutMishap, TwoFiles};
use log_head::{Gone, Horizon};
use short_files::ShortFile;
use site_folder::Identity;

mod behind;
mod listed;
mod serving;
mod since;

const HEADER: &str =
    r#"{"sites":2,"fields":[{"name":"stock","floor":0,"ceiling":100,"value":40}]}"#;

/// The log of site 0 before. The site has 20 rights to lower and 30 to raise, and the summaries tell
/// what its commits have left. The keys are `k` and `kk`.
const OLD: &str = "escrow log 2
number 0
world 145aa8408cfe4e170aa9ab522fe2e8b9b4c23917b59218cbdada91cf44b1183a
head 0 0
sum 00001dc100065641
R 1
K 1 1 6B
C 1 1 0 -1
C 1 2 0 -2
S 1 1 17 33
K 1 3 6B6B
C 1 3 0 -1
S 1 1 16 34
C 1 4 0 -1
sum 00000f5a0002d200
";

/// The same once the site was opened over it.
const OPENED: &str = "escrow log 2
number 0
world 145aa8408cfe4e170aa9ab522fe2e8b9b4c23917b59218cbdada91cf44b1183a
head 0 0
sum 00001dc100065641
R 1
K 1 1 6B
C 1 1 0 -1
C 1 2 0 -2
S 1 1 17 33
K 1 3 6B6B
C 1 3 0 -1
S 1 1 16 34
C 1 4 0 -1
sum 00000f5a0002d200
R 2
sum 000000ae00000216
";

/// The same shortened: `R 1` and two commits are gone, lines of 4, 11 and 11 bytes, and with them the
/// note of the key `k`.
const SHORTER: &str = "escrow log 3
number 0
world 145aa8408cfe4e170aa9ab522fe2e8b9b4c23917b59218cbdada91cf44b1183a
head 26 3
horizon 1 2
sum 000021b30007fa31
K 1 3 6B6B
S 1 1 17 33
C 1 3 0 -1
S 1 1 16 34
C 1 4 0 -1
R 2
sum 00000a5000014b03
";

/// What the log gets behind that where a commit with the key `n` is carried out.
const NEXT: &str = "K 2 1 6E
C 2 1 0 -1
sum 000003510000251a
";

/// A log with one summary, which can't be shortened.
const SHORT: &str = "escrow log 2
number 0
world 145aa8408cfe4e170aa9ab522fe2e8b9b4c23917b59218cbdada91cf44b1183a
head 0 0
sum 00001dc100065641
R 1
C 1 1 0 -1
S 1 1 19 31
C 1 2 0 -2
sum 0000063600007cc7
";

/// What behind a line is told of it, line by line, before the log was shortened.
const BEFORE: [(&str, &str); 7] = [
    ("kept 1.1", "kept 1.1 -> yes"),
    ("kept 1.2", "kept 1.2 -> yes"),
    ("kept 1.4", "kept 1.4 -> yes"),
    ("kept 1.5", "kept 1.5 -> no"),
    ("kept key k", "kept key k -> 1.1"),
    ("kept key kk", "kept key kk -> 1.3"),
    ("kept key other", "kept key other -> no"),
];

/// And then. A key that isn't noted may have been that of a commit that is gone.
const BEHIND: [(&str, &str); 10] = [
    ("kept 1.1", "kept 1.1 -> forgotten"),
    ("kept 1.2", "kept 1.2 -> forgotten"),
    ("kept 1.3", "kept 1.3 -> yes"),
    ("kept 1.4", "kept 1.4 -> yes"),
    ("kept 1.5", "kept 1.5 -> no"),
    ("kept 2.1", "kept 2.1 -> no"),
    ("kept key k", "kept key k -> forgotten"),
    ("kept key kk", "kept key kk -> 1.3"),
    ("kept key other", "kept key other -> forgotten"),
    ("0 share stock", "0 share stock -> share 15 35"),
];

/// No key that is kept or forgotten is that of another commit. The transaction stays open, and a key
/// that is new behind what was let go is that of its commit.
const GOES_ON: [(&str, &str); 12] = [
    ("0 begin", "0 begin -> begun 2.1"),
    ("0 escrow 2.1 stock -1", "0 escrow 2.1 stock -1 -> granted"),
    ("0 commit 2.1 key kk", "kept key kk -> 1.3"),
    ("0 commit 2.1 key k", "kept key k -> forgotten"),
    ("0 commit 2.1 key n", "kept key n -> forgotten"),
    ("kept 2.1", "kept 2.1 -> no"),
    ("kept key n", "kept key n -> forgotten"),
    ("0 commit 2.1 key n since 1.2", "0 commit 2.1 -> committed"),
    ("kept key n", "kept key n -> 2.1"),
    ("kept key k", "kept key k -> forgotten"),
    ("kept 2.1", "kept 2.1 -> yes"),
    ("0 share stock", "0 share stock -> share 14 36"),
];

/// The answer of the opening.
const RESTARTED: &str = "0 restart -> restarted 2 nothing\n";

fn identity(rt: &impl Abort, alloc: Global) -> Identity {
    Identity::new(alloc, 0, HEADER.as_bytes()).expect(rt, "an identity")
}

/// A file that holds this log, and an empty one beside it.
fn files(rt: &impl Abort, alloc: Global, log: &str) -> TwoFiles {
    TwoFiles::new(alloc, file_of(rt, alloc, log.as_bytes()))
}

/// Site 0, served over the log in these files.
fn serve_over<'a, 'b>(
    rt: &impl Abort,
    alloc: Global,
    identity: &'a Identity,
    files: &'b mut TwoFiles,
) -> Service<ShortFile<'a, &'b mut TwoFiles>> {
    let log = ShortFile::open(alloc, identity, files)
        .ok()
        .expect(rt, "a log");
    open_over(rt, alloc, log).expect(rt, "opened")
}

/// Lets out what waits, which is this, and then shortens the log as far as it can be.
fn shorten<F: ShortLog>(
    rt: &impl Abort,
    alloc: Global,
    service: &mut Service<F>,
    waits: &str,
) -> Result<(), Device> {
    assert_let_out(rt, alloc, service, Ok(()), waits);
    service.settle().ok().expect(rt, "settled");
    service.shorten(alloc, 0)
}

/// Answers each line of a table, and lets the answer out.
fn assert_answers<F: LogFile>(
    rt: &impl Abort,
    alloc: Global,
    service: &mut Service<F>,
    rows: &[(&str, &str)],
) {
    for (line, answer) in rows {
        let wanted = joined(alloc, &[*answer, "\n"]).expect(rt, "memory");
        assert_answer(rt, alloc, service, *line, wanted.as_str());
    }
}

/// The file holds this log, and all of it is safe.
fn assert_holds(rt: &impl Abort, alloc: Global, files: &TwoFiles, parts: &[&str]) {
    let wanted = joined(alloc, parts).expect(rt, "memory");
    assert_eq!(rt; str::from_utf8(files.file.bytes()), Ok(wanted.as_str()));
    assert_eq!(rt; str::from_utf8(files.file.safe()), Ok(wanted.as_str()));
}

/// Shortens a log once its site was opened, and tells what is behind it then.
fn assert_shortens<F: LogFile + ShortLog>(
    rt: &impl Abort,
    alloc: Global,
    service: &mut Service<F>,
) {
    assert_eq!(rt; shorten(rt, alloc, service, ""), Ok(()));
    assert_answers(rt, alloc, service, &BEHIND);
}

#[test]
fn what_is_gone_is_forgotten(rt: HostRuntime) {
    let alloc = rt.alloc();
    let identity = identity(&rt, alloc);
    let mut files = files(&rt, alloc, OLD);
    let mut service = serve_over(&rt, alloc, &identity, &mut files);
    assert_let_out(&rt, alloc, &mut service, Ok(()), RESTARTED);
    assert_answers(&rt, alloc, &mut service, &BEFORE);
    assert_shortens(&rt, alloc, &mut service);
    assert_answers(&rt, alloc, &mut service, &GOES_ON);
    drop(service);
    assert_holds(&rt, alloc, &files, &[SHORTER, NEXT]);
}

/// Each commit of the log, one that there never was, and what is told of them.
const ANSWERS_BEHIND: [(u32, CommitAnswer); 5] = [
    (1, CommitAnswer::Forgotten),
    (2, CommitAnswer::Forgotten),
    (3, CommitAnswer::Yes),
    (4, CommitAnswer::Yes),
    (5, CommitAnswer::No),
];

// The calls tell the same as the lines.
#[test]
fn the_calls_tell_what_is_forgotten(rt: HostRuntime) {
    let alloc = rt.alloc();
    let identity = identity(&rt, alloc);
    let mut files = files(&rt, alloc, OLD);
    let mut service = serve_over(&rt, alloc, &identity, &mut files);
    assert_eq!(&rt; shorten(&rt, alloc, &mut service, RESTARTED), Ok(()));
    for (number, wanted) in &ANSWERS_BEHIND {
        let txn = TxnId {
            epoch: 1,
            number: *number,
        };
        assert_eq!(&rt; service.has_kept(alloc, txn), Ok(*wanted), "at {number}");
    }
    let gone = read_key(b"k").expect(&rt, "a key");
    let held = read_key(b"kk").expect(&rt, "a key");
    assert_eq!(&rt;
        service.kept_key(alloc, gone, None),
        Ok(KeyAnswer::Forgotten)
    );
    let third = TxnId {
        epoch: 1,
        number: 3,
    };
    assert_eq!(&rt;
        service.kept_key(alloc, held, None),
        Ok(KeyAnswer::Kept(third))
    );
}

// Behind the one summary stands no other.
#[test]
fn a_log_that_is_short_stays(rt: HostRuntime) {
    let alloc = rt.alloc();
    let identity = identity(&rt, alloc);
    let mut files = files(&rt, alloc, SHORT);
    let mut service = serve_over(&rt, alloc, &identity, &mut files);
    assert_eq!(&rt; shorten(&rt, alloc, &mut service, RESTARTED), Ok(()));
    assert_answer(&rt, alloc, &mut service, "kept 1.1", "kept 1.1 -> yes\n");
    drop(service);
    assert_holds(&rt, alloc, &files, &[SHORT, "R 2\nsum 000000ae00000216\n"]);
}

/// Shortens a log whose new file can't be made, and then once more.
fn assert_refused(rt: &impl Abort, alloc: Global, files: TwoFiles) {
    let identity = identity(rt, alloc);
    let mut files = files;
    let mut service = serve_over(rt, alloc, &identity, &mut files);
    assert_eq!(rt; shorten(rt, alloc, &mut service, RESTARTED), Ok(()));
    assert!(rt; !service.is_lost());
    assert_answers(rt, alloc, &mut service, &BEFORE);
    drop(service);
    assert_holds(rt, alloc, &files, &[OPENED]);
}

#[test]
fn a_put_that_is_refused_leaves_all(rt: HostRuntime) {
    let alloc = rt.alloc();
    for call in [FileCall::Cut, FileCall::Write, FileCall::Sync] {
        let mut files = files(&rt, alloc, OLD);
        files.beside.arm(FileMishap { call, good: 0 });
        assert_refused(&rt, alloc, files);
    }
    let mut files = files(&rt, alloc, OLD);
    files.beside.limit_length(200);
    assert_refused(&rt, alloc, files);
}

// The mishap is used up by the first.
#[test]
fn a_log_is_shortened_behind_a_refusal(rt: HostRuntime) {
    let alloc = rt.alloc();
    let identity = identity(&rt, alloc);
    let mut files = files(&rt, alloc, OLD);
    files.mishap = Some(PutMishap::Refused);
    let mut service = serve_over(&rt, alloc, &identity, &mut files);
    assert_eq!(&rt; shorten(&rt, alloc, &mut service, RESTARTED), Ok(()));
    assert_answers(&rt, alloc, &mut service, &BEFORE);
    assert_shortens(&rt, alloc, &mut service);
    drop(service);
    assert_holds(&rt, alloc, &files, &[SHORTER]);
}

/// Nothing is let out any more where it isn't known which log is there, which is this one.
fn assert_failed(rt: &impl Abort, alloc: Global, mishap: PutMishap, left: &str) {
    let identity = identity(rt, alloc);
    let mut files = files(rt, alloc, OLD);
    files.mishap = Some(mishap);
    let mut service = serve_over(rt, alloc, &identity, &mut files);
    assert_eq!(rt; shorten(rt, alloc, &mut service, RESTARTED), Err(Device));
    assert!(rt; service.is_lost());
    service.answer(alloc, b"0 share stock").expect(rt, "memory");
    assert_let_out(rt, alloc, &mut service, Err(ServeFault::Device), "");
    drop(service);
    assert_holds(rt, alloc, &files, &[left]);
}

#[test]
fn a_put_that_fails_lets_nothing_out(rt: HostRuntime) {
    assert_failed(&rt, rt.alloc(), PutMishap::FailedOld, OPENED);
    assert_failed(&rt, rt.alloc(), PutMishap::FailedNew, SHORTER);
}
