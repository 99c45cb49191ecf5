//! A log of closed batches behind a head, `log of 0`, of which another file takes the place: behind the
//! head `log of 0, later` it has the one batch `S 1` and `R 9`. What each fault leaves.

use super::*;
use file_swap::{PutFault, PutMishap, TwoFiles};
use named_log::NamedLog;

const HEAD: &[u8] = b"log of 0\n";

const NEW_HEAD: &[u8] = b"log of 0, later\n";

const HELD: &[u8] = b"S 1\nR 9\n";

const OLD: &str = "log of 0\nR 1\nsum 000000ad00000214\n";

const NEW: &str = "log of 0, later\nS 1\nR 9\nsum 00000163000006f4\n";

const NEW_AND_ONE: &str =
    "log of 0, later\nS 1\nR 9\nsum 00000163000006f4\nR 2\nsum 000000ae00000216\n";

type Log<'a> = SealedLog<NamedLog<&'a mut TwoFiles>>;

/// The old file, and an empty one beside it.
fn files(rt: &impl Abort, alloc: Global) -> TwoFiles {
    TwoFiles::new(alloc, file_of(rt, alloc, OLD.as_bytes()))
}

fn log_of<'a>(rt: &impl Abort, alloc: Global, files: &'a mut TwoFiles, head: &[u8]) -> Log<'a> {
    let named = NamedLog::open(files, head).ok().expect(rt, "opened");
    SealedLog::open(alloc, named).ok().expect(rt, "opened")
}

/// The file holds these bytes, and all of them are safe.
fn assert_holds(rt: &impl Abort, files: &TwoFiles, bytes: &str) {
    assert_eq!(rt; files.file.bytes(), bytes.as_bytes());
    assert_eq!(rt; files.file.safe(), bytes.as_bytes());
}

/// Whether a read from a place on fails.
fn is_gone(log: &mut Log<'_>, at: u64) -> bool {
    let mut buffer = [0u8; 64];
    log.read_at(at, buffer.as_mut_slice()) == Err(FileFailed)
}

/// The log was replaced, none of its closed records is read, and it goes on.
#[test]
fn another_file_takes_the_place(rt: HostRuntime) {
    let alloc = rt.alloc();
    let mut files = files(&rt, alloc);
    let mut log = log_of(&rt, alloc, &mut files, HEAD);
    assert_eq!(rt; log.replace(NEW_HEAD, HELD), Ok(()));
    assert!(rt; is_gone(&mut log, 0));
    assert!(rt; is_gone(&mut log, 7));
    assert_eq!(rt; log.write(b"R 2\n"), Ok(4));
    assert_eq!(rt; log.cut(7), Err(FileFailed));
    assert_eq!(rt; log.replace(NEW_HEAD, HELD), Err(PutFault::Refused));
    assert_eq!(rt; log.sync(), Ok(()));
    drop(log);
    assert_holds(&rt, &files, NEW_AND_ONE);
}

#[test]
fn what_was_put_there_is_opened(rt: HostRuntime) {
    let alloc = rt.alloc();
    let mut files = files(&rt, alloc);
    let mut log = log_of(&rt, alloc, &mut files, HEAD);
    assert_eq!(rt; log.replace(NEW_HEAD, HELD), Ok(()));
    drop(log);
    assert_holds(&rt, &files, NEW);
    let mut log = log_of(&rt, alloc, &mut files, NEW_HEAD);
    let held = read_whole(alloc, &mut log).ok().expect(&rt, "read");
    assert_eq!(rt; held.as_slice(), HELD);
}

/// That a replacing by these records is refused, and the log goes on as it was.
fn assert_refused(rt: &impl Abort, alloc: Global, files: TwoFiles, held: &[u8]) {
    let mut files = files;
    let mut log = log_of(rt, alloc, &mut files, HEAD);
    assert_eq!(rt; log.replace(NEW_HEAD, held), Err(PutFault::Refused));
    assert!(rt; !log.is_lost());
    let kept = read_whole(alloc, &mut log).ok().expect(rt, "read");
    assert_eq!(rt; kept.as_slice(), b"R 1\n".as_slice());
    drop(log);
    assert_holds(rt, &files, OLD);
}

#[test]
fn what_is_no_batch_of_records_is_refused(rt: HostRuntime) {
    let alloc = rt.alloc();
    for held in [b"".as_slice(), b"X\n", b"S 1", b"s 1\n", b"S 1\nR"] {
        assert_refused(&rt, alloc, files(&rt, alloc), held);
    }
}

#[test]
fn each_call_that_fails_leaves_the_log_as_it_was(rt: HostRuntime) {
    let alloc = rt.alloc();
    for (call, good) in [
        (FileCall::Cut, 0),
        (FileCall::Write, 0),
        (FileCall::Write, 1),
        (FileCall::Sync, 0),
    ] {
        let mut files = files(&rt, alloc);
        files.beside.arm(FileMishap { call, good });
        assert_refused(&rt, alloc, files, HELD);
    }
    let mut files = files(&rt, alloc);
    files.mishap = Some(PutMishap::Refused);
    assert_refused(&rt, alloc, files, HELD);
}

/// It isn't known which file is there: the log is lost, and a start finds the one or the other.
fn assert_lost(rt: &impl Abort, alloc: Global, mishap: PutMishap, left: &str) {
    let mut files = files(rt, alloc);
    files.mishap = Some(mishap);
    let mut log = log_of(rt, alloc, &mut files, HEAD);
    assert_eq!(rt; log.replace(NEW_HEAD, HELD), Err(PutFault::Failed));
    assert!(rt; log.is_lost());
    assert!(rt; is_gone(&mut log, 0));
    assert_eq!(rt; log.write(b"R 2\n"), Err(FileFailed));
    assert_eq!(rt; log.sync(), Err(FileFailed));
    assert_eq!(rt; log.end(), Err(FileFailed));
    assert_eq!(rt; log.replace(NEW_HEAD, HELD), Err(PutFault::Refused));
    drop(log);
    assert_holds(rt, &files, left);
}

#[test]
fn where_it_isnt_known_which_is_there_the_log_is_lost(rt: HostRuntime) {
    assert_lost(&rt, rt.alloc(), PutMishap::FailedOld, OLD);
    assert_lost(&rt, rt.alloc(), PutMishap::FailedNew, NEW);
}

/// A world that was ended stays so.
#[test]
fn an_ended_log_isnt_replaced(rt: HostRuntime) {
    let alloc = rt.alloc();
    let mut files = files(&rt, alloc);
    let mut log = log_of(&rt, alloc, &mut files, HEAD);
    assert_eq!(rt; log.end(), Ok(()));
    assert_eq!(rt; log.replace(NEW_HEAD, HELD), Err(PutFault::Refused));
}
