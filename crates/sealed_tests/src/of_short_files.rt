//! Site 1 of a world, its log in version 2 and shortened. The sums were computed by another program, from
//! what docs/FORMATS.md says of them; every other expected value is worked out by hand.

use file_medium::{FileCall, FileFailed, FileMishap, LogFile, MemoryFile, read_whole};
use file_swap::{PutFault, PutMishap, TwoFiles};
use log_head::{Gone, Horizon};
use short_files::*;
use short_log::ShortLog;
use site_folder::Identity;
use std::alloc::Global;
use std::process::Abort;

mod opening;

const HEADER: &str =
    r#"{"sites":2,"fields":[{"name":"stock","floor":0,"ceiling":100,"value":40}]}"#;

/// The log before: its head has 123 bytes.
const OLD: &str = "escrow log 2
number 1
world 145aa8408cfe4e170aa9ab522fe2e8b9b4c23917b59218cbdada91cf44b1183a
head 0 0
sum 00001dc200065693
R 1
sum 000000ad00000214
";

/// What stands behind the head of the log before.
const HELD: &[u8] = b"S 1\nR 9\n";

/// The log of which 4 bytes and a record are gone, and which holds `S 1` and `R 9`.
const NEW: &str = "escrow log 3
number 1
world 145aa8408cfe4e170aa9ab522fe2e8b9b4c23917b59218cbdada91cf44b1183a
head 4 1
horizon 7 12 3 5
sum 0000225d0008849e
S 1
R 9
sum 00000163000006f4
";

/// The same with a batch behind it.
const NEW_AND_ONE: &str = "escrow log 3
number 1
world 145aa8408cfe4e170aa9ab522fe2e8b9b4c23917b59218cbdada91cf44b1183a
head 4 1
horizon 7 12 3 5
sum 0000225d0008849e
S 1
R 9
sum 00000163000006f4
R 2
sum 000000ae00000216
";

/// That log, shortened again: it holds `S 2`.
const NEXT: &str = "escrow log 3
number 1
world 145aa8408cfe4e170aa9ab522fe2e8b9b4c23917b59218cbdada91cf44b1183a
head 12 2
horizon 8 0
sum 000021b30007fa49
S 2
sum 000000af0000021a
";

fn identity(rt: &impl Abort, alloc: Global) -> Identity {
    Identity::new(alloc, 1, HEADER.as_bytes()).expect(rt, "an identity")
}

fn file_of(rt: &impl Abort, alloc: Global, bytes: &[u8]) -> MemoryFile {
    MemoryFile::new(alloc, Vec::from_slice(alloc, bytes).expect(rt, "memory"))
}

/// A file that holds these bytes, and an empty one beside it.
fn files(rt: &impl Abort, alloc: Global, text: &str) -> TwoFiles {
    TwoFiles::new(alloc, file_of(rt, alloc, text.as_bytes()))
}

/// What is gone, up to this horizon.
fn gone(
    rt: &impl Abort,
    alloc: Global,
    counts: (u64, u64),
    last: (u32, u32),
    open_then: &[u32],
) -> Gone {
    let open_then = Vec::from_slice(alloc, open_then).expect(rt, "memory");
    Gone {
        bytes: counts.0,
        records: counts.1,
        horizon: Horizon::new(last.0, last.1, open_then).expect(rt, "a horizon"),
    }
}

/// What is gone of the log once it is shortened.
fn first_gone(rt: &impl Abort, alloc: Global) -> Gone {
    gone(rt, alloc, (4, 1), (7, 12), &[3, 5])
}

fn log_of<'a, 'b>(
    rt: &impl Abort,
    alloc: Global,
    identity: &'a Identity,
    files: &'b mut TwoFiles,
) -> ShortFile<'a, &'b mut TwoFiles> {
    ShortFile::open(alloc, identity, files)
        .ok()
        .expect(rt, "opened")
}

/// The file holds these bytes, and all of them are safe.
fn assert_holds(rt: &impl Abort, files: &TwoFiles, text: &str) {
    assert_eq!(rt; str::from_utf8(files.file.bytes()), Ok(text));
    assert_eq!(rt; files.file.safe(), text.as_bytes());
}

/// A log of version 2 is shortened, and goes on; none of what it holds is read before it is opened anew.
#[test]
fn a_log_lets_go_of_its_front(rt: HostRuntime) {
    let alloc = rt.alloc();
    let identity = identity(&rt, alloc);
    let mut files = files(&rt, alloc, OLD);
    let mut log = log_of(&rt, alloc, &identity, &mut files);
    assert!(rt; log.gone().is_none());
    assert_eq!(rt; log.replace(&first_gone(&rt, alloc), HELD), Ok(()));
    let told = log.gone().expect(&rt, "gone");
    assert_eq!(rt; (told.bytes, told.records, told.horizon.epoch()), (4, 1, 7));
    assert_eq!(rt; told.horizon.open_then(), [3, 5].as_slice());
    assert!(rt; read_whole(alloc, &mut log).is_err());
    assert_eq!(rt; log.write(b"R 2\n"), Ok(4));
    assert_eq!(rt; log.sync(), Ok(()));
    drop(log);
    assert_holds(&rt, &files, NEW_AND_ONE);
}

/// What was shortened is opened as that, and is shortened again.
#[test]
fn a_shortened_log_lets_go_of_its_front(rt: HostRuntime) {
    let alloc = rt.alloc();
    let identity = identity(&rt, alloc);
    let mut files = files(&rt, alloc, NEW_AND_ONE);
    let mut log = log_of(&rt, alloc, &identity, &mut files);
    let told = log.gone().expect(&rt, "gone");
    assert_eq!(rt;
        (told.bytes, told.records, told.horizon.number()),
        (4, 1, 12)
    );
    let held = read_whole(alloc, &mut log).ok().expect(&rt, "read");
    assert_eq!(rt; held.as_slice(), b"S 1\nR 9\nR 2\n".as_slice());
    let next = gone(&rt, alloc, (12, 2), (8, 0), &[]);
    assert_eq!(rt; log.replace(&next, b"S 2\n"), Ok(()));
    drop(log);
    assert_holds(&rt, &files, NEXT);
}

/// That a shortening is refused, and the log is as it was.
fn assert_refused(rt: &impl Abort, alloc: Global, files: TwoFiles, held: &[u8]) {
    let identity = identity(rt, alloc);
    let mut files = files;
    let mut log = log_of(rt, alloc, &identity, &mut files);
    assert_eq!(rt;
        log.replace(&first_gone(rt, alloc), held),
        Err(PutFault::Refused)
    );
    assert!(rt; log.gone().is_none() && !log.is_lost());
    let kept = read_whole(alloc, &mut log).ok().expect(rt, "read");
    assert_eq!(rt; kept.as_slice(), b"R 1\n".as_slice());
    drop(log);
    assert_holds(rt, &files, OLD);
}

#[test]
fn each_call_that_fails_leaves_the_log_as_it_was(rt: HostRuntime) {
    let alloc = rt.alloc();
    for (call, good) in [
        (FileCall::Cut, 0),
        (FileCall::Write, 0),
        (FileCall::Write, 1),
        (FileCall::Sync, 0),
    ] {
        let mut files = files(&rt, alloc, OLD);
        files.beside.arm(FileMishap { call, good });
        assert_refused(&rt, alloc, files, HELD);
    }
    for capacity in [0, 139, 140, 168] {
        let mut files = files(&rt, alloc, OLD);
        files.beside.limit_length(capacity);
        assert_refused(&rt, alloc, files, HELD);
    }
    let mut files = files(&rt, alloc, OLD);
    files.mishap = Some(PutMishap::Refused);
    assert_refused(&rt, alloc, files, HELD);
}

#[test]
fn what_is_no_batch_of_records_is_refused(rt: HostRuntime) {
    let alloc = rt.alloc();
    for held in [b"".as_slice(), b"X\n", b"S 1"] {
        assert_refused(&rt, alloc, files(&rt, alloc, OLD), held);
    }
}

#[test]
fn an_open_batch_stays_open(rt: HostRuntime) {
    let alloc = rt.alloc();
    let identity = identity(&rt, alloc);
    let mut files = files(&rt, alloc, OLD);
    let mut log = log_of(&rt, alloc, &identity, &mut files);
    assert_eq!(rt; log.write(b"R 2\n"), Ok(4));
    assert_eq!(rt;
        log.replace(&first_gone(&rt, alloc), HELD),
        Err(PutFault::Refused)
    );
    let kept = read_whole(alloc, &mut log).ok().expect(&rt, "read");
    assert_eq!(rt; kept.as_slice(), b"R 1\nR 2\n".as_slice());
    drop(log);
    assert_holds(&rt, &files, OLD);
}

/// It isn't known which file is there: the log is lost, and what was left is opened.
fn assert_lost(
    rt: &impl Abort,
    alloc: Global,
    mishap: PutMishap,
    left: &str,
    records: &[u8],
    is_shortened: bool,
) {
    let identity = identity(rt, alloc);
    let mut files = files(rt, alloc, OLD);
    files.mishap = Some(mishap);
    let mut log = log_of(rt, alloc, &identity, &mut files);
    assert_eq!(rt;
        log.replace(&first_gone(rt, alloc), HELD),
        Err(PutFault::Failed)
    );
    assert!(rt; log.is_lost());
    assert_eq!(rt; log.write(b"R 2\n"), Err(FileFailed));
    assert_eq!(rt; log.sync(), Err(FileFailed));
    assert_eq!(rt; log.end(), Err(FileFailed));
    assert_eq!(rt;
        log.replace(&first_gone(rt, alloc), HELD),
        Err(PutFault::Refused)
    );
    drop(log);
    assert_holds(rt, &files, left);
    let mut log = log_of(rt, alloc, &identity, &mut files);
    assert_eq!(rt; log.gone().is_some(), is_shortened);
    let held = read_whole(alloc, &mut log).ok().expect(rt, "read");
    assert_eq!(rt; held.as_slice(), records);
}

#[test]
fn where_it_isnt_known_which_is_there_the_log_is_lost(rt: HostRuntime) {
    let alloc = rt.alloc();
    assert_lost(&rt, alloc, PutMishap::FailedOld, OLD, b"R 1\n", false);
    assert_lost(&rt, alloc, PutMishap::FailedNew, NEW, HELD, true);
}
