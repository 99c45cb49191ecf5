//! Each expected answer is worked out by hand from the definitions.

mod replacing;

use file_medium::{FileCall, FileFailed, FileMishap, LogFile, MemoryFile, read_whole};
use named_log::*;
use std::alloc::Global;
use std::process::Abort;

const NAME: &[u8] = b"log of 0\n";

/// A file in memory that holds these bytes.
fn file_of(rt: &impl Abort, alloc: Global, bytes: &[u8]) -> MemoryFile {
    MemoryFile::new(alloc, Vec::from_slice(alloc, bytes).expect(rt, "memory"))
}

/// Whether these bytes stand behind the name.
fn is_behind(alloc: Global, log: &mut NamedLog<MemoryFile>, bytes: &str) -> bool {
    match read_whole(alloc, log) {
        Ok(held) => held.as_slice() == bytes.as_bytes(),
        Err(_) => false,
    }
}

/// Cuts to so many bytes, or None where there aren't so many.
fn cut_to(
    alloc: Global,
    log: &mut NamedLog<MemoryFile>,
    kept: usize,
) -> Option<Result<(), FileFailed>> {
    let held = read_whole(alloc, log).ok()?;
    if kept > held.as_slice().len() {
        return None;
    }
    Some(log.cut(kept as u64))
}

/// What an open of a file of these bytes under the name gives, where it isn't opened.
fn fault_of(rt: &impl Abort, alloc: Global, bytes: &[u8]) -> Option<NameFault> {
    match NamedLog::open(file_of(rt, alloc, bytes), NAME) {
        Ok(_) => None,
        Err((fault, _)) => Some(fault),
    }
}

/// What is read, added, cut and synced stands behind the name.
fn each_call(alloc: Global, log: &mut NamedLog<MemoryFile>) -> [bool; 8] {
    [
        is_behind(alloc, log, "R 1\n"),
        log.write(b"R 2\n") == Ok(4),
        is_behind(alloc, log, "R 1\nR 2\n"),
        log.sync() == Ok(()),
        cut_to(alloc, log, 4) == Some(Ok(())),
        is_behind(alloc, log, "R 1\n"),
        cut_to(alloc, log, 0) == Some(Ok(())),
        is_behind(alloc, log, ""),
    ]
}

#[test]
fn a_log_stands_behind_its_name(rt: HostRuntime) {
    let file = file_of(&rt, rt.alloc(), b"log of 0\nR 1\n");
    let mut log = NamedLog::open(file, NAME).ok().expect(&rt, "opened");
    assert_eq!(rt; each_call(rt.alloc(), &mut log), [true; 8]);
}

#[test]
fn another_name_is_refused(rt: HostRuntime) {
    let alloc = rt.alloc();
    let faults = [
        fault_of(&rt, alloc, b"log of 1\nR 1\n"),
        fault_of(&rt, alloc, b"log of 0"),
        fault_of(&rt, alloc, b""),
        fault_of(&rt, alloc, b"log of 0\n"),
    ];
    let other = Some(NameFault::Other);
    assert_eq!(&rt; faults, [other, other, other, None]);
}

/// The file is given back with the name in front of the log.
#[test]
fn the_file_is_given_back(rt: HostRuntime) {
    let file = file_of(&rt, rt.alloc(), b"log of 0\nR 1\n");
    let log = NamedLog::open(file, NAME).ok().expect(&rt, "opened");
    assert_eq!(rt; log.into_file().bytes(), b"log of 0\nR 1\n".as_slice());
}

/// Its next sync fails, and from there on each write, cut and sync.
fn lost(alloc: Global, log: &mut NamedLog<MemoryFile>) -> [bool; 4] {
    [
        log.sync() == Err(FileFailed),
        log.write(b"R 2\n") == Err(FileFailed),
        cut_to(alloc, log, 0) == Some(Err(FileFailed)),
        log.sync() == Err(FileFailed),
    ]
}

#[test]
fn a_failed_sync_is_never_forgotten(rt: HostRuntime) {
    let mut file = file_of(&rt, rt.alloc(), b"log of 0\nR 1\n");
    file.arm(FileMishap {
        call: FileCall::Sync,
        good: 1,
    });
    let mut log = NamedLog::open(file, NAME).ok().expect(&rt, "opened");
    assert_eq!(rt; lost(rt.alloc(), &mut log), [true; 4]);
}

/// What stands in a file, the call of its opening that fails, where one does, and what that gives; then
/// what the file that is handed back holds, and what of it is safe.
type Refused = (
    &'static str,
    FileCall,
    u64,
    NameFault,
    &'static str,
    &'static str,
);

// Each file holds 4 more bytes, which aren't safe.
const REFUSED: [Refused; 4] = [
    (
        "log of 0\nR 1\n",
        FileCall::Sync,
        0,
        NameFault::Device,
        "log of 0\nR 1\nR 2\n",
        "log of 0\nR 1\n",
    ),
    (
        "log of 0\nR 1\n",
        FileCall::Read,
        0,
        NameFault::Device,
        "log of 0\nR 1\nR 2\n",
        "log of 0\nR 1\nR 2\n",
    ),
    (
        "log of 1\nR 1\n",
        FileCall::Write,
        0,
        NameFault::Other,
        "log of 1\nR 1\nR 2\n",
        "log of 1\nR 1\nR 2\n",
    ),
    (
        "log of 1\nR 1\n",
        FileCall::Sync,
        0,
        NameFault::Device,
        "log of 1\nR 1\nR 2\n",
        "log of 1\nR 1\n",
    ),
];

/// A file of these bytes, which are safe, and of a record behind them, which isn't.
fn half_safe(rt: &impl Abort, alloc: Global, bytes: &str) -> MemoryFile {
    let mut file = file_of(rt, alloc, bytes.as_bytes());
    assert!(rt; file.sync() == Ok(()));
    assert!(rt; file.write(b"R 2\n") == Ok(4));
    file
}

#[test]
fn a_file_that_is_refused_is_handed_back(rt: HostRuntime) {
    for row in &REFUSED {
        let (held, call, good, wanted, bytes, safe) = *row;
        let mut file = half_safe(&rt, rt.alloc(), held);
        file.arm(FileMishap { call, good });
        let (fault, back) = NamedLog::open(file, NAME).err().expect(&rt, "a fault");
        assert!(&rt; fault == wanted);
        assert!(&rt; back.bytes() == bytes.as_bytes());
        assert!(&rt; back.safe() == safe.as_bytes());
        assert!(&rt; back.least() == held.len());
    }
}

/// What can be asked of a file.
#[derive(Clone, Copy)]
enum Call {
    Write,
    Cut,
    Sync,
}

/// Whether the log fails at that.
fn fails(alloc: Global, log: &mut NamedLog<MemoryFile>, call: Call) -> bool {
    match call {
        Call::Write => log.write(b"R 2\n") == Err(FileFailed),
        Call::Cut => cut_to(alloc, log, 0) == Some(Err(FileFailed)),
        Call::Sync => log.sync() == Err(FileFailed),
    }
}

#[test]
fn no_call_clears_a_failed_sync(rt: HostRuntime) {
    for between in [Call::Write, Call::Cut, Call::Sync] {
        let mut file = file_of(&rt, rt.alloc(), b"log of 0\nR 1\n");
        file.arm(FileMishap {
            call: FileCall::Sync,
            good: 1,
        });
        let mut log = NamedLog::open(file, NAME).ok().expect(&rt, "opened");
        assert!(&rt; fails(rt.alloc(), &mut log, Call::Sync));
        assert!(&rt; fails(rt.alloc(), &mut log, between));
        assert!(&rt; is_behind(rt.alloc(), &mut log, "R 1\n"));
        assert!(&rt; fails(rt.alloc(), &mut log, Call::Sync));
        assert!(&rt; fails(rt.alloc(), &mut log, Call::Write));
    }
}
