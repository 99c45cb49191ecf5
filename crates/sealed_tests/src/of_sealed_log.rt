//! Each expected answer is worked out by hand from the definitions, and each sum by a line of Python.

use file_medium::{FileCall, FileFailed, FileMishap, LogFile, MemoryFile, read_whole};
use sealed_log::*;
use std::alloc::Global;
use std::process::Abort;

mod replacing;

// Of 25 bytes.
const ONE: &[u8] = b"R 1\nsum 000000ad00000214\n";
// Of 54 bytes.
const TWO: &[u8] = b"R 1\nsum 000000ad00000214\nR 2\nR 3\nsum 0000015d000006e6\n";

const ONE_AND_TWO: &[u8] = b"R 1\nsum 000000ad00000214\nR 2\nsum 000000ae00000216\n";

const ENDED: &[u8] = b"R 1\nsum 000000ad00000214\nX\nsum 00000062000000ba\n";

/// A file in memory that holds these bytes.
fn file_of(rt: &impl Abort, alloc: Global, bytes: &[u8]) -> MemoryFile {
    MemoryFile::new(alloc, Vec::from_slice(alloc, bytes).expect(rt, "memory"))
}

/// The same, of which a call fails.
fn failing(rt: &impl Abort, alloc: Global, bytes: &[u8], call: FileCall, good: u64) -> MemoryFile {
    let mut file = file_of(rt, alloc, bytes);
    file.arm(FileMishap { call, good });
    file
}

/// Whether the file holds these bytes, and all of it is safe.
fn is_filed(log: &SealedLog<MemoryFile>, bytes: &[u8]) -> bool {
    log.file().bytes() == bytes && log.file().safe() == bytes
}

/// Whether the log tells these records.
fn tells(alloc: Global, log: &mut SealedLog<MemoryFile>, records: &[u8]) -> bool {
    match read_whole(alloc, log) {
        Ok(held) => held.as_slice() == records,
        Err(_) => false,
    }
}

/// Whether one read from a place on gives these bytes.
fn reads(log: &mut SealedLog<MemoryFile>, at: u64, bytes: &[u8]) -> bool {
    let mut buffer = [0u8; 64];
    match log.read_at(at, buffer.as_mut_slice()) {
        Ok(count) => buffer.as_slice()[..count] == bytes[..],
        Err(_) => false,
    }
}

/// Whether a read from a place on fails.
fn is_unreadable(log: &mut SealedLog<MemoryFile>, at: u64) -> bool {
    let mut buffer = [0u8; 64];
    log.read_at(at, buffer.as_mut_slice()) == Err(FileFailed)
}

/// Nothing of a batch is in the file before a sync closes it, and then all of it.
fn two_batches(log: &mut SealedLog<MemoryFile>) -> [bool; 11] {
    [
        log.write(b"R 1\n") == Ok(4),
        is_filed(log, b""),
        log.sync() == Ok(()),
        is_filed(log, ONE),
        log.write(b"R 2\n") == Ok(4),
        log.write(b"R 3\n") == Ok(4),
        reads(log, 4, b"R 2\nR 3\n"),
        log.sync() == Ok(()),
        is_filed(log, TWO),
        log.sync() == Ok(()),
        is_filed(log, TWO),
    ]
}

#[test]
fn a_sync_closes_a_batch(rt: HostRuntime) {
    let file = file_of(&rt, rt.alloc(), b"");
    let mut log = SealedLog::open(rt.alloc(), file).ok().expect(&rt, "opened");
    assert_eq!(rt; two_batches(&mut log), [true; 11]);
}

#[test]
fn a_short_write_is_gone_on_with(rt: HostRuntime) {
    let mut file = file_of(&rt, rt.alloc(), b"");
    file.limit_writes(5);
    let mut log = SealedLog::open(rt.alloc(), file).ok().expect(&rt, "opened");
    assert_eq!(rt; two_batches(&mut log), [true; 11]);
}

/// Of two batches of two writes the first is closed, and the second isn't.
fn first_of_two(log: &mut SealedLog<MemoryFile>) -> [bool; 6] {
    [
        log.write(b"R 2\n") == Ok(4),
        log.write(b"R 3\n") == Ok(4),
        log.sync() == Ok(()),
        is_filed(log, TWO),
        log.write(b"R 1\n") == Ok(4),
        log.sync() == Err(FileFailed),
    ]
}

#[test]
fn a_batch_costs_one_write(rt: HostRuntime) {
    let file = failing(&rt, rt.alloc(), ONE, FileCall::Write, 1);
    let mut log = SealedLog::open(rt.alloc(), file).ok().expect(&rt, "opened");
    assert_eq!(rt; first_of_two(&mut log), [true; 6]);
}

/// Whether an opening of these bytes leaves those in the file, and tells the records.
fn opens_as(rt: &impl Abort, alloc: Global, bytes: &[u8], left: &[u8], records: &[u8]) -> bool {
    match SealedLog::open(alloc, file_of(rt, alloc, bytes)) {
        Ok(mut log) => {
            is_filed(&log, left) && tells(alloc, &mut log, records) && is_filed(&log, left)
        }
        Err(_) => false,
    }
}

#[test]
fn what_a_stop_leaves_is_cut_off(rt: HostRuntime) {
    for len in 0..25 {
        assert!(rt; opens_as(&rt, rt.alloc(), &TWO[..len], b"", b""));
    }
    for len in 25..54 {
        assert!(rt; opens_as(&rt, rt.alloc(), &TWO[..len], ONE, b"R 1\n"));
    }
    assert!(rt; opens_as(&rt, rt.alloc(), TWO, TWO, b"R 1\nR 2\nR 3\n"));
}

/// What an opening of a file gives, where it isn't opened.
fn fault_of(alloc: Global, file: MemoryFile) -> Option<SealFault> {
    match SealedLog::open(alloc, file) {
        Ok(_) => None,
        Err((fault, _)) => Some(fault),
    }
}

#[test]
fn what_isnt_written_so_is_refused(rt: HostRuntime) {
    let alloc = rt.alloc();
    let faults = [
        fault_of(alloc, file_of(&rt, alloc, b"R 1\nsum 000000ad00000215\n")),
        fault_of(
            alloc,
            file_of(&rt, alloc, b"R 1\nsum 000000ad00000214\nR 2\nsum 0\n"),
        ),
        fault_of(alloc, file_of(&rt, alloc, b"X\nsum 00000062000000ba\nR")),
        fault_of(alloc, file_of(&rt, alloc, ENDED)),
        fault_of(alloc, file_of(&rt, alloc, ONE)),
    ];
    let first = Some(SealFault::Damaged { line: 1 });
    let third = Some(SealFault::Damaged { line: 3 });
    assert_eq!(rt; faults, [first, third, first, Some(SealFault::Ended), None]);
}

#[test]
fn an_opening_fails_where_a_call_of_the_file_does(rt: HostRuntime) {
    let alloc = rt.alloc();
    let torn = &TWO[..30];
    let faults = [
        fault_of(alloc, failing(&rt, alloc, torn, FileCall::Sync, 0)),
        fault_of(alloc, failing(&rt, alloc, torn, FileCall::Read, 0)),
        fault_of(alloc, failing(&rt, alloc, torn, FileCall::Read, 1)),
        fault_of(alloc, failing(&rt, alloc, torn, FileCall::Cut, 0)),
        fault_of(alloc, failing(&rt, alloc, torn, FileCall::Sync, 1)),
        fault_of(alloc, failing(&rt, alloc, torn, FileCall::Sync, 2)),
    ];
    let device = Some(SealFault::Device);
    assert_eq!(rt; faults, [device, device, device, device, device, None]);
}

/// Only whole lines are taken, of the bytes that records are spelled with.
fn refusals(log: &mut SealedLog<MemoryFile>) -> [bool; 9] {
    [
        log.write(b"") == Err(FileFailed),
        log.write(b"R 1") == Err(FileFailed),
        log.write(b"s 1\n") == Err(FileFailed),
        log.write(b"R\t1\n") == Err(FileFailed),
        log.write(b"R 1\n") == Ok(4),
        log.write(b"1\nR") == Err(FileFailed),
        reads(log, 0, b"R 1\n"),
        log.sync() == Ok(()),
        is_filed(log, ONE),
    ]
}

#[test]
fn other_bytes_are_refused(rt: HostRuntime) {
    let file = file_of(&rt, rt.alloc(), b"");
    let mut log = SealedLog::open(rt.alloc(), file).ok().expect(&rt, "opened");
    assert_eq!(rt; refusals(&mut log), [true; 9]);
}

/// The batch that ends a world isn't closed by a sync, but with a record behind it.
fn closing_an_end(log: &mut SealedLog<MemoryFile>) -> [bool; 7] {
    [
        log.write(b"X\n") == Ok(2),
        log.sync() == Err(FileFailed),
        log.end() == Err(FileFailed),
        is_filed(log, b""),
        !log.is_lost(),
        log.write(b"R 1\n") == Ok(4),
        log.sync() == Ok(()),
    ]
}

#[test]
fn no_sync_ends_a_world(rt: HostRuntime) {
    let file = file_of(&rt, rt.alloc(), b"");
    let mut log = SealedLog::open(rt.alloc(), file).ok().expect(&rt, "opened");
    assert_eq!(rt; closing_an_end(&mut log), [true; 7]);
}

/// Cuts to so many bytes, or None where there aren't so many, or they can't be read any more.
fn cut_to(
    alloc: Global,
    log: &mut SealedLog<MemoryFile>,
    kept: usize,
) -> Option<Result<(), FileFailed>> {
    let held = read_whole(alloc, log).ok()?;
    if kept > held.as_slice().len() {
        return None;
    }
    Some(log.cut(kept as u64))
}

/// What a cut gives behind a closed batch of 4 bytes and an open one of two lines of 4 bytes, and
/// what a sync then leaves in the file.
fn is_cut(rt: &impl Abort, alloc: Global, kept: usize, good: bool, left: &[u8]) -> bool {
    let want = if good { Ok(()) } else { Err(FileFailed) };
    match SealedLog::open(alloc, file_of(rt, alloc, ONE)) {
        Ok(mut log) => {
            log.write(b"R 2\nR 3\n") == Ok(8)
                && cut_to(alloc, &mut log, kept) == Some(want)
                && log.sync() == Ok(())
                && is_filed(&log, left)
        }
        Err(_) => false,
    }
}

#[test]
fn only_what_is_open_is_cut(rt: HostRuntime) {
    let alloc = rt.alloc();
    let cuts = [
        is_cut(&rt, alloc, 12, true, TWO),
        is_cut(&rt, alloc, 8, true, ONE_AND_TWO),
        is_cut(&rt, alloc, 7, false, TWO),
        is_cut(&rt, alloc, 4, true, ONE),
        is_cut(&rt, alloc, 3, false, TWO),
        is_cut(&rt, alloc, 0, false, TWO),
    ];
    assert_eq!(rt; cuts, [true; 6]);
}

/// Closed records are read once.
fn reading(log: &mut SealedLog<MemoryFile>) -> [bool; 7] {
    [
        log.write(b"R 2\n") == Ok(4),
        reads(log, 2, b"1\n"),
        is_unreadable(log, 0),
        reads(log, 4, b"R 2\n"),
        reads(log, 6, b"2\n"),
        reads(log, 8, b""),
        reads(log, 9, b""),
    ]
}

#[test]
fn closed_records_are_read_once(rt: HostRuntime) {
    let file = file_of(&rt, rt.alloc(), ONE);
    let mut log = SealedLog::open(rt.alloc(), file).ok().expect(&rt, "opened");
    assert_eq!(rt; reading(&mut log), [true; 7]);
}

/// Its next batch isn't closed, and from there on each call fails.
fn lost(log: &mut SealedLog<MemoryFile>) -> [bool; 9] {
    [
        log.write(b"R 2\n") == Ok(4),
        !log.is_lost(),
        log.sync() == Err(FileFailed),
        log.is_lost(),
        log.file().safe() == ONE,
        log.write(b"R 2\n") == Err(FileFailed),
        log.sync() == Err(FileFailed),
        log.end() == Err(FileFailed),
        is_unreadable(log, 0),
    ]
}

#[test]
fn a_write_that_fails_is_never_forgotten(rt: HostRuntime) {
    let file = failing(&rt, rt.alloc(), ONE, FileCall::Write, 0);
    let mut log = SealedLog::open(rt.alloc(), file).ok().expect(&rt, "opened");
    assert_eq!(rt; lost(&mut log), [true; 9]);
    assert!(rt; log.file().bytes() == ONE);
}

#[test]
fn a_sync_that_fails_is_never_forgotten(rt: HostRuntime) {
    let file = failing(&rt, rt.alloc(), ONE, FileCall::Sync, 1);
    let mut log = SealedLog::open(rt.alloc(), file).ok().expect(&rt, "opened");
    assert_eq!(rt; lost(&mut log), [true; 9]);
    assert!(rt; log.file().bytes() == ONE_AND_TWO);
}

#[test]
fn a_full_file_is_never_forgotten(rt: HostRuntime) {
    let mut file = file_of(&rt, rt.alloc(), ONE);
    file.limit_length(32);
    let mut log = SealedLog::open(rt.alloc(), file).ok().expect(&rt, "opened");
    assert_eq!(rt; lost(&mut log), [true; 9]);
    assert!(rt; log.file().bytes() == &ONE_AND_TWO[..32]);
}

/// The end is written, and from there on each call fails but a read.
fn ending(log: &mut SealedLog<MemoryFile>) -> [bool; 9] {
    [
        log.end() == Ok(()),
        is_filed(log, ENDED),
        log.write(b"R 2\n") == Err(FileFailed),
        log.sync() == Err(FileFailed),
        log.end() == Err(FileFailed),
        !log.is_lost(),
        reads(log, 0, b"R 1\n"),
        reads(log, 4, b""),
        is_filed(log, ENDED),
    ]
}

#[test]
fn an_end_closes_the_world(rt: HostRuntime) {
    let file = file_of(&rt, rt.alloc(), ONE);
    let mut log = SealedLog::open(rt.alloc(), file).ok().expect(&rt, "opened");
    assert_eq!(rt; ending(&mut log), [true; 9]);
}

/// An end that isn't written, or isn't safe, loses the log.
fn lost_end(log: &mut SealedLog<MemoryFile>) -> [bool; 4] {
    [
        log.end() == Err(FileFailed),
        log.is_lost(),
        log.file().safe() == ONE,
        log.end() == Err(FileFailed),
    ]
}

#[test]
fn an_end_that_fails_is_never_forgotten(rt: HostRuntime) {
    let unwritten = failing(&rt, rt.alloc(), ONE, FileCall::Write, 0);
    let mut log = SealedLog::open(rt.alloc(), unwritten)
        .ok()
        .expect(&rt, "opened");
    assert_eq!(rt; lost_end(&mut log), [true; 4]);
    let unsynced = failing(&rt, rt.alloc(), ONE, FileCall::Sync, 1);
    let mut log = SealedLog::open(rt.alloc(), unsynced)
        .ok()
        .expect(&rt, "opened");
    assert_eq!(rt; lost_end(&mut log), [true; 4]);
}

// A closed batch, and a torn one of 5 bytes behind it.
const TORN: &[u8] = b"R 1\nsum 000000ad00000214\nR 2\nR";

// A closed batch, and one of another sum behind it.
const DAMAGED: &[u8] = b"R 1\nsum 000000ad00000214\nR 2\nsum 000000ae00000217\n";

/// The bytes of a file that aren't safe, behind a closed batch of 25 bytes that is; the call of the
/// opening that fails, and how many of its kind go well before it; and what the opening gives, what
/// the file holds that is handed back, and what of it is safe.
type Refused = (
    &'static [u8],
    FileCall,
    u64,
    SealFault,
    &'static [u8],
    &'static [u8],
);

const REFUSED: [Refused; 11] = [
    (b"R 2\nR", FileCall::Sync, 0, SealFault::Device, TORN, ONE),
    (b"R 2\nR", FileCall::Read, 0, SealFault::Device, TORN, TORN),
    (b"R 2\nR", FileCall::Read, 1, SealFault::Device, TORN, TORN),
    (b"R 2\nR", FileCall::Cut, 0, SealFault::Device, TORN, TORN),
    (b"R 2\nR", FileCall::Sync, 1, SealFault::Device, ONE, ONE),
    (
        b"R 2\nsum 000000ae00000216\n",
        FileCall::Sync,
        0,
        SealFault::Device,
        ONE_AND_TWO,
        ONE,
    ),
    (
        b"R 2\nsum 000000ae00000216\n",
        FileCall::Read,
        1,
        SealFault::Device,
        ONE_AND_TWO,
        ONE_AND_TWO,
    ),
    (
        b"R 2\nsum 000000ae00000217\n",
        FileCall::Sync,
        0,
        SealFault::Device,
        DAMAGED,
        ONE,
    ),
    (
        b"R 2\nsum 000000ae00000217\n",
        FileCall::Cut,
        0,
        SealFault::Damaged { line: 3 },
        DAMAGED,
        DAMAGED,
    ),
    (
        b"X\nsum 00000062000000ba\n",
        FileCall::Read,
        0,
        SealFault::Device,
        ENDED,
        ENDED,
    ),
    (
        b"X\nsum 00000062000000ba\n",
        FileCall::Cut,
        0,
        SealFault::Ended,
        ENDED,
        ENDED,
    ),
];

/// A file of a closed batch, which is safe, and of these bytes behind it, which aren't.
fn half_safe(rt: &impl Abort, alloc: Global, behind: &[u8]) -> MemoryFile {
    let mut file = file_of(rt, alloc, ONE);
    assert!(rt; file.sync() == Ok(()));
    assert!(rt; file.write(behind) == Ok(behind.len()));
    file
}

#[test]
fn a_file_that_is_refused_is_handed_back(rt: HostRuntime) {
    for row in &REFUSED {
        let (behind, call, good, wanted, bytes, safe) = *row;
        let mut file = half_safe(&rt, rt.alloc(), behind);
        file.arm(FileMishap { call, good });
        let (fault, back) = SealedLog::open(rt.alloc(), file)
            .err()
            .expect(&rt, "a fault");
        assert!(&rt; fault == wanted);
        assert!(&rt; back.bytes() == bytes);
        assert!(&rt; back.safe() == safe);
        assert!(&rt; back.least() == 25);
    }
}
