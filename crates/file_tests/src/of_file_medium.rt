//! Each expected answer is worked out by hand from the definitions.

mod faults;
mod host;
mod replaced;
mod sites;
mod turns;

use file_medium::*;
use kept_records::{Device, Medium, MediumFault};
use std::alloc::Global;
use std::process::Abort;

/// A file in memory that holds these bytes.
fn file_of(rt: &impl Abort, alloc: Global, bytes: &[u8]) -> MemoryFile {
    MemoryFile::new(alloc, Vec::from_slice(alloc, bytes).expect(rt, "memory"))
}

/// A medium over this file.
fn medium_over<F: LogFile + Drop>(
    rt: &impl Abort,
    alloc: Global,
    file: F,
    durability: Durability,
) -> FileMedium<F> {
    FileMedium::new(alloc, file, durability)
        .ok()
        .expect(rt, "a medium")
}

/// Adds a piece, or None where memory was refused.
fn add<M: Medium>(medium: &mut M, piece: &str) -> Option<Result<(), Device>> {
    medium.reserve(piece.len()).ok()?;
    Some(medium.append(piece.as_bytes()))
}

/// Cuts to so many bytes, or None where the medium doesn't tell that it has them.
fn cut_to<M: Medium>(alloc: Global, medium: &mut M, kept: usize) -> Option<Result<(), Device>> {
    let end = medium.read_end(alloc, 0).ok()?;
    if kept > end.length {
        return None;
    }
    Some(medium.cut(kept))
}

/// Whether the medium tells that it holds these bytes.
fn is_held<M: Medium>(alloc: Global, medium: &mut M, bytes: &str) -> bool {
    match medium.read_all(alloc) {
        Ok(held) => held.as_slice() == bytes.as_bytes(),
        Err(_) => false,
    }
}

/// Whether the medium ends with these bytes where so many are read, and tells so many in all.
fn ends_with<M: Medium>(
    alloc: Global,
    medium: &mut M,
    most: usize,
    wanted: &str,
    length: usize,
) -> bool {
    match medium.read_end(alloc, most) {
        Ok(end) => end.bytes.as_slice() == wanted.as_bytes() && end.length == length,
        Err(_) => false,
    }
}

/// Whether the file holds these bytes, and those are safe.
fn is_in_file(medium: &FileMedium<MemoryFile>, bytes: &str, safe: &str) -> bool {
    medium.file().bytes() == bytes.as_bytes() && medium.file().safe() == safe.as_bytes()
}

/// Whether the medium takes the piece.
fn adds<M: Medium>(medium: &mut M, piece: &str) -> bool {
    add(medium, piece) == Some(Ok(()))
}

/// Whether the device fails to take it.
fn fails_to_add<M: Medium>(medium: &mut M, piece: &str) -> bool {
    add(medium, piece) == Some(Err(Device))
}

/// Whether the medium is cut to so many bytes.
fn cuts_to<M: Medium>(alloc: Global, medium: &mut M, kept: usize) -> bool {
    cut_to(alloc, medium, kept) == Some(Ok(()))
}

/// Whether a read of all meets a fault of the device.
fn fails_to_read<M: Medium>(alloc: Global, medium: &mut M) -> bool {
    matches!(medium.read_all(alloc), Err(MediumFault::Device))
}

/// A piece that takes three writes, a cut and a sync.
fn each_call(alloc: Global, medium: &mut FileMedium<MemoryFile>) -> [bool; 9] {
    [
        adds(medium, "cdefg\n"),
        is_held(alloc, medium, "ab\ncdefg\n"),
        ends_with(alloc, medium, 4, "efg\n", 9),
        cuts_to(alloc, medium, 3),
        is_held(alloc, medium, "ab\n"),
        medium.sync() == Ok(()),
        medium.failures() == 0,
        !medium.is_lost(),
        is_in_file(medium, "ab\n", "ab\n"),
    ]
}

#[test]
fn a_file_is_read_whole(rt: HostRuntime) {
    let mut file = file_of(&rt, rt.alloc(), b"ab\ncd");
    let held = read_whole(rt.alloc(), &mut file).expect(&rt, "read");
    assert!(&rt; held.as_slice() == b"ab\ncd".as_slice());
}

#[test]
fn short_writes_add_the_whole_piece(rt: HostRuntime) {
    let mut file = file_of(&rt, rt.alloc(), b"ab\n");
    file.limit_writes(2);
    let mut medium = medium_over(&rt, rt.alloc(), file, Durability::EachAppend);
    assert_eq!(rt; each_call(rt.alloc(), &mut medium), [true; 9]);
}

/// The file has room for three bytes more, and once it is cut for as many again.
fn full(alloc: Global, medium: &mut FileMedium<MemoryFile>) -> [bool; 7] {
    [
        fails_to_add(medium, "cdefg\n"),
        is_held(alloc, medium, "ab\ncde"),
        is_in_file(medium, "ab\ncde", "ab\ncde"),
        medium.failures() == 1,
        cuts_to(alloc, medium, 3),
        adds(medium, "x\n"),
        is_in_file(medium, "ab\nx\n", "ab\nx\n"),
    ]
}

#[test]
fn a_full_device_keeps_a_front(rt: HostRuntime) {
    let mut file = file_of(&rt, rt.alloc(), b"ab\n");
    file.limit_length(6);
    let mut medium = medium_over(&rt, rt.alloc(), file, Durability::EachAppend);
    assert_eq!(rt; full(rt.alloc(), &mut medium), [true; 7]);
}

/// Whether a read of the end meets a fault of the device.
fn fails_to_read_end<M: Medium>(alloc: Global, medium: &mut M) -> bool {
    matches!(medium.read_end(alloc, 0), Err(MediumFault::Device))
}

/// The sync of the append fails, and nothing is answered from there on.
fn lost(alloc: Global, medium: &mut FileMedium<MemoryFile>) -> [bool; 10] {
    [
        fails_to_add(medium, "cd\n"),
        medium.is_lost(),
        fails_to_read(alloc, medium),
        fails_to_read_end(alloc, medium),
        fails_to_add(medium, "e\n"),
        medium.cut(0) == Err(Device),
        medium.failures() == 5,
        medium.sync() == Err(Device),
        medium.failures() == 5,
        is_in_file(medium, "ab\ncd\n", "ab\n"),
    ]
}

#[test]
fn after_a_failed_sync_nothing_is_answered(rt: HostRuntime) {
    let mut file = file_of(&rt, rt.alloc(), b"ab\n");
    file.arm(FileMishap {
        call: FileCall::Sync,
        good: 1,
    });
    let mut medium = medium_over(&rt, rt.alloc(), file, Durability::EachAppend);
    assert_eq!(rt; lost(rt.alloc(), &mut medium), [true; 10]);
}

/// What is added is safe once the caller has synced, and the second such sync fails.
fn synced_by_caller(alloc: Global, medium: &mut FileMedium<MemoryFile>) -> [bool; 9] {
    [
        adds(medium, "ab\n"),
        adds(medium, "cd\n"),
        is_in_file(medium, "ab\ncd\n", ""),
        medium.sync() == Ok(()),
        is_in_file(medium, "ab\ncd\n", "ab\ncd\n"),
        adds(medium, "e\n"),
        medium.sync() == Err(Device),
        is_in_file(medium, "ab\ncd\ne\n", "ab\ncd\n"),
        fails_to_read(alloc, medium),
    ]
}

#[test]
fn a_caller_syncs_many_appends(rt: HostRuntime) {
    let mut file = file_of(&rt, rt.alloc(), b"");
    file.arm(FileMishap {
        call: FileCall::Sync,
        good: 2,
    });
    let mut medium = medium_over(&rt, rt.alloc(), file, Durability::Caller);
    assert_eq!(rt; synced_by_caller(rt.alloc(), &mut medium), [true; 9]);
}
