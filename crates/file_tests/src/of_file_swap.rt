//! A file that holds `old+`, of which `old` is safe, and takes `newer` in its place: what each fault
//! leaves. Every expected value is worked out by hand.

use file_medium::{FileCall, FileMishap, LogFile, MemoryFile};
use file_swap::*;
use std::alloc::Global;
use std::process::Abort;

mod host;

/// How the new file goes: how many bytes a write takes at most, how many it can hold, which of its
/// calls fails, and what putting it in place comes to.
#[derive(Clone, Copy)]
struct Course {
    at_once: usize,
    capacity: usize,
    call: Option<FileMishap>,
    put: Option<PutMishap>,
}

const WELL: Course = Course {
    at_once: 100,
    capacity: 100,
    call: None,
    put: None,
};

/// The call of this kind behind so many good ones fails.
macro_rules! fails {
    ($call:ident, $good:literal) => {
        Some(FileMishap { call: FileCall::$call, good: $good })
    };
}

/// The file before.
fn files(alloc: Global) -> Option<TwoFiles> {
    let mut file = MemoryFile::new(alloc, Vec::from_slice(alloc, b"old").ok()?);
    file.sync().ok()?;
    let taken = file.write(b"+").ok()?;
    if taken != 1 {
        return None;
    }
    Some(TwoFiles::new(alloc, file))
}

fn set(files: &mut TwoFiles, course: Course) {
    files.beside.limit_writes(course.at_once);
    files.beside.limit_length(course.capacity);
    if let Some(mishap) = course.call {
        files.beside.arm(mishap);
    }
    files.mishap = course.put;
}

/// That the call came to this, and what the file then holds, and which of it is safe.
fn assert_left(
    rt: &impl Abort,
    alloc: Global,
    course: Course,
    came: Result<(), PutFault>,
    held: &str,
    safe: &str,
) {
    let mut files = files(alloc).expect(rt, "memory");
    set(&mut files, course);
    assert_eq!(rt; put_anew(&mut files, b"new", b"er"), came);
    assert_eq!(rt; files.file.bytes(), held.as_bytes());
    assert_eq!(rt; files.file.safe(), safe.as_bytes());
}

const REFUSED: Result<(), PutFault> = Err(PutFault::Refused);

#[test]
fn the_new_file_takes_the_place_whole_and_safe(rt: HostRuntime) {
    let alloc = rt.alloc();
    let short = Course { at_once: 2, ..WELL };
    let full = Course {
        capacity: 5,
        ..WELL
    };
    assert_left(&rt, alloc, WELL, Ok(()), "newer", "newer");
    assert_left(&rt, alloc, short, Ok(()), "newer", "newer");
    assert_left(&rt, alloc, full, Ok(()), "newer", "newer");
}

#[test]
fn each_call_that_fails_leaves_the_file_as_it_was(rt: HostRuntime) {
    let alloc = rt.alloc();
    for call in [
        fails!(Cut, 0),
        fails!(Write, 0),
        fails!(Write, 1),
        fails!(Write, 2),
        fails!(Sync, 0),
    ] {
        let course = Course {
            at_once: 2,
            call,
            ..WELL
        };
        assert_left(&rt, alloc, course, REFUSED, "old+", "old");
    }
    for capacity in 0..5 {
        let course = Course { capacity, ..WELL };
        assert_left(&rt, alloc, course, REFUSED, "old+", "old");
    }
    let put = Course {
        put: Some(PutMishap::Refused),
        ..WELL
    };
    assert_left(&rt, alloc, put, REFUSED, "old+", "old");
}

#[test]
fn where_it_isnt_known_which_is_there_each_is_whole(rt: HostRuntime) {
    let alloc = rt.alloc();
    let old = Course {
        put: Some(PutMishap::FailedOld),
        ..WELL
    };
    let new = Course {
        put: Some(PutMishap::FailedNew),
        ..WELL
    };
    assert_left(&rt, alloc, old, Err(PutFault::Failed), "old+", "old");
    assert_left(&rt, alloc, new, Err(PutFault::Failed), "newer", "newer");
}

/// A call that was refused is made again, and the file goes on behind the new bytes.
#[test]
fn the_file_goes_on_behind_the_new_bytes(rt: HostRuntime) {
    let alloc = rt.alloc();
    let mut files = files(alloc).expect(&rt, "memory");
    set(
        &mut files,
        Course {
            call: fails!(Sync, 0),
            ..WELL
        },
    );
    assert_eq!(rt; put_anew(&mut files, b"n", b"ew"), REFUSED);
    assert_eq!(rt; put_anew(&mut files, b"newer", b""), Ok(()));
    assert_eq!(rt; files.file.least(), 5);
    assert_eq!(rt; files.write(b"!"), Ok(1));
    assert_eq!(rt; files.file.bytes(), b"newer!".as_slice());
    assert_eq!(rt; files.file.safe(), b"newer".as_slice());
    assert_eq!(rt; put_anew(&mut files, b"", b""), Ok(()));
    assert_eq!(rt; files.file.bytes().len(), 0);
    assert_eq!(rt; files.file.safe().len(), 0);
}
