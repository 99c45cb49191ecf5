//! A log behind the name `log of 0`, of which `R 1` is safe and `R 2` isn't, and which is replaced by
//! `S 1` behind the name `log of 0, later`: what each fault leaves.

use super::*;
use file_swap::{PutFault, PutMishap, TwoFiles};

const NEW_NAME: &[u8] = b"log of 0, later\n";

const NEW_LOG: &[u8] = b"S 1\n";

/// What the new file holds, and what of it is safe.
const NEW: (&str, &str) = ("log of 0, later\nS 1\n", "log of 0, later\nS 1\n");

/// How the new file goes: how many bytes a write takes at most, how many it can hold, which of its
/// calls fails, and what putting it in place comes to.
#[derive(Clone, Copy)]
struct Course {
    at_once: usize,
    capacity: usize,
    call: Option<FileMishap>,
    put: Option<PutMishap>,
}

const WELL: Course = Course {
    at_once: 100,
    capacity: 100,
    call: None,
    put: None,
};

/// The call of this kind behind so many good ones fails.
macro_rules! fails {
    ($call:ident, $good:literal) => {
        Some(FileMishap { call: FileCall::$call, good: $good })
    };
}

/// The file before, and an empty one beside it, which goes so.
fn files(rt: &impl Abort, alloc: Global, course: Course) -> TwoFiles {
    let mut file = file_of(rt, alloc, b"log of 0\nR 1\n");
    assert!(rt; file.sync() == Ok(()));
    assert!(rt; file.write(b"R 2\n") == Ok(4));
    let mut files = TwoFiles::new(alloc, file);
    files.beside.limit_writes(course.at_once);
    files.beside.limit_length(course.capacity);
    if let Some(mishap) = course.call {
        files.beside.arm(mishap);
    }
    files.mishap = course.put;
    files
}

/// The log behind its name, which the opening makes safe; then `R 2` stands there, not safe.
fn log_of<'a>(rt: &impl Abort, files: &'a mut TwoFiles) -> NamedLog<&'a mut TwoFiles> {
    NamedLog::open(files, NAME).ok().expect(rt, "opened")
}

/// The file holds the first, and the second of it is safe.
fn assert_left(rt: &impl Abort, files: &TwoFiles, left: (&str, &str)) {
    assert_eq!(rt; files.file.bytes(), left.0.as_bytes());
    assert_eq!(rt; files.file.safe(), left.1.as_bytes());
}

/// That a replacing came to this, whether the log goes on then, and what the file holds.
fn assert_replaced(
    rt: &impl Abort,
    alloc: Global,
    course: Course,
    came: Result<(), PutFault>,
    left: (&str, &str),
) {
    let mut files = files(rt, alloc, course);
    let mut log = log_of(rt, &mut files);
    assert_eq!(rt; log.replace(NEW_NAME, NEW_LOG), came);
    if came == Err(PutFault::Failed) {
        assert_eq!(rt; log.write(b"R 3\n"), Err(FileFailed));
        assert_eq!(rt; log.sync(), Err(FileFailed));
        assert_eq!(rt; log.replace(NEW_NAME, NEW_LOG), Err(PutFault::Refused));
    }
    assert_left(rt, &files, left);
}

/// The same of the old one, all of which the opening has made safe.
const STAYS: (&str, &str) = ("log of 0\nR 1\nR 2\n", "log of 0\nR 1\nR 2\n");

#[test]
fn another_file_takes_the_place(rt: HostRuntime) {
    let short = Course { at_once: 3, ..WELL };
    let full = Course {
        capacity: 20,
        ..WELL
    };
    assert_replaced(&rt, rt.alloc(), WELL, Ok(()), NEW);
    assert_replaced(&rt, rt.alloc(), short, Ok(()), NEW);
    assert_replaced(&rt, rt.alloc(), full, Ok(()), NEW);
}

#[test]
fn each_call_that_fails_leaves_the_log_as_it_was(rt: HostRuntime) {
    for call in [
        fails!(Cut, 0),
        fails!(Write, 0),
        fails!(Write, 4),
        fails!(Write, 6),
        fails!(Sync, 0),
    ] {
        let course = Course {
            at_once: 3,
            call,
            ..WELL
        };
        assert_replaced(&rt, rt.alloc(), course, Err(PutFault::Refused), STAYS);
    }
    for capacity in 0..20 {
        let course = Course { capacity, ..WELL };
        assert_replaced(&rt, rt.alloc(), course, Err(PutFault::Refused), STAYS);
    }
    let put = Course {
        put: Some(PutMishap::Refused),
        ..WELL
    };
    assert_replaced(&rt, rt.alloc(), put, Err(PutFault::Refused), STAYS);
}

#[test]
fn where_it_isnt_known_which_is_there_the_log_is_lost(rt: HostRuntime) {
    let old = Course {
        put: Some(PutMishap::FailedOld),
        ..WELL
    };
    let new = Course {
        put: Some(PutMishap::FailedNew),
        ..WELL
    };
    assert_replaced(&rt, rt.alloc(), old, Err(PutFault::Failed), STAYS);
    assert_replaced(&rt, rt.alloc(), new, Err(PutFault::Failed), NEW);
}

/// The log goes on behind the new name: it is read, added to and synced there, and replaced again.
#[test]
fn the_log_goes_on_behind_the_new_name(rt: HostRuntime) {
    let alloc = rt.alloc();
    let mut files = files(&rt, alloc, WELL);
    let mut log = log_of(&rt, &mut files);
    assert_eq!(rt; log.replace(NEW_NAME, NEW_LOG), Ok(()));
    assert_eq!(rt; log.write(b"R 3\n"), Ok(4));
    let held = read_whole(alloc, &mut log).ok().expect(&rt, "read");
    assert_eq!(rt; held.as_slice(), b"S 1\nR 3\n".as_slice());
    assert_eq!(rt; log.sync(), Ok(()));
    assert_eq!(rt; log.replace(b"", b"R 5\n"), Ok(()));
    assert_eq!(rt; log.write(b"R 6\n"), Ok(4));
    assert_left(&rt, &files, ("R 5\nR 6\n", "R 5\n"));
}
