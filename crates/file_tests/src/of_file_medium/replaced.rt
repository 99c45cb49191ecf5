//! A log in whose place another file is put while it is opened, and a file that is put there.

use super::*;
use std::alloc::Allocator;
use std::fs::{self, File, Files, Metadata, OpenOptions};
use std::io;

/// The log that is replaced while it is opened, and the file that takes its place.
const OPENED: &str = "file_medium_tests.opened";

const OTHER: &str = "file_medium_tests.other";

/// The log that is replaced by who has it locked, and its new file.
const LOCKED: &str = "file_medium_tests.locked";

const NEW: &str = "file_medium_tests.new";

/// The system, in which another file takes the place of the log once that was opened, and before it is
/// locked.
#[derive(Drop)]
struct Replacing<'a, R: Files<File = File>> {
    rt: &'a R,
}

impl<'a, R: Files<File = File>> Files for Replacing<'a, R> {
    type File = File;

    type Dir = R::Dir;

    fn open_file(&self, how: &OpenOptions, path: &str) -> io::Result<File> {
        let file = self.rt.open_file(how, path)?;
        if path == OPENED {
            self.rt.rename(OTHER, OPENED)?;
        }
        Ok(file)
    }

    fn open_dir(&self, path: &str) -> io::Result<R::Dir> {
        self.rt.open_dir(path)
    }

    fn metadata(&self, path: &str) -> io::Result<Metadata> {
        self.rt.metadata(path)
    }

    fn symlink_metadata(&self, path: &str) -> io::Result<Metadata> {
        self.rt.symlink_metadata(path)
    }

    fn copy(&self, from: &str, to: &str) -> io::Result<u64> {
        self.rt.copy(from, to)
    }

    fn rename(&self, from: &str, to: &str) -> io::Result<()> {
        self.rt.rename(from, to)
    }

    fn remove_file(&self, path: &str) -> io::Result<()> {
        self.rt.remove_file(path)
    }

    fn create_dir(&self, path: &str) -> io::Result<()> {
        self.rt.create_dir(path)
    }

    fn remove_dir(&self, path: &str) -> io::Result<()> {
        self.rt.remove_dir(path)
    }

    fn remove_dir_all<B: Allocator>(&self, alloc: B, path: &str) -> io::Result<()> {
        self.rt.remove_dir_all(alloc, path)
    }
}

/// Whether the log isn't opened, since another has it.
fn is_busy(opened: Result<HostFile, OpenLogFault>) -> bool {
    matches!(opened.err(), Some(OpenLogFault::Busy))
}

/// The lock of the file that was the log before is free, and still it isn't opened; the file that took
/// its place is.
#[test]
fn a_file_that_was_replaced_is_no_log(rt: HostRuntime) {
    fs::write(&rt, OPENED, b"old".as_slice()).expect(&rt, "written");
    fs::write(&rt, OTHER, b"new".as_slice()).expect(&rt, "written");
    assert!(rt; is_busy(open_log(&Replacing { rt: &rt }, OPENED, Opening::Existing)));
    let log = open_log(&rt, OPENED, Opening::Existing)
        .ok()
        .expect(&rt, "opened");
    assert!(rt; is_busy(open_log(&rt, OPENED, Opening::Existing)));
    drop(log);
    fs::remove_file(&rt, OPENED).expect(&rt, "removed");
}

/// Who has the log locked locks the new file before it takes the log's place: so nobody else opens it,
/// at no moment, though the lock of the first file is let go.
#[test]
fn a_new_file_is_locked_before_it_is_the_log(rt: HostRuntime) {
    let _ = fs::remove_file(&rt, NEW);
    fs::write(&rt, LOCKED, b"old".as_slice()).expect(&rt, "written");
    let log = open_log(&rt, LOCKED, Opening::Existing)
        .ok()
        .expect(&rt, "opened");
    let mut new = open_log(&rt, NEW, Opening::New).ok().expect(&rt, "made");
    assert_eq!(rt; new.write(b"new"), Ok(3));
    fs::rename(&rt, NEW, LOCKED).expect(&rt, "renamed");
    assert!(rt; is_busy(open_log(&rt, LOCKED, Opening::Existing)));
    drop(log);
    assert!(rt; is_busy(open_log(&rt, LOCKED, Opening::Existing)));
    drop(new);
    assert!(rt; open_log(&rt, LOCKED, Opening::Existing).is_ok());
    fs::remove_file(&rt, LOCKED).expect(&rt, "removed");
}
