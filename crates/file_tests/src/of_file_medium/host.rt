//! A file of the system, in the folder that the test runs in.

use super::*;
use std::fs::{self, File, Files};
use std::io::ErrorKind;

const PATH: &str = "file_medium_tests.log";

/// Why the log isn't opened: None where it is.
fn fault_of(opened: Result<HostFile, OpenLogFault>) -> Option<OpenLogFault> {
    opened.err()
}

/// Whether the log isn't opened, since the system refuses it so.
fn is_refused(opened: Result<HostFile, OpenLogFault>, kind: ErrorKind) -> bool {
    match fault_of(opened) {
        Some(OpenLogFault::System(fault)) => fault.kind() == kind,
        Some(OpenLogFault::Busy) | None => false,
    }
}

/// Whether the log isn't opened, since another has it.
fn is_busy(opened: Result<HostFile, OpenLogFault>) -> bool {
    matches!(fault_of(opened), Some(OpenLogFault::Busy))
}

/// Whether this one answers what a file in memory does.
fn answers(alloc: Global, medium: &mut FileMedium<HostFile>) -> [bool; 7] {
    [
        adds(medium, "ab\ncd\n"),
        cuts_to(alloc, medium, 3),
        adds(medium, "e\n"),
        medium.sync() == Ok(()),
        is_held(alloc, medium, "ab\ne\n"),
        ends_with(alloc, medium, 2, "e\n", 5),
        medium.failures() == 0,
    ]
}

/// A new log takes what it is given, and meanwhile nobody else opens it.
fn assert_new<R: Abort + Files<File = File>>(rt: &R, alloc: Global, file: HostFile) {
    assert!(rt; is_busy(open_log(rt, PATH, Opening::Existing)));
    let mut medium = medium_over(rt, alloc, file, Durability::EachAppend);
    assert_eq!(rt; answers(alloc, &mut medium), [true; 7]);
}

/// A log that is there holds what it held, and where another hand has changed it the device fails.
fn assert_existing<R: Abort + Files<File = File>>(rt: &R, alloc: Global, file: HostFile) {
    let mut medium = medium_over(rt, alloc, file, Durability::Caller);
    assert!(rt; is_held(alloc, &mut medium, "ab\ne\n"));
    fs::write(rt, PATH, b"ab\nx\n".as_slice()).expect(rt, "written");
    assert!(rt; fails_to_read(alloc, &mut medium));
}

/// The log, opened.
fn log_of<R: Abort + Files<File = File>>(rt: &R, opening: Opening) -> HostFile {
    open_log(rt, PATH, opening).ok().expect(rt, "opened")
}

#[test]
fn a_file_of_the_system(rt: HostRuntime) {
    let _ = fs::remove_file(&rt, PATH);
    assert!(rt; is_refused(open_log(&rt, PATH, Opening::Existing), ErrorKind::NotFound));
    assert_new(&rt, rt.alloc(), log_of(&rt, Opening::New));
    assert!(rt; is_refused(open_log(&rt, PATH, Opening::New), ErrorKind::AlreadyExists));
    assert_existing(&rt, rt.alloc(), log_of(&rt, Opening::Existing));
    fs::remove_file(&rt, PATH).expect(&rt, "removed");
}
