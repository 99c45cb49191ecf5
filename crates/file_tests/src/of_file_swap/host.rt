//! A log in a file of the system, in the folder that the test runs in, and the new file that takes its
//! place.

use super::*;
use file_medium::{HostFile, OpenLogFault, Opening, open_log, read_whole};
use std::alloc::Allocator;
use std::fs::{self, File, Files, Metadata, OpenOptions, Permissions};
use std::io::{self, Error, ErrorKind};
use std::os::unix::fs::PermissionsExt;

/// The system, which refuses one call.
#[derive(Drop)]
struct Refusing<'a, R: Files<File = File>> {
    rt: &'a R,
    call: Refused,
}

/// The call that is refused, if one is.
#[derive(Clone, Copy, PartialEq, Eq)]
enum Refused {
    None,
    Remove,
    OpenFolder,
    Rename,
    SetModes,
}

fn refusal() -> Error {
    Error::from(ErrorKind::PermissionDenied)
}

impl<'a, R: Files<File = File>> Files for Refusing<'a, R> {
    type File = File;

    type Dir = R::Dir;

    fn open_file(&self, how: &OpenOptions, path: &str) -> io::Result<File> {
        if self.call == Refused::OpenFolder && path == "." {
            return Err(refusal());
        }
        self.rt.open_file(how, path)
    }

    fn open_dir(&self, path: &str) -> io::Result<R::Dir> {
        self.rt.open_dir(path)
    }

    fn metadata(&self, path: &str) -> io::Result<Metadata> {
        self.rt.metadata(path)
    }

    fn symlink_metadata(&self, path: &str) -> io::Result<Metadata> {
        self.rt.symlink_metadata(path)
    }

    fn copy(&self, from: &str, to: &str) -> io::Result<u64> {
        self.rt.copy(from, to)
    }

    fn rename(&self, from: &str, to: &str) -> io::Result<()> {
        if self.call == Refused::Rename {
            return Err(refusal());
        }
        self.rt.rename(from, to)
    }

    fn remove_file(&self, path: &str) -> io::Result<()> {
        if self.call == Refused::Remove {
            return Err(refusal());
        }
        self.rt.remove_file(path)
    }

    fn set_permissions(&self, path: &str, modes: Permissions) -> io::Result<()> {
        if self.call == Refused::SetModes {
            return Err(refusal());
        }
        self.rt.set_permissions(path, modes)
    }

    fn create_dir(&self, path: &str) -> io::Result<()> {
        self.rt.create_dir(path)
    }

    fn remove_dir(&self, path: &str) -> io::Result<()> {
        self.rt.remove_dir(path)
    }

    fn remove_dir_all<B: Allocator>(&self, alloc: B, path: &str) -> io::Result<()> {
        self.rt.remove_dir_all(alloc, path)
    }
}

/// Whether the log isn't opened, since another has it.
fn is_busy<R: Files<File = File>>(rt: &R, path: &str) -> bool {
    matches!(
        open_log(rt, path, Opening::Existing).err(),
        Some(OpenLogFault::Busy)
    )
}

/// A log that holds `old`, and its file.
fn old_log<R: Abort + Files<File = File>>(rt: &R, path: &str) -> HostFile {
    fs::write(rt, path, b"old".as_slice()).expect(rt, "written");
    open_log(rt, path, Opening::Existing)
        .ok()
        .expect(rt, "opened")
}

/// The file at the path holds these bytes, and is free.
fn assert_there<R: Abort + Files<File = File>>(rt: &R, alloc: Global, path: &str, bytes: &str) {
    let mut log = open_log(rt, path, Opening::Existing)
        .ok()
        .expect(rt, "opened");
    let held = read_whole(alloc, &mut log).ok().expect(rt, "read");
    assert_eq!(rt; held.as_slice(), bytes.as_bytes());
}

/// Nobody else opens the new file or the log, before it takes the place and after; what a stop had left
/// of a new file is gone.
fn assert_swapped<R: Abort + Files<File = File>>(
    rt: &R,
    alloc: Global,
    paths: (&str, &str),
    syncs: LogSyncs,
) {
    let (path, new_path) = paths;
    let log = old_log(rt, path);
    fs::write(rt, new_path, b"what a stop has left".as_slice()).expect(rt, "written");
    let mut swap = HostSwap::new(alloc, rt, path, log, syncs).expect(rt, "memory");
    assert_eq!(rt; swap.begin_beside(), Ok(()));
    assert!(rt; is_busy(rt, new_path) && is_busy(rt, path));
    assert_eq!(rt; put_anew(&mut swap, b"new", b"er"), Ok(()));
    assert!(rt; is_busy(rt, path));
    assert_eq!(rt; swap.write(b"!"), Ok(1));
    assert_eq!(rt; swap.sync(), Ok(()));
    let held = read_whole(alloc, &mut swap).ok().expect(rt, "read");
    assert_eq!(rt; held.as_slice(), b"newer!".as_slice());
    assert!(rt; swap.take_swap_fault().is_none() && swap.take_fault().is_none());
    drop(swap);
    assert_there(rt, alloc, path, "newer!");
    assert!(rt; !fs::exists(rt, new_path).expect(rt, "looked"));
    fs::remove_file(rt, path).expect(rt, "removed");
}

#[test]
fn a_new_file_takes_the_place_of_the_log(rt: HostRuntime) {
    let synced = ("file_swap_tests.log", "file_swap_tests.log.new");
    let unsynced = ("file_swap_tests.unsynced", "file_swap_tests.unsynced.new");
    assert_swapped(&rt, rt.alloc(), synced, LogSyncs::Made);
    assert_swapped(&rt, rt.alloc(), unsynced, LogSyncs::LeftOut);
}

/// That the step is told at which the system refused, nothing is left of the new file, and the log goes
/// on.
fn assert_refused<R: Abort + Files<File = File>>(
    rt: &R,
    alloc: Global,
    call: Refused,
    step: SwapStep,
) {
    let path = "file_swap_tests.refused";
    let log = old_log(rt, path);
    let system = Refusing { rt, call };
    let mut swap = HostSwap::new(alloc, &system, path, log, LogSyncs::Made).expect(rt, "memory");
    assert_eq!(rt; put_anew(&mut swap, b"new", b"er"), REFUSED);
    let fault = swap.take_swap_fault().expect(rt, "a fault");
    assert_eq!(rt; fault.step, step);
    assert!(rt;
        fault
            .error
            .is_some_and(|error| error.kind() == ErrorKind::PermissionDenied)
    );
    assert_eq!(rt; swap.write(b"er"), Ok(2));
    drop(swap);
    assert_there(rt, alloc, path, "older");
    assert_eq!(rt;
        fs::exists(rt, "file_swap_tests.refused.new").ok(),
        Some(call == Refused::OpenFolder)
    );
}

#[test]
fn where_the_system_refuses_a_step_the_log_goes_on(rt: HostRuntime) {
    let alloc = rt.alloc();
    assert_refused(&rt, alloc, Refused::Remove, SwapStep::Begin);
    assert_refused(&rt, alloc, Refused::OpenFolder, SwapStep::Begin);
    assert_refused(&rt, alloc, Refused::Rename, SwapStep::Put);
}

/// The modes that a file has, and is given here.
const MODES: u32 = 0o100_600;

/// A log with these modes, and its file.
fn private_log<R: Abort + Files<File = File>>(rt: &R, path: &str) -> HostFile {
    let log = old_log(rt, path);
    fs::set_permissions(rt, path, Permissions::from_mode(MODES)).expect(rt, "given");
    log
}

/// Where the log of the test on modes lies.
const PRIVATE: &str = "file_swap_tests.modes";

/// The step that failed where a new file is to take the place of a log with these modes, and the system
/// refuses this call.
fn refused_step<R: Abort + Files<File = File>>(
    rt: &R,
    alloc: Global,
    call: Refused,
) -> Option<SwapStep> {
    let log = private_log(rt, PRIVATE);
    let system = Refusing { rt, call };
    let mut swap = HostSwap::new(alloc, &system, PRIVATE, log, LogSyncs::Made).expect(rt, "memory");
    let _ = put_anew(&mut swap, b"new", b"er");
    match swap.take_swap_fault() {
        Some(fault) => Some(fault.step),
        None => None,
    }
}

/// That this step failed, or none, and the log has its modes.
fn assert_modes<R: Abort + Files<File = File>>(
    rt: &R,
    alloc: Global,
    call: Refused,
    step: Option<SwapStep>,
) {
    assert_eq!(rt; refused_step(rt, alloc, call), step);
    let found = fs::metadata(rt, PRIVATE).expect(rt, "looked");
    assert_eq!(rt; found.permissions().mode(), MODES);
}

/// Who mayn't read the log mayn't read what takes its place; where the new file can't be given its modes
/// the log goes on.
#[test]
fn the_new_file_has_the_modes_of_the_log(rt: HostRuntime) {
    assert_modes(&rt, rt.alloc(), Refused::SetModes, Some(SwapStep::Begin));
    assert_there(&rt, rt.alloc(), PRIVATE, "old");
    assert_modes(&rt, rt.alloc(), Refused::None, None);
    assert_there(&rt, rt.alloc(), PRIVATE, "newer");
}

/// Where the log of the test on moved logs lies, and where it is moved.
const HERE: &str = "file_swap_tests.moved";

const AWAY: &str = "file_swap_tests.moved.away";

/// Moves the log away, and puts another file in its place.
fn move_away<R: Abort + Files<File = File>>(rt: &R) {
    fs::rename(rt, HERE, AWAY).expect(rt, "moved");
    fs::write(rt, HERE, b"another's".as_slice()).expect(rt, "written");
}

/// Whether a new file isn't put where another file is now, none is begun there, and the log goes on.
fn spares<R: Files<File = File>>(swap: &mut HostSwap<'_, R>) -> bool {
    swap.put_in_place() == REFUSED && swap.begin_beside().is_err() && swap.write(b"er") == Ok(2)
}

/// Whether that is so where the log is moved once a new file was begun.
fn spares_another<R: Abort + Files<File = File>>(rt: &R, alloc: Global) -> bool {
    let log = old_log(rt, HERE);
    let mut swap = HostSwap::new(alloc, rt, HERE, log, LogSyncs::Made).expect(rt, "memory");
    let begun = swap.begin_beside();
    move_away(rt);
    begun.is_ok() && spares(&mut swap)
}

/// Where another file has come to the log's path it stays, nothing is made beside it, and the log goes on
/// where it lies.
#[test]
fn another_file_at_the_path_stays(rt: HostRuntime) {
    assert!(rt; spares_another(&rt, rt.alloc()));
    assert_eq!(rt;
        fs::exists(&rt, "file_swap_tests.moved.new").ok(),
        Some(false)
    );
    assert_there(&rt, rt.alloc(), HERE, "another's");
    assert_there(&rt, rt.alloc(), AWAY, "older");
}

/// Nothing is put in the place of the log where nothing was begun; and what a stop has left is removed.
#[test]
fn nothing_is_put_where_nothing_was_begun(rt: HostRuntime) {
    let alloc = rt.alloc();
    let path = "file_swap_tests.unbegun";
    let new_path = "file_swap_tests.unbegun.new";
    let log = old_log(&rt, path);
    fs::write(&rt, new_path, b"left".as_slice()).expect(&rt, "written");
    let system = Refusing {
        rt: &rt,
        call: Refused::None,
    };
    let mut swap = HostSwap::new(alloc, &system, path, log, LogSyncs::Made).expect(&rt, "memory");
    assert!(rt; swap.write_beside(b"new").is_err());
    assert!(rt; swap.sync_beside().is_err());
    assert_eq!(rt; swap.put_in_place(), REFUSED);
    assert!(rt; swap.remove_left().is_ok());
    assert!(rt; swap.remove_left().is_ok());
    assert!(rt; !fs::exists(&rt, new_path).expect(&rt, "looked"));
    drop(swap);
    assert_there(&rt, alloc, path, "old");
}
