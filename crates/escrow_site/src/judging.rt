//! The command `judge`.

ghost use Rattle.std.specs.Prelude.{◌≢◌, None};

use field_bounds::SiteNo;
use file_medium::FileFailed;
use folder_faults::{Fault, Why, failed, refused};
use script_input::{PIECE, Sink, Watched};
use site_folder::trace_name;
use std::alloc::Global;
use std::fs::File;
use std::io;
use std::io::ErrorKind;
use std::os::unix::fs::FileExt;
use trace_windows::{ReadAt, TraceWindow, TraceWindows, WindowFault};
use world_folders::{SiteFolder, WorldFolders, read_kept_entries, read_world, tell_reading};
use woven_verdict::{Verdict, VerdictFault, judge_histories, verdict_line};

/// The file of a trace, which keeps what the system told of a read that failed.
///
/// That it is read as `ReadAt` says is read, and not proved: no contract can see what it holds.
#[derive(Drop)]
struct HostTrace {
    file: File,
    fault: Option<io::Error>,
}

impl ReadAt for HostTrace {
    ghost bytes = { λ _. None };

    ghost has_failed = { λ f. f.fault ≢ None };

    // A read is made again where a signal came in between.
    fn read_at(&mut self, at: u64, buffer: &mut [u8]) -> Result<usize, FileFailed> {
        for _ in 0..u64::MAX {
            match self.file.read_at(buffer, at) {
                Ok(count) => return Ok(count),
                Err(error) if error.kind() == ErrorKind::Interrupted => {}
                Err(error) => {
                    self.fault = Some(error);
                    return Err(FileFailed);
                }
            }
        }
        Ok(0)
    }
}

// The file of a trace, opened to be read.
fn open_file(rt: &HostRuntime, path: &str) -> Result<File, Fault> {
    match File::open(rt, path) {
        Ok(file) => Ok(file),
        Err(error) if error.kind() == ErrorKind::NotFound => {
            Err(refused(rt.alloc(), path, Why::NoTrace))
        }
        Err(error) => Err(failed(rt.alloc(), path, error)),
    }
}

// Why the trace at a path isn't told to its end. One that has come to be another one since its entries
// were counted is refused.
fn window_fault(alloc: Global, path: &str, file: &mut HostTrace, fault: WindowFault) -> Fault {
    match fault {
        WindowFault::Read => match file.fault.take() {
            Some(error) => failed(alloc, path, error),
            None => Fault::Read,
        },
        WindowFault::Line => refused(alloc, path, Why::OtherTrace),
        WindowFault::Behind => refused(alloc, path, Why::TraceBehind),
        WindowFault::NoMemory => Fault::NoMemory,
    }
}

// The trace of a folder, before anything of it is read. Its entries that count are counted first, so
// that it is refused as it is by `weave`.
fn open_trace(rt: &HostRuntime, folder: &SiteFolder) -> Result<TraceWindow<HostTrace>, Fault> {
    let alloc = rt.alloc();
    let count = read_kept_entries(rt, alloc, &folder.paths, &folder.identity)?.len();
    let name = trace_name(alloc, &folder.identity)?;
    let file = HostTrace {
        file: open_file(rt, folder.paths.trace.as_str())?,
        fault: None,
    };
    Ok(TraceWindow::new(alloc, file, name.len() as u64, count))
}

// The traces of all sites, each at its first entry.
fn open_traces<'a>(
    rt: &HostRuntime,
    world: &'a WorldFolders,
) -> Result<TraceWindows<'a, HostTrace>, Fault> {
    let alloc = rt.alloc();
    let mut piece = vec![in alloc; 0u8; PIECE]?;
    let mut traces = Vec::new(alloc);
    for number in 0..world.schema.sites() {
        let site = SiteNo(number);
        let folder = world.named_folder(site)?;
        tell_reading(rt, folder.paths.folder.as_str(), site, world.schema.sites());
        let mut trace = open_trace(rt, folder)?;
        if let Err(fault) = trace.fill(alloc, &world.schema, piece.as_mut_slice()) {
            let path = folder.paths.trace.as_str();
            return Err(window_fault(alloc, path, trace.file_mut(), fault));
        }
        traces.push(trace)?;
    }
    Ok(TraceWindows::new(alloc, &world.schema, traces, piece))
}

// Why a trace wasn't read on.
fn why_unread(
    alloc: Global,
    world: &WorldFolders,
    windows: &mut TraceWindows<'_, HostTrace>,
) -> Fault {
    let Some((site, fault)) = windows.fault() else {
        return Fault::Read;
    };
    let Some(folder) = world.folder(SiteNo(site)) else {
        return Fault::NoFolder(site);
    };
    let Some(trace) = windows.trace_mut(site) else {
        return Fault::Read;
    };
    window_fault(alloc, folder.paths.trace.as_str(), trace.file_mut(), fault)
}

// The verdict on the woven trace of all sites, and how many entries were judged for it.
fn judge_sites(rt: &HostRuntime, world: &WorldFolders) -> Result<(Verdict, u64), Fault> {
    let alloc = rt.alloc();
    let mut windows = open_traces(rt, world)?;
    match judge_histories(alloc, &world.schema, &mut windows) {
        Ok(told) => Ok(told),
        Err(VerdictFault::Stuck { site, number }) => Err(Fault::Stuck(site.0, number)),
        Err(VerdictFault::Unread) => Err(why_unread(alloc, world, &mut windows)),
        Err(VerdictFault::NoMemory) => Err(Fault::NoMemory),
    }
}

// The status that tells a verdict, as that of an audit does.
fn status_of(verdict: Verdict) -> u8 {
    match verdict {
        Verdict::Legal => 0,
        Verdict::Illegal { .. } => 3,
    }
}

/// Judges the one trace of all sites of a world: writes the line that an audit of what `weave` writes
/// would write, and tells the status with which it would end. The folders are read without their
/// locks, each trace twice: once to count the entries that count, and once by windows, so that no
/// more than a window of each is held.
pub(crate) fn judge_folders(rt: &HostRuntime, folders: &[String]) -> Result<u8, Fault> {
    let world = read_world(rt, rt.alloc(), folders)?;
    let (verdict, count) = judge_sites(rt, &world)?;
    let line = verdict_line(rt.alloc(), verdict, count)?;
    match Watched::new(rt.stdout()).write_all(line.as_bytes()) {
        Ok(()) => Ok(status_of(verdict)),
        Err(_) => Err(Fault::Write),
    }
}
