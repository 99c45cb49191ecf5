//! A log of which each part that it lets go of is kept.

ghost use Rattle.std.specs.Prelude.{Some};
ghost use Rattle.short_files.specs.Short.{safe_of};

use crate::linked::folder_of;
use crate::told_swap::Notices;
use file_medium::{FileFailed, LogFile};
use file_swap::{PutFault, Replaceable};
use folder_archives::part_path;
use log_head::Gone;
use short_files::ShortFile;
use short_log::ShortLog;
use std::fs::{self, File};
use std::io::{self, ErrorKind};
use std::os::unix::fs::MetadataExt;
use world_folders::Paths;

// The device of the file at the log's path, and its number there.
fn node_of(rt: &HostRuntime, paths: &Paths) -> io::Result<(u64, u64)> {
    let found = fs::metadata(rt, paths.log.as_str())?;
    Ok((found.dev(), found.ino()))
}

// The same, where parts are kept; None where they aren't, or it can't be told: then none is kept.
fn node_kept(rt: &HostRuntime, paths: &Paths, is_archived: bool) -> Option<(u64, u64)> {
    if !is_archived {
        return None;
    }
    node_of(rt, paths).ok()
}

// Gives the file of the log another name beside its own, safe from a stop of the machine. One that had
// it is removed first: a stop between this and the shortening has left it.
fn keep_part(rt: &HostRuntime, paths: &Paths, gone: u64) -> io::Result<()> {
    let Ok(path) = part_path(rt.alloc(), paths, gone) else {
        return Err(io::Error::from(ErrorKind::OutOfMemory));
    };
    match fs::remove_file(rt, path.as_str()) {
        Ok(()) => {}
        Err(error) if error.kind() == ErrorKind::NotFound => {}
        Err(error) => return Err(error),
    }
    File::open(rt, paths.log.as_str())?.sync_all()?;
    fs::hard_link(rt, paths.log.as_str(), path.as_str())?;
    File::open(rt, folder_of(paths.log.as_str()))?.sync_all()
}

/// The log of a folder. Where its parts are kept, it stays as it was behind each shortening, as
/// `log.GONE`, where GONE are the bytes that the head of the new log tells to be gone: a second name of
/// its file, made and synced before the new file takes the place of the first; where that fails nothing
/// changes, the log isn't shortened, and that is told. A stop in between leaves a name that no head asks for, of a file
/// that is still the log: the next shortening up to there removes it. Costs no room but that of the file,
/// which isn't given back to the disk then, and two syncs. That the part is there is read, and not
/// proved: no contract can see a folder.
#[derive(Drop)]
pub(crate) struct ArchivedLog<'a, F: LogFile> {
    rt: &'a HostRuntime,
    paths: &'a Paths,
    log: ShortFile<'a, F>,
    is_archived: bool,
    // Which file the log is: another may come to its path, where a folder on that is moved.
    node: Option<(u64, u64)>,
    notices: Notices<'a>,
}

impl<'a, F: LogFile> ArchivedLog<'a, F> {
    pub(crate) fn new(
        rt: &'a HostRuntime,
        paths: &'a Paths,
        log: ShortFile<'a, F>,
        is_archived: bool,
    ) -> ArchivedLog<'a, F> {
        ArchivedLog {
            rt,
            paths,
            log,
            is_archived,
            node: node_kept(rt, paths, is_archived),
            notices: Notices::new(rt, paths),
        }
    }

    // Keeps the part that the log is now, where parts are kept: else it may not be shortened. The error is
    // None where the log isn't at its path any more: another's would be kept in its place.
    fn keep(&self, gone: u64) -> Result<(), Option<io::Error>> {
        if !self.is_archived {
            return Ok(());
        }
        if self.node.is_none() || node_of(self.rt, self.paths).ok() != self.node {
            return Err(None);
        }
        match keep_part(self.rt, self.paths, gone) {
            Ok(()) => Ok(()),
            Err(error) => Err(Some(error)),
        }
    }
}

impl<'a, F: LogFile> LogFile for ArchivedLog<'a, F> {
    ghost bytes = { λ f. f.log.log.bytes };

    ghost safe = { λ f. safe_of f.log };

    ghost least = { λ f. Some f.log.log.opened };

    fn read_at(&mut self, at: u64, buffer: &mut [u8]) -> Result<usize, FileFailed> {
        self.log.read_at(at, buffer)
    }

    fn write(&mut self, piece: &[u8]) -> Result<usize, FileFailed> {
        self.log.write(piece)
    }

    fn cut(&mut self, kept: u64) -> Result<(), FileFailed> {
        self.log.cut(kept)
    }

    fn sync(&mut self) -> Result<(), FileFailed> {
        self.log.sync()
    }
}

impl<'a, F: Replaceable> ShortLog for ArchivedLog<'a, F> {
    ghost gone = { λ f. f.log.gone };

    fn replace(&mut self, front: &Gone, held: &[u8]) -> Result<(), PutFault> {
        if let Err(error) = self.keep(front.bytes) {
            self.notices.tell("keep", "GONE", error);
            return Err(PutFault::Refused);
        }
        let replaced = self.log.replace(front, held);
        if replaced.is_ok() {
            self.node = node_kept(self.rt, self.paths, self.is_archived);
            self.notices.end();
        }
        replaced
    }
}
