//! The mark that a folder keeps, once a log was refused in it as an older one: so that none as old is
//! served there later, by whoever starts it.

ghost use Rattle.std.specs.Prelude.{◌≡◌, ◌==◌, position, IfErr, IfOk, MatchOption, OnOk, string_bytes};
ghost use Rattle.folder_faults.specs.declared.fault.Why.TheVariants.{Marked};
ghost use Rattle.world_folders.specs.declared.reading.PathFault.TheVariants.{NotThere};
ghost use Rattle.world_folders.specs.Marks.{IsMarkFault, IsMarkUnread, IsNotMarkedOlder, TellsMark, TellsNoMark, first_line};
ghost use Rattle.world_folders.specs.Reading.{IsRead};

use crate::folder::Paths;
use crate::folder_log::read_stand;
use crate::reading::{PathFault, ReadsFiles};
use folder_faults::{Fault, Why, failed, refused};
use line_words::{Words, read_number};
use log_stand::Stand;
use site_folder::Identity;
use std::alloc::Global;

// Where the first line ends, if a line feed stands behind it.
fn line_feed(bytes: &[u8]) -> Option<usize>
    ensures value { result ≡ position (λ b. b == 10) bytes.now }
{
    bytes.iter().position(|byte| *byte == b'\n')
}

// The first line of the bytes, without the line feed that may stand behind it.
fn first_line(bytes: &[u8]) -> &[u8]
    ensures value { result.now ≡ first_line bytes.now }
{
    match line_feed(bytes) {
        Some(end) => &bytes[..end],
        None => bytes,
    }
}

// The mark that the first line of the bytes is, or None where it is none.
fn mark_told(bytes: &[u8]) -> Option<Stand>
    ensures told { MatchOption result (TellsNoMark bytes.now) (TellsMark bytes.now) }
{
    let mut words = Words::new(first_line(bytes));
    let epoch = read_number(words.next()?)?;
    let length = read_number(words.next()?)?;
    if words.is_empty() {
        Some(Stand { epoch, length })
    } else {
        None
    }
}

// What the file of a mark holds, or None where none is there.
fn read_mark<R: ReadsFiles>(files: &R, alloc: Global, path: &str) -> Result<Option<Vec<u8>>, Fault>
    ensures read { IfOk result (λ found. MatchOption found (R.fails files.now path.now NotThere)
        (λ bytes. IsRead (R.holds files.now) path.now bytes.items)) }
    ensures unread { IfErr result (IsMarkUnread (R.fails files.now) path.now) }
{
    match files.read(path) {
        Ok(bytes) => Ok(Some(bytes)),
        Err(PathFault::NotThere) => Ok(None),
        Err(PathFault::NoFolder) => Err(refused(alloc, path, Why::NoFolder)),
        Err(PathFault::Failed(error)) => Err(failed(alloc, path, error)),
    }
}

// Why a log is refused that has come less far than its mark.
fn why_marked(log: Stand, mark: Stand) -> Why
    ensures why { result ≡ Marked log.epoch log.length mark.epoch mark.length }
{
    Why::Marked {
        epoch: log.epoch,
        length: log.length,
        mark_epoch: mark.epoch,
        mark_length: mark.length,
    }
}

/// Refuses a log that is older than the mark in its folder, which an older log was refused by before. Where
/// none is there, nothing is refused. The log stays as it is, and is read without its lock. The fault
/// besides `Marked` is that the mark or the log can't be read, `NoMark` where the file tells none, that
/// the log isn't this site's, or want of memory. Costs a read of the log where there is a mark, and a call
/// of the system where there is none. Source: this project.
pub fn check_mark<R: ReadsFiles>(
    files: &R,
    alloc: Global,
    paths: &Paths,
    identity: &Identity,
) -> Result<(), Fault>
    ensures newest { OnOk result (IsNotMarkedOlder (R.fails files.now) (R.holds files.now)
        (string_bytes paths.now.not_before) (string_bytes paths.now.log) identity.now) }
    ensures fault { IfErr result (IsMarkFault (R.fails files.now) (R.holds files.now)
        (string_bytes paths.now.not_before) (string_bytes paths.now.log) identity.now) }
{
    let path = paths.not_before.as_str();
    let Some(bytes) = read_mark(files, alloc, path)? else {
        return Ok(());
    };
    let Some(mark) = mark_told(bytes.as_slice()) else {
        return Err(refused(alloc, path, Why::NoMark));
    };
    let stand = read_stand(files, alloc, paths, identity)?;
    if stand.is_before(mark) {
        return Err(refused(alloc, paths.log.as_str(), why_marked(stand, mark)));
    }
    Ok(())
}
