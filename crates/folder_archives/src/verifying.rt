//! The log of a folder, verified with all parts that were kept of it.

ghost use Rattle.std.specs.Prelude.{IfOk, IfErr, string_bytes};
ghost use Rattle.folder_logs.specs.Files.{bytes_of};
ghost use Rattle.world_folders.specs.Reading.{IsRead};
ghost use Rattle.folder_archives.specs.Verified.{IsVerified};
ghost use Rattle.folder_archives.specs.Faults.{IsVerifyFault};
ghost use Rattle.folder_archives.specs.Steps.{AreTotalsOf, IsLastFault, IsLastPart, IsNextPart, IsPart, IsUnreadPart, TellsPart};

use crate::beginning::{Beginning, beginning_of, part_path};
use crate::fault::{PartWhy, VerifyFault, held_fault, joint_fault, part_fault};
use folder_faults::{Fault, Missing, Why, refused};
use held_logs::{HeldLog, count_held, read_held, replay_held, stand_held};
use log_archives::check_joint;
use log_replay::LogReplayed;
use site_folder::Identity;
use std::alloc::{AllocError, Global};
use world_folders::{PathFault, Paths, ReadsFiles, held_in, read_fault, read_file};

/// How much a log has in all, what is gone included. A number above 2^64 - 1 is told as that.
#[derive(Clone, Copy, Debug, Drop, PartialEq, Eq)]
pub struct LogTotals {
    /// How many records, summaries not counted.
    pub records: usize,
    /// The length of all records, in bytes.
    pub bytes: u64,
}

// How much a log has in all, by what it holds and what its head tells to be gone.
fn totals_of(alloc: Global, held: &HeldLog<'_>) -> Result<LogTotals, AllocError>
    ensures totals { IfOk result (AreTotalsOf held.now.gone (bytes_of held.now.records)) }
{
    let records = held.records.as_slice();
    Ok(LogTotals {
        records: count_held(alloc, &held.gone, records)?.plain,
        bytes: stand_held(alloc, &held.gone, records)?.length,
    })
}

// What the log itself has, once it was verified from its base on.
fn verify_last(
    alloc: Global,
    paths: &Paths,
    identity: &Identity,
    held: &HeldLog<'_>,
) -> Result<LogTotals, Fault>
    ensures last { IfOk result (IsLastPart identity.now held.now.gone (bytes_of held.now.records)) }
    ensures fault { IfErr result (IsLastFault (string_bytes paths.now.log) identity.now held.now.gone
        (bytes_of held.now.records)) }
{
    let records = held.records.as_slice();
    match replay_held(
        alloc,
        identity.schema(),
        identity.number(),
        &held.gone,
        records,
    )? {
        LogReplayed::Standing { .. } => Ok(totals_of(alloc, held)?),
        LogReplayed::BadLine { number } | LogReplayed::BreaksRule { number } => {
            Err(refused(alloc, paths.log.as_str(), Why::BadRecord(number)))
        }
    }
}

// The bytes of the part at a path.
fn read_part<R: ReadsFiles>(files: &R, alloc: Global, path: &str) -> Result<Vec<u8>, VerifyFault>
    ensures read { IfOk result (λ bytes. IsRead (R.holds files.now) path.now bytes.items) }
    ensures fault { IfErr result (IsUnreadPart (R.fails files.now) path.now) }
{
    match files.read(path) {
        Ok(bytes) => Ok(bytes),
        Err(PathFault::NotThere) => Err(part_fault(alloc, path, PartWhy::Missing)),
        Err(why) => Err(VerifyFault::Log(read_fault(alloc, path, why, Missing::Log))),
    }
}

// Verifies that the next part goes on where the one at a path leaves off, and tells how this one
// begins.
fn verify_part<R: ReadsFiles>(
    files: &R,
    alloc: Global,
    identity: &Identity,
    path: &str,
    next: &Beginning,
) -> Result<Option<Beginning>, VerifyFault>
    ensures part { IfOk result (IsPart (R.holds files.now) identity.now path.now next.now) }
    ensures fault { IfErr result (TellsPart (R.fails files.now) (R.holds files.now) identity.now
        path.now next.now) }
{
    let bytes = read_part(files, alloc, path)?;
    let part = match read_held(alloc, identity, bytes.as_slice()) {
        Ok(part) => part,
        Err(fault) => return Err(held_fault(alloc, path, fault)),
    };
    let base = next.base.as_slice();
    let schema = identity.schema();
    match check_joint(alloc, schema, identity.number(), &part, &next.told, base)? {
        Some(fault) => Err(joint_fault(alloc, path, next, fault)?),
        None => Ok(beginning_of(alloc, path, part)?),
    }
}

// Verifies the parts in front of this one, one by one, up to one of which nothing is gone. Each
// tells fewer bytes to be gone than the next one.
fn verify_parts<R: ReadsFiles>(
    files: &R,
    alloc: Global,
    paths: &Paths,
    identity: &Identity,
    last: Beginning,
    totals: LogTotals,
) -> Result<LogTotals, VerifyFault>
    requires next { IsNextPart (R.holds files.now) (string_bytes paths.now.log) identity.now last
        totals }
    ensures verified { IfOk result (IsVerified (R.holds files.now) (string_bytes paths.now.log)
        identity.now) }
    ensures fault { IfErr result (IsVerifyFault (R.fails files.now) (R.holds files.now)
        (string_bytes paths.now.log) identity.now) }
{
    let mut next = last;
    'parts: for _part in 0..u64::MAX {
        let path = part_path(alloc, paths, next.told.bytes)?;
        match verify_part(files, alloc, identity, path.as_str(), &next)? {
            Some(part) => next = part,
            None => return Ok(totals),
        }
    }
    Err(VerifyFault::Log(Fault::TooLong))
}

/// Verifies the log of a folder with all parts that were kept of it, and tells how much it has in
/// all. They are read without its lock, each once, from the log back to the part of which nothing
/// is gone: a part lies at the path that the head of the next one tells. Together their records, of
/// each part up to where the next one begins, are one lawful log, as `check_joint` finds it
/// (`verified`).
///
/// The fault is that of the first part, from the log back, that isn't there, isn't one of this
/// site's log, is damaged, or doesn't join with the next one (`fault`); that of the log itself; of
/// a call of the system; or want of memory. Costs what `read_held` and `check_joint` do for each
/// part, and memory for one part at a time.
///
/// Source: this project.
pub fn verify_folder<R: ReadsFiles>(
    files: &R,
    alloc: Global,
    paths: &Paths,
    identity: &Identity,
) -> Result<LogTotals, VerifyFault>
    ensures verified { IfOk result (IsVerified (R.holds files.now) (string_bytes paths.now.log)
        identity.now) }
    ensures fault { IfErr result (IsVerifyFault (R.fails files.now) (R.holds files.now)
        (string_bytes paths.now.log) identity.now) }
{
    let bytes = read_file(files, alloc, paths.log.as_str(), Missing::Log)?;
    let held = held_in(alloc, paths, identity, bytes.as_slice())?;
    let totals = verify_last(alloc, paths, identity, &held)?;
    match beginning_of(alloc, paths.log.as_str(), held)? {
        Some(last) => verify_parts(files, alloc, paths, identity, last, totals),
        None => Ok(totals),
    }
}
