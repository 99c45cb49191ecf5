//! The log of a site's folder, of any version: what its file holds, and what that comes to.

ghost use Rattle.std.specs.Prelude.{◌<◌, ◌↔◌, IfOk, IfErr, IsTrue, string_bytes};
ghost use Rattle.folder_logs.specs.Files.{bytes_of};
ghost use Rattle.held_logs.specs.Held.{Holds};
ghost use Rattle.world_folders.specs.Faults.{IsLogFault, IsNoLog};
ghost use Rattle.folder_faults.specs.Faults.{IsRefused};
ghost use Rattle.folder_faults.specs.declared.fault.Why.TheVariants.{BadRecord, DamagedBatch};
ghost use Rattle.world_folders.specs.Logs.{CountsLog, IsStandRead, LacksBase, ReplaysLog};

use crate::folder::{Paths, read_file};
use crate::reading::ReadsFiles;
use field_bounds::{Schema, SiteNo};
use folder_faults::{Fault, Missing, Why, refused};
use held_logs::{HeldFault, HeldLog, count_held, read_held, replay_held, stand_held};
use kept_records::LogCount;
use log_head::Gone;
use log_replay::LogReplayed;
use log_stand::Stand;
use site_folder::Identity;
use std::alloc::{AllocError, Global};

/// The fault that this line of the records that the log holds is no record of the site, the first one
/// being 1.
pub(crate) fn bad_record(alloc: Global, paths: &Paths, line: u64) -> Fault
    ensures told { IsRefused (string_bytes paths.now.log) (BadRecord line) result }
{
    refused(alloc, paths.log.as_str(), Why::BadRecord(line))
}

/// The fault that a batch of the log is damaged, which begins at this line of its file, the first one
/// being 1.
pub fn damaged_line(alloc: Global, paths: &Paths, line: u64) -> Fault
    ensures told { IsRefused (string_bytes paths.now.log) (DamagedBatch line) result }
{
    refused(alloc, paths.log.as_str(), Why::DamagedBatch(line))
}

/// What the file of a log holds, of any version: the records, and what a head tells to be gone. The
/// fault is that it isn't the log of this site, that its head was changed, that a batch is damaged, or
/// want of memory. Costs what `read_held` does.
pub fn held_in<'a>(
    alloc: Global,
    paths: &Paths,
    identity: &Identity,
    bytes: &'a [u8],
) -> Result<HeldLog<'a>, Fault>
    ensures held { IfOk result (λ held. Holds identity.now bytes.now held.gone
        (bytes_of held.records)) }
    ensures none { IfErr result (IsNoLog (string_bytes paths.now.log) identity.now bytes.now) }
{
    match read_held(alloc, identity, bytes) {
        Ok(held) => Ok(held),
        Err(HeldFault::Other) => Err(refused(alloc, paths.log.as_str(), Why::OtherLog)),
        Err(HeldFault::Changed) => Err(refused(alloc, paths.log.as_str(), Why::HeadChanged)),
        Err(HeldFault::Damaged { line }) => Err(damaged_line(alloc, paths, line)),
        Err(HeldFault::NoMemory) => Err(Fault::NoMemory),
    }
}

// The fault of records of which this line is the first that is none.
fn refuse_line(
    alloc: Global,
    paths: &Paths,
    identity: &Identity,
    held: &HeldLog<'_>,
    line: u64,
) -> Result<Fault, AllocError> {
    let records = held.records.as_slice();
    match replay_held(
        alloc,
        identity.schema(),
        identity.number(),
        &held.gone,
        records,
    )? {
        LogReplayed::BadLine { number } | LogReplayed::BreaksRule { number } => {
            Ok(bad_record(alloc, paths, number))
        }
        LogReplayed::Standing { .. } => Ok(bad_record(alloc, paths, line)),
    }
}

// Whether a log of which something is gone holds no record, so not even a base.
fn lacks_base(gone: &Option<Gone>, count: &LogCount) -> bool
    ensures value { IsTrue result ↔ LacksBase gone.now count.now }
{
    match gone {
        Some(_) => count.length == 0,
        None => false,
    }
}

/// How many records the log of the folder has, those that are gone included, where each line that it
/// holds is one: so many a trace tells of that goes with it. The length is of what it holds. It is read
/// without its lock. The fault is that of the file, of its first line that is no record, or want of
/// memory; where something is gone and no record is held, line 1 is none.
pub fn count_records<R: ReadsFiles>(
    files: &R,
    alloc: Global,
    paths: &Paths,
    identity: &Identity,
) -> Result<LogCount, Fault>
    ensures counted { IfOk result (CountsLog (R.holds files.now) (string_bytes paths.now.log)
        identity.now) }
{
    let bytes = read_file(files, alloc, paths.log.as_str(), Missing::Log)?;
    let held = held_in(alloc, paths, identity, bytes.as_slice())?;
    let count = count_held(alloc, &held.gone, held.records.as_slice())?;
    if lacks_base(&held.gone, &count) {
        return Err(refuse_line(alloc, paths, identity, &held, 1)?);
    }
    match count.bad_line {
        Some(line) => Err(refuse_line(alloc, paths, identity, &held, line)?),
        None => Ok(count),
    }
}

/// How far the log of the folder has come: the epoch of its last restart, and the length of all
/// records since the site was created, those that are gone included, in bytes. It is read without its
/// lock. The fault is that of the file, or want of memory.
pub fn read_stand<R: ReadsFiles>(
    files: &R,
    alloc: Global,
    paths: &Paths,
    identity: &Identity,
) -> Result<Stand, Fault>
    ensures stand { IfOk result (IsStandRead (R.holds files.now) (string_bytes paths.now.log)
        identity.now) }
    ensures fault { IfErr result (IsLogFault (R.fails files.now) (R.holds files.now)
        (string_bytes paths.now.log) identity.now) }
{
    let bytes = read_file(files, alloc, paths.log.as_str(), Missing::Log)?;
    let held = held_in(alloc, paths, identity, bytes.as_slice())?;
    Ok(stand_held(alloc, &held.gone, held.records.as_slice())?)
}

/// What the log of a folder comes to.
#[derive(Drop)]
pub(crate) struct FolderReplay {
    /// What its head tells to be gone, of version 3.
    pub gone: Option<Gone>,
    /// What the records come to that it holds.
    pub came: LogReplayed,
}

/// What the log of the folder comes to as that of this site under this schema. It is read without its
/// lock.
pub(crate) fn replay_folder<R: ReadsFiles>(
    files: &R,
    alloc: Global,
    paths: &Paths,
    identity: &Identity,
    schema: &Schema,
    site: SiteNo,
) -> Result<FolderReplay, Fault>
    requires site_in { site.0 < schema.now.sites }
    ensures replayed { IfOk result (ReplaysLog (R.holds files.now) (string_bytes paths.now.log)
        identity.now schema.now site.0) }
{
    let bytes = read_file(files, alloc, paths.log.as_str(), Missing::Log)?;
    let HeldLog { gone, records } = held_in(alloc, paths, identity, bytes.as_slice())?;
    let came = replay_held(alloc, schema, site, &gone, records.as_slice())?;
    Ok(FolderReplay { gone, came })
}
