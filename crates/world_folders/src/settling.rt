//! Which logs of a world are lost, and what a new world goes on with: where all logs end, or between
//! which bounds where some are lost.

ghost use Rattle.std.specs.Prelude.{◌≡◌, ◌<◌, IfOk, IfErr, length, string_bytes};
ghost use Rattle.world_folders.specs.Lost.{AreKnownOutcomes, AreLost, BoundsAsRead, IsKnownOutcome, IsLostFault, IsUnseen, KnownAsRead, TellsLost};
ghost use Rattle.world_folders.specs.Logs.{SettlesAsRead, WritesSettled};

use crate::checking::{logs_fault, read_outcome, read_standings};
use crate::folder::read_fault;
use crate::reading::ReadsFiles;
use crate::worlds::WorldFolders;
use field_bounds::{Schema, SiteNo};
use folder_faults::{Fault, Missing};
use log_replay::Standing;
use std::alloc::Global;
use world_logs::{
    FieldRange, HeaderFault, bound_standings, settle_standings, standings_or_fault, write_header,
};

// Whether the log of a site is lost: no folder of it is named, or none is in its folder.
fn is_lost<R: ReadsFiles>(
    files: &R,
    alloc: Global,
    world: &WorldFolders,
    site: SiteNo,
) -> Result<bool, Fault>
    ensures told { IfOk result (TellsLost (R.stands files.now) world.now.folders.items site.0) }
    ensures unseen { IfErr result (IsUnseen (R.fails files.now) world.now.folders.items site.0) }
{
    let Some(folder) = world.folder(site) else {
        return Ok(true);
    };
    let path = folder.paths.log.as_str();
    match files.is_there(path) {
        Ok(is_there) => Ok(!is_there),
        Err(why) => Err(read_fault(alloc, path, why, Missing::Log)),
    }
}

/// The sites whose logs are lost, in their order: those of which no folder is named, or whose folder has
/// no log. The fault is that of the first path of which the system doesn't tell, or want of memory.
pub fn lost_sites<R: ReadsFiles>(
    files: &R,
    alloc: Global,
    world: &WorldFolders,
) -> Result<Vec<SiteNo>, Fault>
    ensures lost { IfOk result (λ lost. AreLost (R.stands files.now) world.now.folders.items
        world.now.schema lost.items) }
    ensures fault { IfErr result (IsLostFault (R.fails files.now) world.now.folders.items
        world.now.schema) }
{
    let mut lost = Vec::new(alloc);
    for number in 0..world.schema.sites() {
        let site = SiteNo(number);
        if is_lost(files, alloc, world, site)? {
            lost.push(site)?;
        }
    }
    Ok(lost)
}

// What the log of a site came to, or None in place of what it stands for where it is lost.
fn read_known<R: ReadsFiles>(
    files: &R,
    alloc: Global,
    world: &WorldFolders,
    lost: &[SiteNo],
    site: SiteNo,
) -> Result<Result<Option<Standing>, u64>, Fault>
    requires site_in { site.0 < world.now.schema.sites }
    ensures outcome { IfOk result (IsKnownOutcome (R.holds files.now) world.now.folders.items
        world.now.schema lost.now site.0) }
{
    if lost.contains(&site) {
        return Ok(Ok(None));
    }
    match read_outcome(files, alloc, world, site)? {
        Ok(standing) => Ok(Ok(Some(standing))),
        Err(number) => Ok(Err(number)),
    }
}

// The same of all sites, in their order.
fn read_all_known<R: ReadsFiles>(
    files: &R,
    alloc: Global,
    world: &WorldFolders,
    lost: &[SiteNo],
) -> Result<Vec<Result<Option<Standing>, u64>>, Fault>
    ensures outcomes { IfOk result (λ outcomes. AreKnownOutcomes (R.holds files.now)
        world.now.folders.items world.now.schema lost.now outcomes.items) }
{
    let mut outcomes = Vec::new(alloc);
    for number in 0..world.schema.sites() {
        outcomes.push(read_known(files, alloc, world, lost, SiteNo(number))?)?;
    }
    Ok(outcomes)
}

// What the logs of all sites stand for, in their order, where they aren't lost.
fn read_known_standings<R: ReadsFiles>(
    files: &R,
    alloc: Global,
    world: &WorldFolders,
    lost: &[SiteNo],
) -> Result<Vec<Option<Standing>>, Fault>
    ensures stand { IfOk result (λ standings. KnownAsRead (R.holds files.now)
        world.now.folders.items world.now.schema lost.now standings.items) }
{
    let outcomes = read_all_known(files, alloc, world, lost)?;
    match standings_or_fault(alloc, &world.schema, outcomes) {
        Ok(standings) => Ok(standings),
        Err(fault) => Err(logs_fault(alloc, world, fault)),
    }
}

// The schema of a world that goes on where the logs of all sites end.
fn settled_schema<R: ReadsFiles>(
    files: &R,
    alloc: Global,
    world: &WorldFolders,
) -> Result<Schema, Fault>
    ensures settled { IfOk result (SettlesAsRead (R.holds files.now) world.now.folders.items
        world.now.schema) }
{
    let standings = read_standings(files, alloc, world)?;
    match settle_standings(alloc, &world.schema, standings.as_slice()) {
        Ok(settled) => Ok(settled),
        Err(fault) => Err(logs_fault(alloc, world, fault)),
    }
}

/// The header line of a world that goes on where the logs of all sites end, without a line feed. The
/// fault is that of a log as `checked_states` tells it, `NotReadBack`, or want of memory.
pub fn settled_header<R: ReadsFiles>(
    files: &R,
    alloc: Global,
    world: &WorldFolders,
) -> Result<String, Fault>
    ensures header { IfOk result (λ header. WritesSettled (R.holds files.now)
        world.now.folders.items world.now.schema (string_bytes header)) }
{
    let settled = settled_schema(files, alloc, world)?;
    match write_header(alloc, &settled) {
        Ok(header) => Ok(header),
        Err(HeaderFault::NotReadBack) => Err(Fault::NotReadBack),
        Err(HeaderFault::NoMemory) => Err(Fault::NoMemory),
    }
}

/// Between which values each field lies by the logs that are there, all but those of the lost sites, in
/// units of the field. The fault is that of one of them as `checked_states` tells it.
pub fn ranges_of<R: ReadsFiles>(
    files: &R,
    alloc: Global,
    world: &WorldFolders,
    lost: &[SiteNo],
) -> Result<Vec<FieldRange>, Fault>
    ensures count { IfOk result (λ ranges. length ranges.items
        ≡ length world.now.schema.fields) }
    ensures bounds { IfOk result (λ ranges. BoundsAsRead (R.holds files.now)
        world.now.folders.items world.now.schema lost.now ranges.items) }
{
    let standings = read_known_standings(files, alloc, world, lost)?;
    match bound_standings(alloc, &world.schema, standings) {
        Ok(ranges) => Ok(ranges),
        Err(fault) => Err(logs_fault(alloc, world, fault)),
    }
}
