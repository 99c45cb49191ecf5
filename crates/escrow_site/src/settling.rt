//! The command `settle`.

ghost use Rattle.std.specs.Prelude.{◌≡◌, length};

use crate::closing::{LockedFolder, is_settled};
use crate::locking::lock_log;
use field_bounds::{FieldNo, Schema, SiteNo};
use folder_faults::Fault;
use sealed_log::end_all;
use site_tasks::Settling;
use std::alloc::{AllocError, Global};
use std::io;
use world_folders::{WorldFolders, check_mark, lost_sites, ranges_of, read_world, settled_header};
use world_logs::FieldRange;

// Refuses a log, but of those that are lost, that is older than the mark that its folder keeps: the new
// world would have once more what it sold since.
fn refuse_older(rt: &HostRuntime, world: &WorldFolders, lost: &[SiteNo]) -> Result<(), Fault> {
    for folder in world.folders.as_slice() {
        if !lost.contains(&folder.identity.number()) {
            check_mark(rt, rt.alloc(), &folder.paths, &folder.identity)?;
        }
    }
    Ok(())
}

// Settles the world by the logs of all sites.
fn settle_logs(rt: &HostRuntime, world: &WorldFolders) -> Result<(), Fault> {
    refuse_older(rt, world, &[])?;
    let header = settled_header(rt, rt.alloc(), world)?;
    match println!(rt; "{header}") {
        Ok(()) => Ok(()),
        Err(_) => Err(Fault::Write),
    }
}

// Shows between which values each field lies.
fn show_ranges(rt: &impl Print, schema: &Schema, ranges: &[FieldRange]) -> io::Result<()>
    requires count { length ranges.now ≡ length schema.now.fields }
{
    for number in 0..schema.fields() {
        let name = schema.name(FieldNo(number));
        let FieldRange { least, greatest } = ranges[usize::from(number)];
        println!(rt; "field {name} between {least} {greatest}")?;
    }
    Ok(())
}

// The numbers of sites, one space between them.
fn numbers_of(alloc: Global, sites: &[SiteNo]) -> Result<String, AllocError> {
    let mut numbers = String::new(alloc);
    for site in sites {
        if !numbers.is_empty() {
            numbers.push_str(" ")?;
        }
        let number = format!(in alloc; "{}", site.0)?;
        numbers.push_str(number.as_str())?;
    }
    Ok(numbers)
}

// Shows between which values each field lies by the logs that are there, and tells which are lost.
fn bound_logs(rt: &HostRuntime, world: &WorldFolders, lost: &[SiteNo]) -> Result<(), Fault> {
    refuse_older(rt, world, lost)?;
    let ranges = ranges_of(rt, rt.alloc(), world, lost)?;
    match show_ranges(rt, &world.schema, ranges.as_slice()) {
        Ok(()) => Err(Fault::LogsLost(numbers_of(rt.alloc(), lost)?)),
        Err(_) => Err(Fault::Write),
    }
}

// The folders of all sites, whose logs are locked as long as these live: so none is served meanwhile,
// nor was when they were locked.
fn lock_folders<'a>(
    rt: &'a HostRuntime,
    world: &'a WorldFolders,
) -> Result<Vec<LockedFolder<'a>>, Fault> {
    let mut locked = Vec::new(rt.alloc());
    for number in 0..world.schema.sites() {
        let folder = world.named_folder(SiteNo(number))?;
        let log = lock_log(rt, &folder.paths)?;
        locked.push(LockedFolder::new(rt, folder, log))?;
    }
    Ok(locked)
}

// Whether all folders were closed before.
fn are_settled(rt: &HostRuntime, world: &WorldFolders) -> Result<bool, Fault> {
    for number in 0..world.schema.sites() {
        let folder = world.named_folder(SiteNo(number))?;
        if !is_settled(rt, &folder.paths)? {
            return Ok(false);
        }
    }
    Ok(true)
}

// Settles a world no log of which is lost: where its header was written, its folders are closed, so that
// nothing of it is sold once more.
fn end_world(rt: &HostRuntime, world: &WorldFolders, how: Settling) -> Result<(), Fault> {
    if how.is_dry {
        return settle_logs(rt, world);
    }
    let mut locked = lock_folders(rt, world)?;
    if !how.is_again && are_settled(rt, world)? {
        return Err(Fault::AllSettled);
    }
    settle_logs(rt, world)?;
    end_all(locked.as_mut_slice())
}

/// Writes the header of a new world that goes on where the logs of all sites of a world end, and closes
/// their folders, whose logs it locks; or, where logs are lost, writes between which values each field
/// lies, and closes none.
pub(crate) fn settle(rt: &HostRuntime, folders: &[String], how: Settling) -> Result<(), Fault> {
    let world = read_world(rt, rt.alloc(), folders)?;
    let lost = lost_sites(rt, rt.alloc(), &world)?;
    if lost.is_empty() {
        end_world(rt, &world, how)
    } else {
        bound_logs(rt, &world, lost.as_slice())
    }
}
