//! What the logs of all sites come to, each by the bytes that were read of it.

ghost use Rattle.std.specs.Prelude.{◌≡◌, ◌<◌, IfOk, length};
ghost use Rattle.world_folders.specs.Logs.{AccountsFor, AreOutcomesRead, IsOutcomeRead, StandAsRead};

use crate::folder_log::{FolderReplay, bad_record, replay_folder};
use crate::reading::ReadsFiles;
use crate::worlds::WorldFolders;
use field_bounds::{FieldNo, Kind, Schema, SiteNo};
use folder_faults::{Fault, Why, refused};
use log_replay::{LogReplayed, Standing};
use std::alloc::Global;
use world_logs::{Excess, FieldState, WorldFault, check_standings, standings_or_fault};

/// What the log of a site came to: what it stands for, or the number of its first record that breaks
/// a rule.
pub(crate) fn read_outcome<R: ReadsFiles>(
    files: &R,
    alloc: Global,
    world: &WorldFolders,
    site: SiteNo,
) -> Result<Result<Standing, u64>, Fault>
    requires site_in { site.0 < world.now.schema.sites }
    ensures outcome { IfOk result (IsOutcomeRead (R.holds files.now) world.now.folders.items
        world.now.schema site.0) }
{
    let folder = world.named_folder(site)?;
    let paths = &folder.paths;
    files.tell_reading(paths.folder.as_str(), site, world.schema.sites());
    let identity = &folder.identity;
    let FolderReplay { came, .. } = replay_folder(
        files,
        alloc,
        paths,
        identity,
        &world.schema,
        site,
    )?;
    match came {
        LogReplayed::Standing { standing, .. } => Ok(Ok(standing)),
        LogReplayed::BadLine { number } => Err(bad_record(alloc, paths, number)),
        LogReplayed::BreaksRule { number } => Ok(Err(number)),
    }
}

// What the logs of all sites came to, in their order. A log that can't be read ends it, so that it is
// told before any rule.
fn read_outcomes<R: ReadsFiles>(
    files: &R,
    alloc: Global,
    world: &WorldFolders,
) -> Result<Vec<Result<Standing, u64>>, Fault>
    ensures outcomes { IfOk result (λ outcomes. AreOutcomesRead (R.holds files.now)
        world.now.folders.items world.now.schema outcomes.items) }
{
    let mut outcomes = Vec::new(alloc);
    for number in 0..world.schema.sites() {
        outcomes.push(read_outcome(files, alloc, world, SiteNo(number))?)?;
    }
    Ok(outcomes)
}

/// What the logs of all sites stand for, in their order: each by the bytes that were read of its own
/// log.
pub(crate) fn read_standings<R: ReadsFiles>(
    files: &R,
    alloc: Global,
    world: &WorldFolders,
) -> Result<Vec<Standing>, Fault>
    ensures stand { IfOk result (λ standings. StandAsRead (R.holds files.now)
        world.now.folders.items world.now.schema standings.items) }
{
    let outcomes = read_outcomes(files, alloc, world)?;
    match standings_or_fault(alloc, &world.schema, outcomes) {
        Ok(standings) => Ok(standings),
        Err(fault) => Err(logs_fault(alloc, world, fault)),
    }
}

// The name of a field.
fn name_of(schema: &Schema, field: FieldNo) -> &str {
    if field.0 < schema.fields() {
        schema.name(field)
    } else {
        ""
    }
}

fn kind_word(kind: Kind) -> &'static str {
    match kind {
        Kind::Lower => "lower",
        Kind::Raise => "raise",
    }
}

// The fault that a site accepted more than was given, as a fault of the log of the site that gave.
fn accepted_more(alloc: Global, world: &WorldFolders, excess: Excess) -> Fault {
    let Ok(field) = String::from_str(alloc, name_of(&world.schema, excess.field)) else {
        return Fault::NoMemory;
    };
    let why = Why::AcceptedMore {
        from: excess.from.0,
        to: excess.to.0,
        field,
        kind: kind_word(excess.kind),
        given: excess.given,
        accepted: excess.accepted,
    };
    match world.named_folder(excess.from) {
        Ok(folder) => refused(alloc, folder.paths.log.as_str(), why),
        Err(fault) => fault,
    }
}

/// Why the logs of a world are refused, as a fault at one of them.
pub(crate) fn logs_fault(alloc: Global, world: &WorldFolders, fault: WorldFault) -> Fault {
    match fault {
        WorldFault::BreaksRule { site, number } => match world.named_folder(site) {
            Ok(folder) => bad_record(alloc, &folder.paths, number),
            Err(fault) => fault,
        },
        WorldFault::AcceptedMore(excess) => accepted_more(alloc, world, excess),
        WorldFault::TooMuch { field } => {
            match String::from_str(alloc, name_of(&world.schema, field)) {
                Ok(name) => Fault::TooMuch(name),
                Err(_) => Fault::NoMemory,
            }
        }
        WorldFault::NoMemory => Fault::NoMemory,
    }
}

/// Where each field stands by the logs of all sites, which account for every right, in units of the
/// field. The fault tells the first log that can't be read, and then the first that breaks a rule or
/// doesn't go with the others. Reads each log once, without its lock.
pub fn checked_states<R: ReadsFiles>(
    files: &R,
    alloc: Global,
    world: &WorldFolders,
) -> Result<Vec<FieldState>, Fault>
    ensures count { IfOk result (λ states. length states.items
        ≡ length world.now.schema.fields) }
    ensures accounts { IfOk result (λ states. AccountsFor (R.holds files.now)
        world.now.folders.items world.now.schema states.items) }
{
    let standings = read_standings(files, alloc, world)?;
    match check_standings(alloc, &world.schema, standings.as_slice()) {
        Ok(states) => Ok(states),
        Err(fault) => Err(logs_fault(alloc, world, fault)),
    }
}
