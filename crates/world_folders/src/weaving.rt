//! The entries of all sites of a world, by the traces that were read of them.

ghost use Rattle.std.specs.Prelude.{◌≤◌, IfOk, length};
ghost use Rattle.world_folders.specs.Traces.{AreHistoriesRead};

use crate::reading::ReadsFiles;
use crate::tracing::read_kept_entries;
use crate::worlds::WorldFolders;
use field_bounds::{Entry, SiteNo};
use folder_faults::Fault;
use std::alloc::Global;

/// The entries of all sites that their logs have the records of, in the order of the sites. The fault
/// is that of the first log or trace that is refused or can't be read. Holds all entries in memory.
pub fn read_histories<R: ReadsFiles>(
    files: &R,
    alloc: Global,
    world: &WorldFolders,
) -> Result<Vec<Vec<Entry>>, Fault>
    ensures few { IfOk result (λ histories. length histories.items ≤ 65535) }
    ensures read { IfOk result (λ histories. AreHistoriesRead (R.holds files.now)
        world.now.folders.items world.now.schema histories.items) }
{
    let mut histories = Vec::new(alloc);
    for number in 0..world.schema.sites() {
        let site = SiteNo(number);
        let folder = world.named_folder(site)?;
        files.tell_reading(folder.paths.folder.as_str(), site, world.schema.sites());
        let entries = read_kept_entries(files, alloc, &folder.paths, &folder.identity)?;
        histories.push(entries)?;
    }
    Ok(histories)
}
