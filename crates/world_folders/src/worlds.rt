//! The folders of the sites of one world.

ghost use Rattle.std.specs.Prelude.{◌≡◌, IfOk, IfErr, OnOk, MatchOption};
ghost use Rattle.world_folders.specs.Folders.{AreSiteFolders, GoesWith, HasNoFolder, IsFolderOf, IsSiteFolder, IsWorldOf};

use crate::folder::{Paths, read_site};
use crate::reading::ReadsFiles;
use field_bounds::{Schema, SiteNo};
use folder_faults::{Fault, Why, asked};
use folder_logs::{Apart, why_apart};
use site_folder::Identity;
use std::alloc::{AllocError, Global};

/// A site's folder, and whose it is.
#[derive(Drop)]
pub struct SiteFolder {
    pub paths: Paths,
    pub identity: Identity,
}

/// The folders of sites of one world, as they were named: no two of one site, and not of each site
/// one.
#[derive(Drop)]
pub struct WorldFolders {
    /// The name of the world.
    pub name: String,
    /// The header line of the world, without a line feed, and the schema that it tells.
    pub header: Vec<u8>,
    pub schema: Schema,
    /// The folders, in the order in which they were named.
    pub folders: Vec<SiteFolder>,
}

impl WorldFolders {
    /// The folder of a site, or None where none was named.
    pub fn folder(&self, site: SiteNo) -> Option<&SiteFolder>
        ensures own { MatchOption result (HasNoFolder self.now.folders.items site.0)
            (λ folder. IsFolderOf self.now.folders.items site.0 folder.now) }
    {
        for folder in &self.folders {
            if folder.identity.number() == site {
                return Some(folder);
            }
        }
        None
    }

    /// The folder of a site, which has to be named.
    pub fn named_folder(&self, site: SiteNo) -> Result<&SiteFolder, Fault>
        ensures own { IfOk result (λ folder. IsFolderOf self.now.folders.items site.0
            folder.now) }
        ensures none { IfErr result (λ fault. fault ≡ Fault.NoFolder site.0) }
        ensures lacks { IfErr result (λ _. HasNoFolder self.now.folders.items site.0) }
    {
        match self.folder(site) {
            Some(folder) => Ok(folder),
            None => Err(Fault::NoFolder(site.0)),
        }
    }
}

// Whose folder it is.
fn read_folder<R: ReadsFiles>(files: &R, alloc: Global, folder: &str) -> Result<SiteFolder, Fault>
    ensures read { IfOk result (IsSiteFolder (R.holds files.now) folder.now) }
{
    let paths = Paths::new(alloc, folder)?;
    let identity = read_site(files, alloc, &paths)?;
    Ok(SiteFolder { paths, identity })
}

// Why a folder doesn't go with another one, in words.
fn words_of(alloc: Global, apart: Apart, site: SiteNo, other: &str) -> Result<Why, AllocError> {
    let other = String::from_str(alloc, other)?;
    match apart {
        Apart::World => Ok(Why::OtherWorld(other)),
        Apart::Site => Ok(Why::SameSite(site.0, other)),
    }
}

// Refuses a folder of another world than those before it, or of the site of one of them.
fn check_beside(alloc: Global, before: &[SiteFolder], folder: &SiteFolder) -> Result<(), Fault>
    ensures beside { OnOk result (GoesWith before.now folder.now) }
{
    for other in before {
        if let Some(apart) = why_apart(&folder.identity, &other.identity) {
            let other = other.paths.folder.as_str();
            let why = words_of(alloc, apart, folder.identity.number(), other)?;
            return Err(asked(alloc, folder.paths.folder.as_str(), why));
        }
    }
    Ok(())
}

// The folders, each of which goes with those before it.
fn read_folders<R: ReadsFiles>(
    files: &R,
    alloc: Global,
    named: &[String],
) -> Result<Vec<SiteFolder>, Fault>
    ensures folders { IfOk result (λ folders. AreSiteFolders (R.holds files.now) named.now
        folders.items) }
{
    let mut folders = Vec::new(alloc);
    for name in named {
        let folder = read_folder(files, alloc, name.as_str())?;
        check_beside(alloc, folders.as_slice(), &folder)?;
        folders.push(folder)?;
    }
    Ok(folders)
}

/// The world of the folders that were named: refused where one is no site's folder, or not of the
/// world of those before it, or of the site of one of them. Which sites have no folder is for the
/// caller to ask. Reads no log, and takes no lock.
pub fn read_world<R: ReadsFiles>(
    files: &R,
    alloc: Global,
    named: &[String],
) -> Result<WorldFolders, Fault>
    ensures world { IfOk result (IsWorldOf (R.holds files.now) named.now) }
{
    let folders = read_folders(files, alloc, named)?;
    let Some(first) = folders.first() else {
        return Err(Fault::NoFolder(0));
    };
    Ok(WorldFolders {
        name: first.identity.world(alloc)?,
        header: Vec::from_slice(alloc, first.identity.header())?,
        schema: first.identity.schema().copy()?,
        folders,
    })
}
