//! A site's folder: where its files lie, and what they hold.

ghost use Rattle.std.specs.Prelude.{◌≡◌, IfOk, IfErr, string_bytes};
ghost use Rattle.site_folder.specs.Identity.{identity_text};
ghost use Rattle.world_folders.specs.Faults.{IsNoSite, IsUnread, TellsNoIdentity, TellsUnread};
ghost use Rattle.world_folders.specs.Folders.{ArePathsOf, path_in};
ghost use Rattle.world_folders.specs.Reading.{IsRead};

use crate::reading::{PathFault, ReadsFiles};
use folder_faults::{Fault, Missing, Why, failed, header_words, refused};
use site_folder::{Identity, IdentityFault, read_identity};
use std::alloc::{AllocError, Global};

/// The paths of a folder and of its files.
#[derive(Drop)]
pub struct Paths {
    pub folder: String,
    /// The folder in which it lies.
    pub above: String,
    pub log: String,
    pub site: String,
    pub trace: String,
    /// Where a trace is written before it is there.
    pub new_trace: String,
    /// A file that is there once the world of the site was settled.
    pub settled: String,
    /// A file that is there once a log was refused as an older one: it holds the mark that refused it.
    pub not_before: String,
}

// The path of a file in a folder.
fn path_in(alloc: Global, folder: &str, name: &str) -> Result<String, AllocError>
    ensures { IfOk result (λ path. string_bytes path ≡ path_in folder.now name.now) }
{
    let mut path = String::from_str(alloc, folder)?;
    path.push_str("/")?;
    path.push_str(name)?;
    Ok(path)
}

impl Paths {
    /// The paths of this folder and of its files. The error is want of memory.
    pub fn new(alloc: Global, folder: &str) -> Result<Paths, AllocError>
        ensures { IfOk result (ArePathsOf folder.now) }
    {
        Ok(Paths {
            folder: String::from_str(alloc, folder)?,
            above: path_in(alloc, folder, "..")?,
            log: path_in(alloc, folder, "log")?,
            site: path_in(alloc, folder, "site")?,
            trace: path_in(alloc, folder, "trace")?,
            new_trace: path_in(alloc, folder, "trace.new")?,
            settled: path_in(alloc, folder, "settled")?,
            not_before: path_in(alloc, folder, "not_before")?,
        })
    }
}

/// The fault that a file of a folder isn't read: it isn't there, what is named is no folder, or the
/// system can't.
pub fn read_fault(alloc: Global, path: &str, why: PathFault, missing: Missing) -> Fault
    ensures told { TellsUnread path.now missing why result }
{
    match why {
        PathFault::NotThere => refused(alloc, path, Why::from(missing)),
        PathFault::NoFolder => refused(alloc, path, Why::NoFolder),
        PathFault::Failed(error) => failed(alloc, path, error),
    }
}

/// The bytes of a file of the folder, or why it is refused where it isn't there, or what is named is no
/// folder. The fault is else that the system can't read it, or want of memory.
pub fn read_file<R: ReadsFiles>(
    files: &R,
    alloc: Global,
    path: &str,
    missing: Missing,
) -> Result<Vec<u8>, Fault>
    ensures read { IfOk result (λ bytes. IsRead (R.holds files.now) path.now bytes.items) }
    ensures unread { IfErr result (IsUnread (R.fails files.now) path.now missing) }
{
    match files.read(path) {
        Ok(bytes) => Ok(bytes),
        Err(why) => Err(read_fault(alloc, path, why, missing)),
    }
}

// The fault that a file is that of no identity.
fn identity_fault(alloc: Global, path: &str, fault: IdentityFault) -> Fault
    ensures told { TellsNoIdentity path.now fault result }
{
    match fault {
        IdentityFault::Version => refused(alloc, path, Why::OtherVersion),
        IdentityFault::NoIdentity | IdentityFault::Name => refused(alloc, path, Why::Damaged),
        IdentityFault::World => refused(alloc, path, Why::HeaderChanged),
        IdentityFault::Lines => refused(alloc, path, Why::ManyLines),
        IdentityFault::Header(fault) => {
            refused(alloc, path, Why::Header(fault, header_words(fault)))
        }
        IdentityFault::Number => refused(alloc, path, Why::OtherNumber),
        IdentityFault::NoMemory => Fault::NoMemory,
    }
}

/// Who the folder belongs to, by its file `site`. The fault is that it isn't there or can't be read, why
/// it is none, or want of memory.
pub fn read_site<R: ReadsFiles>(files: &R, alloc: Global, paths: &Paths) -> Result<Identity, Fault>
    ensures read { IfOk result (λ identity. IsRead (R.holds files.now)
        (string_bytes paths.now.site) (identity_text identity)) }
    ensures none { IfErr result (IsNoSite (R.fails files.now) (R.holds files.now)
        (string_bytes paths.now.site)) }
{
    let path = paths.site.as_str();
    let text = read_file(files, alloc, path, Missing::Site)?;
    match read_identity(alloc, text.as_slice()) {
        Ok(identity) => Ok(identity),
        Err(fault) => Err(identity_fault(alloc, path, fault)),
    }
}
