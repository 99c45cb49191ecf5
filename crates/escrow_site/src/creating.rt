//! The command `create`.

use folder_faults::{Fault, Why, asked, failed, header_words, refused, unread};
use site_folder::{Identity, IdentityFault, sealed_log_name, write_identity};
use std::alloc::Global;
use std::fs::File;
use std::io::{ErrorKind, Write};
use std::{fs, io};
use world_folders::Paths;

// The header that a schema's file tells: its bytes, without one line feed at the end.
fn header_of(text: &[u8]) -> &[u8] {
    match text {
        [header @ .., b'\n'] => header,
        _ => text,
    }
}

// Why a header and a number make no site, as a fault of the schema's file.
fn schema_fault(alloc: Global, schema: &str, number: u64, fault: IdentityFault) -> Fault {
    let why = match fault {
        IdentityFault::Lines => Why::ManyLines,
        IdentityFault::Header(fault) => Why::Header(fault, header_words(fault)),
        IdentityFault::Number => Why::NoNumber(number),
        IdentityFault::Version | IdentityFault::NoIdentity | IdentityFault::World => Why::Damaged,
        IdentityFault::Name => return asked(alloc, "--name", Why::NoName),
        IdentityFault::NoMemory => return Fault::NoMemory,
    };
    asked(alloc, schema, why)
}

// The site of a number in the world of a schema's file and of this name.
fn read_schema(rt: &HostRuntime, schema: &str, number: u64, name: &str) -> Result<Identity, Fault> {
    let alloc = rt.alloc();
    let text = match fs::read(rt, schema) {
        Ok(text) => text,
        Err(error) => return Err(unread(alloc, schema, error)),
    };
    let header = header_of(text.as_slice());
    match Identity::named(alloc, name.as_bytes(), number, header) {
        Ok(identity) => Ok(identity),
        Err(fault) => Err(schema_fault(alloc, schema, number, fault)),
    }
}

// Makes the folder, which mustn't be there.
fn make_folder(rt: &HostRuntime, paths: &Paths) -> Result<(), Fault> {
    let folder = paths.folder.as_str();
    match fs::create_dir(rt, folder) {
        Ok(()) => Ok(()),
        Err(error) if error.kind() == ErrorKind::AlreadyExists => {
            Err(refused(rt.alloc(), folder, Why::FolderThere))
        }
        Err(error) => Err(failed(rt.alloc(), folder, error)),
    }
}

// Writes a new file, and makes it safe from a stop of the machine.
fn write_new(rt: &HostRuntime, path: &str, text: &[u8]) -> io::Result<()> {
    let mut file = File::create_new(rt, path)?;
    file.write_all(text)?;
    file.sync_all()
}

/// Writes a file of the folder, which isn't there, and makes it safe from a stop of the machine.
pub(crate) fn write_file(rt: &HostRuntime, path: &str, text: &[u8]) -> Result<(), Fault> {
    match write_new(rt, path, text) {
        Ok(()) => Ok(()),
        Err(error) => Err(failed(rt.alloc(), path, error)),
    }
}

// Writes the name of the log, and then, as the last of all, who the folder belongs to. The log is
// safe in its place before: so no stop leaves the one without the other.
fn write_files(rt: &HostRuntime, paths: &Paths, identity: &Identity) -> Result<(), Fault> {
    let alloc = rt.alloc();
    let name = sealed_log_name(alloc, identity)?;
    write_file(rt, paths.log.as_str(), name.as_slice())?;
    sync_path(rt, paths.folder.as_str())?;
    let text = write_identity(alloc, identity)?;
    write_file(rt, paths.site.as_str(), text.as_slice())
}

// Syncs what a file holds, or the names in a folder.
fn sync(rt: &HostRuntime, path: &str) -> io::Result<()> {
    File::open(rt, path)?.sync_all()
}

/// Makes what a file holds, or the names in a folder, safe from a stop of the machine.
pub(crate) fn sync_path(rt: &HostRuntime, path: &str) -> Result<(), Fault> {
    match sync(rt, path) {
        Ok(()) => Ok(()),
        Err(error) => Err(failed(rt.alloc(), path, error)),
    }
}

// Makes the folder's own name safe from a stop of the machine. Where the folder above may not be
// looked into, or is of a system that syncs none, somebody else made the folder, and saw to that.
fn sync_above(rt: &HostRuntime, paths: &Paths) -> Result<(), Fault> {
    let path = paths.above.as_str();
    match sync(rt, path) {
        Ok(()) => Ok(()),
        Err(error) => match error.kind() {
            ErrorKind::PermissionDenied | ErrorKind::InvalidInput => Ok(()),
            _ => Err(failed(rt.alloc(), path, error)),
        },
    }
}

/// Makes safe from a stop of the machine who a folder belongs to, and the folder's own name: a `create`
/// that was stopped may not have done so.
pub(crate) fn sync_site(rt: &HostRuntime, paths: &Paths) -> Result<(), Fault> {
    sync_path(rt, paths.site.as_str())?;
    sync_above(rt, paths)
}

// Makes a site's folder with its files, and makes them safe from a stop of the machine.
fn make_site(rt: &HostRuntime, paths: &Paths, identity: &Identity) -> Result<(), Fault> {
    make_folder(rt, paths)?;
    write_files(rt, paths, identity)?;
    sync_path(rt, paths.folder.as_str())?;
    sync_path(rt, paths.above.as_str())
}

/// Makes the folder of a site, with a log of no records, and makes it safe from a stop of the machine. A
/// fault may leave a part of it. Where no name is given nothing is read or made: worlds of one header
/// are told apart by their names alone.
pub(crate) fn create(
    rt: &HostRuntime,
    folder: &str,
    schema: &str,
    number: u64,
    name: &Option<String>,
) -> Result<(), Fault> {
    let Some(name) = name else {
        return Err(Fault::NoWorldName);
    };
    let identity = read_schema(rt, schema, number, name.as_str())?;
    let paths = Paths::new(rt.alloc(), folder)?;
    make_site(rt, &paths, &identity)
}
