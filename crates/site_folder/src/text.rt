//! Identities as text.

ghost use Rattle.std.specs.Prelude.{◌≡◌, ◌≢◌, ◌++◌, ◌⊎◌, OnOk, IfOk, IfErr, MatchResult, option_map};
ghost use Rattle.site_folder.specs.Identity.{IdentityValue, IsIdentity, world_digest, version_line, name_behind, identity_text, file_name, log_name, sealed_log_name, trace_name};
ghost use Rattle.site_folder.specs.Reading.{IsRefused};

use crate::fault::IdentityFault;
use crate::identity::{Identity, world_name};
use crate::lines::{Told, read_lines};
use itoa::Buffer;
use sealed_text::sum_line;
use std::alloc::{AllocError, Global};

// The name of the format and its version: 1 for a world with no name of its own, else 2.
fn version_of(name: Option<&[u8]>) -> &'static [u8]
    ensures line { result.now ≡ version_line (option_map (λ n. n.now) name.entry) }
{
    match name {
        Some(_) => b"escrow site 2",
        None => b"escrow site 1",
    }
}

// Writes a line for a name that is there, behind its line feed.
fn push_name(text: &mut Vec<u8>, name: Option<&[u8]>) -> Result<(), AllocError>
    ensures line { OnOk result (text.new.items ≡ text.old.items ++ name_behind
        (option_map (λ n. n.now) name.entry)) }
{
    if let Some(name) = name {
        text.extend_from_slice(b"\nname ")?;
        text.extend_from_slice(name)?;
    }
    Ok(())
}

/// The text of an identity: four lines, or five where the world has a name of its own, each with a
/// line feed at its end. Each identity has one text, and no two have the same. The error is want of
/// memory. Costs the memory of the text.
pub fn write_identity(alloc: Global, identity: &Identity) -> Result<Vec<u8>, AllocError>
    ensures text { IfOk result (λ text. text.items ≡ identity_text identity.now) }
{
    let mut number = Buffer::new();
    let world = identity.world(alloc)?;
    let mut text = Vec::new(alloc);
    text.extend_from_slice(version_of(identity.name()))?;
    text.extend_from_slice(b"\nnumber ")?;
    text.extend_from_slice(number.format(identity.number().0).as_bytes())?;
    push_name(&mut text, identity.name())?;
    text.extend_from_slice(b"\nworld ")?;
    text.extend_from_slice(world.as_bytes())?;
    text.extend_from_slice(b"\n")?;
    text.extend_from_slice(identity.header())?;
    text.extend_from_slice(b"\n")?;
    Ok(text)
}

// The three lines with which a file of a site begins, of which the first is this version.
fn file_name(alloc: Global, version: &[u8], identity: &Identity) -> Result<Vec<u8>, AllocError>
    ensures name { IfOk result (λ name. name.items ≡ file_name version.now identity.now) }
{
    let mut number = Buffer::new();
    let world = identity.world(alloc)?;
    let mut name = Vec::new(alloc);
    name.extend_from_slice(version)?;
    name.extend_from_slice(b"\nnumber ")?;
    name.extend_from_slice(number.format(identity.number().0).as_bytes())?;
    name.extend_from_slice(b"\nworld ")?;
    name.extend_from_slice(world.as_bytes())?;
    name.extend_from_slice(b"\n")?;
    Ok(name)
}

/// The name with which a log of version 1 of a site begins: three lines, each with a line feed at its
/// end. No bytes begin with the names of two sites, as `names_tell_sites_apart` says. The error is want
/// of memory. Costs the memory of the name.
pub fn log_name(alloc: Global, identity: &Identity) -> Result<Vec<u8>, AllocError>
    ensures name { IfOk result (λ name. name.items ≡ log_name identity.now) }
{
    file_name(alloc, b"escrow log 1", identity)
}

/// The name with which a log of version 2 of a site begins: five lines, each with a line feed at its
/// end, the last of which tells the sum of the others. No bytes begin with the names of two sites, or
/// with that of a log of version 1 too, as `names_tell_sites_apart` says. The error is want of memory.
/// Costs a SHA-256 over the name, and its memory.
pub fn sealed_log_name(alloc: Global, identity: &Identity) -> Result<Vec<u8>, AllocError>
    ensures name { IfOk result (λ name. name.items ≡ sealed_log_name identity.now) }
{
    let mut name = file_name(alloc, b"escrow log 2", identity)?;
    name.extend_from_slice(b"head 0 0\n")?;
    let sum = sum_line(name.as_slice());
    name.extend_from_slice(&sum)?;
    Ok(name)
}

/// The name with which the trace of a site begins: three lines, each with a line feed at its end. No
/// bytes begin with the names of two sites, or with that of a log too, as `names_tell_sites_apart`
/// says. The error is want of memory. Costs the memory of the name.
pub fn trace_name(alloc: Global, identity: &Identity) -> Result<Vec<u8>, AllocError>
    ensures name { IfOk result (λ name. name.items ≡ trace_name identity.now) }
{
    file_name(alloc, b"escrow trace 1", identity)
}

// Refuses the name of a world that isn't that of its own name and its header.
fn check_world(alloc: Global, told: &Told<'_>) -> Result<(), IdentityFault>
    ensures ok { OnOk result (told.now.world.now ≡ world_digest (option_map (λ n. n.now) told.now.name)
        told.now.header.now) }
    ensures err { IfErr result (λ fault. (fault ≡ IdentityFault.NoMemory)
        ⊎ ((fault ≡ IdentityFault.World)
        × (told.now.world.now ≢ world_digest (option_map (λ n. n.now) told.now.name) told.now.header.now))) }
{
    let name = world_name(alloc, told.name, told.header)?;
    if told.world == name.as_bytes() {
        Ok(())
    } else {
        Err(IdentityFault::World)
    }
}

/// The identity whose text it is.
///
/// The fault is the first of these that holds: `Version`, another first line; `NoIdentity`, other
/// lines behind it than those of its version; `World`, the name of the world isn't that of its own
/// name and the header; `Name`, no world can have this name of its own; `Header`, the header tells no
/// schema; `Number`, no site of it has the number. `NoMemory` can come in place of any answer. Costs a
/// pass over the text, a parse of the header, and memory for it, the name and the schema.
pub fn read_identity(alloc: Global, text: &[u8]) -> Result<Identity, IdentityFault>
    ensures found { IfOk result (λ identity. text.now ≡ identity_text identity) }
    ensures only { (identity : IdentityValue) → IsIdentity identity
        → text.now ≡ identity_text identity
        → MatchResult result (λ read. read ≡ identity)
        (λ fault. fault ≡ IdentityFault.NoMemory) }
    ensures refused { IfErr result (IsRefused text.now) }
{
    let told = read_lines(text)?;
    check_world(alloc, &told)?;
    Identity::of_parts(alloc, told.name, told.number, told.header)
}
