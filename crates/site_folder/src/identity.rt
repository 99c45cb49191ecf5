//! Which site of which world.

ghost use Rattle.std.specs.Prelude.{◌≡◌, ◌<◌, ◌≤◌, ◌↔◌, None, Some, IfSome, IfNone, IfOk, IfErr, OnOk, IsTrue, option_map, string_bytes};
ghost use Rattle.sha2.specs.Sha256.{sha256};
ghost use Rattle.site_folder.specs.Identity.{IsOneLine, IsWorldName, IsNamed, IsIdentity, is_name_byte, line_then, world_text, world_digest, world_name};
ghost use Rattle.site_folder.specs.Reading.{Makes, MakesNone};

use crate::fault::IdentityFault;
use field_bounds::{Schema, SiteNo};
use memchr::memchr;
use sha2::{Digest, Sha256};
use std::alloc::{AllocError, Global};
use std::marker::Model;

/// One site of a world: its number, the name that the world has of its own, the header line that the
/// world began with, and the schema that this line tells. Contracts see all four. The header has no
/// line feed, and the number is one of its sites. A world with no name of its own is one of version
/// 1: its header alone names it.
#[derive(Drop)]
pub struct Identity {
    number: SiteNo,
    name: Option<Vec<u8>>,
    header: Vec<u8>,
    schema: Schema,
}

impl Model for Identity {
    ghost use Rattle.std.specs.Prelude.{option_map};
    ghost use Rattle.site_folder.specs.Identity.{IdentityValue, IsIdentity};

    ghost Value = { IdentityValue };

    ghost view = { λ i. record {
      number = i.number;
      name = option_map (λ name. name.items) i.name;
      header = i.header.items;
      schema = i.schema;
    } };

    ghost invariant = { λ i. IsIdentity (record {
      number = i.number;
      name = option_map (λ name. name.items) i.name;
      header = i.header.items;
      schema = i.schema;
    }) };
}

// The SHA-256 of a name and a header behind it.
fn named_hash(name: &[u8], header: &[u8]) -> [u8; 32]
    ensures hash { result ≡ sha256 (line_then name.now header.now) }
{
    let mut hasher = Sha256::new();
    hasher.update(name);
    hasher.update(b"\n");
    hasher.update(header);
    hasher.finalize()
}

// The SHA-256 of the text of a world.
fn world_hash(name: Option<&[u8]>, header: &[u8]) -> [u8; 32]
    ensures hash { result ≡ sha256 (world_text (option_map (λ n. n.now) name.entry) header.now) }
{
    match name {
        Some(name) => named_hash(name, header),
        None => Sha256::digest(header),
    }
}

/// The name of the world of a header, and of a name of its own where it has one: the SHA-256 of its
/// text, as 64 hexadecimal digits.
pub(crate) fn world_name(
    alloc: Global,
    name: Option<&[u8]>,
    header: &[u8],
) -> Result<String, AllocError>
    ensures name { IfOk result (λ text. string_bytes text ≡ world_digest (option_map (λ n. n.now) name.entry)
        header.now) }
{
    let digest = world_hash(name, header);
    hex::encode(alloc, &digest[..])
}

// Whether a world's own name can have the byte.
#[tactic(auto, unfolding(crate::specs::Identity::is_name_byte))]
fn is_name_byte(byte: u8) -> bool
    ensures { result ≡ is_name_byte byte }
{
    matches!(byte, b'a'..=b'z' | b'A'..=b'Z' | b'0'..=b'9' | b'.' | b'_' | b'-')
}

// Whether a world can have this name of its own.
fn is_world_name(name: &[u8]) -> bool
    ensures { IsTrue result ↔ IsWorldName name.now }
{
    1 <= name.len() && name.len() <= 64 && name.iter().all(|byte| is_name_byte(*byte))
}

// Refuses a name that no world can have.
fn check_name(name: Option<&[u8]>) -> Result<(), IdentityFault>
    ensures ok { OnOk result (IsNamed (option_map (λ n. n.now) name.entry)) }
    ensures err { IfErr result (λ fault. (fault ≡ IdentityFault.Name)
        × (IsNamed (option_map (λ n. n.now) name.entry) → ⊥)) }
{
    match name {
        Some(name) if !is_world_name(name) => Err(IdentityFault::Name),
        _ => Ok(()),
    }
}

// A copy of a name that is there.
fn copy_name(alloc: Global, name: Option<&[u8]>) -> Result<Option<Vec<u8>>, AllocError>
    ensures { IfOk result (λ copy. option_map (λ n. n.items) copy ≡ option_map (λ n. n.now) name.entry) }
{
    match name {
        Some(name) => Ok(Some(Vec::from_slice(alloc, name)?)),
        None => Ok(None),
    }
}

// Refuses a header that is more than one line.
fn check_line(header: &[u8]) -> Result<(), IdentityFault>
    ensures ok { OnOk result (IsOneLine header.now) }
    ensures err { IfErr result (λ fault. (fault ≡ IdentityFault.Lines)
        × (IsOneLine header.now → ⊥)) }
{
    match memchr(b'\n', header) {
        Some(_) => Err(IdentityFault::Lines),
        None => Ok(()),
    }
}

// The site of a number, where the schema has it.
fn site_of(schema: &Schema, number: u64) -> Option<SiteNo>
    ensures some { IfSome result (λ site. (site.0 ≡ number) × (site.0 < schema.now.sites)) }
    ensures none { IfNone result (schema.now.sites ≤ number) }
{
    if number < u64::from(schema.sites()) {
        Some(SiteNo(number as u16))
    } else {
        None
    }
}

impl Identity {
    /// The site of this number, in the world of this header and, where there is one, of this name.
    pub(crate) fn of_parts(
        alloc: Global,
        name: Option<&[u8]>,
        number: u64,
        header: &[u8],
    ) -> Result<Identity, IdentityFault>
        ensures ok { IfOk result (Makes (option_map (λ n. n.now) name.entry) number header.now) }
        ensures own { IfOk result IsIdentity }
        ensures err { IfErr result (MakesNone (option_map (λ n. n.now) name.entry) number header.now) }
    {
        check_name(name)?;
        check_line(header)?;
        let schema = Schema::from_header(alloc, header)?;
        let Some(site) = site_of(&schema, number) else {
            return Err(IdentityFault::Number);
        };
        Ok(Identity {
            number: site,
            name: copy_name(alloc, name)?,
            header: Vec::from_slice(alloc, header)?,
            schema,
        })
    }

    /// The site of this number, in the world of this header: one line of JSON without its line
    /// feed, at most 65,536 bytes long. The world has no name of its own: it is of version 1, and
    /// all worlds of this header are one.
    ///
    /// The fault is the first of these that holds: `Lines`, `Header`, `Number`. `NoMemory` can come
    /// in place of any answer. Costs a parse of the header, and memory for it and its schema.
    pub fn new(alloc: Global, number: u64, header: &[u8]) -> Result<Identity, IdentityFault>
        ensures ok { IfOk result (Makes None number header.now) }
        ensures own { IfOk result IsIdentity }
        ensures err { IfErr result (MakesNone None number header.now) }
    {
        Identity::of_parts(alloc, None, number, header)
    }

    /// The site of this number, in the world of this name, 1 to 64 of `a-z`, `A-Z`, `0-9`, `.`, `_`
    /// and `-`, and of this header: one line of JSON without its line feed, at most 65,536 bytes
    /// long. Worlds of one header and of different names are different worlds.
    ///
    /// The fault is the first of these that holds: `Name`, `Lines`, `Header`, `Number`. `NoMemory`
    /// can come in place of any answer. Costs a parse of the header, and memory for it, the name and
    /// the schema.
    pub fn named(
        alloc: Global,
        name: &[u8],
        number: u64,
        header: &[u8],
    ) -> Result<Identity, IdentityFault>
        ensures ok { IfOk result (Makes (Some name.now) number header.now) }
        ensures own { IfOk result IsIdentity }
        ensures err { IfErr result (MakesNone (Some name.now) number header.now) }
    {
        Identity::of_parts(alloc, Some(name), number, header)
    }

    /// The number of the site. Costs no memory.
    pub fn number(&self) -> SiteNo
        ensures value { result ≡ self.now.number }
        ensures in_schema { result.0 < self.now.schema.sites }
    {
        self.number
    }

    /// The header line of the world, without a line feed. Costs no memory.
    pub fn header(&self) -> &[u8]
        ensures value { result.now ≡ self.now.header }
        ensures own { IsIdentity self.now }
    {
        self.header.as_slice()
    }

    /// The name that the world has of its own, or None: a world of version 1 has none. Costs no
    /// memory.
    pub fn name(&self) -> Option<&[u8]>
        ensures value { option_map (λ name. name.now) result ≡ self.now.name }
        ensures own { IsIdentity self.now }
    {
        match &self.name {
            Some(name) => Some(name.as_slice()),
            None => None,
        }
    }

    /// The name of the world: the SHA-256 of its text, as 64 hexadecimal digits of lower case. The
    /// text is the header, behind the world's own name and a line feed where it has one; so
    /// `worlds_have_texts_of_their_own` says that each world has another text. The error is want of
    /// memory. Costs a pass over the text, and the memory of the name.
    pub fn world(&self, alloc: Global) -> Result<String, AllocError>
        ensures name { IfOk result (λ name. string_bytes name ≡ world_name self.now) }
    {
        world_name(alloc, self.name(), self.header.as_slice())
    }

    /// The schema that the header tells. Costs no memory.
    pub fn schema(&self) -> &Schema
        ensures value { result.now ≡ self.now.schema }
    {
        &self.schema
    }
}
