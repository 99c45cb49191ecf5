//! The head with which a file begins.

ghost use Rattle.std.specs.Prelude.{◌≡◌, Some, IfOk, IfErr, IfSome};
ghost use Rattle.site_folder.specs.Identity.{IdentityValue};
ghost use Rattle.log_head.specs.Heads.{IsKind, head_text};
ghost use Rattle.log_head.specs.declared.gone.HeadKind.TheVariants.{Plain as PlainKind};
ghost use Rattle.short_files.specs.Short.{AreGone, BeginsAs, IsRefusedFor, Refuses, head_of};
ghost use Rattle.short_files.specs.declared.fault.ShortFault.TheVariants.{Plain};

use crate::fault::ShortFault;
use file_medium::{LogFile, read_whole};
use kept_records::MediumFault;
use log_head::{Gone, HeadKind, read_head};
use site_folder::Identity;
use std::alloc::Global;

/// How many bytes of a file are looked at first: more than a head has that is written.
const FRONT: usize = 1_024;

/// The head of a log of version 2 or 3.
#[derive(Drop)]
pub(crate) struct FoundHead {
    /// What it tells to be gone, where it is of version 3.
    pub(crate) gone: Option<Gone>,
    /// Its bytes.
    pub(crate) name: Vec<u8>,
}

// What a head tells to be gone, where the log behind it is closed in batches.
fn gone_of(kind: HeadKind) -> Result<Option<Gone>, ShortFault>
    ensures head { IfOk result (λ gone. (v : IdentityValue) → head_text v kind ≡ head_of v gone) }
    ensures own { IfOk result (λ gone. IsKind kind → AreGone gone) }
    ensures plain { IfErr result (λ fault. (fault ≡ Plain) × (kind ≡ PlainKind)) }
{
    match kind {
        HeadKind::Plain => Err(ShortFault::Plain),
        HeadKind::Sealed => Ok(None),
        HeadKind::Shortened(gone) => Ok(Some(gone)),
    }
}

// The head with which these bytes begin.
fn head_in(alloc: Global, identity: &Identity, bytes: &[u8]) -> Result<FoundHead, ShortFault>
    ensures name { IfOk result (λ found. found.name.items ≡ head_of identity.now found.gone) }
    ensures own { IfOk result (λ found. AreGone found.gone) }
    ensures begins { IfOk result (λ found. BeginsAs identity.now (Some bytes.now) found.gone) }
    ensures refused { IfErr result (IsRefusedFor identity.now bytes.now) }
{
    let head = read_head(alloc, identity, bytes)?;
    let length = head.length;
    let gone = gone_of(head.kind)?;
    match Vec::from_slice(alloc, &bytes[..length]) {
        Ok(name) => Ok(FoundHead { gone, name }),
        Err(_) => Err(ShortFault::NoMemory),
    }
}

// The head of the file, found by one look at its first bytes, or None where they don't tell. The faults
// are `Device` and `NoMemory`.
fn head_at_once<F: LogFile>(
    alloc: Global,
    identity: &Identity,
    file: &mut F,
) -> Result<Option<FoundHead>, ShortFault>
    ensures name { IfOk result (λ look. IfSome look (λ found. found.name.items ≡ head_of identity.now found.gone)) }
    ensures own { IfOk result (λ look. IfSome look (λ found. AreGone found.gone)) }
    ensures begins { IfOk result (λ look. IfSome look (λ found. BeginsAs identity.now (F.bytes file.old) found.gone)) }
    ensures refused { IfErr result (Refuses identity.now (F.bytes file.old)) }
    ensures bytes { F.bytes file.new ≡ F.bytes file.old }
    ensures safe { F.safe file.new ≡ F.safe file.old }
    ensures least { F.least file.new ≡ F.least file.old }
{
    let mut front = [0u8; FRONT];
    let count = match file.read_at(0, front.as_mut_slice()) {
        Ok(count) => count,
        Err(_) => return Err(ShortFault::Device),
    };
    match head_in(alloc, identity, &front[..count]) {
        Ok(found) => Ok(Some(found)),
        Err(ShortFault::NoMemory) => Err(ShortFault::NoMemory),
        Err(_) => Ok(None),
    }
}

/// The head with which a file begins, where it is one of a log of version 2 or 3 of the site. The
/// faults are `Other`, `Changed`, `Plain`, `Device` and `NoMemory`. Costs a read of 1 KiB, and where
/// that doesn't tell a read of the file, with memory for it; and what `read_head` costs.
pub(crate) fn find_head<F: LogFile>(
    alloc: Global,
    identity: &Identity,
    file: &mut F,
) -> Result<FoundHead, ShortFault>
    ensures name { IfOk result (λ found. found.name.items ≡ head_of identity.now found.gone) }
    ensures own { IfOk result (λ found. AreGone found.gone) }
    ensures begins { IfOk result (λ found. BeginsAs identity.now (F.bytes file.old) found.gone) }
    ensures refused { IfErr result (Refuses identity.now (F.bytes file.old)) }
    ensures bytes { F.bytes file.new ≡ F.bytes file.old }
    ensures safe { F.safe file.new ≡ F.safe file.old }
    ensures least { F.least file.new ≡ F.least file.old }
{
    if let Some(found) = head_at_once(alloc, identity, file)? {
        return Ok(found);
    }
    match read_whole(alloc, file) {
        Ok(whole) => head_in(alloc, identity, whole.as_slice()),
        Err(MediumFault::Device) => Err(ShortFault::Device),
        Err(MediumFault::NoMemory) => Err(ShortFault::NoMemory),
    }
}
