//! What stands in a log's file.

ghost use Rattle.std.specs.Prelude.{◌≡◌, ◌+◌, ◌<◌, ◌^◌, IfOk, IfErr};
ghost use Rattle.sealed_text.specs.Seals.{IsRefused, lines_of};
ghost use Rattle.log_head.specs.Heads.{BeginsWith};
ghost use Rattle.log_head.specs.declared.gone.HeadKind.TheVariants.{Shortened};
ghost use Rattle.folder_logs.specs.Files.{IsDamagedLog, IsOtherLog, bytes_of};
ghost use Rattle.held_logs.specs.Held.{Holds, HoldsBatches, IsHeldFault};

use crate::fault::HeldFault;
use caller_keys::split_notes;
use folder_logs::{LogFault, Records, records_of_log};
use log_head::{Gone, Head, HeadKind, read_head};
use sealed_text::{TextFault, unseal};
use site_folder::{Identity, sealed_log_name};
use std::alloc::Global;

/// What the file of a log holds.
#[derive(Drop)]
pub struct HeldLog<'a> {
    /// What its head tells to be gone, of version 3; None of versions 1 and 2, where nothing is.
    pub gone: Option<Gone>,
    /// The records, without the lines that note callers' keys: all of the site's, where nothing is
    /// gone, and else those from the base on.
    pub records: Records<'a>,
}

// How many lines end in the bytes.
fn lines_of(bytes: &[u8]) -> u64
    ensures value { result ≡ lines_of bytes.now }
{
    bytes.iter().filter(|byte| **byte == b'\n').count() as u64
}

// The fault that a batch is damaged, which begins at this line behind a head.
fn damaged_behind(head: &[u8], line: u64) -> u64
    requires few { lines_of head.now + line < 2 ^ 64 }
    ensures value { result ≡ lines_of head.now + line }
{
    lines_of(head) + line
}

// The records in closed batches, without the notes of keys among them.
fn records_in(alloc: Global, text: &[u8]) -> Result<Vec<u8>, TextFault>
    ensures holds { IfOk result (λ records. HoldsBatches text.now records.items) }
    ensures refused { IfErr result (IsRefused text.now) }
{
    let unsealed = unseal(alloc, text)?;
    let (_, records) = split_notes(alloc, unsealed.records)?;
    Ok(records)
}

// What the file of a log holds of which the head, so long, tells this to be gone.
fn held_behind<'a>(
    alloc: Global,
    _identity: &Identity,
    bytes: &'a [u8],
    length: usize,
    gone: Gone,
) -> Result<HeldLog<'a>, HeldFault>
    requires begins { BeginsWith _identity.now bytes.now
        (record { kind = Shortened gone; length = length }) }
    ensures held { IfOk result (λ held. Holds _identity.now bytes.now held.gone
        (bytes_of held.records)) }
    ensures fault { IfErr result (IsHeldFault _identity.now bytes.now) }
{
    let (head, text) = bytes.split_at(length);
    match records_in(alloc, text) {
        Ok(records) => Ok(HeldLog {
            gone: Some(gone),
            records: Records::Taken(records),
        }),
        Err(TextFault::Damaged { line }) => Err(HeldFault::Damaged {
            line: damaged_behind(head, line),
        }),
        Err(TextFault::NoMemory) => Err(HeldFault::NoMemory),
    }
}

// What the file of a log of version 3 holds.
fn read_shortened<'a>(
    alloc: Global,
    identity: &Identity,
    bytes: &'a [u8],
) -> Result<HeldLog<'a>, HeldFault>
    requires other { IsOtherLog identity.now bytes.now }
    ensures held { IfOk result (λ held. Holds identity.now bytes.now held.gone
        (bytes_of held.records)) }
    ensures fault { IfErr result (IsHeldFault identity.now bytes.now) }
{
    let Head { kind, length } = read_head(alloc, identity, bytes)?;
    match kind {
        HeadKind::Shortened(gone) => held_behind(alloc, identity, bytes, length, gone),
        HeadKind::Plain | HeadKind::Sealed => unreachable!(),
    }
}

// The fault that a batch of a log of version 2 is damaged, which begins at this line behind its name.
fn damaged_sealed(alloc: Global, identity: &Identity, bytes: &[u8], line: u64) -> HeldFault
    requires damaged { IsDamagedLog identity.now bytes.now line }
    ensures fault { IsHeldFault identity.now bytes.now result }
{
    match sealed_log_name(alloc, identity) {
        Ok(name) => HeldFault::Damaged {
            line: damaged_behind(name.as_slice(), line),
        },
        Err(_) => HeldFault::NoMemory,
    }
}

/// What the file of a site's log holds. Of versions 1 and 2 that is what `records_of_log` answers, and
/// nothing is gone. Of version 3 it is what the head tells to be gone, and the records in the closed
/// batches behind it, the notes of callers' keys left out; whether they begin with a base is for
/// `replay_held` to tell.
///
/// The fault is `Other` where the bytes begin with the name of no log of this site, `Changed` where
/// they begin as its log of version 3 does and with no head of it, and `Damaged` where a batch of
/// version 2 or 3 is. `NoMemory` can come in place of any answer. Costs what `records_of_log` does; of
/// version 3 what `read_head` does too, three passes over the text, and memory of its length.
///
/// Source: this project.
pub fn read_held<'a>(
    alloc: Global,
    identity: &Identity,
    bytes: &'a [u8],
) -> Result<HeldLog<'a>, HeldFault>
    ensures held { IfOk result (λ held. Holds identity.now bytes.now held.gone
        (bytes_of held.records)) }
    ensures fault { IfErr result (IsHeldFault identity.now bytes.now) }
{
    match records_of_log(alloc, identity, bytes) {
        Ok(records) => Ok(HeldLog {
            gone: None,
            records,
        }),
        Err(LogFault::Other) => read_shortened(alloc, identity, bytes),
        Err(LogFault::Damaged { line }) => Err(damaged_sealed(alloc, identity, bytes, line)),
        Err(LogFault::NoMemory) => Err(HeldFault::NoMemory),
    }
}
