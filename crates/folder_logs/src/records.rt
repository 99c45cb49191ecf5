//! What stands in a file behind its name.

ghost use Rattle.std.specs.Prelude.{◌≡◌, ◌≢◌, ◌++◌, ℕ, List, IfOk, IfErr, MatchOption};
ghost use Rattle.site_folder.specs.Identity.{trace_name};
ghost use Rattle.folder_logs.specs.Files.{HasRecords, HoldsRecords, IsLogFault, bytes_of};

use crate::fault::LogFault;
use caller_keys::{has_no_marks, split_notes};
use sealed_text::unseal;
use site_folder::{Identity, log_name, sealed_log_name, trace_name};
use std::alloc::{AllocError, Global};

/// The records of a log, without the lines that note callers' keys.
#[derive(Drop)]
pub enum Records<'a> {
    /// Those of version 1, as they stand in the file, where no key is noted among them.
    Plain(&'a [u8]),
    /// Those of version 2 that sums close, and those of version 1 where keys are noted.
    Taken(Vec<u8>),
}

impl Records<'_> {
    /// The bytes of the records, one behind another. Costs no memory.
    pub fn as_slice(&self) -> &[u8]
        ensures bytes { result.now ≡ bytes_of self.now }
    {
        match self {
            Records::Plain(records) => records,
            Records::Taken(records) => records.as_slice(),
        }
    }
}

// What stands behind a name, or None where the bytes don't begin with it.
fn behind<'a>(bytes: &'a [u8], name: &[u8]) -> Option<&'a [u8]>
    ensures rest { MatchOption result ((rest : List ℕ) → bytes.now ≢ name.now ++ rest)
        (λ rest. bytes.now ≡ name.now ++ rest.now) }
{
    bytes.strip_prefix(name)
}

// The records of a text, without the notes of keys among them.
fn without_notes(alloc: Global, text: Vec<u8>) -> Result<Vec<u8>, AllocError>
    ensures has { IfOk result (λ records. HasRecords text.items records.items) }
{
    let (_, records) = split_notes(alloc, text)?;
    Ok(records)
}

// The same of a text that stands in the file, and is taken as it is where no key is noted.
fn records_of(alloc: Global, text: &[u8]) -> Result<Records<'_>, AllocError>
    ensures has { IfOk result (λ records. HasRecords text.now (bytes_of records)) }
{
    if has_no_marks(text) {
        return Ok(Records::Plain(text));
    }
    let copy = Vec::from_slice(alloc, text)?;
    Ok(Records::Taken(without_notes(alloc, copy)?))
}

/// The records of a log's file, behind its name, which tells its version. Those of version 2 stand in
/// its closed batches; those of version 1 in all that stands behind the name. Lines that note callers'
/// keys are left out.
///
/// The fault is `Other` where the bytes begin with the name of no log of this site, and `Damaged`
/// where a batch of version 2 is. `NoMemory` can come in place of any answer. Costs a SHA-256 over the
/// world's header, and of version 2 three passes over the text and memory of its length; so too of
/// version 1 where keys are noted, and else one pass.
pub fn records_of_log<'a>(
    alloc: Global,
    identity: &Identity,
    bytes: &'a [u8],
) -> Result<Records<'a>, LogFault>
    ensures held { IfOk result (λ records. HoldsRecords identity.now bytes.now
        (bytes_of records)) }
    ensures fault { IfErr result (IsLogFault identity.now bytes.now) }
{
    let name = sealed_log_name(alloc, identity)?;
    if let Some(text) = behind(bytes, name.as_slice()) {
        let unsealed = unseal(alloc, text)?;
        return Ok(Records::Taken(without_notes(alloc, unsealed.records)?));
    }
    let name = log_name(alloc, identity)?;
    match behind(bytes, name.as_slice()) {
        Some(text) => Ok(records_of(alloc, text)?),
        None => Err(LogFault::Other),
    }
}

/// The text of a trace's file, behind its name, or None where the bytes don't begin with the name of
/// the site's trace. The error is want of memory. Costs a SHA-256 over the world's header.
pub fn trace_text<'a>(
    alloc: Global,
    identity: &Identity,
    bytes: &'a [u8],
) -> Result<Option<&'a [u8]>, AllocError>
    ensures text { IfOk result (λ told. MatchOption told
        ((rest : List ℕ) → bytes.now ≢ trace_name identity.now ++ rest)
        (λ text. bytes.now ≡ trace_name identity.now ++ text.now)) }
{
    let name = trace_name(alloc, identity)?;
    Ok(behind(bytes, name.as_slice()))
}
