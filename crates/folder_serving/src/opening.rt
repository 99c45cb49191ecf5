//! The log of a folder, opened to be added to: of version 1 behind its name, and of versions 2 and 3 in
//! batches that sums close.

ghost use Rattle.std.specs.Prelude.{◌≡◌, [], false, length, IfOk, IfErr, IfSome, IfNone};
ghost use Rattle.file_medium.specs.Files.{KeepsFront};
ghost use Rattle.named_log.specs.Names.{IsNot, Opens, behind, count_behind};
ghost use Rattle.short_files.specs.Short.{OpensShort, Refuses};

use file_medium::LogFile;
use folder_faults::{Fault, device_fault};
use log_head::{Gone, Horizon};
use named_log::{NameFault, NamedLog};
use short_files::{ShortFault, ShortFile};
use site_folder::Identity;
use std::alloc::{AllocError, Global};
use world_folders::Paths;

/// The log in a file that begins with this name, or None where it begins with other bytes.
pub fn open_named<F: LogFile + Drop>(
    alloc: Global,
    paths: &Paths,
    file: F,
    name: &[u8],
) -> Result<Option<NamedLog<F>>, Fault>
    ensures opens { IfOk result (λ told. IfSome told (Opens (F.bytes file) name.now)) }
    ensures other { IfOk result (λ told. IfNone told (IsNot (F.bytes file) name.now)) }
    ensures kept { IfOk result (λ told. IfSome told (λ log. KeepsFront
        (behind (length name.now) (F.safe file)) log.safe)) }
    ensures least { IfOk result (λ told. IfSome told (λ log. log.least
        ≡ count_behind (length name.now) (F.least file))) }
{
    match NamedLog::open(file, name) {
        Ok(log) => Ok(Some(log)),
        Err((NameFault::Other, _file)) => Ok(None),
        Err((NameFault::Device, _file)) => Err(device_fault(alloc, paths.log.as_str())),
    }
}

/// The log of closed batches of a site, in a file behind its head, or why the file is none. What a stop
/// left behind the batches is cut off. Costs what `ShortFile::open` does.
pub fn open_short<'a, F: LogFile + Drop>(
    alloc: Global,
    identity: &'a Identity,
    file: F,
) -> Result<ShortFile<'a, F>, ShortFault>
    ensures opens { IfOk result (OpensShort identity.now (F.bytes file)) }
    ensures identity { IfOk result (λ log. log.identity ≡ identity.now) }
    ensures safe { IfOk result (λ log. log.log.safe ≡ log.log.bytes) }
    ensures batch { IfOk result (λ log. log.log.batch ≡ []) }
    ensures sound { IfOk result (λ log. log.log.is_lost ≡ false) }
    ensures known { IfOk result (λ log. log.in_doubt ≡ false) }
    ensures going_on { IfOk result (λ log. log.log.is_ended ≡ false) }
    ensures refused { IfErr result (Refuses identity.now (F.bytes file)) }
{
    match ShortFile::open(alloc, identity, file) {
        Ok(log) => Ok(log),
        Err((fault, _file)) => Err(fault),
    }
}

// A copy of a horizon.
fn copy_horizon(alloc: Global, horizon: &Horizon) -> Result<Horizon, AllocError>
    ensures copy { IfOk result (λ copy. copy ≡ horizon.now) }
{
    let open_then = Vec::from_slice(alloc, horizon.open_then())?;
    match Horizon::new(horizon.epoch(), horizon.number(), open_then) {
        Some(copy) => Ok(copy),
        None => Err(AllocError),
    }
}

// A copy of what is told to be gone.
fn copy_gone(alloc: Global, gone: &Gone) -> Result<Gone, AllocError>
    ensures copy { IfOk result (λ copy. copy ≡ gone.now) }
{
    Ok(Gone {
        bytes: gone.bytes,
        records: gone.records,
        horizon: copy_horizon(alloc, &gone.horizon)?,
    })
}

/// What the head of a log tells to be gone, or None where nothing is. The error is want of memory. Costs
/// memory for the transactions that the head lists.
pub fn gone_of<F: LogFile>(
    alloc: Global,
    log: &ShortFile<'_, F>,
) -> Result<Option<Gone>, AllocError>
    ensures gone { IfOk result (λ gone. gone ≡ log.now.gone) }
{
    match log.gone() {
        Some(gone) => Ok(Some(copy_gone(alloc, gone)?)),
        None => Ok(None),
    }
}
