//! What a file holds when it is opened.

ghost use Rattle.std.specs.Prelude.{◌≡◌, ◌≢◌, ◌≤◌, ◌⊎◌, false, true, length, IfOk, IfErr, OnOk};
ghost use Rattle.file_medium.specs.Copies.{IsCopyOf};
ghost use Rattle.file_medium.specs.Files.{SparesFront, cut_known};
ghost use Rattle.sealed_log.specs.declared.fault.SealFault.TheVariants.{Device, Ended};
ghost use Rattle.sealed_log.specs.Sealed.{Closes, IsUntouched, KeepsAll, LosesNothing, Refuses, SparesClosed};

use crate::fault::SealFault;
use file_medium::{FileFailed, LogFile, read_whole};
use kept_records::MediumFault;
use sealed_text::{TextFault, Unsealed, unseal};
use std::alloc::Global;

/// Cuts off what stands behind the closed batches, where something does, and makes that safe.
fn cut_torn<F: LogFile>(file: &mut F, text: &[u8], whole: usize) -> Result<(), FileFailed>
    requires copy { IsCopyOf (F.bytes file.old) text.now }
    requires safe { F.safe file.old ≡ F.bytes file.old }
    requires within { whole ≤ length text.now }
    ensures cut { OnOk result (F.bytes file.new ≡ cut_known whole (F.bytes file.old)) }
    ensures safe { OnOk result (F.safe file.new ≡ F.bytes file.new) }
    ensures kept { (F.safe file.new ≡ F.safe file.old)
        ⊎ (F.safe file.new ≡ cut_known whole (F.safe file.old)) }
    ensures least { SparesFront whole (F.least file.old) (F.least file.new) }
{
    if whole == text.len() {
        return Ok(());
    }
    file.cut(whole as u64)?;
    file.sync()
}

/// Refuses a world that was ended.
fn refuse_ended(is_ended: bool) -> Result<(), SealFault>
    ensures ok { OnOk result (is_ended ≡ false) }
    ensures err { IfErr result (λ fault. (fault ≡ Ended) × (is_ended ≡ true)) }
{
    if is_ended {
        return Err(SealFault::Ended);
    }
    Ok(())
}

/// Syncs a file, reads it whole, and cuts off what a stop has left behind its closed batches.
pub(crate) fn read_closed<F: LogFile>(alloc: Global, file: &mut F) -> Result<Unsealed, SealFault>
    ensures ok { IfOk result (λ u. Closes (F.bytes file.old) (F.bytes file.new) u.records.items) }
    ensures safe { OnOk result (F.safe file.new ≡ F.bytes file.new) }
    ensures err { IfErr result (Refuses (F.bytes file.old)) }
    ensures kept { LosesNothing (F.bytes file.old) (F.safe file.old) (F.safe file.new) }
    ensures safe_still { KeepsAll (F.safe file.old) (F.safe file.new) }
    ensures spared { SparesClosed (F.bytes file.old) (F.least file.old) (F.least file.new) }
    ensures untouched { IfErr result (λ fault. fault ≢ Device → IsUntouched (F.bytes file.old)
        (F.least file.old) (F.bytes file.new) (F.safe file.new) (F.least file.new)) }
{
    file.sync()?;
    let text = match read_whole(alloc, file) {
        Ok(text) => text,
        Err(MediumFault::Device) => return Err(SealFault::Device),
        Err(MediumFault::NoMemory) => return Err(SealFault::NoMemory),
    };
    let unsealed = match unseal(alloc, text.as_slice()) {
        Ok(unsealed) => unsealed,
        Err(TextFault::Damaged { line }) => return Err(SealFault::Damaged { line }),
        Err(TextFault::NoMemory) => return Err(SealFault::NoMemory),
    };
    match refuse_ended(unsealed.is_ended) {
        Ok(()) => {}
        Err(fault) => return Err(fault),
    }
    cut_torn(file, text.as_slice(), unsealed.whole)?;
    Ok(unsealed)
}
