//! The command `verify`: the log of a folder, with all parts that were kept of it.

use crate::linked::paths_of;
use folder_archives::{LogTotals, VerifyFault, verify_folder};
use folder_faults::Fault;
use world_folders::read_site;

// How much the log of a folder has in all, once it was verified.
fn totals_of(rt: &HostRuntime, folder: &str) -> Result<LogTotals, VerifyFault> {
    let paths = paths_of(rt, folder)?;
    let identity = read_site(rt, rt.alloc(), &paths)?;
    verify_folder(rt, rt.alloc(), &paths, &identity)
}

/// Verifies the log of a folder with all parts that were kept of it, and shows how many records and bytes
/// it has in all; or tells why not, and the status of that. They are read without its lock: the fault is
/// that of the first part, from the log back, that isn't there, isn't one of this site's log, is damaged,
/// or doesn't join with the next one.
pub(crate) fn verify(rt: &HostRuntime, folder: &str) -> Result<u8, Fault> {
    match totals_of(rt, folder) {
        Ok(totals) => match println!(rt; "verified {} {}", totals.records, totals.bytes) {
            Ok(()) => Ok(0),
            Err(_) => Err(Fault::Write),
        },
        Err(VerifyFault::Log(fault)) => Err(fault),
        Err(fault) => {
            let _ = eprintln!(rt; "escrow_site: {fault}");
            Ok(fault.status())
        }
    }
}
