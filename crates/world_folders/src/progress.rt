//! How far long work has come, for who looks on.

use field_bounds::SiteNo;
use std::io::IsTerminal;

/// Tells that the folder of a site is read, on standard error where that is a terminal. A write that
/// fails there changes nothing.
pub fn tell_reading(rt: &HostRuntime, folder: &str, site: SiteNo, sites: u16) {
    if rt.stderr().is_terminal() {
        let number = u32::from(site.0) + 1;
        let _ = eprintln!(rt; "escrow_site: reading {folder} ({number} of {sites})");
    }
}
