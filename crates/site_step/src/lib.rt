//! One site: it decides each command alone, by the rights that it holds, and keeps what it answered
//! on a medium, so that it stands the same after a stop.
#![tactic(auto)]

mod accounts;
mod extent;
mod front;
mod laws;
mod site;

pub use laws::{no_line_is_dropped, no_needless_cut_or_failure, nothing_in_doubt};
pub use site::{OpenFault, Shortening, Site};
