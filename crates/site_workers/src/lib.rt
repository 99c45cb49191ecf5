//! Workers: each site at work on its own script, and couriers that take what one site states to the
//! other.
//!
//! Source: Balegas and others 2015 for sites that act alone on rights that they hold, and for
//! statements that may come at any later time; this project for workers and couriers.
#![tactic(auto)]

mod all_sites;
mod courier;
mod crossing;
mod fault;
mod fitting;
mod gathering;
pub mod inbox;
mod one_site;
mod post;
mod running;
mod site_fault;
mod statement_sets;

pub use all_sites::{run_sites, run_workers};
pub use courier::carry;
pub use fitting::scripts_fit;
pub use gathering::gather;
pub use inbox::{Inbox, Letter, Way};
pub use running::Answer;
pub use site_fault::SiteFault;
pub use work_faults::WorkFault;
