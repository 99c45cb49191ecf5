//! The interval that a site reads can't be narrower: each value in it is one that the committed
//! value can come to by steps at other sites alone, and here are the steps.
#![tactic(auto)]

mod counts;
mod fault;
mod faults;
mod laws;
mod numbering;
mod readers;
mod rights;
mod rows;
mod shares;
mod site_effects;
mod site_table;
mod standing;
mod steps;
mod taken;
mod taking;
mod totals;
mod trial;

pub use fault::ReachFault;
pub use laws::{no_narrower_interval_is_safe, reach_meets};
pub use rows::worked_reaches;
pub use taken::StepTaken;
pub use taking::{reach, reach_in};
