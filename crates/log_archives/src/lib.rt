//! The parts of a log that let go of its front and was kept each time as it was: whether each of them
//! goes on where the one before leaves off, so that together they are one lawful log, and whether
//! their heads tell rightly what is gone. The bytes are the caller's, as `read_held` found them.
//!
//! Source: Balegas and others 2015 for the rights and the totals; this project for parts and heads.
#![tactic(auto)]

mod fault;
mod finding;
mod joint;
mod laws;
mod reach;
mod survey;

pub use fault::JointFault;
pub use joint::check_joint;
pub use laws::{faults_spare_joined_parts, joined_parts_are_one_log, joints_go_on};
