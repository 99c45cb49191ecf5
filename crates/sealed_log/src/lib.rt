//! A log in a file of batches, each of which a sum closes: what counts is what a sum closes, and
//! damage is seen by it. What stands above reads and writes records alone.
#![tactic(auto)]

mod adding;
mod ending;
mod fault;
mod opening;
mod reading;
mod sealed_log;

pub use ending::{Ends, end_all};
pub use fault::SealFault;
pub use sealed_log::SealedLog;
