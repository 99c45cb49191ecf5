//! A log's file that can let go of its front: what is asked of it, in one trait.
#![tactic(auto)]

mod short_log;

pub use file_swap::PutFault;
pub use short_log::ShortLog;
