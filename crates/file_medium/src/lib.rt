//! A medium over a file: what it holds is a copy in memory, and each change is made in the file
//! first. It is proved over every file that keeps the law of `LogFile`.
#![tactic(auto)]

mod copying;
mod host;
mod laws;
mod log_file;
mod medium;
mod memory_file;

pub use copying::{read_whole, write_front};
pub use host::{FileFault, HostFile, OpenLogFault, Opening, open_log};
pub use laws::what_no_cut_reached_stays_safe;
pub use log_file::{FileFailed, LogFile};
pub use medium::{Durability, FileMedium};
pub use memory_file::{FileCall, FileMishap, MemoryFile};
