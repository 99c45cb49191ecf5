//! What the command line of the program `escrow_site` asks for, read by `clap`.
#![tactic(auto)]

mod command_line;
mod task;

pub use command_line::read_task;
pub use task::{Serving, Settling, Task};
