//! What a client's line asks of a site, and how it is answered where it asks nothing.
#![tactic(auto)]

mod asking;
mod bad_line;
mod line_fault;

pub use asking::{KeyedCommit, Request, asked};
pub use bad_line::{BadLine, add_bad};
