//! A site behind a pointer, for callers that aren't written in Rattle: they keep its log, and hold
//! the pointer.
#![tactic(auto)]

mod fault;
mod handle;
mod lines;
mod parts;
mod session;

pub use fault::{CallFault, OpeningFault};
pub use handle::Handle;
pub use session::{Opened, Session};
