//! For the crates that test the text calls, and no product: readers, writers, sources and sinks that
//! trickle, break or refuse as told.
#![tactic(auto)]

mod readers;
mod sinks;
mod sources;
mod writers;

pub use readers::{Broken, InterruptedReader, Trickle, broken_behind, same_bytes};
pub use sinks::RefusingSink;
pub use sources::FailingSource;
pub use writers::{InterruptedWriter, Narrow};
