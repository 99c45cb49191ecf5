//! What the texts of the store are read by: sources and sinks, which tell how their calls ended,
//! the lines of an input with their limits, and the faults.
#![tactic(auto)]

mod fault;
mod reader;
mod streams;
mod watched;
mod window;

pub use fault::{ScriptFault, write_out};
pub use reader::{LineReader, NextLine};
pub use streams::{CallEnd, CallFailed, Sink, Source};
pub use watched::Watched;
pub use window::PIECE;
pub use work_faults::WorkFault;
