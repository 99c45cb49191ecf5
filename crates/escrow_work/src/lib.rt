//! Scripts of all sites at work at the same time, over any reader and writer: plain commands in,
//! and out the one trace that is woven of what the sites made of them.
#![tactic(auto)]

mod dealing;
mod judged;
mod reading;
mod scripts;
mod text;
mod woven;

pub use script_input::{CallEnd, CallFailed, ScriptFault, Sink, Source, Watched, WorkFault};
pub use text::work_text;
