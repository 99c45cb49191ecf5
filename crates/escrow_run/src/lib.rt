//! Scripts of a world's steps, read line by line and answered line by line, over any source and
//! sink.
#![tactic(auto)]

mod aim;
mod laws;
mod level;
mod line;
mod machine;
mod script;

pub use laws::one_text;
pub use script::run_script;
pub use script_input::{CallEnd, CallFailed, ScriptFault, Sink, Source, Watched};
