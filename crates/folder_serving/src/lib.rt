//! A site served over the files of its folder: its log opened behind its head, how old it may be, the
//! first line that is written, and why the serving ended.
#![tactic(auto)]

mod failing;
mod opening;
mod serving;

pub use failing::{TellsSwap, short_fault, told_fault};
pub use opening::{gone_of, open_named, open_short};
pub use serving::{check_age, keep_streams, open_service, refuse_plain, serve_streams};
