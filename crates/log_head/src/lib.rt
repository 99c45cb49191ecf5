//! The head of a log of which the front was let go: how much that was, and up to which transaction its
//! commits may have been.
#![tactic(auto)]

mod fault;
mod gone;
mod horizon;
mod laws;
mod numbers;
mod reading;
mod writing;

pub use fault::HeadFault;
pub use gone::{Gone, Head, HeadKind};
pub use horizon::{CommitAnswer, Horizon};
pub use laws::{
    heads_tell_sites_apart, horizons_reach_further, kept_answers_are_right,
    one_head_tells_one_thing,
};
pub use reading::read_head;
pub use writing::write_head;
