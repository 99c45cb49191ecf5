//! The verdict on the histories of many sites, which are woven and judged in one pass: no entry of the
//! woven trace is kept, and of each history only the next entry is looked at.
#![tactic(auto)]

mod fault;
mod histories;
mod judged;
mod judging;
mod laws;
mod listed;
mod turn;

pub use central_rules::{Rule, Verdict};
pub use escrow_audit::verdict_line;
pub use fault::{Unread, VerdictFault};
pub use histories::Histories;
pub use judging::{judge_histories, judge_woven};
pub use laws::woven_trace_is_one;
pub use listed::ListedHistories;
