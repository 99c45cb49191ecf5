//! What the records of a log stand for: a machine that takes them in one by one, from the parts of
//! the site on, and names the first that breaks a rule. A site that is up takes in by the same call
//! what it appends. What it comes to is told in a summary, and a log is taken in from its last
//! summary on as well as from its front, and there straight from its bytes too.
//!
//! Source: O'Neil 1986 for the committed escrows, whose sizes turn; Balegas and others 2015 for
//! totals given and accepted; this project for the rules of a log.
#![tactic(auto)]

mod after;
mod log;
mod log_bytes;
mod ranges;
mod resuming;
mod standing;
mod telling;

pub use after::summary_after;
pub use log::{Replayed, replay, take_next};
pub use log_bytes::{LogReplayed, replay_log};
pub use ranges::{summary_may_be_written, totals_rise};
pub use resuming::{Resumed, resume};
pub use standing::Standing;
