//! What a log's file holds, of whatever version it is, for those who read it without its lock: its
//! records, what its head tells to be gone, and what all that comes to. The bytes of a file are the
//! caller's, as it read them.
//!
//! Source: Balegas and others 2015 for the rights and the totals; this project for files and bases.
#![tactic(auto)]

mod behind;
mod counting;
mod fault;
mod first_line;
mod laws;
mod reading;
mod replaying;

pub use counting::{count_held, stand_held};
pub use fault::HeldFault;
pub use laws::{
    held_standings_are_for_logs, named_lines_spare_lawful_logs,
    what_is_gone_counts_with_what_is_held,
};
pub use reading::{HeldLog, read_held};
pub use replaying::replay_held;
