//! What the logs of all sites of a world say together: whether they account for every right, and
//! where each field stands by them.
//!
//! Source: O'Neil 1986 for the committed value; Balegas and others 2015 for rights that are divided
//! among sites, and for totals given and accepted; this project for the law of all logs.
#![tactic(auto)]

mod check;
mod excess_search;
mod fault;
mod field_state;
mod header_text;
mod laws;
mod lost;
mod lost_sums;
mod outcomes;
mod settle;
mod site_sum;
mod standings;
mod sums;

pub use check::{check_standings, check_world};
pub use fault::{Excess, WorldFault};
pub use field_state::{FieldRange, FieldState};
pub use header_text::{HeaderFault, write_header};
pub use laws::{
    known_logs_bound_each_value, logs_account_for_all_rights, logs_tell_what_the_trace_does,
};
pub use lost::{bound_standings, bound_world};
pub use outcomes::standings_or_fault;
pub use settle::{settle_standings, settle_world};
