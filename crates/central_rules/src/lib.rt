//! The rules of one central store over any trace, and the verdict by them: whether entries are a
//! run of one store in which each reply was owed, else the first bad entry and the first rule that
//! it breaks. Nothing here shares a sum or a state with the sites.
//!
//! Source: O'Neil 1986 for the central store, Balegas and others 2015 for rights that are divided
//! among sites and transferred, this project for the rules and the verdict.
#![tactic(auto)]

mod afresh;
mod front;
mod here;
mod ladder;
mod laws;
mod plain;
mod same;
mod site_counts;
mod verdict;

pub use field_bounds::same_txn;
pub use front::{Bounds, bounds_of, has, lies_between};
pub use ladder::{AtPlace, fits};
pub use laws::{tests_are_rules, verdict_is_exact};
pub use plain::judge_plain;
pub use site_counts::SiteCounts;
pub use verdict::{Rule, Verdict};
