//! The judge of any trace: whether the entries of all sites are a run of one central store in which
//! each reply was owed, else the first bad entry and the first rule that it breaks.
//!
//! Source: O'Neil 1986 for the central store, Balegas and others 2015 for rights that are divided
//! among sites and transferred, this project for the rules and the verdict.
#![tactic(auto)]

mod amounts;
mod field_sums;
mod field_tests;
mod front_judge;
mod joined;
mod journal;
mod judging;
mod known;
mod ledger;
mod numbers;
mod owed;
mod part;
mod parts;
mod running;
mod site_totals;
mod spread;
mod statement_faults;
mod statements;
mod threads;
mod total_faults;
mod totals;

pub use central_rules::{Rule, Verdict, judge_plain, verdict_is_exact};
pub use front_judge::FrontJudge;
pub use judging::{judge, judge_counted};
pub use parts::judge_fields;
