//! The open transactions of one site, each with the quantities that it has set aside.
//!
//! Source: O'Neil 1986, whose escrow journal keeps what open transactions have set aside, each
//! escrow by itself; this project for the limits of 64 transactions and 16 escrows of each.
#![tactic(auto)]

mod journal;

pub use journal::Journal;
