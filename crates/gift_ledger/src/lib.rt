//! The gifts of one site: what it has given to each other site, and what it has accepted from each,
//! as totals that only grow.
//!
//! Source: Balegas and others 2015, whose transfers of rights are kept as entries that only grow
//! and merge by the greater; this project for a total by field and kind, and for its limit.
#![tactic(auto)]

mod account;
mod accounts;
mod ledger;

pub use account::{Account, FieldAccounts, LedgerFull};
pub use ledger::Ledger;
