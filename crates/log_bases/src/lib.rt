//! A base is the summary record that a log begins with whose front was let go. Here it is decided
//! whether a base has a past, lawful records in front of it that nobody looks at and that it is the
//! summary of, and told what the base then stands for. It has one exactly where its numbers balance.
//!
//! Source: Balegas and others 2015 for the rights and the totals; this project for bases.
#![tactic(auto)]

mod balance;
mod laws;
mod standing;

pub use balance::is_balanced;
pub use laws::{balanced_bases_have_pasts, lawful_records_balance, pasts_answer_alike};
pub use standing::stand_on;
