//! Sets of statements: which statements some sites issued, or accepted.
#![tactic(auto)]

mod row;
mod rows;
mod set;

pub use set::StatementSet;
