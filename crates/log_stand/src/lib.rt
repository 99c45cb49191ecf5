//! How far a log has come: so that an older copy of it is told from the newest one.
#![tactic(auto)]

mod stand;

pub use stand::{Stand, stand_of};
