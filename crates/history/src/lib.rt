//! Where a list goes that only grows at its end: kept for readers, or seen by proofs alone.
#![tactic(auto)]

mod ghost_history;
mod kept;
mod trait_history;
mod unkept;

pub use ghost_history::GhostHistory;
pub use trait_history::History;
pub use unkept::Unkept;
