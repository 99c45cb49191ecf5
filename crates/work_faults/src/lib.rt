//! Why a run of workers gave no histories, and why receipts aren't those of a history.
//!
//! The types alone: what a fault tells of a site is said where it is answered. They stand below the
//! sites, so that a call which answers such a fault among others needs no site.
#![tactic(auto)]

mod receipts;
mod workers;

pub use receipts::ReceiptFault;
pub use workers::WorkFault;
