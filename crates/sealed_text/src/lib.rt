//! The text of a log that sums close: batches of records, each with a line behind it that tells its
//! sum, so that damage is seen, and a stop in the midst of a batch is told from damage.
#![tactic(auto)]

mod batch;
mod fault;
mod laws;
mod reading;
mod rest;

pub use batch::{end_batch, is_batch, sum_line};
pub use fault::TextFault;
pub use laws::{a_changed_byte_is_damage, a_stop_leaves_a_front, no_two_lists_have_one_text};
pub use reading::{Unsealed, unseal};
