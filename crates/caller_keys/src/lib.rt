//! Keys of callers: the lines that note them in a log, beside its records, and the table that tells the last
//! transaction of each.
#![tactic(auto)]

mod key;
mod laws;
mod note;
mod reading;
mod split;
mod table;

pub use key::{Key, read_key};
pub use laws::{
    a_stop_leaves_a_front, keyed_texts_are_joined, notes_and_records_are_told_apart,
    notes_are_spelled_as_batches,
};
pub use note::push_note;
pub use split::{has_no_marks, split_notes};
pub use table::KeyTable;
