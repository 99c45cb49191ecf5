//! Commands, replies and entries as text, both ways: each value has one text, and each text is of
//! at most one value.
//!
//! A text is words with one space between them. The first word of a command, a reply or a refusal
//! says which it is, and the arm of that word reads the words after it. The common commands and
//! replies are read off the front of a line's bytes, and what isn't known so is read by its words.
#![tactic(auto)]

mod append;
mod command;
mod entry;
mod front;
mod laws;
mod refusal;
mod reply;
mod spelling;
mod whole;
mod word;
mod writing;

pub use append::{append_entry, append_reply};
pub use command::read_command;
pub use entry::read_entry;
pub use laws::texts_are_lines;
pub use line_words::{read_number, read_signed};
pub use word::{
    Fields, expect, field_at, kind_at, number_at, read_field, read_kind, read_txn, signed_at,
    site_at,
};
pub use writing::{write_command, write_entry};

/// The most bytes of a line, without its line feed.
pub const MAX_LINE: usize = 256;
