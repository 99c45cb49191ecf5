//! What a line of text is made of: words with one space between them, and numbers.
#![tactic(auto)]

mod first;
mod front;
mod number;
mod split;
mod words;

pub use first::{behind, first_number, first_signed, number_and};
pub use number::{read_dotted, read_number, read_signed};
pub use split::{is_text, split_line};
pub use words::Words;
