//! A log in a file that begins with a name: whose log it is. What stands behind the name is the log,
//! so that one log put in the place of another is refused by what it holds.
#![tactic(auto)]

mod named_log;
mod naming;

pub use named_log::{NameFault, NamedLog};
