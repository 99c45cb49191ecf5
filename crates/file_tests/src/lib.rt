//! What no clause says, tried over the public calls of `file_medium`, `file_swap` and `named_log`:
//! each has its module here.
#![tactic(auto)]

#[cfg(test)]
mod of_file_medium;
#[cfg(test)]
mod of_file_swap;
#[cfg(test)]
mod of_named_log;
