//! What no clause says, tried over the public calls of `sealed_log`, `log_head` and `short_files`:
//! each has its module here.
#![tactic(auto)]

#[cfg(test)]
mod of_log_head;
#[cfg(test)]
mod of_sealed_log;
#[cfg(test)]
mod of_short_files;
