//! What no clause says, tried over the public calls of `central_machine`, `escrow_audit` and
//! `woven_verdict`: each has its module here.
#![tactic(auto)]

#[cfg(test)]
mod of_central_machine;
#[cfg(test)]
mod of_escrow_audit;
#[cfg(test)]
mod of_woven_verdict;
