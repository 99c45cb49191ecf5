//! What no clause says, tried over the public calls of `escrow_run`.
#![tactic(auto)]

#[cfg(test)]
mod tests;
