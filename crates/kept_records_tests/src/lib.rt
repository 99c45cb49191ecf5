//! What no clause says, tried over the public calls of `kept_records`.
#![tactic(auto)]

#[cfg(test)]
mod end_tests;
#[cfg(test)]
mod front_tests;
#[cfg(test)]
mod lent_tests;
#[cfg(test)]
mod tests;
#[cfg(test)]
mod told;
