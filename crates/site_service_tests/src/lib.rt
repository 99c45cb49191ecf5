//! What no clause says, tried over the public calls of `site_service`.
#![tactic(auto)]

#[cfg(test)]
mod tests;
