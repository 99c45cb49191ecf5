//! What no clause says, tried over the public calls of `caller_keys`, `site_rights`, `log_replay`,
//! `log_bases` and `site_trace`: each has its module here.
#![tactic(auto)]

#[cfg(test)]
mod of_caller_keys;
#[cfg(test)]
mod of_log_bases;
#[cfg(test)]
mod of_log_replay;
#[cfg(test)]
mod of_site_rights;
#[cfg(test)]
mod of_site_trace;
