//! What no clause says, tried over the public calls of `site_folder`, `held_logs`, `log_archives`,
//! `world_logs` and `trace_windows`: each has its module here.
#![tactic(auto)]

#[cfg(test)]
mod of_held_logs;
#[cfg(test)]
mod of_log_archives;
#[cfg(test)]
mod of_site_folder;
#[cfg(test)]
mod of_trace_windows;
#[cfg(test)]
mod of_world_logs;
