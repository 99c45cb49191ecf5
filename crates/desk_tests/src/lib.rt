//! What no clause says, tried over the public calls of `site_desk`, `site_workers` and
//! `reaching_steps`: each has its module here.
#![tactic(auto)]

#[cfg(test)]
mod of_reaching_steps;
#[cfg(test)]
mod of_site_desk;
#[cfg(test)]
mod of_site_workers;
