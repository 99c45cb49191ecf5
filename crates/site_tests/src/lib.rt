//! What no clause says, tried over the public calls of `site_step`, also once a log was shortened,
//! and of `world_steps`: each has its module here.
#![tactic(auto)]

#[cfg(test)]
mod of_site_shortening;
#[cfg(test)]
mod of_site_step;
#[cfg(test)]
mod of_world_steps;
