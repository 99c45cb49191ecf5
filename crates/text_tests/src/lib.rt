//! What no clause says, tried over the public calls of `field_bounds` and `entry_text`: each has
//! its module here.
#![tactic(auto)]

#[cfg(test)]
mod of_entry_text;
#[cfg(test)]
mod of_field_bounds;
