//! One trace out of the histories of many sites.
#![tactic(auto)]

mod fault;
mod laws;
mod order;
mod walk;
mod weaving;

pub use fault::WeaveFault;
pub use laws::{an_order_takes_each_next_entry, weaves_are_sound};
pub use order::weave_order;
pub use walk::{WovenEntries, upcoming};
pub use weaving::{may_stand, weave};
