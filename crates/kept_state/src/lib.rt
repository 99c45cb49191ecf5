//! What a site's history leaves on its medium, and what the records there stand for: the law that
//! ties the records kept to the sums over what took effect, and how an append goes.
#![tactic(auto)]

mod laws;
mod luck;
mod steps;
mod worked;

pub use laws::{lucky_replies_are_owed, records_stand};
pub use luck::Luck;
pub use steps::{doubt_is_settled, records_may_be_written, replies_leave};
pub use worked::{worked_luck, worked_records, wrong_records};
