//! What the files of a site's folder hold behind their names: the records of a log, and what they come
//! to. The bytes of a file are the caller's, as it read them.
#![tactic(auto)]

mod beside;
mod fault;
mod first;
mod records;

pub use beside::{Apart, why_apart};
pub use fault::LogFault;
pub use first::replay_records;
pub use records::{Records, records_of_log, trace_text};
