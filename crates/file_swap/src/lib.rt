//! A file that another takes the place of, whole and safe, in one moment: the steps are calls of a
//! trait, whose law says what each leaves, and their order is proved over every file that keeps it.
#![tactic(auto)]

mod headed;
mod host;
mod replaceable;
mod swapping;
mod two_files;

pub use headed::{HeadedLog, ReplaceableLog};
pub use host::{HostSwap, LogSyncs, SwapFault, SwapStep};
pub use replaceable::{PutFault, Replaceable};
pub use swapping::put_anew;
pub use two_files::{PutMishap, TwoFiles};
