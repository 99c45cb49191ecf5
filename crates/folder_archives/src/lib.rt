//! The whole log of a site's folder, verified with all parts that were kept of it while it let go
//! of its front. Files are read over the trait `ReadsFiles`; none is opened or locked here.
//!
//! Source: this project.
#![tactic(auto)]

mod beginning;
mod fault;
mod verifying;

pub use beginning::part_path;
pub use fault::{PartWhy, VerifyFault};
pub use verifying::{LogTotals, verify_folder};
