//! The serving of a site over an input of lines: what one read brings is a batch, whose answers are
//! let out once the log holds their records and is safe. Between batches a log may let go of its
//! front.
#![tactic(auto)]

mod keeping;
mod serving;

pub use keeping::serve_keeping;
pub use serving::serve;
