//! The log of a site's folder, of version 2 or 3, in a file of which the front can be let go.
#![tactic(auto)]

mod copying;
mod fault;
mod finding;
mod short_file;

pub use fault::ShortFault;
pub use short_file::ShortFile;
