//! Whose folder it is: the text that a site's folder holds beside its log, so that no site is served
//! over the log of another site, of another world, or of another version; and the names with which its
//! files begin.
#![tactic(auto)]

mod fault;
mod identity;
mod laws;
mod lines;
mod text;

pub use fault::IdentityFault;
pub use identity::Identity;
pub use laws::{names_tell_sites_apart, worlds_have_texts_of_their_own};
pub use text::{log_name, read_identity, sealed_log_name, trace_name, write_identity};
