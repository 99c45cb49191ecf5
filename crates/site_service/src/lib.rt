//! One site, served over lines of text, and a log in a file that follows the site's medium: no
//! answer is let out before the log holds its record and is safe.
#![tactic(auto)]

mod answering;
mod behind;
mod fault;
mod following;
mod kept;
mod key_answer;
mod keyed;
mod keys;
mod laws;
mod letting_go;
mod no_trace;
mod opening;
mod service;
mod telling;
mod txn_set;

pub use caller_keys::{Key, read_key};
pub use fault::ServeFault;
pub use key_answer::KeyAnswer;
pub use laws::stop_leaves_a_front;
pub use log_head::{CommitAnswer, Gone, Horizon};
pub use no_trace::NoTrace;
pub use request_lines::BadLine;
pub use script_input::{CallEnd, CallFailed, Sink, Source, Watched};
pub use service::Service;
pub use short_log::{PutFault, ShortLog};
pub use site_step::OpenFault;
