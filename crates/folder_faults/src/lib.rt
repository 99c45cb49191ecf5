//! Why a task on the folders of sites ends before it is done, in words that name the file and say what to
//! do, and the status that tells it.
#![tactic(auto)]

mod fault;

pub use fault::{
    Fault, Missing, Why, asked, device_fault, failed, header_words, not_closed, refused, unread,
    with_call,
};
