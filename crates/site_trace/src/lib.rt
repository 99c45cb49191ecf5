//! The trace that a served site keeps beside its log: all its answers, a line each, in order.
#![tactic(auto)]

mod cutting;
mod fault;
mod keeping;
mod laws;
mod line;
mod reading;
mod records;
mod remark;
mod split;

pub use cutting::{TraceEnd, trace_end, trace_end_at};
pub use fault::TraceFault;
pub use keeping::kept_entries;
pub use laws::{
    cut_trace_holds_its_entries, entries_tell_records_left, kept_entries_are_those_of_the_cut,
    trace_is_read_in_one_way,
};
pub use reading::{Trace, TracedEntry, read_trace};
