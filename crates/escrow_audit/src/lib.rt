//! The audit of a run's output, over any source and sink: whether its entries are a run of one
//! central store.
#![tactic(auto)]

mod answer;
mod laws;
mod reading;
mod remark;
mod taking;

pub use answer::{AuditEnd, audit_text, rule_word, verdict_line};
pub use laws::one_answer;
pub use script_input::{CallEnd, CallFailed, ScriptFault, Sink, Source, Watched};
