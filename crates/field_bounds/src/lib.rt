//! Quantity fields with a floor, a ceiling and a value, the division of their rights among sites,
//! and the words in which sites are asked and answer.
#![tactic(auto)]

mod bounds;
mod effect;
mod effects;
mod entry;
mod fault;
mod field;
mod gift_rows;
mod header;
mod id;
mod kind;
mod laws;
mod limits;
mod macros;
mod restart_rows;
mod schema;
mod site_rows;
mod spare;
mod spelling;
mod statements;
mod tighten_rows;

pub use bounds::{lower_by, raise_by};
pub use effect::Effect;
pub use effects::{counts, effect_of, txn_ended, wanted_by};
pub use entry::{Command, Entry, Escrow, Last, Refusal, Reply, Statement};
pub use fault::SchemaFault;
pub use field::FieldSpec;
pub use gift_rows::{worked_flight, worked_gifts, wrong_gifts};
pub use id::{FieldNo, SiteNo, TxnId, is_up_to, same_txn};
pub use kind::Kind;
pub use laws::{
    bounds_never_loosen, one_central_store, outcomes_lie_between, restarts_settle, share_is_exact,
};
pub use limits::{MAX_CHANGE, MAX_EPOCH, MAX_ESCROWS, MAX_HEADER, MAX_NUMBER, MAX_OPEN, MAX_TOTAL};
pub use restart_rows::{worked_doubt, worked_restarts, wrong_restarts};
pub use schema::Schema;
pub use site_rows::{worked_runs, worked_sites, worked_values, wrong_replies, wrong_shares};
pub use spare::spared_amount;
pub use statements::{is_accept, may_issue, statement_of};
pub use tighten_rows::{worked_bounds, worked_tightenings, wrong_tightenings, wrong_traces};
