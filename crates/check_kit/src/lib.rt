//! For the crates that test the store, and no product: the schema that their rows stand on, and
//! entries spelled as a trace spells them.
#![tactic(auto)]

mod meeting;
mod replies;
mod rows;
mod schemas;
mod texts;

pub use field_bounds::{
    Command, Entry, FieldNo, Kind, Last, Refusal, Reply, SiteNo, Statement, TxnId,
};
pub use meeting::{Meeting, comes};
pub use schemas::{FIRST, NO_FIELD, STOCK, schema_of, stock_of_two};
pub use texts::{STOCK_OF_THREE, STOCK_OF_TWO, add, joined, text_of_two};
