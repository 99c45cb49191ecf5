//! Schemas, their field and their first transaction.

use field_bounds::{FieldNo, FieldSpec, Schema, TxnId};
use std::alloc::Global;

/// The one field.
pub const STOCK: FieldNo = FieldNo(0);

/// A field that there is not.
pub const NO_FIELD: FieldNo = FieldNo(1);

/// The first transaction of a site that wasn't restarted.
pub const FIRST: TxnId = TxnId {
    epoch: 0,
    number: 1,
};

/// Two sites, and one field from 0 to 100 at 40: each site begins with 20 rights to lower it and 30
/// to raise it. None where memory was refused.
pub fn stock_of_two(alloc: Global) -> Option<Schema> {
    let stock = FieldSpec {
        name: String::from_str(alloc, "stock").ok()?,
        floor: 0,
        ceiling: 100,
        value: 40,
    };
    Schema::new(alloc, 2, vec![in alloc; stock].ok()?).ok()
}

/// The schema of a header, where it has no fault and memory is ample.
pub fn schema_of(alloc: Global, header: &str) -> Option<Schema> {
    Schema::from_header(alloc, header.as_bytes()).ok()
}
