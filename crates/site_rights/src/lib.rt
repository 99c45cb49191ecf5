//! The rights of one site: for each field the free and the held ones of both kinds, and those that
//! it has given up for good.
//!
//! Source: Balegas and others 2015 for rights that a replica holds and spends; this project for the
//! two kinds side by side, for what a spent right turns into and for what is given up.
#![tactic(auto)]

mod field_rights;
mod rights;

pub use field_rights::{Amounts, FieldRights, Outcome, Short};
pub use rights::Rights;
