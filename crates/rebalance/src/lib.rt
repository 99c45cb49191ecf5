//! How sites share out what they hold: what one site spares for another, and the moves that make
//! the shares of all sites even.
//!
//! Source: Balegas and others 2015, where a site that lacks rights gets some from another; this
//! project for half a share, for the even plan, and for the proof that no plan moves less.
#![tactic(auto)]

mod even_plan;
mod spare;

pub use even_plan::{Move, plan_even};
pub use spare::spare_amount;
