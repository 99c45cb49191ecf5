//! A world of sites: steps, and the one trace that they make. Each site decides alone, gifts come
//! late, twice or never, and sites stop inside appends; the trace is a run of one central escrow
//! store all the same.
//!
//! Source: O'Neil 1986 for the central store, Balegas and others 2015 for rights that are divided
//! among sites and transferred, this project for the world and the theorem.
#![tactic(auto)]

mod beside_trace;
mod laws;
mod rows;
mod run;
mod step;
mod stepping;
mod world;

pub use kept_state::Luck;
pub use laws::every_world_is_one_store;
pub use rows::{worked_worlds, wrong_outcomes, wrong_worlds};
pub use run::run_world;
pub use step::{StepReply, WorldStep, step_fits, steps_fit};
pub use world::World;
