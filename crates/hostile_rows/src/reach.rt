//! A reach in a world of two sites: where memory is refused, the world has lived a front of what it
//! was to live, and the reach, tried again, takes what is left.

use super::refused::Refusals;
use super::world::{Told, follows, fresh_world, share_at};
use check_kit::{STOCK, step};
use field_bounds::{Entry, SiteNo};
use kept_state::Luck;
use reaching_steps::{ReachFault, reach_in};
use std::alloc::Global;
use world_steps::{World, WorldStep};

/// Two transactions stay open at site 1; then come the steps by which the stock is 20 for site 0.
static LIVED: [Told; 9] = [
    step!(1 begin -> begun 0.1),
    step!(1 escrow 0.1 stock -10 -> granted),
    step!(1 begin -> begun 0.2),
    step!(1 escrow 0.2 stock -5 -> granted),
    step!(1 abort 0.1 -> aborted),
    step!(1 abort 0.2 -> aborted),
    step!(1 begin -> begun 0.3),
    step!(1 escrow 0.3 stock -20 -> granted),
    step!(1 commit 0.3 -> committed),
];

/// How many of them come ahead of the reach.
const AHEAD: usize = 4;

/// Whether the entry is that of the step and its reply.
fn is_of(entry: &Entry, told: &Told) -> bool {
    match told.0 {
        WorldStep::Do { site, command, .. } => {
            site == entry.site && command == entry.command && told.1 == Some(entry.reply)
        }
        WorldStep::Deliver { .. } => false,
    }
}

/// Whether the world has lived the first of them, and no fewer than came ahead of the reach.
fn has_lived_a_front(world: &World) -> bool {
    let lived = world.trace();
    if lived.len() < AHEAD || lived.len() > LIVED.len() {
        return false;
    }
    for (entry, told) in lived.iter().zip(&LIVED) {
        if !is_of(entry, told) {
            return false;
        }
    }
    true
}

/// The world ahead of the reach. None where it couldn't be made.
fn opened(alloc: Global, refusals: &mut Refusals) -> Option<World> {
    let mut world = fresh_world(alloc, refusals)?;
    for (step, _) in &LIVED[..AHEAD] {
        if !follows(alloc, &mut world, *step, refusals) {
            return None;
        }
    }
    Some(world)
}

/// Whether the world reaches 20 of two tries.
fn is_reached(alloc: Global, world: &mut World, refusals: &mut Refusals) -> bool {
    for _ in 0..2 {
        match reach_in(alloc, world, SiteNo(0), STOCK, 20) {
            Ok(_) => return share_at(world, 1) == Some((0, 50)),
            Err(ReachFault::NoMemory) => refusals.note(),
            Err(_) => return false,
        }
        if !has_lived_a_front(world) {
            return false;
        }
    }
    false
}

/// Whether the reach is taken as told.
pub fn is_told(alloc: Global, refusals: &mut Refusals) -> bool {
    match opened(alloc, refusals) {
        Some(mut world) => is_reached(alloc, &mut world, refusals),
        None => false,
    }
}
