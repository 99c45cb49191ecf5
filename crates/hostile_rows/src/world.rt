//! Worked steps of a world of two sites: each expected reply is worked out by hand.

use super::refused::Refusals;
use check_kit::{STOCK, step, stock_of_two};
use field_bounds::{Reply, SiteNo};
use kept_state::Luck;
use std::alloc::{AllocError, Global};
use world_steps::{StepReply, World, WorldStep, steps_fit};

/// A step of a row, and the reply of its entry, or None where it makes none.
pub type Told = (WorldStep, Option<Reply>);

/// The rows, each with its name.
pub static ROWS: [(&str, &[Told]); 8] = [
    ("a commit", &COMMITTED),
    ("a gift", &PASSED_ON),
    ("a gift in doubt", &IN_DOUBT),
    ("a gift given back", &GIVEN_BACK),
    ("a torn commit", &TORN),
    ("tightenings", &TIGHTENINGS),
    ("a tightening in doubt", &TIGHTENED_IN_DOUBT),
    ("a torn tightening", &TORN_TIGHTENING),
];

const COMMITTED: [Told; 6] = [
    step!(0 begin -> begun 0.1),
    step!(0 escrow 0.1 stock -20 -> granted),
    step!(0 read stock -> between 20 70),
    step!(0 commit 0.1 -> committed),
    step!(0 share stock -> share 0 50),
    step!(0 read stock -> between 0 50),
];

const PASSED_ON: [Told; 6] = [
    step!(0 give 1 stock lower 5 -> given 5),
    step!(1 begin -> begun 0.1),
    step!(1 escrow 0.1 stock -25 -> refused 7 short 20),
    step!(deliver 1 -> accepted 5),
    step!(1 escrow 0.1 stock -25 -> granted),
    step!(deliver 1 -> accepted 0),
];

const IN_DOUBT: [Told; 5] = [
    step!(0 give 1 stock lower 5 torn 10 -> unsure),
    step!(deliver 1 -> refused 16 no statement),
    step!(0 restart -> restarted 1 kept),
    step!(0 restate 1 stock lower -> stated 5),
    step!(deliver 1 -> accepted 5),
];

const GIVEN_BACK: [Told; 5] = [
    step!(0 give 1 stock lower 5 -> given 5),
    step!(deliver 1 -> accepted 5),
    step!(1 give 0 stock lower 5 -> given 5),
    step!(deliver 2 -> accepted 5),
    step!(0 share stock -> share 20 30),
];

const TORN: [Told; 6] = [
    step!(0 begin -> begun 0.1),
    step!(0 escrow 0.1 stock -20 -> granted),
    step!(0 commit 0.1 torn 11 -> unsure),
    step!(0 read stock -> refused 1 down),
    step!(0 restart -> restarted 1 lost),
    step!(0 share stock -> share 20 30),
];

const TIGHTENINGS: [Told; 6] = [
    step!(0 tighten stock lower 5 -> tightened 5),
    step!(0 share stock -> share 15 30),
    step!(0 read stock -> between 20 70),
    step!(0 tighten stock lower 16 -> refused 7 short 15),
    step!(0 tighten stock raise 30 -> tightened 30),
    step!(0 read stock -> between 20 70),
];

/// The record, `T 0 l 5`, has 8 bytes with its line feed.
const TIGHTENED_IN_DOUBT: [Told; 3] = [
    step!(0 tighten stock lower 5 torn 8 -> unsure),
    step!(0 restart -> restarted 1 kept),
    step!(0 share stock -> share 15 30),
];

const TORN_TIGHTENING: [Told; 3] = [
    step!(0 tighten stock lower 5 torn 7 -> unsure),
    step!(0 restart -> restarted 1 lost),
    step!(0 share stock -> share 20 30),
];

/// A world in which no step was taken, of two tries.
pub fn fresh_world(alloc: Global, refusals: &mut Refusals) -> Option<World> {
    for _ in 0..2 {
        if let Some(schema) = stock_of_two(alloc)
            && let Ok(world) = World::new(alloc, schema)
        {
            return Some(world);
        }
        refusals.note();
    }
    None
}

/// The free rights at a site of the world's schema; None at a stranger.
pub fn share_at(world: &World, site: u16) -> Option<(u64, u64)> {
    if site >= world.schema().sites() {
        return None;
    }
    world.share(SiteNo(site), STOCK)
}

/// Whether both worlds show the same entries, statements and shares.
fn look_alike(world: &World, twin: &World) -> bool {
    world.trace() == twin.trace()
        && world.issued() == twin.issued()
        && share_at(world, 0) == share_at(twin, 0)
        && share_at(world, 1) == share_at(twin, 1)
}

/// Takes the step; None where it doesn't fit.
fn take_step(
    alloc: Global,
    world: &mut World,
    step: WorldStep,
) -> Option<Result<StepReply, AllocError>> {
    if !steps_fit(world.schema(), &[step]) {
        return None;
    }
    Some(world.step(alloc, &step))
}

/// The reply of the step's entry, of two tries: after one that was refused memory the world looks
/// like its twin, which hasn't taken the step. None where it doesn't.
fn reply_of(
    alloc: Global,
    world: &mut World,
    twin: &World,
    step: WorldStep,
    refusals: &mut Refusals,
) -> Option<Option<Reply>> {
    for _ in 0..2 {
        match take_step(alloc, world, step)? {
            Ok(StepReply::Made(entry)) => return Some(Some(entry.reply)),
            Ok(StepReply::NoStatement) => return Some(None),
            Err(AllocError) => refusals.note(),
        }
        if !look_alike(world, twin) {
            return None;
        }
    }
    None
}

/// Whether the twin takes the step too, of two tries.
pub fn follows(alloc: Global, twin: &mut World, step: WorldStep, refusals: &mut Refusals) -> bool {
    for _ in 0..2 {
        match take_step(alloc, twin, step) {
            None => return false,
            Some(Ok(_)) => return true,
            Some(Err(AllocError)) => refusals.note(),
        }
    }
    false
}

/// Whether the world replies to the step as told, and its twin takes it and then looks like it.
fn is_told(
    alloc: Global,
    world: &mut World,
    twin: &mut World,
    told: Told,
    refusals: &mut Refusals,
) -> bool {
    let (step, wanted) = told;
    reply_of(alloc, world, twin, step, refusals) == Some(wanted)
        && follows(alloc, twin, step, refusals)
        && look_alike(world, twin)
}

/// How many steps of the row are answered as told, from the first on, by the world and then by its
/// twin.
fn count_at(
    alloc: Global,
    world: &mut World,
    twin: &mut World,
    row: &[Told],
    refusals: &mut Refusals,
) -> usize {
    for (at, told) in row.iter().enumerate() {
        if !is_told(alloc, world, twin, *told, refusals) {
            return at;
        }
    }
    row.len()
}

/// The same, by a new world and a twin of it. None where one of them couldn't be made.
pub fn count_told(alloc: Global, row: &[Told], refusals: &mut Refusals) -> Option<usize> {
    let mut world = fresh_world(alloc, refusals)?;
    let mut twin = fresh_world(alloc, refusals)?;
    Some(count_at(alloc, &mut world, &mut twin, row, refusals))
}
