//! The trace of a world whose steps are drawn.

use crate::dice::Dice;
use crate::drawn;
use field_bounds::{Entry, Schema, SiteNo};
use kept_state::Luck;
use std::alloc::{AllocError, Global};
use world_steps::{World, WorldStep, steps_fit};

fn luck(dice: &mut Dice) -> Luck {
    if dice.below(8) == 0 {
        Luck::Torn(dice.below(16))
    } else {
        Luck::Fine
    }
}

fn step(dice: &mut Dice) -> WorldStep {
    let luck = luck(dice);
    if dice.below(5) == 0 {
        return WorldStep::Deliver {
            k: dice.below(4) + 1,
            luck,
        };
    }
    WorldStep::Do {
        site: SiteNo(dice.small(3)),
        command: drawn::asked(dice),
        luck,
    }
}

/// Takes a step, if it fits.
fn take(alloc: Global, world: &mut World, step: WorldStep) -> Result<(), AllocError> {
    if !steps_fit(world.schema(), &[step]) {
        return Ok(());
    }
    world.step(alloc, &step)?;
    Ok(())
}

/// The trace of a new world after so many steps, of which those that don't fit are left out.
pub fn trace_of(
    alloc: Global,
    schema: Schema,
    steps: u64,
    dice: &mut Dice,
) -> Result<Vec<Entry>, AllocError> {
    let mut world = World::new(alloc, schema)?;
    for _step in 0..steps {
        take(alloc, &mut world, step(dice))?;
    }
    Vec::from_slice(alloc, world.trace())
}
