//! The steps, taken on the world itself, or told alone.

ghost use Rattle.std.specs.Prelude.{◌≡◌, ◌≢◌, [], All, IfOk, IfErr, OnOk, OnErr, None};
ghost use Rattle.world_steps.specs.World.{StepFits};
ghost use Rattle.world_steps.specs.View.{trace_of};
ghost use Rattle.reaching_steps.specs.Reach.{reach_fault, reach_steps};
ghost use Rattle.reaching_steps.specs.Body.{Explains, HasReached, Does, DoesWhereFit};
ghost use Rattle.reaching_steps.specs.Taken.{steps_of, with_steps, TookFront, AreAnswered};
ghost use Rattle.reaching_steps.specs.Told.{IsToldBy};
ghost use Rattle.reaching_steps.specs.Tight.{IsUnhindered, LiesWithin};
ghost use Rattle.reaching_steps.specs.declared.fault.ReachFault.TheVariants.{NoMemory};

use crate::fault::ReachFault;
use crate::site_table::table_of;
use crate::standing::FieldHoldings;
use crate::steps::reach_on;
use crate::taken::StepTaken;
use crate::trial::Trial;
use field_bounds::{FieldNo, SiteNo};
use std::alloc::{AllocError, Global};
use std::mem;
use world_steps::{World, WorldStep};

/// The steps, taken on a world that a trial holds meanwhile: another world stands in its place by
/// then.
fn reach_by(
    alloc: Global,
    world: &mut World,
    told: Vec<FieldHoldings>,
    stand_in: World,
    site: SiteNo,
    field: FieldNo,
    target: i64,
) -> Result<Vec<StepTaken>, ReachFault>
    requires told { IsToldBy world.old field.0 told.items }
    ensures clear { OnOk result (reach_fault world.old.schema (trace_of world.old) site field target
        ≡ None) }
    ensures fault { IfErr result (λ fault. Explains fault
        (reach_fault world.old.schema (trace_of world.old) site field target)) }
    ensures reached { IfOk result (λ taken. HasReached world.old site field target world.new
        taken.items) }
    ensures does { IfOk result (λ taken. DoesWhereFit world.old site field target
        (steps_of taken.items)) }
    ensures same { IfErr result (λ fault. fault ≢ NoMemory → world.new ≡ world.old) }
    ensures front { OnErr result (TookFront world.old
        (reach_steps world.old.schema world.old.steps site field target) world.new) }
{
    let mut trial = Trial::of(mem::replace(world, stand_in), told, field);
    let result = reach_on(alloc, &mut trial, site, field, target);
    *world = trial.into_world();
    result
}

/// A world of the same schema in which no step was taken. The error is want of memory.
fn stand_in(alloc: Global, world: &World) -> Result<World, AllocError>
    ensures fresh { IfOk result (λ other. other ≡ record { schema = world.now.schema; steps = [] }) }
{
    World::new(alloc, world.schema().copy()?)
}

/// The steps that `reach` answers, taken by the world itself, one after another: each is told by
/// the trace that there is by then, and answered with what it made (`steps`, `taken`, `answered`).
///
/// The fault is the first that holds, as `reach` answers it, or want of memory (`fault`); where
/// there are steps none holds (`clear`). The faults are looked for before any step is taken, so at
/// a fault the world is as it was (`same`). Where memory is wanting it may have taken the first of
/// the steps, and has lost nothing (`front`).
///
/// After the steps the named site is as it was, and the target is the committed value (`does`; a
/// world's steps fit, as `World::steps` tells). Where no fault but Outside stands in the way, each
/// value of the interval that the named site reads is such a target, unless memory is wanting
/// (`tight`).
///
/// Costs reading the trace once, and once for each site that moves the field; while it is read, for
/// each grant, commit and abort a look through the open transactions of its site, 64 at most, and for
/// each spare of the field in doubt that was kept, for each site what was given and accepted on the
/// field at the sparing one before it; taking the steps; opening a world of the schema; for each two
/// sites, what both gave and accepted on the field; and for each statement that is looked for all
/// that were issued. No step that the world has taken is taken again.
pub fn reach_in(
    alloc: Global,
    world: &mut World,
    site: SiteNo,
    field: FieldNo,
    target: i64,
) -> Result<Vec<StepTaken>, ReachFault>
    ensures clear { OnOk result (reach_fault world.old.schema (trace_of world.old) site field target
        ≡ None) }
    ensures fault { IfErr result (λ fault. Explains fault
        (reach_fault world.old.schema (trace_of world.old) site field target)) }
    ensures steps { IfOk result (λ taken. steps_of taken.items
        ≡ reach_steps world.old.schema world.old.steps site field target) }
    ensures taken { IfOk result (λ taken. world.new ≡ with_steps world.old
        (steps_of taken.items)) }
    ensures answered { IfOk result (λ taken. AreAnswered world.old taken.items) }
    ensures does { IfOk result (λ taken. DoesWhereFit world.old site field target
        (steps_of taken.items)) }
    ensures same { IfErr result (λ fault. fault ≢ NoMemory → world.new ≡ world.old) }
    ensures front { OnErr result (TookFront world.old
        (reach_steps world.old.schema world.old.steps site field target) world.new) }
    ensures tight { IfErr result (λ fault. IsUnhindered world.old.schema (trace_of world.old)
        site field → LiesWithin world.old.schema (trace_of world.old) site field target
        → fault ≡ NoMemory) }
{
    let Ok(told) = table_of(alloc, world, field) else {
        return Err(ReachFault::NoMemory);
    };
    let Ok(other) = stand_in(alloc, world) else {
        return Err(ReachFault::NoMemory);
    };
    reach_by(alloc, world, told, other, site, field, target)
}

/// A world of its own in which the steps of another were taken. The error is want of memory.
fn copy_of(alloc: Global, world: &World) -> Result<World, AllocError>
    ensures same { IfOk result (λ copied. copied ≡ world.now) }
    ensures fit { All (StepFits world.now.schema) world.now.steps }
{
    let steps = world.steps(alloc)?;
    let mut copied = stand_in(alloc, world)?;
    for step in &steps {
        copied.step(alloc, step)?;
    }
    Ok(copied)
}

/// The steps alone.
fn steps_alone(alloc: Global, taken: &[StepTaken]) -> Result<Vec<WorldStep>, AllocError>
    ensures steps { IfOk result (λ steps. steps.items ≡ steps_of taken.now) }
{
    let mut steps = Vec::new(alloc);
    for one in taken {
        steps.push(one.step)?;
    }
    Ok(steps)
}

/// The steps at other sites after which the committed value of a field is the target: told by the
/// steps that a world has taken, all with luck that is fine (`steps`). First the open transactions
/// of the other sites are aborted, in order of site and begin; then what the sites gave each other
/// on the field is taken in, told again where its statement was never issued; last, each site but
/// the named one moves the field as far towards the target as its share lets it. Where the target
/// is the committed value there are no steps.
///
/// The fault is the first that holds, in the order of `ReachFault`, or want of memory (`fault`),
/// and where there are steps none holds (`clear`).
///
/// Taken after the world's own steps, they leave the named site as it is, and the target is the
/// committed value (`does`). Where no fault but Outside stands in the way, every value from lo to hi
/// of the interval that the named site reads is such a target, unless memory is wanting (`tight`):
/// so an interval that leaves one out would be wrong in some run.
///
/// Thin over `reach_in`, for callers whose world is to stay as it is: the steps are taken in a world of
/// its own. Costs taking the world's steps once more, and what `reach_in` costs.
pub fn reach(
    alloc: Global,
    world: &World,
    site: SiteNo,
    field: FieldNo,
    target: i64,
) -> Result<Vec<WorldStep>, ReachFault>
    ensures clear { OnOk result (reach_fault world.now.schema (trace_of world.now) site field target
        ≡ None) }
    ensures fault { IfErr result (λ fault. Explains fault
        (reach_fault world.now.schema (trace_of world.now) site field target)) }
    ensures steps { IfOk result (λ taken. taken.items
        ≡ reach_steps world.now.schema world.now.steps site field target) }
    ensures does { IfOk result (λ taken. Does world.now site field target taken.items) }
    ensures tight { IfErr result (λ fault. IsUnhindered world.now.schema (trace_of world.now)
        site field → LiesWithin world.now.schema (trace_of world.now) site field target
        → fault ≡ NoMemory) }
{
    let Ok(mut copied) = copy_of(alloc, world) else {
        return Err(ReachFault::NoMemory);
    };
    let taken = reach_in(alloc, &mut copied, site, field, target)?;
    let Ok(steps) = steps_alone(alloc, &taken) else {
        return Err(ReachFault::NoMemory);
    };
    Ok(steps)
}
