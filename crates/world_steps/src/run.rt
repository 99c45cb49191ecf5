//! Many steps at once.

ghost use Rattle.std.specs.Prelude.{◌≡◌, All, IfOk, reverse};
ghost use Rattle.field_bounds.specs.Central.{IsSound, IsCentral, IsConservedThroughout};
ghost use Rattle.world_steps.specs.World.{StepFits, trace_by};
ghost use Rattle.world_steps.specs.Promises.{IsBoundedThroughout, OutcomesAreBoundedThroughout, BoundsOnlyTighten, NoneStrange};

use crate::step::WorldStep;
use crate::world::World;
use field_bounds::{Entry, Schema};
use std::alloc::{AllocError, Global};

/// The one trace that these steps make, from sites over empty media, the oldest entry first: an
/// entry for each step, and none for a delivery of a number that no statement has.
///
/// Over every list of commands at every site, with gifts late, lost, repeated or reordered and
/// sites stopped inside any append, the trace is a run of one central escrow store: each escrow
/// granted is allowed by its infimum and supremum, each shortage names the site's true share, less
/// than was asked, and each interval read holds the committed value (`central`). In every front of
/// it rights are conserved (`conserved`) and each field's infimum and supremum lie within its
/// bounds (`bounded`): whichever of the open transactions are committed and whichever aborted, the
/// value of every field lies within its floor and ceiling (`outcomes`). No statement is refused as
/// another site's or as forged (`none_strange`).
///
/// A tightening that was answered is held to the same test as an escrow, and the bounds are those
/// of the trace so far: no later front loosens one (`tighter`).
///
/// The error is want of memory. Costs what each step costs.
///
/// Source: O'Neil 1986 for infimum, supremum and the test of a grant, Balegas and others 2015 for
/// rights that are divided among sites and transferred, this project for the theorem.
pub fn run_world(
    alloc: Global,
    schema: Schema,
    steps: &[WorldStep],
) -> Result<Vec<Entry>, AllocError>
    requires fit { All (StepFits schema) steps.now }
    ensures world { IfOk result (λ trace. reverse trace.items ≡ trace_by schema steps.now) }
    ensures sound { IfOk result (λ trace. IsSound schema (reverse trace.items)) }
    ensures central { IfOk result (λ trace. IsCentral schema (reverse trace.items)) }
    ensures conserved { IfOk result (λ trace. IsConservedThroughout schema (reverse trace.items)) }
    ensures bounded { IfOk result (λ trace. IsBoundedThroughout schema (reverse trace.items)) }
    ensures outcomes { IfOk result (λ trace. OutcomesAreBoundedThroughout schema
        (reverse trace.items)) }
    ensures tighter { IfOk result (λ trace. BoundsOnlyTighten schema (reverse trace.items)) }
    ensures none_strange { IfOk result (λ trace. NoneStrange (reverse trace.items)) }
{
    let mut world = World::new(alloc, schema)?;
    for step in steps {
        world.step(alloc, step)?;
    }
    Ok(world.into_trace())
}
