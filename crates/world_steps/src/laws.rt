//! The law of worlds, as the contract of a function that does nothing.

ghost use Rattle.std.specs.Prelude.{All, List};
ghost use Rattle.field_bounds.specs.Schema.{SchemaValue};
ghost use Rattle.field_bounds.specs.Limits.{IsSchema};
ghost use Rattle.field_bounds.specs.Central.{IsSound, IsCentral, IsConservedThroughout};
ghost use Rattle.world_steps.specs.declared.step.WorldStep.{WorldStep};
ghost use Rattle.world_steps.specs.World.{StepFits, trace_by};
ghost use Rattle.world_steps.specs.Promises.{IsBoundedThroughout, OutcomesAreBoundedThroughout, BoundsOnlyTighten, NoneStrange};

/// The trace of every list of steps that a world takes is a run of one central store, whatever the
/// luck of each step: for callers that hold steps and traces as definitions alone. The clauses are
/// those of `World::trace`.
///
/// Source: O'Neil 1986 for infimum, supremum and the test of a grant, Balegas and others 2015 for
/// rights that are divided among sites and transferred, this project for the theorem.
pub fn every_world_is_one_store()
    ensures sound { (schema : SchemaValue) (steps : List WorldStep) →
        IsSchema schema → All (StepFits schema) steps → IsSound schema (trace_by schema steps) }
    ensures central { (schema : SchemaValue) (steps : List WorldStep) →
        IsSchema schema → All (StepFits schema) steps → IsCentral schema (trace_by schema steps) }
    ensures conserved { (schema : SchemaValue) (steps : List WorldStep) →
        IsSchema schema → All (StepFits schema) steps
        → IsConservedThroughout schema (trace_by schema steps) }
    ensures bounded { (schema : SchemaValue) (steps : List WorldStep) →
        IsSchema schema → All (StepFits schema) steps
        → IsBoundedThroughout schema (trace_by schema steps) }
    ensures outcomes { (schema : SchemaValue) (steps : List WorldStep) →
        IsSchema schema → All (StepFits schema) steps
        → OutcomesAreBoundedThroughout schema (trace_by schema steps) }
    ensures tighter { (schema : SchemaValue) (steps : List WorldStep) →
        IsSchema schema → All (StepFits schema) steps
        → BoundsOnlyTighten schema (trace_by schema steps) }
    ensures none_strange { (schema : SchemaValue) (steps : List WorldStep) →
        IsSchema schema → All (StepFits schema) steps → NoneStrange (trace_by schema steps) }
{}
