//! What the steps are promised to do, over definitions alone.

ghost use Rattle.std.specs.Prelude.{◌≡◌, ◌++◌, ℤ, List, All, None};
ghost use Rattle.reaching_steps.specs.Body.{Does};
ghost use Rattle.reaching_steps.specs.Tight.{IsUnhindered, LiesWithin};
ghost use Rattle.field_bounds.specs.declared.id.SiteNo.{SiteNo};
ghost use Rattle.field_bounds.specs.declared.id.FieldNo.{FieldNo};
ghost use Rattle.field_bounds.specs.Schema.{SchemaValue};
ghost use Rattle.field_bounds.specs.Limits.{IsSchema};
ghost use Rattle.field_bounds.specs.Central.{own, committed_value};
ghost use Rattle.world_steps.specs.declared.step.WorldStep.{WorldStep};
ghost use Rattle.world_steps.specs.World.{StepFits, trace_by};
ghost use Rattle.reaching_steps.specs.Reach.{reach_fault, reach_steps, IsFine};

/// Where no fault holds, the steps take the field to the target, each append is whole, and nothing
/// is asked at the named site.
pub fn reach_meets()
    ensures fit { (schema : SchemaValue) (steps : List WorldStep) (site : SiteNo) (field : FieldNo)
        (target : ℤ) →
        IsSchema schema → All (StepFits schema) steps
        → reach_fault schema (trace_by schema steps) site field target ≡ None →
        All (StepFits schema) (reach_steps schema steps site field target) }
    ensures fine { (schema : SchemaValue) (steps : List WorldStep) (site : SiteNo) (field : FieldNo)
        (target : ℤ) →
        IsSchema schema → All (StepFits schema) steps
        → reach_fault schema (trace_by schema steps) site field target ≡ None →
        All IsFine (reach_steps schema steps site field target) }
    ensures elsewhere { (schema : SchemaValue) (steps : List WorldStep) (site : SiteNo)
        (field : FieldNo) (target : ℤ) →
        IsSchema schema → All (StepFits schema) steps
        → reach_fault schema (trace_by schema steps) site field target ≡ None →
        own site.0 (trace_by schema (steps ++ reach_steps schema steps site field target))
        ≡ own site.0 (trace_by schema steps) }
    ensures reached { (schema : SchemaValue) (steps : List WorldStep) (site : SiteNo)
        (field : FieldNo) (target : ℤ) →
        IsSchema schema → All (StepFits schema) steps
        → reach_fault schema (trace_by schema steps) site field target ≡ None →
        committed_value schema (trace_by schema (steps
        ++ reach_steps schema steps site field target)) field.0 ≡ target }
{}

/// The interval that a site reads can't be narrower. Where nothing stands in the way, for each
/// value from its low end to its high end there are steps at other sites, each with its append
/// whole, after which that value is the committed one, while the site itself has lived nothing
/// more: so an answer that leaves a value out would be wrong in some run.
pub fn no_narrower_interval_is_safe()
    ensures reached { (schema : SchemaValue) (steps : List WorldStep) (site : SiteNo)
        (field : FieldNo) (target : ℤ) →
        IsSchema schema → All (StepFits schema) steps
        → IsUnhindered schema (trace_by schema steps) site field →
        LiesWithin schema (trace_by schema steps) site field target →
        (more : List WorldStep) × Does (record { schema = schema; steps = steps }) site field target
        more }
{}
