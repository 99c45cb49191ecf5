//! A law of the definitions, as the contract of a function that does nothing.

ghost use Rattle.std.specs.Prelude.{◌≡◌, ℕ, List};
ghost use Rattle.field_bounds.specs.Schema.{SchemaValue};
ghost use Rattle.world_steps.specs.declared.step.WorldStep.{WorldStep};
ghost use Rattle.escrow_run.specs.Text.{trace, HasText};

/// The lines of a script have one text: whatever schema and steps it is explained by, they are the
/// same, and so are the trace and the text.
pub fn one_text()
    ensures only { (schema other : SchemaValue) (steps others : List WorldStep)
        (lines : List (List ℕ))
        (text again : List ℕ) → HasText schema steps lines text → HasText other others lines again →
        (schema ≡ other) × (steps ≡ others) × (trace schema steps ≡ trace other others)
        × (text ≡ again) }
{}
