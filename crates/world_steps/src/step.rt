//! The steps of a world, and what a step makes.

ghost use Rattle.std.specs.Prelude.{◌↔◌, All, IsTrue};
ghost use Rattle.world_steps.specs.World.{StepFits};

use field_bounds::{Command, Entry, Schema, SiteNo};
use kept_state::Luck;

/// One step of a world.
#[derive(Clone, Copy, Debug, PartialEq, Eq)]
pub enum WorldStep {
    /// A site is asked a command. A world takes the step where the site is in its schema and the
    /// command isn't an Accept.
    Do {
        site: SiteNo,
        command: Command,
        luck: Luck,
    },
    /// A statement is taken in by the site that it is for: the one of this number, counted from 1
    /// over all statements that were issued, in their order. Where there is none of that number,
    /// the step makes no entry. A statement is never used up.
    Deliver {
        /// The statement's number, counted from 1.
        k: u64,
        luck: Luck,
    },
}

/// What a step made.
#[derive(Clone, Copy, Debug, PartialEq, Eq)]
pub enum StepReply {
    /// This entry, which stands at the end of the trace.
    Made(Entry),
    /// No entry: no statement has the number.
    NoStatement,
}

/// Whether a world of this schema takes the step: the site of a `Do` is in the schema, and its
/// command isn't an Accept. Costs no memory.
pub fn step_fits(schema: &Schema, step: &WorldStep) -> bool
    ensures fits { IsTrue result ↔ StepFits schema.now step.now }
{
    match *step {
        WorldStep::Do {
            site: _,
            command: Command::Accept(_),
            luck: _,
        } => false,
        WorldStep::Do {
            site,
            command: _,
            luck: _,
        } => site.0 < schema.sites(),
        WorldStep::Deliver { k: _, luck: _ } => true,
    }
}

/// Whether a world of this schema takes each of the steps, as `step_fits` tells. Costs one look at
/// each step, and no memory.
pub fn steps_fit(schema: &Schema, steps: &[WorldStep]) -> bool
    ensures fit { IsTrue result ↔ All (StepFits schema.now) steps.now }
{
    for step in steps {
        if !step_fits(schema, step) {
            return false;
        }
    }
    true
}
