//! What is told of a step that was taken.

use world_steps::{StepReply, WorldStep};

/// A step that was taken, and what it made.
#[derive(Clone, Copy, Debug, PartialEq, Eq)]
pub struct StepTaken {
    /// The step.
    pub step: WorldStep,
    /// What answered it.
    pub reply: StepReply,
}
