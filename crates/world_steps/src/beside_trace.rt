//! What a world keeps of its steps beside its trace.

ghost use Rattle.std.specs.Prelude.{◌≡◌, ◌<◌, ◌++◌, [], ◌∷◌, List, None, Some, OnOk, IfOk, reverse, vec_len, vec_capacity};
ghost use Rattle.field_bounds.specs.declared.entry.Entry.{Entry};
ghost use Rattle.kept_state.specs.declared.luck.Luck.TheVariants as lucks;
ghost use Rattle.world_steps.specs.declared.step.WorldStep.TheVariants as steps;
ghost use Rattle.world_steps.specs.World.{question_of};
ghost use Rattle.world_steps.specs.Kept.{steps_told, steps_beside, with_step, HasMemoryFor, SameKept};

use crate::step::WorldStep;
use field_bounds::Entry;
use kept_state::Luck;
use std::alloc::{AllocError, Global};

/// How a step went, beside what its entry tells.
#[derive(Clone, Copy)]
pub(crate) enum Way {
    /// A command whose luck was fine: its entry tells it.
    Asked,
    /// A command whose luck was torn: its entry tells all but the bytes that it keeps.
    AskedTorn,
    /// A delivery that made an entry, and whose luck was fine.
    Delivered,
    /// A delivery that made an entry, and whose luck was torn.
    DeliveredTorn,
    /// A delivery of a number that no statement had, and whose luck was fine.
    Missed,
    /// A delivery of a number that no statement had, and whose luck was torn.
    MissedTorn,
}

// One byte a step.
const _: () = prove!(size_of::<Way>() == 1);

/// What the trace doesn't tell of the steps, each list with the oldest first: the way of each step,
/// the number of each delivery, and the bytes that each torn luck keeps.
#[derive(Drop)]
pub(crate) struct StepNotes {
    ways: Vec<Way>,
    numbers: Vec<u64>,
    torn: Vec<u64>,
}

impl StepNotes {
    /// No step. Takes no memory.
    pub(crate) fn new(alloc: Global) -> StepNotes
        ensures none { (trace : List Entry) → steps_beside trace result ≡ [] }
    {
        StepNotes {
            ways: Vec::new(alloc),
            numbers: Vec::new(alloc),
            torn: Vec::new(alloc),
        }
    }

    /// Gets room for one more step. The error is want of memory.
    pub(crate) fn reserve(&mut self, step: &WorldStep) -> Result<(), AllocError>
        ensures room { OnOk result (HasMemoryFor self.new step.now) }
        ensures same { SameKept self.old self.new }
    {
        self.ways.reserve(1)?;
        match *step {
            WorldStep::Do {
                site: _,
                command: _,
                luck: Luck::Fine,
            } => Ok(()),
            WorldStep::Do {
                site: _,
                command: _,
                luck: Luck::Torn(_),
            } => self.torn.reserve(1),
            WorldStep::Deliver {
                k: _,
                luck: Luck::Fine,
            } => self.numbers.reserve(1),
            WorldStep::Deliver {
                k: _,
                luck: Luck::Torn(_),
            } => {
                self.numbers.reserve(1)?;
                self.torn.reserve(1)
            }
        }
    }

    /// Gets room for one more command whose luck is fine. The error is want of memory.
    #[inline(always)]
    pub(crate) fn reserve_asked(&mut self) -> Result<(), AllocError>
        ensures room { OnOk result (vec_len self.new.ways < vec_capacity self.new.ways) }
        ensures same { SameKept self.old self.new }
    {
        self.ways.reserve(1)
    }

    /// Keeps a command whose luck was fine.
    #[inline(always)]
    pub(crate) fn keep_asked(&mut self)
        requires room { vec_len self.old.ways < vec_capacity self.old.ways }
        ensures kept { (trace : List Entry) (entry : Entry) →
            steps_beside (trace ++ entry ∷ []) self.new ≡ steps_beside trace self.old
            ++ steps.Do entry.site entry.command lucks.Fine ∷ [] }
    {
        self.ways.push_reserved(Way::Asked);
    }

    /// Keeps a step that made an entry.
    #[inline]
    pub(crate) fn keep_made(&mut self, step: &WorldStep)
        requires room { HasMemoryFor self.old step.now }
        ensures kept { (past trace : List Entry) (entry : Entry)
            → question_of past step.now ≡ Some (entry.site, entry.command) →
            steps_beside (trace ++ entry ∷ []) self.new ≡ steps_beside trace self.old ++ step.now
            ∷ [] }
    {
        match *step {
            WorldStep::Do {
                site: _,
                command: _,
                luck: Luck::Fine,
            } => self.ways.push_reserved(Way::Asked),
            WorldStep::Do {
                site: _,
                command: _,
                luck: Luck::Torn(bytes),
            } => {
                self.ways.push_reserved(Way::AskedTorn);
                self.torn.push_reserved(bytes);
            }
            WorldStep::Deliver {
                k,
                luck: Luck::Fine,
            } => {
                self.ways.push_reserved(Way::Delivered);
                self.numbers.push_reserved(k);
            }
            WorldStep::Deliver {
                k,
                luck: Luck::Torn(bytes),
            } => {
                self.ways.push_reserved(Way::DeliveredTorn);
                self.numbers.push_reserved(k);
                self.torn.push_reserved(bytes);
            }
        }
    }

    /// Keeps a step that made no entry, which is a delivery.
    pub(crate) fn keep_missed(&mut self, step: &WorldStep)
        requires room { HasMemoryFor self.old step.now }
        requires missed { (past : List Entry) × (question_of past step.now ≡ None) }
        ensures kept { (trace : List Entry) → steps_beside trace self.new
            ≡ steps_beside trace self.old ++ step.now ∷ [] }
    {
        match *step {
            WorldStep::Do {
                site: _,
                command: _,
                luck: _,
            } => unreachable!(),
            WorldStep::Deliver {
                k,
                luck: Luck::Fine,
            } => {
                self.ways.push_reserved(Way::Missed);
                self.numbers.push_reserved(k);
            }
            WorldStep::Deliver {
                k,
                luck: Luck::Torn(bytes),
            } => {
                self.ways.push_reserved(Way::MissedTorn);
                self.numbers.push_reserved(k);
                self.torn.push_reserved(bytes);
            }
        }
    }

    /// The steps that a trace and this tell, the oldest first. The error is want of memory.
    pub(crate) fn steps_told(
        &self,
        alloc: Global,
        trace: &[Entry],
    ) -> Result<Vec<WorldStep>, AllocError>
        ensures steps { IfOk result (λ steps. steps.items ≡ steps_beside trace.now self.now) }
    {
        let mut entries = trace.to_vec(alloc)?;
        let mut numbers = self.numbers.clone()?;
        let mut torn = self.torn.clone()?;
        let mut steps = Vec::new(alloc);
        for i in 0..self.ways.len() {
            let way = self.ways[self.ways.len() - 1 - i];
            let Some(step) = newest(way, &mut entries, &mut numbers, &mut torn) else {
                steps.reverse();
                return Ok(steps);
            };
            steps.push(step)?;
        }
        steps.reverse();
        Ok(steps)
    }
}

/// The step that went a way: what tells it is taken from the end of each list. None where one is
/// empty.
fn newest(
    way: Way,
    entries: &mut Vec<Entry>,
    numbers: &mut Vec<u64>,
    torn: &mut Vec<u64>,
) -> Option<WorldStep>
    ensures step { (ways : List Way) →
        steps_told (reverse entries.old.items) (way ∷ ways) (reverse numbers.old.items)
        (reverse torn.old.items)
        ≡ with_step result (steps_told (reverse entries.new.items) ways (reverse numbers.new.items)
        (reverse torn.new.items)) }
{
    match way {
        Way::Asked => {
            let entry = entries.pop()?;
            Some(step_asked(entry, Luck::Fine))
        }
        Way::AskedTorn => {
            let entry = entries.pop()?;
            let bytes = torn.pop()?;
            Some(step_asked(entry, Luck::Torn(bytes)))
        }
        Way::Delivered => {
            entries.pop()?;
            let k = numbers.pop()?;
            Some(WorldStep::Deliver {
                k,
                luck: Luck::Fine,
            })
        }
        Way::DeliveredTorn => {
            entries.pop()?;
            let k = numbers.pop()?;
            let bytes = torn.pop()?;
            Some(WorldStep::Deliver {
                k,
                luck: Luck::Torn(bytes),
            })
        }
        Way::Missed => {
            let k = numbers.pop()?;
            Some(WorldStep::Deliver {
                k,
                luck: Luck::Fine,
            })
        }
        Way::MissedTorn => {
            let k = numbers.pop()?;
            let bytes = torn.pop()?;
            Some(WorldStep::Deliver {
                k,
                luck: Luck::Torn(bytes),
            })
        }
    }
}

/// The step that asked for an entry.
fn step_asked(entry: Entry, luck: Luck) -> WorldStep
    ensures value { result ≡ steps.Do entry.site entry.command luck }
{
    WorldStep::Do {
        site: entry.site,
        command: entry.command,
        luck,
    }
}
