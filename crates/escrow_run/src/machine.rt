//! The world that a header line starts, and its answers to the lines behind it.

ghost use Rattle.std.specs.Prelude.{◌≡◌, [], ◌∷◌, ◌++◌, length, take, All, codes, OnOk, OnErr, IfOk};
ghost use Rattle.std.specs.Fmt.{decimal};
ghost use Rattle.entry_text.specs.Spelling.{command_text, entry_text};
ghost use Rattle.escrow_run.specs.Text.{line_text};
ghost use Rattle.escrow_run.specs.Run.{IsAnswered, Tells};

use crate::aim::{Aim, reason};
use crate::level::{Level, gifts};
use crate::line::{Line, fine_command, read_line};
use entry_text::{append_entry, append_reply};
use field_bounds::{Command, Entry, Reply, Schema, SiteNo};
use itoa::Buffer;
use reaching_steps::{StepTaken, reach_in};
use std::alloc::{AllocError, Global};
use world_steps::{Luck, StepReply, World, WorldStep};

/// Adds a line and its LF, or changes nothing where memory is refused.
pub(crate) fn add_line(out: &mut Vec<u8>, line: &[u8]) -> Result<(), AllocError>
    ensures ok { OnOk result (out.new.items ≡ out.old.items ++ line_text line.now) }
    ensures err { OnErr result (out.new.items ≡ out.old.items) }
{
    let kept = out.len();
    out.extend_from_slice(line)?;
    if out.push(b'\n').is_err() {
        out.truncate(kept);
        return Err(AllocError);
    }
    Ok(())
}

// Adds a line, some words behind it, what is told by them, and an LF. Where memory is refused, here
// and in what follows, a front of that may have been added.
fn add_told(out: &mut Vec<u8>, line: &[u8], words: &[u8], told: &str) -> Result<(), AllocError>
    ensures ok { OnOk result (out.new.items
        ≡ out.old.items ++ line_text (line.now ++ words.now ++ told.now)) }
    ensures err { OnErr result (take (length out.old.items) out.new.items ≡ out.old.items) }
{
    out.extend_from_slice(line)?;
    out.extend_from_slice(words)?;
    out.extend_from_slice(told.as_bytes())?;
    out.extend_from_slice(b"\n")
}

// Adds the remark on a delivery of no statement.
fn add_remark(out: &mut Vec<u8>, k: u64) -> Result<(), AllocError>
    ensures ok { OnOk result (out.new.items
        ≡ out.old.items ++ line_text ((codes "deliver " ++ decimal k)
        ++ codes " -> refused 16 no statement")) }
    ensures err { OnErr result (take (length out.old.items) out.new.items ≡ out.old.items) }
{
    let mut buffer = Buffer::new();
    add_told(
        out,
        b"deliver ",
        buffer.format(k).as_bytes(),
        " -> refused 16 no statement",
    )
}

// Adds the text of the entry that a step made, and an LF.
fn add_made(out: &mut Vec<u8>, schema: &Schema, entry: Entry) -> Result<(), AllocError>
    ensures ok { OnOk result (out.new.items ≡ out.old.items
        ++ line_text (entry_text schema.now entry)) }
    ensures err { OnErr result (take (length out.old.items) out.new.items ≡ out.old.items) }
{
    append_entry(out, schema, entry)?;
    out.extend_from_slice(b"\n")
}

// Adds the text of the entry of a command that a line spells, and an LF: the command isn't spelled
// again. It stands apart, since in it alone what appends the pieces is inlined.
#[inline(never)]
fn add_answered(
    out: &mut Vec<u8>,
    schema: &Schema,
    line: &[u8],
    site: SiteNo,
    command: Command,
    reply: Reply,
) -> Result<(), AllocError>
    requires spelled { line.now ≡ command_text schema.now site command }
    ensures ok { OnOk result (out.new.items ≡ out.old.items ++ line_text (entry_text schema.now
        (record { site = site; command = command; reply = reply }))) }
    ensures err { OnErr result (take (length out.old.items) out.new.items ≡ out.old.items) }
{
    out.extend_from_slice(line)?;
    out.extend_from_slice(b" -> ")?;
    append_reply(out, reply)?;
    out.extend_from_slice(b"\n")
}

// Adds what answered a step that was taken: the text of its entry, or the remark.
fn add_reply(out: &mut Vec<u8>, schema: &Schema, one: &StepTaken) -> Result<(), AllocError>
    requires answered { IsAnswered one.now }
    ensures ok { OnOk result (Tells schema.now (one.now ∷ []) out.old.items out.new.items) }
    ensures grows { OnOk result (take (length out.old.items) out.new.items ≡ out.old.items) }
    ensures err { OnErr result (take (length out.old.items) out.new.items ≡ out.old.items) }
{
    match one.reply {
        StepReply::Made(entry) => add_made(out, schema, entry),
        StepReply::NoStatement => match one.step {
            WorldStep::Do { .. } => unreachable!(),
            WorldStep::Deliver { k, .. } => add_remark(out, k),
        },
    }
}

// Adds what answered steps that were taken, one after another.
fn add_replies(out: &mut Vec<u8>, schema: &Schema, taken: &[StepTaken]) -> Result<(), AllocError>
    requires answered { All IsAnswered taken.now }
    ensures ok { OnOk result (Tells schema.now taken.now out.old.items out.new.items) }
    ensures err { OnErr result (take (length out.old.items) out.new.items ≡ out.old.items) }
{
    for one in taken {
        add_reply(out, schema, one)?;
    }
    Ok(())
}

// Adds how many steps a line took together, then what answered each.
fn add_taken(
    out: &mut Vec<u8>,
    schema: &Schema,
    line: &[u8],
    taken: &[StepTaken],
) -> Result<(), AllocError>
    requires answered { All IsAnswered taken.now }
    ensures ok { OnOk result (Tells schema.now taken.now
        (out.old.items ++ line_text (line.now ++ codes " -> steps " ++ decimal (length taken.now)))
        out.new.items) }
    ensures err { OnErr result (take (length out.old.items) out.new.items ≡ out.old.items) }
{
    let mut buffer = Buffer::new();
    add_told(out, line, b" -> steps ", buffer.format(taken.len() as u64))?;
    add_replies(out, schema, taken)
}

/// The world under the schema of a header line.
#[derive(Drop)]
pub(crate) struct Machine {
    world: World,
}

impl Machine {
    ghost use Rattle.std.specs.Prelude.{reverse};
    ghost use Rattle.world_steps.specs.World.{StepFits};
    ghost use Rattle.escrow_run.specs.Text.{Asks, Levels, Aims, AsksSteps};
    ghost use Rattle.escrow_run.specs.Run.{Answered, HasTaken};

    /// The world of a schema, before its first step. The error is want of memory.
    pub(crate) fn new(alloc: Global, schema: Schema) -> Result<Machine, AllocError>
        ensures schema { IfOk result (λ machine. machine.world.schema ≡ schema) }
        ensures fresh { IfOk result (λ machine. machine.world.steps ≡ []) }
    {
        Ok(Machine {
            world: World::new(alloc, schema)?,
        })
    }

    // Takes a step, and adds the text of its entry, or the remark.
    fn take(&mut self, alloc: Global, step: &WorldStep, out: &mut Vec<u8>) -> Result<(), AllocError>
        requires fits { StepFits self.old.world.schema step.now }
        ensures ok { OnOk result (HasTaken (step.now ∷ []) self.old.world self.new.world
            out.old.items out.new.items) }
        ensures err { OnErr result (take (length out.old.items) out.new.items ≡ out.old.items) }
    {
        match self.world.step(alloc, step)? {
            StepReply::Made(entry) => add_made(out, self.world.schema(), entry),
            StepReply::NoStatement => match *step {
                WorldStep::Do { .. } => unreachable!(),
                WorldStep::Deliver { k, .. } => add_remark(out, k),
            },
        }
    }

    // Asks a site the command that a line spells, and adds the text of its entry. Most lines are
    // such ones, so no step is made of them, and no entry but the one of the trace.
    #[inline(always)]
    fn take_spelled(
        &mut self,
        alloc: Global,
        line: &[u8],
        site: SiteNo,
        command: Command,
        out: &mut Vec<u8>,
    ) -> Result<(), AllocError>
        requires fits { StepFits self.old.world.schema (WorldStep.Do site command Luck.Fine) }
        requires spelled { line.now ≡ command_text self.old.world.schema site command }
        ensures ok { OnOk result (HasTaken (WorldStep.Do site command Luck.Fine ∷ [])
            self.old.world self.new.world out.old.items out.new.items) }
        ensures err { OnErr result (take (length out.old.items) out.new.items ≡ out.old.items) }
    {
        let reply = self.world.do_fine(alloc, site, command)?;
        add_answered(out, self.world.schema(), line, site, command, reply)
    }

    // Takes the step that a line asks, and adds what answers it.
    #[inline(always)]
    fn take_asked(
        &mut self,
        alloc: Global,
        line: &[u8],
        step: WorldStep,
        out: &mut Vec<u8>,
    ) -> Result<(), AllocError>
        requires asks { Asks self.old.world.schema line.now step }
        ensures ok { OnOk result (Answered line.now self.old.world self.new.world
            out.old.items out.new.items) }
        ensures err { OnErr result (take (length out.old.items) out.new.items ≡ out.old.items) }
    {
        match fine_command(&step) {
            Some((site, command)) => self.take_spelled(alloc, line, site, command, out),
            None => self.take(alloc, &step, out),
        }
    }

    // Takes steps one after another, and adds what answers each.
    fn take_all(
        &mut self,
        alloc: Global,
        steps: &[WorldStep],
        out: &mut Vec<u8>,
    ) -> Result<(), AllocError>
        requires fit { All (StepFits self.old.world.schema) steps.now }
        ensures ok { OnOk result (HasTaken steps.now self.old.world self.new.world
            out.old.items out.new.items) }
        ensures err { OnErr result (take (length out.old.items) out.new.items ≡ out.old.items) }
    {
        for step in steps {
            self.take(alloc, step, out)?;
        }
        Ok(())
    }

    // Adds how many steps a line asks together, then takes them.
    fn carry_out(
        &mut self,
        alloc: Global,
        line: &[u8],
        words: &[u8],
        steps: &[WorldStep],
        out: &mut Vec<u8>,
    ) -> Result<(), AllocError>
        requires asks { AsksSteps self.old.world.schema line.now (reverse self.old.world.steps)
            steps.now (line.now ++ words.now ++ decimal (length steps.now)) }
        requires fit { All (StepFits self.old.world.schema) steps.now }
        ensures ok { OnOk result (Answered line.now self.old.world self.new.world
            out.old.items out.new.items) }
        ensures err { OnErr result (take (length out.old.items) out.new.items ≡ out.old.items) }
    {
        let mut buffer = Buffer::new();
        add_told(out, line, words, buffer.format(steps.len() as u64))?;
        self.take_all(alloc, steps, out)
    }

    // Levels a field.
    fn level(
        &mut self,
        alloc: Global,
        line: &[u8],
        level: Level,
        out: &mut Vec<u8>,
    ) -> Result<(), AllocError>
        requires levels { Levels self.old.world.schema line.now level.field level.kind }
        ensures ok { OnOk result (Answered line.now self.old.world self.new.world
            out.old.items out.new.items) }
        ensures err { OnErr result (take (length out.old.items) out.new.items ≡ out.old.items) }
    {
        let gifts = gifts(alloc, &self.world, level)?;
        self.carry_out(alloc, line, b" -> moves ", gifts.as_slice(), out)
    }

    // Reaches a value, or tells why it isn't reached; want of memory is the error.
    fn reach_for(
        &mut self,
        alloc: Global,
        line: &[u8],
        aim: Aim,
        out: &mut Vec<u8>,
    ) -> Result<(), AllocError>
        requires aims { Aims self.old.world.schema line.now aim }
        ensures ok { OnOk result (Answered line.now self.old.world self.new.world
            out.old.items out.new.items) }
        ensures err { OnErr result (take (length out.old.items) out.new.items ≡ out.old.items) }
    {
        match reach_in(alloc, &mut self.world, aim.site, aim.field, aim.target) {
            Ok(taken) => add_taken(out, self.world.schema(), line, taken.as_slice()),
            Err(fault) => match reason(fault) {
                Some(word) => add_told(out, line, b" -> no ", word),
                None => Err(AllocError),
            },
        }
    }

    // Answers a line. Where memory is refused, a front of the answer may have been added. It is inlined in
    // the loop over the lines, as `answer` is: a call for each costs 35 instructions more.
    #[inline(always)]
    fn add_answer(
        &mut self,
        alloc: Global,
        line: &[u8],
        out: &mut Vec<u8>,
    ) -> Result<(), AllocError>
        ensures ok { OnOk result (Answered line.now self.old.world self.new.world
            out.old.items out.new.items) }
        ensures err { OnErr result (take (length out.old.items) out.new.items ≡ out.old.items) }
    {
        match read_line(&self.world, line) {
            Some(Line::Step(step)) => self.take_asked(alloc, line, step, out),
            Some(Line::Level(level)) => self.level(alloc, line, level, out),
            Some(Line::Reach(aim)) => self.reach_for(alloc, line, aim, out),
            None => add_line(out, b"bad line"),
        }
    }

    /// Answers a line, without its LF: adds the text of the entry, a remark, the count of the steps
    /// that level a field or reach a value with what answers each, why a value isn't reached, or
    /// `bad line`. Where memory is refused nothing is added.
    #[inline(always)]
    pub(crate) fn answer(
        &mut self,
        alloc: Global,
        line: &[u8],
        out: &mut Vec<u8>,
    ) -> Result<(), AllocError>
        ensures ok { OnOk result (Answered line.now self.old.world self.new.world
            out.old.items out.new.items) }
        ensures err { OnErr result (out.new.items ≡ out.old.items) }
    {
        let kept = out.len();
        if self.add_answer(alloc, line, out).is_err() {
            out.truncate(kept);
            return Err(AllocError);
        }
        Ok(())
    }
}
