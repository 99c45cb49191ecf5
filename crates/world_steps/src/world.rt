//! The world.

ghost use Rattle.std.specs.Prelude.{All, ◌≡◌, ◌<◌, ◌≤◌, ◌+◌, ◌++◌, [], ◌∷◌, IfOk, IfSome, OnOk, OnErr, length, reverse};
ghost use Rattle.field_bounds.specs.Limits.{IsSchema};
ghost use Rattle.field_bounds.specs.Parts.{field_at, width_of};
ghost use Rattle.field_bounds.specs.Effects.{fresh};
ghost use Rattle.field_bounds.specs.Owed.{place, shares_of};
ghost use Rattle.field_bounds.specs.Central.{own, IsSound, IsCentral, IsConservedThroughout};
ghost use Rattle.world_steps.specs.World.{statements_issued, StepFits};
ghost use Rattle.world_steps.specs.Standing.{Follows, AllFollow};
ghost use Rattle.world_steps.specs.Promises.{IsBoundedThroughout, OutcomesAreBoundedThroughout, BoundsOnlyTighten, NoneStrange, IsOneStore};
ghost use Rattle.world_steps.specs.View.{trace_of, Answers};

use crate::beside_trace::StepNotes;
use crate::step::{StepReply, WorldStep};
use crate::stepping::{apply_at, entry_of, luck_of, note, note_reply, question_of, reserve_for};
use field_bounds::{Command, Entry, FieldNo, Reply, Schema, SiteNo, Statement};
use history::GhostHistory;
use kept_records::TornMedium;
use kept_state::Luck;
use site_step::{OpenFault, Site};
use std::alloc::{AllocError, Global};
use std::marker::Model;

/// All sites of a schema, each over a medium in memory that is torn where a step says so. Contracts
/// see the schema and the steps taken, in order: all else is told by these. Of the steps a world
/// keeps only what its trace doesn't tell, and its sites keep no history.
#[derive(Drop)]
pub struct World {
    schema: Schema,
    sites: Vec<Site<TornMedium, GhostHistory<Entry>>>,
    trace: Vec<Entry>,
    steps: StepNotes,
    issued: Vec<Statement>,
}

impl Model for World {
    ghost use Rattle.world_steps.specs.Kept.{steps_beside};
    ghost use Rattle.world_steps.specs.View.{WorldValue, IsWorld};

    ghost Value = { WorldValue };

    ghost view = { λ w. record { schema = w.schema; steps = steps_beside w.trace.items w.steps } };

    ghost invariant = { λ w. IsWorld w.schema (steps_beside w.trace.items w.steps) w.sites.items
        w.trace.items w.issued.items };
}

/// A site over an empty medium, which won't fail: the only fault is want of memory.
fn fresh_site(
    alloc: Global,
    schema: Schema,
    site: SiteNo,
) -> Result<Site<TornMedium, GhostHistory<Entry>>, AllocError>
    requires in_schema { site.0 < schema.sites }
    ensures stands { IfOk result (λ made. Follows schema site.0 [] 0 made) }
{
    match Site::open_with(alloc, schema, site, TornMedium::new(Vec::new(alloc))) {
        Ok(made) => Ok(made),
        Err((OpenFault::NoMemory, _)) => Err(AllocError),
        Err((OpenFault::Device, _)) => unreachable!(),
        Err((OpenFault::Line(_), _)) => unreachable!(),
    }
}

/// The sites of a schema, each over an empty medium.
fn fresh_sites(
    alloc: Global,
    schema: &Schema,
) -> Result<Vec<Site<TornMedium, GhostHistory<Entry>>>, AllocError>
    ensures count { IfOk result (λ sites. length sites.items ≡ schema.now.sites) }
    ensures stand { IfOk result (λ sites. AllFollow schema.now [] 0 sites.items) }
{
    let mut sites = Vec::new(alloc);
    for number in 0..schema.sites() {
        sites.push(fresh_site(alloc, schema.copy()?, SiteNo(number))?)?;
    }
    Ok(sites)
}

impl World {
    /// A world in which no step was taken: each site of the schema stands over an empty medium, up
    /// and with its parts. The error is want of memory. Costs opening each site.
    pub fn new(alloc: Global, schema: Schema) -> Result<World, AllocError>
        ensures fresh { IfOk result (λ world. world ≡ record { schema = schema; steps = [] }) }
    {
        let sites = fresh_sites(alloc, &schema)?;
        Ok(World {
            schema,
            sites,
            trace: Vec::new(alloc),
            steps: StepNotes::new(alloc),
            issued: Vec::new(alloc),
        })
    }

    /// Takes one step. The steps grow by it, and what is lived by the one entry that they tell,
    /// with the step's luck: the command or the statement's taking in, at its site, with the one
    /// reply that the site owes after its own entries and their luck. A step whose number no
    /// statement has makes no entry. The luck is armed for this step alone. The error is want of
    /// memory, and then nothing has changed.
    ///
    /// The trace after it, as after every list of steps, is a run of one central escrow store: each
    /// part of that theorem is a clause, of the name that it has at `trace`.
    ///
    /// Costs what the site's `apply` costs, and amortized pushes of the entry, of the statement and
    /// of what the entry doesn't tell of the step, which are kept: one byte, 8 more for the number
    /// of a delivery, and 8 more for luck that is torn. Nothing else grows with the trace.
    #[inline(always)]
    pub fn step(&mut self, alloc: Global, step: &WorldStep) -> Result<StepReply, AllocError>
        requires fits { StepFits self.old.schema step.now }
        ensures steps { OnOk result (self.new ≡ record self.old {
          steps =
              self.old.steps ++ step.now ∷ [];
        }) }
        ensures answers { IfOk result (λ reply. Answers reply self.old step.now self.new) }
        ensures sound { OnOk result (IsSound self.new.schema (trace_of self.new)) }
        ensures central { OnOk result (IsCentral self.new.schema (trace_of self.new)) }
        ensures conserved { OnOk result (IsConservedThroughout self.new.schema
            (trace_of self.new)) }
        ensures bounded { OnOk result (IsBoundedThroughout self.new.schema (trace_of self.new)) }
        ensures outcomes { OnOk result (OutcomesAreBoundedThroughout self.new.schema
            (trace_of self.new)) }
        ensures tighter { OnOk result (BoundsOnlyTighten self.new.schema (trace_of self.new)) }
        ensures none_strange { OnOk result (NoneStrange (trace_of self.new)) }
        ensures err { OnErr result (self.new ≡ self.old) }
    {
        self.take_step(alloc, step)
    }

    /// Takes one step: the trace after it is one of a central store, in all its parts.
    #[inline(always)]
    fn take_step(&mut self, alloc: Global, step: &WorldStep) -> Result<StepReply, AllocError>
        requires fits { StepFits self.old.schema step.now }
        ensures steps { OnOk result (self.new ≡ record self.old {
          steps =
              self.old.steps ++ step.now ∷ [];
        }) }
        ensures answers { IfOk result (λ reply. Answers reply self.old step.now self.new) }
        ensures one_store { OnOk result (IsOneStore self.new.schema (trace_of self.new)) }
        ensures err { OnErr result (self.new ≡ self.old) }
    {
        self.steps.reserve(step)?;
        self.trace.reserve(1)?;
        self.issued.reserve(1)?;
        let Some((site, command)) = question_of(&self.issued, step) else {
            self.steps.keep_missed(step);
            return Ok(StepReply::NoStatement);
        };
        let reply = apply_at(&mut self.sites, alloc, site, command, luck_of(step))?;
        let entry = Entry {
            site,
            command,
            reply,
        };
        self.trace.push_reserved(entry);
        note(&mut self.issued, &entry);
        self.steps.keep_made(step);
        Ok(StepReply::Made(entry))
    }

    /// Asks a site a command whose append is whole, and tells the reply: the step `Do` of it with
    /// the luck `Fine`, as `step` takes it, for callers that have no step made and want no entry
    /// back. The error is want of memory, and then nothing has changed.
    ///
    /// Costs what the site's `apply` costs, and amortized pushes of the entry, of one byte, and of
    /// the statement where the command may issue one. Nothing else grows with the trace.
    #[inline(always)]
    pub fn do_fine(
        &mut self,
        alloc: Global,
        site: SiteNo,
        command: Command,
    ) -> Result<Reply, AllocError>
        requires fits { StepFits self.old.schema (WorldStep.Do site command Luck.Fine) }
        ensures steps { OnOk result (self.new ≡ record self.old {
          steps =
              self.old.steps ++ WorldStep.Do site command Luck.Fine ∷ [];
        }) }
        ensures answers { IfOk result (λ reply. Answers
            (StepReply.Made (record { site = site; command = command; reply = reply }))
            self.old (WorldStep.Do site command Luck.Fine) self.new) }
        ensures sound { OnOk result (IsSound self.new.schema (trace_of self.new)) }
        ensures central { OnOk result (IsCentral self.new.schema (trace_of self.new)) }
        ensures conserved { OnOk result (IsConservedThroughout self.new.schema
            (trace_of self.new)) }
        ensures bounded { OnOk result (IsBoundedThroughout self.new.schema (trace_of self.new)) }
        ensures outcomes { OnOk result (OutcomesAreBoundedThroughout self.new.schema
            (trace_of self.new)) }
        ensures tighter { OnOk result (BoundsOnlyTighten self.new.schema (trace_of self.new)) }
        ensures none_strange { OnOk result (NoneStrange (trace_of self.new)) }
        ensures err { OnErr result (self.new ≡ self.old) }
    {
        self.take_fine(alloc, site, command)
    }

    /// Takes the step of a command whose luck is fine, as `take_step` takes it.
    #[inline(always)]
    fn take_fine(
        &mut self,
        alloc: Global,
        site: SiteNo,
        command: Command,
    ) -> Result<Reply, AllocError>
        requires fits { StepFits self.old.schema (WorldStep.Do site command Luck.Fine) }
        ensures steps { OnOk result (self.new ≡ record self.old {
          steps =
              self.old.steps ++ WorldStep.Do site command Luck.Fine ∷ [];
        }) }
        ensures answers { IfOk result (λ reply. Answers
            (StepReply.Made (record { site = site; command = command; reply = reply }))
            self.old (WorldStep.Do site command Luck.Fine) self.new) }
        ensures one_store { OnOk result (IsOneStore self.new.schema (trace_of self.new)) }
        ensures err { OnErr result (self.new ≡ self.old) }
    {
        self.steps.reserve_asked()?;
        self.trace.reserve(1)?;
        reserve_for(&mut self.issued, command)?;
        let reply = apply_at(&mut self.sites, alloc, site, command, Luck::Fine)?;
        self.trace.push_reserved(entry_of(site, command, reply));
        note_reply(&mut self.issued, site, command, reply);
        self.steps.keep_asked();
        Ok(reply)
    }

    /// The schema of the sites, which is within its limits. Costs no memory.
    pub fn schema(&self) -> &Schema
        ensures value { result.now ≡ self.now.schema }
        ensures limits { IsSchema self.now.schema }
    {
        &self.schema
    }

    /// The entries of all sites, the oldest first: the one trace that the steps make (`world`).
    /// Each site gave the replies that it owes after its own entries alone, and took in only
    /// statements that were issued before (`sound`). So the trace is a run of one central escrow
    /// store: each escrow granted is allowed by infimum and supremum, each shortage names the
    /// site's true share, which is less than was asked, and each interval read holds the committed
    /// value (`central`). In every front of the trace the infimum lies above the floor, and the
    /// supremum below the ceiling, by exactly the free rights of all sites and those in flight, and
    /// no site has accepted more than it was given (`conserved`); so the infimum is never below the
    /// floor, nor the supremum above the ceiling (`bounded`): whichever of the open transactions
    /// are committed and whichever aborted, the value of every field lies within its floor and
    /// ceiling (`outcomes`). Floor and ceiling are those of the trace so far, which tightenings
    /// move inwards, and nothing moves outwards (`tighter`). And no statement is refused as another
    /// site's, or as forged (`none_strange`). Costs no memory.
    ///
    /// Source: O'Neil 1986 for infimum, supremum and the test of a grant, Balegas and others 2015
    /// for rights that are divided among sites and transferred, this project for the theorem.
    pub fn trace(&self) -> &[Entry]
        ensures world { reverse result.now ≡ trace_of self.now }
        ensures sound { IsSound self.now.schema (trace_of self.now) }
        ensures central { IsCentral self.now.schema (trace_of self.now) }
        ensures conserved { IsConservedThroughout self.now.schema (trace_of self.now) }
        ensures bounded { IsBoundedThroughout self.now.schema (trace_of self.now) }
        ensures outcomes { OutcomesAreBoundedThroughout self.now.schema (trace_of self.now) }
        ensures tighter { BoundsOnlyTighten self.now.schema (trace_of self.now) }
        ensures none_strange { NoneStrange (trace_of self.now) }
    {
        &self.trace
    }

    /// The steps taken, the oldest first: with the schema, all there is to a world. The error is
    /// want of memory. Costs a copy of the trace, and a push for each step.
    pub fn steps(&self, alloc: Global) -> Result<Vec<WorldStep>, AllocError>
        ensures steps { IfOk result (λ steps. steps.items ≡ self.now.steps) }
        ensures fit { All (StepFits self.now.schema) self.now.steps }
    {
        self.steps.steps_told(alloc, &self.trace)
    }

    /// The trace alone.
    pub(crate) fn into_trace(self) -> Vec<Entry>
        ensures world { reverse result.items ≡ trace_of self }
        ensures one_store { IsOneStore self.schema (trace_of self) }
    {
        self.trace
    }

    /// The statements that the trace issues, the oldest first: `Deliver` counts them from 1. Costs
    /// no memory.
    pub fn issued(&self) -> &[Statement]
        ensures issued { reverse result.now ≡ statements_issued (trace_of self.now) }
    {
        &self.issued
    }

    /// The free rights of a site on a field, to lower and to raise it: what its own entries of the
    /// trace leave it (`value`), both together at most the field's width, which is at most
    /// 2,000,000,000,000,000 (`within`). None where the site is down, or the field isn't in the
    /// schema. Costs no memory.
    ///
    /// Source: Balegas and others 2015 for shares as sums, this project for the two kinds.
    pub fn share(&self, site: SiteNo, field: FieldNo) -> Option<(u64, u64)>
        requires in_schema { site.0 < self.now.schema.sites }
        ensures value { result ≡ shares_of
            (place self.now.schema site.0 (fresh self.now.schema site.0)
            (own site.0 (trace_of self.now))) field }
        ensures within { IfSome result (λ shares. shares.0 + shares.1
            ≤ width_of (field_at self.now.schema field.0)) }
    {
        self.sites[usize::from(site.0)].share(field)
    }
}
