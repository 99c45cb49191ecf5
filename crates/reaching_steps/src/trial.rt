//! A world on which steps are tried.

ghost use Rattle.std.specs.Prelude.{◌≡◌, ◌<◌, ◌++◌, [], ◌∷◌, IfOk, OnOk, OnErr, reverse};
ghost use Rattle.field_bounds.specs.Effects.{open_txns};
ghost use Rattle.reaching_steps.specs.FieldHoldings.{Tells};
ghost use Rattle.field_bounds.specs.Limits.{IsSchema};
ghost use Rattle.field_bounds.specs.Central.{at_site, IsSound};
ghost use Rattle.world_steps.specs.World.{StepFits};
ghost use Rattle.world_steps.specs.View.{trace_of, Answers};
ghost use Rattle.reaching_steps.specs.Taken.{TookFront};
ghost use Rattle.reaching_steps.specs.Told.{IsToldBy};

use crate::site_table::renew;
use crate::standing::FieldHoldings;
use field_bounds::{FieldNo, SiteNo, TxnId};
use std::alloc::{AllocError, Global};
use std::marker::Model;
use world_steps::{StepReply, World, WorldStep};

/// A world, with a table of where each site stands on one field: the trace is read once for all that
/// is asked of it. Where want of memory came between a step and the table, the table is read no more.
#[derive(Drop)]
pub(crate) struct Trial {
    world: World,
    field: FieldNo,
    told: Vec<FieldHoldings>,
    is_whole: bool,
}

impl Model for Trial {
    ghost use Rattle.world_steps.specs.View.{WorldValue};
    ghost use Rattle.reaching_steps.specs.Told.{IsTrial};

    ghost Value = { WorldValue };

    ghost view = { λ t. t.world };

    ghost invariant = { λ t. IsTrial t.world t.field.0 t.told.items t.is_whole };
}

impl Trial {
    /// The trial on a world, in which no other step was tried yet, by its table.
    pub(crate) fn of(world: World, told: Vec<FieldHoldings>, field: FieldNo) -> Trial
        requires told { IsToldBy world field.0 told.items }
        ensures same { result ≡ world }
    {
        Trial {
            world,
            field,
            told,
            is_whole: true,
        }
    }

    /// The world, with the steps tried so far.
    pub(crate) fn into_world(self) -> World
        ensures same { result ≡ self }
    {
        self.world
    }

    /// Tries one step: what it made. The error is want of memory, and the step may have been taken
    /// then.
    pub(crate) fn step(&mut self, alloc: Global, step: &WorldStep) -> Result<StepReply, AllocError>
        requires fits { StepFits self.old.schema step.now }
        ensures steps { OnOk result (self.new ≡ record self.old {
          steps =
              self.old.steps ++ step.now ∷ [];
        }) }
        ensures answers { IfOk result (λ reply. Answers reply self.old step.now self.new) }
        ensures front { OnErr result (TookFront self.old (step.now ∷ []) self.new) }
    {
        let was_whole = self.is_whole;
        self.is_whole = false;
        let reply = self.world.step(alloc, step)?;
        renew(alloc, &self.world, &mut self.told, reply, self.field)?;
        self.is_whole = was_whole;
        Ok(reply)
    }

    /// The world, with the steps tried so far.
    pub(crate) fn world(&self) -> &World
        ensures value { result.now ≡ self.now }
    {
        &self.world
    }

    /// The open transactions of a site, in order of begin. The error is want of memory in an
    /// earlier step.
    pub(crate) fn open_at(&self, site: SiteNo) -> Result<&[TxnId], AllocError>
        requires in_schema { site.0 < self.now.schema.sites }
        ensures value { IfOk result (λ ids. reverse ids.now
            ≡ open_txns (at_site self.now.schema (trace_of self.now) site.0)) }
    {
        let _trace = self.world.trace();
        if !self.is_whole {
            return Err(AllocError);
        }
        Ok(&self.told[usize::from(site.0)].txns)
    }

    /// Where a site stands on the field that the trial is of, at the cost of a look. The error tells
    /// that the table doesn't know: memory was wanting in an earlier step, or the field is another.
    pub(crate) fn standing_at(
        &self,
        site: SiteNo,
        field: FieldNo,
    ) -> Result<&FieldHoldings, AllocError>
        requires in_schema { site.0 < self.now.schema.sites }
        ensures value { IfOk result (λ told. Tells field.0 told.now
            (at_site self.now.schema (trace_of self.now) site.0)) }
        ensures sound { IsSound self.now.schema (trace_of self.now) }
        ensures limits { IsSchema self.now.schema }
    {
        let _schema = self.world.schema();
        let _trace = self.world.trace();
        if !self.is_whole {
            return Err(AllocError);
        }
        let known = self.field;
        if known.0 != field.0 {
            return Err(AllocError);
        }
        Ok(&self.told[usize::from(site.0)])
    }
}
