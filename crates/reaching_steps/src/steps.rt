//! The steps, tried one after another on a trial.

ghost use Rattle.std.specs.Prelude.{◌≡◌, ◌≢◌, ◌<◌, [], ◌∷◌, IfOk, IfErr, OnOk, OnErr, None, Some, if◌then◌else◌};
ghost use Rattle.field_bounds.specs.declared.kind.Kind.TheVariants as kinds;
ghost use Rattle.world_steps.specs.World.{StepFits, statements_issued};
ghost use Rattle.world_steps.specs.View.{trace_of};
ghost use Rattle.reaching_steps.specs.Reach.{is_wanting, number_of, telling, steps_of_tasks, over_sites, aborts, restates, delivers, passes_on, moves, move_tasks, reach_steps, reach_fault};
ghost use Rattle.reaching_steps.specs.Body.{Explains, CarriedOut, HasReached, DoesWhereFit};
ghost use Rattle.reaching_steps.specs.Taken.{steps_of, TookFront};
ghost use Rattle.reaching_steps.specs.declared.fault.ReachFault.TheVariants.{NoMemory};

use crate::fault::ReachFault;
use crate::faults::fault_of;
use crate::readers::{change_at, is_at, next_at, number_wanted, open_at};
use crate::taken::StepTaken;
use crate::trial::Trial;
use field_bounds::{Command, FieldNo, Kind, SiteNo};
use std::alloc::{AllocError, Global};
use world_steps::{Luck, WorldStep};

/// One step, taken in the trial and noted with what answered it.
fn take(
    alloc: Global,
    trial: &mut Trial,
    taken: &mut Vec<StepTaken>,
    step: WorldStep,
) -> Result<(), AllocError>
    requires fits { StepFits trial.old.schema step }
    ensures grew { CarriedOut result trial.old taken.old.items
        (step ∷ []) trial.new taken.new.items }
{
    let reply = trial.step(alloc, &step)?;
    taken.push(StepTaken { step, reply })?;
    Ok(())
}

/// A command at a site, taken so.
fn ask(
    alloc: Global,
    trial: &mut Trial,
    taken: &mut Vec<StepTaken>,
    site: SiteNo,
    command: Command,
) -> Result<(), AllocError>
    requires fits { StepFits trial.old.schema (Rattle.reaching_steps.specs.Reach.fine site.0
        command) }
    ensures grew { CarriedOut result trial.old taken.old.items
        (Rattle.reaching_steps.specs.Reach.fine site.0 command ∷ []) trial.new taken.new.items }
{
    take(
        alloc,
        trial,
        taken,
        WorldStep::Do {
            site,
            command,
            luck: Luck::Fine,
        },
    )
}

/// The open transactions of another site are aborted.
fn abort_open(
    alloc: Global,
    trial: &mut Trial,
    taken: &mut Vec<StepTaken>,
    named: SiteNo,
    site: SiteNo,
) -> Result<(), AllocError>
    requires in_schema { site.0 < trial.old.schema.sites }
    ensures grew { CarriedOut result trial.old taken.old.items
        (aborts trial.old.schema named.0 site.0 (trace_of trial.old)) trial.new taken.new.items }
{
    if site.0 == named.0 {
        return Ok(());
    }
    let ids = open_at(alloc, trial, site)?;
    for id in &ids {
        ask(alloc, trial, taken, site, Command::Abort { txn: *id })?;
    }
    Ok(())
}

/// What one site gave to another is told again, where it has to be delivered and was never told.
fn tell_again(
    alloc: Global,
    trial: &mut Trial,
    taken: &mut Vec<StepTaken>,
    named: SiteNo,
    field: FieldNo,
    from: SiteNo,
    to: SiteNo,
    kind: Kind,
    which: u64,
) -> Result<(), AllocError>
    requires giver { from.0 < trial.old.schema.sites }
    requires wanted { Some which ≡ (if is_wanting trial.old.schema named.0 field.0
        from.0 to.0 kind (trace_of trial.old)
        then Some (number_of (telling trial.old.schema
        (trace_of trial.old) field.0 kind from.0 to.0) (statements_issued (trace_of trial.old)))
        else None) }
    ensures grew { CarriedOut result trial.old taken.old.items
        (restates trial.old.schema named.0 field.0 from.0 to.0 kind (trace_of trial.old)) trial.new taken.new.items }
{
    if which == 0 {
        ask(
            alloc,
            trial,
            taken,
            from,
            Command::Restate { to, field, kind },
        )
    } else {
        Ok(())
    }
}

/// It is delivered, where it has to be.
fn deliver(
    alloc: Global,
    trial: &mut Trial,
    taken: &mut Vec<StepTaken>,
    named: SiteNo,
    field: FieldNo,
    from: SiteNo,
    to: SiteNo,
    kind: Kind,
) -> Result<(), AllocError>
    requires giver { from.0 < trial.old.schema.sites }
    requires receiver { to.0 < trial.old.schema.sites }
    ensures grew { CarriedOut result trial.old taken.old.items
        (delivers trial.old.schema named.0 field.0 from.0 to.0 kind (trace_of trial.old)) trial.new taken.new.items }
{
    let wanted = number_wanted(trial, named, field, from, to, kind)?;
    match wanted {
        None => Ok(()),
        Some(k) => take(
            alloc,
            trial,
            taken,
            WorldStep::Deliver {
                k,
                luck: Luck::Fine,
            },
        ),
    }
}

/// Both, of one pair of sites and one kind.
fn pass_on(
    alloc: Global,
    trial: &mut Trial,
    taken: &mut Vec<StepTaken>,
    named: SiteNo,
    field: FieldNo,
    from: SiteNo,
    to: SiteNo,
    kind: Kind,
) -> Result<(), AllocError>
    requires giver { from.0 < trial.old.schema.sites }
    requires receiver { to.0 < trial.old.schema.sites }
    ensures grew { CarriedOut result trial.old taken.old.items
        (steps_of_tasks trial.old.schema trial.old.steps
        (restates trial.old.schema named.0 field.0 from.0 to.0 kind
        ∷ delivers trial.old.schema named.0 field.0 from.0 to.0 kind ∷ [])) trial.new taken.new.items }
{
    let wanted = number_wanted(trial, named, field, from, to, kind)?;
    match wanted {
        None => Ok(()),
        Some(which) => {
            tell_again(alloc, trial, taken, named, field, from, to, kind, which)?;
            deliver(alloc, trial, taken, named, field, from, to, kind)
        }
    }
}

/// Another site moves the field as far as it can towards the target.
fn move_field(
    alloc: Global,
    trial: &mut Trial,
    taken: &mut Vec<StepTaken>,
    named: SiteNo,
    field: FieldNo,
    target: i64,
    site: SiteNo,
) -> Result<(), AllocError>
    requires in_schema { site.0 < trial.old.schema.sites }
    ensures grew { CarriedOut result trial.old taken.old.items
        (moves trial.old.schema named.0 field.0 target site.0 (trace_of trial.old)) trial.new taken.new.items }
{
    if site.0 == named.0 {
        return Ok(());
    }
    let found = change_at(trial, field, target, site)?;
    match found {
        None => Ok(()),
        Some(change) => {
            let txn = next_at(trial, site);
            ask(alloc, trial, taken, site, Command::Begin)?;
            ask(
                alloc,
                trial,
                taken,
                site,
                Command::Escrow { txn, field, change },
            )?;
            ask(alloc, trial, taken, site, Command::Commit { txn })
        }
    }
}

/// First, the open transactions of all other sites.
fn abort_all(
    alloc: Global,
    trial: &mut Trial,
    taken: &mut Vec<StepTaken>,
    named: SiteNo,
    sites: u16,
) -> Result<(), AllocError>
    requires all { sites ≡ trial.old.schema.sites }
    ensures grew { CarriedOut result trial.old taken.old.items
        (steps_of_tasks trial.old.schema trial.old.steps
        (over_sites sites (λ s. aborts trial.old.schema named.0 s ∷ []))) trial.new taken.new.items }
{
    for s in 0..sites {
        abort_open(alloc, trial, taken, named, SiteNo(s))?;
    }
    Ok(())
}

/// What one site gave to each other one.
fn pass_from(
    alloc: Global,
    trial: &mut Trial,
    taken: &mut Vec<StepTaken>,
    named: SiteNo,
    field: FieldNo,
    sites: u16,
    from: SiteNo,
) -> Result<(), AllocError>
    requires in_schema { from.0 < trial.old.schema.sites }
    requires all { sites ≡ trial.old.schema.sites }
    ensures grew { CarriedOut result trial.old taken.old.items
        (steps_of_tasks trial.old.schema trial.old.steps
        (over_sites sites (λ to. passes_on trial.old.schema named.0 field.0 from.0 to))) trial.new taken.new.items }
{
    for to in 0..sites {
        pass_on(
            alloc,
            trial,
            taken,
            named,
            field,
            from,
            SiteNo(to),
            Kind::Lower,
        )?;
        pass_on(
            alloc,
            trial,
            taken,
            named,
            field,
            from,
            SiteNo(to),
            Kind::Raise,
        )?;
    }
    Ok(())
}

/// Then what was given.
fn pass_all(
    alloc: Global,
    trial: &mut Trial,
    taken: &mut Vec<StepTaken>,
    named: SiteNo,
    field: FieldNo,
    sites: u16,
) -> Result<(), AllocError>
    requires all { sites ≡ trial.old.schema.sites }
    ensures grew { CarriedOut result trial.old taken.old.items
        (steps_of_tasks trial.old.schema trial.old.steps
        (over_sites sites (λ from. over_sites sites
        (λ to. passes_on trial.old.schema named.0 field.0 from to)))) trial.new taken.new.items }
{
    for from in 0..sites {
        pass_from(alloc, trial, taken, named, field, sites, SiteNo(from))?;
    }
    Ok(())
}

/// Last, the field.
fn move_all(
    alloc: Global,
    trial: &mut Trial,
    taken: &mut Vec<StepTaken>,
    named: SiteNo,
    field: FieldNo,
    target: i64,
    sites: u16,
) -> Result<(), AllocError>
    requires all { sites ≡ trial.old.schema.sites }
    ensures grew { CarriedOut result trial.old taken.old.items
        (steps_of_tasks trial.old.schema trial.old.steps
        (move_tasks trial.old.schema named.0 field.0 target sites)) trial.new taken.new.items }
{
    for s in 0..sites {
        move_field(alloc, trial, taken, named, field, target, SiteNo(s))?;
    }
    Ok(())
}

/// The steps; the trial has them taken.
fn plan(
    alloc: Global,
    trial: &mut Trial,
    named: SiteNo,
    field: FieldNo,
    target: i64,
    sites: u16,
) -> Result<Vec<StepTaken>, AllocError>
    requires all { sites ≡ trial.old.schema.sites }
    ensures reached { IfOk result (λ taken. HasReached trial.old named field target trial.new
        taken.items) }
    ensures front { OnErr result (TookFront trial.old
        (reach_steps trial.old.schema trial.old.steps named field target) trial.new) }
{
    let mut taken = Vec::new(alloc);
    let there = is_at(trial, field, target)?;
    if there {
        return Ok(taken);
    }
    abort_all(alloc, trial, &mut taken, named, sites)?;
    pass_all(alloc, trial, &mut taken, named, field, sites)?;
    move_all(alloc, trial, &mut taken, named, field, target, sites)?;
    Ok(taken)
}

/// The steps, where no fault holds, with what they are promised to do.
fn plan_clear(
    alloc: Global,
    trial: &mut Trial,
    named: SiteNo,
    field: FieldNo,
    target: i64,
) -> Result<Vec<StepTaken>, AllocError>
    requires clear { reach_fault trial.old.schema (trace_of trial.old) named field target ≡ None }
    ensures reached { IfOk result (λ taken. HasReached trial.old named field target trial.new
        taken.items) }
    ensures front { OnErr result (TookFront trial.old
        (reach_steps trial.old.schema trial.old.steps named field target) trial.new) }
    ensures does { IfOk result (λ taken. DoesWhereFit trial.old named field target
        (steps_of taken.items)) }
{
    let sites = trial.world().schema().sites();
    plan(alloc, trial, named, field, target, sites)
}

/// The steps, told and taken on a trial in which no other step was tried yet, or the first fault,
/// at which none was taken, or want of memory, at which a front of them may have been.
pub(crate) fn reach_on(
    alloc: Global,
    trial: &mut Trial,
    site: SiteNo,
    field: FieldNo,
    target: i64,
) -> Result<Vec<StepTaken>, ReachFault>
    ensures clear { OnOk result (reach_fault trial.old.schema (trace_of trial.old) site field target
        ≡ None) }
    ensures fault { IfErr result (λ fault. Explains fault
        (reach_fault trial.old.schema (trace_of trial.old) site field target)) }
    ensures reached { IfOk result (λ taken. HasReached trial.old site field target trial.new
        taken.items) }
    ensures does { IfOk result (λ taken. DoesWhereFit trial.old site field target
        (steps_of taken.items)) }
    ensures same { IfErr result (λ fault. fault ≢ NoMemory → trial.new ≡ trial.old) }
    ensures front { OnErr result (TookFront trial.old
        (reach_steps trial.old.schema trial.old.steps site field target) trial.new) }
{
    let Ok(found) = fault_of(trial, site, field, target) else {
        return Err(ReachFault::NoMemory);
    };
    match found {
        Some(fault) => Err(fault),
        None => match plan_clear(alloc, trial, site, field, target) {
            Ok(taken) => Ok(taken),
            Err(_) => Err(ReachFault::NoMemory),
        },
    }
}
