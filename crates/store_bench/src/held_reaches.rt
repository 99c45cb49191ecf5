//! Reaches that are awkward to read for: at each site transactions stay open that hold on the field,
//! spares in doubt were kept, and all sites are restarted between one reach and the next.

use crate::dice::Dice;
use crate::digest::Digest;
use crate::jobs::run;
use crate::kinds::{Kind, Plan, add_round};
use crate::script::Script;
use std::alloc::{AllocError, Global};

/// The world, and the sales that come and go in it.
const PLAN: Plan = Plan {
    kind: Kind::Sales,
    sites: 6,
    fields: 4,
    epoch: 0,
};

/// How many transactions stay open at each site when a value is reached for.
const OPEN: u16 = 24;

/// How many spares come into doubt ahead of a reach.
const SPARES: u16 = 4;

/// How many sales come ahead of a reach.
const SALES: u16 = 20;

/// More bytes than a record has: one that is torn behind them is kept, and its site isn't told.
const WHOLE: u64 = 1_000;

/// A site behind the first, at which the values are reached for.
fn other_site(dice: &mut Dice) -> u16 {
    dice.below(PLAN.sites - 1).wrapping_add(1)
}

/// Each site is restarted, which ends what is open, and begins its numbers anew: a reach has moved
/// them.
fn restart_all(script: &mut Script) -> Result<(), AllocError> {
    for site in 0..PLAN.sites {
        script.restart(site)?;
    }
    Ok(())
}

/// A spare of the field in doubt, until the restart finds that it was kept. Its statement is told by
/// the next reach.
fn spare_in_doubt(script: &mut Script, dice: &mut Dice, field: u16) -> Result<(), AllocError> {
    let from = other_site(dice);
    let to = other_site(dice);
    if from == to {
        return Ok(());
    }
    let want = u64::from(dice.below(900)) + 1;
    script.torn_spare(from, to, field, want, WHOLE)?;
    script.restart(from)
}

fn spare_some(script: &mut Script, dice: &mut Dice, field: u16) -> Result<(), AllocError> {
    for _spare in 0..SPARES {
        spare_in_doubt(script, dice, field)?;
    }
    Ok(())
}

/// Transactions stay open at a site, each with an escrow on the field and one on any.
fn hold(script: &mut Script, dice: &mut Dice, site: u16, field: u16) -> Result<(), AllocError> {
    for _txn in 0..OPEN {
        let number = script.begin(site)?;
        script.escrow(site, number, field, dice.change())?;
        script.escrow(site, number, dice.below(PLAN.fields), dice.change())?;
    }
    Ok(())
}

fn hold_all(script: &mut Script, dice: &mut Dice, field: u16) -> Result<(), AllocError> {
    for site in 0..PLAN.sites {
        hold(script, dice, site, field)?;
    }
    Ok(())
}

fn sell_some(script: &mut Script, dice: &mut Dice) -> Result<(), AllocError> {
    for _sale in 0..SALES {
        add_round(script, dice, PLAN)?;
    }
    Ok(())
}

/// A value of a field is reached for at the first site, behind all that.
fn add_reach(script: &mut Script, dice: &mut Dice) -> Result<(), AllocError> {
    let field = dice.below(PLAN.fields);
    restart_all(script)?;
    spare_some(script, dice, field)?;
    hold_all(script, dice, field)?;
    sell_some(script, dice)?;
    let away = i64::from(dice.below(400)) - 200;
    script.reach(0, field, PLAN.shape().value.wrapping_add(away))
}

/// Values are reached for in a script of about so many lines, one for some 525 of them.
pub fn held_reaches(alloc: Global, dice: &mut Dice, lines: u32) -> Result<Digest, AllocError> {
    let mut script = Script::new(alloc, PLAN.shape())?;
    for _reach in 0..lines / 525 + 1 {
        add_reach(&mut script, dice)?;
    }
    Ok(run(alloc, &script, Digest::new()))
}
