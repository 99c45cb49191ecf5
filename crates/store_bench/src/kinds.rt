//! The kinds of scripts that jobs take: what users of a store do, and what is awkward for it.

use crate::dice::Dice;
use crate::script::{Script, Shape};
use std::alloc::{AllocError, Global};

/// A bound that no script comes near to.
const FAR: i64 = 1_000_000_000_000;

/// How many transactions stay open at a site of `Held`, and how many escrows each has.
const HELD: u16 = 57;

const ESCROWS: u16 = 16;

/// A kind of script.
#[derive(Clone, Copy)]
pub enum Kind {
    /// Sales and purchases of one escrow, and a read behind each.
    Sales,
    /// Transactions of two escrows, gifts and their deliveries, tightenings, reads and shares.
    Mixed,
    /// The same with no tightening, and each gift delivered at once.
    Calm,
    /// Gifts of one field and their deliveries.
    Gifts,
    /// 57 transactions of 16 escrows stay open at each site, while others come and go.
    Held,
    /// Gifts out of the first site, and then the rights are made even over all sites.
    Levels,
    /// A quarter of all lines are restarts, some after a torn commit.
    Restarts,
}

/// A kind of script, over so many sites and fields, which begin in this epoch.
#[derive(Clone, Copy)]
pub struct Plan {
    pub kind: Kind,
    pub sites: u16,
    pub fields: u16,
    pub epoch: u32,
}

impl Plan {
    /// How the world begins.
    pub fn shape(self) -> Shape {
        Shape {
            sites: self.sites,
            fields: self.fields,
            floor: 0,
            ceiling: FAR,
            value: FAR / 2,
            epoch: self.epoch,
        }
    }
}

fn sale(script: &mut Script, dice: &mut Dice, plan: Plan) -> Result<(), AllocError> {
    let site = dice.below(plan.sites);
    let field = dice.below(plan.fields);
    let number = script.begin(site)?;
    script.escrow(site, number, field, dice.change())?;
    script.commit(site, number)?;
    script.read(site, field)
}

/// A transaction of two escrows, which is aborted now and then.
fn two_escrows(
    script: &mut Script,
    dice: &mut Dice,
    plan: Plan,
    site: u16,
) -> Result<(), AllocError> {
    let number = script.begin(site)?;
    script.escrow(site, number, dice.below(plan.fields), dice.change())?;
    script.escrow(site, number, dice.below(plan.fields), dice.change())?;
    if dice.one_in(4) {
        script.abort(site, number)
    } else {
        script.commit(site, number)
    }
}

/// The site behind this one, and behind the last the first.
fn next_site(plan: Plan, site: u16) -> u16 {
    let next = site.wrapping_add(1);
    if next < plan.sites { next } else { 0 }
}

/// A gift to the next site; its statement arrives at once, or late, or not at all.
fn gift(
    script: &mut Script,
    dice: &mut Dice,
    plan: Plan,
    site: u16,
    at_once: bool,
) -> Result<(), AllocError> {
    let field = dice.below(plan.fields);
    let amount = u64::from(dice.below(9)) + 1;
    script.give(site, next_site(plan, site), field, amount)?;
    let age = if at_once { 0 } else { dice.below(4) };
    script.deliver(script.issued().wrapping_sub(u64::from(age)))
}

fn mixed(
    script: &mut Script,
    dice: &mut Dice,
    plan: Plan,
    is_calm: bool,
) -> Result<(), AllocError> {
    let site = dice.below(plan.sites);
    two_escrows(script, dice, plan, site)?;
    if plan.sites > 1 {
        gift(script, dice, plan, site, is_calm)?;
    }
    two_escrows(script, dice, plan, site)?;
    if !is_calm && dice.one_in(2) {
        script.tighten(site, dice.below(plan.fields), 1)?;
    }
    script.read(site, dice.below(plan.fields))?;
    script.share(site, dice.below(plan.fields))
}

/// What is held at all sites from the first lines on.
fn hold(script: &mut Script, dice: &mut Dice, plan: Plan) -> Result<(), AllocError> {
    for site in 0..plan.sites {
        for _txn in 0..HELD {
            let number = script.begin(site)?;
            for _escrow in 0..ESCROWS {
                script.escrow(site, number, dice.below(plan.fields), dice.change())?;
            }
        }
    }
    Ok(())
}

/// Sixteen gifts out of the first site, and the rights are made even.
fn level(script: &mut Script, dice: &mut Dice, plan: Plan) -> Result<(), AllocError> {
    let field = dice.below(plan.fields);
    for _gift in 0..16 {
        let to = dice.below(plan.sites);
        script.give(0, to, field, u64::from(dice.below(1_000)) + 1)?;
    }
    for _sale in 0..40 {
        sale(script, dice, plan)?;
    }
    script.level(field)
}

/// A transaction, and a restart: one in 16 after a commit whose record is torn.
fn restart(script: &mut Script, dice: &mut Dice, plan: Plan) -> Result<(), AllocError> {
    let site = dice.below(plan.sites);
    let number = script.begin(site)?;
    script.escrow(site, number, dice.below(plan.fields), dice.change())?;
    if dice.one_in(16) {
        script.torn_commit(site, number, u64::from(dice.below(9)))?;
    } else {
        script.commit(site, number)?;
    }
    script.restart(site)
}

/// Some lines more.
pub fn add_round(script: &mut Script, dice: &mut Dice, plan: Plan) -> Result<(), AllocError> {
    match plan.kind {
        Kind::Sales | Kind::Held => sale(script, dice, plan),
        Kind::Mixed => mixed(script, dice, plan, false),
        Kind::Calm => mixed(script, dice, plan, true),
        Kind::Gifts => {
            let site = dice.below(plan.sites);
            gift(script, dice, plan, site, false)
        }
        Kind::Levels => level(script, dice, plan),
        Kind::Restarts => restart(script, dice, plan),
    }
}

/// A script of the plan, of so many lines or a few more.
pub fn script_of(
    alloc: Global,
    dice: &mut Dice,
    plan: Plan,
    lines: u64,
) -> Result<Script, AllocError> {
    let mut script = Script::new(alloc, plan.shape())?;
    if let Kind::Held = plan.kind {
        hold(&mut script, dice, plan)?;
    }
    for _round in 0..lines {
        if script.lines() >= lines {
            return Ok(script);
        }
        add_round(&mut script, dice, plan)?;
    }
    Ok(script)
}
