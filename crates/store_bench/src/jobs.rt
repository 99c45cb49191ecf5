//! The jobs that users of a store wait for, each through its public calls. What a job comes to is
//! taken into a digest.

use crate::dice::Dice;
use crate::digest::Digest;
use crate::kinds::{Kind, Plan, add_round, script_of};
use crate::script::Script;
use escrow_audit::audit_text;
use escrow_run::run_script;
use script_input::Watched;
use std::alloc::{AllocError, Global};
use std::thread::Threads;

/// A script of a job: its plan, and how many hundredths of the job's lines it has.
#[derive(Clone, Copy)]
pub struct Part {
    pub kind: Kind,
    pub sites: u16,
    pub fields: u16,
    pub percent: u64,
}

impl Part {
    pub fn plan(self, epoch: u32) -> Plan {
        Plan {
            kind: self.kind,
            sites: self.sites,
            fields: self.fields,
            epoch,
        }
    }

    /// Its lines, in a job of so many.
    pub fn lines(self, all: u32) -> u64 {
        u64::from(all).wrapping_mul(self.percent) / 100
    }
}

/// What `escrow run` is given: a hot field, a few, many, gifts, much that is held, rights made even.
const RUNS: [Part; 6] = [
    Part {
        kind: Kind::Sales,
        sites: 2,
        fields: 1,
        percent: 25,
    },
    Part {
        kind: Kind::Mixed,
        sites: 4,
        fields: 8,
        percent: 20,
    },
    Part {
        kind: Kind::Mixed,
        sites: 64,
        fields: 256,
        percent: 20,
    },
    Part {
        kind: Kind::Gifts,
        sites: 2,
        fields: 1,
        percent: 10,
    },
    Part {
        kind: Kind::Held,
        sites: 4,
        fields: 8,
        percent: 15,
    },
    Part {
        kind: Kind::Levels,
        sites: 64,
        fields: 4,
        percent: 10,
    },
];

/// What `escrow run` is given by who tries stops.
const RESTARTS: [Part; 3] = [
    Part {
        kind: Kind::Restarts,
        sites: 2,
        fields: 1,
        percent: 50,
    },
    Part {
        kind: Kind::Restarts,
        sites: 4,
        fields: 8,
        percent: 40,
    },
    Part {
        kind: Kind::Restarts,
        sites: 2,
        fields: 64,
        percent: 10,
    },
];

/// Whose answers are audited.
const AUDITS: [Part; 4] = [
    Part {
        kind: Kind::Mixed,
        sites: 4,
        fields: 8,
        percent: 35,
    },
    Part {
        kind: Kind::Mixed,
        sites: 64,
        fields: 256,
        percent: 20,
    },
    Part {
        kind: Kind::Gifts,
        sites: 2,
        fields: 1,
        percent: 20,
    },
    Part {
        kind: Kind::Held,
        sites: 4,
        fields: 8,
        percent: 25,
    },
];

/// The histories behind which values are reached for: those of `Mixed` are refused, since the fields
/// were tightened.
const REACHES: [Part; 3] = [
    Part {
        kind: Kind::Calm,
        sites: 4,
        fields: 8,
        percent: 60,
    },
    Part {
        kind: Kind::Mixed,
        sites: 4,
        fields: 8,
        percent: 30,
    },
    Part {
        kind: Kind::Calm,
        sites: 16,
        fields: 32,
        percent: 10,
    },
];

/// Runs a script, and takes in what it writes.
pub fn run(alloc: Global, script: &Script, digest: Digest) -> Digest {
    let mut writer = Watched::new(digest);
    let ended = run_script(alloc, &mut Watched::new(script.bytes()), &mut writer);
    let mut digest = writer.into_inner();
    digest.take_number(u64::from(ended.is_ok()));
    digest
}

/// What a script writes; a fault ends it early.
fn trace_of(alloc: Global, script: &Script) -> Vec<u8> {
    let mut writer = Watched::new(Vec::new(alloc));
    let _ = run_script(alloc, &mut Watched::new(script.bytes()), &mut writer);
    writer.into_inner()
}

/// Audits a trace, and takes in the answer.
fn audit(
    rt: &(impl Threads + Sync),
    alloc: Global,
    fields: bool,
    trace: &[u8],
    digest: Digest,
) -> Digest {
    let mut writer = Watched::new(digest);
    let ended = audit_text(rt, alloc, fields, &mut Watched::new(trace), &mut writer);
    let mut digest = writer.into_inner();
    digest.take_number(u64::from(ended.is_ok()));
    digest
}

fn run_parts(
    alloc: Global,
    dice: &mut Dice,
    parts: &[Part],
    lines: u32,
) -> Result<Digest, AllocError> {
    let mut digest = Digest::new();
    for part in parts {
        let script = script_of(alloc, dice, part.plan(0), part.lines(lines))?;
        digest = run(alloc, &script, digest);
    }
    Ok(digest)
}

/// Scripts of each kind are run.
pub fn runs(alloc: Global, dice: &mut Dice, lines: u32) -> Result<Digest, AllocError> {
    run_parts(alloc, dice, &RUNS, lines)
}

/// Scripts with many restarts are run.
pub fn restarts(alloc: Global, dice: &mut Dice, lines: u32) -> Result<Digest, AllocError> {
    run_parts(alloc, dice, &RESTARTS, lines)
}

/// Adds a reach for each 2,000 lines, of which one in two has some lines more ahead of it.
fn add_reaches(
    script: &mut Script,
    dice: &mut Dice,
    plan: Plan,
    lines: u64,
) -> Result<(), AllocError> {
    for _reach in 0..lines / 2_000 + 1 {
        if dice.one_in(2) {
            add_round(script, dice, plan)?;
        }
        let away = i64::from(dice.below(400)) - 200;
        let target = plan.shape().value.wrapping_add(away);
        script.reach(dice.below(plan.sites), dice.below(plan.fields), target)?;
    }
    Ok(())
}

/// Values are reached for behind one history of each kind.
fn reach_once(
    alloc: Global,
    dice: &mut Dice,
    lines: u32,
    digest: Digest,
) -> Result<Digest, AllocError> {
    let mut digest = digest;
    for part in REACHES {
        let plan = part.plan(0);
        let lines = part.lines(lines);
        let mut script = script_of(alloc, dice, plan, lines)?;
        add_reaches(&mut script, dice, plan, lines)?;
        digest = run(alloc, &script, digest);
    }
    Ok(digest)
}

/// Values are reached for behind long histories, so many of each kind.
pub fn reaches(
    alloc: Global,
    dice: &mut Dice,
    lines: u32,
    rounds: u32,
) -> Result<Digest, AllocError> {
    let mut digest = Digest::new();
    for _round in 0..rounds {
        digest = reach_once(alloc, dice, lines, digest)?;
    }
    Ok(digest)
}

/// The answers of scripts are audited, in one pass and in parts by threads; and once more with an
/// entry behind them that is illegal.
pub fn audits(
    rt: &(impl Threads + Sync),
    alloc: Global,
    dice: &mut Dice,
    lines: u32,
) -> Result<Digest, AllocError> {
    let mut digest = Digest::new();
    for part in AUDITS {
        let script = script_of(alloc, dice, part.plan(0), part.lines(lines))?;
        let mut trace = trace_of(alloc, &script);
        digest = audit(rt, alloc, false, trace.as_slice(), digest);
        digest = audit(rt, alloc, true, trace.as_slice(), digest);
        trace.extend_from_slice(b"0 commit 999999.1 -> committed\n")?;
        digest = audit(rt, alloc, false, trace.as_slice(), digest);
        digest = audit(rt, alloc, true, trace.as_slice(), digest);
    }
    Ok(digest)
}
