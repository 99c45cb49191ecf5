//! Judges 20,000 traces in which something was changed by all four calls of the judge, and compares
//! what they answer. The traces are those of small worlds, whose steps are drawn by a generator with
//! a fixed seed, as is what is changed in each. What is expected is the verdict of `judge_plain`,
//! which sums each front as the definitions read.
//!
//! It writes how many traces were judged, whether each rule was the first that was broken in some,
//! and some legal, and whether all calls answered alike; and on standard error how often each was.
#![tactic(auto)]

mod counts;
mod dice;
mod drawn;
mod mutation;
mod verdicts;
mod walk;

use counts::Counts;
use dice::Dice;
use field_bounds::{Entry, Schema};
use std::alloc::{AllocError, Global};
use std::io;
use std::thread::Threads;

/// How many worlds are made, and how many traces of each are changed.
const WORLDS: u64 = 1_000;

const CHANGES: u64 = 20;

/// Three sites and three fields.
const HEADER: &str =
    r#"{"sites":3,"fields":[{"name":"a","floor":0,"ceiling":20,"value":9},{"name":"b","floor":-6,"ceiling":6,"value":0},{"name":"c","floor":0,"ceiling":40,"value":12}]}"#;

/// Judges a trace with so many changes, one at a time.
fn judge_changes(
    rt: &(impl Threads + Sync),
    alloc: Global,
    schema: &Schema,
    trace: &[Entry],
    dice: &mut Dice,
    counts: &mut Counts,
) -> Result<(), AllocError> {
    for _change in 0..CHANGES {
        let entries = mutation::mutated(alloc, dice, trace)?;
        counts.note(verdicts::judged(rt, alloc, schema, &entries)?);
    }
    Ok(())
}

/// How many steps a world takes: one in fifty so many that its trace is judged by threads.
fn steps_of(world: u64) -> u64 {
    if world % 50 == 0 { 80 } else { 16 }
}

/// Judges all of them.
fn judge_all(rt: &(impl Threads + Sync), alloc: Global) -> Result<Counts, AllocError> {
    let mut dice = Dice::new(20_250_701);
    let mut counts = Counts::new();
    for world in 0..WORLDS {
        let Ok(schema) = Schema::from_header(alloc, HEADER.as_bytes()) else {
            return Err(AllocError);
        };
        let Ok(twin) = Schema::from_header(alloc, HEADER.as_bytes()) else {
            return Err(AllocError);
        };
        let trace = walk::trace_of(alloc, twin, steps_of(world), &mut dice)?;
        judge_changes(rt, alloc, &schema, &trace, &mut dice, &mut counts)?;
    }
    Ok(counts)
}

fn main(rt: HostRuntime) -> io::Result<()> {
    let counts = judge_all(&rt, rt.alloc())?;
    eprintln!(rt;
        "legal {}, site {}, grant {}",
        counts.legal, counts.site, counts.grant
    )?;
    eprintln!(rt;
        "shortage {}, interval {}",
        counts.shortage, counts.interval
    )?;
    eprintln!(rt; "statement {}, reply {}", counts.statement, counts.reply)?;
    println!(rt; "mutated traces: {}", counts.all())?;
    println!(rt; "legal and each rule: {}", counts.has_each())?;
    if counts.unlike == 0 {
        println!(rt; "all alike")
    } else {
        println!(rt; "judged otherwise: {}", counts.unlike)
    }
}
