//! What users of a store wait for, for `bench/run`: jobs over inputs that are made from a seed,
//! through the store's public calls.
//!
//! The arguments are the job, `runs`, `restarts`, `reaches`, `held_reaches`, `audits`, `starts`,
//! `serves`, `sets` or `all`, the seed, and how many lines the job has, or transactions for `starts`,
//! or statements for `sets`; and how many times over `reaches` takes inputs, once where nothing is
//! said. It writes the name of each job and the digest of all that the calls answered.
#![tactic(auto)]

mod dice;
mod digest;
mod held_reaches;
mod jobs;
mod kinds;
mod script;
mod sets;
mod sites;

use dice::Dice;
use digest::Digest;
use sites::Stopped;
use std::alloc::Global;
use std::env;
use std::process::ExitCode;
use std::rt::Env;
use std::thread::Threads;

const JOBS: [&str; 8] = [
    "runs",
    "restarts",
    "reaches",
    "held_reaches",
    "audits",
    "starts",
    "serves",
    "sets",
];

/// What one job comes to.
fn done(
    rt: &(impl Threads + Sync),
    alloc: Global,
    job: &str,
    seed: u64,
    lines: u32,
    rounds: u32,
) -> Result<Digest, Stopped> {
    let mut dice = Dice::new(seed);
    match job {
        "runs" => Ok(jobs::runs(alloc, &mut dice, lines)?),
        "restarts" => Ok(jobs::restarts(alloc, &mut dice, lines)?),
        "reaches" => Ok(jobs::reaches(alloc, &mut dice, lines, rounds)?),
        "held_reaches" => Ok(held_reaches::held_reaches(alloc, &mut dice, lines)?),
        "audits" => Ok(jobs::audits(rt, alloc, &mut dice, lines)?),
        "starts" => sites::starts(alloc, &mut dice, lines),
        "serves" => sites::serves(alloc, &mut dice, lines),
        "sets" => Ok(sets::sets(alloc, &mut dice, lines)?),
        _ => Err(Stopped),
    }
}

/// Does one job, and writes what it came to.
fn tell<R: Threads + Sync + Print + AllocGlobal>(
    rt: &R,
    job: &str,
    seed: u64,
    lines: u32,
    rounds: u32,
) -> Option<()> {
    let digest = done(rt, rt.alloc(), job, seed, lines, rounds).ok()?.value();
    println!(rt; "{job} {digest}").ok()
}

fn run<R: Threads + Sync + Env + Print + AllocGlobal>(rt: &R) -> Option<()> {
    let words: Vec<String> = env::args(rt).ok()?.collect(rt.alloc()).ok()?;
    let asked = words.get(1)?.as_str();
    let seed = words.get(2)?.parse::<u64>().ok()?;
    let lines = words.get(3)?.parse::<u32>().ok()?;
    let rounds = match words.get(4) {
        Some(word) => word.parse::<u32>().ok()?,
        None => 1,
    };
    for job in JOBS {
        if asked == job || asked == "all" {
            tell(rt, job, seed, lines, rounds)?;
        }
    }
    Some(())
}

fn main(rt: HostRuntime) -> ExitCode {
    match run(&rt) {
        Some(()) => ExitCode::SUCCESS,
        None => ExitCode::FAILURE,
    }
}
