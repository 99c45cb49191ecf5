//! Desks that threads call, for `bench/bench.py`: a begin, an escrow, a commit and a read, over and
//! over.
//!
//! The arguments are how many desks, how many threads call each, and how many rounds each thread
//! makes. It writes the calls served and the sum of the receipts' numbers, and on standard error
//! the nanoseconds that passed.
#![tactic(auto)]

ghost use Rattle.std.specs.Prelude.{◌≡◌, ◌<◌};

use field_bounds::{Command, FieldNo, FieldSpec, Reply, Schema, SiteNo};
use kept_records::MemoryMedium;
use site_desk::{Blank, Closed, Desk, Pass};
use std::alloc::Global;
use std::marker::Brand;
use std::process::ExitCode;
use std::rt::{Clock, Env};
use std::sync::Wait;
use std::sync::ledger::Ledger;
use std::thread::Threads;
use std::time::Instant;
use std::{env, thread};

const STOCK: FieldNo = FieldNo(0);

/// What is asked: so many desks, each called by so many threads, which make so many rounds each.
#[derive(Clone, Copy)]
struct Plan {
    desks: u16,
    threads: u64,
    rounds: u64,
}

/// A begin, an escrow, a commit and a read: the sum of the receipts' numbers.
fn round<L: Ledger, R: Wait>(
    rt: &R,
    alloc: Global,
    desk: &Desk<L, MemoryMedium>,
    pass: &mut Pass<L>,
    change: i64,
) -> Option<u64> {
    let begun = desk.call(rt, alloc, pass, Command::Begin).ok()?;
    let Reply::Begun(txn) = begun.entry().reply else {
        return None;
    };
    let escrow = Command::Escrow {
        txn,
        field: STOCK,
        change,
    };
    let granted = desk.call(rt, alloc, pass, escrow).ok()?;
    let committed = desk.call(rt, alloc, pass, Command::Commit { txn }).ok()?;
    let read = desk
        .call(rt, alloc, pass, Command::Read { field: STOCK })
        .ok()?;
    let first = begun.number().wrapping_add(granted.number());
    Some(
        first
            .wrapping_add(committed.number())
            .wrapping_add(read.number()),
    )
}

/// All rounds of one thread: its pass, and the sum of its receipts' numbers.
fn rounds<L: Ledger, R: Wait>(
    rt: &R,
    alloc: Global,
    desk: &Desk<L, MemoryMedium>,
    pass: Pass<L>,
    count: u64,
) -> Option<(Pass<L>, u64)> {
    let mut pass = pass;
    let mut sum = 0u64;
    for number in 0..count {
        let change = if number % 2 == 0 { -20 } else { 20 };
        sum = sum.wrapping_add(round(rt, alloc, desk, &mut pass, change)?);
    }
    Some((pass, sum))
}

/// One desk, closed once its threads have ended, and the sum of all receipts' numbers.
fn served_over<L: Ledger + Send + Sync, R: Threads + Wait + Sync>(
    rt: &R,
    alloc: Global,
    blank: Blank,
    schema: &Schema,
    site: SiteNo,
    count: u64,
) -> Option<(Closed<MemoryMedium>, u64)>
    requires name { blank.name ≡ L.name }
    requires parts { blank.parts ≡ L.parts }
    requires some { 0 < blank.parts }
    requires in_schema { site.0 < schema.now.sites }
{
    let medium = MemoryMedium::new(Vec::new(alloc));
    let (desk, passes) = Desk::<L, MemoryMedium>::new(alloc, blank, schema, site, medium).ok()?;
    let shared = &desk;
    let called = thread::map_vec(rt, passes, &|pass| rounds(rt, alloc, shared, pass, count)).ok()?;
    let mut passes = Vec::new(alloc);
    let mut sum = 0u64;
    for one in called {
        let (pass, numbers) = one?;
        passes.push(pass).ok()?;
        sum = sum.wrapping_add(numbers);
    }
    Some((desk.close(passes).ok()?, sum))
}

fn serve_desk<R: Threads + Wait + Sync>(
    rt: &R,
    alloc: Global,
    schema: &Schema,
    number: usize,
    plan: Plan,
) -> Option<(Closed<MemoryMedium>, u64)> {
    let site = SiteNo(u16::try_from(number).ok()?);
    if site.0 >= schema.sites() || plan.threads == 0 {
        return None;
    }
    let blank = Blank::new(plan.threads);
    served_over::<Brand, R>(rt, alloc, blank, schema, site, plan.rounds)
}

/// So many sites, and one field that each site begins with the same rights to lower and to raise.
fn schema_of(alloc: Global, sites: u16) -> Option<Schema> {
    let stock = FieldSpec {
        name: String::from_str(alloc, "stock").ok()?,
        floor: 0,
        ceiling: 1_000_000,
        value: 500_000,
    };
    Schema::new(alloc, sites, vec![in alloc; stock].ok()?).ok()
}

fn read_plan(rt: &(impl Env + AllocGlobal)) -> Option<Plan> {
    let words: Vec<String> = env::args(rt).ok()?.collect(rt.alloc()).ok()?;
    Some(Plan {
        desks: words.get(1)?.parse::<u16>().ok()?,
        threads: words.get(2)?.parse::<u64>().ok()?,
        rounds: words.get(3)?.parse::<u64>().ok()?,
    })
}

fn run<R: Threads + Wait + Sync + Env + Clock + Print + Eprint + AllocGlobal>(
    rt: &R,
) -> Option<()> {
    let alloc = rt.alloc();
    let plan = read_plan(rt)?;
    let schema = schema_of(alloc, plan.desks)?;
    let own = &schema;
    let start = Instant::now(rt).ok()?;
    let desks = usize::from(plan.desks);
    let all = thread::map_indices(
        rt,
        alloc,
        desks,
        &|number| serve_desk(rt, alloc, own, number, plan),
    )
    .ok()?;
    let passed = start.elapsed(rt).ok()?.as_nanos();
    let mut calls = 0u64;
    let mut sum = 0u64;
    for one in &all {
        let (closed, numbers) = one.as_ref()?;
        calls = calls.wrapping_add(closed.history().len() as u64);
        sum = sum.wrapping_add(*numbers);
    }
    println!(rt; "{calls} calls, numbers {sum}").ok()?;
    eprintln!(rt; "{passed}").ok()
}

fn main(rt: HostRuntime) -> ExitCode {
    match run(&rt) {
        Some(()) => ExitCode::SUCCESS,
        None => ExitCode::FAILURE,
    }
}
