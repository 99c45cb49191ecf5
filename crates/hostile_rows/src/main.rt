//! Takes worked steps by library calls while memory is refused now and then: after a call that was
//! refused, a world and a site show what they showed before it, and the call taken again is
//! answered as told. So one refusal, wherever it falls, leaves the output as it is, but for its
//! last line: it tells how many calls were refused.
#![tactic(auto)]

mod desk;
mod moves;
mod reach;
mod refused;
mod site;
mod workers;
mod world;

use refused::Refusals;
use std::alloc::Global;
use std::io::{self, Print};
use std::sync::Wait;
use std::thread::Threads;

/// The rows at a world.
fn tell_worlds(rt: &impl Print, alloc: Global, refusals: &mut Refusals) -> io::Result<()> {
    for (name, row) in &world::ROWS {
        let count = world::count_told(alloc, *row, refusals).unwrap_or(0);
        println!(rt; "world, {name}: {count} steps as told")?;
    }
    Ok(())
}

/// The rows at a site.
fn tell_sites(rt: &impl Print, alloc: Global, refusals: &mut Refusals) -> io::Result<()> {
    for (name, log, row) in &site::ROWS {
        let count = site::count_told(alloc, *log, *row, refusals).unwrap_or(0);
        println!(rt; "site, {name}: {count} answers as told")?;
    }
    Ok(())
}

/// A desk, the plan, a reach and the workers.
fn tell_others<R>(rt: &R, alloc: Global, refusals: &mut Refusals) -> io::Result<()>
where
    R: Threads + Wait + Print + Sync,
{
    let (count, told) = desk::count_told(rt, alloc, refusals).unwrap_or((0, false));
    println!(rt; "desk, a commit: {count} receipts as told, closed and checked: {told}")?;
    println!(rt; "moves: {}", moves::are_told(alloc, refusals))?;
    println!(rt; "a reach: {}", reach::is_told(alloc, refusals))?;
    println!(rt;
        "workers, a gift: {}",
        workers::are_told(rt, alloc, refusals)
    )
}

fn main(rt: HostRuntime) -> io::Result<()> {
    let alloc = rt.alloc();
    let mut refusals = Refusals::new();
    tell_worlds(&rt, alloc, &mut refusals)?;
    tell_sites(&rt, alloc, &mut refusals)?;
    tell_others(&rt, alloc, &mut refusals)?;
    println!(rt; "calls refused memory: {}", refusals.count())
}
