//! A gift that is made at one site and taken in at the other, each at work in a thread of its own.

use super::refused::Refusals;
use check_kit::{entry, stock_of_two};
use field_bounds::{Command, Entry, Schema};
use site_desk::FreeGate;
use site_workers::{WorkFault, run_workers, scripts_fit};
use std::alloc::{AllocError, Global};
use std::sync::Wait;
use std::thread::Threads;

/// What site 0 does.
const GIVEN: Entry = entry!(0 give 1 stock lower 5 -> given 5);

/// What site 1 does.
const ACCEPTED: Entry = entry!(1 accept 0 1 stock lower 5 -> accepted 5);

/// Site 0 gives, and site 1 is asked nothing.
fn scripts(alloc: Global) -> Result<Vec<Vec<Command>>, AllocError> {
    Ok(vec![in alloc; vec![in alloc; GIVEN.command]?, Vec::new(alloc)]?)
}

/// The histories of the two sites.
fn histories<R: Threads + Wait + Sync>(
    rt: &R,
    alloc: Global,
    schema: &Schema,
) -> Result<Vec<Vec<Entry>>, WorkFault> {
    let scripts = scripts(alloc)?;
    if !scripts_fit(schema, scripts.as_slice()) {
        return Err(WorkFault::GateTurns);
    }
    run_workers(rt, alloc, schema, scripts, &FreeGate)
}

/// A schema, of two tries.
fn schema(alloc: Global, refusals: &mut Refusals) -> Option<Schema> {
    for _ in 0..2 {
        if let Some(schema) = stock_of_two(alloc) {
            return Some(schema);
        }
        refusals.note();
    }
    None
}

/// Whether site 0 gave and site 1 accepted, and nothing else was done.
fn is_told(histories: &[Vec<Entry>]) -> bool {
    match histories {
        [zero, one] => zero.as_slice() == [GIVEN].as_slice()
            && one.as_slice() == [ACCEPTED].as_slice(),
        _ => false,
    }
}

/// Whether the histories are as told, of two tries: one that was refused memory tells so.
pub fn are_told<R: Threads + Wait + Sync>(rt: &R, alloc: Global, refusals: &mut Refusals) -> bool {
    let Some(schema) = schema(alloc, refusals) else {
        return false;
    };
    for _ in 0..2 {
        match histories(rt, alloc, &schema) {
            Ok(histories) => return is_told(&histories),
            Err(WorkFault::NoMemory) => refusals.note(),
            Err(_) => return false,
        }
    }
    false
}
