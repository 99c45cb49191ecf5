//! What the four calls of the judge answer.

use central_machine::{Verdict, judge, judge_counted, judge_fields, judge_plain};
use field_bounds::{Entry, Schema};
use std::alloc::{AllocError, Global};
use std::thread::Threads;

/// A verdict, and whether all calls answer it.
#[derive(Clone, Copy)]
pub struct Told {
    pub verdict: Verdict,
    pub alike: bool,
}

/// How many entries are read for a verdict over so many.
fn read_for(verdict: Verdict, count: usize) -> u64 {
    match verdict {
        Verdict::Legal => count as u64,
        Verdict::Illegal { at, .. } => at,
    }
}

/// The verdict of `judge_plain`, and whether the other calls answer it too, and read as many
/// entries as it tells.
pub fn judged(
    rt: &(impl Threads + Sync),
    alloc: Global,
    schema: &Schema,
    entries: &[Entry],
) -> Result<Told, AllocError> {
    let verdict = judge_plain(alloc, schema, entries)?;
    let once = judge(alloc, schema, entries)?;
    let (counted, read) = judge_counted(alloc, schema, entries)?;
    let parts = judge_fields(rt, alloc, schema, entries)?;
    let alike = once == verdict
        && counted == verdict
        && parts == verdict
        && read == read_for(verdict, entries.len());
    Ok(Told { verdict, alike })
}
