//! A trace as text, and the verdict on it.

ghost use Rattle.std.specs.Prelude.{◌≡◌};
ghost use Rattle.escrow_c.specs.Texts.{Judges};

use crate::status::{BAD_ENTRY, DONE, ILLEGAL, NO_MEMORY, NO_SCHEMA};
use crate::trace::{EntriesFault, entries_of};
use central_machine::{Verdict, judge};
use field_bounds::{Schema, SchemaFault};
use std::alloc::Global;

/// What a judgement answers: a status, and the entry or the line that it names, or 0.
#[derive(Clone, Copy)]
pub(crate) struct Judgement {
    pub status: u32,
    pub at: u64,
}

// A judgement that names nothing.
fn plain(status: u32) -> Judgement
    ensures status { result.status ≡ status }
    ensures at { result.at ≡ 0 }
{
    Judgement { status, at: 0 }
}

/// Judges a trace under a header.
pub(crate) fn judge_trace(alloc: Global, header: &[u8], trace: &[u8]) -> Judgement
    ensures { Judges header.now trace.now result.status result.at }
{
    let schema = match Schema::from_header(alloc, header) {
        Ok(schema) => schema,
        Err(SchemaFault::NoMemory) => return plain(NO_MEMORY),
        Err(_) => return plain(NO_SCHEMA),
    };
    let entries = match entries_of(alloc, &schema, trace) {
        Ok(entries) => entries,
        Err(EntriesFault::NoMemory) => return plain(NO_MEMORY),
        Err(EntriesFault::BadEntry(at)) => {
            return Judgement {
                status: BAD_ENTRY,
                at,
            };
        }
    };
    match judge(alloc, &schema, &entries) {
        Ok(Verdict::Legal) => plain(DONE),
        Ok(Verdict::Illegal { at, rule: _ }) => Judgement {
            status: ILLEGAL,
            at,
        },
        Err(_) => plain(NO_MEMORY),
    }
}
