//! Files of site 1 of a world of two. Their sums were computed by another program, from what
//! docs/FORMATS.md says of them; every other expected value is worked out by hand.

mod counts;
mod files;
mod replays;

use log_head::{Gone, Horizon};
use site_folder::Identity;
use std::alloc::Global;
use std::process::Abort;

/// Each site begins with 20 rights to lower the stock and 30 to raise it.
const HEADER: &str =
    r#"{"sites":2,"fields":[{"name":"stock","floor":0,"ceiling":100,"value":40}]}"#;

/// A base: of the rights to lower 5 were given and 3 were spent, so that 12 and 33 are left. It has 22
/// bytes.
const BASE: &str = "S 7 1 12 33 g 0 0 l 5\n";

fn identity(rt: &impl Abort, alloc: Global) -> Identity {
    Identity::new(alloc, 1, HEADER.as_bytes()).expect(rt, "an identity")
}

/// So many bytes and records are gone, up to a horizon that nobody asks for here.
fn gone(rt: &impl Abort, alloc: Global, bytes: u64, records: u64) -> Option<Gone> {
    Some(Gone {
        bytes,
        records,
        horizon: Horizon::new(7, 1_000_431, Vec::new(alloc)).expect(rt, "a horizon"),
    })
}

/// The texts, one behind another.
fn joined(rt: &impl Abort, alloc: Global, texts: &[&str]) -> Vec<u8> {
    let mut all = Vec::new(alloc);
    for text in texts {
        all.extend_from_slice(text.as_bytes()).expect(rt, "memory");
    }
    all
}
