//! The job of a set of statements, over totals and channels that are awkward for it.

use crate::dice::Dice;
use crate::digest::Digest;
use field_bounds::{FieldNo, Kind, SiteNo, Statement};
use statement_set::StatementSet;
use std::alloc::{AllocError, Global};

/// What is awkward for a set.
#[derive(Clone, Copy)]
enum Awkward {
    /// Each statement is the only one of its channel, over 64 sites and 256 fields.
    OneEach,
    /// The totals of 256 channels fall, so that each comes late.
    Falling,
    /// The totals of 256 channels come in no order.
    Mixed,
}

/// What sets are given, and how many hundredths of the job's lines each.
const SETS: [(Awkward, u64); 3] = [
    (Awkward::OneEach, 40),
    (Awkward::Falling, 30),
    (Awkward::Mixed, 30),
];

/// A statement of one of 2,097,152 channels, over 64 sites and 256 fields; the first 256 are of one
/// field, and go to the first 4 sites.
fn statement(channel: u64, total: u64) -> Statement {
    let kind = if channel / 1_048_576 % 2 == 0 {
        Kind::Lower
    } else {
        Kind::Raise
    };
    Statement {
        from: SiteNo((channel % 64) as u16),
        to: SiteNo((channel / 64 % 64) as u16),
        field: FieldNo((channel / 4_096 % 256) as u16),
        kind,
        total,
    }
}

/// The next statement, of which so many follow. An odd step takes the channels in no order, and
/// comes by each before it comes by one again.
fn next_statement(dice: &mut Dice, awkward: Awkward, left: u64) -> Statement {
    let one = u64::from(dice.below(256));
    match awkward {
        Awkward::OneEach => statement(left.wrapping_mul(1_299_709), one),
        Awkward::Falling => statement(one, left),
        Awkward::Mixed => statement(one, u64::from(dice.below(u16::MAX))),
    }
}

/// Puts so many statements into a set, and looks up behind each one that is there or near it.
fn fill(
    alloc: Global,
    dice: &mut Dice,
    awkward: Awkward,
    count: u64,
    digest: Digest,
) -> Result<Digest, AllocError> {
    let mut digest = digest;
    let mut set = StatementSet::new(alloc);
    for step in 0..count {
        let put = next_statement(dice, awkward, count.wrapping_sub(step));
        set.insert(put)?;
        let near = Statement {
            total: put.total.wrapping_add(u64::from(dice.below(3))),
            ..put
        };
        digest.take_all(&[u8::from(set.has(near))]);
    }
    Ok(digest)
}

/// Sets are given statements, and asked for them.
pub fn sets(alloc: Global, dice: &mut Dice, lines: u32) -> Result<Digest, AllocError> {
    let mut digest = Digest::new();
    for (awkward, percent) in SETS {
        let count = u64::from(lines).wrapping_mul(percent) / 100;
        digest = fill(alloc, dice, awkward, count, digest)?;
    }
    Ok(digest)
}
