//! A whole log taken in.

ghost use Rattle.std.specs.Prelude.{◌<◌, IfOk};
ghost use Rattle.std.specs.List.{AllByRecursion};
ghost use Rattle.kept_records.specs.Text.{IsRecord};
ghost use Rattle.log_replay.specs.Standing.{HasSlots, TakesIn};
ghost use Rattle.log_replay.specs.Replayed.{TellsStanding, TellsBroken};

use crate::standing::Standing;
use crate::telling::tells;
use field_bounds::{Schema, SiteNo};
use kept_records::Record;
use std::alloc::{AllocError, Global};

/// What a list of records came to, as `replay` tells it. Of the bytes of a log `replay_log` tells a
/// `LogReplayed`.
#[derive(Drop)]
pub enum Replayed {
    /// Each record may stand behind those before it, and this is what they stand for, with no
    /// rights held.
    Standing(Standing),
    /// This record, counted from 1, is the first that breaks a rule: it may not stand behind those
    /// before it, and each of those may.
    BreaksRule { number: u64 },
}

/// Takes in the next record, as `replay` does one after another, and answers whether it did. A
/// summary is taken in where it tells what the standing comes to, which it leaves as it was; of any
/// other record the same is said as of `Standing::take_in`. The error is want of memory. Costs one
/// step for each escrow of the record; and for a summary a pass over the standing, and memory for
/// another one like it, which is let go.
pub fn take_next(
    alloc: Global,
    schema: &Schema,
    standing: &mut Standing,
    next: &Record,
) -> Result<bool, AllocError>
    requires places { HasSlots schema.now standing.old.rights standing.old.ledger }
    requires in_range { IsRecord next.now }
    ensures takes_in { IfOk result (λ may. TakesIn schema.now standing.old next.now may
        standing.new) }
{
    if next.is_summary() {
        return tells(alloc, schema, standing, next);
    }
    Ok(standing.take_in(schema, next))
}

/// Takes in all records of a site's log, in order, from the site's parts on. `BreaksRule` is
/// answered exactly where some record may not stand behind those before it, and names the first.
/// The error is want of memory.
///
/// Costs one step for each record and escrow up to the first that breaks a rule, and a pass over
/// the standing for each summary. Memory is taken for the standing alone, a row for each field and
/// one for each site and field, and at a summary for another one like it, which is let go.
pub fn replay(
    alloc: Global,
    schema: &Schema,
    site: SiteNo,
    records: &[Record],
) -> Result<Replayed, AllocError>
    requires site_in { site.0 < schema.now.sites }
    requires in_range { AllByRecursion IsRecord records.now }
    ensures standing { IfOk result (λ replayed. TellsStanding schema.now site.0
        records.now replayed) }
    ensures broken { IfOk result (λ replayed. TellsBroken schema.now site.0 records.now replayed) }
{
    let mut standing = Standing::new(alloc, schema, site)?;
    let mut number: u64 = 0;
    for record in records {
        number += 1;
        if !take_next(alloc, schema, &mut standing, record)? {
            return Ok(Replayed::BreaksRule { number });
        }
    }
    Ok(Replayed::Standing(standing))
}
