//! A log taken in from its last summary on.

ghost use Rattle.std.specs.Prelude.{◌≡◌, ◌<◌, List, IfOk};
ghost use Rattle.kept_records.specs.declared.record.Record.{Record};
ghost use Rattle.kept_records.specs.Stands.{since_summary};
ghost use Rattle.log_replay.specs.Standing.{IsStandingFor};
ghost use Rattle.log_replay.specs.Resuming.{IsEnd, BeginsAt};

use crate::standing::Standing;
use field_bounds::{Schema, SiteNo};
use kept_records::{LentRecords, ReadBack, RecordLine, by_line};
use std::alloc::{AllocError, Global};

/// What a lawful log came to, and how many records were taken in for it.
#[derive(Drop)]
pub struct Resumed {
    /// What all records of the log stand for, with no rights held.
    pub standing: Standing,
    /// The turns of the loop that took records in: how many records stand behind the last summary.
    pub turns: u64,
}

/// What the records up to the last summary stand for, told by that summary alone; or the site's
/// parts, where there is none.
fn begin(
    alloc: Global,
    schema: &Schema,
    site: SiteNo,
    end: &ReadBack,
) -> Result<Standing, AllocError>
    requires site_in { site.0 < schema.now.sites }
    requires end_ { (all : List Record) × IsEnd schema.now site.0 all end.now }
    ensures begins { IfOk result (λ standing. (all : List Record)
        → (end_ : IsEnd schema.now site.0 all end.now)
        → BeginsAt schema.now site.0 all end.now end_ standing) }
{
    match &end.summary {
        Some(summary) => Standing::of_summary(alloc, schema, site, summary),
        None => Standing::new(alloc, schema, site),
    }
}

/// Takes in a lawful log of a site from its last summary on, or from the site's parts on where it
/// has none. Of the log it is given the end alone, as `read_back` answers it. What stands before
/// the last summary isn't read: the standing is for the whole log all the same (`standing`). Each
/// record behind the last summary is read from its line and taken in once, and no other (`turns`).
/// The error is want of memory.
///
/// Costs a pass over the lines behind the last summary, and one step for each record and escrow
/// there. Memory is taken for the standing alone, and once for the escrows of a commit.
pub fn resume(
    alloc: Global,
    schema: &Schema,
    site: SiteNo,
    end: &ReadBack,
) -> Result<Resumed, AllocError>
    requires site_in { site.0 < schema.now.sites }
    requires end_ { (all : List Record) × IsEnd schema.now site.0 all end.now }
    ensures standing { IfOk result (λ resumed. (all : List Record)
        → IsEnd schema.now site.0 all end.now → IsStandingFor schema.now site.0 all
        resumed.standing) }
    ensures turns { IfOk result (λ resumed. (all : List Record)
        → IsEnd schema.now site.0 all end.now → resumed.turns ≡ since_summary all) }
{
    let mut standing = begin(alloc, schema, site, end)?;
    let mut turns: u64 = 0;
    let mut records = LentRecords::new(alloc, end.lines.as_slice());
    by_line! { 'records: records.next_common(), records.next_line(alloc)?;
        Some(next) => {
            turns += 1;
            let may = standing.take_common(schema, next, records.escrows());
            prove!(may);
        },
        RecordLine::Record(record) => {
            turns += 1;
            let may = standing.take_in(schema, &record);
            prove!(may);
            records.give_back(record);
        },
        RecordLine::NoRecord => unreachable!(),
        RecordLine::End => break 'records,
    }
    Ok(Resumed { standing, turns })
}
