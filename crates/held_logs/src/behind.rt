//! What a base and the records behind it come to.

ghost use Rattle.std.specs.Prelude.{◌<◌, IfOk};
ghost use Rattle.held_logs.specs.Behind.{TakenBehind, TellsBehind};

use crate::first_line::{FirstLine, first_line};
use field_bounds::{Schema, SiteNo};
use kept_records::{LentRecords, RecordLine, by_line};
use log_bases::stand_on;
use log_replay::{LogReplayed, Standing, take_next};
use std::alloc::{AllocError, Global};

/// Takes in the lines behind the base that the standing is for, one by one.
fn take_behind(
    alloc: Global,
    schema: &Schema,
    _site: SiteNo,
    standing: Standing,
    bytes: &[u8],
    lines: LentRecords,
) -> Result<LogReplayed, AllocError>
    requires taken { TakenBehind schema.now _site.0 bytes.now standing 1 lines.left }
    ensures tells { IfOk result (TellsBehind schema.now _site.0 bytes.now) }
{
    let mut standing = standing;
    let mut lines = lines;
    let mut number: u64 = 1;
    by_line! { 'lines: lines.next_common(), lines.next_line(alloc)?;
        Some(next) => {
            number += 1;
            if !standing.take_common(schema, next, lines.escrows()) {
                return Ok(LogReplayed::BreaksRule { number });
            }
        },
        RecordLine::Record(record) => {
            number += 1;
            let may = take_next(alloc, schema, &mut standing, &record)?;
            lines.give_back(record);
            if !may {
                return Ok(LogReplayed::BreaksRule { number });
            }
        },
        RecordLine::NoRecord => return Ok(LogReplayed::BadLine { number: number + 1 }),
        RecordLine::End => break 'lines,
    }
    let length = bytes.len() - lines.left();
    Ok(LogReplayed::Standing { standing, length })
}

/// What the records come to that a shortened log holds: the first has to be a base.
pub(crate) fn replay_behind(
    alloc: Global,
    schema: &Schema,
    site: SiteNo,
    bytes: &[u8],
) -> Result<LogReplayed, AllocError>
    requires site_in { site.0 < schema.now.sites }
    ensures tells { IfOk result (TellsBehind schema.now site.0 bytes.now) }
{
    let mut lines = LentRecords::new(alloc, bytes);
    let base = match first_line(alloc, &mut lines)? {
        FirstLine::Base(base) => base,
        FirstLine::Other => return Ok(LogReplayed::BreaksRule { number: 1 }),
        FirstLine::Missing => return Ok(LogReplayed::BadLine { number: 1 }),
    };
    match stand_on(alloc, schema, site, &base)? {
        Some(standing) => take_behind(alloc, schema, site, standing, bytes, lines),
        None => Ok(LogReplayed::BreaksRule { number: 1 }),
    }
}
