//! A whole log taken in from its bytes.

ghost use Rattle.std.specs.Prelude.{◌+◌, ◌<◌, ◌^◌, IfOk, length};
ghost use Rattle.log_replay.specs.LogBytes.{TellsLog, TellsBehind};

use crate::log::take_next;
use crate::standing::Standing;
use field_bounds::{Schema, SiteNo};
use kept_records::{LentRecords, RecordLine, by_line};
use std::alloc::{AllocError, Global};

/// What the bytes of a log came to, as `replay_log` tells it. Lines and records are counted from 1.
/// Of records that were read before, `replay` tells a `Replayed`. That is no part of this one: the
/// length belongs to a standing alone, and a caller takes all three apart at once.
#[derive(Drop)]
pub enum LogReplayed {
    /// Each line is a record, and each record may stand behind those before it. This is what they
    /// stand for, with no rights held, and the length of their texts in bytes.
    Standing { standing: Standing, length: usize },
    /// This line is the first that is no record.
    BadLine { number: u64 },
    /// Each line is a record, and this one is the first that breaks a rule: it may not stand behind
    /// those before it, and each of those may.
    BreaksRule { number: u64 },
}

/// What a log comes to of which the record of this number is the first that breaks a rule, by the
/// lines behind it: one that is no record is told before any rule.
#[inline(never)]
fn behind_broken(
    alloc: Global,
    lines: &mut LentRecords,
    broken: u64,
) -> Result<LogReplayed, AllocError>
    requires few { broken + length lines.old.left < 2 ^ 64 }
    ensures tells { IfOk result (λ replayed. TellsBehind broken lines.old.left replayed) }
{
    let mut line = broken;
    by_line! { 'lines: lines.next_common(), lines.next_line(alloc)?;
        Some(_) => line += 1,
        RecordLine::Record(record) => {
            line += 1;
            lines.give_back(record);
        },
        RecordLine::NoRecord => return Ok(LogReplayed::BadLine { number: line + 1 }),
        RecordLine::End => return Ok(LogReplayed::BreaksRule { number: broken }),
    }
}

/// Takes in the bytes of a site's log, line by line, from the site's parts on: what `read_front` and
/// `replay` tell one after the other, where no list of the records is made. A line ends at its line
/// feed, and what lies behind the last is a torn record, whatever it is, and is left out. A line
/// that is no record is told wherever there is one, also behind a record that breaks a rule; and of
/// both the first is named. The error is want of memory, which can come in place of any answer.
///
/// Costs a pass over the bytes, one step for each record and escrow, and a pass over the standing for
/// each summary. Memory is taken for the standing alone, a row for each field and one for each site
/// and field; once for the escrows of a commit; and at a summary for it and for another standing,
/// which are let go.
pub fn replay_log(
    alloc: Global,
    schema: &Schema,
    site: SiteNo,
    bytes: &[u8],
) -> Result<LogReplayed, AllocError>
    requires site_in { site.0 < schema.now.sites }
    ensures tells { IfOk result (λ replayed. TellsLog schema.now site.0 bytes.now replayed) }
{
    let mut standing = Standing::new(alloc, schema, site)?;
    let mut number: u64 = 0;
    let mut lines = LentRecords::new(alloc, bytes);
    by_line! { 'lines: lines.next_common(), lines.next_line(alloc)?;
        Some(next) => {
            number += 1;
            if !standing.take_common(schema, next, lines.escrows()) {
                return behind_broken(alloc, &mut lines, number);
            }
        },
        RecordLine::Record(record) => {
            number += 1;
            let may = take_next(alloc, schema, &mut standing, &record)?;
            lines.give_back(record);
            if !may {
                return behind_broken(alloc, &mut lines, number);
            }
        },
        RecordLine::NoRecord => return Ok(LogReplayed::BadLine { number: number + 1 }),
        RecordLine::End => break 'lines,
    }
    let length = bytes.len() - lines.left();
    Ok(LogReplayed::Standing { standing, length })
}
