//! How far a log has come, and how many records it has.

ghost use Rattle.std.specs.Prelude.{◌≡◌, IfOk, IfSome, IfNone};
ghost use Rattle.kept_records.specs.declared.counting.LogCount.{LogCount as Count};
ghost use Rattle.kept_records.specs.Counting.{IsCountOf};
ghost use Rattle.log_stand.specs.Stand.{IsStandOf};
ghost use Rattle.held_logs.specs.Counts.{IsCountBehind, IsStandBehind, base_epoch};

use crate::first_line::{FirstLine, first_line};
use kept_records::{LentRecords, LogCount, count_log};
use log_head::Gone;
use log_stand::{Stand, stand_of};
use std::alloc::{AllocError, Global};

// The epoch that the base tells, where the bytes begin with one, and else 0.
fn base_epoch(alloc: Global, bytes: &[u8]) -> Result<u32, AllocError>
    ensures value { IfOk result (λ epoch. (count : Count) → (counted : IsCountOf bytes.now count)
        → epoch ≡ base_epoch counted.records) }
{
    let mut lines = LentRecords::new(alloc, bytes);
    match first_line(alloc, &mut lines)? {
        FirstLine::Base(base) => Ok(base.epoch()),
        FirstLine::Other | FirstLine::Missing => Ok(0),
    }
}

// How far a log has come of which this is gone, and the records that are held have come so far.
fn stand_behind(
    alloc: Global,
    gone: &Gone,
    held: Stand,
    records: &[u8],
) -> Result<Stand, AllocError>
    requires held { IsStandOf records.now held }
    ensures stand { IfOk result (IsStandBehind gone.now records.now) }
{
    let told = u64::from(base_epoch(alloc, records)?);
    let epoch = held.epoch.max(told);
    let length = gone.bytes.saturating_add(held.length);
    Ok(Stand { epoch, length })
}

/// How far a log has come of which this is gone, and these are the records that are held. Where
/// nothing is gone it is what `stand_of` answers (`whole`). Else the epoch is that of the last restart
/// behind the base, or where there is none that which the base tells; and the length is that of all
/// records since the site was created, those that are gone included, in bytes (`behind`): so it goes
/// on where a log is shortened. A torn end isn't counted, nor what stands behind a line that is no
/// record. A length above 2^64 - 1 is told as that. The error is want of memory. Costs what `stand_of`
/// does, and where something is gone a second look at the first line.
///
/// Source: this project.
pub fn stand_held(alloc: Global, gone: &Option<Gone>, records: &[u8]) -> Result<Stand, AllocError>
    ensures whole { IfNone gone.now (IfOk result (IsStandOf records.now)) }
    ensures behind { IfSome gone.now (λ gone. IfOk result (IsStandBehind gone records.now)) }
{
    let held = stand_of(alloc, records)?;
    match gone {
        Some(gone) => stand_behind(alloc, gone, held, records),
        None => Ok(held),
    }
}

/// Counts the records of a log of which this is gone, and these are the records that are held. Where
/// nothing is gone it is what `count_log` answers (`whole`). Else those that are gone are counted with
/// those that are no summaries (`behind`): so many records a trace tells of that is cut back to the
/// log. A number above 2^64 - 1 is told as that. The length, and the line that is no record, are of
/// what is held. The error is want of memory. Costs what `count_log` does.
///
/// Source: this project.
pub fn count_held(
    alloc: Global,
    gone: &Option<Gone>,
    records: &[u8],
) -> Result<LogCount, AllocError>
    ensures whole { IfNone gone.now (IfOk result (IsCountOf records.now)) }
    ensures behind { IfSome gone.now (λ gone. IfOk result (IsCountBehind gone records.now)) }
{
    let held = count_log(alloc, records)?;
    let Some(gone) = gone else {
        return Ok(held);
    };
    Ok(LogCount {
        plain: gone.records.saturating_add(held.plain as u64) as usize,
        length: held.length,
        bad_line: held.bad_line,
    })
}
