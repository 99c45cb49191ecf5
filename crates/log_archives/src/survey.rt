//! The records that are let go, looked at.

ghost use Rattle.std.specs.Prelude.{◌≡◌, ◌&&◌, IfOk};
ghost use Rattle.log_archives.specs.Heads.{may_go};
ghost use Rattle.log_archives.specs.Joints.{IsSurvey};

use crate::reach::may_go;
use kept_records::{LentRecords, Record, RecordLine, by_line, plain_count};
use log_head::Horizon;
use std::alloc::{AllocError, Global};

/// The records in front of the first line that is none.
#[derive(Clone, Copy, Debug, PartialEq, Eq)]
pub(crate) struct Seen {
    /// How many bytes stand behind them.
    pub left: usize,
    /// How many of them are no summaries.
    pub plain: usize,
    /// Whether each of them may be gone by the horizon.
    pub all_may_go: bool,
}

// Whether all records before might be gone, and this one may.
fn and_may_go(before: bool, horizon: &Horizon, next: &Record) -> bool
    ensures value { result ≡ before && may_go horizon.now next.now }
{
    if before { may_go(horizon, next) } else { false }
}

/// Looks at the records in front of the first line that is none. The error is want of memory. Costs a
/// pass over the bytes, for each commit a look at the transactions that the horizon lists, and memory
/// for one record at a time.
pub(crate) fn survey(alloc: Global, horizon: &Horizon, bytes: &[u8]) -> Result<Seen, AllocError>
    ensures survey { IfOk result (IsSurvey horizon.now bytes.now) }
{
    let mut plain: usize = 0;
    let mut all_may_go = true;
    let mut lines = LentRecords::new(alloc, bytes);
    by_line! { 'lines: lines.next_common(), lines.next_line(alloc)?;
        Some(told) => {
            let next = lines.whole(alloc, told);
            plain += 1;
            all_may_go = and_may_go(all_may_go, horizon, &next);
            lines.give_back(next);
        },
        RecordLine::Record(next) => {
            plain += plain_count(&next);
            all_may_go = and_may_go(all_may_go, horizon, &next);
            lines.give_back(next);
        },
        RecordLine::NoRecord | RecordLine::End => break 'lines,
    }
    Ok(Seen {
        left: lines.left(),
        plain,
        all_may_go,
    })
}
