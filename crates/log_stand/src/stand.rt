//! How far a log has come.

ghost use Rattle.std.specs.Prelude.{◌↔◌, IsTrue, IfOk};
ghost use Rattle.log_stand.specs.Stand.{IsStandOf};

use kept_records::{LentRecords, RecordLine, by_line};
use std::alloc::{AllocError, Global};

/// The epoch of a log's last restart, or 0, and the length of its records in bytes.
#[derive(Clone, Copy, Debug, PartialEq, Eq)]
pub struct Stand {
    pub epoch: u64,
    pub length: u64,
}

impl Stand {
    ghost use Rattle.log_stand.specs.Stand.{IsBefore};

    /// Whether a log that stands here has come less far than was seen of it: its newer part was
    /// lost, or it is an old copy. Costs no memory. Source: this project.
    pub fn is_before(self, seen: Stand) -> bool
        ensures value { IsTrue result ↔ IsBefore self seen }
    {
        self.epoch < seen.epoch || self.length < seen.length
    }
}

/// How far a log of these bytes has come. A torn end isn't counted, nor what stands behind a line
/// that is no record. The error is want of memory. Costs a pass over the bytes, and memory for one
/// record at a time: for a summary, and once for the escrows of a commit.
pub fn stand_of(alloc: Global, bytes: &[u8]) -> Result<Stand, AllocError>
    ensures stand { IfOk result (IsStandOf bytes.now) }
{
    let mut epoch = 0;
    let mut lines = LentRecords::new(alloc, bytes);
    by_line! { 'lines: lines.next_common(), lines.next_line(alloc)?;
        Some(told) => {
            let next = lines.whole(alloc, told);
            epoch = next.epoch_behind(epoch);
            lines.give_back(next);
        },
        RecordLine::Record(next) => {
            epoch = next.epoch_behind(epoch);
            lines.give_back(next);
        },
        _ => break 'lines,
    }
    Ok(Stand {
        epoch: u64::from(epoch),
        length: (bytes.len() - lines.left()) as u64,
    })
}
