//! How far a site's log reached when the site was last up.

ghost use Rattle.std.specs.Prelude.{◌≡◌, ◌<◌, ◌+◌, ◌^◌, List, nat_le, false, if◌then◌else◌, IfOk};
ghost use Rattle.kept_records.specs.declared.record.Record.{Record};
ghost use Rattle.kept_records.specs.Text.{IsRecord};
ghost use Rattle.kept_records.specs.Keeping.{with_due};
ghost use Rattle.kept_records.specs.Stands.{is_summary, since_summary, max_behind, piece};
ghost use Rattle.log_replay.specs.Resuming.{MayFollowNext};
ghost use Rattle.site_step.specs.State.{one_record_longer};

use field_bounds::Schema;
use kept_records::{Record, Summary};
use log_replay::{Standing, summary_after};
use std::alloc::{AllocError, Global};

/// The record that is, by count, this one behind the last summary takes the next summary with it.
const MAX_BEHIND: u64 = 1000;

/// What stood whole on the medium when the site was last up, or was opened.
#[derive(Clone, Copy, Debug, PartialEq, Eq)]
pub(crate) struct Extent {
    /// How many records, summaries left out.
    pub count: usize,
    /// The length of all their texts, in bytes.
    pub length: usize,
    /// How many records behind the last summary.
    pub behind: u64,
}

/// How many records stand behind the last summary, with one more and the summary that is due.
pub(crate) fn behind_next(behind: u64) -> u64
    ensures value { result ≡ if nat_le max_behind (behind + 1) then 0 else behind + 1 }
{
    if is_due(behind) { 0 } else { behind + 1 }
}

/// Whether a summary is due behind the next record, with so many records behind the last.
pub(crate) fn is_due(behind: u64) -> bool
    ensures value { result ≡ nat_le max_behind (behind + 1) }
{
    behind >= MAX_BEHIND - 1
}

/// The summary that is due behind a record, where one is, with so many records behind the last. The
/// record may stand next behind those that the standing is for.
pub(crate) fn due_behind(
    alloc: Global,
    schema: &Schema,
    standing: &Standing,
    behind: u64,
    next: &Record,
) -> Result<Option<Summary>, AllocError>
    requires in_range { IsRecord next.now }
    requires plain { is_summary next.now ≡ false }
    requires may { (rs : List Record) × MayFollowNext schema.now standing.now rs next.now }
    ensures due { IfOk result (λ due. (rs : List Record)
        → MayFollowNext schema.now standing.now rs next.now → behind ≡ since_summary rs →
        with_due next.now due ≡ piece schema.now standing.now.ledger.site rs next.now) }
{
    if !is_due(behind) {
        return Ok(None);
    }
    let due = summary_after(alloc, schema, standing, next)?;
    Ok(Some(due))
}

impl Extent {
    /// One record more stands whole, with the summary that was due behind it, in lines of this
    /// length.
    pub(crate) fn extend(&mut self, length: usize)
        requires few { self.old.count + 1 < 2 ^ 64 }
        ensures extended { self.new ≡ one_record_longer self.old length }
    {
        self.count += 1;
        self.length = self.length.saturating_add(length);
        self.behind = behind_next(self.behind);
    }

    /// A restart found so many records more, and its own record stands behind them, in lines up to
    /// this length. So many records stood behind the last summary.
    pub(crate) fn reach(&mut self, more: usize, behind: u64, length: usize)
        requires few { self.old.count + more + 1 < 2 ^ 64 }
        ensures reached { self.new ≡ record {
          count = self.old.count + more + 1;
          length = length;
          behind = if nat_le max_behind (behind + 1) then 0 else behind + 1;
        } }
    {
        self.count = self.count + more + 1;
        self.length = length;
        self.behind = behind_next(behind);
    }
}
