//! The verdict on histories that are woven and judged in one pass.

ghost use Rattle.std.specs.Prelude.{◌≡◌, ◌≢◌, ◌≤◌, ℕ, List, length, IfOk, IfErr};
ghost use Rattle.field_bounds.specs.Schema.{SchemaValue};
ghost use Rattle.field_bounds.specs.declared.entry.Entry.{Entry as EntryType};
ghost use Rattle.trace_weave.specs.Weave.{lists_of};
ghost use Rattle.woven_verdict.specs.Woven.{none_taken, IsWovenVerdict, TellsStuck, IsPlaced, NoneMay};

use crate::fault::VerdictFault;
use crate::histories::Histories;
use crate::judged::Judged;
use crate::listed::ListedHistories;
use crate::turn::{first_left, next_look, next_turn};
use central_rules::Verdict;
use field_bounds::{Entry, Schema, SiteNo};
use statement_set::StatementSet;
use std::alloc::Global;

// What is told where no history's next entry may stand.
fn end<H: Histories>(histories: &H, judged: &Judged) -> Result<(Verdict, u64), VerdictFault>
    ensures verdict { IfOk result (λ told. (schema : SchemaValue) (hs : List (List EntryType))
        (counts : List ℕ) (trace : List EntryType) → H.holds hs counts histories.now →
        IsPlaced schema hs counts trace judged.now → IsWovenVerdict schema hs told) }
    ensures stuck { IfErr result (λ fault. (schema : SchemaValue) (hs : List (List EntryType))
        (counts : List ℕ) (trace : List EntryType) → H.holds hs counts histories.now →
        IsPlaced schema hs counts trace judged.now → NoneMay hs counts trace →
        TellsStuck hs fault) }
    ensures read { IfErr result (λ fault. fault ≢ VerdictFault.Unread) }
{
    match first_left(histories) {
        Some((site, _)) => Err(VerdictFault::Stuck {
            site: SiteNo(site),
            number: histories.next_number(site),
        }),
        None => Ok(judged.verdict()),
    }
}

/// Weaves histories, judges the woven trace in the same pass, and keeps none of its entries: the
/// verdict on it, as `judge` gives it, and how many entries were judged for that, which are all, or
/// those up to the first bad one. The trace is the one that `weave_order` gives the order of: each
/// history keeps its order in it, each statement that is accepted, or whose acceptance is in doubt, is
/// issued earlier, and at each place stands the entry of the lowest history that can come there.
///
/// `Stuck` comes only where no trace weaves the histories, and names where the lowest turns end. So
/// the histories are read to their ends behind a bad entry, too. `Unread` comes only where an entry
/// couldn't be read. `NoMemory`: memory is wanting.
///
/// Costs what `weave` and `judge` cost. Takes memory for the judge and twice for the statements
/// issued, and none for entries.
///
/// Source: Balegas and others 2015 for statements that may come at any later time, O'Neil 1986 for the
/// central store.
pub fn judge_histories<H: Histories>(
    alloc: Global,
    schema: &Schema,
    histories: &mut H,
) -> Result<(Verdict, u64), VerdictFault>
    ensures verdict { IfOk result (λ told. (hs : List (List EntryType)) →
        H.holds hs (none_taken hs) histories.old → IsWovenVerdict schema.now hs told) }
    ensures stuck { IfErr result (λ fault. (hs : List (List EntryType)) →
        H.holds hs (none_taken hs) histories.old → TellsStuck hs fault) }
    ensures read { IfErr result (λ fault. fault ≡ VerdictFault.Unread
        → H.has_failed histories.new) }
{
    let mut judged = Judged::new(alloc, schema)?;
    let mut issued = StatementSet::new(alloc);
    let mut from = 0;
    'turns: for _ in 0..u64::MAX {
        let Some((site, entry)) = next_turn(histories, &issued, from) else {
            return end(histories, &judged);
        };
        issued.insert_issued(&entry)?;
        histories.take(site)?;
        judged.take_in(alloc, schema, &entry)?;
        from = next_look(&entry, site);
    }
    Err(VerdictFault::NoMemory)
}

/// The verdict on histories that are held whole, each with its oldest entry first, at most 65,535 of
/// them, and how many entries were judged for it: that of `judge` on the trace that `weave` makes of
/// them, without that trace.
///
/// The faults are those of `weave`. Costs what `weave` and `judge` cost. Takes memory for the judge,
/// for one number a history and twice for the statements issued, and none for entries.
///
/// Source: Balegas and others 2015 for statements that may come at any later time, O'Neil 1986 for the
/// central store.
pub fn judge_woven(
    alloc: Global,
    schema: &Schema,
    histories: &[Vec<Entry>],
) -> Result<(Verdict, u64), VerdictFault>
    requires few { length histories.now ≤ 65535 }
    ensures verdict { IfOk result (IsWovenVerdict schema.now (lists_of histories.now)) }
    ensures stuck { IfErr result (TellsStuck (lists_of histories.now)) }
    ensures read { IfErr result (λ fault. fault ≢ VerdictFault.Unread) }
{
    let mut listed = ListedHistories::new(alloc, histories)?;
    judge_histories(alloc, schema, &mut listed)
}
