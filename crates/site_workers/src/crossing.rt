//! What goes from site to site, tested on the histories.

ghost use Rattle.std.specs.Prelude.{◌≡◌, ◌≤◌, IfOk, IfSome, IfNone, Contains, reverse, length};
ghost use Rattle.field_bounds.specs.declared.entry.Statement.{Statement};
ghost use Rattle.field_bounds.specs.Statements.{statement_of};
ghost use Rattle.site_workers.specs.Scripts.{histories_of, HasAccept, NoneForeign, NoneLost};
ghost use Rattle.site_workers.specs.Crossing.{set_at, lower_of, IsLowest, LacksTold, TakesTold, LacksIn, TakesIn, IsLowestForeign, IsLowestLost};

use crate::statement_sets::{all_accepted, all_issued, has_at};
use field_bounds::{Command, Entry, SiteNo, Statement, statement_of};
use statement_set::StatementSet;
use std::alloc::{AllocError, Global};

/// The first statement that a history accepts and that isn't in the set of the site that it names
/// as its giver.
fn first_unissued(issued: &[StatementSet], history: &[Entry]) -> Option<Statement>
    ensures some { IfSome result (λ told. HasAccept told (reverse history.now)
        × ¬ Contains (set_at issued.now told.from.0) told) }
    ensures none { IfNone result ((told : Statement) → HasAccept told (reverse history.now)
        → Contains (set_at issued.now told.from.0) told) }
{
    for entry in history {
        if let Command::Accept(told) = entry.command {
            if !has_at(issued, told.from, told) {
                return Some(told);
            }
        }
    }
    None
}

/// The lowest site whose history accepts a statement that the site which it names didn't issue.
pub(crate) fn foreign(alloc: Global, histories: &[Vec<Entry>]) -> Result<Option<SiteNo>, AllocError>
    requires few { length histories.now ≤ 65536 }
    ensures some { IfOk result (λ found. IfSome found
        (λ site. IsLowestForeign (histories_of histories.now) site.0)) }
    ensures none { IfOk result (λ found. IfNone found (NoneForeign (histories_of histories.now))) }
{
    let issued = all_issued(alloc, histories)?;
    for site in 0..histories.len() {
        if let Some(_told) = first_unissued(issued.as_slice(), histories[site].as_slice()) {
            return Ok(Some(SiteNo(site as u16)));
        }
    }
    Ok(None)
}

/// The lower of two sites.
fn lower_of(one: Option<SiteNo>, other: Option<SiteNo>) -> Option<SiteNo>
    ensures { result ≡ lower_of one other }
{
    match (one, other) {
        (None, other) => other,
        (one, None) => one,
        (Some(one), Some(other)) => Some(if other.0 < one.0 { other } else { one }),
    }
}

/// The receiver of the statement that an entry issues, where its set lacks it.
fn lacking(accepted: &[StatementSet], entry: &Entry) -> Option<SiteNo>
    ensures { IsLowest (LacksTold accepted.now (statement_of entry.now))
        (TakesTold accepted.now (statement_of entry.now)) result }
{
    let Some(told) = statement_of(entry) else {
        return None;
    };
    if has_at(accepted, told.to, told) {
        return None;
    }
    Some(told.to)
}

/// The lowest site whose set lacks a statement that a history issues to it.
fn lowest_lacking(accepted: &[StatementSet], history: &[Entry]) -> Option<SiteNo>
    ensures { IsLowest (LacksIn accepted.now history.now)
        (TakesIn accepted.now history.now) result }
{
    let mut lowest = None;
    for entry in history {
        lowest = lower_of(lowest, lacking(accepted, entry));
    }
    lowest
}

/// The lowest site whose history lacks the accept of a statement that some history issues to it.
pub(crate) fn lost(alloc: Global, histories: &[Vec<Entry>]) -> Result<Option<SiteNo>, AllocError>
    ensures some { IfOk result (λ found. IfSome found
        (λ site. IsLowestLost (histories_of histories.now) site.0)) }
    ensures none { IfOk result (λ found. IfNone found (NoneLost (histories_of histories.now))) }
{
    let accepted = all_accepted(alloc, histories)?;
    let mut lowest = None;
    for history in histories {
        lowest = lower_of(
            lowest,
            lowest_lacking(accepted.as_slice(), history.as_slice()),
        );
    }
    Ok(lowest)
}
