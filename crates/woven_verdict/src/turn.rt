//! Whose turn it is: the lowest site whose next entry may stand comes next.

ghost use Rattle.std.specs.Prelude.{◌≡◌, ℕ, List, IfSome, IfNone, None};
ghost use Rattle.field_bounds.specs.declared.entry.Entry.{Entry as EntryType};
ghost use Rattle.trace_weave.specs.Turn.{upcoming, HoldsBack, IsTurn, IsFirstLeft, IsReached, GoesOn};

use crate::histories::Histories;
use field_bounds::{Entry, statement_of};
use statement_set::StatementSet;
use trace_weave::may_stand;

/// The lowest history, from `from` on, whose next entry may stand, with that entry.
pub(crate) fn next_turn<H: Histories>(
    histories: &H,
    issued: &StatementSet,
    from: u16,
) -> Option<(u16, Entry)>
    ensures some { (hs : List (List EntryType)) (counts : List ℕ) (trace : List EntryType) →
        H.holds hs counts histories.now → IsReached hs counts issued.now trace from →
        IfSome result (λ r. IsTurn hs counts trace r.0 r.1) }
    ensures none { (hs : List (List EntryType)) (counts : List ℕ) (trace : List EntryType) →
        H.holds hs counts histories.now → IsReached hs counts issued.now trace from →
        IfNone result ((s : ℕ) → HoldsBack hs counts trace s) }
{
    for site in from..histories.sites() {
        if let Some(entry) = histories.upcoming(site) {
            if may_stand(issued, &entry) {
                return Some((site, entry));
            }
        }
    }
    None
}

/// The history from which the look for the next turn begins, once this entry of history `site` was
/// placed: a statement that it issues may be what a lower history waits for.
pub(crate) fn next_look(entry: &Entry, site: u16) -> u16
    ensures { GoesOn entry.now site result }
{
    match statement_of(entry) {
        Some(_) => 0,
        None => site,
    }
}

/// The lowest history with entries left, with its next one.
pub(crate) fn first_left<H: Histories>(histories: &H) -> Option<(u16, Entry)>
    ensures some { (hs : List (List EntryType)) (counts : List ℕ) → H.holds hs counts histories.now →
        IfSome result (λ r. IsFirstLeft hs counts r.0) }
    ensures none { (hs : List (List EntryType)) (counts : List ℕ) → H.holds hs counts histories.now →
        IfNone result ((s : ℕ) → upcoming hs counts s ≡ None) }
{
    for site in 0..histories.sites() {
        if let Some(entry) = histories.upcoming(site) {
            return Some((site, entry));
        }
    }
    None
}
