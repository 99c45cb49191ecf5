//! Whether receipts are those of a history.

ghost use Rattle.std.specs.Prelude.{◌≡◌, ℕ, ◌+◌, ◌<◌, IsTrue, ◌↔◌, OnOk, IfErr, IfSome, IfNone, length, reverse, true, false, slice_index_or};
ghost use Rattle.site_desk.specs.Receipts.{IsAt, AreReceiptsOf};
ghost use Rattle.site_desk.specs.ReceiptFaults.{TellsReceipts};

use crate::locked::{Closed, Receipt};
use field_bounds::{Command, Entry, Reply, SiteNo};
use kept_records::Medium;
use std::alloc::Global;
use work_faults::ReceiptFault;

/// Whether two commands are the same.
fn is_same_command(one: &Command, other: &Command) -> bool
    ensures { IsTrue result ↔ (one.now ≡ other.now) }
{
    *one == *other
}

/// Whether two replies are the same.
fn is_same_reply(one: &Reply, other: &Reply) -> bool
    ensures { IsTrue result ↔ (one.now ≡ other.now) }
{
    *one == *other
}

/// Whether two entries are the same.
fn is_same_entry(one: &Entry, other: &Entry) -> bool
    ensures { IsTrue result ↔ (one.now ≡ other.now) }
{
    one.site == other.site
        && is_same_command(&one.command, &other.command)
        && is_same_reply(&one.reply, &other.reply)
}

/// The place, from 0, of the entry that a receipt names, where the history of this site has it
/// there.
fn place_of(history: &[Entry], site: SiteNo, receipt: &Receipt) -> Option<usize>
    ensures some { IfSome result (λ place. IsAt site history.now receipt.now
        × (receipt.now.number ≡ place + 1) × (place < length history.now)) }
    ensures none { IfNone result (¬ IsAt site history.now receipt.now) }
{
    let number = receipt.number();
    if receipt.site() != site || number == 0 || number > history.len() as u64 {
        return None;
    }
    let place = (number - 1) as usize;
    if is_same_entry(&history[place], &receipt.entry()) {
        Some(place)
    } else {
        None
    }
}

/// The first place that isn't marked.
fn first_unmarked(marks: &[bool]) -> Option<usize>
    ensures some { IfSome result (λ place. (place < length marks.now)
        × (slice_index_or marks.now place false ≡ false)
        × ((n : ℕ) → n < place → slice_index_or marks.now n false ≡ true)) }
    ensures none { IfNone result ((n : ℕ) → n < length marks.now
        → slice_index_or marks.now n false ≡ true) }
{
    for place in 0..marks.len() {
        if !marks[place] {
            return Some(place);
        }
    }
    None
}

/// Whether the receipts are exactly the entries of the closed site's history, each once. They may
/// come in any order.
///
/// They are tested in the order of the list: `Differs`, and then `Twice`, for the first that
/// doesn't stand. Then `Missing` for the least place without one. `NoMemory`: memory is wanting.
/// Costs a step for each entry and each receipt, and memory for a mark for each entry.
pub fn check_receipts<M: Medium>(
    alloc: Global,
    closed: &Closed<M>,
    receipts: &[Receipt],
) -> Result<(), ReceiptFault>
    ensures ok { OnOk result (AreReceiptsOf closed.now.site
        (reverse closed.now.history) receipts.now) }
    ensures fault { IfErr result (λ fault. TellsReceipts closed.now.site
        (reverse closed.now.history) receipts.now fault) }
{
    let own = closed.site();
    let history = closed.history();
    let Ok(mut seen) = vec![in alloc; false; history.len()] else {
        return Err(ReceiptFault::NoMemory);
    };
    for receipt in receipts {
        let site = receipt.site();
        let number = receipt.number();
        let Some(place) = place_of(history, own, receipt) else {
            return Err(ReceiptFault::Differs { site, number });
        };
        if seen[place] {
            return Err(ReceiptFault::Twice { site, number });
        }
        seen[place] = true;
    }
    match first_unmarked(seen.as_slice()) {
        Some(place) => Err(ReceiptFault::Missing {
            site: own,
            number: place as u64 + 1,
        }),
        None => Ok(()),
    }
}
