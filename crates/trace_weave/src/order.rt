//! The order of a woven trace, and the walk by it.

ghost use Rattle.std.specs.Prelude.{◌≡◌, ◌≤◌, IfOk, IfErr, length, reverse};
ghost use Rattle.trace_weave.specs.Fault.{TellsStuck};
ghost use Rattle.trace_weave.specs.Order.{taken_by};
ghost use Rattle.trace_weave.specs.Weave.{lists_of, Weaves, WeavesLowest};

use crate::fault::WeaveFault;
use crate::weaving::{first_left, next_look, next_turn};
use field_bounds::{Entry, SiteNo};
use statement_set::StatementSet;
use std::alloc::Global;

/// The order in which `weave` puts the entries of these histories, of which there are at most
/// 65,536: for each entry of the trace, the oldest first, its history by the place in the list. Each
/// place in the order takes the next entry of its history (`each`), and the trace that is taken so
/// weaves the histories as that of `weave` does (`woven`, `lowest`).
///
/// The faults are those of `weave`. Costs what `weave` costs. Takes memory for two bytes an entry,
/// for one number a history and for the statements issued.
///
/// Source: Balegas and others 2015 for statements that may come at any later time.
pub fn weave_order(alloc: Global, histories: &[Vec<Entry>]) -> Result<Vec<u16>, WeaveFault>
    requires few { length histories.now ≤ 65536 }
    ensures each { IfOk result (λ order. length (taken_by (lists_of histories.now) order.items)
        ≡ length order.items) }
    ensures woven { IfOk result (λ order. Weaves (lists_of histories.now)
        (reverse (taken_by (lists_of histories.now) order.items))) }
    ensures lowest { IfOk result (λ order. WeavesLowest (lists_of histories.now)
        (reverse (taken_by (lists_of histories.now) order.items))) }
    ensures stuck { IfErr result (λ fault. TellsStuck (lists_of histories.now) fault) }
{
    let mut counts = vec![in alloc; 0usize; histories.len()]?;
    let mut order = Vec::new(alloc);
    let mut issued = StatementSet::new(alloc);
    let mut from = 0;
    while let Some((site, entry)) = next_turn(histories, counts.as_slice(), &issued, from) {
        issued.insert_issued(&entry)?;
        order.push(site as u16)?;
        counts[site] += 1;
        from = next_look(&entry, site);
    }
    match first_left(histories, counts.as_slice()) {
        Some(site) => Err(WeaveFault::Stuck {
            site: SiteNo(site as u16),
            number: counts[site] as u64 + 1,
        }),
        None => Ok(order),
    }
}
