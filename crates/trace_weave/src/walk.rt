//! A walk over histories by an order.

ghost use Rattle.std.specs.Prelude.{◌≡◌, ◌<◌, ◌-◌, ◌^◌, IfOk, IfSome, length, slice_index_or};
ghost use Rattle.trace_weave.specs.Order.{taken_by};
ghost use Rattle.trace_weave.specs.Turn.{upcoming};
ghost use Rattle.trace_weave.specs.Weave.{lists_of};

use field_bounds::Entry;
use std::alloc::{AllocError, Global};
use std::marker::Model;

/// The next entry of the history of this place, where `counts` has how many entries of each were
/// taken: the oldest one that wasn't. Give one count for each history.
///
/// None where none is left, or no history has that place (`next`). So where there is one, its place
/// has a count (`inside`), which may be counted up (`room`). Costs one look.
pub fn upcoming(histories: &[Vec<Entry>], counts: &[usize], site: usize) -> Option<Entry>
    requires { length counts.now ≡ length histories.now }
    ensures next { result ≡ upcoming (lists_of histories.now) counts.now site }
    ensures inside { IfSome result (λ _. site < length counts.now) }
    ensures room { IfSome result (λ _. slice_index_or counts.now site 0 < 2 ^ 64 - 1) }
{
    let history = histories.get(site)?;
    history.get(counts[site]).copied()
}

/// A walk over histories, which are lent to it: it gives the entries that an order takes out of them,
/// one after another. Contracts see it as the list of the entries that are left.
#[derive(Drop)]
pub struct WovenEntries<'a> {
    histories: &'a [Vec<Entry>],
    /// How many entries of each history were given.
    counts: Vec<usize>,
    order: Vec<u16>,
    /// How many places of the order were walked.
    walked: usize,
}

impl<'a> Model for WovenEntries<'a> {
    ghost use Rattle.std.specs.Prelude.{◌≡◌, List, length, drop};
    ghost use Rattle.field_bounds.specs.declared.entry.Entry.{Entry};
    ghost use Rattle.trace_weave.specs.Order.{taken_from};
    ghost use Rattle.trace_weave.specs.Weave.{lists_of};

    ghost Value = { List Entry };

    ghost view = { λ w. taken_from (lists_of w.histories.now) w.counts.items
        (drop w.walked w.order.items) };

    ghost invariant = { λ w. length w.counts.items ≡ length w.histories.now };
}

impl<'a> WovenEntries<'a> {
    /// The walk over these histories by this order. It ends at the first place of the order whose
    /// history has no entry left: by an order of `weave_order` it gives the whole trace.
    ///
    /// Takes memory for one number a history; the error is want of it. An entry costs a look at the
    /// order and at its history, and no memory.
    pub fn new(
        alloc: Global,
        histories: &'a [Vec<Entry>],
        order: Vec<u16>,
    ) -> Result<WovenEntries<'a>, AllocError>
        ensures all { IfOk result (λ woven. woven
            ≡ taken_by (lists_of histories.now) order.items) }
    {
        let counts = vec![in alloc; 0usize; histories.len()]?;
        Ok(WovenEntries {
            histories,
            counts,
            order,
            walked: 0,
        })
    }
}

impl Iterator for WovenEntries<'_> {
    ghost use Rattle.std.specs.Iterator.{YieldsFirst, item_count};

    type Item = Entry;

    ghost next_gives = { YieldsFirst (λ w. w) };

    ghost remaining = { item_count (λ w. w) };

    fn next(&mut self) -> Option<Entry> {
        let site = usize::from(*self.order.get(self.walked)?);
        let entry = upcoming(self.histories, self.counts.as_slice(), site)?;
        self.counts[site] += 1;
        self.walked += 1;
        Some(entry)
    }
}
