//! A list that only grows at its end.

ghost use Rattle.std.specs.Prelude.{◌≡◌, ◌+◌, ◌<◌, ◌≤◌, ◌^◌, ℕ, List, [], ◌∷◌, ◌++◌, length, OnOk};
ghost use Rattle.std.specs.Vec.{vec_len, vec_capacity};
ghost use Rattle.std.proofs.Common.{lt_of_le_of_lt, subst};

use crate::kept::{push_in, reserve_in};
use std::alloc::AllocError;

/// A list that only grows at its end, of fewer than 2^63 items: kept for readers, as a `Vec`, or
/// seen by proofs alone, as a `GhostHistory`. Contracts see its items, the oldest first.
///
/// Source: this project.
pub trait History<T>: Drop {
    ghost items: { Self → List T };

    /// Whether so many more items can be added without memory.
    ghost has_room: { Self → ℕ → Type 0 };

    /// A history of these items. Costs no memory, and a step for each item where it isn't kept.
    fn of(list: Vec<T>) -> Self
        ensures items { items result ≡ list.items };

    /// Makes room for so many more items. `AllocError`: memory is wanting, or there would be 2^63
    /// items or more; the items are as before either way.
    fn reserve(&mut self, more: usize) -> Result<(), AllocError>
        ensures items { items self.new ≡ items self.old }
        ensures ok { OnOk result (has_room self.new more) };

    /// One more item, behind the others. Costs no memory.
    fn push_reserved(&mut self, item: T)
        requires room { has_room self.old 1 }
        ensures items { items self.new ≡ items self.old ++ item ∷ [] };

    /// There are fewer than 2^63 items.
    ghost few: { (h : Self) → length (items h) < 2 ^ 63 };
}

impl<T: Drop> History<T> for Vec<T> {
    ghost items = { λ v. v.items };

    ghost has_room = { λ v n. vec_len v + n ≤ vec_capacity v };

    ghost few = { λ v. subst (λ (m : ℕ). m < 2 ^ 63) v.ok.0 (lt_of_le_of_lt v.ok.1 v.small) };

    fn of(list: Vec<T>) -> Vec<T>
        ensures items { result.items ≡ list.items }
    {
        list
    }

    fn reserve(&mut self, more: usize) -> Result<(), AllocError> {
        reserve_in(self, more)
    }

    fn push_reserved(&mut self, item: T) {
        push_in(self, item);
    }
}
