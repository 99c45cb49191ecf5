//! A history that only proofs see.

ghost use Rattle.std.specs.Prelude.{◌≡◌, ◌+◌, ◌<◌, ◌^◌, ℕ, [], ◌∷◌, ◌++◌, length};
ghost use Rattle.std.proofs.Common.{subst};

use crate::trait_history::History;
use crate::unkept::Unkept;
use std::alloc::AllocError;

/// A history whose items only proofs see: of them code keeps their number alone, in 8 bytes.
/// Contracts see the items, as those of a `Vec`.
///
/// Source: this project.
#[derive(Drop)]
pub struct GhostHistory<T: Drop> {
    count: u64,
    list: Unkept<T>,
    ghost counted: { count ≡ length list.items },
    ghost small: { count < 2 ^ 63 },
}

impl<T: Drop> GhostHistory<T> {
    /// One more item, behind the others, that stays the caller's. Costs no memory.
    pub fn note(&mut self, item: &T)
        requires room { length self.old.list.items + 1 < 2 ^ 63 }
        ensures items { self.new.list.items ≡ self.old.list.items ++ item.now ∷ [] }
    {
        let count = self.count + 1;
        self.list = self.list.with(item);
        self.count = count;
    }
}

impl<T: Drop> History<T> for GhostHistory<T> {
    ghost items = { λ h. h.list.items };

    ghost has_room = { λ h n. h.count + n < 2 ^ 63 };

    ghost few = { λ h. subst (λ (m : ℕ). m < 2 ^ 63) h.counted h.small };

    fn of(list: Vec<T>) -> GhostHistory<T>
        ensures items { result.list.items ≡ list.items }
    {
        GhostHistory {
            count: list.len() as u64,
            list: Unkept::of(&list),
        }
    }

    fn reserve(&mut self, more: usize) -> Result<(), AllocError> {
        let left = (1 << 63) - self.count;
        if (more as u64) < left {
            Ok(())
        } else {
            Err(AllocError)
        }
    }

    fn push_reserved(&mut self, item: T) {
        self.list.push(item);
        self.count += 1;
    }
}
