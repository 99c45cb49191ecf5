//! Where a site stands: up or down, in which epoch, and what it answered since its last restart.

ghost use Rattle.std.specs.Prelude.{◌≡◌, ◌≤◌, ◌<◌, ◌+◌, ◌∷◌, List, length, true};
ghost use Rattle.field_bounds.specs.declared.entry.Entry.{Entry};
ghost use Rattle.field_bounds.specs.Effects.{Base};
ghost use Rattle.field_bounds.specs.Owed.{is_up, epoch_of, count_since, is_begun_reply, is_still_down, is_unsure};

use field_bounds::{Entry, Reply};

/// Where a site stands: whether it is up, its epoch, and how many transactions it began, how many
/// restarts failed and how many replies were in doubt since its last restart.
#[derive(Clone, Copy)]
pub struct SiteCounts {
    pub up: bool,
    pub epoch: u32,
    pub begun: u64,
    pub still_down: u64,
    pub unsure: u64,
}

impl SiteCounts {
    /// A site that has answered nothing yet. Costs no memory.
    pub fn new() -> SiteCounts
        ensures up { result.up ≡ true }
        ensures epoch { result.epoch ≡ 0 }
        ensures begun { result.begun ≡ 0 }
        ensures still_down { result.still_down ≡ 0 }
        ensures unsure { result.unsure ≡ 0 }
    {
        SiteCounts {
            up: true,
            epoch: 0,
            begun: 0,
            still_down: 0,
            unsure: 0,
        }
    }

    /// Where the site stands after one more entry of its own. A count stays at the greatest number
    /// where it is that already, so it is exact over any entries that memory holds. Costs no
    /// memory.
    #[inline(always)]
    pub fn after(self, entry: Entry) -> SiteCounts
        ensures up { (base : Base) (o : List Entry) → self.up ≡ is_up base o →
            result.up ≡ is_up base (entry ∷ o) }
        ensures epoch { (base : Base) (o : List Entry) → self.epoch ≡ epoch_of base o →
            result.epoch ≡ epoch_of base (entry ∷ o) }
        ensures begun { (o : List Entry) → length o < 18446744073709551615 →
            self.begun ≡ count_since is_begun_reply o →
            result.begun ≡ count_since is_begun_reply (entry ∷ o) }
        ensures still_down { (o : List Entry) → length o < 18446744073709551615 →
            self.still_down ≡ count_since is_still_down o →
            result.still_down ≡ count_since is_still_down (entry ∷ o) }
        ensures unsure { (o : List Entry) → length o < 18446744073709551615 →
            self.unsure ≡ count_since is_unsure o →
            result.unsure ≡ count_since is_unsure (entry ∷ o) }
        ensures most { (result.begun ≤ self.begun + 1) × (result.still_down ≤ self.still_down + 1)
            × (result.unsure ≤ self.unsure + 1) }
    {
        let mut now = self;
        match entry.reply {
            Reply::Restarted { epoch, .. } => {
                now = SiteCounts::new();
                now.epoch = epoch;
            }
            Reply::Unsure => {
                now.up = false;
                now.unsure = now.unsure.saturating_add(1);
            }
            Reply::StillDown => {
                now.up = false;
                now.still_down = now.still_down.saturating_add(1);
            }
            Reply::Begun(_) => now.begun = now.begun.saturating_add(1),
            _ => {}
        }
        now
    }
}
