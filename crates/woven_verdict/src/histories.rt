//! Histories whose entries are taken one after another.

ghost use Rattle.std.specs.Prelude.{◌≡◌, ◌+◌, ℕ, List, length, slice_index_or, slice_set, Some, OnOk, OnErr};
ghost use Rattle.field_bounds.specs.declared.entry.Entry.{Entry as EntryType};
ghost use Rattle.trace_weave.specs.Turn.{upcoming};

use crate::fault::Unread;
use field_bounds::Entry;

/// The histories of many sites, whose entries are taken one after another, those of each history from
/// the oldest on. So an implementation need not hold more of a history than its next entry.
///
/// Histories that a file has are not known to a contract: an implementation over files may know of no
/// lists that it holds (`holds`), and then promises nothing but why it failed.
pub trait Histories {
    /// It holds these histories, each from its oldest entry on, and so many entries of each were
    /// taken.
    ghost holds: { List (List EntryType) → List ℕ → Self → Type 0 };

    /// An entry couldn't be read.
    ghost has_failed: { Self → Type 0 };

    /// How many histories there are.
    fn sites(&self) -> u16
        ensures value { (hs : List (List EntryType)) (counts : List ℕ) → holds hs counts self.now →
            result ≡ length hs }
        ensures each { (hs : List (List EntryType)) (counts : List ℕ) → holds hs counts self.now →
            length counts ≡ length hs };

    /// The next entry of the history of this place, of those that weren't taken. None where none is
    /// left, or no history has that place.
    fn upcoming(&self, site: u16) -> Option<Entry>
        ensures { (hs : List (List EntryType)) (counts : List ℕ) → holds hs counts self.now →
            result ≡ upcoming hs counts site };

    /// The number of that entry in its history, from 1.
    fn next_number(&self, site: u16) -> u64
        ensures { (hs : List (List EntryType)) (counts : List ℕ) (entry : EntryType) →
            holds hs counts self.now → upcoming hs counts site ≡ Some entry →
            result ≡ slice_index_or counts site 0 + 1 };

    /// Takes the next entry of that history. The error is that the entry behind it couldn't be read:
    /// then nothing is said of the histories any more.
    fn take(&mut self, site: u16) -> Result<(), Unread>
        ensures taken { OnOk result ((hs : List (List EntryType)) (counts : List ℕ)
            (entry : EntryType) → holds hs counts self.old →
            upcoming hs counts site ≡ Some entry →
            holds hs (slice_set counts site (slice_index_or counts site 0 + 1)) self.new) }
        ensures failed { OnErr result (has_failed self.new) };
}
