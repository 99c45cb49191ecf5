//! Histories that are held whole, as lists of entries.

ghost use Rattle.std.specs.Prelude.{◌≡◌, ◌≤◌, IfOk, length};
ghost use Rattle.trace_weave.specs.Weave.{lists_of};

use crate::fault::Unread;
use crate::histories::Histories;
use field_bounds::Entry;
use std::alloc::{AllocError, Global};
use trace_weave::upcoming;

/// Histories that are lent, each whole, and how many entries of each were taken.
#[derive(Drop)]
pub struct ListedHistories<'a> {
    histories: &'a [Vec<Entry>],
    counts: Vec<usize>,
    ghost few: { length histories.now ≤ 65535 },
    ghost each: { length counts.items ≡ length histories.now },
}

impl<'a> ListedHistories<'a> {
    ghost use Rattle.woven_verdict.specs.Woven.{none_taken};
    ghost use Rattle.woven_verdict.specs.Listed.{Lists};

    /// These histories, of which no entry was taken yet, at most 65,535 of them. Takes memory for one
    /// number a history; the error is want of it.
    pub fn new(
        alloc: Global,
        histories: &'a [Vec<Entry>],
    ) -> Result<ListedHistories<'a>, AllocError>
        requires few { length histories.now ≤ 65535 }
        ensures all { IfOk result (Lists (lists_of histories.now)
            (none_taken (lists_of histories.now))) }
    {
        let counts = vec![in alloc; 0usize; histories.len()]?;
        Ok(ListedHistories { histories, counts })
    }
}

impl Histories for ListedHistories<'_> {
    ghost use Rattle.woven_verdict.specs.Listed.{Lists};

    ghost holds = { Lists };

    ghost has_failed = { λ _. ⊥ };

    fn sites(&self) -> u16 {
        self.histories.len() as u16
    }

    fn upcoming(&self, site: u16) -> Option<Entry> {
        upcoming(self.histories, self.counts.as_slice(), usize::from(site))
    }

    fn next_number(&self, site: u16) -> u64 {
        let site = usize::from(site);
        match upcoming(self.histories, self.counts.as_slice(), site) {
            Some(_) => self.counts[site] as u64 + 1,
            None => 0,
        }
    }

    fn take(&mut self, site: u16) -> Result<(), Unread> {
        let site = usize::from(site);
        if upcoming(self.histories, self.counts.as_slice(), site).is_some() {
            self.counts[site] += 1;
        }
        Ok(())
    }
}
