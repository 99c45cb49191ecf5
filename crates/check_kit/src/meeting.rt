//! Threads that wait for one another, for a while.

use field_bounds::SiteNo;
use std::sync::atomic::{AtomicU64, Ordering};

/// Whether the mark is set while turning so many times.
pub fn comes(mark: &AtomicU64, turns: u64) -> bool {
    for _turn in 0..turns {
        if mark.load(Ordering::SeqCst) == 1 {
            return true;
        }
    }
    false
}

/// Where the first calls at two sites meet.
#[derive(Drop)]
pub struct Meeting {
    zero: AtomicU64,
    one: AtomicU64,
}

impl Meeting {
    /// A meeting at which no site is yet.
    pub fn new() -> Meeting {
        Meeting {
            zero: AtomicU64::new(0),
            one: AtomicU64::new(0),
        }
    }

    /// The first call at a site, 0 or 1, waits, as long as it takes to turn 20,000,000,000 times, until
    /// the other site's first call is there too, and tells whether that came. A later call passes.
    pub fn meets(&self, site: SiteNo, call: u64) -> bool {
        if call != 1 {
            return true;
        }
        let (own, other) = if site == SiteNo(0) {
            (&self.zero, &self.one)
        } else {
            (&self.one, &self.zero)
        };
        own.store(1, Ordering::SeqCst);
        comes(other, 20_000_000_000)
    }
}
