//! How often memory was refused.

/// A count of the calls that were refused memory.
#[derive(Drop)]
pub struct Refusals {
    count: u64,
}

impl Refusals {
    pub fn new() -> Refusals {
        Refusals { count: 0 }
    }

    /// Counts one more.
    pub fn note(&mut self) {
        self.count = self.count.saturating_add(1);
    }

    pub fn count(&self) -> u64 {
        self.count
    }
}
