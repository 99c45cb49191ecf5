//! A medium of a caller's own: what another one does, with a meter.
#![tactic(auto)]

use kept_records::{Device, End, Medium, MediumFault};
use std::alloc::{AllocError, Global};
use std::sync::Arc;
use std::sync::atomic::{AtomicU64, Ordering};

// guide: own medium
/// Any medium, with a meter of the bytes that appends added to it. Only an append that went well is
/// counted.
#[derive(Drop)]
pub struct Metered<M: Medium> {
    pub inner: M,
    pub meter: Arc<AtomicU64>,
}

impl<M: Medium> Medium for Metered<M> {
    ghost bytes = { λ m. M.bytes m.inner };

    ghost room = { λ m. M.room m.inner };

    ghost failed = { λ m. M.failed m.inner };

    ghost foretold = { λ m. M.foretold m.inner };

    fn append(&mut self, piece: &[u8]) -> Result<(), Device> {
        let ended = self.inner.append(piece);
        if ended.is_ok() {
            self.meter.fetch_add(piece.len() as u64, Ordering::SeqCst);
        }
        ended
    }

    fn read_all(&mut self, alloc: Global) -> Result<Vec<u8>, MediumFault> {
        self.inner.read_all(alloc)
    }

    fn read_end(&mut self, alloc: Global, most: usize) -> Result<End, MediumFault> {
        self.inner.read_end(alloc, most)
    }

    fn reserve(&mut self, additional: usize) -> Result<(), AllocError> {
        self.inner.reserve(additional)
    }

    fn cut(&mut self, kept: usize) -> Result<(), Device> {
        self.inner.cut(kept)
    }

    fn failures(&self) -> u64 {
        self.inner.failures()
    }
}
// guide: end
