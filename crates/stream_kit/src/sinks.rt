//! A sink, proved to keep its law: it refuses once, and would go on.

ghost use Rattle.std.specs.Prelude.{◌≡◌, Some};
ghost use Rattle.script_input.specs.Streams.{one_more};

use script_input::{CallEnd, CallFailed, Sink};
use std::alloc::Global;

/// A sink that refuses a write once it has taken so many bytes.
#[derive(Drop)]
pub struct RefusingSink {
    taken: Vec<u8>,
    room: usize,
    last: CallEnd,
    refusals: u64,
}

impl RefusingSink {
    /// An empty sink that takes so many bytes before it refuses. Takes no memory.
    pub fn new(alloc: Global, room: usize) -> RefusingSink {
        RefusingSink {
            taken: Vec::new(alloc),
            room,
            last: CallEnd::NotCalled,
            refusals: 0,
        }
    }

    /// How many writes were refused.
    pub fn refusals(&self) -> u64
        ensures value { result ≡ self.now.refusals }
    {
        self.refusals
    }

    /// What was taken.
    pub fn taken(&self) -> &[u8]
        ensures all { result.now ≡ self.now.taken.items }
    {
        self.taken.as_slice()
    }

    fn refuse(&mut self) -> CallFailed
        ensures taken { self.new.taken ≡ self.old.taken }
        ensures last { self.new.last ≡ CallEnd.Failed }
        ensures refusals { self.new.refusals ≡ one_more self.old.refusals }
    {
        self.last = CallEnd::Failed;
        self.refusals = self.refusals.wrapping_add(1);
        CallFailed
    }
}

impl Sink for RefusingSink {
    ghost bytes = { λ s. Some s.taken.items };

    ghost last = { λ s. s.last };

    ghost refusals = { λ s. s.refusals };

    fn write(&mut self, piece: &[u8]) -> Result<usize, CallFailed> {
        if self.room == 0 && self.refusals == 0 && !piece.is_empty() {
            return Err(self.refuse());
        }
        let count = if self.refusals == 0 {
            piece.len().min(self.room)
        } else {
            piece.len()
        };
        if self.taken.extend_from_slice(&piece[..count]).is_err() {
            return Err(self.refuse());
        }
        self.room = self.room.saturating_sub(count);
        self.last = CallEnd::Moved;
        Ok(count)
    }
}
