//! A file in memory that tells its bytes, and fails as it is told.

ghost use Rattle.std.specs.Prelude.{◌≡◌, [], None, Some, length};

use crate::log_file::{FileFailed, LogFile};
use std::alloc::Global;
use std::marker::Model;

/// A call of a file.
#[derive(Clone, Copy, Debug, PartialEq, Eq)]
pub enum FileCall {
    Read,
    Write,
    Cut,
    Sync,
}

/// A call that fails, once: of the calls of this kind so many go well before it.
#[derive(Clone, Copy, Debug, PartialEq, Eq)]
pub struct FileMishap {
    pub call: FileCall,
    pub good: u64,
}

/// Bytes in memory, for tests: it shows that the clauses of `LogFile` can be met. It tells what it
/// holds, and what is safe. Its writes may be short, it may be full, and a call may fail. A sync
/// fails for want of memory too, since it copies what is safe.
#[derive(Drop)]
pub struct MemoryFile {
    alloc: Global,
    held: Vec<u8>,
    safe: Vec<u8>,
    // The fewest bytes that a cut has left.
    least: usize,
    at_once: usize,
    capacity: usize,
    mishap: Option<FileMishap>,
}

impl Model for MemoryFile {
    ghost use Rattle.std.specs.Prelude.{Some};
    ghost use Rattle.file_medium.specs.Copies.{IsFrontOf};
    ghost use Rattle.file_medium.specs.HeldFile.{HeldFile};

    ghost Value = { HeldFile };

    ghost view = { λ f. record {
      bytes = f.held.items;
      safe = f.safe.items;
      least = f.least;
      at_once = f.at_once;
      capacity = f.capacity;
      mishap = f.mishap;
    } };

    ghost invariant = { λ f. IsFrontOf (Some f.held.items) f.safe.items };
}

impl MemoryFile {
    /// A file that holds these bytes, none of them safe. Its calls go well, and a write takes all
    /// of its piece. Takes no memory.
    pub fn new(alloc: Global, held: Vec<u8>) -> MemoryFile
        ensures bytes { result.bytes ≡ held.items }
        ensures safe { result.safe ≡ [] }
        ensures least { result.least ≡ length held.items }
        ensures at_once { result.at_once ≡ usize.MAX }
        ensures capacity { result.capacity ≡ usize.MAX }
        ensures mishap { result.mishap ≡ None }
    {
        MemoryFile {
            alloc,
            least: held.len(),
            held,
            safe: Vec::new(alloc),
            at_once: usize::MAX,
            capacity: usize::MAX,
            mishap: None,
        }
    }

    /// From now on a write takes at most so many bytes of its piece. Changes nothing else.
    pub fn limit_writes(&mut self, most: usize)
        ensures { self.new ≡ record self.old { at_once = most } }
    {
        self.at_once = most;
    }

    /// From now on the file grows to at most so many bytes: a write takes what there is room for,
    /// which may be none. Changes nothing else.
    pub fn limit_length(&mut self, most: usize)
        ensures { self.new ≡ record self.old { capacity = most } }
    {
        self.capacity = most;
    }

    /// Sets the call that fails, in place of the one before, and changes nothing else.
    pub fn arm(&mut self, next: FileMishap)
        ensures { self.new ≡ record self.old { mishap = Some next } }
    {
        self.mishap = Some(next);
    }

    /// The bytes that it holds. Costs no memory.
    pub fn bytes(&self) -> &[u8]
        ensures all { result.now ≡ self.now.bytes }
    {
        self.held.as_slice()
    }

    /// The fewest bytes that a cut has left, or as many as it began with where those are fewer.
    /// Costs no memory.
    pub fn least(&self) -> usize
        ensures value { result ≡ self.now.least }
    {
        self.least
    }

    /// The bytes that a stop of the machine leaves. Costs no memory.
    pub fn safe(&self) -> &[u8]
        ensures all { result.now ≡ self.now.safe }
    {
        self.safe.as_slice()
    }
}

/// Whether this call is the one that fails; where it is of that kind it is counted.
fn strikes(mishap: &mut Option<FileMishap>, call: FileCall) -> bool {
    if let Some(next) = *mishap
        && next.call == call
    {
        *mishap = match next.good.checked_sub(1) {
            Some(good) => Some(FileMishap { call, good }),
            None => None,
        };
        return next.good == 0;
    }
    false
}

impl LogFile for MemoryFile {
    ghost bytes = { λ f. Some f.bytes };

    ghost safe = { λ f. Some f.safe };

    ghost least = { λ f. Some f.least };

    fn read_at(&mut self, at: u64, buffer: &mut [u8]) -> Result<usize, FileFailed> {
        if strikes(&mut self.mishap, FileCall::Read) {
            return Err(FileFailed);
        }
        if at >= self.held.len() as u64 {
            return Ok(0);
        }
        let left = &self.held[at as usize..];
        let count = left.len().min(buffer.len());
        buffer[..count].copy_from_slice(&left[..count]);
        Ok(count)
    }

    fn write(&mut self, piece: &[u8]) -> Result<usize, FileFailed> {
        if strikes(&mut self.mishap, FileCall::Write) {
            return Err(FileFailed);
        }
        let room = self.capacity.saturating_sub(self.held.len());
        let count = piece.len().min(self.at_once).min(room);
        match self.held.extend_from_slice(&piece[..count]) {
            Ok(()) => Ok(count),
            Err(_) => Err(FileFailed),
        }
    }

    fn cut(&mut self, kept: u64) -> Result<(), FileFailed> {
        if strikes(&mut self.mishap, FileCall::Cut) {
            return Err(FileFailed);
        }
        self.held.truncate(kept as usize);
        self.safe.truncate(kept as usize);
        self.least = self.least.min(kept as usize);
        Ok(())
    }

    fn sync(&mut self) -> Result<(), FileFailed> {
        if strikes(&mut self.mishap, FileCall::Sync) {
            return Err(FileFailed);
        }
        match Vec::from_slice(self.alloc, &self.held) {
            Ok(copy) => {
                self.safe = copy;
                Ok(())
            }
            Err(_) => Err(FileFailed),
        }
    }
}
