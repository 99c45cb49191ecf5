//! What a medium is: bytes that are read whole, appended to and cut.

ghost use Rattle.std.specs.Prelude.{◌≡◌, ◌≤◌, ◌++◌, List, ℕ, length, take, Option, IfOk, OnOk, OnErr};
ghost use Rattle.kept_records.specs.declared.medium.Mishap.{Mishap};
ghost use Rattle.kept_records.specs.Medium.{IsCutShort, Counts, CountsRead, AppendFate, CutFate, ReadFate, last_bytes};

use std::alloc::{AllocError, Global};
use thiserror::Error;

/// The device failed in this call.
#[derive(Clone, Copy, Debug, PartialEq, Eq, Error)]
#[error("device fault")]
pub struct Device;

/// Why the bytes of a medium weren't read: the device failed in this call, or memory is wanting.
#[derive(Clone, Copy, Debug, PartialEq, Eq, Error)]
pub enum MediumFault {
    #[error("device fault")]
    Device,
    #[error("out of memory")]
    NoMemory,
}

/// How a medium will fail next, where that is known beforehand. It strikes the next call of its
/// kind, and is then used up.
#[derive(Clone, Copy, Debug, PartialEq, Eq)]
pub enum Mishap {
    /// No call will fail.
    Never,
    /// The next append fails. It keeps this many bytes of its piece, from the front, or all of them
    /// where the piece has no more.
    Append(u64),
    /// The next cut fails.
    Cut,
    /// The next read fails.
    Read,
}

/// The end of what a medium holds.
#[derive(Drop)]
pub struct End {
    /// The last bytes.
    pub bytes: Vec<u8>,
    /// How many bytes the medium holds in all.
    pub length: usize,
}

/// Bytes that outlast a stop of the site that keeps its records in them.
///
/// A medium is seen by four things: its bytes; its room, which is how many bytes can be appended
/// without memory; how often its device has failed; and the mishap that strikes next, where that is
/// known beforehand (a device of which nothing is known has none). A stop inside an append is the
/// same as an append that fails and whose answer nobody sees.
pub trait Medium {
    /// The bytes that it holds.
    ghost bytes: { Self → List ℕ };

    /// How many bytes can be appended without memory.
    ghost room: { Self → ℕ };

    /// How often the device has failed.
    ghost failed: { Self → ℕ };

    /// The mishap that strikes next, or None where that isn't known beforehand.
    ghost foretold: { Self → Option Mishap };

    /// All the bytes, which stay as they are. The errors are a fault of the device and want of
    /// memory. Costs memory for the bytes.
    fn read_all(&mut self, alloc: Global) -> Result<Vec<u8>, MediumFault>
        ensures read { IfOk result (λ read. read.items ≡ bytes self.old) }
        ensures bytes { bytes self.new ≡ bytes self.old }
        ensures room { room self.old ≤ room self.new }
        ensures failed { CountsRead result (failed self.old) (failed self.new) }
        ensures foretold { ReadFate (foretold self.old) result (foretold self.new) };

    /// The last `most` bytes, or all where there are no more, and how many bytes there are in all.
    /// They stay as they are. The errors are a fault of the device and want of memory; a mishap for
    /// reads strikes this call as it does `read_all`. Costs memory for the bytes that it answers
    /// where a medium has a body of its own, as both media in memory do; else for all its bytes.
    fn read_end(&mut self, alloc: Global, most: usize) -> Result<End, MediumFault>
        ensures read { IfOk result (λ end. end.bytes.items ≡ last_bytes most (bytes self.old)) }
        ensures length { IfOk result (λ end. end.length ≡ length (bytes self.old)) }
        ensures bytes { bytes self.new ≡ bytes self.old }
        ensures room { room self.old ≤ room self.new }
        ensures failed { CountsRead result (failed self.old) (failed self.new) }
        ensures foretold { ReadFate (foretold self.old) result (foretold self.new) }
    {
        let all = self.read_all(alloc)?;
        end_of(alloc, &all, most).map_err(|_| MediumFault::NoMemory)
    }

    /// Gets room for an append of so many bytes. The bytes stay as they are. The error is want of
    /// memory; it leaves the room that was there.
    fn reserve(&mut self, additional: usize) -> Result<(), AllocError>
        ensures ok { OnOk result (additional ≤ room self.new) }
        ensures bytes { bytes self.new ≡ bytes self.old }
        ensures room { room self.old ≤ room self.new }
        ensures failed { failed self.new ≡ failed self.old }
        ensures foretold { foretold self.new ≡ foretold self.old };

    /// Adds a piece behind the bytes. The room has to cover it: a `reserve` of at least its length
    /// since the last append sees to that. The error is a fault of the device, which leaves the old
    /// bytes with some front of the piece behind them: none of it, a part, or all. Takes no memory.
    fn append(&mut self, piece: &[u8]) -> Result<(), Device>
        requires room { length piece.now ≤ room self.old }
        ensures ok { OnOk result (bytes self.new ≡ bytes self.old ++ piece.now) }
        ensures err { OnErr result (IsCutShort (bytes self.old) piece.now (bytes self.new)) }
        ensures failed { Counts result (failed self.old) (failed self.new) }
        ensures foretold { AppendFate (foretold self.old) (bytes self.old) piece.now result
            (bytes self.new) (foretold self.new) };

    /// Drops the bytes behind the first `kept`, which may be at most as many as there are. The
    /// error is a fault of the device, which leaves the bytes as they were. Takes no memory, and
    /// leaves the room that was there.
    fn cut(&mut self, kept: usize) -> Result<(), Device>
        requires within { kept ≤ length (bytes self.old) }
        ensures ok { OnOk result (bytes self.new ≡ take kept (bytes self.old)) }
        ensures err { OnErr result (bytes self.new ≡ bytes self.old) }
        ensures room { room self.old ≤ room self.new }
        ensures failed { Counts result (failed self.old) (failed self.new) }
        ensures foretold { CutFate (foretold self.old) result (foretold self.new) };

    /// How often the device has failed: once for each fault of the device that a call answered. A
    /// device whose count is at the greatest `u64` fails no more.
    fn failures(&self) -> u64
        ensures value { result ≡ failed self.now };
}

/// A copy of the last `most` bytes, or of all where there are no more.
pub(crate) fn end_of(alloc: Global, all: &[u8], most: usize) -> Result<End, AllocError>
    ensures read { IfOk result (λ end. end.bytes.items ≡ last_bytes most all.now) }
    ensures length { IfOk result (λ end. end.length ≡ length all.now) }
{
    let start = all.len().saturating_sub(most);
    Ok(End {
        bytes: Vec::from_slice(alloc, &all[start..])?,
        length: all.len(),
    })
}
