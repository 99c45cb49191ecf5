//! What was read of an input and not given yet, in one piece, and the line that was given last.

ghost use Rattle.std.specs.Prelude.{◌≡◌, ◌<◌, ◌≤◌, ◌+◌, ℕ, List, [], ◌++◌, length, take, drop, IfOk, IfErr, OnErr, vec_len};
ghost use Rattle.std.specs.Io.KnownBytes.{Keeps, Consumes, IsAtEnd};
ghost use Rattle.script_input.specs.Faults.{CountsReads};
ghost use Rattle.script_input.specs.Streams.{HasFailed, GaveNothing};

use crate::fault::ScriptFault;
use crate::streams::Source;
use std::alloc::{AllocError, Global};

/// How many bytes are read in one call, and how many are gathered before a write.
pub const PIECE: usize = 65_536;

// Room for a piece, and for as many bytes of a line before it.
const SIZE: usize = 131_072;

/// The bytes from `start` to `end` weren't given; those from `from` to `to`, in front of them, are
/// the line that was given last.
#[derive(Drop)]
pub(crate) struct Window {
    bytes: Vec<u8>,
    from: usize,
    to: usize,
    start: usize,
    end: usize,
    ghost size: { vec_len bytes ≡ 131072 },
    ghost line: { from ≤ to },
    ghost kept: { to ≤ 131072 },
    ghost ordered: { start ≤ end },
    ghost within: { end ≤ 131072 },
}

impl Window {
    ghost use Rattle.script_input.specs.Window.{rest_of, line_of};

    /// A window before the first read. The error is want of memory.
    pub(crate) fn new(alloc: Global) -> Result<Window, AllocError>
        ensures { IfOk result (λ window. rest_of window ≡ []) }
    {
        Ok(Window {
            bytes: vec![in alloc; 0u8; SIZE]?,
            from: 0,
            to: 0,
            start: 0,
            end: 0,
        })
    }

    /// The bytes that weren't given.
    #[inline]
    pub(crate) fn rest(&self) -> &[u8]
        ensures { result.now ≡ rest_of self.now }
    {
        &self.bytes[self.start..self.end]
    }

    /// The line that was given last.
    #[inline]
    pub(crate) fn line(&self) -> &[u8]
        ensures { result.now ≡ line_of self.now }
    {
        &self.bytes[self.from..self.to]
    }

    /// Gives a line of so many bytes, and as many behind it as end it.
    #[inline]
    pub(crate) fn give(&mut self, count: usize, ending: usize)
        requires { count + ending ≤ length (rest_of self.old) }
        ensures line { line_of self.new ≡ take count (rest_of self.old) }
        ensures rest { rest_of self.new ≡ drop (count + ending) (rest_of self.old) }
    {
        self.from = self.start;
        self.to = self.start + count;
        self.start = self.to + ending;
    }

    // Makes room for a piece behind the bytes that weren't given: where there is none, or where none
    // of them are left, they move to the front.
    fn make_room(&mut self)
        requires { length (rest_of self.old) ≤ 65536 }
        ensures rest { rest_of self.new ≡ rest_of self.old }
        ensures room { self.new.end ≤ 65536 }
    {
        let (start, end) = (self.start, self.end);
        if start < end && end <= SIZE - PIECE {
            return;
        }
        self.bytes.as_mut_slice().copy_within(start..end, 0);
        self.start = 0;
        self.end = end - start;
        self.from = 0;
        self.to = 0;
    }

    /// Reads the next bytes, and tells how many: one read of the source, with room for 65,536. The
    /// fault is a read fault, and nothing is tried again.
    pub(crate) fn fill<R: Source>(&mut self, reader: &mut R) -> Result<usize, ScriptFault>
        requires { length (rest_of self.old) ≤ 65536 }
        ensures ok { IfOk result (λ count. (more : List ℕ) × ((length more ≡ count) × ((count ≤ 65536)
            × ((rest_of self.new ≡ rest_of self.old ++ more)
            × Consumes (R.bytes reader.old) (R.bytes reader.new) more)))) }
        ensures none { IfOk result (λ count. count ≡ 0
            → IsAtEnd (R.bytes reader.new) × GaveNothing (R.last reader.new)) }
        ensures fault { IfErr result (λ fault. fault ≡ ScriptFault.Read) }
        ensures kept { OnErr result ((rest_of self.new ≡ rest_of self.old)
            × Keeps (R.bytes reader.old) (R.bytes reader.new)) }
        ensures failed { OnErr result (HasFailed (R.last reader.new)) }
        ensures reads { CountsReads result (R.failures reader.old) (R.failures reader.new) }
    {
        self.make_room();
        let end = self.end;
        match reader.read(&mut self.bytes[end..end + PIECE]) {
            Ok(count) => {
                self.end = end + count;
                Ok(count)
            }
            Err(_) => Err(ScriptFault::Read),
        }
    }
}
