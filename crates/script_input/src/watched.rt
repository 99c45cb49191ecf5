//! Readers and writers of std as sources and sinks.

ghost use Rattle.std.specs.Prelude.{◌≡◌};
ghost use Rattle.script_input.specs.Streams.{one_more};
ghost use Rattle.script_input.specs.Watched.{inner_of, last_of, failures_of, known_bytes};

use crate::streams::{CallEnd, CallFailed, Sink, Source};
use std::io::{Read, Write};

/// A reader or a writer of std, how its last call ended, and how many calls failed or took none of
/// their bytes.
///
/// This is the one place in which it is read, and not proved, how a call ended: std's traits don't
/// tell a contract whether a call fails, so no clause ties `last` and `failures` to the inner
/// calls. The bodies of `read` and `write` make one inner call each, and set both by its answer;
/// nothing outside this module can.
#[derive(Drop)]
pub struct Watched<T> {
    inner: T,
    last: CallEnd,
    failures: u64,
}

impl<T> Watched<T> {
    /// A reader or a writer before its first call. Costs no memory.
    pub fn new(inner: T) -> Watched<T>
        ensures inner { inner_of result ≡ inner }
        ensures last { last_of result ≡ CallEnd.NotCalled }
        ensures failures { failures_of result ≡ 0 }
    {
        Watched {
            inner,
            last: CallEnd::NotCalled,
            failures: 0,
        }
    }

    /// How the last call ended. Costs no memory.
    pub fn last(&self) -> CallEnd
        ensures last { result ≡ last_of self.now }
    {
        self.last
    }

    /// How many calls failed or took none of their bytes: a `u64` that begins again at 0. Costs no
    /// memory.
    pub fn failures(&self) -> u64
        ensures failures { result ≡ failures_of self.now }
    {
        self.failures
    }

    /// The reader or the writer. Costs no memory.
    pub fn into_inner(self) -> T
        ensures inner { result ≡ inner_of self }
    {
        self.inner
    }

    // Notes that a call failed or took none of its bytes.
    fn fail(&mut self, last: CallEnd) -> CallFailed
        ensures inner { self.new.inner ≡ self.old.inner }
        ensures last { self.new.last ≡ last }
        ensures failures { self.new.failures ≡ one_more self.old.failures }
    {
        self.last = last;
        self.failures = self.failures.wrapping_add(1);
        CallFailed
    }
}

impl<R: Read> Source for Watched<R> {
    ghost bytes = { known_bytes R.remaining };

    ghost last = { last_of };

    ghost failures = { failures_of };

    fn read(&mut self, buffer: &mut [u8]) -> Result<usize, CallFailed> {
        match self.inner.read(buffer) {
            Ok(0) if !buffer.is_empty() => {
                self.last = CallEnd::Nothing;
                Ok(0)
            }
            Ok(count) => {
                self.last = CallEnd::Moved;
                Ok(count)
            }
            Err(_) => Err(self.fail(CallEnd::Failed)),
        }
    }
}

impl<W: Write> Sink for Watched<W> {
    ghost bytes = { known_bytes W.contents };

    ghost last = { last_of };

    ghost refusals = { failures_of };

    fn write(&mut self, piece: &[u8]) -> Result<usize, CallFailed> {
        match self.inner.write(piece) {
            Ok(0) if !piece.is_empty() => Err(self.fail(CallEnd::Nothing)),
            Ok(count) => {
                self.last = CallEnd::Moved;
                Ok(count)
            }
            Err(_) => Err(self.fail(CallEnd::Failed)),
        }
    }
}
