//! What a text is read from and written to.

ghost use Rattle.std.specs.Prelude.{◌≡◌, ◌<◌, ℕ, List, length, Option, IfOk, OnOk, OnErr};
ghost use Rattle.std.specs.Io.{ReadsAtMost, WritesAtMost};
ghost use Rattle.std.specs.Io.KnownBytes.{Appends, ReadConsumes, WriteAppends};
ghost use Rattle.script_input.specs.declared.streams.CallEnd.{CallEnd};
ghost use Rattle.script_input.specs.Streams.{HasFailed, GaveNothing, HasRefused, Counts, AppendsPrefix};

/// How a call of a source or a sink ended.
#[derive(Clone, Copy, Debug, PartialEq, Eq)]
pub enum CallEnd {
    /// There was no call yet.
    NotCalled,
    /// Bytes were moved, or there were none to move: a read had no room, a write had no bytes.
    Moved,
    /// A read gave nothing though it had room, or a write took nothing though it had bytes.
    Nothing,
    /// The call answered an error.
    Failed,
}

/// A read failed; or a write failed, or took none of its bytes.
#[derive(Clone, Copy, Debug, PartialEq, Eq)]
pub struct CallFailed;

/// What a text is read from.
///
/// A source is seen by three things: the bytes that it has left, where they are known; how its last
/// read ended; and how many reads failed. So a caller's contract can say why the caller ended, and
/// no body can blame a source that didn't fail. The count is a `u64` that begins again at 0: each
/// failure changes it.
pub trait Source {
    /// The bytes that it has left, or None where they aren't known.
    ghost bytes: { Self → Option (List ℕ) };

    /// How the last read ended.
    ghost last: { Self → CallEnd };

    /// How many reads failed.
    ghost failures: { Self → ℕ };

    /// One read: the next bytes, at most as many as there is room for. It gives none only at the
    /// end, or where there is no room. An error of any kind is answered at once, takes no byte, and
    /// nothing is tried again.
    fn read(&mut self, buffer: &mut [u8]) -> Result<usize, CallFailed>
        ensures bound { ReadsAtMost result buffer.new }
        ensures bytes { ReadConsumes (bytes self.old) (bytes self.new) result buffer.new }
        ensures nothing { IfOk result (λ n. n ≡ 0 → 0 < length buffer.new
            → GaveNothing (last self.new)) }
        ensures failed { OnErr result (HasFailed (last self.new)) }
        ensures failures { Counts result (failures self.old) (failures self.new) };
}

/// What a text is written to.
///
/// A sink is seen by three things: the bytes that it holds, where they are known; how its last
/// write ended; and how many writes were refused, which is to say failed or took none of their
/// bytes. The count is a `u64` that begins again at 0: each refusal changes it.
pub trait Sink {
    /// The bytes that it holds, or None where they aren't known.
    ghost bytes: { Self → Option (List ℕ) };

    /// How the last write ended.
    ghost last: { Self → CallEnd };

    /// How many writes were refused.
    ghost refusals: { Self → ℕ };

    /// One write: takes bytes from the front of the piece, at least one where there is one. That it
    /// took none is an error, as is one of any kind; it leaves the sink's bytes as they were, and
    /// nothing is tried again.
    fn write(&mut self, piece: &[u8]) -> Result<usize, CallFailed>
        ensures bound { WritesAtMost result piece.now }
        ensures bytes { WriteAppends (bytes self.old) (bytes self.new) result piece.now }
        ensures some { IfOk result (λ n. 0 < length piece.now → 0 < n) }
        ensures refused { OnErr result (HasRefused (last self.new)) }
        ensures refusals { Counts result (refusals self.old) (refusals self.new) };

    /// Writes the piece in as many writes as it takes. The first that is refused ends it, and is
    /// not tried again: then a front of the piece was taken. Where there are no bytes, none is
    /// refused. Costs no memory.
    final fn write_all(&mut self, piece: &[u8]) -> Result<(), CallFailed>
        ensures ok { OnOk result (Appends (bytes self.old) (bytes self.new) piece.now) }
        ensures front { OnErr result (AppendsPrefix (bytes self.old) (bytes self.new) piece.now) }
        ensures some { OnErr result (0 < length piece.now) }
        ensures refused { OnErr result (HasRefused (last self.new)) }
        ensures refusals { Counts result (refusals self.old) (refusals self.new) }
    {
        let mut written = 0;
        while written < piece.len() {
            match self.write(&piece[written..]) {
                Ok(count) => written += count,
                Err(failed) => return Err(failed),
            }
        }
        Ok(())
    }
}
