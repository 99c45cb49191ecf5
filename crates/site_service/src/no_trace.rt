//! A trace that isn't kept.

ghost use Rattle.std.specs.Prelude.{None};

use file_medium::{FileFailed, LogFile};

/// The trace of a site that keeps none: it takes all, and holds nothing. Its bytes aren't known, so
/// nothing is told of them. Costs nothing.
#[derive(Clone, Copy, Debug, PartialEq, Eq)]
pub struct NoTrace;

impl LogFile for NoTrace {
    ghost bytes = { λ t. None };

    ghost safe = { λ t. None };

    ghost least = { λ t. None };

    fn read_at(&mut self, _at: u64, _buffer: &mut [u8]) -> Result<usize, FileFailed> {
        Ok(0)
    }

    fn write(&mut self, piece: &[u8]) -> Result<usize, FileFailed> {
        Ok(piece.len())
    }

    fn cut(&mut self, _kept: u64) -> Result<(), FileFailed> {
        Ok(())
    }

    fn sync(&mut self) -> Result<(), FileFailed> {
        Ok(())
    }
}
