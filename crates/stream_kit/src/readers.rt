//! Readers that trickle, break or are interrupted.

use std::io;
use std::io::{Chain, ErrorKind, Read, Repeat, Take};

/// A reader that gives a byte a read.
#[derive(Drop)]
pub struct Trickle<'a>(pub &'a [u8]);

impl Read for Trickle<'_> {
    fn read(&mut self, buf: &mut [u8]) -> io::Result<usize> {
        let count = buf.len().min(1);
        self.0.read(&mut buf[..count])
    }
}

/// A reader whose every read fails with an error of this kind.
#[derive(Drop)]
pub struct Broken(pub ErrorKind);

impl Read for Broken {
    fn read(&mut self, _buf: &mut [u8]) -> io::Result<usize> {
        Err(self.0.into())
    }
}

/// A reader of these bytes, one a read, behind which every read fails: as one that was interrupted
/// where their number is even, and else with another error.
pub fn broken_behind(bytes: &[u8]) -> Chain<Trickle<'_>, Broken> {
    let kind = if bytes.len() % 2 == 0 {
        ErrorKind::Interrupted
    } else {
        ErrorKind::Other
    };
    Trickle(bytes).chain(Broken(kind))
}

/// A reader of so many bytes, all the same, behind which every read fails.
pub fn same_bytes(byte: u8, count: u64) -> Chain<Take<Repeat>, Broken> {
    io::repeat(byte).take(count).chain(Broken(ErrorKind::Other))
}

/// A reader that is interrupted once, between two parts, and would answer the next read.
#[derive(Drop)]
pub struct InterruptedReader<'a> {
    before: &'a [u8],
    behind: &'a [u8],
    was_interrupted: bool,
}

impl<'a> InterruptedReader<'a> {
    /// A reader of these two parts.
    pub fn new(before: &'a [u8], behind: &'a [u8]) -> InterruptedReader<'a> {
        InterruptedReader {
            before,
            behind,
            was_interrupted: false,
        }
    }
}

impl Read for InterruptedReader<'_> {
    fn read(&mut self, buf: &mut [u8]) -> io::Result<usize> {
        if !self.before.is_empty() {
            return self.before.read(buf);
        }
        if !self.was_interrupted {
            self.was_interrupted = true;
            return Err(ErrorKind::Interrupted.into());
        }
        self.behind.read(buf)
    }
}
