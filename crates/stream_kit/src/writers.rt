//! Writers that are narrow or are interrupted.

use std::alloc::Global;
use std::io;
use std::io::{ErrorKind, Write};

/// A writer that takes so many bytes, one a write, and then takes none, or fails where their number
/// is even.
#[derive(Drop)]
pub struct Narrow {
    taken: Vec<u8>,
    room: usize,
    fails: bool,
}

impl Narrow {
    /// A writer with room for so many bytes.
    pub fn new(alloc: Global, room: usize) -> Narrow {
        Narrow {
            taken: Vec::new(alloc),
            room,
            fails: room % 2 == 0,
        }
    }

    /// What was taken.
    pub fn into_taken(self) -> Vec<u8> {
        self.taken
    }
}

impl Write for Narrow {
    fn write(&mut self, buf: &[u8]) -> io::Result<usize> {
        if self.room == 0 && self.fails {
            return Err(ErrorKind::Interrupted.into());
        }
        let count = buf.len().min(self.room).min(1);
        self.taken.extend_from_slice(&buf[..count])?;
        self.room -= count;
        Ok(count)
    }

    fn flush(&mut self) -> io::Result<()> {
        Ok(())
    }
}

/// A writer that is interrupted once, after so many bytes, and would take the next write.
#[derive(Drop)]
pub struct InterruptedWriter {
    taken: Vec<u8>,
    room: usize,
    was_interrupted: bool,
}

impl InterruptedWriter {
    /// A writer with room for so many bytes before it is interrupted.
    pub fn new(alloc: Global, room: usize) -> InterruptedWriter {
        InterruptedWriter {
            taken: Vec::new(alloc),
            room,
            was_interrupted: false,
        }
    }

    /// What was taken.
    pub fn into_taken(self) -> Vec<u8> {
        self.taken
    }
}

impl Write for InterruptedWriter {
    fn write(&mut self, buf: &[u8]) -> io::Result<usize> {
        if self.was_interrupted {
            self.taken.extend_from_slice(buf)?;
            return Ok(buf.len());
        }
        if self.room == 0 {
            self.was_interrupted = true;
            return Err(ErrorKind::Interrupted.into());
        }
        let count = buf.len().min(self.room);
        self.taken.extend_from_slice(&buf[..count])?;
        self.room -= count;
        Ok(count)
    }

    fn flush(&mut self) -> io::Result<()> {
        Ok(())
    }
}
