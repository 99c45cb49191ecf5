//! What a job came to, as one number.

use std::io;
use std::io::Write;

/// A writer that keeps the sums of what it is given, whatever the pieces.
///
/// Source: Fletcher 1982 (an arithmetic checksum), with a third sum, all of them of 64 bits.
#[derive(Drop)]
pub struct Digest {
    first: u64,
    second: u64,
    third: u64,
}

impl Digest {
    pub fn new() -> Digest {
        Digest {
            first: 1,
            second: 0,
            third: 0,
        }
    }

    /// Takes in a byte.
    fn take(&mut self, byte: u8) {
        self.first = self.first.wrapping_add(u64::from(byte));
        self.second = self.second.wrapping_add(self.first);
        self.third = self.third.wrapping_add(self.second);
    }

    /// Takes in all bytes.
    pub fn take_all(&mut self, bytes: &[u8]) {
        for byte in bytes {
            self.take(*byte);
        }
    }

    /// Takes in a number.
    pub fn take_number(&mut self, number: u64) {
        self.take_all(&number.to_le_bytes());
    }

    /// The sums as one number.
    pub fn value(&self) -> u64 {
        self.first
            .wrapping_mul(6_364_136_223_846_793_005)
            .wrapping_add(self.second)
            .wrapping_mul(6_364_136_223_846_793_005)
            .wrapping_add(self.third)
    }
}

impl Write for Digest {
    fn write(&mut self, buf: &[u8]) -> io::Result<usize> {
        self.take_all(buf);
        Ok(buf.len())
    }

    fn flush(&mut self) -> io::Result<()> {
        Ok(())
    }
}
