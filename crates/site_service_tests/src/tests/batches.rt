//! When the answers of a batch leave: before the next read.

use super::*;
use std::cell::Cell;
use std::io;
use std::io::Write;

/// What each read brings, and how many bytes of answers are written before it.
type Step = (&'static str, u64);

/// The answer to the restart has 33 bytes, that to `0 begin` 21, that to the look 29, those to the
/// next two lines 22 each; a part of a line has none.
const STEPS: [Step; 6] = [
    ("0 begin\n", 33),
    ("0 share stock\n", 54),
    ("hello\nhello\n", 83),
    ("0 sh", 127),
    ("are stock\n", 127),
    ("", 156),
];

/// A writer that counts the bytes that it takes, at most seven at once.
#[derive(Drop)]
struct Counting<'a> {
    written: &'a Cell<u64>,
}

impl Write for Counting<'_> {
    fn write(&mut self, buf: &[u8]) -> io::Result<usize> {
        let count = buf.len().min(7);
        self.written
            .set(self.written.get().wrapping_add(count as u64));
        Ok(count)
    }

    fn flush(&mut self) -> io::Result<()> {
        Ok(())
    }
}

/// A reader of one step a read, that looks at each read at how much was written, and counts the
/// reads that found as much as they were to find.
#[derive(Drop)]
struct Looking<'a> {
    steps: &'a [Step],
    written: &'a Cell<u64>,
    good: &'a Cell<u64>,
}

impl Read for Looking<'_> {
    fn read(&mut self, buf: &mut [u8]) -> io::Result<usize> {
        let [(line, wanted), rest @ ..] = self.steps else {
            return Ok(0);
        };
        self.steps = rest;
        if self.written.get() == *wanted {
            self.good.set(self.good.get().wrapping_add(1));
        }
        let mut left = line.as_bytes();
        left.read(buf)
    }
}

/// Serves the steps, and tests that each read found what it was to find.
fn assert_steps<F: LogFile>(rt: &impl Abort, alloc: Global, service: &mut Service<F>) {
    let written = Cell::new(0);
    let good = Cell::new(0);
    let mut reader = Watched::new(Looking {
        steps: &STEPS,
        written: &written,
        good: &good,
    });
    let mut writer = Watched::new(Counting { written: &written });
    let end = serve(alloc, service, &mut NoTrace, &mut reader, &mut writer);
    assert_eq!(rt; end, Ok(()));
    assert_eq!(rt; good.get(), 6);
}

// A client that waits for its answer before it asks on is answered.
#[test]
fn a_batch_leaves_before_the_next_read(rt: HostRuntime) {
    let mut service = fresh(&rt, rt.alloc());
    assert_steps(&rt, rt.alloc(), &mut service);
}
