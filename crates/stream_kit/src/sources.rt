//! A source, proved to keep its law: it fails once, and would go on.

ghost use Rattle.std.specs.Prelude.{◌≡◌, ◌≤◌, ◌++◌, length, Some};
ghost use Rattle.script_input.specs.Streams.{one_more};

use script_input::{CallEnd, CallFailed, Source};
use std::io::Read;

/// A source of the bytes before and behind a read that fails.
#[derive(Drop)]
pub struct FailingSource<'a> {
    before: &'a [u8],
    behind: &'a [u8],
    last: CallEnd,
    failures: u64,
}

impl<'a> FailingSource<'a> {
    /// A source of these bytes whose read behind so many of them fails. Takes no memory.
    pub fn new(bytes: &'a [u8], count: usize) -> FailingSource<'a>
        requires { count ≤ length bytes.now }
    {
        FailingSource {
            before: &bytes[..count],
            behind: &bytes[count..],
            last: CallEnd::NotCalled,
            failures: 0,
        }
    }

    /// How many reads failed.
    pub fn failures(&self) -> u64
        ensures value { result ≡ self.now.failures }
    {
        self.failures
    }

    /// How many of the bytes behind the read that fails are left.
    pub fn left(&self) -> usize
        ensures value { result ≡ length self.now.behind.now }
    {
        self.behind.len()
    }

    fn fail(&mut self) -> CallFailed
        ensures before { self.new.before ≡ self.old.before }
        ensures behind { self.new.behind ≡ self.old.behind }
        ensures last { self.new.last ≡ CallEnd.Failed }
        ensures failures { self.new.failures ≡ one_more self.old.failures }
    {
        self.last = CallEnd::Failed;
        self.failures = self.failures.wrapping_add(1);
        CallFailed
    }
}

impl Source for FailingSource<'_> {
    ghost bytes = { λ s. Some (s.before.now ++ s.behind.now) };

    ghost last = { λ s. s.last };

    ghost failures = { λ s. s.failures };

    fn read(&mut self, buffer: &mut [u8]) -> Result<usize, CallFailed> {
        if self.before.is_empty() && self.failures == 0 {
            return Err(self.fail());
        }
        let read = if self.before.is_empty() {
            self.behind.read(buffer)
        } else {
            self.before.read(buffer)
        };
        let Ok(count) = read else {
            return Err(self.fail());
        };
        self.last = if count == 0 && !buffer.is_empty() {
            CallEnd::Nothing
        } else {
            CallEnd::Moved
        };
        Ok(count)
    }
}
