//! The lines of an input, one by one, and its limits.

ghost use Rattle.std.specs.Prelude.{◌≡◌, ◌≢◌, ℕ, List, ◌+◌, ◌-◌, ◌<◌, ◌≤◌, ◌⊎◌, ◌↔◌, [], ◌∷◌, ◌++◌, length, take, drop, All, true, false, IfOk, OnOk, OnErr, IfErr, IfNone, IsTrue, Option, Ok};
ghost use Rattle.field_bounds.specs.Header.{schema_of};
ghost use Rattle.script_input.specs.declared.streams.CallEnd.{CallEnd};
ghost use Rattle.script_input.specs.Streams.{HasFailed};
ghost use Rattle.script_input.specs.Faults.{CountsReads, TellsHeader};

use crate::fault::ScriptFault;
use crate::streams::Source;
use crate::window::Window;
use field_bounds::{MAX_HEADER, Schema, SchemaFault};
use memchr::memchr;
use std::alloc::{AllocError, Global};

// The most lines of an input, the header line included.
const MOST_LINES: u32 = 1_000_000;

// The most bytes of an input.
const MOST_BYTES: u64 = 268_435_456;

/// What comes next of an input.
#[derive(Clone, Copy, Debug, PartialEq, Eq)]
pub enum NextLine {
    /// A line, without its LF. `LineReader::line` lends its bytes.
    Line,
    /// A line of more bytes than were asked for, as soon as so much is known. It isn't given yet:
    /// whoever goes on passes over the rest of it.
    Long,
    /// A line of which that was told, now at its end. Its bytes aren't kept.
    Passed,
    /// The end of the input, behind the last line.
    End,
}

/// Reads an input in pieces of at most 64 KiB, and gives its lines one by one, each where it lies in
/// what was read. A line ends with LF (10); a last line without LF counts where it has a byte; and
/// there is always a first line, the header. An input has at most 1,000,000 lines and 268,435,456
/// bytes.
///
/// `find` looks for the next line in what was read, and `read` reads more: so a caller that has to
/// write before it waits can do so in between. `next` does both.
///
/// Source: this project.
#[derive(Drop)]
pub struct LineReader {
    window: Window,
    taken: u64,
    lines: u32,
    passed: u64,
    ended: bool,
    ghost few: { lines ≤ 1000000 },
    ghost small: { taken ≤ 268435456 },
    ghost part: { passed ≤ taken },
    ghost inside: { 0 < passed → lines < 1000000 },
}

// The schema that a header line tells.
fn schema_of_line(alloc: Global, line: &[u8]) -> Result<Schema, ScriptFault>
    ensures ok { IfOk result (λ schema. schema_of line.now ≡ Ok schema) }
    ensures err { IfErr result (λ fault. TellsHeader fault (schema_of line.now)) }
{
    Ok(Schema::from_header(alloc, line)?)
}

impl LineReader {
    ghost use Rattle.script_input.specs.Reader.{pending, given_line, lines_given, passed_over, ahead_of, IsDue, IsPlain, PassesOn, IsFresh, Reads, Finds, Nexts, Falls, StopsAt, ReadsNoFurther, HasHeader, HasGiven, HasPassed};

    /// A reader of lines before its first read. Costs 128 KiB. The error is want of memory.
    pub fn new(alloc: Global) -> Result<LineReader, AllocError>
        ensures fresh { IfOk result IsFresh }
    {
        Ok(LineReader {
            window: Window::new(alloc)?,
            taken: 0,
            lines: 0,
            passed: 0,
            ended: false,
        })
    }

    /// The line that was given last, without its LF. Costs no memory.
    #[inline]
    pub fn line(&self) -> &[u8]
        ensures line { result.now ≡ given_line self.now }
    {
        self.window.line()
    }

    /// How many lines were given. Costs no memory.
    pub fn lines(&self) -> u32
        ensures lines { result ≡ lines_given self.now }
    {
        self.lines
    }

    // How many bytes of what wasn't given stand before the first LF, and how many end them: that LF,
    // or none where there is no LF.
    #[inline(always)]
    fn first_part(&self) -> (usize, usize)
        ensures most { result.1 ≤ 1 }
        ensures fits { result.0 + result.1 ≤ length (pending self.now) }
        ensures unbroken { All (λ b. b ≢ 10) (take result.0 (pending self.now)) }
        ensures broken { result.1 ≡ 1 → pending self.now
            ≡ take result.0 (pending self.now) ++ 10 ∷ drop (result.0 + 1) (pending self.now) }
        ensures whole { result.1 ≡ 0 → result.0 ≡ length (pending self.now) }
    {
        let rest = self.window.rest();
        match memchr(b'\n', rest) {
            Some(at) => (at, 1),
            None => (rest.len(), 0),
        }
    }

    // Gives the line that so many bytes are the rest of, and what ends it.
    #[inline(always)]
    fn give(&mut self, count: usize, ending: usize) -> NextLine
        requires there { count + ending ≤ length (pending self.old) }
        requires lines { self.old.lines < 1000000 }
        requires bytes { self.old.taken + (count + ending) ≤ 268435456 }
        ensures given { HasGiven self.old self.new count ending }
        ensures line { self.old.passed ≡ 0 → result ≡ NextLine.Line }
        ensures passed { 0 < self.old.passed → result ≡ NextLine.Passed }
    {
        self.window.give(count, ending);
        self.taken += (count + ending) as u64;
        self.lines += 1;
        if self.passed > 0 {
            self.passed = 0;
            return NextLine::Passed;
        }
        NextLine::Line
    }

    // Passes over so many bytes of a line that is too long.
    #[inline(never)]
    fn pass_over(&mut self, count: usize)
        requires there { count ≤ length (pending self.old) }
        requires lines { self.old.lines < 1000000 }
        requires bytes { self.old.taken + count ≤ 268435456 }
        ensures passed { HasPassed self.old self.new count }
    {
        self.window.give(count, 0);
        self.taken += count as u64;
        self.passed += count as u64;
    }

    // What comes where nothing is left of what was read: None where a read is due.
    #[inline(never)]
    fn find_end(&mut self) -> Option<NextLine>
        requires none { pending self.old ≡ [] }
        ensures next { (from to : Option (List ℕ)) (last : CallEnd) (given : List (List ℕ)) (most : ℕ)
            → Reads from to last self.old given
            → Finds from to last given self.old self.new most (Ok result) }
        ensures due { IfNone result (IsDue self.new) }
        ensures passed { IfNone result (PassesOn self.old self.new) }
        ensures ahead { Falls self.old self.new result }
    {
        if !self.ended {
            return None;
        }
        if self.passed == 0 && self.lines > 0 {
            return Some(NextLine::End);
        }
        Some(self.give(0, 0))
    }

    // Whether a line of so many bytes that its LF follows can be given as it is.
    #[inline(always)]
    fn is_plain(&self, count: usize, most: usize) -> bool
        ensures { IsTrue result ↔ IsPlain self.now count most }
    {
        self.passed == 0
            && count <= most
            && self.lines < MOST_LINES
            && (count as u64) < MOST_BYTES - self.taken
    }

    // The next line, as `find` tells it, where so many bytes stand before the first LF of what wasn't
    // given, and so many end them.
    #[inline(never)]
    fn find_by_limits(
        &mut self,
        count: usize,
        ending: usize,
        most: usize,
    ) -> Result<Option<NextLine>, ScriptFault>
        requires ending { ending ≤ 1 }
        requires fits { count + ending ≤ length (pending self.old) }
        requires unbroken { All (λ b. b ≢ 10) (take count (pending self.old)) }
        requires broken { ending ≡ 1 → pending self.old
            ≡ take count (pending self.old) ++ 10 ∷ drop (count + 1) (pending self.old) }
        requires whole { ending ≡ 0 → count ≡ length (pending self.old) }
        requires most { most ≤ 65536 }
        ensures next { (from to : Option (List ℕ)) (last : CallEnd) (given : List (List ℕ))
            → Reads from to last self.old given
            → Finds from to last given self.old self.new most result }
        ensures fault { IfErr result (λ fault. fault ≡ ScriptFault.TooLong) }
        ensures due { IfOk result (λ found. IfNone found (IsDue self.new)) }
        ensures passed { IfOk result (λ found. IfNone found (PassesOn self.old self.new)) }
        ensures ahead { IfOk result (Falls self.old self.new) }
    {
        if count + ending == 0 {
            return Ok(self.find_end());
        }
        if self.lines >= MOST_LINES {
            return Err(ScriptFault::TooLong);
        }
        let room = MOST_BYTES - self.taken;
        if self.passed == 0 && count > most && room > most as u64 {
            self.pass_over(count.min(room as usize));
            return Ok(Some(NextLine::Long));
        }
        if (count + ending) as u64 > room {
            return Err(ScriptFault::TooLong);
        }
        if ending > 0 || self.ended {
            return Ok(Some(self.give(count, ending)));
        }
        if self.passed > 0 {
            self.pass_over(count);
        }
        Ok(None)
    }

    /// The next line, of at most `most` bytes, in what was read; or None where a read is due: then
    /// what was read has no more whole line.
    ///
    /// The fault is TooLong: a byte follows the 1,000,000th line or the 268,435,456th byte. Costs a
    /// look at each byte of the line, and no memory; a line that more than one read bring is looked
    /// at again with each.
    #[inline(always)]
    pub fn find(&mut self, most: usize) -> Result<Option<NextLine>, ScriptFault>
        requires most { most ≤ 65536 }

        // What comes next in the lines of what was read, behind those that were given.
        ensures next { (from to : Option (List ℕ)) (last : CallEnd) (given : List (List ℕ))
            → Reads from to last self.old given
            → Finds from to last given self.old self.new most result }

        ensures fault { IfErr result (λ fault. fault ≡ ScriptFault.TooLong) }

        // A read may follow where one is due.
        ensures due { IfOk result (λ found. IfNone found (IsDue self.new)) }
        ensures passed { IfOk result (λ found. IfNone found (PassesOn self.old self.new)) }

        // There is an end to it.
        ensures ahead { IfOk result (Falls self.old self.new) }
    {
        let (count, ending) = self.first_part();
        if ending == 1 && self.is_plain(count, most) {
            return Ok(Some(self.give(count, 1)));
        }
        self.find_by_limits(count, ending, most)
    }

    /// Reads more, at most 64 KiB, where a read is due. The fault is a read fault, and nothing is
    /// tried again. Costs no memory.
    pub fn read<R: Source>(&mut self, reader: &mut R) -> Result<(), ScriptFault>
        requires due { IsDue self.old }

        // What was given is as before.
        ensures ok { (from : Option (List ℕ)) (given : List (List ℕ))
            → Reads from (R.bytes reader.old) (R.last reader.old) self.old given
            → OnOk result (Reads from (R.bytes reader.new) (R.last reader.new) self.new given) }
        ensures line { OnOk result (passed_over self.new ≡ passed_over self.old) }
        ensures ahead { OnOk result (ahead_of self.new < ahead_of self.old) }

        // At a read fault what was read is within the limits, and its whole lines were given.
        ensures err { (from : Option (List ℕ)) (given : List (List ℕ))
            → Reads from (R.bytes reader.old) (R.last reader.old) self.old given
            → IfErr result (StopsAt from (R.bytes reader.new) (R.last reader.new) given) }
        ensures fault { IfErr result (λ fault. fault ≡ ScriptFault.Read) }
        ensures failed { OnErr result (HasFailed (R.last reader.new)) }

        // What was read before has no more whole line.
        ensures no_further { (from : Option (List ℕ)) (given : List (List ℕ))
            → Reads from (R.bytes reader.old) (R.last reader.old) self.old given
            → ReadsNoFurther from (R.bytes reader.new) given }

        // One read failed at a fault, and else none.
        ensures reads { CountsReads result (R.failures reader.old) (R.failures reader.new) }
    {
        let count = self.window.fill(reader)?;
        if count == 0 {
            self.ended = true;
        }
        Ok(())
    }

    /// The next line, of at most `most` bytes, with as many reads as that takes. The faults are a
    /// read fault, which isn't tried again, and TooLong: a byte follows the 1,000,000th line or the
    /// 268,435,456th byte. Costs what the reads cost and a look at each byte, and no memory.
    pub fn next<R: Source>(&mut self, reader: &mut R, most: usize) -> Result<NextLine, ScriptFault>
        requires most { most ≤ 65536 }

        // What comes next in the lines of what was read, behind those that were given.
        ensures next { (from : Option (List ℕ)) (given : List (List ℕ))
            → Reads from (R.bytes reader.old) (R.last reader.old) self.old given
            → Nexts from (R.bytes reader.new) (R.last reader.new) given self.old self.new
            most result }

        // A read fault comes only where a read failed.
        ensures failed { IfErr result (λ fault. fault ≡ ScriptFault.Read
            → HasFailed (R.last reader.new)) }
        ensures reads { CountsReads result (R.failures reader.old) (R.failures reader.new) }
        ensures fault { IfErr result (λ fault. (fault ≡ ScriptFault.Read)
            ⊎ (fault ≡ ScriptFault.TooLong)) }
        ensures other { IfErr result (λ fault. fault ≢ ScriptFault.Write) }

        // More is read only where what was read has no more whole line.
        ensures no_further { (from : Option (List ℕ)) (given : List (List ℕ))
            → Reads from (R.bytes reader.old) (R.last reader.old) self.old given
            → (R.bytes reader.new ≡ R.bytes reader.old)
            ⊎ ReadsNoFurther from (R.bytes reader.new) given }

        // There is an end to it.
        ensures ahead { IfOk result (λ next. next ≢ NextLine.End
            → ahead_of self.new < ahead_of self.old) }
    {
        'pieces: loop {
            if let Some(next) = self.find(most)? {
                return Ok(next);
            }
            self.read(reader)?;
        }
    }

    /// The schema that the first line tells, a header of at most 65,536 bytes. The faults are those
    /// of `next`, and of the header: `Header`, or NoMemory.
    pub fn header<R: Source>(
        &mut self,
        alloc: Global,
        reader: &mut R,
    ) -> Result<Schema, ScriptFault>
        requires first { IsFresh self.old }

        // The first line was given, and tells this schema.
        ensures ok { IfOk result (HasHeader (R.bytes reader.old) (R.bytes reader.new)
            (R.last reader.new) self.new) }

        // A fault comes for a reason, and no whole line stands in front of it.
        ensures err { IfErr result (StopsAt (R.bytes reader.old) (R.bytes reader.new)
            (R.last reader.new) []) }
        ensures failed { IfErr result (λ fault. fault ≡ ScriptFault.Read
            → HasFailed (R.last reader.new)) }
        ensures reads { CountsReads result (R.failures reader.old) (R.failures reader.new) }
        ensures other { IfErr result (λ fault. fault ≢ ScriptFault.Write) }

        // No more is read than the first line needs, at each fault too.
        ensures no_further { ReadsNoFurther (R.bytes reader.old) (R.bytes reader.new) [] }
    {
        match self.next(reader, MAX_HEADER)? {
            NextLine::Line => schema_of_line(alloc, self.line()),
            NextLine::Long => Err(ScriptFault::Header(SchemaFault::TooLong)),
            NextLine::Passed | NextLine::End => unreachable!(),
        }
    }
}
