//! A trace, of which a window is held.

ghost use Rattle.std.specs.Prelude.{◌≡◌, ◌≢◌, ◌<◌, ◌≤◌, ◌+◌, ℕ, List, length, slice_get, true, false, IfOk, IfErr, OnOk};
ghost use Rattle.field_bounds.specs.Schema.{SchemaValue};
ghost use Rattle.field_bounds.specs.Limits.{IsSchema};
ghost use Rattle.field_bounds.specs.declared.entry.Entry.{Entry as EntryType};
ghost use Rattle.trace_windows.specs.Texts.{AreFirst, IsTextBehind, TellsWhy};
ghost use Rattle.trace_windows.specs.Windows.{HasFailed, HasRead, IsFilled, IsOn, ReadsOn};

use crate::fault::{WindowFault, fault_of};
use crate::file::ReadAt;
use field_bounds::{Entry, Schema};
use file_medium::FileFailed;
use site_trace::{TracedEntry, read_trace};
use std::alloc::Global;

/// A trace in a file, of which a window is held: the entries of the lines that were read last, and the
/// front of a line behind them. Its entries that count are told one after another, each once.
#[derive(Drop)]
pub struct TraceWindow<F> {
    file: F,
    // How many bytes of the file were read, or stand in front of the trace.
    read: u64,
    // What was read behind the last line feed: the front of a line.
    torn: Vec<u8>,
    window: Vec<TracedEntry>,
    // How many entries of the window were taken, and how many of all.
    place: usize,
    taken: u64,
    // How many entries count that weren't taken, those of the window included.
    left: usize,
}

impl<F: ReadAt> TraceWindow<F> {
    /// The trace behind the first `start` bytes of a file, of which the first `count` entries count,
    /// before anything of it is read. Takes no memory.
    pub fn new(alloc: Global, file: F, start: u64, count: usize) -> TraceWindow<F>
        ensures on { (schema : SchemaValue) (text : List ℕ) → IsTextBehind (F.bytes file) start text
            → IsOn F.bytes schema text count 0 result }
    {
        TraceWindow {
            file,
            read: start,
            torn: Vec::new(alloc),
            window: Vec::new(alloc),
            place: 0,
            taken: 0,
            left: count,
        }
    }

    /// The file, for who asks it why a read failed.
    pub fn file_mut(&mut self) -> &mut F {
        &mut self.file
    }

    /// The next entry that counts, or None where none is left. Costs no memory.
    pub fn upcoming(&self) -> Option<Entry>
        ensures told { (schema : SchemaValue) (text : List ℕ) (count n : ℕ)
            (entries : List EntryType) → IsSchema schema
            → IsFilled F.bytes schema text count n self.now → AreFirst schema text count entries
            → result ≡ slice_get entries n }
    {
        if self.left == 0 {
            return None;
        }
        Some(self.window.get(self.place)?.entry)
    }

    /// The number of that entry, from 1.
    pub fn next_number(&self) -> u64
        ensures number { (schema : SchemaValue) (text : List ℕ) (count n : ℕ) → n < count
            → IsFilled F.bytes schema text count n self.now → result ≡ n + 1 }
    {
        self.taken.saturating_add(1)
    }

    // Whether none is left, or the next one is in the window.
    fn is_filled(&self) -> bool
        ensures yes { result ≡ true → 0 < self.now.left
            → self.now.place < length self.now.window.items }
        ensures some { result ≡ false → 0 < self.now.left }
        ensures no { result ≡ false → length self.now.window.items ≤ self.now.place }
    {
        self.left == 0 || self.place < self.window.len()
    }

    // Reads one more piece of the file, and tells whether there was one.
    fn read_on(&mut self, piece: &mut [u8]) -> Result<bool, WindowFault>
        requires some { 0 < length piece.old }
        ensures read { IfOk result (ReadsOn F.bytes self.old self.new) }
        ensures why { IfErr result (λ fault. (schema : SchemaValue) (text : List ℕ) (count : ℕ)
            → TellsWhy schema text count fault) }
        ensures failed { IfErr result (λ fault. fault ≡ WindowFault.Read
            → HasFailed F.has_failed self.new) }
    {
        match self.file.read_at(self.read, piece) {
            Ok(0) => Ok(false),
            Ok(count) => {
                self.torn.extend_from_slice(&piece[..count])?;
                self.read = self.read.saturating_add(count as u64);
                Ok(true)
            }
            Err(FileFailed) => Err(WindowFault::Read),
        }
    }

    // Makes the window anew, of the whole lines that were read.
    fn move_on(&mut self, alloc: Global, schema: &Schema) -> Result<(), WindowFault>
        ensures on { OnOk result ((text : List ℕ) (count n : ℕ)
            → HasRead F.bytes schema.now text count n self.old
            → IsOn F.bytes schema.now text count n self.new) }
        ensures why { IfErr result (λ fault. (text : List ℕ) (count n : ℕ)
            → HasRead F.bytes schema.now text count n self.old
            → TellsWhy schema.now text count fault) }
        ensures read { IfErr result (λ fault. fault ≢ WindowFault.Read) }
    {
        match read_trace(alloc, schema, self.torn.as_slice()) {
            Ok(trace) => {
                let whole = trace.length.min(self.torn.len());
                self.torn = Vec::from_slice(alloc, &self.torn[whole..])?;
                self.window = trace.entries;
                self.place = 0;
                Ok(())
            }
            Err(fault) => Err(fault_of(fault)),
        }
    }

    /// Reads on until the next entry that counts is in the window, where one is left. The piece is room
    /// for one read.
    ///
    /// The faults: `Read` where a read failed; `Line` where a line is neither an entry nor a remark,
    /// maybe one behind the entries that count; `Behind` where the whole trace has fewer entries than
    /// count; `NoMemory`. Behind a fault nothing is said of the entries any more. Costs memory for what
    /// one read gives, and for the front of a line.
    pub fn fill(
        &mut self,
        alloc: Global,
        schema: &Schema,
        piece: &mut [u8],
    ) -> Result<(), WindowFault>
        requires some { 0 < length piece.old }
        ensures filled { OnOk result ((text : List ℕ) (count n : ℕ)
            → IsOn F.bytes schema.now text count n self.old
            → IsFilled F.bytes schema.now text count n self.new) }
        ensures why { IfErr result (λ fault. (text : List ℕ) (count n : ℕ)
            → IsOn F.bytes schema.now text count n self.old
            → TellsWhy schema.now text count fault) }
        ensures read { IfErr result (λ fault. fault ≡ WindowFault.Read
            → HasFailed F.has_failed self.new) }
    {
        for _ in 0..u64::MAX {
            if self.is_filled() {
                return Ok(());
            }
            if !self.read_on(piece)? {
                return Err(WindowFault::Behind);
            }
            self.move_on(alloc, schema)?;
        }
        Err(WindowFault::NoMemory)
    }

    /// Takes the next entry that counts, and reads on until the one behind it is in the window. The
    /// faults are those of `fill`.
    pub fn take(
        &mut self,
        alloc: Global,
        schema: &Schema,
        piece: &mut [u8],
    ) -> Result<(), WindowFault>
        requires some { 0 < length piece.old }
        ensures taken { OnOk result ((text : List ℕ) (count n : ℕ) → n < count
            → IsFilled F.bytes schema.now text count n self.old
            → IsFilled F.bytes schema.now text count (n + 1) self.new) }
        ensures why { IfErr result (λ fault. (text : List ℕ) (count n : ℕ) → n < count
            → IsFilled F.bytes schema.now text count n self.old
            → TellsWhy schema.now text count fault) }
        ensures read { IfErr result (λ fault. fault ≡ WindowFault.Read
            → HasFailed F.has_failed self.new) }
    {
        self.place = self.place.saturating_add(1);
        self.taken = self.taken.saturating_add(1);
        self.left = self.left.saturating_sub(1);
        self.fill(alloc, schema, piece)
    }
}
