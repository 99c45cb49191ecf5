//! The traces of all sites of a world.

ghost use Rattle.std.specs.Prelude.{◌≢◌, ◌<◌, ◌≤◌, List, None, length, vec_len};
ghost use Rattle.field_bounds.specs.declared.entry.Entry.{Entry as EntryType};

use crate::fault::WindowFault;
use crate::file::ReadAt;
use crate::window::TraceWindow;
use field_bounds::{Entry, Schema};
use std::alloc::Global;
use woven_verdict::{Histories, Unread};

/// The traces of all sites of a world, in the order of the sites, at most 65,535 of them.
#[derive(Drop)]
pub struct TraceWindows<'a, F> {
    alloc: Global,
    schema: &'a Schema,
    traces: Vec<TraceWindow<F>>,
    // Room for one read.
    piece: Vec<u8>,
    // Which trace wasn't read on, and why.
    fault: Option<(u16, WindowFault)>,
    ghost few: { length traces.items ≤ 65535 },
    ghost some: { 0 < vec_len piece },
}

impl<'a, F: ReadAt> TraceWindows<'a, F> {
    ghost use Rattle.woven_verdict.specs.Woven.{none_taken};
    ghost use Rattle.trace_windows.specs.Told.{AreTold, TellEach};

    /// These traces, of which each has its first entry in its window, where one counts. The piece is
    /// room for one read. Takes no memory.
    pub fn new(
        alloc: Global,
        schema: &'a Schema,
        traces: Vec<TraceWindow<F>>,
        piece: Vec<u8>,
    ) -> TraceWindows<'a, F>
        requires few { length traces.items ≤ 65535 }
        requires some { 0 < vec_len piece }
        ensures told { (hs : List (List EntryType)) → TellEach F.bytes schema.now hs traces.items
            → AreTold F.bytes hs (none_taken hs) result }
    {
        TraceWindows {
            alloc,
            schema,
            traces,
            piece,
            fault: None,
        }
    }

    /// Which trace wasn't read on, by its place, and why; None where each was.
    pub fn fault(&self) -> Option<(u16, WindowFault)> {
        self.fault
    }

    /// The trace of this place.
    pub fn trace_mut(&mut self, site: u16) -> Option<&mut TraceWindow<F>> {
        self.traces.get_mut(usize::from(site))
    }
}

impl<F: ReadAt> Histories for TraceWindows<'_, F> {
    ghost use Rattle.trace_windows.specs.Told.{AreTold};

    ghost holds = { λ hs counts w. AreTold F.bytes hs counts w };

    ghost has_failed = { λ w. w.fault ≢ None };

    fn sites(&self) -> u16 {
        self.traces.len() as u16
    }

    fn upcoming(&self, site: u16) -> Option<Entry> {
        self.traces.get(usize::from(site))?.upcoming()
    }

    fn next_number(&self, site: u16) -> u64 {
        match self.traces.get(usize::from(site)) {
            Some(trace) => trace.next_number(),
            None => 0,
        }
    }

    fn take(&mut self, site: u16) -> Result<(), Unread> {
        let Some(trace) = self.traces.get_mut(usize::from(site)) else {
            return Ok(());
        };
        match trace.take(self.alloc, self.schema, self.piece.as_mut_slice()) {
            Ok(()) => Ok(()),
            Err(fault) => {
                self.fault = Some((site, fault));
                Err(Unread)
            }
        }
    }
}
