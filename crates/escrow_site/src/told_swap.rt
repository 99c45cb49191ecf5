//! A log's file that tells people where the log can't be shortened.

ghost use Rattle.std.specs.Prelude.{None};

use file_medium::{FileFailed, FileFault, LogFile};
use file_swap::{HostSwap, PutFault, Replaceable, SwapFault, SwapStep};
use folder_serving::TellsSwap;
use std::io;
use world_folders::Paths;

// The most that is told in a run: who has started it may look at standard error only at its end, and a
// pipe that is full would stop it.
const MOST: u32 = 16;

const GROWS: &str = "it grows on until that is mended";

/// Tells people on standard error that a log isn't shortened: at the first time, and anew only where it
/// was in between. A write that fails there changes nothing.
#[derive(Drop)]
pub(crate) struct Notices<'a> {
    rt: &'a HostRuntime,
    paths: &'a Paths,
    is_told: bool,
    left: u32,
}

impl<'a> Notices<'a> {
    pub(crate) fn new(rt: &'a HostRuntime, paths: &'a Paths) -> Notices<'a> {
        Notices {
            rt,
            paths,
            is_told: false,
            left: MOST,
        }
    }

    /// The log isn't shortened, since this call failed of the file beside it that has this ending; the
    /// error is what the system told, or None where the log, or that file, is another's.
    pub(crate) fn tell(&mut self, call: &str, ending: &str, error: Option<io::Error>) {
        if self.is_told || self.left == 0 {
            return;
        }
        self.is_told = true;
        self.left -= 1;
        let log = self.paths.log.as_str();
        let _ = match error {
            Some(error) => eprintln!(self.rt;
                "escrow_site: {log}: isn't shortened: {call} {log}.{ending}: {error}: {GROWS}"
            ),
            None => eprintln!(self.rt;
                "escrow_site: {log}: isn't shortened: it was moved, or another has {log}.{ending}: {GROWS}"
            ),
        };
    }

    /// The log was shortened.
    pub(crate) fn end(&mut self) {
        self.is_told = false;
    }
}

// The step in a word, as the calls of a file are told.
fn word_of(step: SwapStep) -> &'static str {
    match step {
        SwapStep::Begin => "make",
        SwapStep::Write => "write",
        SwapStep::Sync | SwapStep::SyncFolder => "sync",
        SwapStep::Put => "rename",
    }
}

/// A log in a file of the system, and the new file that is to take its place, as `HostSwap` has them: a
/// step that fails is told, but the sync of the folder, which ends the serving. Read, and not proved, as
/// `HostSwap` is.
#[derive(Drop)]
pub(crate) struct ToldSwap<'a> {
    swap: HostSwap<'a, HostRuntime>,
    notices: Notices<'a>,
}

impl<'a> ToldSwap<'a> {
    pub(crate) fn new(swap: HostSwap<'a, HostRuntime>, notices: Notices<'a>) -> ToldSwap<'a> {
        ToldSwap { swap, notices }
    }

    // Tells the step that failed.
    fn tell_step(&mut self) {
        if let Some(SwapFault { step, error }) = self.swap.take_swap_fault() {
            self.notices.tell(word_of(step), "new", error);
        }
    }
}

impl<'a> LogFile for ToldSwap<'a> {
    ghost bytes = { λ f. None };

    ghost safe = { λ f. None };

    ghost least = { λ f. None };

    fn read_at(&mut self, at: u64, buffer: &mut [u8]) -> Result<usize, FileFailed> {
        self.swap.read_at(at, buffer)
    }

    fn write(&mut self, piece: &[u8]) -> Result<usize, FileFailed> {
        self.swap.write(piece)
    }

    fn cut(&mut self, kept: u64) -> Result<(), FileFailed> {
        self.swap.cut(kept)
    }

    fn sync(&mut self) -> Result<(), FileFailed> {
        self.swap.sync()
    }
}

impl<'a> Replaceable for ToldSwap<'a> {
    ghost beside = { λ f. None };

    ghost beside_safe = { λ f. None };

    fn begin_beside(&mut self) -> Result<(), FileFailed> {
        let begun = self.swap.begin_beside();
        if begun.is_err() {
            self.tell_step();
        }
        begun
    }

    fn write_beside(&mut self, piece: &[u8]) -> Result<usize, FileFailed> {
        let written = self.swap.write_beside(piece);
        if written.is_err() {
            self.tell_step();
        }
        written
    }

    fn sync_beside(&mut self) -> Result<(), FileFailed> {
        let synced = self.swap.sync_beside();
        if synced.is_err() {
            self.tell_step();
        }
        synced
    }

    fn put_in_place(&mut self) -> Result<(), PutFault> {
        let put = self.swap.put_in_place();
        match put {
            Ok(()) => self.notices.end(),
            Err(PutFault::Refused) => self.tell_step(),
            Err(PutFault::Failed) => {}
        }
        put
    }
}

impl<'a> TellsSwap for ToldSwap<'a> {
    fn take_call(&mut self) -> Option<FileFault> {
        self.swap.take_fault()
    }

    fn take_step(&mut self) -> Option<SwapFault> {
        self.swap.take_swap_fault()
    }
}
