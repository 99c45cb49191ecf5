//! What a site replayed and wrote, right behind a restart that failed and at the thousandth record:
//! each expected answer is worked out by hand.

use super::summaries::{COMMIT_BEHIND_999, THOUSANDTH};
use super::tears::{Tear, answers_all, restarts, site_behind, tears};
use super::*;
use kept_records::{Device, End, MediumFault, Mishap, TornMedium};
use std::alloc::AllocError;
use std::sync::Arc;
use std::sync::atomic::{AtomicU64, Ordering};

/// A site whose last restart, into epoch 999, replayed the 998 records before it.
fn site_at_999(rt: &impl Abort, alloc: Global) -> Site<TornMedium> {
    let mut site = site_behind(rt, alloc, TornMedium::new(Vec::new(alloc)), 999);
    assert!(rt; restarts(alloc, &mut site, 999, 1000));
    site
}

/// How many records the last restart replayed that read the medium, once a restart failed by this
/// mishap.
fn replayed_behind(
    rt: &impl Abort,
    alloc: Global,
    site: &mut Site<TornMedium>,
    mishap: Mishap,
) -> u64 {
    site.arm(mishap);
    assert_eq!(rt;
        answer(alloc, site, Command::Restart),
        Some(Reply::StillDown)
    );
    site.replayed()
}

/// The same of a site whose last restart replayed 998 records, over 999.
fn replayed_at_999(rt: &impl Abort, alloc: Global, mishap: Mishap) -> u64 {
    let mut site = site_at_999(rt, alloc);
    replayed_behind(rt, alloc, &mut site, mishap)
}

/// The same behind a command whose record was torn after three bytes, so that there is something to
/// cut.
fn replayed_behind_torn(rt: &impl Abort, alloc: Global, tear: &Tear, mishap: Mishap) -> u64 {
    let mut site = site_at_999(rt, alloc);
    assert!(rt; answers_all(alloc, &mut site, tear.before));
    assert!(rt; tears(alloc, &mut site, tear, 3));
    replayed_behind(rt, alloc, &mut site, mishap)
}

#[test]
fn a_restart_that_failed_to_append_replayed_what_it_read(rt: HostRuntime) {
    let at_start = replayed_at_999(&rt, rt.alloc(), Mishap::Append(0));
    let at_end = replayed_at_999(&rt, rt.alloc(), Mishap::Append(7));
    assert_eq!(rt; [at_start, at_end], [999, 999]);
}

#[test]
fn a_restart_that_failed_to_read_replayed_nothing_new(rt: HostRuntime) {
    assert_eq!(rt; replayed_at_999(&rt, rt.alloc(), Mishap::Read), 998);
}

#[test]
fn a_restart_that_failed_to_cut_replayed_what_it_read(rt: HostRuntime) {
    let behind_commit = replayed_behind_torn(&rt, rt.alloc(), &COMMIT_BEHIND_999, Mishap::Cut);
    let behind_restart = replayed_behind_torn(&rt, rt.alloc(), &THOUSANDTH, Mishap::Cut);
    assert_eq!(rt; [behind_commit, behind_restart], [999, 999]);
}

/// Any medium, with a count of the appends of exactly this piece.
#[derive(Drop)]
struct Marked<M: Medium> {
    inner: M,
    piece: &'static [u8],
    mark: Arc<AtomicU64>,
}

impl<M: Medium> Medium for Marked<M> {
    ghost bytes = { λ m. M.bytes m.inner };

    ghost room = { λ m. M.room m.inner };

    ghost failed = { λ m. M.failed m.inner };

    ghost foretold = { λ m. M.foretold m.inner };

    fn append(&mut self, piece: &[u8]) -> Result<(), Device> {
        if piece == self.piece {
            self.mark.fetch_add(1, Ordering::SeqCst);
        }
        self.inner.append(piece)
    }

    fn read_all(&mut self, alloc: Global) -> Result<Vec<u8>, MediumFault> {
        self.inner.read_all(alloc)
    }

    fn read_end(&mut self, alloc: Global, most: usize) -> Result<End, MediumFault> {
        self.inner.read_end(alloc, most)
    }

    fn reserve(&mut self, additional: usize) -> Result<(), AllocError> {
        self.inner.reserve(additional)
    }

    fn cut(&mut self, kept: usize) -> Result<(), Device> {
        self.inner.cut(kept)
    }

    fn failures(&self) -> u64 {
        self.inner.failures()
    }
}

/// How often a site appended this piece, behind 999 restarts and then one more.
fn appends_at_1000(rt: &impl Abort, alloc: Global, piece: &'static [u8]) -> u64 {
    let mark = Arc::new(alloc, AtomicU64::new(0)).expect(rt, "memory");
    let medium = Marked {
        inner: MemoryMedium::new(Vec::new(alloc)),
        piece,
        mark: Arc::try_clone(&mark).expect(rt, "memory"),
    };
    let mut site = site_behind(rt, alloc, medium, 999);
    assert!(rt; restarts(alloc, &mut site, 999, 1001));
    mark.load(Ordering::SeqCst)
}

#[test]
fn the_thousandth_restart_appends_its_record_and_the_summary_in_one_piece(rt: HostRuntime) {
    let piece = b"R 1000\nS 1000 1 20 30\n";
    let with_summary = appends_at_1000(&rt, rt.alloc(), piece);
    let alone = appends_at_1000(&rt, rt.alloc(), b"R 1000\n");
    assert_eq!(rt; [with_summary, alone], [1, 0]);
}
