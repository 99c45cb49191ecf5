mod replays;
mod stops;
mod summaries;
mod tears;

use check_kit::{NO_FIELD, STOCK, entry, stock_of_two};
use field_bounds::{Command, Entry, Reply, SiteNo};
use kept_records::{Medium, MemoryMedium};
use site_step::*;
use std::alloc::Global;
use std::process::Abort;

/// What an open of one of the two sites over a medium gives.
fn opened_over<M: Medium + Drop>(
    rt: &impl Abort,
    alloc: Global,
    number: u16,
    medium: M,
) -> Result<Site<M>, (OpenFault, M)> {
    let schema = stock_of_two(alloc).expect(rt, "memory");
    assert!(rt; number < schema.sites());
    Site::open(alloc, schema, SiteNo(number), medium)
}

/// One of the two sites over a medium.
fn open_over<M: Medium + Drop>(rt: &impl Abort, alloc: Global, number: u16, medium: M) -> Site<M> {
    opened_over(rt, alloc, number, medium)
        .ok()
        .expect(rt, "a site")
}

/// What the site answers, or None where memory was refused.
fn answer<M: Medium>(alloc: Global, site: &mut Site<M>, command: Command) -> Option<Reply> {
    site.apply(alloc, command).ok()
}

/// The site answers each command as told, one after another.
fn assert_answers(rt: &impl Abort, alloc: Global, site: &mut Site<MemoryMedium>, rows: &[Entry]) {
    for entry in rows {
        assert_eq!(rt; answer(alloc, site, entry.command), Some(entry.reply));
    }
}

/// What a site knows: its share and its interval of the stock and of no field, its number, and how
/// many commands it answered.
#[derive(Clone, Copy)]
struct Known {
    share: Option<(u64, u64)>,
    interval: Option<(i64, i64)>,
    share_of_none: Option<(u64, u64)>,
    interval_of_none: Option<(i64, i64)>,
    site: SiteNo,
    answered: usize,
}

/// What this site knows.
fn known_by(site: &Site<MemoryMedium>) -> Known {
    Known {
        share: site.share(STOCK),
        interval: site.interval(STOCK),
        share_of_none: site.share(NO_FIELD),
        interval_of_none: site.interval(NO_FIELD),
        site: site.site(),
        answered: site.history().len(),
    }
}

/// One of the two sites, over an empty medium that never fails, answers each command as told: what
/// it then knows.
fn known_after(rt: &impl Abort, alloc: Global, number: u16, rows: &[Entry]) -> Known {
    let mut site = open_over(rt, alloc, number, MemoryMedium::new(Vec::new(alloc)));
    assert_answers(rt, alloc, &mut site, rows);
    known_by(&site)
}

const EACH_CALL: [Entry; 4] = [
    entry!(1 begin -> begun 0.1),
    entry!(1 escrow 0.1 stock -21 -> refused 7 short 20),
    entry!(1 escrow 0.1 stock -20 -> granted),
    entry!(1 commit 0.1 -> committed),
];

/// Site 1 knows nothing of no field, and answered this many commands.
fn assert_numbers(rt: &impl Abort, known: &Known, answered: usize) {
    assert_eq!(rt; known.share_of_none, None);
    assert_eq!(rt; known.interval_of_none, None);
    assert_eq!(rt; known.site, SiteNo(1));
    assert_eq!(rt; known.answered, answered);
}

#[test]
fn each_call(rt: HostRuntime) {
    let before = known_after(&rt, rt.alloc(), 1, &EACH_CALL[..3]);
    assert_eq!(rt; before.interval, Some((20, 70)));
    let known = known_after(&rt, rt.alloc(), 1, &EACH_CALL);
    assert_eq!(rt; known.interval, Some((0, 50)));
    assert_eq!(rt; known.share, Some((0, 50)));
    assert_numbers(&rt, &known, 4);
}

#[test]
fn a_medium_is_lent(rt: HostRuntime) {
    let alloc = rt.alloc();
    let mut site = open_over(&rt, alloc, 1, MemoryMedium::new(Vec::new(alloc)));
    assert_answers(&rt, alloc, &mut site, &EACH_CALL);
    assert!(&rt; site.medium().bytes() == b"C 0 1 0 -20\n".as_slice());
}

const GIFTS: [Entry; 5] = [
    entry!(0 give 1 stock lower 21 -> refused 7 short 20),
    entry!(0 give 2 stock lower 1 -> refused 2 no site),
    entry!(0 give 1 stock lower 20 -> given 20),
    entry!(0 share stock -> share 0 30),
    entry!(0 read stock -> between 0 70),
];

#[test]
fn gives(rt: HostRuntime) {
    known_after(&rt, rt.alloc(), 0, &GIFTS);
}

const SPARES: [Entry; 5] = [
    entry!(0 spare 1 stock raise 100 -> spared 15 15),
    entry!(0 spare 1 stock raise 100 -> spared 8 23),
    entry!(0 spare 1 stock raise 2 -> spared 2 25),
    entry!(0 spare 1 stock raise 9 -> spared 3 28),
    entry!(0 spare 0 stock raise 1 -> refused 8 self gift),
];

#[test]
fn spares_half_at_most(rt: HostRuntime) {
    let known = known_after(&rt, rt.alloc(), 0, &SPARES);
    assert_eq!(rt; known.share, Some((20, 2)));
}

const TIGHTENINGS: [Entry; 9] = [
    entry!(0 tighten stock lower 5 -> tightened 5),
    entry!(0 share stock -> share 15 30),
    entry!(0 read stock -> between 20 70),
    entry!(0 tighten stock lower 16 -> refused 7 short 15),
    entry!(0 tighten stock raise 30 -> tightened 30),
    entry!(0 read stock -> between 20 70),
    entry!(0 tighten stock lower 15 -> tightened 20),
    entry!(0 read stock -> between 20 70),
    entry!(0 tighten stock lower 0 -> refused 5 zero),
];

#[test]
fn tightens(rt: HostRuntime) {
    let known = known_after(&rt, rt.alloc(), 0, &TIGHTENINGS);
    assert_eq!(rt; known.share, Some((0, 0)));
}

const GIVEN_UP_AND_GOT: [Entry; 3] = [
    entry!(1 tighten stock lower 20 -> tightened 20),
    entry!(1 accept 0 1 stock lower 51 -> refused 11 forged 50),
    entry!(1 accept 0 1 stock lower 50 -> accepted 50),
];

#[test]
fn room_is_less_what_was_given_up(rt: HostRuntime) {
    let known = known_after(&rt, rt.alloc(), 1, &GIVEN_UP_AND_GOT);
    assert_eq!(rt; known.interval, Some((70, 70)));
}

const RESTATED: [Entry; 5] = [
    entry!(0 give 0 stock lower 1 -> refused 8 self gift),
    entry!(0 restate 1 stock lower -> refused 15 nothing given),
    entry!(0 give 1 stock lower 3 -> given 3),
    entry!(0 give 1 stock lower 2 -> given 5),
    entry!(0 restate 1 stock lower -> stated 5),
];

#[test]
fn states(rt: HostRuntime) {
    let known = known_after(&rt, rt.alloc(), 0, &RESTATED);
    assert_eq!(rt; known.share, Some((15, 30)));
}

const UP_TO_THE_ROOM: [Entry; 4] = [
    entry!(1 accept 0 0 stock lower 50 -> refused 10 not yours),
    entry!(1 accept 0 1 stock lower 51 -> refused 11 forged 50),
    entry!(1 accept 0 1 stock lower 50 -> accepted 50),
    entry!(1 accept 0 1 stock lower 51 -> refused 11 forged 0),
];

#[test]
fn accepts_up_to_the_room(rt: HostRuntime) {
    let refused = known_after(&rt, rt.alloc(), 1, &UP_TO_THE_ROOM[..2]);
    assert_eq!(rt; refused.share, Some((20, 30)));
    let known = known_after(&rt, rt.alloc(), 1, &UP_TO_THE_ROOM);
    assert_eq!(rt; known.share, Some((70, 30)));
}

const LATE_AND_TWICE: [Entry; 3] = [
    entry!(1 accept 0 1 stock lower 5 -> accepted 5),
    entry!(1 accept 0 1 stock lower 3 -> accepted 0),
    entry!(1 accept 0 1 stock lower 5 -> accepted 0),
];

#[test]
fn accepts_late_and_twice(rt: HostRuntime) {
    let known = known_after(&rt, rt.alloc(), 1, &LATE_AND_TWICE);
    assert_eq!(rt; known.share, Some((25, 30)));
}
