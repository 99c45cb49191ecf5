//! A site over a file: it answers, stops, and is opened again over what is safe.

use super::*;
use check_kit::{entry, stock_of_two};
use field_bounds::{Entry, SiteNo};
use site_step::Site;

/// How many of the answers are as told, from the first on.
fn count_told<M: Medium>(alloc: Global, site: &mut Site<M>, rows: &[Entry]) -> usize {
    for (at, entry) in rows.iter().enumerate() {
        match site.apply(alloc, entry.command) {
            Ok(reply) if reply == entry.reply => {}
            Ok(_) | Err(_) => return at,
        }
    }
    rows.len()
}

/// The same of site 0, which is opened over this file, and stops then.
fn count_told_over<F: LogFile + Drop>(
    rt: &impl Abort,
    alloc: Global,
    file: F,
    rows: &[Entry],
) -> usize {
    let schema = stock_of_two(alloc).expect(rt, "memory");
    assert!(rt; schema.sites() == 2);
    let medium = medium_over(rt, alloc, file, Durability::EachAppend);
    let mut site = Site::open(alloc, schema, SiteNo(0), medium)
        .ok()
        .expect(rt, "a site");
    count_told(alloc, &mut site, rows)
}

/// The file answers each row, and then these bytes are safe.
fn assert_safe(rt: &impl Abort, alloc: Global, file: &mut MemoryFile, rows: &[Entry], safe: &str) {
    assert_eq!(rt; count_told_over(rt, alloc, &mut *file, rows), rows.len());
    assert!(rt; file.safe() == safe.as_bytes());
}

/// The file answers each row, and then these bytes are safe; the site that is opened over them
/// answers each row of the second list, and then those bytes are safe.
fn assert_run(
    rt: &impl Abort,
    alloc: Global,
    file: &mut MemoryFile,
    first: (&[Entry], &str),
    second: (&[Entry], &str),
) {
    assert_safe(rt, alloc, &mut *file, first.0, first.1);
    let mut again = file_of(rt, alloc, file.safe());
    assert_safe(rt, alloc, &mut again, second.0, second.1);
}

const COMMITTED: [Entry; 3] = [
    entry!(0 begin -> begun 0.1),
    entry!(0 escrow 0.1 stock -20 -> granted),
    entry!(0 commit 0.1 -> committed),
];

const OVER_THE_COMMIT: [Entry; 3] = [
    entry!(0 share stock -> refused 1 down),
    entry!(0 restart -> restarted 1 nothing),
    entry!(0 share stock -> share 0 50),
];

#[test]
fn what_was_answered_is_there_again(rt: HostRuntime) {
    let alloc = rt.alloc();
    let mut file = file_of(&rt, alloc, b"");
    assert_run(
        &rt,
        alloc,
        &mut file,
        (&COMMITTED, "C 0 1 0 -20\n"),
        (&OVER_THE_COMMIT, "C 0 1 0 -20\nR 1\n"),
    );
}

/// The commit's sync fails: the site stays down, and who opens what is safe finds nothing of it.
const UNSYNCED: [Entry; 5] = [
    entry!(0 begin -> begun 0.1),
    entry!(0 escrow 0.1 stock -20 -> granted),
    entry!(0 commit 0.1 -> unsure),
    entry!(0 restart -> still down),
    entry!(0 restart -> still down),
];

const OVER_NOTHING: [Entry; 2] = [
    entry!(0 share stock -> share 20 30),
    entry!(0 begin -> begun 0.1),
];

#[test]
fn after_a_failed_sync_a_site_stays_down(rt: HostRuntime) {
    let alloc = rt.alloc();
    let mut file = file_of(&rt, alloc, b"");
    file.arm(FileMishap {
        call: FileCall::Sync,
        good: 1,
    });
    assert_run(&rt, alloc, &mut file, (&UNSYNCED, ""), (&OVER_NOTHING, ""));
}

/// The third write of the commit fails, so ten of its twelve bytes are kept, which a restart cuts.
const TORN: [Entry; 5] = [
    entry!(0 begin -> begun 0.1),
    entry!(0 escrow 0.1 stock -20 -> granted),
    entry!(0 commit 0.1 -> unsure),
    entry!(0 restart -> restarted 1 lost),
    entry!(0 share stock -> share 20 30),
];

const OVER_THE_RESTART: [Entry; 2] = [
    entry!(0 restart -> restarted 2 nothing),
    entry!(0 share stock -> share 20 30),
];

#[test]
fn a_torn_record_is_cut(rt: HostRuntime) {
    let alloc = rt.alloc();
    let mut file = file_of(&rt, alloc, b"");
    file.limit_writes(5);
    file.arm(FileMishap {
        call: FileCall::Write,
        good: 2,
    });
    assert_run(
        &rt,
        alloc,
        &mut file,
        (&TORN, "R 1\n"),
        (&OVER_THE_RESTART, "R 1\nR 2\n"),
    );
}
