//! Worked rows of the judge, by all its calls. Every expected verdict is worked out by hand.

use central_machine::*;
use check_kit::{STOCK_OF_TWO, entry, reply};
use field_bounds::{Entry, Reply, Schema};
use std::alloc::{AllocError, Global};
use std::process::Abort;
use std::thread::Threads;

const TWO_FIELDS: &str =
    r#"{"sites":1,"fields":[{"name":"a","floor":0,"ceiling":10,"value":5},{"name":"b","floor":0,"ceiling":10,"value":5}]}"#;

/// What an answer to the entry at this place, counted from 1, says of the front that ends with it.
fn verdict_at(found: Option<Rule>, at: u64) -> Verdict {
    match found {
        None => Verdict::Legal,
        Some(rule) => Verdict::Illegal { at, rule },
    }
}

/// Whether the judge that is given the entries one by one answers of each front as `judge` does, up
/// to the first bad one, and counts what it took in.
fn is_fed_alike(alloc: Global, schema: &Schema, entries: &[Entry]) -> Result<bool, AllocError> {
    let mut fed = FrontJudge::new(alloc, schema)?;
    for (i, entry) in entries.iter().enumerate() {
        let wanted = judge(alloc, schema, &entries[..=i])?;
        let found = fed.next(alloc, schema, entry)?;
        if verdict_at(found, i as u64 + 1) != wanted {
            return Ok(false);
        }
        if found.is_some() {
            // The bad entry was left out, so it is as bad as before.
            return Ok(fed.count() == i as u64 && fed.next(alloc, schema, entry)? == found);
        }
    }
    Ok(fed.count() == entries.len() as u64)
}

/// The verdict, where all calls answer the same, and as many entries were read as it tells.
fn judged(
    rt: &(impl Threads + Sync),
    alloc: Global,
    header: &str,
    entries: &[Entry],
) -> Option<Verdict> {
    let schema = Schema::from_header(alloc, header.as_bytes()).ok()?;
    let plain = judge_plain(alloc, &schema, entries).ok()?;
    let fast = judge(alloc, &schema, entries).ok()?;
    let split = judge_fields(rt, alloc, &schema, entries).ok()?;
    let (counted, read) = judge_counted(alloc, &schema, entries).ok()?;
    let wanted = match plain {
        Verdict::Legal => entries.len() as u64,
        Verdict::Illegal { at, .. } => at,
    };
    let is_fed_alike = is_fed_alike(alloc, &schema, entries).ok()?;
    if plain == fast && plain == split && plain == counted && read == wanted && is_fed_alike {
        return Some(plain);
    }
    None
}

macro_rules! verdict {
    (legal) => {
        Verdict::Legal
    };
    (illegal $at:literal $rule:ident) => {
        Verdict::Illegal {
            at: $at,
            rule: Rule::$rule,
        }
    };
}

/// Entries, and the verdict on them.
type Row = (&'static [Entry], Verdict);

/// Rows, each with its lines in brackets.
macro_rules! rows {
    ($($([$($line:tt)+])* => $verdict:ident $($at:literal $rule:ident)?;)*) => {
        [$((&[$(entry!($($line)+)),*], verdict!($verdict $($at $rule)?))),*]
    };
}

fn assert_rows(rt: &(impl Abort + Threads + Sync), alloc: Global, rows: &[Row]) {
    for (entries, verdict) in rows {
        let found = judged(rt, alloc, STOCK_OF_TWO, *entries);
        assert_eq!(rt; found, Some(*verdict), "{entries:?}");
    }
}

const ONE_ENTRY: [Row; 6] = rows! {
    => legal;
    [5 begin -> begun 0.1] => illegal 1 Site;
    [0 read stock -> between 41 100] => illegal 1 Interval;
    [0 read stock -> between 0 100] => illegal 1 Reply;
    [0 read stock -> between 20 70] => legal;
    [1 accept 0 1 stock lower 50 -> accepted 50] => illegal 1 Statement;
};

#[test]
fn one_entry(rt: HostRuntime) {
    assert_rows(&rt, rt.alloc(), &ONE_ENTRY);
}

const TWO_ENTRIES: [Row; 5] = rows! {
    [0 begin -> begun 0.1] [0 escrow 0.1 stock -21 -> refused 7 short 19] => illegal 2 Shortage;
    [0 begin -> begun 0.1] [0 escrow 0.1 stock -21 -> refused 7 short 20] => legal;
    [0 begin -> begun 0.1] [0 escrow 0.1 stock -41 -> granted] => illegal 2 Grant;
    [0 begin -> begun 0.1] [0 escrow 0.1 stock -25 -> granted] => illegal 2 Reply;
    [0 begin -> begun 0.1] [0 escrow 0.1 stock -20 -> granted] => legal;
};

#[test]
fn two_entries(rt: HostRuntime) {
    assert_rows(&rt, rt.alloc(), &TWO_ENTRIES);
}

const TWO_BAD: [Row; 2] = rows! {
    [0 read stock -> between 41 100] [0 begin -> begun 0.1] [0 read stock -> between 20 70] => illegal 1 Interval;
    [0 begin -> begun 0.1] [0 read stock -> between 0 100] [5 begin -> begun 0.1] => illegal 2 Reply;
};

// What comes after the first bad entry changes nothing.
#[test]
fn the_first_bad_entry(rt: HostRuntime) {
    assert_rows(&rt, rt.alloc(), &TWO_BAD);
}

const CIRCLE: [Row; 2] = rows! {
    [0 accept 1 0 stock lower 5 -> accepted 5]
        [0 give 1 stock lower 5 -> given 5]
        [1 accept 0 1 stock lower 5 -> accepted 5]
        [1 give 0 stock lower 5 -> given 5] => illegal 1 Statement;
    [0 give 1 stock lower 5 -> given 5]
        [1 accept 0 1 stock lower 5 -> accepted 5]
        [1 accept 0 1 stock lower 5 -> accepted 0] => legal;
};

// Sites that each accept of the other what that has not given yet.
#[test]
fn a_circle(rt: HostRuntime) {
    assert_rows(&rt, rt.alloc(), &CIRCLE);
}

const TIGHTENINGS: [Row; 4] = rows! {
    [0 tighten stock lower 20 -> tightened 20]
        [1 tighten stock lower 20 -> tightened 20]
        [0 begin -> begun 0.1]
        [0 escrow 0.1 stock -1 -> granted] => illegal 4 Grant;
    [0 tighten stock lower 20 -> tightened 20] [0 read stock -> between 20 70] => legal;
    [0 tighten stock lower 41 -> tightened 41] => illegal 1 Grant;
    [0 tighten stock lower 21 -> tightened 21] => illegal 1 Reply;
};

// Two sites gave 40 lowering rights up, so the floor is at the value.
#[test]
fn two_tightenings(rt: HostRuntime) {
    assert_rows(&rt, rt.alloc(), &TIGHTENINGS);
}

const SPARES: [Row; 5] = rows! {
    [0 spare 1 stock raise 100 -> spared 15 15] [0 spare 1 stock raise 100 -> spared 8 23] => legal;
    [0 spare 1 stock raise 100 -> spared 16 16] => illegal 1 Reply;
    [0 spare 1 stock raise 100 -> refused 7 short 29] => illegal 1 Shortage;
    [0 spare 1 stock raise 100 -> unsure] [0 restart -> restarted 1 kept] [0 share stock -> share 20 15] => legal;
    [0 spare 1 stock raise 100 -> unsure] [0 restart -> restarted 1 lost] [0 share stock -> share 20 15] => illegal 3 Reply;
};

#[test]
fn spares(rt: HostRuntime) {
    assert_rows(&rt, rt.alloc(), &SPARES);
}

const IN_DOUBT: [Row; 3] = rows! {
    [0 begin -> begun 0.1]
        [0 escrow 0.1 stock -20 -> granted]
        [0 commit 0.1 -> unsure]
        [0 restart -> restarted 1 kept]
        [0 share stock -> share 0 50] => legal;
    [0 begin -> begun 0.1]
        [0 escrow 0.1 stock -20 -> granted]
        [0 commit 0.1 -> unsure]
        [0 restart -> restarted 1 lost]
        [0 share stock -> share 20 30] => legal;
    [0 begin -> begun 0.1]
        [0 escrow 0.1 stock -20 -> granted]
        [0 commit 0.1 -> unsure]
        [0 restart -> restarted 1 lost]
        [0 share stock -> share 0 50] => illegal 5 Reply;
};

#[test]
fn a_commit_in_doubt(rt: HostRuntime) {
    assert_rows(&rt, rt.alloc(), &IN_DOUBT);
}

const OPEN_AT_A_RESTART: [Row; 4] = rows! {
    [0 begin -> begun 0.1] [0 escrow 0.1 stock -5 -> granted]
        [0 begin -> begun 0.2] [0 escrow 0.2 stock -3 -> granted] [0 escrow 0.2 stock 4 -> granted]
        [0 begin -> begun 0.3] [0 escrow 0.3 stock -10 -> granted] [0 commit 0.3 -> unsure]
        [0 restart -> restarted 1 kept] [0 share stock -> share 10 40] => legal;
    [0 begin -> begun 0.1] [0 escrow 0.1 stock -5 -> granted]
        [0 begin -> begun 0.2] [0 escrow 0.2 stock -3 -> granted] [0 escrow 0.2 stock 4 -> granted]
        [0 begin -> begun 0.3] [0 escrow 0.3 stock -10 -> granted] [0 commit 0.3 -> unsure]
        [0 restart -> restarted 1 lost] [0 share stock -> share 20 30] => legal;
    [0 begin -> begun 0.1] [0 escrow 0.1 stock -5 -> granted]
        [0 begin -> begun 0.2] [0 escrow 0.2 stock -3 -> granted] [0 escrow 0.2 stock 4 -> granted]
        [0 restart -> restarted 1 nothing] [1 begin -> begun 0.1] [1 escrow 0.1 stock -40 -> granted] => illegal 8 Reply;
    [0 begin -> begun 0.1] [0 escrow 0.1 stock -5 -> granted]
        [0 begin -> begun 0.2] [0 escrow 0.2 stock -3 -> granted] [0 escrow 0.2 stock 4 -> granted]
        [0 restart -> restarted 1 nothing] [1 begin -> begun 0.1] [1 escrow 0.1 stock 60 -> granted] => illegal 8 Reply;
};

// A restart ends all that is open at its site: the shares have it again, and others may be granted
// all that lies within the bounds.
#[test]
fn what_is_open_at_a_restart(rt: HostRuntime) {
    assert_rows(&rt, rt.alloc(), &OPEN_AT_A_RESTART);
}

// The replies of the rows below are what no site owes, so that only the sums tell which rule is
// broken first.

const COMMITTED: [Row; 7] = rows! {
    [0 begin -> begun 0.1] [0 escrow 0.1 stock -20 -> granted] [0 read stock -> between 0 39] => illegal 3 Interval;
    [0 begin -> begun 0.1] [0 escrow 0.1 stock -20 -> granted] [0 read stock -> between 40 40] => illegal 3 Reply;
    [0 begin -> begun 0.1] [0 escrow 0.1 stock -20 -> granted] [0 commit 0.1 -> committed]
        [1 read stock -> between 21 100] => illegal 4 Interval;
    [0 begin -> begun 0.1] [0 escrow 0.1 stock -20 -> granted] [0 commit 0.1 -> committed]
        [1 read stock -> between 20 20] => illegal 4 Reply;
    [0 begin -> begun 0.1] [0 escrow 0.1 stock 30 -> granted] [0 commit 0.1 -> committed]
        [1 read stock -> between 0 69] => illegal 4 Interval;
    [0 begin -> begun 0.1] [0 escrow 0.1 stock -20 -> granted] [0 abort 0.1 -> aborted]
        [1 read stock -> between 0 39] => illegal 4 Interval;
    [0 begin -> begun 0.1] [0 escrow 0.1 stock -20 -> granted] [0 abort 0.1 -> aborted]
        [1 read stock -> between 40 40] => illegal 4 Reply;
};

// The committed value, of 40 at first, changes by a commit alone.
#[test]
fn the_committed_value(rt: HostRuntime) {
    assert_rows(&rt, rt.alloc(), &COMMITTED);
}

const ENDED: [Row; 9] = rows! {
    [0 begin -> begun 0.1] [0 escrow 0.1 stock -20 -> granted] [0 escrow 0.1 stock -21 -> granted] => illegal 3 Grant;
    [0 begin -> begun 0.1] [0 escrow 0.1 stock -20 -> granted] [0 escrow 0.1 stock -20 -> granted] => illegal 3 Reply;
    [0 begin -> begun 0.1] [0 escrow 0.1 stock -20 -> granted] [0 abort 0.1 -> aborted]
        [0 begin -> begun 0.2] [0 escrow 0.2 stock -41 -> granted] => illegal 5 Grant;
    [0 begin -> begun 0.1] [0 escrow 0.1 stock -20 -> granted] [0 abort 0.1 -> aborted]
        [0 begin -> begun 0.2] [0 escrow 0.2 stock -40 -> granted] => illegal 5 Reply;
    [0 begin -> begun 0.1] [0 escrow 0.1 stock -20 -> granted] [0 commit 0.1 -> committed]
        [0 begin -> begun 0.2] [0 escrow 0.2 stock -21 -> granted] => illegal 5 Grant;
    [0 begin -> begun 0.1] [0 escrow 0.1 stock -20 -> granted] [0 commit 0.1 -> committed]
        [0 begin -> begun 0.2] [0 escrow 0.2 stock -20 -> granted] => illegal 5 Reply;
    [0 begin -> begun 0.1] [0 escrow 0.1 stock -20 -> granted] [0 commit 0.1 -> committed]
        [0 begin -> begun 0.2] [0 escrow 0.2 stock 81 -> granted] => illegal 5 Grant;
    [0 begin -> begun 0.1] [0 escrow 0.1 stock -20 -> granted] [0 commit 0.1 -> committed]
        [0 begin -> begun 0.2] [0 escrow 0.2 stock 80 -> granted] => illegal 5 Reply;
    [0 begin -> begun 0.1] [0 escrow 0.1 stock -20 -> granted] [0 restart -> restarted 1 nothing]
        [0 begin -> begun 1.1] [0 escrow 1.1 stock -40 -> granted] => illegal 5 Reply;
};

// What is open bounds what may be granted until its transaction ends: the floor lies 40 below and
// the ceiling 60 above.
#[test]
fn what_may_be_granted(rt: HostRuntime) {
    assert_rows(&rt, rt.alloc(), &ENDED);
}

const SETTLED: [Row; 8] = rows! {
    [0 begin -> begun 0.1] [0 escrow 0.1 stock -20 -> granted] [0 commit 0.1 -> unsure]
        [1 read stock -> between 0 39] => illegal 4 Interval;
    [0 begin -> begun 0.1] [0 escrow 0.1 stock -20 -> granted] [0 commit 0.1 -> unsure]
        [0 restart -> restarted 1 kept] [1 read stock -> between 21 100] => illegal 5 Interval;
    [0 begin -> begun 0.1] [0 escrow 0.1 stock -20 -> granted] [0 commit 0.1 -> unsure]
        [0 restart -> restarted 1 lost] [1 read stock -> between 0 39] => illegal 5 Interval;
    [0 begin -> begun 0.1] [0 escrow 0.1 stock -20 -> granted] [0 commit 0.1 -> unsure]
        [1 begin -> begun 0.1] [1 escrow 0.1 stock -21 -> granted] => illegal 5 Grant;
    [0 begin -> begun 0.1] [0 escrow 0.1 stock -20 -> granted] [0 commit 0.1 -> unsure]
        [0 restart -> restarted 1 kept] [0 begin -> begun 1.1] [0 escrow 1.1 stock -21 -> granted] => illegal 6 Grant;
    [0 begin -> begun 0.1] [0 escrow 0.1 stock -20 -> granted] [0 commit 0.1 -> unsure]
        [0 restart -> restarted 1 kept] [0 begin -> begun 1.1] [0 escrow 1.1 stock -20 -> granted] => illegal 6 Reply;
    [0 begin -> begun 0.1] [0 escrow 0.1 stock -20 -> granted] [0 commit 0.1 -> unsure]
        [0 restart -> restarted 1 lost] [0 begin -> begun 1.1] [0 escrow 1.1 stock -41 -> granted] => illegal 6 Grant;
    [0 begin -> begun 0.1] [0 escrow 0.1 stock -20 -> granted] [0 commit 0.1 -> unsure]
        [0 restart -> restarted 1 lost] [0 begin -> begun 1.1] [0 escrow 1.1 stock -40 -> granted] => illegal 6 Reply;
};

// A commit in doubt counts from the restart that kept it.
#[test]
fn a_commit_that_a_restart_settles(rt: HostRuntime) {
    assert_rows(&rt, rt.alloc(), &SETTLED);
}

const CUT_IN_DOUBT: [Row; 4] = rows! {
    [0 tighten stock lower 20 -> unsure] [1 begin -> begun 0.1] [1 escrow 0.1 stock -40 -> granted] => illegal 3 Reply;
    [0 tighten stock lower 20 -> unsure] [0 restart -> restarted 1 kept]
        [1 begin -> begun 0.1] [1 escrow 0.1 stock -21 -> granted] => illegal 4 Grant;
    [0 tighten stock lower 20 -> unsure] [0 restart -> restarted 1 lost]
        [1 begin -> begun 0.1] [1 escrow 0.1 stock -40 -> granted] => illegal 4 Reply;
    [0 tighten stock raise 30 -> tightened 30] [1 begin -> begun 0.1] [1 escrow 0.1 stock 31 -> granted] => illegal 3 Grant;
};

#[test]
fn a_tightening_in_doubt(rt: HostRuntime) {
    assert_rows(&rt, rt.alloc(), &CUT_IN_DOUBT);
}

const SHORT: [Row; 6] = rows! {
    [0 give 1 stock lower 5 -> given 5] [0 begin -> begun 0.1] [0 escrow 0.1 stock -16 -> refused 7 short 20] => illegal 3 Shortage;
    [0 give 1 stock lower 5 -> given 5] [1 accept 0 1 stock lower 5 -> accepted 5]
        [1 begin -> begun 0.1] [1 escrow 0.1 stock -26 -> refused 7 short 20] => illegal 4 Shortage;
    [0 give 1 stock lower 5 -> unsure] [0 restart -> restarted 1 kept]
        [0 begin -> begun 1.1] [0 escrow 1.1 stock -16 -> refused 7 short 20] => illegal 4 Shortage;
    [0 give 1 stock lower 5 -> unsure] [0 restart -> restarted 1 kept]
        [0 begin -> begun 1.1] [0 escrow 1.1 stock -16 -> refused 7 short 15] => legal;
    [0 spare 1 stock raise 100 -> unsure] [0 restart -> restarted 1 kept]
        [0 begin -> begun 1.1] [0 escrow 1.1 stock 31 -> refused 7 short 30] => illegal 4 Shortage;
    [0 spare 1 stock raise 100 -> unsure] [0 restart -> restarted 1 lost]
        [0 begin -> begun 1.1] [0 escrow 1.1 stock 31 -> refused 7 short 15] => illegal 4 Shortage;
};

// A shortage that names the share as it was before a gift, or as it would be after one that is lost.
#[test]
fn shortages(rt: HostRuntime) {
    assert_rows(&rt, rt.alloc(), &SHORT);
}

/// A run of one site: what `0 begin` and the five lines after it print.
const RUN: [Entry; 6] = [
    entry!(0 begin -> begun 0.1),
    entry!(0 escrow 0.1 stock -20 -> granted),
    entry!(0 read stock -> between 20 70),
    entry!(0 commit 0.1 -> committed),
    entry!(0 share stock -> share 0 50),
    entry!(0 read stock -> between 0 50),
];

#[test]
fn a_run(rt: HostRuntime) {
    let found = judged(&rt, rt.alloc(), STOCK_OF_TWO, &RUN);
    assert_eq!(rt; found, Some(Verdict::Legal));
}

/// The verdict on the run with another reply to one of its entries.
fn changed(rt: &(impl Threads + Sync), alloc: Global, i: usize, reply: Reply) -> Option<Verdict> {
    let mut entries = RUN;
    if let Some(entry) = entries.get_mut(i) {
        entry.reply = reply;
    }
    judged(rt, alloc, STOCK_OF_TWO, &entries)
}

/// With this reply to each entry in turn, the run comes to these verdicts.
fn assert_changed(
    rt: &(impl Abort + Threads + Sync),
    alloc: Global,
    reply: Reply,
    verdicts: &[Verdict; 6],
) {
    for (i, verdict) in verdicts.iter().enumerate() {
        let found = changed(rt, alloc, i, reply);
        assert_eq!(rt; found, Some(*verdict), "at {i}");
    }
}

const CHANGED_TO_GRANTED: [Verdict; 6] = [
    verdict!(illegal 1 Reply),
    verdict!(legal),
    verdict!(illegal 3 Reply),
    verdict!(illegal 4 Reply),
    verdict!(illegal 5 Reply),
    verdict!(illegal 6 Reply),
];

#[test]
fn changed_to_granted(rt: HostRuntime) {
    assert_changed(&rt, rt.alloc(), reply!(granted), &CHANGED_TO_GRANTED);
}

const CHANGED_TO_DOWN: [Verdict; 6] = [
    verdict!(illegal 1 Reply),
    verdict!(illegal 2 Reply),
    verdict!(illegal 3 Reply),
    verdict!(illegal 4 Reply),
    verdict!(illegal 5 Reply),
    verdict!(illegal 6 Reply),
];

#[test]
fn changed_to_down(rt: HostRuntime) {
    assert_changed(&rt, rt.alloc(), reply!(refused 1 down), &CHANGED_TO_DOWN);
}

const CHANGED_TO_NOTHING: [Verdict; 6] = [
    verdict!(illegal 1 Reply),
    verdict!(illegal 2 Reply),
    verdict!(illegal 3 Interval),
    verdict!(illegal 4 Reply),
    verdict!(illegal 5 Reply),
    verdict!(illegal 6 Interval),
];

#[test]
fn changed_to_nothing_between(rt: HostRuntime) {
    assert_changed(&rt, rt.alloc(), reply!(between 0 0), &CHANGED_TO_NOTHING);
}

// The first entry is on the second field.
#[test]
fn two_fields(rt: HostRuntime) {
    let entries = [
        entry!(0 read #1 -> between 6 6),
        entry!(0 read stock -> between 6 6),
    ];
    let found = judged(&rt, rt.alloc(), TWO_FIELDS, &entries);
    assert_eq!(rt; found, Some(verdict!(illegal 1 Interval)));
}

// What the judge of one entry after another answers where a bad entry comes between good ones: it
// leaves that out, and goes on over the others.
#[test]
fn a_bad_entry_is_left_out(rt: HostRuntime) -> Result<(), AllocError> {
    let alloc = rt.alloc();
    let Ok(schema) = Schema::from_header(alloc, STOCK_OF_TWO.as_bytes()) else {
        return Err(AllocError);
    };
    let mut fed = FrontJudge::new(alloc, &schema)?;
    let begun = entry!(0 begin -> begun 0.1);
    let granted = entry!(0 escrow 0.1 stock -20 -> granted);
    assert_eq!(rt; fed.next(alloc, &schema, &granted)?, Some(Rule::Reply));
    assert_eq!(rt; fed.next(alloc, &schema, &begun)?, None);
    assert_eq!(rt; fed.next(alloc, &schema, &begun)?, Some(Rule::Reply));
    assert_eq!(rt; fed.next(alloc, &schema, &granted)?, None);
    assert_eq!(rt; fed.count(), 2);
    Ok(())
}
