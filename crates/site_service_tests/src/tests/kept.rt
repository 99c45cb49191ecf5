//! Which commits a log holds, in whatever order they stand.

use super::*;

/// An epoch, and the number of a transaction.
type Txn = (u32, u32);

/// What is asked of each log: before its commits, among them, and behind them.
const ASKED: [Txn; 9] = [
    (1, 1),
    (1, 2),
    (1, 3),
    (1, 4),
    (1, 5),
    (1, 6),
    (2, 1),
    (2, 2),
    (2, 3),
];

/// A log, and which of these it holds.
type Row = (&'static str, &'static [Txn]);

const NONE: &str = "R 1\n";

const ONE: &str = "R 1\nC 1 4 0 -1\n";

const RISING: &str = "R 1\nC 1 2 0 -1\nC 1 3 0 -1\nC 1 5 0 -1\n";

const FALLING: &str = "R 1\nC 1 5 0 -1\nC 1 3 0 -1\nC 1 2 0 -1\n";

const MIXED: &str = "R 1\nC 1 3 0 -1\nC 1 2 0 -1\nC 1 5 0 -1\n";

/// The greatest and then the least stand there once more.
const REPEATED: &str = "R 1\nC 1 2 0 -1\nC 1 5 0 -1\nC 1 5 0 -1\nC 1 3 0 -1\nC 1 2 0 -1\n";

/// One that came late stands there once more.
const REPEATED_LATE: &str = "R 1\nC 1 5 0 -1\nC 1 2 0 -1\nC 1 2 0 -1\nC 1 3 0 -1\n";

/// The numbers of the second epoch are lower, and rise.
const TWO_EPOCHS: &str = "R 1\nC 1 3 0 -1\nC 1 5 0 -1\nR 2\nC 2 1 0 -1\nC 2 3 0 -1\n";

/// They fall in each.
const TWO_FALLING: &str = "R 1\nC 1 5 0 -1\nC 1 3 0 -1\nR 2\nC 2 3 0 -1\nC 2 1 0 -1\n";

const ROWS: [Row; 9] = [
    (NONE, &[]),
    (ONE, &[(1, 4)]),
    (RISING, &[(1, 2), (1, 3), (1, 5)]),
    (FALLING, &[(1, 2), (1, 3), (1, 5)]),
    (MIXED, &[(1, 2), (1, 3), (1, 5)]),
    (REPEATED, &[(1, 2), (1, 3), (1, 5)]),
    (REPEATED_LATE, &[(1, 2), (1, 3), (1, 5)]),
    (TWO_EPOCHS, &[(1, 3), (1, 5), (2, 1), (2, 3)]),
    (TWO_FALLING, &[(1, 3), (1, 5), (2, 1), (2, 3)]),
];

/// Tests that of those that are asked for exactly these are kept.
fn assert_kept<F: LogFile>(
    rt: &impl Abort,
    alloc: Global,
    service: &mut Service<F>,
    wanted: &[Txn],
) {
    for (epoch, number) in ASKED {
        let kept = service.has_kept(alloc, TxnId { epoch, number });
        let wanted = if wanted.contains(&(epoch, number)) {
            CommitAnswer::Yes
        } else {
            CommitAnswer::No
        };
        assert_eq!(rt; kept, Ok(wanted), "at {epoch}.{number}");
    }
}

/// Asks a service over this log, twice.
fn assert_row(rt: &impl Abort, alloc: Global, row: Row) {
    let (log, wanted) = row;
    let mut service = open_over(rt, alloc, file_of(rt, alloc, log.as_bytes())).expect(rt, "opened");
    assert_kept(rt, alloc, &mut service, wanted);
    assert_kept(rt, alloc, &mut service, wanted);
}

#[test]
fn finds_commits_in_any_order(rt: HostRuntime) {
    for row in &ROWS {
        assert_row(&rt, rt.alloc(), *row);
    }
}

/// Lines that are served one after the other, and which commits are kept then.
const TURNS: [Row; 4] = [
    ("", &[(1, 3), (1, 5)]),
    (
        "0 begin\n0 begin\n0 begin\n0 escrow 2.1 stock -1\n0 escrow 2.2 stock -1\n0 escrow 2.3 stock -1\n0 commit 2.2\n",
        &[(1, 3), (1, 5), (2, 2)],
    ),
    ("0 commit 2.1\n", &[(1, 3), (1, 5), (2, 1), (2, 2)]),
    ("0 commit 2.3\n", &[(1, 3), (1, 5), (2, 1), (2, 2), (2, 3)]),
];

/// Serves each, and asks behind it.
fn assert_turns<F: LogFile>(rt: &impl Abort, alloc: Global, service: &mut Service<F>) {
    for (lines, wanted) in &TURNS {
        let told = serve_traced(alloc, service, &mut NoTrace, (*lines).as_bytes());
        assert_eq!(rt; told.0, Ok(()));
        assert_kept(rt, alloc, service, *wanted);
    }
}

// Three transactions are open at once, and the second is committed first.
#[test]
fn finds_commits_that_came_since(rt: HostRuntime) {
    let log = "R 1\nC 1 5 0 -1\nC 1 3 0 -1\n";
    let file = file_of(&rt, rt.alloc(), log.as_bytes());
    let mut service = open_over(&rt, rt.alloc(), file).expect(&rt, "opened");
    assert_turns(&rt, rt.alloc(), &mut service);
}
