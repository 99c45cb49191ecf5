//! Records that take the summary behind them along.

ghost use Rattle.std.specs.Prelude.{IfSome};
ghost use Rattle.kept_records.specs.Text.{IsSummary};

use super::*;

const PIECE: &str = "R 1000\nS 1000 1 20 30\n";

fn due(alloc: Global) -> Option<Summary>
    ensures { IfSome result (λ summary. IsSummary summary) }
{
    Some(Summary::new(
        1_000,
        OwnRights::new(vec![in alloc; (20, 30)].ok()?),
        Totals::new(Vec::new(alloc)),
        Totals::new(Vec::new(alloc)),
        Cuts::new(Vec::new(alloc)),
    ))
}

/// Whether a record and its summary stand whole, or None where memory was refused.
fn piece_appended<M: Medium>(alloc: Global, medium: &mut M) -> Option<bool> {
    let due = due(alloc)?;
    let kept = Record::Restart { epoch: 1_000 };
    Some(
        append_piece(&mut Vec::new(alloc), medium, &kept, Some(due))
            .ok()?
            .is_ok(),
    )
}

#[test]
fn a_record_takes_its_summary_along(rt: HostRuntime) {
    let alloc = rt.alloc();
    let mut medium = memory_of(alloc, "R 999\n").expect(&rt, "memory");
    let found = (
        piece_appended(alloc, &mut medium),
        holds(alloc, &mut medium, "R 999\nR 1000\nS 1000 1 20 30\n"),
    );
    assert_eq!(rt; found, (Some(true), true));
}

/// Whether a record and its summary stand whole though their append is torn after so many bytes,
/// whether the medium holds what is wanted, and how often it failed.
fn torn_piece(alloc: Global, kept: u64, wanted: &str) -> Option<(Option<bool>, bool, u64)> {
    let mut medium = torn_of(alloc, "")?;
    medium.arm(Mishap::Append(kept));
    let stands = piece_appended(alloc, &mut medium);
    let holds = holds(alloc, &mut medium, wanted);
    Some((stands, holds, medium.failures()))
}

/// How many bytes of the piece are kept, and what the medium then holds.
const TORN: [(u64, &str); 6] = [
    (0, ""),
    (6, "R 1000"),
    (7, "R 1000\n"),
    (8, "R 1000\nS"),
    (21, "R 1000\nS 1000 1 20 30"),
    (22, PIECE),
];

#[test]
fn a_torn_piece_leaves_a_front(rt: HostRuntime) {
    for (kept, wanted) in &TORN {
        let found = (*kept, torn_piece(rt.alloc(), *kept, *wanted));
        assert_eq!(rt; found, (*kept, Some((Some(false), true, 1))));
    }
}

/// Whether the restart and its summary stand behind so many bytes of the medium, or None where
/// there are fewer or memory was refused.
fn restarted_with_summary<M: Medium>(alloc: Global, medium: &mut M, whole: usize) -> Option<bool> {
    let present = medium.read_all(alloc).ok()?.len();
    if present < whole {
        return None;
    }
    let due = due(alloc)?;
    Some(
        append_restart_piece(
            &mut Vec::new(alloc),
            medium,
            whole,
            present,
            1_000,
            Some(due),
        )
        .ok()?
        .is_ok(),
    )
}

#[test]
fn a_restart_takes_its_summary_along(rt: HostRuntime) {
    let alloc = rt.alloc();
    let mut medium = memory_of(alloc, "R 999\nR 10").expect(&rt, "memory");
    let found = (
        restarted_with_summary(alloc, &mut medium, 6),
        holds(alloc, &mut medium, "R 999\nR 1000\nS 1000 1 20 30\n"),
    );
    assert_eq!(rt; found, (Some(true), true));
}

/// What a summary that was read tells: the epoch, the rights of the first field, and how many
/// totals each group has.
fn told(alloc: Global, text: &str) -> Option<(u32, (u64, u64), (usize, usize, usize))> {
    let (records, _) = read_records(alloc, text.as_bytes()).ok()?;
    match records.get(0)? {
        Record::Summary {
            epoch,
            rights,
            gifts,
            accepts,
            tightenings,
        } => Some((
            *epoch,
            *rights.as_slice().get(0)?,
            (
                gifts.as_slice().len(),
                accepts.as_slice().len(),
                tightenings.as_slice().len(),
            ),
        )),
        _ => None,
    }
}

#[test]
fn what_a_summary_tells(rt: HostRuntime) {
    assert_eq!(rt;
        told(
            rt.alloc(),
            "S 3 1 15 30 g 1 0 l 5 g 2 0 r 1 a 1 0 l 4 t 0 l 1 t 0 r 2 t 1 l 3\n"
        ),
        Some((3, (15, 30), (2, 1, 3)))
    );
}
