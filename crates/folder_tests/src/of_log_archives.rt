//! Parts of the log of site 1 of a world of two, cut at its summaries by hand; every expected value is
//! worked out by hand too.

use field_bounds::SiteNo;
use folder_logs::Records;
use held_logs::HeldLog;
use log_archives::{JointFault, check_joint};
use log_head::{Gone, Horizon};
use site_folder::Identity;
use std::alloc::Global;
use std::process::Abort;

/// Each site begins with 20 rights to lower the stock and 30 to raise it.
const HEADER: &str =
    r#"{"sites":2,"fields":[{"name":"stock","floor":0,"ceiling":100,"value":40}]}"#;

/// The records in front of the first summary: 26 bytes, 3 records. Of the rights to lower 15 are spent
/// and 2 given, so that 3 and 45 are left.
const FIRST: &str = "R 1\nC 1 1 0 -15\nG 0 0 l 2\n";

/// The first summary, and those behind it in front of the second one: 46 bytes, 3 records but summaries.
/// 3 more turn one way, and 8 the other.
const SECOND: &str = "S 1 1 3 45 g 0 0 l 2\nR 2\nC 2 1 0 -3\nC 2 2 0 8\n";

/// The second summary, and one record behind it.
const THIRD: &str = "S 2 1 8 40 g 0 0 l 2\nC 2 3 0 -1\n";

/// The numbers of a head: bytes, records, and the epoch and number of its horizon.
type Told = (u64, u64, u32, u32);

/// What the heads of the second and of the third part tell.
const SECOND_TOLD: Told = (26, 3, 1, 1);

const THIRD_TOLD: Told = (72, 6, 2, 2);

fn gone_of(alloc: Global, told: Told, listed: &[u32]) -> Option<Gone> {
    let listed = Vec::from_slice(alloc, listed).ok()?;
    Some(Gone {
        bytes: told.0,
        records: told.1,
        horizon: Horizon::new(told.2, told.3, listed)?,
    })
}

/// The texts, one behind another.
fn joined(alloc: Global, texts: &[&str]) -> Option<Vec<u8>> {
    let mut all = Vec::new(alloc);
    for text in texts {
        all.extend_from_slice(text.as_bytes()).ok()?;
    }
    Some(all)
}

/// Whether the next part goes on where the part leaves off, of which this is gone and which holds these
/// texts, or why not; None where memory was refused.
fn told_of(
    alloc: Global,
    gone: Option<Gone>,
    held: &[&str],
    told: &Gone,
    next: &[&str],
) -> Option<Result<(), JointFault>> {
    let identity = Identity::new(alloc, 1, HEADER.as_bytes()).ok()?;
    let schema = identity.schema();
    if schema.sites() != 2 {
        return None;
    }
    let held = joined(alloc, held)?;
    let next = joined(alloc, next)?;
    let part = HeldLog {
        gone,
        records: Records::Plain(held.as_slice()),
    };
    match check_joint(alloc, schema, SiteNo(1), &part, told, next.as_slice()) {
        Ok(None) => Some(Ok(())),
        Ok(Some(fault)) => Some(Err(fault)),
        Err(_) => None,
    }
}

/// A whole log, and a part of which so much is told to be gone.
fn assert_first(
    rt: &impl Abort,
    alloc: Global,
    held: &[&str],
    told: Told,
    next: &[&str],
    expected: Result<(), JointFault>,
) {
    let told = gone_of(alloc, told, &[]).expect(rt, "a head");
    assert_eq!(rt; told_of(alloc, None, held, &told, next), Some(expected));
}

/// A part of which so much is told to be gone, and another one.
fn assert_second(
    rt: &impl Abort,
    alloc: Global,
    gone: Told,
    held: &[&str],
    told: (Told, &[u32]),
    next: &[&str],
    expected: Result<(), JointFault>,
) {
    let gone = gone_of(alloc, gone, &[]).expect(rt, "a head");
    let told = gone_of(alloc, told.0, told.1).expect(rt, "another");
    assert_eq!(rt;
        told_of(alloc, Some(gone), held, &told, next),
        Some(expected)
    );
}

#[test]
fn parts_of_one_log_join(rt: HostRuntime) {
    let alloc = rt.alloc();
    let next: &[&str] = &[SECOND, THIRD];
    assert_first(&rt, alloc, &[FIRST, SECOND], SECOND_TOLD, next, Ok(()));
    // What stands behind the base isn't looked at, and the next part needn't hold it.
    let base = "S 1 1 3 45 g 0 0 l 2\n";
    assert_first(&rt, alloc, &[FIRST, base], SECOND_TOLD, next, Ok(()));
    assert_first(&rt, alloc, &[FIRST, base, "x\n"], SECOND_TOLD, next, Ok(()));
    assert_first(
        &rt,
        alloc,
        &[FIRST, base, "R"],
        SECOND_TOLD,
        &[base],
        Ok(()),
    );
    assert_second(
        &rt,
        alloc,
        SECOND_TOLD,
        &[SECOND, THIRD],
        (THIRD_TOLD, &[]),
        &[THIRD],
        Ok(()),
    );
    // A part may be left out: those that are joined are whole all the same.
    let all: &[&str] = &[FIRST, SECOND, THIRD];
    assert_first(&rt, alloc, all, THIRD_TOLD, &[THIRD], Ok(()));
    // Transaction 2.3 was open, and may be listed.
    assert_second(
        &rt,
        alloc,
        SECOND_TOLD,
        &[SECOND, THIRD],
        ((72, 6, 2, 9), &[3]),
        &[THIRD],
        Ok(()),
    );
}

#[test]
fn lines_in_front_of_the_base_are_lawful(rt: HostRuntime) {
    let alloc = rt.alloc();
    let line = |number: u64| Err(JointFault::BadLine { number });
    let rule = |number: u64| Err(JointFault::BreaksRule { number });
    let next: &[&str] = &[SECOND];
    let bad = "R 1\nc 1 1 0 -15\nG 0 0 l 2\n";
    assert_first(&rt, alloc, &[bad, SECOND], SECOND_TOLD, next, line(2));
    let other = "R 1\nC 2 1 0 -15\nG 0 0 l 2\n";
    assert_first(&rt, alloc, &[other, SECOND], SECOND_TOLD, next, rule(2));
    // Both parts have the same base, and it isn't the summary of what stands before it.
    let base: &[&str] = &["S 1 1 4 45 g 0 0 l 2\n"];
    let whole: &[&str] = &[FIRST, "S 1 1 4 45 g 0 0 l 2\n"];
    assert_first(&rt, alloc, whole, SECOND_TOLD, base, rule(4));
    // Behind a base lines are counted from it.
    let second = "S 1 1 3 45 g 0 0 l 2\nR 2\nC 2 1 0 -3\nC 2 2 0 9\n";
    assert_second(
        &rt,
        alloc,
        SECOND_TOLD,
        &[second, THIRD],
        (THIRD_TOLD, &[]),
        &[THIRD],
        rule(5),
    );
    // A base that no records have as their summary.
    let second = "S 1 1 3 46 g 0 0 l 2\nR 2\nC 2 1 0 -3\nC 2 2 0 8\n";
    assert_second(
        &rt,
        alloc,
        SECOND_TOLD,
        &[second, THIRD],
        (THIRD_TOLD, &[]),
        &[THIRD],
        rule(1),
    );
}

#[test]
fn the_base_of_the_next_part_stands_in_the_part(rt: HostRuntime) {
    let alloc = rt.alloc();
    let next: &[&str] = &[SECOND];
    let short = Err(JointFault::Short);
    assert_first(&rt, alloc, &[""], SECOND_TOLD, next, short);
    assert_first(
        &rt,
        alloc,
        &["R 1\nC 1 1 0 -15\n"],
        SECOND_TOLD,
        next,
        short,
    );
    assert_first(&rt, alloc, &[FIRST], SECOND_TOLD, next, short);
    let torn = "S 1 1 3 45 g 0 0 l 2";
    assert_first(&rt, alloc, &[FIRST, torn], SECOND_TOLD, next, short);
    let base = Err(JointFault::OtherBase);
    let whole: &[&str] = &[FIRST, SECOND, THIRD];
    assert_first(&rt, alloc, whole, SECOND_TOLD, &[THIRD], base);
    assert_first(&rt, alloc, whole, SECOND_TOLD, &["R 2\n"], base);
    assert_first(&rt, alloc, whole, SECOND_TOLD, &[""], base);
    assert_first(&rt, alloc, whole, SECOND_TOLD, &[torn], base);
    assert_first(&rt, alloc, whole, (25, 3, 1, 1), next, base);
    assert_first(&rt, alloc, whole, (27, 3, 1, 1), next, base);
    // One summary for another.
    let next: &[&str] = &["S 1 1 4 45 g 0 0 l 2\n"];
    assert_first(&rt, alloc, whole, SECOND_TOLD, next, base);
}

#[test]
fn heads_tell_what_is_gone(rt: HostRuntime) {
    let alloc = rt.alloc();
    let part: &[&str] = &[FIRST, SECOND];
    let next: &[&str] = &[SECOND];
    let records = Err(JointFault::OtherRecords);
    assert_first(&rt, alloc, part, (26, 2, 1, 1), next, records);
    assert_first(&rt, alloc, part, (26, 4, 1, 1), next, records);
    let horizon = Err(JointFault::OtherHorizon);
    assert_first(&rt, alloc, part, (26, 3, 1, 0), next, horizon);
    assert_first(&rt, alloc, part, (26, 3, 9, 0), next, Ok(()));
    let part: &[&str] = &[SECOND, THIRD];
    let next: &[&str] = &[THIRD];
    let rows: [(Told, Told, &[u32], Result<(), JointFault>); 10] = [
        // The part tells more bytes to be gone than the next one.
        ((73, 3, 1, 1), THIRD_TOLD, &[], Err(JointFault::OtherBytes)),
        (SECOND_TOLD, (72, 5, 2, 2), &[], records),
        (SECOND_TOLD, (72, 3, 2, 2), &[], records),
        ((26, 7, 1, 1), THIRD_TOLD, &[], records),
        (SECOND_TOLD, (72, 6, 2, 1), &[], horizon),
        (SECOND_TOLD, (72, 6, 1, 9), &[], horizon),
        // A commit that is gone is listed as open.
        (SECOND_TOLD, (72, 6, 2, 3), &[2], horizon),
        // The part's horizon was further: by its epoch, its number, or by one that is listed now.
        ((26, 3, 3, 0), THIRD_TOLD, &[], horizon),
        ((26, 3, 2, 3), THIRD_TOLD, &[], horizon),
        ((26, 3, 2, 3), (72, 6, 2, 4), &[3], horizon),
    ];
    for (gone, told, listed, expected) in &rows {
        assert_second(&rt, alloc, *gone, part, (*told, *listed), next, *expected);
    }
}
