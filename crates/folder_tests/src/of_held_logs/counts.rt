use super::{BASE, gone, joined};
use held_logs::{count_held, stand_held};
use kept_records::LogCount;
use log_head::Gone;
use log_stand::Stand;
use std::alloc::Global;
use std::process::Abort;

/// How far the lines of these texts have come: the epoch, and the length.
fn stood(rt: &impl Abort, alloc: Global, gone: &Option<Gone>, texts: &[&str]) -> (u64, u64) {
    let records = joined(rt, alloc, texts);
    let Stand { epoch, length } = stand_held(alloc, gone, records.as_slice()).expect(rt, "memory");
    (epoch, length)
}

/// How many records the lines of these texts have.
fn counted(rt: &impl Abort, alloc: Global, gone: &Option<Gone>, texts: &[&str]) -> LogCount {
    let records = joined(rt, alloc, texts);
    count_held(alloc, gone, records.as_slice()).expect(rt, "memory")
}

/// Lines behind the base: the epoch, and the length with what is gone; how many records without
/// summaries those are, how many bytes those that are held, and the line that is none.
const BEHIND: [(&str, u64, u64, usize, usize, Option<u64>); 9] = [
    ("", 7, 16_000_145, 1_000_000, 22, None),
    ("R 8", 7, 16_000_145, 1_000_000, 22, None),
    ("R 8\n", 8, 16_000_149, 1_000_001, 26, None),
    ("C 7 1 0 -3\n", 7, 16_000_156, 1_000_001, 33, None),
    (
        "R 8\nC 8 1 0 -3\nR 9\nC 9",
        9,
        16_000_164,
        1_000_003,
        41,
        None,
    ),
    (
        "C 7 1 0 -2\nS 7 1 10 35 g 0 0 l 5\nR 8\n",
        8,
        16_000_182,
        1_000_002,
        59,
        None,
    ),
    ("R 8\nx\nR 9\n", 8, 16_000_149, 1_000_001, 26, Some(3)),
    ("x\nR 8\n", 7, 16_000_145, 1_000_000, 22, Some(2)),
    // No rule is tested here.
    ("R 6\n", 7, 16_000_149, 1_000_001, 26, None),
];

#[test]
fn what_is_gone_counts_with_what_is_held(rt: HostRuntime) {
    let alloc = rt.alloc();
    let gone = gone(&rt, alloc, 16_000_123, 1_000_000);
    for (lines, epoch, far, plain, length, bad_line) in &BEHIND {
        let stood = stood(&rt, alloc, &gone, &[BASE, *lines]);
        assert_eq!(rt; stood, (*epoch, *far), "{lines}");
        let expected = LogCount {
            plain: *plain,
            length: *length,
            bad_line: *bad_line,
        };
        let counted = counted(&rt, alloc, &gone, &[BASE, *lines]);
        assert_eq!(rt; counted, expected, "{lines}");
    }
}

// A summary behind the first line tells no epoch.
#[test]
fn the_first_line_alone_is_a_base(rt: HostRuntime) {
    let alloc = rt.alloc();
    let gone = gone(&rt, alloc, 100, 7);
    assert_eq!(rt; stood(&rt, alloc, &gone, &[""]), (0, 100));
    assert_eq!(rt; stood(&rt, alloc, &gone, &["R 3\n", BASE]), (3, 126));
    assert_eq!(rt; stood(&rt, alloc, &gone, &["x\n", BASE]), (0, 100));
    let none = LogCount {
        plain: 7,
        length: 0,
        bad_line: None,
    };
    assert_eq!(rt; counted(&rt, alloc, &gone, &["R 3"]), none);
}

#[test]
fn where_nothing_is_gone_a_summary_tells_nothing(rt: HostRuntime) {
    let alloc = rt.alloc();
    assert_eq!(rt; stood(&rt, alloc, &None, &[BASE]), (0, 22));
    assert_eq!(rt; stood(&rt, alloc, &None, &["R 3\n", BASE, "R 4"]), (3, 26));
    let two = LogCount {
        plain: 1,
        length: 26,
        bad_line: None,
    };
    assert_eq!(rt; counted(&rt, alloc, &None, &["R 3\n", BASE]), two);
}

#[test]
fn no_number_is_above_64_bits(rt: HostRuntime) {
    let alloc = rt.alloc();
    let most = gone(&rt, alloc, u64::MAX, u64::MAX);
    assert_eq!(rt; stood(&rt, alloc, &most, &[BASE]), (7, u64::MAX));
    let one = LogCount {
        plain: usize::MAX,
        length: 26,
        bad_line: None,
    };
    assert_eq!(rt; counted(&rt, alloc, &most, &[BASE, "R 8\n"]), one);
    let less = gone(&rt, alloc, u64::MAX - 22, u64::MAX - 1);
    assert_eq!(rt; stood(&rt, alloc, &less, &[BASE]), (7, u64::MAX));
    assert_eq!(rt; counted(&rt, alloc, &less, &[BASE, "R 8\n"]), one);
}
