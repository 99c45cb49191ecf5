//! Lines that tell since when a key is looked for, over a log of which nothing was let go: there it
//! makes no difference.

use super::*;

/// Lines with keys and positions, and their answers: the site has 20 rights to lower and 30 to raise.
/// A key may be named as the word in front of a position, or as that in front of a key.
const ANSWERED: [(&str, &str); 23] = [
    ("kept key a since 0.0", "kept key a since 0.0 -> no"),
    (
        "kept key a since 4294967295.4294967295",
        "kept key a since 4294967295.4294967295 -> no",
    ),
    ("0 begin", "0 begin -> begun 1.1"),
    ("0 escrow 1.1 stock -5", "0 escrow 1.1 stock -5 -> granted"),
    ("0 commit 1.1 key a since 1.0", "0 commit 1.1 -> committed"),
    ("kept key a", "kept key a -> 1.1"),
    ("kept key a since 1.0", "kept key a since 1.0 -> 1.1"),
    ("kept key a since 1.1", "kept key a since 1.1 -> 1.1"),
    ("kept key a since 2.0", "kept key a since 2.0 -> 1.1"),
    ("0 begin", "0 begin -> begun 1.2"),
    ("0 escrow 1.2 stock -3", "0 escrow 1.2 stock -3 -> granted"),
    ("0 commit 1.2 key a since 1.1", "kept key a -> 1.1"),
    ("kept 1.2", "kept 1.2 -> no"),
    ("kept key since", "kept key since -> no"),
    ("kept key since since 1.1", "kept key since since 1.1 -> no"),
    ("0 commit 1.2 key since", "0 commit 1.2 -> committed"),
    ("kept key since", "kept key since -> 1.2"),
    (
        "kept key since since 1.1",
        "kept key since since 1.1 -> 1.2",
    ),
    ("0 begin", "0 begin -> begun 1.3"),
    ("0 commit 1.3 key since since 1.2", "kept key since -> 1.2"),
    (
        "0 commit 1.3 key key since 1.2",
        "0 commit 1.3 -> committed",
    ),
    ("kept key key since 1.2", "kept key key since 1.2 -> no"),
    ("0 share stock", "0 share stock -> share 12 38"),
];

#[test]
fn a_whole_log_answers_as_without_a_position(rt: HostRuntime) {
    let mut service = fresh(&rt, rt.alloc());
    assert_let_out(&rt, rt.alloc(), &mut service, Ok(()), FRESH);
    for (line, answer) in &ANSWERED {
        let wanted = joined(rt.alloc(), &[*answer, "\n"]).expect(&rt, "memory");
        assert_answer(&rt, rt.alloc(), &mut service, *line, wanted.as_str());
    }
}

/// Lines in which the position is none, that have no key, or whose commit isn't behind the position, and
/// those of other sites.
const BAD: [(&str, &str); 34] = [
    ("0 commit 1.1 key a since", "no command"),
    ("0 commit 1.1 key a since ", "no command"),
    ("0 commit 1.1 key a since 1", "no command"),
    ("0 commit 1.1 key a since 1.", "no command"),
    ("0 commit 1.1 key a since .1", "no command"),
    ("0 commit 1.1 key a since 1.00", "no command"),
    ("0 commit 1.1 key a since -1.1", "no command"),
    ("0 commit 1.1 key a since 4294967296.1", "no command"),
    ("0 commit 1.1 key a since 1.4294967296", "no command"),
    ("0 commit 1.1 key a since 1.0 ", "no command"),
    ("0 commit 1.1 key a since 1.0 b", "no command"),
    ("0 commit 1.1 key a since 1.0 since 1.0", "no command"),
    ("0 commit 1.1 key a  since 1.0", "no command"),
    ("0 commit 1.1 key a since  1.0", "no command"),
    ("0 commit 1.1 key a after 1.0", "no command"),
    ("0 commit 1.1 key since 1.0", "no command"),
    ("0 commit 1.1 since 1.0", "no command"),
    ("0 commit 1.1 since 1.0 key a", "no command"),
    ("0 abort 1.1 key a since 1.0", "no command"),
    ("0 commit 1.1 key a since 1.1", "no command"),
    ("0 commit 1.1 key a since 1.2", "no command"),
    ("0 commit 1.1 key a since 2.0", "no command"),
    ("1 commit 1.1 key a since 1.0", "other site"),
    ("1 commit 1.1 key a since 1.1", "no command"),
    ("2 commit 1.1 key a since 1.0", "no command"),
    ("kept key a since", "no command"),
    ("kept key a since 1", "no command"),
    ("kept key a since 1.01", "no command"),
    ("kept key a since 1.1 ", "no command"),
    ("kept key a since 1.1 since 1.1", "no command"),
    ("kept key a/b since 1.1", "no command"),
    ("kept key since 1.1", "no command"),
    ("kept 1.1 since 1.1", "no command"),
    ("kept since 1.1", "no command"),
];

#[test]
fn tells_why_a_line_with_a_position_is_bad(rt: HostRuntime) {
    for (line, why) in &BAD {
        assert_bad(&rt, rt.alloc(), *line, *why);
    }
}
