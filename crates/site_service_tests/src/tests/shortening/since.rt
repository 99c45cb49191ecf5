//! Keys over a log that has let go of commits up to 1.2, looked for since a position.

use super::*;

/// Questions, and what is told: of a key that is held the position makes no difference; each other one
/// is none where the position is at what was let go or behind it, and forgotten else.
const TOLD: [(&str, &str); 12] = [
    (
        "kept key k since 0.4294967295",
        "kept key k since 0.4294967295 -> forgotten",
    ),
    ("kept key k since 1.0", "kept key k since 1.0 -> forgotten"),
    ("kept key k since 1.1", "kept key k since 1.1 -> forgotten"),
    ("kept key k since 1.2", "kept key k since 1.2 -> no"),
    ("kept key k since 1.3", "kept key k since 1.3 -> no"),
    ("kept key k since 2.0", "kept key k since 2.0 -> no"),
    ("kept key k", "kept key k -> forgotten"),
    ("kept key kk since 0.0", "kept key kk since 0.0 -> 1.3"),
    ("kept key kk since 2.0", "kept key kk since 2.0 -> 1.3"),
    ("kept key since", "kept key since -> forgotten"),
    (
        "kept key since since 1.1",
        "kept key since since 1.1 -> forgotten",
    ),
    ("kept key since since 1.2", "kept key since since 1.2 -> no"),
];

/// What is refused leaves the transaction open, and is no key of a commit.
const ORDERED: [(&str, &str); 17] = [
    ("0 begin", "0 begin -> begun 2.1"),
    ("0 escrow 2.1 stock -1", "0 escrow 2.1 stock -1 -> granted"),
    ("0 commit 2.1 key kk since 1.2", "kept key kk -> 1.3"),
    (
        "0 commit 2.1 key k since 0.4294967295",
        "kept key k -> forgotten",
    ),
    ("0 commit 2.1 key k since 1.1", "kept key k -> forgotten"),
    ("0 commit 2.1 key n", "kept key n -> forgotten"),
    ("0 commit 2.1 key n since 1.1", "kept key n -> forgotten"),
    ("kept 2.1", "kept 2.1 -> no"),
    ("kept key n since 1.2", "kept key n since 1.2 -> no"),
    ("0 commit 2.1 key n since 1.2", "0 commit 2.1 -> committed"),
    ("kept 2.1", "kept 2.1 -> yes"),
    ("kept key n since 1.1", "kept key n since 1.1 -> 2.1"),
    ("kept key k since 1.1", "kept key k since 1.1 -> forgotten"),
    ("0 begin", "0 begin -> begun 2.2"),
    ("0 commit 2.2 key n since 1.2", "kept key n -> 2.1"),
    ("0 abort 2.2", "0 abort 2.2 -> aborted"),
    ("0 share stock", "0 share stock -> share 14 36"),
];

// A retry of a commit that may be gone isn't carried out; one that is new is, and once.
#[test]
fn a_key_that_may_be_gone_sells_nothing(rt: HostRuntime) {
    let alloc = rt.alloc();
    let identity = identity(&rt, alloc);
    let mut files = files(&rt, alloc, OLD);
    let mut service = serve_over(&rt, alloc, &identity, &mut files);
    assert_eq!(&rt; shorten(&rt, alloc, &mut service, RESTARTED), Ok(()));
    assert_answers(&rt, alloc, &mut service, &TOLD);
    assert_answers(&rt, alloc, &mut service, &ORDERED);
    drop(service);
    assert_holds(&rt, alloc, &files, &[SHORTER, NEXT]);
}

/// A position since which a key is looked for, or none; and what the call tells of one that isn't held.
const CALLED: [(Option<(u32, u32)>, KeyAnswer); 7] = [
    (None, KeyAnswer::Forgotten),
    (Some((0, 9)), KeyAnswer::Forgotten),
    (Some((1, 1)), KeyAnswer::Forgotten),
    (Some((1, 2)), KeyAnswer::No),
    (Some((1, 9)), KeyAnswer::No),
    (Some((2, 0)), KeyAnswer::No),
    (Some((2, 9)), KeyAnswer::No),
];

fn position(of: Option<(u32, u32)>) -> Option<TxnId> {
    let (epoch, number) = of?;
    Some(TxnId { epoch, number })
}

#[test]
fn the_call_looks_since_a_position(rt: HostRuntime) {
    let alloc = rt.alloc();
    let identity = identity(&rt, alloc);
    let mut files = files(&rt, alloc, OLD);
    let mut service = serve_over(&rt, alloc, &identity, &mut files);
    assert_eq!(&rt; shorten(&rt, alloc, &mut service, RESTARTED), Ok(()));
    let gone = read_key(b"k").expect(&rt, "a key");
    for (since, wanted) in &CALLED {
        let told = service.kept_key(alloc, gone, position(*since));
        assert_eq!(&rt; told, Ok(*wanted), "since {since:?}");
    }
}
