//! What a call that fails leaves in the file: each call of an opening, and of an append and a cut,
//! fails in its turn.

use super::*;

/// A file of two lines, of which the first is safe.
fn half_safe(rt: &impl Abort, alloc: Global) -> MemoryFile {
    let mut file = file_of(rt, alloc, b"ab\n");
    assert!(rt; file.sync() == Ok(()));
    assert!(rt; file.write(b"cd\n") == Ok(3));
    file
}

/// The same, of which a call fails.
fn failing(rt: &impl Abort, alloc: Global, call: FileCall, good: u64) -> MemoryFile {
    let mut file = half_safe(rt, alloc);
    file.arm(FileMishap { call, good });
    file
}

/// What a file holds, what of it is safe, and the fewest bytes that a cut of it has left.
type Left = (&'static str, &'static str, usize);

/// Whether that is left of the file.
fn is_left(file: &MemoryFile, left: &Left) -> bool {
    let (bytes, safe, least) = *left;
    file.bytes() == bytes.as_bytes() && file.safe() == safe.as_bytes() && file.least() == least
}

/// The call that fails at the opening, and what the file is that is handed back.
type Refused = (FileCall, u64, MediumFault, Left);

const REFUSED: [Refused; 3] = [
    (
        FileCall::Sync,
        0,
        MediumFault::Device,
        ("ab\ncd\n", "ab\n", 3),
    ),
    (
        FileCall::Read,
        0,
        MediumFault::Device,
        ("ab\ncd\n", "ab\ncd\n", 3),
    ),
    (
        FileCall::Read,
        1,
        MediumFault::Device,
        ("ab\ncd\n", "ab\ncd\n", 3),
    ),
];

#[test]
fn a_file_that_is_refused_is_handed_back(rt: HostRuntime) {
    for row in &REFUSED {
        let (call, good, wanted, left) = *row;
        let file = failing(&rt, rt.alloc(), call, good);
        let (fault, back) = FileMedium::new(rt.alloc(), file, Durability::EachAppend)
            .err()
            .expect(&rt, "a fault");
        assert!(&rt; fault == wanted);
        assert!(&rt; is_left(&back, &left));
    }
}

/// What is asked of a medium over the two lines, of which the opening makes both safe.
#[derive(Clone, Copy)]
enum Call {
    Append(&'static str),
    Cut(usize),
    Sync,
}

/// What is asked for; the durability; the call that fails, how many go well before it; and what the
/// file is then.
type Row = (Call, Durability, FileCall, u64, Left);

const EACH: Durability = Durability::EachAppend;

const LATER: Durability = Durability::Caller;

// The first sync is that of the opening.
const ROWS: [Row; 8] = [
    (
        Call::Append("e\n"),
        EACH,
        FileCall::Write,
        0,
        ("ab\ncd\n", "ab\ncd\n", 3),
    ),
    (
        Call::Append("e\n"),
        EACH,
        FileCall::Sync,
        1,
        ("ab\ncd\ne\n", "ab\ncd\n", 3),
    ),
    (
        Call::Append("e\n"),
        LATER,
        FileCall::Write,
        0,
        ("ab\ncd\n", "ab\ncd\n", 3),
    ),
    (
        Call::Cut(2),
        EACH,
        FileCall::Cut,
        0,
        ("ab\ncd\n", "ab\ncd\n", 3),
    ),
    (Call::Cut(2), EACH, FileCall::Sync, 1, ("ab", "ab", 2)),
    (
        Call::Cut(2),
        LATER,
        FileCall::Cut,
        0,
        ("ab\ncd\n", "ab\ncd\n", 3),
    ),
    (
        Call::Sync,
        EACH,
        FileCall::Sync,
        1,
        ("ab\ncd\n", "ab\ncd\n", 3),
    ),
    (
        Call::Sync,
        LATER,
        FileCall::Sync,
        1,
        ("ab\ncd\n", "ab\ncd\n", 3),
    ),
];

/// Whether the device fails at that.
fn fails(alloc: Global, medium: &mut FileMedium<MemoryFile>, call: Call) -> bool {
    match call {
        Call::Append(piece) => fails_to_add(medium, piece),
        Call::Cut(kept) => cut_to(alloc, medium, kept) == Some(Err(Device)),
        Call::Sync => medium.sync() == Err(Device),
    }
}

#[test]
fn a_call_that_fails_takes_nothing_that_was_safe(rt: HostRuntime) {
    for row in &ROWS {
        let (call, durability, mishap, good, left) = *row;
        let file = failing(&rt, rt.alloc(), mishap, good);
        let mut medium = medium_over(&rt, rt.alloc(), file, durability);
        assert!(&rt; fails(rt.alloc(), &mut medium, call));
        assert!(&rt; is_left(medium.file(), &left));
    }
}

/// Whether the file is cut to so many bytes, of which there are as many.
fn is_cut(file: &mut MemoryFile, kept: usize) -> bool {
    kept <= file.bytes().len() && file.cut(kept as u64) == Ok(())
}

/// Cuts of a file, and the fewest bytes that one has left.
fn cuts(file: &mut MemoryFile) -> [bool; 7] {
    [
        file.least() == 3,
        is_cut(file, 5),
        file.least() == 3,
        is_cut(file, 2),
        file.least() == 2,
        file.write(b"xyz") == Ok(3),
        file.least() == 2,
    ]
}

#[test]
fn a_file_tells_what_its_cuts_left(rt: HostRuntime) {
    let mut file = half_safe(&rt, rt.alloc());
    assert_eq!(&rt; cuts(&mut file), [true; 7]);
}
