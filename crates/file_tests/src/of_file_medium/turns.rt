//! Each write, sync and cut of a small run fails in turn, and what is safe is opened anew.

use super::*;

/// What a run asks of a medium.
#[derive(Clone, Copy)]
enum Asked {
    Append(&'static str),
    Cut(usize),
}

/// The run, over an empty file whose writes take at most two bytes: writes 0 and 1, sync 1, writes
/// 2 and 3, sync 2, cut 0, sync 3, write 4, sync 4. Sync 0 is that of the opening.
const RUN: [Asked; 4] = [
    Asked::Append("ab\n"),
    Asked::Append("cd\n"),
    Asked::Cut(3),
    Asked::Append("e\n"),
];

/// The call that fails; how many are answered before one isn't; and what is safe then, which is
/// found by who opens it.
type Row = (FileCall, u64, usize, &'static str);

const ROWS: [Row; 10] = [
    (FileCall::Write, 0, 0, ""),
    (FileCall::Write, 1, 0, "ab"),
    (FileCall::Write, 2, 1, "ab\n"),
    (FileCall::Write, 3, 1, "ab\ncd"),
    (FileCall::Write, 4, 3, "ab\n"),
    (FileCall::Sync, 1, 0, ""),
    (FileCall::Sync, 2, 1, "ab\n"),
    (FileCall::Sync, 3, 2, "ab\n"),
    (FileCall::Sync, 4, 3, "ab\n"),
    (FileCall::Cut, 0, 2, "ab\ncd\n"),
];

/// How many of the calls go well, from the first on.
fn count_well(alloc: Global, medium: &mut FileMedium<MemoryFile>) -> usize {
    for (at, asked) in RUN.iter().enumerate() {
        let answered = match *asked {
            Asked::Append(piece) => add(medium, piece),
            Asked::Cut(kept) => cut_to(alloc, medium, kept),
        };
        if answered != Some(Ok(())) {
            return at;
        }
    }
    RUN.len()
}

/// An empty file of short writes, of which one call fails.
fn file_under(alloc: Global, call: FileCall, good: u64) -> MemoryFile {
    let mut file = MemoryFile::new(alloc, Vec::new(alloc));
    file.limit_writes(2);
    file.arm(FileMishap { call, good });
    file
}

/// Tests that a medium over a file of these bytes tells these.
fn assert_found(rt: &impl Abort, alloc: Global, bytes: &[u8], wanted: &str) {
    let file = file_of(rt, alloc, bytes);
    let mut medium = medium_over(rt, alloc, file, Durability::EachAppend);
    assert!(rt; is_held(alloc, &mut medium, wanted));
}

/// Tests how many calls of the run go well, and what is found then.
fn assert_row(rt: &impl Abort, alloc: Global, row: &Row) {
    let (call, good, well, wanted) = *row;
    let file = file_under(alloc, call, good);
    let mut medium = medium_over(rt, alloc, file, Durability::EachAppend);
    assert_eq!(rt; count_well(alloc, &mut medium), well);
    assert_found(rt, alloc, medium.file().safe(), wanted);
}

#[test]
fn each_call_fails_in_turn(rt: HostRuntime) {
    for row in &ROWS {
        assert_row(&rt, rt.alloc(), row);
    }
}

/// Whether a medium is opened where the first such call fails.
fn is_opened(alloc: Global, call: FileCall) -> bool {
    FileMedium::new(alloc, file_under(alloc, call, 0), Durability::EachAppend).is_ok()
}

#[test]
fn an_opening_syncs_and_reads(rt: HostRuntime) {
    let opened = [
        is_opened(rt.alloc(), FileCall::Sync),
        is_opened(rt.alloc(), FileCall::Read),
        is_opened(rt.alloc(), FileCall::Write),
    ];
    assert_eq!(rt; opened, [false, false, true]);
}
