use super::{identity, joined};
use held_logs::{HeldFault, HeldLog, read_held};
use std::alloc::Global;
use std::process::Abort;

/// The name of the log of version 1: 93 bytes.
const PLAIN: &str = "escrow log 1
number 1
world 145aa8408cfe4e170aa9ab522fe2e8b9b4c23917b59218cbdada91cf44b1183a
";

/// The name of the log of version 2.
const SEALED: &str = "escrow log 2
number 1
world 145aa8408cfe4e170aa9ab522fe2e8b9b4c23917b59218cbdada91cf44b1183a
head 0 0
sum 00001dc200065693
";

/// A head of the log of version 3.
const SHORTENED: &str = "escrow log 3
number 1
world 145aa8408cfe4e170aa9ab522fe2e8b9b4c23917b59218cbdada91cf44b1183a
head 16000123 1000000
horizon 7 1000431 1000012 1000398
sum 0000281d000cd84c
";

/// Two batches of a log from its beginning.
const BEGUN: &str = "R 1
sum 000000ad00000214
K 1 1 6F726465722D3137
C 1 1 0 -15
G 0 0 l 5
sum 000008420000c4ee
";

/// Three batches behind what is gone.
const BEHIND: &str = "S 7 1 12 33 g 0 0 l 5
C 7 1000432 0 -3
sum 0000070400009163
R 8
sum 000000b400000222
K 8 1 6F726465722D3137
C 8 1 0 -2
sum 0000064a0000748a
";

/// The end of a world.
const END: &str = "X
sum 00000062000000ba
";

fn read<'a>(rt: &impl Abort, alloc: Global, bytes: &'a [u8]) -> Result<HeldLog<'a>, HeldFault> {
    read_held(alloc, &identity(rt, alloc), bytes)
}

/// The file of these texts holds these records, and tells nothing to be gone.
fn assert_whole(rt: &impl Abort, alloc: Global, texts: &[&str], records: &str) {
    let file = joined(rt, alloc, texts);
    let held = read(rt, alloc, file.as_slice()).ok().expect(rt, "a log");
    assert!(rt; held.gone.is_none());
    assert_eq!(rt; str::from_utf8(held.records.as_slice()), Ok(records));
}

/// The file of these texts holds these records, and its head tells what is gone of them.
fn assert_short(rt: &impl Abort, alloc: Global, texts: &[&str], records: &str) {
    let file = joined(rt, alloc, texts);
    let held = read(rt, alloc, file.as_slice()).ok().expect(rt, "a log");
    let gone = held.gone.expect(rt, "a head");
    assert_eq!(rt; (gone.bytes, gone.records), (16_000_123, 1_000_000));
    assert_eq!(rt;
        (gone.horizon.epoch(), gone.horizon.number()),
        (7, 1_000_431)
    );
    assert_eq!(rt; gone.horizon.open_then(), &[1_000_012u32, 1_000_398][..]);
    assert_eq!(rt; str::from_utf8(held.records.as_slice()), Ok(records));
}

/// Why the file of these texts is no log of the site.
fn fault(rt: &impl Abort, alloc: Global, texts: &[&str]) -> Option<HeldFault> {
    let file = joined(rt, alloc, texts);
    match read(rt, alloc, file.as_slice()) {
        Ok(_) => None,
        Err(fault) => Some(fault),
    }
}

#[test]
fn version_1_is_all_behind_its_name(rt: HostRuntime) {
    let alloc = rt.alloc();
    assert_whole(&rt, alloc, &[PLAIN], "");
    let lines = "R 1\nC 1 1 0 -15\n";
    assert_whole(&rt, alloc, &[PLAIN, lines], lines);
    let noted = "R 1\nK 1 1 6F726465722D3137\nC 1 1 0 -15\nC 1 2";
    assert_whole(&rt, alloc, &[PLAIN, noted], "R 1\nC 1 1 0 -15\nC 1 2");
    // A line with a `K` that is no note stays.
    assert_whole(&rt, alloc, &[PLAIN, "K 1\nR 1\n"], "K 1\nR 1\n");
}

#[test]
fn version_2_is_what_sums_close(rt: HostRuntime) {
    let alloc = rt.alloc();
    let records = "R 1\nC 1 1 0 -15\nG 0 0 l 5\n";
    assert_whole(&rt, alloc, &[SEALED], "");
    assert_whole(&rt, alloc, &[SEALED, BEGUN], records);
    assert_whole(&rt, alloc, &[SEALED, BEGUN, END], records);
    assert_whole(&rt, alloc, &[SEALED, BEGUN, "C 1 2 0 -1\nsum 0"], records);
    assert_whole(&rt, alloc, &[SEALED, BEGUN, "C 1 2"], records);
}

#[test]
fn version_3_is_what_its_head_tells_and_what_sums_close(rt: HostRuntime) {
    let alloc = rt.alloc();
    let records = "S 7 1 12 33 g 0 0 l 5\nC 7 1000432 0 -3\nR 8\nC 8 1 0 -2\n";
    assert_short(&rt, alloc, &[SHORTENED], "");
    assert_short(&rt, alloc, &[SHORTENED, BEHIND], records);
    assert_short(&rt, alloc, &[SHORTENED, BEHIND, END], records);
    assert_short(&rt, alloc, &[SHORTENED, BEHIND, "R 9\nsum 000"], records);
    assert_short(&rt, alloc, &[SHORTENED, BEHIND, "R"], records);
    // What begins there is for `replay_held` to tell.
    assert_short(
        &rt,
        alloc,
        &[SHORTENED, "R 8\nsum 000000b400000222\n"],
        "R 8\n",
    );
}

/// Lines of a head of version 3, each in place of its own, and what it is then.
const CHANGED: [(&str, &str, HeldFault); 16] = [
    ("escrow log 3\n", "escrow log 4\n", HeldFault::Other),
    ("escrow log 3\n", "escrow log 2\n", HeldFault::Other),
    ("number 1\n", "number 0\n", HeldFault::Other),
    ("number 1\n", "number 01\n", HeldFault::Other),
    ("world 1", "world 2", HeldFault::Other),
    ("world 1", "World 1", HeldFault::Other),
    ("head 16000123 1", "head 16000124 1", HeldFault::Changed),
    ("head 16000123 1", "head 16000123 2", HeldFault::Changed),
    ("head 16000123 1", "head 16000123 1 1", HeldFault::Changed),
    ("head 16000123 1000000\n", "", HeldFault::Changed),
    ("horizon 7", "horizon 8", HeldFault::Changed),
    ("1000431", "1000430", HeldFault::Changed),
    ("1000012 1000398", "1000012", HeldFault::Changed),
    (
        "horizon 7 1000431 1000012 1000398\n",
        "",
        HeldFault::Changed,
    ),
    (
        "sum 0000281d000cd84c\n",
        "sum 0000281d000cd84d\n",
        HeldFault::Changed,
    ),
    (
        "sum 0000281d000cd84c\n",
        "sum 0000281d000cd84c",
        HeldFault::Changed,
    ),
];

#[test]
fn version_3_with_a_changed_head_is_refused(rt: HostRuntime) {
    let alloc = rt.alloc();
    for (old, new, why) in &CHANGED {
        let (before, behind) = SHORTENED.split_once(*old).expect(&rt, *old);
        assert_eq!(&rt;
            fault(&rt, alloc, &[before, *new, behind]),
            Some(*why),
            "{old}"
        );
    }
    // Its version 1 has no such lines, and takes them for records.
    let (_, behind) = SHORTENED.split_once("1183a\n").expect(&rt, "a head");
    assert_whole(&rt, alloc, &[PLAIN, behind], behind);
    let (site, behind) = SHORTENED.split_once("head").expect(&rt, "a head");
    assert_eq!(&rt; fault(&rt, alloc, &[site]), Some(HeldFault::Changed));
    assert_eq!(&rt;
        fault(&rt, alloc, &[site, BEHIND]),
        Some(HeldFault::Changed)
    );
    assert_eq!(&rt; fault(&rt, alloc, &[behind]), Some(HeldFault::Other));
}

#[test]
fn versions_1_and_2_with_another_name_are_refused(rt: HostRuntime) {
    let alloc = rt.alloc();
    let other = Some(HeldFault::Other);
    assert_eq!(&rt; fault(&rt, alloc, &[""]), other);
    let (short, _) = PLAIN.split_once("1183a").expect(&rt, "a name");
    assert_eq!(&rt; fault(&rt, alloc, &[short, "1183a"]), other);
    for (old, new) in &[
        ("1\n", "5\n"),
        ("number 1", "number 0"),
        ("world 1", "world 2"),
    ] {
        let (before, behind) = PLAIN.split_once(*old).expect(&rt, *old);
        assert_eq!(&rt;
            fault(&rt, alloc, &[before, *new, behind, "R 1\n"]),
            other,
            "{old}"
        );
    }
    for (old, new) in &[
        ("2\n", "5\n"),
        ("number 1", "number 0"),
        ("world 1", "world 2"),
        ("head 0 0", "head 0 1"),
        ("sum 00001dc200065693", "sum 00001dc200065694"),
    ] {
        let (before, behind) = SEALED.split_once(*old).expect(&rt, *old);
        assert_eq!(&rt;
            fault(&rt, alloc, &[before, *new, behind, BEGUN]),
            other,
            "{old}"
        );
    }
}

/// The fault that a batch is damaged which begins at this line.
fn damaged(line: u64) -> Option<HeldFault> {
    Some(HeldFault::Damaged { line })
}

// The name of version 2 has 5 lines, the head of version 3 has 6; the batches above begin 0 and 2, and
// 0, 3 and 5 lines behind them.
#[test]
fn damage_is_told_by_the_line_of_the_file(rt: HostRuntime) {
    let alloc = rt.alloc();
    let one = BEGUN.split_once("R 1").expect(&rt, "a batch").1;
    assert_eq!(&rt; fault(&rt, alloc, &[SEALED, "R 2", one]), damaged(6));
    let (before, behind) = BEGUN.split_once("-15").expect(&rt, "a batch");
    assert_eq!(&rt;
        fault(&rt, alloc, &[SEALED, before, "-16", behind]),
        damaged(8)
    );
    assert_eq!(&rt;
        fault(&rt, alloc, &[SEALED, BEGUN, "R 2\nsum 1"]),
        damaged(12)
    );
    let (before, behind) = BEHIND.split_once("12 33").expect(&rt, "a batch");
    assert_eq!(&rt;
        fault(&rt, alloc, &[SHORTENED, before, "12 34", behind]),
        damaged(7)
    );
    let (before, behind) = BEHIND.split_once("R 8").expect(&rt, "a batch");
    assert_eq!(&rt;
        fault(&rt, alloc, &[SHORTENED, before, "R 9", behind]),
        damaged(10)
    );
    let (before, behind) = BEHIND.split_once("0000748a").expect(&rt, "a batch");
    assert_eq!(&rt;
        fault(&rt, alloc, &[SHORTENED, before, "0000748b", behind]),
        damaged(12)
    );
    assert_eq!(&rt;
        fault(&rt, alloc, &[SHORTENED, BEHIND, END, "R 9\n"]),
        damaged(15)
    );
}
