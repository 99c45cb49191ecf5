mod pieces;

ghost use Rattle.std.specs.Prelude.{◌≡◌, ◌<◌, ◌≤◌, IfSome};
ghost use Rattle.field_bounds.specs.Owed.{max_epoch};
ghost use Rattle.kept_records.specs.Text.{IsRecord};
ghost use Rattle.kept_records.specs.Keeping.{IsKept};

use field_bounds::{Escrow, FieldNo, Kind, SiteNo, TxnId};
use kept_records::*;
use std::alloc::Global;
use std::process::Abort;

/// Lines that are no records, each for one reason.
pub(crate) const NO_RECORDS: [&str; 78] = [
    "\n",
    " \n",
    "r 1\n",
    "X 1\n",
    "S 1\n",
    "T 1\n",
    "RR 1\n",
    "R\n",
    "R \n",
    "R 1 \n",
    " R 1\n",
    "R  1\n",
    "R\t1\n",
    "R 1\r\n",
    "R 1 1\n",
    "R 01\n",
    "R +1\n",
    "R 0\n",
    "R 1000000001\n",
    "R 18446744073709551617\n",
    "C 0 1\n",
    "C 0 1 0\n",
    "C 0 1 0 1 0\n",
    "C 0 0 0 1\n",
    "C 1000000001 1 0 1\n",
    "C 0 1000000001 0 1\n",
    "C 0 1 65536 1\n",
    "C 0 1 0 0\n",
    "C 0 1 0 -0\n",
    "C 0 1 0 -020\n",
    "C 0 1 0 2000000000000001\n",
    "C 0 1 0 -2000000000000001\n",
    "C 0 1 0 1 0 1 0 1 0 1 0 1 0 1 0 1 0 1 0 1 0 1 0 1 0 1 0 1 0 1 0 1 0 1 0 1\n",
    "G 1 0 l 0\n",
    "G 1 0 l 1000000000000000001\n",
    "G 65536 0 l 5\n",
    "G 1 65536 l 5\n",
    "G 1 0 x 5\n",
    "A 1 0 l\n",
    "A 1 0 l 5 6\n",
    "T\n",
    "T 0 l\n",
    "T 0 l 0\n",
    "T 0 l 05\n",
    "T 0 l -5\n",
    "T 0 l 2000000000000001\n",
    "T 65536 l 5\n",
    "T 0 x 5\n",
    "T 0 l 5 6\n",
    "T 1 0 l 5\n",
    "S 0 0\n",
    "S 0 1 20\n",
    "S 1000000001 1 20 30\n",
    "S 0 1 2000000000000000 1\n",
    "S 0 2 20 30\n",
    "S 0 257 20 30\n",
    "S 0 1 20 30 \n",
    "S 0 1 20 30 40\n",
    "S 0 1 20 30 g 1 0 l 0\n",
    "S 0 1 20 30 g 1 0 l 1000000000000000001\n",
    "S 0 1 20 30 g 1 0 l\n",
    "S 0 1 20 30 g 1 0 l 5 g 1 0 l 6\n",
    "S 0 1 20 30 g 1 0 r 5 g 1 0 l 6\n",
    "S 0 1 20 30 g 1 1 l 5 g 1 0 r 6\n",
    "S 0 1 20 30 g 2 0 l 5 g 1 1 r 6\n",
    "S 0 1 20 30 a 1 0 l 5 g 1 0 l 5\n",
    "S 0 1 20 30 a 2 0 l 5 a 1 0 l 5\n",
    "S 0 1 20 30 a 1 65536 l 5\n",
    "S 0 1 20 30 a 65536 0 l 5\n",
    "S 0 1 20 30 t 0 l 0\n",
    "S 0 1 20 30 t 0 l 2000000000000001\n",
    "S 0 1 20 30 t 0 l 5 g 1 0 l 5\n",
    "S 0 1 20 30 t 0 l 5 a 1 0 l 5\n",
    "S 0 1 20 30 t 0 l 5 t 0 l 6\n",
    "S 0 1 20 30 t 0 r 5 t 0 l 6\n",
    "S 0 1 20 30 t 1 0 l 5\n",
    "S 0 1 20 30 t 0 l\n",
    "S 0 1 20 30 u 0 l 5\n",
];

/// Lines at the ends of the ranges.
pub(crate) const RECORDS: [&str; 13] = [
    "C 1000000000 1000000000 65535 2000000000000000\n",
    "C 0 1 0 1 0 1 0 1 0 1 0 1 0 1 0 1 0 1 0 1 0 1 0 1 0 1 0 1 0 1 0 1 0 1\n",
    "G 0 0 l 1\n",
    "A 65535 65535 r 1000000000000000000\n",
    "T 0 l 1\n",
    "T 65535 r 2000000000000000\n",
    "R 1\n",
    "R 1000000000\n",
    "S 0 1 20 30\n",
    "S 0 1 0 0\n",
    "S 0 2 20 30 0 0 a 1 0 l 4 t 1 r 7\n",
    "S 1000000000 1 0 2000000000000000 g 1 0 l 5 g 1 0 r 1 g 2 0 l 1 a 1 0 l 5 t 0 l 5 t 0 r 1 t 1 l 2000000000000000\n",
    "S 0 1 20 30 g 65535 65535 r 1000000000000000000 a 65535 65535 r 1000000000000000000 t 65535 r 1\n",
];

fn is_text(text: Option<Vec<u8>>, wanted: &str) -> bool {
    match text {
        Some(bytes) => bytes.as_slice() == wanted.as_bytes(),
        None => false,
    }
}

fn commit_text(alloc: Global) -> Option<Vec<u8>> {
    let lowered = Escrow {
        field: FieldNo(0),
        change: -20,
    };
    let txn = TxnId {
        epoch: 0,
        number: 1,
    };
    let escrows = Escrows::new(vec![in alloc; lowered].ok()?);
    write_record(alloc, &Record::Commit { txn, escrows }).ok()
}

const GIFT: Record = Record::Gift {
    to: SiteNo(1),
    field: FieldNo(0),
    kind: Kind::Lower,
    total: 5,
};

fn gift_text(alloc: Global) -> Option<Vec<u8>> {
    write_record(alloc, &GIFT).ok()
}

fn accept_text(alloc: Global) -> Option<Vec<u8>> {
    let accept = Record::Accept {
        from: SiteNo(15),
        field: FieldNo(63),
        kind: Kind::Raise,
        total: 1_000_000_000_000_000_000,
    };
    write_record(alloc, &accept).ok()
}

fn tighten_text(alloc: Global) -> Option<Vec<u8>> {
    let tighten = Record::Tighten {
        field: FieldNo(0),
        kind: Kind::Lower,
        total: 5,
    };
    write_record(alloc, &tighten).ok()
}

/// The first restart.
const RESTART: Record = Record::Restart { epoch: 1 };

fn restart_text(alloc: Global) -> Option<Vec<u8>> {
    write_record(alloc, &RESTART).ok()
}

#[test]
fn texts(rt: HostRuntime) {
    let alloc = rt.alloc();
    let written = [
        is_text(commit_text(alloc), "C 0 1 0 -20\n"),
        is_text(gift_text(alloc), "G 1 0 l 5\n"),
        is_text(accept_text(alloc), "A 15 63 r 1000000000000000000\n"),
        is_text(tighten_text(alloc), "T 0 l 5\n"),
        is_text(restart_text(alloc), "R 1\n"),
    ];
    assert_eq!(rt; written, [true, true, true, true, true]);
}

pub(crate) fn bytes_of(alloc: Global, text: &str) -> Option<Vec<u8>> {
    Vec::from_slice(alloc, text.as_bytes()).ok()
}

/// How many records are read, and how many bytes they take up.
fn read_lengths(alloc: Global, bytes: &[u8]) -> Option<(usize, usize)> {
    let (records, length) = read_records(alloc, bytes).ok()?;
    Some((records.len(), length))
}

/// The line that is no record, if one is named.
fn bad_line(alloc: Global, text: &str) -> Option<u64> {
    match read_records(alloc, text.as_bytes()) {
        Err(RecordFault::Line(line)) => Some(line),
        _ => None,
    }
}

#[test]
fn lines_that_are_no_records(rt: HostRuntime) {
    for line in &NO_RECORDS {
        assert_eq!(rt; bad_line(rt.alloc(), *line), Some(1));
    }
    assert_eq!(rt; bad_line(rt.alloc(), "R 1\nR 2\nR 03\nR 4"), Some(3));
}

/// Whether a text begins with a record, or with a line that is none, or with no line; and how many
/// bytes are left behind the record.
fn handed_out(alloc: Global, text: &str) -> Option<(Option<bool>, usize)> {
    let mut lines = LentRecords::new(alloc, text.as_bytes());
    let told = if lines.next_common().is_some() {
        Some(true)
    } else {
        match lines.next_line(alloc).ok()? {
            RecordLine::Record(_) => Some(true),
            RecordLine::NoRecord => Some(false),
            RecordLine::End => None,
        }
    };
    Some((told, lines.left()))
}

#[test]
fn lines_handed_out(rt: HostRuntime) {
    for line in &NO_RECORDS {
        assert_eq!(rt;
            handed_out(rt.alloc(), *line),
            Some((Some(false), line.len()))
        );
    }
    for line in &RECORDS {
        assert_eq!(rt; handed_out(rt.alloc(), *line), Some((Some(true), 0)));
    }
    assert_eq!(rt; handed_out(rt.alloc(), "R 1\nR 2"), Some((Some(true), 3)));
    assert_eq!(rt; handed_out(rt.alloc(), "R 1"), Some((None, 3)));
}

#[test]
fn lines_at_the_ends_of_the_ranges(rt: HostRuntime) {
    for line in &RECORDS {
        assert_eq!(rt;
            read_lengths(rt.alloc(), line.as_bytes()),
            Some((1, line.len()))
        );
    }
}

/// Whether the records are the three that the test below writes.
fn are_three(records: &[Record]) -> bool {
    match records {
        [
            Record::Commit { txn, escrows },
            Record::Gift {
                to,
                field,
                kind,
                total,
            },
            Record::Restart { epoch },
        ] => {
            *txn == TxnId {
                epoch: 0,
                number: 1,
            } && escrows.as_slice().len() == 1
                && *to == SiteNo(1)
                && *field == FieldNo(0)
                && *kind == Kind::Lower
                && *total == 5
                && *epoch == 1
        }
        _ => false,
    }
}

/// Whether the bytes are read as those three records, of so many bytes.
fn reads_three(alloc: Global, bytes: &[u8], wanted: usize) -> bool {
    match read_records(alloc, bytes) {
        Ok((records, length)) => are_three(&records) && length == wanted,
        Err(_) => false,
    }
}

#[test]
fn three_records_and_a_torn_one(rt: HostRuntime) {
    let read = (
        reads_three(rt.alloc(), b"C 0 1 0 -20\nG 1 0 l 5\nR 1\nG 1 0 l 5", 26),
        reads_three(rt.alloc(), b"C 0 1 0 -20\nG 1 0 l 5\nR 1\n", 26),
    );
    assert_eq!(rt; read, (true, true));
}

/// Bytes, how many records are read of them, and how many bytes these take up.
const LENGTHS: [(&[u8], (usize, usize)); 4] = [
    (b"", (0, 0)),
    (b"\x00\xff  R 01", (0, 0)),
    (b"C 0 1 0 -20\n", (1, 12)),
    (b"T 0 l 5\n", (1, 8)),
];

#[test]
fn lengths(rt: HostRuntime) {
    for (bytes, lengths) in &LENGTHS {
        assert_eq!(rt; read_lengths(rt.alloc(), *bytes), Some(*lengths));
    }
}

/// The shortest front of a record, the record itself left out, that isn't read as no record.
fn first_front_read(alloc: Global, record: &[u8]) -> Option<usize> {
    for length in 0..record.len() {
        if read_lengths(alloc, &record[..length]) != Some((0, 0)) {
            return Some(length);
        }
    }
    None
}

#[test]
fn each_length_of_a_torn_record(rt: HostRuntime) {
    let alloc = rt.alloc();
    assert_eq!(rt; first_front_read(alloc, b"C 0 1 0 -20\n"), None);
    assert_eq!(rt; first_front_read(alloc, b"T 0 l 5\n"), None);
}

/// Whether the device took the piece, or None where memory was refused.
fn added<M: Medium>(medium: &mut M, piece: &[u8]) -> Option<bool> {
    medium.reserve(piece.len()).ok()?;
    Some(medium.append(piece).is_ok())
}

/// Whether the device cut, or None where there are no more bytes than are to be kept.
fn shortened<M: Medium>(alloc: Global, medium: &mut M, kept: usize) -> Option<bool> {
    let present = medium.read_all(alloc).ok()?.len();
    if present <= kept {
        return None;
    }
    Some(medium.cut(kept).is_ok())
}

fn holds<M: Medium>(alloc: Global, medium: &mut M, wanted: &str) -> bool {
    is_text(medium.read_all(alloc).ok(), wanted)
}

pub(crate) fn memory_of(alloc: Global, text: &str) -> Option<MemoryMedium> {
    Some(MemoryMedium::new(bytes_of(alloc, text)?))
}

pub(crate) fn torn_of(alloc: Global, text: &str) -> Option<TornMedium> {
    Some(TornMedium::new(bytes_of(alloc, text)?))
}

/// Whether the device cut all but four bytes, and the medium holds these.
fn cut_to_four<M: Medium>(alloc: Global, medium: &mut M, wanted: &str) -> (Option<bool>, bool) {
    (shortened(alloc, medium, 4), holds(alloc, medium, wanted))
}

/// A medium in memory grows and is cut, and never fails.
fn assert_memory(rt: &impl Abort, alloc: Global, medium: &mut MemoryMedium) {
    let grown = (added(medium, b"G 1 0"), holds(alloc, medium, "R 1\nG 1 0"));
    assert_eq!(rt; grown, (Some(true), true));
    let cut = (cut_to_four(alloc, medium, "R 1\n"), medium.failures());
    assert_eq!(rt; cut, ((Some(true), true), 0));
    assert!(rt; medium.bytes() == b"R 1\n".as_slice());
}

#[test]
fn memory_never_fails(rt: HostRuntime) {
    let mut medium = memory_of(rt.alloc(), "R 1\n").expect(&rt, "memory");
    assert_memory(&rt, rt.alloc(), &mut medium);
}

/// Whether the device took the piece though its append is torn after so many bytes, and the medium
/// holds these.
fn torn_append(
    alloc: Global,
    medium: &mut TornMedium,
    kept: u64,
    piece: &[u8],
    wanted: &str,
) -> (Option<bool>, bool) {
    medium.arm(Mishap::Append(kept));
    (added(medium, piece), holds(alloc, medium, wanted))
}

fn torn_appends(rt: &impl Abort, alloc: Global, medium: &mut TornMedium) {
    let torn = (
        torn_append(alloc, medium, 11, b"C 0 1 0 -20\n", "R 1\nC 0 1 0 -20"),
        added(medium, b"\n"),
    );
    assert_eq!(rt; torn, ((Some(false), true), Some(true)));
    let whole = torn_append(
        alloc,
        medium,
        18_446_744_073_709_551_615,
        b"R 2\n",
        "R 1\nC 0 1 0 -20\nR 2\n",
    );
    assert_eq!(rt; (whole, medium.failures()), ((Some(false), true), 2));
}

fn failed_cut(rt: &impl Abort, alloc: Global, medium: &mut TornMedium) {
    medium.arm(Mishap::Cut);
    let cuts = (
        cut_to_four(alloc, medium, "R 1\nC 0 1 0 -20\nR 2\n"),
        cut_to_four(alloc, medium, "R 1\n"),
    );
    assert_eq!(rt; cuts, ((Some(false), true), (Some(true), true)));
}

/// Whether a read meets a fault of the device.
fn read_fails<M: Medium>(alloc: Global, medium: &mut M) -> bool {
    matches!(medium.read_all(alloc), Err(MediumFault::Device))
}

fn failed_read(rt: &impl Abort, alloc: Global, medium: &mut TornMedium) {
    medium.arm(Mishap::Read);
    let read = (
        read_fails(alloc, medium),
        holds(alloc, medium, "R 1\n"),
        medium.failures(),
    );
    assert_eq!(rt; read, (true, true, 4));
}

#[test]
fn mishaps_strike_once(rt: HostRuntime) {
    let alloc = rt.alloc();
    let mut medium = torn_of(alloc, "R 1\n").expect(&rt, "memory");
    torn_appends(&rt, alloc, &mut medium);
    failed_cut(&rt, alloc, &mut medium);
    failed_read(&rt, alloc, &mut medium);
}

/// How many records stand in front of the first line that is none, how many bytes they take up, and
/// that line.
fn front_of(alloc: Global, text: &str) -> Option<(usize, usize, Option<u64>)> {
    let front = read_front(alloc, text.as_bytes()).ok()?;
    Some((front.records.len(), front.length, front.bad_line))
}

const FRONTS: [(&str, (usize, usize, Option<u64>)); 4] = [
    ("R 1\nR 12\nR 03\nR 4\n", (2, 9, Some(3))),
    ("R 03\nR 4\n", (0, 0, Some(1))),
    ("R 1\nR 12\nR 03", (2, 9, None)),
    ("", (0, 0, None)),
];

#[test]
fn fronts(rt: HostRuntime) {
    for (text, front) in &FRONTS {
        let found = (*text, front_of(rt.alloc(), *text));
        assert_eq!(rt; found, (*text, Some(*front)));
    }
}

/// Whether a log starts with a record that is no restart's.
fn starts_plain(alloc: Global, text: &str) -> Option<bool> {
    let (records, _) = read_records(alloc, text.as_bytes()).ok()?;
    Some(starts_with_no_restart(&records))
}

/// Logs, and whether they start with a record that is no restart's.
const STARTS: [(&str, bool); 6] = [
    ("C 0 1 0 -20\nR 1\nG 1 0 l 5\n", true),
    ("R 1\nG 1 0 l 5\n", false),
    ("G 1 0 l 5\n", true),
    ("T 0 l 5\nR 1\n", true),
    ("R 1\n", false),
    ("", false),
];

#[test]
fn logs_that_start_with_no_restart(rt: HostRuntime) {
    for (text, plain) in &STARTS {
        let found = (*text, starts_plain(rt.alloc(), *text));
        assert_eq!(rt; found, (*text, Some(*plain)));
    }
}

/// The text's bytes, or None where they are no log.
pub(crate) fn log_of(alloc: Global, text: &str) -> Option<Vec<u8>>
    ensures { IfSome result (λ bytes. IsKept bytes.items) }
{
    let bytes = bytes_of(alloc, text)?;
    match read_records(alloc, &bytes) {
        Ok(_) => Some(bytes),
        Err(_) => None,
    }
}

/// How many records the medium holds, how many bytes they take up, and how many there are.
fn log_lengths<M: Medium>(
    alloc: Global,
    medium: &mut M,
) -> Result<(usize, usize, usize), MediumFault>
    requires log { IsKept (M.bytes medium.old) }
    ensures bytes { M.bytes medium.new ≡ M.bytes medium.old }
{
    let read = read_back(alloc, medium, 0)?;
    Ok((read.behind.len(), read.whole, read.present))
}

#[test]
fn a_log_is_read(rt: HostRuntime) {
    let alloc = rt.alloc();
    let bytes = log_of(alloc, "C 0 1 0 -20\nG 1 0").expect(&rt, "a log");
    let mut medium = MemoryMedium::new(bytes);
    let found = (
        log_lengths(alloc, &mut medium),
        holds(alloc, &mut medium, "C 0 1 0 -20\nG 1 0"),
    );
    assert_eq!(rt; found, (Ok((1, 12, 17)), true));
}

#[test]
fn a_log_whose_device_fails_is_not_read(rt: HostRuntime) {
    let alloc = rt.alloc();
    let bytes = log_of(alloc, "R 1\n").expect(&rt, "a log");
    let mut medium = TornMedium::new(bytes);
    medium.arm(Mishap::Read);
    let first = log_lengths(alloc, &mut medium);
    let second = log_lengths(alloc, &mut medium);
    let found = (first, second, medium.failures());
    assert_eq!(rt; found, (Err(MediumFault::Device), Ok((1, 4, 4)), 1));
}

/// Whether the record stands whole, or None where memory was refused.
fn appended<M: Medium>(alloc: Global, medium: &mut M, kept: &Record) -> Option<bool>
    requires { IsRecord kept.now }
{
    Some(
        append_piece(&mut Vec::new(alloc), medium, kept, None)
            .ok()?
            .is_ok(),
    )
}

#[test]
fn records_are_appended(rt: HostRuntime) {
    let alloc = rt.alloc();
    let mut medium = memory_of(alloc, "").expect(&rt, "memory");
    let found = (
        appended(alloc, &mut medium, &RESTART),
        appended(alloc, &mut medium, &GIFT),
        holds(alloc, &mut medium, "R 1\nG 1 0 l 5\n"),
    );
    assert_eq!(rt; found, (Some(true), Some(true), true));
}

/// Whether the record stands whole with no summary, or None where memory was refused.
fn appended_alone<M: Medium>(alloc: Global, medium: &mut M, kept: &Record) -> Option<bool>
    requires { IsRecord kept.now }
{
    Some(
        append_record(&mut Vec::new(alloc), medium, kept)
            .ok()?
            .is_ok(),
    )
}

/// Whether a commit of two escrows stands whole, or None where memory was refused.
fn committed<M: Medium>(alloc: Global, medium: &mut M) -> Option<bool> {
    let txn = TxnId {
        epoch: 100,
        number: 9_999,
    };
    let escrows = [
        Escrow {
            field: FieldNo(99),
            change: -10_000,
        },
        Escrow {
            field: FieldNo(10),
            change: 9,
        },
    ];
    Some(
        append_commit(&mut Vec::new(alloc), medium, txn, &escrows)
            .ok()?
            .is_ok(),
    )
}

#[test]
fn records_are_appended_alone(rt: HostRuntime) {
    let alloc = rt.alloc();
    let mut medium = memory_of(alloc, "").expect(&rt, "memory");
    let found = (
        appended_alone(alloc, &mut medium, &GIFT),
        committed(alloc, &mut medium),
        holds(alloc, &mut medium, "G 1 0 l 5\nC 100 9999 99 -10000 10 9\n"),
    );
    assert_eq!(rt; found, (Some(true), Some(true), true));
}

#[test]
fn a_torn_commit_leaves_a_front(rt: HostRuntime) {
    let alloc = rt.alloc();
    let mut medium = torn_of(alloc, "").expect(&rt, "memory");
    medium.arm(Mishap::Append(7));
    let found = (
        committed(alloc, &mut medium),
        holds(alloc, &mut medium, "C 100 9"),
    );
    assert_eq!(rt; found, (Some(false), true));
}

/// Whether a restart is written so.
fn restart_is(alloc: Global, epoch: u32, wanted: &str) -> bool
    requires some { 0 < epoch }
    requires most { epoch ≤ max_epoch }
{
    is_text(write_record(alloc, &Record::Restart { epoch }).ok(), wanted)
}

#[test]
fn numbers_of_each_length(rt: HostRuntime) {
    let alloc = rt.alloc();
    let written = [
        restart_is(alloc, 9, "R 9\n"),
        restart_is(alloc, 10, "R 10\n"),
        restart_is(alloc, 99, "R 99\n"),
        restart_is(alloc, 100, "R 100\n"),
        restart_is(alloc, 1_001, "R 1001\n"),
        restart_is(alloc, 9_999, "R 9999\n"),
        restart_is(alloc, 10_000, "R 10000\n"),
        restart_is(alloc, 99_999_999, "R 99999999\n"),
    ];
    assert_eq!(rt; written, [true, true, true, true, true, true, true, true]);
}

/// Whether a restart stands whole though its append is torn after so many bytes, whether the medium
/// holds what is wanted, and how often it failed.
fn torn_restart(alloc: Global, kept: u64, wanted: &str) -> Option<(Option<bool>, bool, u64)> {
    let mut medium = torn_of(alloc, "")?;
    medium.arm(Mishap::Append(kept));
    let stands = appended(alloc, &mut medium, &RESTART);
    let holds = holds(alloc, &mut medium, wanted);
    Some((stands, holds, medium.failures()))
}

#[test]
fn a_torn_append_leaves_a_front(rt: HostRuntime) {
    let found = (
        torn_restart(rt.alloc(), 2, "R "),
        torn_restart(rt.alloc(), 4, "R 1\n"),
    );
    let torn = Some((Some(false), true, 1));
    assert_eq!(rt; found, (torn, torn));
}

/// Whether the restart stands behind so many bytes of the medium, or None where there are fewer or
/// memory was refused.
fn restarted<M: Medium>(alloc: Global, medium: &mut M, whole: usize, epoch: u32) -> Option<bool>
    requires some { 0 < epoch }
    requires most { epoch ≤ max_epoch }
{
    let present = medium.read_all(alloc).ok()?.len();
    if present < whole {
        return None;
    }
    Some(
        append_restart_piece(&mut Vec::new(alloc), medium, whole, present, epoch, None)
            .ok()?
            .is_ok(),
    )
}

/// A restart stands behind a commit, and the last one behind it.
fn assert_restarts(rt: &impl Abort, alloc: Global, medium: &mut MemoryMedium) {
    let first = (
        restarted(alloc, medium, 12, 1),
        holds(alloc, medium, "C 0 1 0 -20\nR 1\n"),
    );
    assert_eq!(rt; first, (Some(true), true));
    let last = (
        restarted(alloc, medium, 16, 1_000_000_000),
        holds(alloc, medium, "C 0 1 0 -20\nR 1\nR 1000000000\n"),
    );
    assert_eq!(rt; last, (Some(true), true));
}

#[test]
fn a_restart_is_appended(rt: HostRuntime) {
    let mut medium = memory_of(rt.alloc(), "C 0 1 0 -20\nR 1").expect(&rt, "memory");
    assert_restarts(&rt, rt.alloc(), &mut medium);
}

/// Whether a restart behind a commit and a torn gift stands whole under a mishap, and the medium
/// then holds these.
fn restart_under(alloc: Global, mishap: Mishap, wanted: &str) -> Option<(Option<bool>, bool)> {
    let mut medium = torn_of(alloc, "C 0 1 0 -20\nG 1 0")?;
    medium.arm(mishap);
    let stands = restarted(alloc, &mut medium, 12, 1);
    Some((stands, holds(alloc, &mut medium, wanted)))
}

/// Mishaps, whether the restart stands whole, and what the medium then holds.
const RESTARTS: [(Mishap, bool, &str); 5] = [
    (Mishap::Never, true, "C 0 1 0 -20\nR 1\n"),
    (Mishap::Append(0), false, "C 0 1 0 -20\n"),
    (Mishap::Append(3), false, "C 0 1 0 -20\nR 1"),
    (Mishap::Append(4), false, "C 0 1 0 -20\nR 1\n"),
    (Mishap::Cut, false, "C 0 1 0 -20\nG 1 0"),
];

#[test]
fn a_restart_under_a_mishap(rt: HostRuntime) {
    for (mishap, stands, wanted) in &RESTARTS {
        let found = (*mishap, restart_under(rt.alloc(), *mishap, *wanted));
        assert_eq!(rt; found, (*mishap, Some((Some(*stands), true))));
    }
}

#[test]
fn nothing_is_cut_of_whole_records(rt: HostRuntime) {
    let alloc = rt.alloc();
    let mut medium = torn_of(alloc, "R 1\n").expect(&rt, "memory");
    medium.arm(Mishap::Cut);
    let stands = restarted(alloc, &mut medium, 4, 2);
    let holds = holds(alloc, &mut medium, "R 1\nR 2\n");
    let found = (stands, holds, medium.failures());
    assert_eq!(rt; found, (Some(true), true, 0));
}
