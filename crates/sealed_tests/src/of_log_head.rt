//! Worked heads of site 1 of a world. Their sums were computed by another program, from what docs/FORMATS.md
//! says of them; every other expected value is worked out by hand.

use field_bounds::TxnId;
use log_head::{CommitAnswer, Gone, Head, HeadFault, HeadKind, Horizon, read_head, write_head};
use sealed_text::sum_line;
use site_folder::{Identity, log_name, sealed_log_name};
use std::alloc::Global;
use std::process::Abort;

const HEADER: &str =
    r#"{"sites":2,"fields":[{"name":"stock","floor":0,"ceiling":100,"value":40}]}"#;

/// Its head, once its log was shortened.
const HEAD: &str = "escrow log 3
number 1
world 145aa8408cfe4e170aa9ab522fe2e8b9b4c23917b59218cbdada91cf44b1183a
head 16000123 1000000
horizon 7 1000431 1000012 1000398
sum 0000281d000cd84c
";

/// The least head.
const LEAST: &str = "escrow log 3
number 1
world 145aa8408cfe4e170aa9ab522fe2e8b9b4c23917b59218cbdada91cf44b1183a
head 0 0
horizon 1 0
sum 000021770007d977
";

/// How long its first three lines are.
const FIRST: usize = 93;

/// Those lines, and what stands behind them.
fn parts(rt: &impl Abort) -> (&'static [u8], &'static [u8]) {
    HEAD.as_bytes().split_at_checked(FIRST).expect(rt, "lines")
}

fn identity(rt: &impl Abort, alloc: Global) -> Identity {
    Identity::new(alloc, 1, HEADER.as_bytes()).expect(rt, "an identity")
}

/// A horizon of these numbers, where they are in range.
fn horizon(alloc: Global, epoch: u32, number: u32, open_then: &[u32]) -> Option<Horizon> {
    let open_then = Vec::from_slice(alloc, open_then).ok()?;
    Horizon::new(epoch, number, open_then)
}

/// The head that tells that these bytes and records are gone, up to this horizon.
fn written(
    rt: &impl Abort,
    alloc: Global,
    bytes: u64,
    records: u64,
    horizon: Option<Horizon>,
) -> Vec<u8> {
    let gone = Gone {
        bytes,
        records,
        horizon: horizon.expect(rt, "a horizon"),
    };
    write_head(alloc, &identity(rt, alloc), &gone).expect(rt, "memory")
}

/// The bytes are this text.
fn assert_text(rt: &impl Abort, bytes: &[u8], text: &str) {
    assert_eq!(rt; str::from_utf8(bytes), Ok(text));
}

/// What the bytes begin with.
fn read(rt: &impl Abort, alloc: Global, bytes: &[u8]) -> Result<Head, HeadFault> {
    read_head(alloc, &identity(rt, alloc), bytes)
}

/// What a shortened log's head tells to be gone, and its length; or why it is none.
fn told(rt: &impl Abort, alloc: Global, bytes: &[u8]) -> Result<(Gone, usize), HeadFault> {
    let Head { kind, length } = read(rt, alloc, bytes)?;
    match kind {
        HeadKind::Shortened(gone) => Ok((gone, length)),
        HeadKind::Plain | HeadKind::Sealed => Err(HeadFault::Other),
    }
}

#[test]
fn spells_heads(rt: HostRuntime) {
    let alloc = rt.alloc();
    let numbers = horizon(alloc, 7, 1_000_431, &[1_000_012, 1_000_398]);
    let head = written(&rt, alloc, 16_000_123, 1_000_000, numbers);
    assert_text(&rt, head.as_slice(), HEAD);
    let least = written(&rt, alloc, 0, 0, horizon(alloc, 1, 0, &[]));
    assert_text(&rt, least.as_slice(), LEAST);
}

#[test]
fn reads_heads(rt: HostRuntime) {
    let (gone, length) = told(&rt, rt.alloc(), HEAD.as_bytes())
        .ok()
        .expect(&rt, "a head");
    assert_eq!(rt;
        (gone.bytes, gone.records, length),
        (16_000_123, 1_000_000, HEAD.len())
    );
    let horizon = gone.horizon;
    assert_eq!(rt; (horizon.epoch(), horizon.number()), (7, 1_000_431));
    assert_eq!(rt; horizon.open_then(), &[1_000_012u32, 1_000_398][..]);
    let (gone, length) = told(&rt, rt.alloc(), LEAST.as_bytes())
        .ok()
        .expect(&rt, "a head");
    assert_eq!(rt; (gone.bytes, gone.records, length), (0, 0, LEAST.len()));
    assert_eq!(rt; gone.horizon.open_then().len(), 0);
}

/// What stands behind a head is nothing to it.
#[test]
fn reads_the_front_alone(rt: HostRuntime) {
    let mut text = Vec::from_slice(rt.alloc(), HEAD.as_bytes()).expect(&rt, "memory");
    text.extend_from_slice(b"S 7 1 20 30\nsum 0")
        .expect(&rt, "memory");
    let (_, length) = told(&rt, rt.alloc(), text.as_slice())
        .ok()
        .expect(&rt, "a head");
    assert_eq!(rt; length, HEAD.len());
}

#[test]
fn reads_the_greatest_head(rt: HostRuntime) {
    let alloc = rt.alloc();
    let mut open_then = Vec::new(alloc);
    for number in 999_999_937u32..1_000_000_001 {
        open_then.push(number).expect(&rt, "memory");
    }
    let numbers = Horizon::new(1_000_000_000, 1_000_000_000, open_then);
    let head = written(&rt, alloc, u64::MAX, u64::MAX, numbers);
    assert!(rt; head.as_slice().ends_with(b"sum 0000b30d012901a2\n"));
    let (gone, length) = told(&rt, alloc, head.as_slice()).ok().expect(&rt, "a head");
    assert_eq!(rt;
        (gone.bytes, gone.records, length),
        (u64::MAX, u64::MAX, head.len())
    );
    assert_eq!(rt; gone.horizon.open_then().len(), 64);
}

#[test]
fn makes_no_horizon_out_of_range(rt: HostRuntime) {
    let alloc = rt.alloc();
    let mut many = Vec::new(alloc);
    for number in 1u32..66 {
        many.push(number).expect(&rt, "memory");
    }
    assert!(rt; Horizon::new(1, 100, many).is_none());
    assert!(rt; horizon(alloc, 0, 1, &[]).is_none());
    assert!(rt; horizon(alloc, 1_000_000_001, 1, &[]).is_none());
    assert!(rt; horizon(alloc, 1, 1_000_000_001, &[]).is_none());
    assert!(rt; horizon(alloc, 1, 5, &[0]).is_none());
    assert!(rt; horizon(alloc, 1, 5, &[6]).is_none());
    assert!(rt; horizon(alloc, 1, 5, &[2, 2]).is_none());
    assert!(rt; horizon(alloc, 1, 5, &[3, 2]).is_none());
    assert!(rt; horizon(alloc, 1, 5, &[1, 5]).is_some());
}

/// Fourth and fifth lines of a head, whose sum is right, and which is none.
const NO_HEADS: [&str; 22] = [
    "head 1 2\n",
    "head 1 2",
    "horizon 1 0\n",
    "horizon 1 0\nhead 1 2\n",
    "head 1\nhorizon 1 0\n",
    "head 1 2 3\nhorizon 1 0\n",
    "head 1  2\nhorizon 1 0\n",
    "head 1 2 \nhorizon 1 0\n",
    "head 01 2\nhorizon 1 0\n",
    "head 18446744073709551616 2\nhorizon 1 0\n",
    "Head 1 2\nhorizon 1 0\n",
    "head 1 2\r\nhorizon 1 0\n",
    "head 1 2\n\nhorizon 1 0\n",
    "head 1 2\nhorizon 1\n",
    "head 1 2\nhorizon 0 0\n",
    "head 1 2\nhorizon 1000000001 0\n",
    "head 1 2\nhorizon 1 1000000001\n",
    "head 1 2\nhorizon 1 5 6\n",
    "head 1 2\nhorizon 1 5 0\n",
    "head 1 2\nhorizon 1 5 3 3\n",
    "head 1 2\nhorizon 1 5 4294967299\n",
    "head 1 2\nhorizon 1 5\nhorizon 1 5\n",
];

#[test]
fn refuses_other_lines(rt: HostRuntime) {
    for lines in &NO_HEADS {
        let mut text = Vec::from_slice(rt.alloc(), parts(&rt).0).expect(&rt, "memory");
        text.extend_from_slice(lines.as_bytes())
            .expect(&rt, "memory");
        let sum = sum_line(text.as_slice());
        text.extend_from_slice(&sum).expect(&rt, "memory");
        let fault = read(&rt, rt.alloc(), text.as_slice()).err();
        assert_eq!(rt; fault, Some(HeadFault::Changed), "{lines}");
    }
}

/// First lines of a log that isn't this site's, of a shortened one.
const OTHERS: [&str; 7] = [
    "",
    "escrow log 3\n",
    "escrow log 4\nnumber 1\nworld 145aa8408cfe4e170aa9ab522fe2e8b9b4c23917b59218cbdada91cf44b1183a\n",
    "escrow log 3\nnumber 0\nworld 145aa8408cfe4e170aa9ab522fe2e8b9b4c23917b59218cbdada91cf44b1183a\n",
    "escrow log 3\nnumber 1\nworld abf6d0b2ae68513ab0fe4bdacf613f45ec8d357c35c7ad8bb3b851a559578afd\n",
    "escrow log 2\nnumber 1\nworld 145aa8408cfe4e170aa9ab522fe2e8b9b4c23917b59218cbdada91cf44b1183a\n",
    "escrow trace 1\nnumber 1\nworld 145aa8408cfe4e170aa9ab522fe2e8b9b4c23917b59218cbdada91cf44b1183a\n",
];

#[test]
fn refuses_other_logs(rt: HostRuntime) {
    for first in &OTHERS {
        let mut text = Vec::from_slice(rt.alloc(), first.as_bytes()).expect(&rt, "memory");
        text.extend_from_slice(parts(&rt).1).expect(&rt, "memory");
        let fault = read(&rt, rt.alloc(), text.as_slice()).err();
        assert_eq!(rt; fault, Some(HeadFault::Other), "{first}");
    }
}

/// The fault of a head that was changed at this place.
fn fault_at(place: usize) -> Option<HeadFault> {
    if place < FIRST {
        Some(HeadFault::Other)
    } else {
        Some(HeadFault::Changed)
    }
}

#[test]
fn refuses_each_changed_byte(rt: HostRuntime) {
    for place in 0..HEAD.len() {
        for change in [1u8, 3, 0x20, 0xff] {
            let mut text = Vec::from_slice(rt.alloc(), HEAD.as_bytes()).expect(&rt, "memory");
            let byte = text.get_mut(place).expect(&rt, "a byte");
            *byte ^= change;
            let fault = read(&rt, rt.alloc(), text.as_slice()).err();
            assert_eq!(rt; fault, fault_at(place), "{place} {change}");
        }
    }
}

#[test]
fn refuses_each_front(rt: HostRuntime) {
    for length in 0..HEAD.len() {
        let front = HEAD.as_bytes().get(..length).expect(&rt, "a front");
        let fault = read(&rt, rt.alloc(), front).err();
        assert_eq!(rt; fault, fault_at(length), "{length}");
    }
}

#[test]
fn reads_names_of_whole_logs(rt: HostRuntime) {
    let alloc = rt.alloc();
    let mut plain = log_name(alloc, &identity(&rt, alloc)).expect(&rt, "memory");
    let length = plain.len();
    plain.extend_from_slice(b"R 1\n").expect(&rt, "memory");
    let head = read(&rt, alloc, plain.as_slice())
        .ok()
        .expect(&rt, "a head");
    assert!(rt; matches!(head.kind, HeadKind::Plain));
    assert_eq!(rt; head.length, length);
    let sealed = sealed_log_name(alloc, &identity(&rt, alloc)).expect(&rt, "memory");
    let head = read(&rt, alloc, sealed.as_slice())
        .ok()
        .expect(&rt, "a head");
    assert!(rt; matches!(head.kind, HeadKind::Sealed));
    assert_eq!(rt; head.length, sealed.len());
}

/// Transactions, whether their commit is held, and what is told of them behind the horizon of `HEAD`.
const ANSWERS: [(u32, u32, bool, CommitAnswer); 10] = [
    (7, 1_000_431, true, CommitAnswer::Yes),
    (7, 12, true, CommitAnswer::Yes),
    (7, 1_000_440, false, CommitAnswer::No),
    (7, 1_000_432, false, CommitAnswer::No),
    (7, 1_000_012, false, CommitAnswer::No),
    (8, 1, false, CommitAnswer::No),
    (7, 1_000_431, false, CommitAnswer::Forgotten),
    (7, 12, false, CommitAnswer::Forgotten),
    (6, 1_000_440, false, CommitAnswer::Forgotten),
    (6, 1_000_012, false, CommitAnswer::Forgotten),
];

#[test]
fn tells_of_commits(rt: HostRuntime) {
    let (gone, _) = told(&rt, rt.alloc(), HEAD.as_bytes())
        .ok()
        .expect(&rt, "a head");
    for (epoch, number, is_held, kept) in &ANSWERS {
        let txn = TxnId {
            epoch: *epoch,
            number: *number,
        };
        assert_eq!(rt; gone.horizon.answer(txn, *is_held), *kept);
    }
}
