//! Worked texts. The sums were worked out from the definition by a line of Python.

use sealed_text::{TextFault, end_batch, is_batch, sum_line, unseal};
use std::alloc::Global;
use std::process::Abort;

/// Three batches.
const THREE: &[u8] = b"R 1
sum 000000ad00000214
C 1 1 0 -15
sum 000001f200000d71
R 2
C 2 1 1 7
sum 0000024600001272
";

/// What the text holds are these records, in so many closed bytes.
fn holds(alloc: Global, text: &[u8], records: &[u8], whole: usize, is_ended: bool) -> bool {
    match unseal(alloc, text) {
        Ok(held) => {
            held.records.as_slice() == records && held.whole == whole && held.is_ended == is_ended
        }
        Err(_) => false,
    }
}

/// What refuses the text, or None where it is read.
fn fault_of(alloc: Global, text: &[u8]) -> Option<TextFault> {
    unseal(alloc, text).err()
}

/// The text with the bits of the mask flipped in one byte.
fn flipped(rt: &impl Abort, alloc: Global, text: &[u8], at: usize, mask: u8) -> Vec<u8> {
    let mut copy = Vec::from_slice(alloc, text).expect(rt, "memory");
    if let Some(byte) = copy.get_mut(at) {
        *byte ^= mask;
    }
    copy
}

/// The text with one byte left out.
fn without(rt: &impl Abort, alloc: Global, text: &[u8], at: usize) -> Vec<u8> {
    let mut copy = Vec::from_slice(alloc, text).expect(rt, "memory");
    if at < copy.len() {
        copy.remove(at);
    }
    copy
}

/// The line at which the batch of this byte of the three begins.
fn line_of(at: usize) -> u64 {
    match at {
        0..25 => 1,
        25..58 => 3,
        _ => 5,
    }
}

/// The fault of damage at this line.
fn damaged_at(line: u64) -> Option<TextFault> {
    Some(TextFault::Damaged { line })
}

/// Each bit of one byte of the three batches, flipped, is damage from its batch on.
fn assert_bits_are_seen(rt: &impl Abort, alloc: Global, at: usize) {
    for mask in [1, 2, 4, 8, 16, 32, 64, 128] {
        let text = flipped(rt, alloc, THREE, at, mask);
        assert_eq!(rt;
            fault_of(alloc, &text),
            damaged_at(line_of(at)),
            "{at} {mask}"
        );
    }
}

#[test]
fn each_flipped_bit_is_damage(rt: HostRuntime) {
    for at in 0..93 {
        assert_bits_are_seen(&rt, rt.alloc(), at);
    }
}

#[test]
fn each_byte_left_out_is_damage(rt: HostRuntime) {
    let alloc = rt.alloc();
    for at in 0..92 {
        let text = without(&rt, alloc, THREE, at);
        assert_eq!(&rt; fault_of(alloc, &text), damaged_at(line_of(at)), "{at}");
    }
    let text = without(&rt, alloc, THREE, 92);
    assert!(&rt; holds(alloc, &text, b"R 1\nC 1 1 0 -15\n", 58, false));
}

#[test]
fn a_line_tells_the_sum(rt: HostRuntime) {
    assert_eq!(&rt; &sum_line(b"R 1\n"), b"sum 000000ad00000214\n");
    assert_eq!(&rt; &sum_line(b""), b"sum 0000000000000000\n");
}

#[test]
fn a_batch_ends_in_a_line_feed(rt: HostRuntime) {
    let answers = [
        is_batch(b"AZ09 -\n\n"),
        is_batch(b"\n"),
        is_batch(b"S 1 1 20 30 g 1 0 l 5 a 1 0 r 3 t 0 l 7\n"),
        !is_batch(b""),
        !is_batch(b"R 1"),
        !is_batch(b"R 1\nR"),
        !is_batch(b"R s\n"),
        !is_batch(b"R 1.\n"),
    ];
    assert_eq!(&rt; answers, [true; 8]);
}

#[test]
fn batches_are_read(rt: HostRuntime) {
    let alloc = rt.alloc();
    let records = b"R 1\nC 1 1 0 -15\nR 2\nC 2 1 1 7\n";
    assert!(&rt; holds(alloc, b"", b"", 0, false));
    assert!(&rt; holds(alloc, THREE, records, 93, false));
    assert!(&rt; holds(alloc, &THREE[..25], b"R 1\n", 25, false));
}

#[test]
fn a_stop_leaves_what_is_closed(rt: HostRuntime) {
    let alloc = rt.alloc();
    assert!(&rt; holds(alloc, &THREE[..28], b"R 1\n", 25, false));
    assert!(&rt; holds(alloc, &THREE[..37], b"R 1\n", 25, false));
    assert!(&rt; holds(alloc, &THREE[..38], b"R 1\n", 25, false));
    assert!(&rt; holds(alloc, &THREE[..57], b"R 1\n", 25, false));
}

#[test]
fn what_no_stop_leaves_is_damage(rt: HostRuntime) {
    let alloc = rt.alloc();
    let faults = [
        fault_of(alloc, b"R 1\nsum 000000ad00000214\nR 2.\n"),
        fault_of(alloc, b"R 1\nsum 000000ad00000214\nR 2sum"),
        fault_of(alloc, b"R 1\nsum 000000ad00000214\nR 2\nsum 3"),
        fault_of(alloc, b"R 1\nsum 000000ad00000214\nsum"),
        fault_of(alloc, b"sum 0000000000000000\n"),
        fault_of(alloc, b"R 1\nsum 000000ad00000214x"),
    ];
    let third = damaged_at(3);
    let first = damaged_at(1);
    assert_eq!(&rt; faults, [third, third, third, third, first, first]);
}

#[test]
fn a_world_ends(rt: HostRuntime) {
    let alloc = rt.alloc();
    let ended = b"R 1\nsum 000000ad00000214\nX\nsum 00000062000000ba\n";
    assert_eq!(&rt; end_batch(), b"X\n".as_slice());
    assert!(&rt; holds(alloc, ended, b"R 1\n", 48, true));
    assert!(&rt; holds(alloc, &ended[25..], b"", 23, true));
    assert!(&rt; holds(alloc, &ended[..47], b"R 1\n", 25, false));
}

#[test]
fn nothing_stands_behind_an_end(rt: HostRuntime) {
    let alloc = rt.alloc();
    let behind = b"R 1\nsum 000000ad00000214\nX\nsum 00000062000000ba\nR";
    assert_eq!(&rt; fault_of(alloc, behind), damaged_at(3));
    let twice = b"X\nsum 00000062000000ba\nX\nsum 00000062000000ba\n";
    assert_eq!(&rt; fault_of(alloc, twice), damaged_at(1));
}
