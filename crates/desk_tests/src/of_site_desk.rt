ghost use Rattle.std.specs.Prelude.{◌≡◌, ◌<◌};

mod threads;

use check_kit::{command, reply, stock_of_two};
use field_bounds::{Command, Reply, SiteNo};
use kept_records::MemoryMedium;
use site_desk::*;
use std::alloc::Global;
use std::marker::Brand;
use std::process::Abort;
use std::sync::Wait;
use std::sync::atomic::{AtomicU64, Ordering};
use std::sync::ledger::Ledger;
use std::thread;
use std::thread::Threads;

/// A desk of one of the two sites over these bytes, with its passes.
fn desk_over<L: Ledger>(
    rt: &impl Abort,
    alloc: Global,
    blank: Blank,
    number: u16,
    bytes: &[u8],
) -> (Desk<L, MemoryMedium>, Vec<Pass<L>>)
    requires name { blank.name ≡ L.name }
    requires parts { blank.parts ≡ L.parts }
    requires some { 0 < blank.parts }
{
    let held = Vec::from_slice(alloc, bytes).expect(rt, "memory");
    let schema = stock_of_two(alloc).expect(rt, "memory");
    assert!(rt; number < schema.sites());
    let medium = MemoryMedium::new(held);
    Desk::new(alloc, blank, &schema, SiteNo(number), medium).expect(rt, "a desk")
}

/// The desk closed with these passes.
fn closed_with<L: Ledger>(
    rt: &impl Abort,
    desk: Desk<L, MemoryMedium>,
    passes: Vec<Pass<L>>,
) -> Closed<MemoryMedium> {
    desk.close(passes).ok().expect(rt, "closed")
}

/// What the desk answers to a command, or None where it doesn't. The receipt is added to the
/// others.
fn served<L: Ledger, R: Wait>(
    rt: &R,
    alloc: Global,
    desk: &Desk<L, MemoryMedium>,
    pass: &mut Pass<L>,
    command: Command,
    receipts: &mut Vec<Receipt>,
) -> Option<Reply> {
    let receipt = desk.call(rt, alloc, pass, command).ok()?;
    receipts.push(receipt).ok()?;
    Some(receipt.entry().reply)
}

/// The four calls.
const FOUR: [Command; 4] = [
    command!(begin),
    command!(escrow 0.1 stock -20),
    command!(commit 0.1),
    command!(share stock),
];

/// Whether the desk answers a begin, an escrow, a commit and a share with the first pass.
fn serves_four<L: Ledger, R: Wait>(
    rt: &R,
    alloc: Global,
    desk: &Desk<L, MemoryMedium>,
    passes: &mut [Pass<L>],
    receipts: &mut Vec<Receipt>,
) -> bool {
    let Some(pass) = passes.first_mut() else {
        return false;
    };
    for command in &FOUR {
        if served(rt, alloc, desk, pass, *command, receipts).is_none() {
            return false;
        }
    }
    true
}

/// The closed site of a desk with one pass, whether it answered the four calls, and their receipts.
type Four = (Closed<MemoryMedium>, bool, Vec<Receipt>);

/// The same of a desk of one of the two sites.
fn closed_after_four<L: Ledger, R: Abort + Wait>(
    rt: &R,
    alloc: Global,
    blank: Blank,
    number: u16,
) -> Four
    requires name { blank.name ≡ L.name }
    requires parts { blank.parts ≡ L.parts }
    requires some { 0 < blank.parts }
{
    let mut receipts = Vec::new(alloc);
    let (desk, mut passes) = desk_over::<L>(rt, alloc, blank, number, &[]);
    let served = serves_four(rt, alloc, &desk, &mut passes, &mut receipts);
    (closed_with(rt, desk, passes), served, receipts)
}

/// The first receipt, from 1, that isn't of site 0 or hasn't the number of its place.
fn first_misnumbered(receipts: &[Receipt]) -> Option<u64> {
    for (number, receipt) in (1..5u64).zip(receipts.iter()) {
        if receipt.site() != SiteNo(0) || receipt.number() != number {
            return Some(number);
        }
    }
    None
}

/// The reply of the last receipt.
fn last_reply(receipts: &[Receipt]) -> Option<Reply> {
    Some(receipts.last()?.entry().reply)
}

/// The receipts at these places, in this order.
fn chosen(alloc: Global, receipts: &[Receipt], places: &[usize]) -> Option<Vec<Receipt>> {
    let mut some = Vec::new(alloc);
    for place in places {
        some.push(*receipts.get(*place)?).ok()?;
    }
    Some(some)
}

/// Whether the receipts at these places are those of the closed site.
fn verdict_at(
    alloc: Global,
    closed: &Closed<MemoryMedium>,
    receipts: &[Receipt],
    places: &[usize],
) -> Option<Result<(), ReceiptFault>> {
    let some = chosen(alloc, receipts, places)?;
    Some(check_receipts(alloc, closed, &some))
}

/// What a closed site and the receipts of its four calls show.
#[derive(Clone, Copy)]
struct Shown {
    served: bool,
    entries: usize,
    fresh: bool,
    misnumbered: Option<u64>,
    last: Option<Reply>,
    verdict: Result<(), ReceiptFault>,
    without_third: Option<Result<(), ReceiptFault>>,
    second_twice: Option<Result<(), ReceiptFault>>,
}

/// What this site and these receipts show, with whether the calls were served.
fn show(alloc: Global, closed: Closed<MemoryMedium>, served: bool, receipts: &[Receipt]) -> Shown {
    Shown {
        served,
        entries: closed.history().len(),
        fresh: closed.on_fresh_base(),
        misnumbered: first_misnumbered(receipts),
        last: last_reply(receipts),
        verdict: check_receipts(alloc, &closed, receipts),
        without_third: verdict_at(alloc, &closed, receipts, &[0, 1, 3]),
        second_twice: verdict_at(alloc, &closed, receipts, &[0, 1, 1, 2, 3]),
    }
}

/// The same of a desk of its own book.
fn four_calls_at<R: Abort + Wait>(rt: &R, alloc: Global, number: u16) -> Four {
    closed_after_four::<Brand, R>(rt, alloc, Blank::new(1), number)
}

/// What site 0 shows after the four calls.
fn four_calls<R: Abort + Wait>(rt: &R, alloc: Global) -> Shown {
    let (closed, served, receipts) = four_calls_at(rt, alloc, 0);
    show(alloc, closed, served, &receipts)
}

/// All four calls were served, and each has its receipt.
fn assert_four(rt: &impl Abort, shown: &Shown) {
    assert!(rt; shown.served && shown.fresh);
    assert_eq!(rt; shown.entries, 4);
    assert_eq!(rt; shown.misnumbered, None);
    assert_eq!(rt; shown.last, Some(reply!(share 0 50)));
    assert_eq!(rt; shown.verdict, Ok(()));
}

#[test]
fn four_receipts_of_one_pass(rt: HostRuntime) {
    assert_four(&rt, &four_calls(&rt, rt.alloc()));
}

#[test]
fn a_receipt_is_missing_or_there_twice(rt: HostRuntime) {
    let shown = four_calls(&rt, rt.alloc());
    let missing = ReceiptFault::Missing {
        site: SiteNo(0),
        number: 3,
    };
    assert_eq!(rt; shown.without_third, Some(Err(missing)));
    let twice = ReceiptFault::Twice {
        site: SiteNo(0),
        number: 2,
    };
    assert_eq!(rt; shown.second_twice, Some(Err(twice)));
}

#[test]
fn a_receipt_of_another_site_differs(rt: HostRuntime) {
    let alloc = rt.alloc();
    let (closed, _served, _receipts) = four_calls_at(&rt, alloc, 0);
    let (_other, _served, foreign) = four_calls_at(&rt, alloc, 1);
    let differs = ReceiptFault::Differs {
        site: SiteNo(1),
        number: 2,
    };
    assert_eq!(rt;
        verdict_at(alloc, &closed, &foreign, &[1]),
        Some(Err(differs))
    );
}

/// Whether a desk over these bytes that is closed without a call has a fresh base.
fn is_fresh_at_once<L: Ledger>(rt: &impl Abort, alloc: Global, blank: Blank, bytes: &[u8]) -> bool
    requires name { blank.name ≡ L.name }
    requires parts { blank.parts ≡ L.parts }
    requires some { 0 < blank.parts }
{
    let (desk, passes) = desk_over::<L>(rt, alloc, blank, 0, bytes);
    closed_with(rt, desk, passes).on_fresh_base()
}

#[test]
fn a_desk_over_a_record_has_no_fresh_base(rt: HostRuntime) {
    let over_record = is_fresh_at_once::<Brand>(&rt, rt.alloc(), Blank::new(1), b"R 1\n");
    let over_nothing = is_fresh_at_once::<Brand>(&rt, rt.alloc(), Blank::new(1), b"");
    assert_eq!(rt; [over_record, over_nothing], [false, true]);
}

/// What each gate of this kind lets in: nothing.
struct Shut;

impl Gate for Shut {
    fn inside(&self, _site: SiteNo, _call: u64) -> bool {
        false
    }

    fn answered(&self, _site: SiteNo, _call: u64) {}
}

/// The fault of a begin at a gate, with the pass's count and last number after it.
fn fault_at<L: Ledger, R: Wait, G: Gate>(
    rt: &R,
    alloc: Global,
    desk: &Desk<L, MemoryMedium>,
    pass: &mut Pass<L>,
    gate: &G,
) -> (Option<DeskFault>, (u64, u64)) {
    let fault = desk.call_at(rt, alloc, pass, Command::Begin, gate).err();
    (fault, (pass.count(), pass.last()))
}

/// What a call at a shut gate leaves, and then one at a free gate.
type Turned = (
    (Option<DeskFault>, (u64, u64)),
    (Option<DeskFault>, (u64, u64)),
);

/// The same of a desk, with the first pass.
fn both_faults<L: Ledger, R: Wait>(
    rt: &R,
    alloc: Global,
    desk: &Desk<L, MemoryMedium>,
    passes: &mut [Pass<L>],
) -> Option<Turned> {
    let pass = passes.first_mut()?;
    let turned = fault_at(rt, alloc, desk, pass, &Shut);
    Some((turned, fault_at(rt, alloc, desk, pass, &FreeGate)))
}

/// The same of a desk that is opened for it.
fn turned_then_served<L: Ledger, R: Abort + Wait>(
    rt: &R,
    alloc: Global,
    blank: Blank,
) -> Option<Turned>
    requires name { blank.name ≡ L.name }
    requires parts { blank.parts ≡ L.parts }
    requires some { 0 < blank.parts }
{
    let (desk, mut passes) = desk_over::<L>(rt, alloc, blank, 1, &[]);
    both_faults(rt, alloc, &desk, &mut passes)
}

#[test]
fn a_gate_turns_a_call_away(rt: HostRuntime) {
    let told = turned_then_served::<Brand, _>(&rt, rt.alloc(), Blank::new(1));
    let (turned, served) = told.expect(&rt, "a pass");
    assert_eq!(rt; turned, (Some(DeskFault::GateTurns), (0, 0)));
    assert_eq!(rt; served, (None, (1, 1)));
}
