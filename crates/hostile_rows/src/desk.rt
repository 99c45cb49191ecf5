//! A desk of site 0 with one pass: four calls, its close, and the check of its receipts.

ghost use Rattle.std.specs.Prelude.{◌≡◌, ◌<◌};

use super::refused::Refusals;
use check_kit::{entry, stock_of_two};
use field_bounds::{Command, Entry, SiteNo};
use kept_records::MemoryMedium;
use site_desk::{Blank, Closed, Desk, DeskFault, Pass, Receipt, ReceiptFault, check_receipts};
use site_step::OpenFault;
use std::alloc::Global;
use std::marker::Brand;
use std::sync::Wait;
use std::sync::ledger::Ledger;

/// The calls, and what each is answered.
const CALLS: [Entry; 4] = [
    entry!(0 begin -> begun 0.1),
    entry!(0 escrow 0.1 stock -20 -> granted),
    entry!(0 commit 0.1 -> committed),
    entry!(0 share stock -> share 0 50),
];

/// A desk over an empty medium, with its passes.
fn fresh_desk<L: Ledger>(
    alloc: Global,
    blank: Blank,
) -> Result<(Desk<L, MemoryMedium>, Vec<Pass<L>>), OpenFault>
    requires name { blank.name ≡ L.name }
    requires parts { blank.parts ≡ L.parts }
    requires some { 0 < blank.parts }
{
    let Some(schema) = stock_of_two(alloc) else {
        return Err(OpenFault::NoMemory);
    };
    if schema.sites() == 0 {
        return Err(OpenFault::Device);
    }
    let medium = MemoryMedium::new(Vec::new(alloc));
    Desk::new(alloc, blank, &schema, SiteNo(0), medium)
}

/// The receipt of a call, of two tries: one that was refused memory leaves the pass as it was. None
/// where it doesn't.
fn receipt_of<L: Ledger, R: Wait>(
    rt: &R,
    alloc: Global,
    desk: &Desk<L, MemoryMedium>,
    pass: &mut Pass<L>,
    command: Command,
    refusals: &mut Refusals,
) -> Option<Receipt> {
    let before = (pass.count(), pass.last());
    for _ in 0..2 {
        match desk.call(rt, alloc, pass, command) {
            Ok(receipt) => return Some(receipt),
            Err(DeskFault::NoMemory) => refusals.note(),
            Err(DeskFault::WentBack { length: _ } | DeskFault::GateTurns) => return None,
        }
        if (pass.count(), pass.last()) != before {
            return None;
        }
    }
    None
}

/// What the check of these receipts finds, of two tries.
fn found(
    alloc: Global,
    closed: &Closed<MemoryMedium>,
    receipts: &[Receipt],
    refusals: &mut Refusals,
) -> Result<(), ReceiptFault> {
    match check_receipts(alloc, closed, receipts) {
        Err(ReceiptFault::NoMemory) => {
            refusals.note();
            check_receipts(alloc, closed, receipts)
        }
        told => told,
    }
}

/// Whether the receipts are those of the closed site, one is missing without the third, and one is
/// there twice with the second again.
fn are_told(
    alloc: Global,
    closed: &Closed<MemoryMedium>,
    receipts: &[Receipt],
    refusals: &mut Refusals,
) -> bool {
    let [first, second, third, fourth] = receipts else {
        return false;
    };
    let site = SiteNo(0);
    let without_third = [*first, *second, *fourth];
    let second_twice = [*first, *second, *second, *third, *fourth];
    found(alloc, closed, receipts, refusals) == Ok(())
        && found(alloc, closed, &without_third, refusals)
            == Err(ReceiptFault::Missing { site, number: 3 })
        && found(alloc, closed, &second_twice, refusals)
            == Err(ReceiptFault::Twice { site, number: 2 })
}

/// How many of the calls are answered as told, from the first on. Their receipts are added.
fn count_calls<L: Ledger, R: Wait>(
    rt: &R,
    alloc: Global,
    desk: &Desk<L, MemoryMedium>,
    pass: &mut Pass<L>,
    receipts: &mut Vec<Receipt>,
    refusals: &mut Refusals,
) -> usize {
    for (at, wanted) in CALLS.iter().enumerate() {
        let Some(receipt) = receipt_of(rt, alloc, desk, pass, wanted.command, refusals) else {
            return at;
        };
        if receipt.entry().reply != wanted.reply || receipts.push(receipt).is_err() {
            return at;
        }
    }
    CALLS.len()
}

/// The same with the first of the passes.
fn count_of_first<L: Ledger, R: Wait>(
    rt: &R,
    alloc: Global,
    desk: &Desk<L, MemoryMedium>,
    passes: &mut [Pass<L>],
    receipts: &mut Vec<Receipt>,
    refusals: &mut Refusals,
) -> usize {
    match passes.first_mut() {
        Some(pass) => count_calls(rt, alloc, desk, pass, receipts, refusals),
        None => 0,
    }
}

/// Whether the desk closes, and its receipts are told so.
fn closes_told<L: Ledger>(
    alloc: Global,
    desk: Desk<L, MemoryMedium>,
    passes: Vec<Pass<L>>,
    receipts: &[Receipt],
    refusals: &mut Refusals,
) -> bool {
    match desk.close(passes) {
        Ok(closed) => are_told(alloc, &closed, receipts, refusals),
        Err(_) => false,
    }
}

/// How many calls are answered as told, from the first on, and whether the desk closes and its
/// receipts are told so. None where memory was refused before the first call.
fn count_over<L: Ledger, R: Wait>(
    rt: &R,
    alloc: Global,
    blank: Blank,
    refusals: &mut Refusals,
) -> Option<(usize, bool)>
    requires name { blank.name ≡ L.name }
    requires parts { blank.parts ≡ L.parts }
    requires some { 0 < blank.parts }
{
    let mut receipts = Vec::with_capacity(alloc, CALLS.len()).ok()?;
    let (desk, mut passes) = match fresh_desk::<L>(alloc, blank) {
        Ok(made) => made,
        Err(OpenFault::NoMemory) => return None,
        Err(_) => return Some((0, false)),
    };
    let count = count_of_first(rt, alloc, &desk, &mut passes, &mut receipts, refusals);
    let told = count == CALLS.len() && closes_told(alloc, desk, passes, &receipts, refusals);
    Some((count, told))
}

/// The same, of two tries with a desk each.
pub fn count_told<R: Wait>(
    rt: &R,
    alloc: Global,
    refusals: &mut Refusals,
) -> Option<(usize, bool)> {
    for _ in 0..2 {
        if let Some(told) = count_over::<Brand, R>(rt, alloc, Blank::new(1), refusals) {
            return Some(told);
        }
        refusals.note();
    }
    None
}
