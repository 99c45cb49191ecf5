//! The courier of a site.

ghost use Rattle.std.specs.Prelude.{◌≡◌, ◌+◌, ◌<◌, ℕ, true, false, length, IfOk, IfErr, OnOk, slice_index_or};
ghost use Rattle.crossbeam_channel.specs.Claims.{view, IsSeatAt};
ghost use Rattle.crossbeam_channel.specs.Ends.{receives_on};
ghost use Rattle.field_bounds.specs.declared.entry.Command.TheVariants.{Accept};
ghost use Rattle.site_workers.specs.Carried.{Carries};
ghost use Rattle.site_workers.specs.Faults.{IsCourierFault, TellsShort};

use crate::fault::fault_of_call;
use crate::inbox::{Inbox, Letter, Way, take};
use field_bounds::{Command, Schema, Statement};
use kept_records::Medium;
use site_desk::{Desk, Pass, Receipt};
use std::alloc::Global;
use std::sync::Wait;
use std::sync::ledger::Ledger;
use work_faults::WorkFault;

/// Whether all are marked.
fn all_marked(marks: &[bool]) -> bool
    ensures all { result ≡ true → (n : ℕ) → n < length marks.now
        → slice_index_or marks.now n false ≡ true }
    ensures not_all { result ≡ false → (n : ℕ) × (n < length marks.now)
        × (slice_index_or marks.now n false ≡ false) }
{
    for mark in marks {
        if !*mark {
            return false;
        }
    }
    true
}

/// Accepts a statement at the desk.
fn accept<L: Ledger, M: Medium + Drop, R: Wait>(
    rt: &R,
    alloc: Global,
    desk: &Desk<L, M>,
    pass: &mut Pass<L>,
    statement: Statement,
) -> Result<Receipt, WorkFault>
    ensures ok { IfOk result (λ receipt. receipt.entry.command ≡ Accept statement) }
    ensures asked { OnOk result (pass.new.count ≡ pass.old.count + 1) }
    ensures fault { IfErr result (IsCourierFault desk.now.site) }
{
    match desk.call(rt, alloc, pass, Command::Accept(statement)) {
        Ok(receipt) => Ok(receipt),
        Err(fault) => Err(fault_of_call(desk.site(), fault)),
    }
}

/// Accepts each Stated letter that it takes at the desk, in the order in which they come, and ends
/// once it has an End of every site. It never puts a letter. At Ok its receipts are those of the
/// Accepts of the Stated letters that it took, in order, among which is an End of each site; and it
/// asked nothing else of the desk: the pass has as many calls more as there are receipts.
///
/// A fault of the desk's call ends it: `NoMemory`, or `WentBack` with the desk's site. `Lost` with
/// that site: the inbox was closed before there was an End of every site, and among the letters
/// that it took some site's is missing. At a fault the acceptances made so far stand.
///
/// Costs what the site's own steps cost, and memory for the receipts and a mark for each site.
///
/// Source: Balegas and others 2015 for statements that are accepted at any later time.
pub fn carry<L: Ledger, M: Medium + Drop, R: Wait>(
    rt: &R,
    alloc: Global,
    inbox: &Inbox,
    way: &mut Way,
    schema: &Schema,
    desk: &Desk<L, M>,
    pass: &mut Pass<L>,
) -> Result<Vec<Receipt>, WorkFault>
    requires seat { IsSeatAt (receives_on inbox.now) way.old }
    ensures seat { IsSeatAt (receives_on inbox.now) way.new }
    ensures ok { IfOk result (λ receipts. Carries schema.now.sites (view way.old).taken
        (view way.new).taken
        receipts.items) }

    // It asked nothing else of the desk.
    ensures asked { IfOk result (λ receipts.
        pass.new.count ≡ pass.old.count + length receipts.items) }

    // Lost comes only where the letters taken lack an End of some site; other faults are of the
    // desk's call.
    ensures fault { IfErr result (TellsShort schema.now.sites desk.now.site (view way.old).taken
        (view way.new).taken) }
{
    let mut ended = vec![in alloc; false; usize::from(schema.sites())]?;
    let mut receipts = Vec::new(alloc);
    for _ in rt.forever() {
        if all_marked(ended.as_slice()) {
            return Ok(receipts);
        }
        let Some(letter) = take(rt, inbox, way) else {
            return Err(WorkFault::Lost { site: desk.site() });
        };
        match letter {
            Letter::Stated(statement) => {
                receipts.push(accept(rt, alloc, desk, pass, statement)?)?;
            }
            Letter::End(site) => {
                let place = usize::from(site.0);
                if place < ended.len() {
                    ended[place] = true;
                }
            }
        }
    }
    unreachable!()
}
