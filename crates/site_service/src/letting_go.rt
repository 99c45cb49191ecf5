//! What is told of a log once more of it was let go.

ghost use Rattle.std.specs.Prelude.{◌≡◌, ◌+◌, true, Option, Some, IfOk, IfSome};
ghost use Rattle.field_bounds.specs.declared.id.TxnId.{TxnId as Txn};
ghost use Rattle.kept_records.specs.Keeping.{IsKept};
ghost use Rattle.field_bounds.specs.Owed.{is_up};
ghost use Rattle.site_step.specs.Site.{base_of};
ghost use Rattle.field_bounds.specs.Effects.{is_up_to};
ghost use Rattle.site_service.specs.Index.{IsIndexOf};
ghost use Rattle.site_service.specs.LetGo.{may_be_gone};
ghost use Rattle.site_step.specs.Shortening.{later_txn};
ghost use Rattle.site_service.specs.Shortening.{bytes_told, records_told, reach_told};
ghost use Rattle.site_service.specs.Shorter.{ListsIf, ListsAllOpen};

use crate::kept::KeptCommits;
use crate::telling::reach_of;
use field_bounds::{Entry, MAX_OPEN, TxnId, is_up_to};
use history::GhostHistory;
use kept_records::MemoryMedium;
use log_head::Gone;
use site_step::Site;
use std::alloc::{AllocError, Global};

/// The transaction in front of the first one that a site begins.
const FIRST: TxnId = TxnId {
    epoch: 1,
    number: 0,
};

/// Whether the commit of a transaction may be among what was let go, by what is told. Costs what
/// `Horizon::has_passed` costs.
fn may_be_gone(told: &Option<Gone>, txn: TxnId) -> bool
    ensures { result ≡ may_be_gone told.now txn }
{
    match told {
        Some(gone) => gone.horizon.has_passed(txn),
        None => false,
    }
}

// How many bytes were let go by what is told.
fn bytes_told(told: &Option<Gone>) -> u64
    ensures { result ≡ bytes_told told.now }
{
    match told {
        Some(gone) => gone.bytes,
        None => 0,
    }
}

// How many records without summaries were let go by what is told.
fn records_told(told: &Option<Gone>) -> u64
    ensures { result ≡ records_told told.now }
{
    match told {
        Some(gone) => gone.records,
        None => 0,
    }
}

/// How many bytes, and how many records without summaries, were let go, with so many more; None
/// where that is no number of 64 bits.
pub(crate) fn counted(told: &Option<Gone>, bytes: u64, records: u64) -> Option<(u64, u64)>
    ensures bytes { IfSome result (λ counts. counts.0 ≡ bytes_told told.now + bytes) }
    ensures records { IfSome result (λ counts. counts.1 ≡ records_told told.now + records) }
{
    let bytes = bytes_told(told).checked_add(bytes)?;
    let records = records_told(told).checked_add(records)?;
    Some((bytes, records))
}

// Up to which transaction commits may be gone, by what is told.
fn reach_told(told: &Option<Gone>) -> TxnId
    ensures { result ≡ reach_told told.now }
{
    match told {
        Some(gone) => reach_of(gone),
        None => FIRST,
    }
}

// The later of two transactions.
#[tactic(auto, using(crate::proofs::Spares::up_trans, crate::proofs::Spares::up_other))]
fn later_of(a: TxnId, b: TxnId) -> TxnId
    ensures value { result ≡ later_txn a (Some b) }
    ensures first { (txn : Txn) → is_up_to a txn ≡ true → is_up_to result txn ≡ true }
    ensures second { (txn : Txn) → is_up_to b txn ≡ true → is_up_to result txn ≡ true }
{
    if is_up_to(a, b) { a } else { b }
}

/// Up to which transaction the commits may go that are let go, by what is told, where those that go
/// now go up to this one: it is of epoch 1 or a later one.
#[tactic(auto, using(crate::proofs::Spares::told_up))]
pub(crate) fn reached(told: &Option<Gone>, latest: TxnId) -> TxnId
    ensures value { result ≡ later_txn (reach_told told.now) (Some latest) }
    ensures latest { (txn : Txn) → is_up_to latest txn ≡ true → is_up_to result txn ≡ true }
    ensures told { (txn : Txn) → may_be_gone told.now txn ≡ true → is_up_to result txn ≡ true }
{
    later_of(reach_told(told), latest)
}

/// Lists an open transaction, where a horizon up to this one would tell it as gone, which it wasn't
/// before, and no commit of it is held. False where it would have to be listed and can't.
#[tactic(auto, using(crate::proofs::Spares::gone_before, crate::proofs::Spares::not_reached, crate::proofs::Spares::held_still, crate::proofs::Spares::lists_more))]
pub(crate) fn list_open(
    alloc: Global,
    kept: &mut KeptCommits,
    log: &[u8],
    told: &Option<Gone>,
    last: TxnId,
    listed: &mut Vec<u32>,
    txn: TxnId,
) -> Result<bool, AllocError>
    requires index { IsIndexOf kept.old log.now }
    requires log { IsKept log.now }
    ensures index { IsIndexOf kept.new log.now }
    ensures lists { IfOk result (ListsIf log.now told.now last listed.old.items listed.new.items
        txn) }
{
    if may_be_gone(told, txn) || !is_up_to(last, txn) {
        return Ok(true);
    }
    if kept.holds(alloc, log, txn)? {
        return Ok(true);
    }
    if txn.epoch != last.epoch {
        return Ok(false);
    }
    listed.push(txn.number)?;
    Ok(true)
}

/// The open transactions of a site that a horizon up to this one has to list, where its medium holds
/// this log; None where it can't list one of them.
pub(crate) fn list_all_open(
    alloc: Global,
    kept: &mut KeptCommits,
    site: &Site<MemoryMedium, GhostHistory<Entry>>,
    log: &[u8],
    told: &Option<Gone>,
    last: TxnId,
) -> Result<Option<Vec<u32>>, AllocError>
    requires up { is_up (base_of site.now) site.now.history ≡ true }
    requires index { IsIndexOf kept.old log.now }
    requires log { IsKept log.now }
    ensures index { IsIndexOf kept.new log.now }
    ensures lists { IfOk result (λ found. IfSome found (λ listed. ListsAllOpen site.now log.now
        told.now last listed.items)) }
{
    let mut listed = Vec::new(alloc);
    'open: for n in 0..MAX_OPEN + 1 {
        match site.open_txn(n) {
            Some(txn) => {
                let is_listed = list_open(alloc, kept, log, told, last, &mut listed, txn)?;
                if !is_listed {
                    return Ok(None);
                }
            }
            None => return Ok(Some(listed)),
        }
    }
    Ok(None)
}
