//! Up to which transaction commits may be among the records that were let go.

ghost use Rattle.std.specs.Prelude.{◌≡◌, IfSome, IfNone};
ghost use Rattle.log_head.specs.Horizons.{HorizonValue, IsHorizon, horizon_of, rises_from, is_listed, is_passed, answer_of};

use field_bounds::{MAX_EPOCH, MAX_NUMBER, MAX_OPEN, TxnId};
use std::marker::Model;

/// What is told of a commit.
#[derive(Clone, Copy, Debug, PartialEq, Eq)]
pub enum CommitAnswer {
    /// It is among the log's records.
    Yes,
    /// It isn't.
    No,
    /// It isn't among those that are held, and it may be among those that were let go.
    Forgotten,
}

/// Up to which transaction commits may be among the records that were let go: each of them is of an
/// earlier epoch than this one, 1 to 1,000,000,000; or of this one, with at most this number, 0 to
/// 1,000,000,000, and not listed. Listed are transactions of this epoch, at most 64, that were open
/// when the log was shortened: 1 to that number, rising strictly. Contracts see the three.
///
/// Source: this project.
#[derive(Drop)]
pub struct Horizon {
    epoch: u32,
    number: u32,
    open_then: Vec<u32>,
}

impl Model for Horizon {
    ghost use Rattle.log_head.specs.Horizons.{HorizonValue, IsHorizon, horizon_of};

    ghost Value = { HorizonValue };

    ghost view = { λ h. horizon_of h.epoch h.number h.open_then.items };

    ghost invariant = { λ h. IsHorizon (horizon_of h.epoch h.number h.open_then.items) };
}

// Whether the numbers rise strictly, from above 0 to at most the last one.
#[tactic(auto, using(crate::proofs::Rising::rises_low, crate::proofs::Rising::rises_high, crate::proofs::Rising::rises_on, crate::proofs::Rising::rises_end))]
fn rise(most: u32, numbers: &[u32]) -> bool
    ensures { result ≡ rises_from 0 most numbers.now }
{
    let mut last = 0;
    for number in numbers {
        if *number <= last {
            return false;
        }
        if *number > most {
            return false;
        }
        last = *number;
    }
    true
}

// Whether a number is among these.
fn is_listed(number: u32, numbers: &[u32]) -> bool
    ensures { result ≡ is_listed number numbers.now }
{
    numbers.iter().any(|listed| *listed == number)
}

impl Horizon {
    /// A horizon of these numbers, or None where they are out of range. Takes no memory.
    pub fn new(epoch: u32, number: u32, open_then: Vec<u32>) -> Option<Horizon>
        ensures some { IfSome result (λ h. h ≡ horizon_of epoch number open_then.items) }
        ensures own { IfSome result IsHorizon }
        ensures none { IfNone result (IsHorizon (horizon_of epoch number open_then.items) → ⊥) }
    {
        if epoch == 0 || epoch > MAX_EPOCH || number > MAX_NUMBER {
            return None;
        }
        if open_then.len() > MAX_OPEN || !rise(number, open_then.as_slice()) {
            return None;
        }
        Some(Horizon {
            epoch,
            number,
            open_then,
        })
    }

    /// The epoch. Costs no memory.
    pub fn epoch(&self) -> u32
        ensures value { result ≡ self.now.epoch }
        ensures own { IsHorizon self.now }
    {
        self.epoch
    }

    /// The number. Costs no memory.
    pub fn number(&self) -> u32
        ensures value { result ≡ self.now.number }
        ensures own { IsHorizon self.now }
    {
        self.number
    }

    /// The transactions that are listed. Costs no memory.
    pub fn open_then(&self) -> &[u32]
        ensures value { result.now ≡ self.now.open_then }
        ensures own { IsHorizon self.now }
    {
        self.open_then.as_slice()
    }

    /// Whether the commit of a transaction may be among the records that were let go. Costs a look at
    /// each transaction that is listed, and no memory.
    pub fn has_passed(&self, txn: TxnId) -> bool
        ensures value { result ≡ is_passed self.now txn }
    {
        txn.epoch < self.epoch
            || (txn.epoch == self.epoch
                && txn.number <= self.number
                && !is_listed(txn.number, self.open_then.as_slice()))
    }

    /// What is told of a transaction whose commit is held, or isn't: that it is right, as long as the
    /// horizon is true, is the law `kept_answers_are_right`. Costs what `has_passed` costs.
    pub fn answer(&self, txn: TxnId, is_held: bool) -> CommitAnswer
        ensures value { result ≡ answer_of self.now txn is_held }
    {
        if is_held {
            return CommitAnswer::Yes;
        }
        if self.has_passed(txn) {
            CommitAnswer::Forgotten
        } else {
            CommitAnswer::No
        }
    }
}
