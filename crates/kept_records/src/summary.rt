//! What the records before a place stand for, as one value.

ghost use Rattle.std.specs.Prelude.{◌≡◌};
ghost use Rattle.kept_records.specs.Summary.{summary_told, summary_record};

use crate::record::Record;
use crate::total::{Cut, Cuts, OwnRights, Total, Totals};
use std::marker::Model;

/// What records stand for: the epoch, the own rights of each field, to lower and to raise it, and
/// the totals given to and accepted from other sites that are above 0, each group rising strictly
/// by site, field and kind, and the totals given up for good, rising strictly by field and kind.
/// It is what a record tells that is a summary (`Record::Summary`). Contracts see lists.
#[derive(Drop)]
pub struct Summary {
    epoch: u32,
    rights: OwnRights,
    gifts: Totals,
    accepts: Totals,
    tightenings: Cuts,
}

impl Model for Summary {
    ghost use Rattle.kept_records.specs.Summary.{SummaryValue};

    ghost Value = { SummaryValue };

    ghost view = { λ s. record {
      epoch = s.epoch;
      rights = s.rights;
      gifts = s.gifts;
      accepts = s.accepts;
      tightenings = s.tightenings;
    } };
}

impl Summary {
    /// A summary of these numbers, those of its record say. Takes no memory.
    pub fn new(
        epoch: u32,
        rights: OwnRights,
        gifts: Totals,
        accepts: Totals,
        tightenings: Cuts,
    ) -> Summary
        ensures all { result ≡ summary_told epoch rights gifts accepts tightenings }
    {
        Summary {
            epoch,
            rights,
            gifts,
            accepts,
            tightenings,
        }
    }

    /// The record of the summary. Takes no memory.
    pub fn into_record(self) -> Record
        ensures all { result ≡ summary_record self }
    {
        Record::Summary {
            epoch: self.epoch,
            rights: self.rights,
            gifts: self.gifts,
            accepts: self.accepts,
            tightenings: self.tightenings,
        }
    }

    /// The epoch, 0 to 1,000,000,000.
    pub fn epoch(&self) -> u32
        ensures value { result ≡ self.now.epoch }
    {
        self.epoch
    }

    /// The own rights of each field, to lower and to raise it.
    pub fn rights(&self) -> &[(u64, u64)]
        ensures all { result.now ≡ self.now.rights }
    {
        self.rights.as_slice()
    }

    /// The totals that were given.
    pub fn gifts(&self) -> &[Total]
        ensures all { result.now ≡ self.now.gifts }
    {
        self.gifts.as_slice()
    }

    /// The totals that were accepted.
    pub fn accepts(&self) -> &[Total]
        ensures all { result.now ≡ self.now.accepts }
    {
        self.accepts.as_slice()
    }

    /// The totals that were given up for good.
    pub fn tightenings(&self) -> &[Cut]
        ensures all { result.now ≡ self.now.tightenings }
    {
        self.tightenings.as_slice()
    }
}
