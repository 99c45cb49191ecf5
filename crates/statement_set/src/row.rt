//! The statements of one channel whose totals came in rising order.

ghost use Rattle.std.specs.Prelude.{◌≡◌, ◌↔◌, ◌<◌, [], IsTrue, IfOk, OnErr, All, Contains};
ghost use Rattle.std.specs.Bool.{OnTrue, OnFalse};
ghost use Rattle.statement_set.specs.Rows.{channel_of, slot_of, Rises, IsPutIn};

use field_bounds::{FieldNo, Kind, SiteNo, Statement};
use std::alloc::{AllocError, Global};

/// From which site to which a statement is, and of which field and kind.
#[derive(Clone, Copy, PartialEq, Eq)]
pub struct Channel {
    pub from: SiteNo,
    pub to: SiteNo,
    pub field: FieldNo,
    pub kind: Kind,
}

/// The totals of a channel that came in rising order.
#[derive(Drop)]
pub struct Row {
    pub channel: Channel,
    pub totals: Vec<u64>,
}

impl Channel {
    /// The channel of a statement.
    #[inline(always)]
    pub fn of(statement: Statement) -> Channel
        ensures { result ≡ channel_of statement }
    {
        Channel {
            from: statement.from,
            to: statement.to,
            field: statement.field,
            kind: statement.kind,
        }
    }

    /// Whether it is this channel.
    #[inline(always)]
    pub fn is(self, channel: Channel) -> bool
        ensures { IsTrue result ↔ (self ≡ channel) }
    {
        self == channel
    }

    /// Which of so many slots is the channel's. By these factors no two channels of 64 sites and 256
    /// fields have one sum, so among enough slots each has one of its own, and those of a few sites
    /// and fields mostly have among few. No more is asked of the factors. Others are found by trying:
    /// of four numbers below 60,000, taken by chance, about one set in three serves, as a short program
    /// shows that goes through all those channels and looks for a sum that comes twice.
    #[inline(always)]
    pub fn slot(self, slots: usize) -> usize
        requires some { 0 < slots }
        ensures { result ≡ slot_of self slots }
    {
        let from = u32::from(self.from.0);
        let to = u32::from(self.to.0);
        let field = u32::from(self.field.0);
        let kind = match self.kind {
            Kind::Lower => 0,
            Kind::Raise => 42_275,
        };
        (from * 3_935 + to * 16_875 + field * 15_599 + kind) as usize % slots
    }
}

impl Row {
    /// A row with no total. Takes no memory.
    pub fn new(alloc: Global, channel: Channel) -> Row
        ensures channel { result.channel ≡ channel }
        ensures totals { result.totals.items ≡ [] }
    {
        Row {
            channel,
            totals: Vec::new(alloc),
        }
    }

    /// Whether the row has a total, by a step for each doubling of their number.
    fn holds(&self, total: u64) -> bool
        requires rises { Rises self.now.totals.items }
        ensures { IsTrue result ↔ Contains self.now.totals.items total }
    {
        self.totals.binary_search(&total).is_ok()
    }

    /// Whether the row has a total. A look at the last one, and if that is greater, a step for each
    /// doubling of their number.
    #[inline(always)]
    pub fn has(&self, total: u64) -> bool
        requires rises { Rises self.now.totals.items }
        ensures { IsTrue result ↔ Contains self.now.totals.items total }
    {
        match self.totals.last() {
            Some(last) if *last > total => self.holds(total),
            Some(last) => *last == total,
            None => false,
        }
    }

    /// Whether each total of the row is less.
    #[inline(always)]
    fn is_below(&self, total: u64) -> bool
        requires rises { Rises self.now.totals.items }
        ensures { IsTrue result ↔ All (λ other. other < total) self.now.totals.items }
    {
        match self.totals.last() {
            Some(last) => *last < total,
            None => true,
        }
    }

    /// Puts a total behind the others if it is greater, and tells whether the row has it then.
    #[inline(always)]
    pub fn put(&mut self, total: u64) -> Result<bool, AllocError>
        requires rises { Rises self.old.totals.items }
        ensures rises { Rises self.new.totals.items }
        ensures channel { self.new.channel ≡ self.old.channel }
        ensures there { IfOk result (λ there. OnTrue there
            (IsPutIn self.old.totals.items self.new.totals.items total)) }
        ensures not { IfOk result (λ there. OnFalse there
            (self.new.totals.items ≡ self.old.totals.items)) }
        ensures err { OnErr result (self.new.totals.items ≡ self.old.totals.items) }
    {
        if self.is_below(total) {
            self.totals.push(total)?;
            return Ok(true);
        }
        Ok(self.has(total))
    }
}
