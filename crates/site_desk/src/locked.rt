//! The locked value: a site and the book of its calls. No other module makes a receipt or raises a
//! pass's count.

ghost use Rattle.std.specs.Prelude.{◌≡◌, ◌+◌, ◌<◌, ◌↔◌, [], length, IfOk, IfErr, OnErr, IsTrue, vec_len, reverse};
ghost use Rattle.site_desk.specs.Faults.{FailsAt};
ghost use Rattle.site_desk.specs.Passes.{AreNew, calls_of, Settles};
ghost use Rattle.site_desk.specs.Receipts.{Counts, Serves};
ghost use Rattle.field_bounds.specs.Effects.{fresh};
ghost use Rattle.field_bounds.specs.Owed.{IsRun};
ghost use Rattle.field_bounds.specs.Central.{AreOf};
ghost use Rattle.site_step.specs.Site.{base_of};

use crate::DeskFault;
use field_bounds::{Command, Entry, Schema, SiteNo};
use kept_records::Medium;
use site_step::Site;
use std::alloc::{AllocError, Global};
use std::marker::Model;
use std::sync::ledger;
use std::sync::ledger::{Book, Ledger, Share};

/// A caller's token for one desk, which can't be copied: its share in the book of the desk's calls.
/// Contracts see how many calls were made with it, and the number of the entry that the last one
/// made, both 0 at first.
#[derive(Drop)]
pub struct Pass<L: Ledger> {
    share: Share<L>,
    count: u64,
    last: u64,
}

impl<L: Ledger> Model for Pass<L> {
    ghost use Rattle.std.specs.Prelude.{◌≡◌};
    ghost use Rattle.site_desk.specs.Passes.{PassSeen};

    ghost Value = { PassSeen };

    ghost view = { λ p. record { count = p.count; last = p.last } };

    ghost invariant = { λ p. (p.share.parts ≡ 1) × (p.share.amount ≡ p.count) };
}

/// The entry that a call made, with its site and its place in the site's history. Only a call that
/// was served makes one.
#[derive(Clone, Copy, PartialEq, Eq, Debug)]
pub struct Receipt {
    site: SiteNo,
    number: u64,
    entry: Entry,
}

/// The locked value: a site, and the book of the calls made on it. The book's count is the length
/// of the history, which is a run of owed replies of the site on its base whenever the lock is got.
/// Contracts see the site.
///
/// Source: O'Neil 1986 for escrows, Balegas and others 2015 for rights that sites hold, this
/// project for the lock and the book.
#[derive(Drop)]
pub struct Kept<L: Ledger, M: Medium> {
    site: Site<M>,
    calls: Book<L>,
}

impl<L: Ledger, M: Medium> Model for Kept<L, M> {
    ghost use Rattle.std.specs.Prelude.{◌≡◌, length};
    ghost use Rattle.field_bounds.specs.Central.{AreOf};
    ghost use Rattle.site_step.specs.Site.{SiteValue};

    ghost Value = { SiteValue };

    ghost view = { λ k. k.site };

    ghost invariant = { λ k. (length k.site.history ≡ k.calls.total)
        × AreOf k.site.site.0 k.site.history };
}

impl<L: Ledger> Pass<L> {
    /// The calls made with this pass. Costs no memory.
    pub fn count(&self) -> u64
        ensures value { result ≡ self.now.count }
    {
        self.count
    }

    /// The number of the entry that the last call with this pass made, from 1, and 0 before the
    /// first. Costs no memory.
    pub fn last(&self) -> u64
        ensures value { result ≡ self.now.last }
    {
        self.last
    }
}

impl Receipt {
    /// The site that was called. Costs no memory.
    pub fn site(&self) -> SiteNo
        ensures value { result ≡ self.now.site }
    {
        self.site
    }

    /// The entry's place in the site's history, from 1. Costs no memory.
    pub fn number(&self) -> u64
        ensures value { result ≡ self.now.number }
    {
        self.number
    }

    /// The command that was asked, with the site's reply. Costs no memory.
    pub fn entry(&self) -> Entry
        ensures value { result ≡ self.now.entry }
    {
        self.entry
    }
}

impl<L: Ledger, M: Medium> Kept<L, M> {
    /// The commands answered so far with their replies, the oldest first: a run of owed replies on
    /// the site's base, each entry of this site. Costs no memory.
    pub fn history(&self) -> &[Entry]
        ensures value { reverse result.now ≡ self.now.history }
        ensures run { IsRun self.now.schema self.now.site.0 (base_of self.now) self.now.history }
        ensures own { AreOf self.now.site.0 self.now.history }
    {
        self.site.history()
    }

    /// Answers a command. It is the one call that changes a kept site, raises a pass's count or
    /// makes a receipt. The history is the one before and one entry, the command with the site's
    /// reply, and the receipt is that entry (`site`). The pass has one call more, and has seen that
    /// entry (`pass`).
    ///
    /// `NoMemory`: memory is wanting. `WentBack`: the pass has seen an entry beyond the end of the
    /// history, whose length is told. After a fault neither site nor pass has changed. `GateTurns`
    /// never comes.
    ///
    /// Costs what the site's own step costs.
    pub fn serve(
        &mut self,
        alloc: Global,
        pass: &mut Pass<L>,
        command: Command,
    ) -> Result<Receipt, DeskFault>
        ensures site { IfOk result (λ r. Serves self.old command self.new r) }
        ensures pass { IfOk result (λ r. Counts pass.old command r pass.new) }
        ensures same { OnErr result ((self.new ≡ self.old) × (pass.new ≡ pass.old)) }
        ensures fault { IfErr result (λ e. FailsAt pass.old.last (length self.old.history) e) }
    {
        self.calls.audit(&mut pass.share);
        let length = self.site.history().len() as u64;
        if pass.last > length {
            return Err(DeskFault::WentBack { length });
        }
        let reply = self.site.apply(alloc, command)?;
        self.calls.add(&mut pass.share, 1);
        pass.count += 1;
        pass.last = length + 1;
        let site = self.site.site();
        Ok(Receipt {
            site,
            number: length + 1,
            entry: Entry {
                site,
                command,
                reply,
            },
        })
    }
}

/// A new book of calls, which no type stands for yet. Contracts see its name, and the number of its
/// parts: a desk gives a pass for each.
#[derive(Drop)]
pub struct Blank {
    ledger: ledger::Blank,
    parts: u64,
}

impl Model for Blank {
    ghost use Rattle.std.specs.Prelude.{◌≡◌};
    ghost use Rattle.site_desk.specs.Passes.{BlankSeen};

    ghost Value = { BlankSeen };

    ghost view = { λ b. record { name = b.ledger.name; parts = b.parts } };

    ghost invariant = { λ b. b.ledger.parts ≡ b.parts };
}

impl Blank {
    /// A book of so many parts. Costs no memory.
    pub fn new(parts: u64) -> Blank
        ensures parts { result.parts ≡ parts }
    {
        Blank {
            ledger: ledger::Blank::new(parts),
            parts,
        }
    }
}

/// A site that no call can change any more. Contracts see the site.
#[derive(Drop)]
pub struct Closed<M: Medium> {
    site: Site<M>,
}

impl<M: Medium> Model for Closed<M> {
    ghost use Rattle.field_bounds.specs.Central.{AreOf};
    ghost use Rattle.site_step.specs.Site.{SiteValue};

    ghost Value = { SiteValue };

    ghost view = { λ c. c.site };

    ghost invariant = { λ c. AreOf c.site.site.0 c.site.history };
}

impl<M: Medium> Closed<M> {
    /// The site's number. Costs no memory.
    pub fn site(&self) -> SiteNo
        ensures value { result ≡ self.now.site }
    {
        self.site.site()
    }

    /// The commands answered with their replies, the oldest first: a run of owed replies on the
    /// site's base, each entry of this site. Costs no memory.
    pub fn history(&self) -> &[Entry]
        ensures value { reverse result.now ≡ self.now.history }
        ensures run { IsRun self.now.schema self.now.site.0 (base_of self.now) self.now.history }
        ensures own { AreOf self.now.site.0 self.now.history }
    {
        self.site.history()
    }

    /// Whether the history stands on the site's fresh base. Costs no memory.
    pub fn on_fresh_base(&self) -> bool
        ensures value { result ≡ self.now.fresh }
        ensures base { IsTrue result ↔ (base_of self.now ≡ fresh self.now.schema self.now.site.0) }
    {
        self.site.on_fresh_base()
    }
}

/// Whether the passes' calls are as many as `length`.
fn adds_up<L: Ledger>(passes: &[Pass<L>], length: u64) -> bool
    ensures { IsTrue result ↔ (calls_of passes.now ≡ length) }
{
    let mut left = length;
    for pass in passes {
        if pass.count() > left {
            return false;
        }
        left -= pass.count();
    }
    left == 0
}

/// A new kept site, whose history is empty, and a pass for each part of the blank.
pub(crate) fn make<L: Ledger, M: Medium + Drop>(
    alloc: Global,
    blank: Blank,
    site: Site<M>,
) -> Result<(Kept<L, M>, Vec<Pass<L>>), AllocError>
    requires name { blank.name ≡ L.name }
    requires parts { blank.parts ≡ L.parts }
    requires some { 0 < blank.parts }
    requires empty { site.history ≡ [] }
    ensures site { IfOk result (λ r. r.0 ≡ site) }
    ensures passes { IfOk result (λ r. (vec_len r.1 ≡ blank.parts) × (calls_of r.1.items ≡ 0)
        × AreNew r.1.items) }
{
    let Blank { ledger, parts } = blank;
    let (calls, mut rest) = ledger.open::<L>();
    let mut passes = Vec::new(alloc);
    for _i in 0..parts {
        let share = rest.split_off(1, 0);
        passes.push(Pass {
            share,
            count: 0,
            last: 0,
        })?;
    }
    Ok((Kept { site, calls }, passes))
}

impl<L: Ledger, M: Medium> Kept<L, M> {
    /// The number of the next call with this pass, from 1.
    pub(crate) fn next_call(&mut self, pass: &mut Pass<L>) -> u64
        ensures number { result ≡ pass.old.count + 1 }
        ensures same { (self.new ≡ self.old) × (pass.new ≡ pass.old) }
    {
        self.calls.audit(&mut pass.share);
        let _length = self.site.history().len();
        pass.count + 1
    }

    /// Closes the site where the passes' calls add up to its history and it is the site of this
    /// schema and number. Else hands it back with the length of its history.
    pub(crate) fn settle(
        self,
        schema: &Schema,
        number: SiteNo,
        passes: &[Pass<L>],
    ) -> Result<Closed<M>, (Kept<L, M>, u64)>
        ensures ok { IfOk result (λ closed. (closed ≡ self)
            × Settles schema.now number passes.now self) }
        ensures back { IfErr result (λ e. (e.0 ≡ self) × (e.1 ≡ length self.history)) }
        ensures refused { OnErr result (¬ Settles schema.now number passes.now self) }
    {
        let length = self.site.history().len() as u64;
        if adds_up(passes, length) && self.site.is_of(schema, number) {
            let Kept { site, calls: _ } = self;
            return Ok(Closed { site });
        }
        Err((self, length))
    }
}
