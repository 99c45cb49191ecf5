//! One site of the shop.

ghost use Rattle.std.specs.Prelude.{◌≡◌, ◌<◌};

use crate::fault::ShopFault;
use entry_text::write_entry;
use field_bounds::{
    Command, Entry, FieldNo, Kind, Last, Refusal, Reply, Schema, SiteNo, Statement, TxnId,
    statement_of,
};
use kept_records::{Medium, Mishap, TornMedium};
use metered_medium::Metered;
use site_desk::{Blank, Closed, Desk, Pass, Receipt, check_receipts};
use std::alloc::Global;
use std::sync::atomic::{AtomicU64, Ordering};
use std::sync::ledger::Ledger;
use std::sync::{Arc, Wait};

/// The one field: the seats that are left.
const SEATS: FieldNo = FieldNo(0);

/// A site on its desk, with the pass that its thread calls with and the receipts that it got.
#[derive(Drop)]
pub struct Office<L: Ledger> {
    desk: Desk<L, Metered<TornMedium>>,
    pass: Pass<L>,
    receipts: Vec<Receipt>,
    printed: usize,
    sent: Vec<Statement>,
    meter: Arc<AtomicU64>,
}

/// What an office is to do.
#[derive(Clone, Copy)]
pub enum Errand<'a> {
    /// Sell so many seats to a customer, who pays.
    Sell(u32),
    /// Set so many seats aside for a customer, who gives up.
    Hold(u32),
    /// Give rights for so many seats to another office.
    Give(SiteNo, u64),
    /// Take in what came by post.
    Accept(&'a [Statement]),
    /// Hold so many seats back for good: no office will sell them.
    Withdraw(u64),
    /// Look how many seats are left.
    Look,
}

impl<L: Ledger> Office<L> {
    // guide: open
    /// Opens the site over an empty medium that this mishap will strike.
    pub fn open(
        alloc: Global,
        blank: Blank,
        schema: &Schema,
        number: SiteNo,
        mishap: Mishap,
    ) -> Result<Office<L>, ShopFault>
        requires name { blank.name ≡ L.name }
        requires parts { blank.parts ≡ L.parts }
        requires one { blank.parts ≡ 1 }
        requires in_schema { number.0 < schema.now.sites }
    {
        let meter = Arc::new(alloc, AtomicU64::new(0))?;
        let medium = empty_medium(alloc, mishap, &meter)?;
        let (desk, mut passes) = Desk::new(alloc, blank, schema, number, medium)?;
        Ok(Office {
            desk,
            pass: passes.pop().unwrap(),
            receipts: Vec::new(alloc),
            printed: 0,
            sent: Vec::new(alloc),
            meter,
        })
    }
    // guide: end

    /// Asks the site, and keeps the receipt.
    fn ask<R: Wait>(
        &mut self,
        rt: &R,
        alloc: Global,
        command: Command,
    ) -> Result<Entry, ShopFault> {
        ask_desk(
            rt,
            alloc,
            &self.desk,
            &mut self.pass,
            &mut self.receipts,
            command,
        )
    }

    /// Opens a transaction, which is to be ended by `pay` or an abort.
    fn begin<R: Wait>(&mut self, rt: &R, alloc: Global) -> Result<TxnId, ShopFault> {
        let entry = self.ask(rt, alloc, Command::Begin)?;
        match entry.reply {
            Reply::Begun(txn) => Ok(txn),
            _ => Err(ShopFault::Reply(entry)),
        }
    }

    /// Sets seats aside, and tells whether the office has rights for so many.
    fn set_aside<R: Wait>(
        &mut self,
        rt: &R,
        alloc: Global,
        txn: TxnId,
        seats: u32,
    ) -> Result<bool, ShopFault> {
        let escrow = Command::Escrow {
            txn,
            field: SEATS,
            change: -i64::from(seats),
        };
        let entry = self.ask(rt, alloc, escrow)?;
        match entry.reply {
            Reply::Granted => Ok(true),
            Reply::Refused(Refusal::Short { share: _ }) => Ok(false),
            _ => Err(ShopFault::Reply(entry)),
        }
    }

    /// Sets seats aside and sells them to a customer who pays, or gives them back. Tells whether
    /// that is done: a sale that was lost isn't.
    fn sell<R: Wait>(
        &mut self,
        rt: &R,
        alloc: Global,
        seats: u32,
        pays: bool,
    ) -> Result<bool, ShopFault> {
        let txn = self.begin(rt, alloc)?;
        if self.set_aside(rt, alloc, txn, seats)? && pays {
            return self.pay(rt, alloc, txn);
        }
        self.ask(rt, alloc, Command::Abort { txn })?;
        Ok(true)
    }

    // guide: unsure
    /// Restarts the site, which has answered Unsure, and tells whether that command was kept.
    fn was_kept<R: Wait>(&mut self, rt: &R, alloc: Global) -> Result<bool, ShopFault> {
        let entry = self.ask(rt, alloc, Command::Restart)?;
        match entry.reply {
            Reply::Restarted { epoch: _, last } => Ok(last == Last::Kept),
            _ => Err(ShopFault::Reply(entry)),
        }
    }

    /// Commits a sale that was granted, and tells whether the seats are sold.
    fn pay<R: Wait>(&mut self, rt: &R, alloc: Global, txn: TxnId) -> Result<bool, ShopFault> {
        let entry = self.ask(rt, alloc, Command::Commit { txn })?;
        match entry.reply {
            Reply::Committed => Ok(true),
            Reply::Unsure => self.was_kept(rt, alloc),
            _ => Err(ShopFault::Reply(entry)),
        }
    }
    // guide: end

    /// Gives rights to sell so many seats to another site, and answers the statement that tells it:
    /// None where nothing was given.
    fn give<R: Wait>(
        &mut self,
        rt: &R,
        alloc: Global,
        to: SiteNo,
        amount: u64,
    ) -> Result<Option<Statement>, ShopFault> {
        let kind = Kind::Lower;
        let gift = Command::Give {
            to,
            field: SEATS,
            kind,
            amount,
        };
        // guide: give
        let entry = self.ask(rt, alloc, gift)?;
        if entry.reply != Reply::Unsure {
            return Ok(statement_of(&entry));
        }
        if !self.was_kept(rt, alloc)? {
            return Ok(None);
        }
        let restate = Command::Restate {
            to,
            field: SEATS,
            kind,
        };
        Ok(statement_of(&self.ask(rt, alloc, restate)?))
        // guide: end
    }

    // guide: accept
    /// Asks the site, and once more where it has answered Unsure and the command was lost.
    fn ask_till_kept<R: Wait>(
        &mut self,
        rt: &R,
        alloc: Global,
        command: Command,
    ) -> Result<(), ShopFault> {
        let entry = self.ask(rt, alloc, command)?;
        if entry.reply == Reply::Unsure && !self.was_kept(rt, alloc)? {
            self.ask(rt, alloc, command)?;
        }
        Ok(())
    }

    /// Takes in statements, however often and in whatever order they come.
    fn accept<R: Wait>(
        &mut self,
        rt: &R,
        alloc: Global,
        arrived: &[Statement],
    ) -> Result<(), ShopFault> {
        for statement in arrived {
            self.ask_till_kept(rt, alloc, Command::Accept(*statement))?;
        }
        Ok(())
    }
    // guide: end

    /// Holds so many seats back for good, where the site has rights to sell them.
    fn withdraw<R: Wait>(&mut self, rt: &R, alloc: Global, amount: u64) -> Result<(), ShopFault> {
        let tighten = Command::Tighten {
            field: SEATS,
            kind: Kind::Lower,
            amount,
        };
        self.ask_till_kept(rt, alloc, tighten)
    }

    /// Sells seats to a customer who pays. A sale that was lost is made again.
    fn sell_again<R: Wait>(&mut self, rt: &R, alloc: Global, seats: u32) -> Result<(), ShopFault> {
        if !self.sell(rt, alloc, seats, true)? {
            self.sell(rt, alloc, seats, true)?;
        }
        Ok(())
    }

    /// Sets seats aside for a customer, who gives up.
    fn hold<R: Wait>(&mut self, rt: &R, alloc: Global, seats: u32) -> Result<(), ShopFault> {
        self.sell(rt, alloc, seats, false)?;
        Ok(())
    }

    /// Gives rights to another site, and keeps the statement for the post.
    fn send<R: Wait>(
        &mut self,
        rt: &R,
        alloc: Global,
        to: SiteNo,
        amount: u64,
    ) -> Result<(), ShopFault> {
        if let Some(statement) = self.give(rt, alloc, to, amount)? {
            self.sent.push(statement)?;
        }
        Ok(())
    }

    fn look<R: Wait>(&mut self, rt: &R, alloc: Global) -> Result<(), ShopFault> {
        self.ask(rt, alloc, Command::Read { field: SEATS })?;
        self.ask(rt, alloc, Command::Share { field: SEATS })?;
        Ok(())
    }

    fn do_errand<R: Wait>(
        &mut self,
        rt: &R,
        alloc: Global,
        errand: Errand,
    ) -> Result<(), ShopFault> {
        match errand {
            Errand::Sell(seats) => self.sell_again(rt, alloc, seats),
            Errand::Hold(seats) => self.hold(rt, alloc, seats),
            Errand::Give(to, amount) => self.send(rt, alloc, to, amount),
            Errand::Accept(arrived) => self.accept(rt, alloc, arrived),
            Errand::Withdraw(amount) => self.withdraw(rt, alloc, amount),
            Errand::Look => self.look(rt, alloc),
        }
    }

    /// Does one errand after another.
    pub fn run<R: Wait>(
        &mut self,
        rt: &R,
        alloc: Global,
        errands: &[Errand],
    ) -> Result<(), ShopFault> {
        for errand in errands {
            self.do_errand(rt, alloc, *errand)?;
        }
        Ok(())
    }

    /// Prints the entries whose receipts came since the last print.
    pub fn print_news(
        &mut self,
        rt: &impl Print,
        alloc: Global,
        schema: &Schema,
    ) -> Result<(), ShopFault> {
        for receipt in self.receipts.iter().skip(self.printed) {
            print_entry(rt, alloc, schema, receipt.entry())?;
        }
        self.printed = self.receipts.len();
        Ok(())
    }

    /// The statements of the gifts so far.
    pub fn sent(&self) -> &[Statement] {
        &self.sent
    }

    /// The bytes that were appended to the site's medium so far.
    pub fn appended(&self) -> u64 {
        self.meter.load(Ordering::SeqCst)
    }

    /// Closes the site, and answers its history, where the receipts are those of all its entries.
    pub fn close(self, alloc: Global) -> Result<Vec<Entry>, ShopFault> {
        // guide: close
        let passes = vec![in alloc; self.pass]?;
        close_desk(alloc, self.desk, passes, &self.receipts)
        // guide: end
    }
}

// guide: ask
/// Asks the site that is behind a desk, and keeps the receipt. Room for it comes first, so that
/// none is lost.
fn ask_desk<L: Ledger, M: Medium + Drop, R: Wait>(
    rt: &R,
    alloc: Global,
    desk: &Desk<L, M>,
    pass: &mut Pass<L>,
    receipts: &mut Vec<Receipt>,
    command: Command,
) -> Result<Entry, ShopFault> {
    receipts.reserve(1)?;
    let receipt = desk.call(rt, alloc, pass, command)?;
    receipts.push(receipt)?;
    Ok(receipt.entry())
}
// guide: end

/// An empty medium that this mishap will strike, with the meter.
fn empty_medium(
    alloc: Global,
    mishap: Mishap,
    meter: &Arc<AtomicU64>,
) -> Result<Metered<TornMedium>, ShopFault> {
    let meter = Arc::try_clone(meter)?;
    let mut inner = TornMedium::new(Vec::new(alloc));
    inner.arm(mishap);
    Ok(Metered { inner, meter })
}

/// Prints the text of an entry.
fn print_entry(
    rt: &impl Print,
    alloc: Global,
    schema: &Schema,
    entry: Entry,
) -> Result<(), ShopFault> {
    let line = write_entry(alloc, schema, entry)?;
    println!(rt; "{line}")?;
    Ok(())
}

// guide: receipts
/// Closes the site that is behind a desk, and answers its history.
fn close_desk<L: Ledger, M: Medium + Drop>(
    alloc: Global,
    desk: Desk<L, M>,
    passes: Vec<Pass<L>>,
    receipts: &[Receipt],
) -> Result<Vec<Entry>, ShopFault> {
    match desk.close(passes) {
        Ok(closed) => checked_history(alloc, &closed, receipts),
        Err(refused) => Err(ShopFault::Close(refused.length)),
    }
}

/// The history of a site that is closed, where the receipts are those of all its entries.
fn checked_history<M: Medium>(
    alloc: Global,
    closed: &Closed<M>,
    receipts: &[Receipt],
) -> Result<Vec<Entry>, ShopFault> {
    check_receipts(alloc, closed, receipts)?;
    Ok(Vec::from_slice(alloc, closed.history())?)
}
// guide: end
