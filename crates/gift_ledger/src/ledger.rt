//! The ledger of one site.

ghost use Rattle.std.specs.Prelude.{ℕ, ◌≡◌, ◌+◌, ◌-◌, ◌<◌, ◌≤◌, ◌↔◌, max, ◌==◌, if◌then◌else◌, Some, None, IsErr, IfOk, IfErr, OnOk, OnErr};
ghost use Rattle.field_bounds.specs.Owed.{max_total};
ghost use Rattle.gift_ledger.specs.Ledger.{IsSlot, fresh_ledger, account_in, account_at, total_at, accepted_at, put_at, with_total, with_accepted};

use crate::account::{Account, FieldAccounts, LedgerFull};
use crate::accounts::Accounts;
use field_bounds::{FieldNo, Kind, MAX_TOTAL, Schema, SiteNo};
use std::alloc::{AllocError, Global};
use std::marker::Model;

/// What a site has given to each other site and accepted from each, on each field and of each kind,
/// as totals in rights. Contracts see the site and the totals by number of the other site, number
/// of field, and kind.
///
/// Every call after `new` costs the same, whatever the size of the ledger, and takes no memory. But
/// where a total is set behind the last field on which one was set, with the same site, the rows up
/// to it are written out: over all calls once for each site and field at most.
///
/// Source: Balegas and others 2015 for totals that only grow, this project for their limit.
#[derive(Drop)]
pub struct Ledger {
    site: SiteNo,
    sites: Vec<Accounts>,
}

impl Model for Ledger {
    ghost use Rattle.gift_ledger.specs.Ledger.{LedgerValue, IsWithinTotal};

    ghost Value = { LedgerValue };

    ghost view = { λ l. record { site = l.site.0; rows = l.sites.items } };

    ghost invariant = { λ l. IsWithinTotal l.sites.items };
}

impl Ledger {
    /// The ledger of a site that has given and accepted nothing. The error is want of memory. Reserves
    /// memory for four totals for each site and field, and writes none; no later call takes memory.
    pub fn new(alloc: Global, schema: &Schema, site: SiteNo) -> Result<Ledger, AllocError>
        requires site_in { site.0 < schema.now.sites }
        ensures fresh { IfOk result (λ ledger. ledger ≡ fresh_ledger schema.now site.0) }
    {
        let mut sites = Vec::new(alloc);
        for number in 0..schema.sites() {
            sites.push(Accounts::new(alloc, schema.fields())?)?;
        }
        Ok(Ledger { site, sites })
    }

    /// The site whose ledger it is.
    pub fn site(&self) -> SiteNo
        ensures value { result.0 ≡ self.now.site }
    {
        self.site
    }

    /// The totals with another site, in rights, by number of field: of a field past the end both
    /// are 0, and none stands behind the last field on which one was set. A pass over them costs less
    /// than a call for each.
    pub fn accounts(&self, site: SiteNo) -> &[FieldAccounts]
        ensures value { (f : ℕ) (k : Kind) → account_in result.now f k
            ≡ account_at self.now site.0 f k }
    {
        match self.sites.get(usize::from(site.0)) {
            Some(accounts) => accounts.as_slice(),
            None => &[],
        }
    }

    /// The total given so far to another site, of a kind on a field, at most
    /// 1,000,000,000,000,000,000.
    pub fn total(&self, to: SiteNo, field: FieldNo, kind: Kind) -> u64
        requires place { IsSlot self.now to.0 field.0 }
        ensures value { result ≡ total_at self.now to.0 field.0 kind }
        ensures most { result ≤ max_total }
    {
        self.account(to, field, kind).given
    }

    /// The greatest total accepted so far from another site, of a kind on a field; 0 where none
    /// was.
    pub fn accepted(&self, from: SiteNo, field: FieldNo, kind: Kind) -> u64
        requires place { IsSlot self.now from.0 field.0 }
        ensures value { result ≡ accepted_at self.now from.0 field.0 kind }
    {
        self.account(from, field, kind).accepted
    }

    /// Adds a gift to the total given to another site, and answers the new total, which a statement
    /// tells. Where the total so far and the amount are together above 1,000,000,000,000,000,000 it
    /// answers LedgerFull with the total so far, and nothing has changed.
    pub fn give(
        &mut self,
        to: SiteNo,
        field: FieldNo,
        kind: Kind,
        amount: u64,
    ) -> Result<u64, LedgerFull>
        requires place { IsSlot self.old to.0 field.0 }
        ensures full { IsErr result ↔ (max_total < total_at self.old to.0 field.0 kind + amount) }
        ensures total { IfOk result (λ total. total ≡ total_at self.old to.0 field.0 kind
            + amount) }
        ensures ok { OnOk result (self.new ≡ with_total self.old to.0 field.0 kind
            (total_at self.old to.0 field.0 kind + amount)) }
        ensures so_far { IfErr result (λ full. full.total ≡ total_at self.old to.0 field.0 kind) }
        ensures err { OnErr result (self.new ≡ self.old) }
    {
        let account = self.account(to, field, kind);
        if amount > MAX_TOTAL - account.given {
            return Err(LedgerFull {
                total: account.given,
            });
        }
        let total = account.given + amount;
        self.set_total(to, field, kind, total);
        Ok(total)
    }

    /// The total given so far to another site, for a statement that tells it again: None exactly
    /// where it is 0, since there is nothing to tell.
    pub fn restate(&self, to: SiteNo, field: FieldNo, kind: Kind) -> Option<u64>
        requires place { IsSlot self.now to.0 field.0 }
        ensures value { let total = total_at self.now to.0 field.0 kind in
            result ≡ (if total == 0 then None else Some total) }
    {
        let total = self.total(to, field, kind);
        if total == 0 { None } else { Some(total) }
    }

    /// Takes in a total that another site has stated, and answers the gain: what the total has
    /// above the greatest one accepted from it before, 0 where it has nothing above that. The
    /// greatest of both is kept.
    pub fn accept(&mut self, from: SiteNo, field: FieldNo, kind: Kind, total: u64) -> u64
        requires place { IsSlot self.old from.0 field.0 }
        ensures gain { result ≡ total - accepted_at self.old from.0 field.0 kind }
        ensures accepted { self.new ≡ with_accepted self.old from.0 field.0 kind
            (max total (accepted_at self.old from.0 field.0 kind)) }
    {
        let account = self.account(from, field, kind);
        let accepted = total.max(account.accepted);
        let gain = accepted - account.accepted;
        self.set_accepted(from, field, kind, accepted);
        gain
    }

    /// Sets the total given to another site. Nothing else changes.
    fn set_total(&mut self, to: SiteNo, field: FieldNo, kind: Kind, total: u64)
        requires place { IsSlot self.old to.0 field.0 }
        requires small { total ≤ max_total }
        ensures set { self.new ≡ with_total self.old to.0 field.0 kind total }
    {
        let account = self.account(to, field, kind);
        let account = Account {
            given: total,
            ..account
        };
        self.put(to, field, kind, account);
    }

    /// Sets the greatest total accepted from another site. Nothing else changes.
    fn set_accepted(&mut self, from: SiteNo, field: FieldNo, kind: Kind, total: u64)
        requires place { IsSlot self.old from.0 field.0 }
        ensures set { self.new ≡ with_accepted self.old from.0 field.0 kind total }
    {
        let account = self.account(from, field, kind);
        let account = Account {
            accepted: total,
            ..account
        };
        self.put(from, field, kind, account);
    }

    fn account(&self, site: SiteNo, field: FieldNo, kind: Kind) -> Account
        requires place { IsSlot self.now site.0 field.0 }
        ensures value { result ≡ account_at self.now site.0 field.0 kind }
        ensures most { result.given ≤ max_total }
    {
        self.sites[usize::from(site.0)].at(field, kind)
    }

    fn put(&mut self, site: SiteNo, field: FieldNo, kind: Kind, account: Account)
        requires place { IsSlot self.old site.0 field.0 }
        requires within { account.given ≤ max_total }
        ensures put { self.new ≡ put_at self.old site.0 field.0 kind account }
    {
        self.sites[usize::from(site.0)].put(field, kind, account);
    }
}
