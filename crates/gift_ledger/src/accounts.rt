//! The totals with one other site, field by field.

ghost use Rattle.std.specs.Prelude.{◌≡◌, ◌<◌, ◌≤◌, ℕ, length, replicate, vec_capacity, IfOk};
ghost use Rattle.gift_ledger.specs.Ledger.{no_accounts, of_fields, account_in, put_in};

use crate::account::{Account, FieldAccounts};
use field_bounds::{FieldNo, Kind, both_kinds};
use std::alloc::{AllocError, Global};
use std::marker::Model;

const NOTHING: Account = Account {
    given: 0,
    accepted: 0,
};

const NOTHING_YET: FieldAccounts = FieldAccounts {
    lower: NOTHING,
    raise: NOTHING,
};

/// The totals with one other site. Contracts see them as a list by number of field.
#[derive(Drop)]
pub(crate) struct Accounts {
    // Those on the first fields: on all others, for which memory is reserved, they are 0.
    written: Vec<FieldAccounts>,
    fields: u16,
}

impl Model for Accounts {
    ghost use Rattle.std.specs.Prelude.{◌≤◌, List, length, vec_capacity};
    ghost use Rattle.gift_ledger.specs.declared.account.FieldAccounts.{FieldAccounts};
    ghost use Rattle.gift_ledger.specs.Ledger.{of_fields};

    ghost Value = { List FieldAccounts };

    ghost view = { λ a. of_fields a.fields a.written.items };

    ghost invariant = { λ a. (length a.written.items ≤ a.fields)
        × (a.fields ≤ vec_capacity a.written) };
}

/// Writes out the totals on the first fields, so many, in memory that is reserved.
fn write_out(written: &mut Vec<FieldAccounts>, fields: usize)
    requires room { fields ≤ vec_capacity written.old }
    ensures out { written.new.items ≡ of_fields fields written.old.items }
    ensures room { vec_capacity written.new ≡ vec_capacity written.old }
{
    for _ in written.len()..fields {
        written.push_reserved(NOTHING_YET);
    }
}

/// Sets the totals of a kind on a field among those that are written out; all others stay.
fn set(written: &mut [FieldAccounts], field: FieldNo, kind: Kind, account: Account)
    requires there { field.0 < length written.old }
    ensures put { written.new ≡ put_in written.old field.0 kind account }
{
    let accounts = &mut written[usize::from(field.0)];
    both_kinds!(kind, accounts, |own| {
        *own = account;
    });
}

impl Accounts {
    /// All totals are 0. The error is want of memory.
    pub(crate) fn new(alloc: Global, fields: u16) -> Result<Accounts, AllocError>
        ensures empty { IfOk result (λ accounts. accounts ≡ replicate fields no_accounts) }
    {
        let written = Vec::with_capacity(alloc, usize::from(fields))?;
        Ok(Accounts { written, fields })
    }

    /// The totals of both kinds, field by field; none behind the last field on which one was set.
    pub(crate) fn as_slice(&self) -> &[FieldAccounts]
        ensures value { (f : ℕ) (k : Kind) → account_in result.now f k ≡ account_in self.now f k }
    {
        &self.written
    }

    /// The totals of a kind on a field.
    pub(crate) fn at(&self, field: FieldNo, kind: Kind) -> Account
        ensures value { result ≡ account_in self.now field.0 kind }
    {
        let accounts = match self.written.get(usize::from(field.0)) {
            Some(accounts) => *accounts,
            None => NOTHING_YET,
        };
        match kind {
            Kind::Lower => accounts.lower,
            Kind::Raise => accounts.raise,
        }
    }

    /// Sets the totals of a kind on a field; all others stay.
    pub(crate) fn put(&mut self, field: FieldNo, kind: Kind, account: Account)
        requires field_in { field.0 < length self.old }
        ensures put { self.new ≡ put_in self.old field.0 kind account }
    {
        write_out(&mut self.written, usize::from(field.0) + 1);
        set(&mut self.written, field, kind, account);
    }
}
