//! The rights of one site.

ghost use Rattle.std.specs.Prelude.{◌≡◌, ◌+◌, ◌<◌, ◌≤◌, ◌↔◌, length, OnOk, IfErr, OnErr, IsOk, IfOk, All, pos, ◌+ℤ◌, ◌-ℤ◌};
ghost use Rattle.field_bounds.specs.Owed.{max_change};
ghost use Rattle.field_bounds.specs.Parts.{field_at, width_of};
ghost use Rattle.site_rights.specs.Rights.{IsFresh, IsWithinWidth, free_at, held_at, own_at, cut_at, guarded_at, room_at, at_field, after_take, after_give_back, after_turn, after_drop, after_tighten, after_add, by_escrow, by_escrows, ending, CanEnd, AreFresh, AreTold, AreWithin, IsTold, AreHeld, AreInRange};

use crate::field_rights::{Amounts, FieldRights, Outcome, Short};
use field_bounds::{Escrow, FieldNo, Kind, Schema, SiteNo, both_kinds, lower_by, raise_by};
use std::alloc::{AllocError, Global};
use std::marker::Model;

/// The rights of one site. Contracts see, by number of field, the width of the field, the free and
/// held rights of both kinds, and what was given up of both.
#[derive(Drop)]
pub struct Rights {
    rows: Vec<FieldRights>,
}

impl Model for Rights {
    ghost use Rattle.std.specs.Prelude.{List, All};
    ghost use Rattle.site_rights.specs.declared.field_rights.FieldRights.{FieldRights};
    ghost use Rattle.site_rights.specs.Rights.{IsWithinWidth};

    ghost Value = { List FieldRights };

    ghost view = { λ r. r.rows.items };

    ghost invariant = { λ r. All IsWithinWidth r.rows.items };
}

impl Rights {
    /// The rights that a site begins with: its parts are free, none are held and none given up. The
    /// error is want of memory. Costs one row for each field; no later call takes memory.
    pub fn new(alloc: Global, schema: &Schema, site: SiteNo) -> Result<Rights, AllocError>
        requires site_in { site.0 < schema.now.sites }
        ensures fresh { IfOk result (λ rights. AreFresh schema.now site.0 rights) }
    {
        let mut rows = Vec::new(alloc);
        for number in 0..schema.fields() {
            rows.push(first_rights(schema, site, FieldNo(number)))?;
        }
        Ok(Rights { rows })
    }

    /// The rights of a site of which so many are free on each field, to lower and to raise it, and
    /// so many were given up; none are held. On each field all of them together are no more than
    /// its width. The error is want of memory. Costs one row for each field; no later call takes
    /// memory.
    pub fn of(
        alloc: Global,
        schema: &Schema,
        free: &[(u64, u64)],
        cuts: &[(u64, u64)],
    ) -> Result<Rights, AllocError>
        requires count { length free.now ≡ length schema.now.fields }
        requires cut_count { length cuts.now ≡ length schema.now.fields }
        requires within { AreWithin schema.now free.now cuts.now }
        ensures told { IfOk result (λ rights. AreTold schema.now free.now cuts.now rights) }
    {
        let mut rows = Vec::new(alloc);
        for number in 0..schema.fields() {
            let own = free[usize::from(number)];
            let cut = cuts[usize::from(number)];
            rows.push(told_rights(schema, FieldNo(number), own, cut))?;
        }
        Ok(Rights { rows })
    }

    /// The free rights of a kind on a field: the site's share, at most 2,000,000,000,000,000.
    pub fn free(&self, field: FieldNo, kind: Kind) -> u64
        requires in_schema { field.0 < length self.now }
        ensures value { result ≡ free_at self.now field.0 kind }
        ensures most { result ≤ max_change }
    {
        self.amounts(field, kind).free
    }

    /// The rights of a kind on a field that open transactions have set aside, at most
    /// 2,000,000,000,000,000.
    pub fn held(&self, field: FieldNo, kind: Kind) -> u64
        requires in_schema { field.0 < length self.now }
        ensures value { result ≡ held_at self.now field.0 kind }
        ensures most { result ≤ max_change }
    {
        self.amounts(field, kind).held
    }

    /// Free and held rights of a kind on a field together, at most 2,000,000,000,000,000.
    pub fn own(&self, field: FieldNo, kind: Kind) -> u64
        requires in_schema { field.0 < length self.now }
        ensures value { result ≡ own_at self.now field.0 kind }
        ensures most { result ≤ max_change }
    {
        let amounts = self.amounts(field, kind);
        amounts.free + amounts.held
    }

    /// What the site has given up for good of a kind on a field, at most 2,000,000,000,000,000.
    pub fn tightened(&self, field: FieldNo, kind: Kind) -> u64
        requires in_schema { field.0 < length self.now }
        ensures value { result ≡ cut_at self.now field.0 kind }
        ensures most { result ≤ max_change }
    {
        self.amounts(field, kind).cut
    }

    /// What the site guards of a field's width: its free and held rights of a kind, and those that
    /// it has given up, together at most 2,000,000,000,000,000.
    pub fn guarded(&self, field: FieldNo, kind: Kind) -> u64
        requires in_schema { field.0 < length self.now }
        ensures value { result ≡ guarded_at self.now field.0 kind }
        ensures most { result ≤ max_change }
    {
        let amounts = self.amounts(field, kind);
        amounts.cut + (amounts.free + amounts.held)
    }

    /// The values between which the site knows a field to lie, in units of the field: the schema's
    /// floor raised by what the site guards of the field's width below, and its ceiling lowered by
    /// what it guards above. Each is within -3,000,000,000,000,000 to 3,000,000,000,000,000. Costs
    /// no memory.
    pub fn interval(&self, schema: &Schema, field: FieldNo) -> (i64, i64)
        requires in_schema { field.0 < length schema.now.fields }
        requires fields { length self.now ≡ length schema.now.fields }
        ensures lo { result.0 ≡ (field_at schema.now field.0).floor
            +ℤ pos (guarded_at self.now field.0 Kind.Lower) }
        ensures hi { result.1 ≡ (field_at schema.now field.0).ceiling
            -ℤ pos (guarded_at self.now field.0 Kind.Raise) }
    {
        let (floor, ceiling, _) = schema.bounds(field);
        (
            raise_by(floor, self.guarded(field, Kind::Lower)),
            lower_by(ceiling, self.guarded(field, Kind::Raise)),
        )
    }

    /// What the site guards of both kinds leaves of the field's width: so many rights more it may
    /// come to hold on the field, at most 2,000,000,000,000,000.
    pub fn room(&self, field: FieldNo) -> u64
        requires in_schema { field.0 < length self.now }
        ensures value { result ≡ room_at self.now field.0 }
        ensures most { result ≤ max_change }
    {
        let row = self.rows[usize::from(field.0)];
        let own = row.lower.free + row.lower.held + row.raise.free + row.raise.held;
        row.width - (row.lower.cut + row.raise.cut + own)
    }

    /// Sets free rights aside, or answers the share and changes nothing where fewer are free than
    /// are asked.
    pub fn take(&mut self, field: FieldNo, kind: Kind, amount: u64) -> Result<(), Short>
        requires in_schema { field.0 < length self.old }
        ensures enough { IsOk result ↔ (amount ≤ free_at self.old field.0 kind) }
        ensures ok { OnOk result (self.new ≡ at_field after_take self.old field.0 kind amount) }
        ensures short { IfErr result (λ short. short.share ≡ free_at self.old field.0 kind) }
        ensures err { OnErr result (self.new ≡ self.old) }
    {
        self.check_free(field, kind, amount)?;
        let row = &mut self.rows[usize::from(field.0)];
        both_kinds!(kind, row, |taking| {
            taking.free -= amount;
            taking.held += amount;
        });
        Ok(())
    }

    /// Sets held rights free again, of the same kind.
    pub fn give_back(&mut self, field: FieldNo, kind: Kind, amount: u64)
        requires in_schema { field.0 < length self.old }
        requires there { amount ≤ held_at self.old field.0 kind }
        ensures given_back { self.new ≡ at_field after_give_back self.old field.0 kind amount }
    {
        let row = &mut self.rows[usize::from(field.0)];
        both_kinds!(kind, row, |returning| {
            returning.held -= amount;
            returning.free += amount;
        });
    }

    /// Turns held rights of a kind into free rights of the other kind: what was lowered can be
    /// raised again, and the reverse.
    pub fn turn(&mut self, field: FieldNo, kind: Kind, amount: u64)
        requires in_schema { field.0 < length self.old }
        requires there { amount ≤ held_at self.old field.0 kind }
        ensures turned { self.new ≡ at_field after_turn self.old field.0 kind amount }
    {
        let row = &mut self.rows[usize::from(field.0)];
        both_kinds!(kind, row, |own, other| {
            own.held -= amount;
            other.free += amount;
        });
    }

    /// Lets free rights leave the site, as those that it gives away do. So many have to be free,
    /// which `free` tells.
    pub fn drop_free(&mut self, field: FieldNo, kind: Kind, amount: u64)
        requires in_schema { field.0 < length self.old }
        requires there { amount ≤ free_at self.old field.0 kind }
        ensures dropped { self.new ≡ at_field after_drop self.old field.0 kind amount }
    {
        let row = &mut self.rows[usize::from(field.0)];
        both_kinds!(kind, row, |giving| {
            giving.free -= amount;
        });
    }

    /// Gives free rights up for good, and answers all that was given up so far of the kind on the
    /// field; or answers the share and changes nothing where fewer are free than are asked.
    pub fn tighten(&mut self, field: FieldNo, kind: Kind, amount: u64) -> Result<u64, Short>
        requires in_schema { field.0 < length self.old }
        ensures enough { IsOk result ↔ (amount ≤ free_at self.old field.0 kind) }
        ensures total { IfOk result (λ total. total ≡ cut_at self.old field.0 kind + amount) }
        ensures ok { OnOk result (self.new ≡ at_field after_tighten self.old field.0 kind amount) }
        ensures short { IfErr result (λ short. short.share ≡ free_at self.old field.0 kind) }
        ensures err { OnErr result (self.new ≡ self.old) }
    {
        self.check_free(field, kind, amount)?;
        let total = self.tightened(field, kind) + amount;
        let row = &mut self.rows[usize::from(field.0)];
        both_kinds!(kind, row, |own| {
            own.free -= amount;
            own.cut += amount;
        });
        Ok(total)
    }

    /// Lets free rights come to the site, as those that it was given do. There has to be room for
    /// them, which `room` tells.
    pub fn add(&mut self, field: FieldNo, kind: Kind, amount: u64)
        requires in_schema { field.0 < length self.old }
        requires room { amount ≤ room_at self.old field.0 }
        ensures added { self.new ≡ at_field after_add self.old field.0 kind amount }
    {
        let row = &mut self.rows[usize::from(field.0)];
        both_kinds!(kind, row, |gaining| {
            gaining.free += amount;
        });
    }

    /// Ends the escrows of a transaction one after another: each one's held rights turn where it
    /// committed, and are given back where it aborted. Costs one step for each escrow.
    pub fn end(&mut self, escrows: &[Escrow], outcome: Outcome)
        requires in_schema { AreInRange self.old escrows.now }
        requires there { AreHeld self.old escrows.now }
        ensures ended { self.new ≡ by_escrows (ending outcome) self.old escrows.now }
    {
        for escrow in escrows {
            self.end_one(escrow, outcome);
        }
    }

    fn end_one(&mut self, escrow: &Escrow, outcome: Outcome)
        requires can { CanEnd self.old escrow.now }
        ensures ended { self.new ≡ by_escrow (ending outcome) self.old escrow.now }
    {
        let kind = Kind::of(escrow.change);
        let amount = escrow.change.unsigned_abs();
        match outcome {
            Outcome::Committed => self.turn(escrow.field, kind, amount),
            Outcome::Aborted => self.give_back(escrow.field, kind, amount),
        }
    }

    /// Answers the share where fewer rights are free than are asked.
    fn check_free(&self, field: FieldNo, kind: Kind, amount: u64) -> Result<(), Short>
        requires in_schema { field.0 < length self.now }
        ensures enough { IsOk result ↔ (amount ≤ free_at self.now field.0 kind) }
        ensures short { IfErr result (λ short. short.share ≡ free_at self.now field.0 kind) }
    {
        let share = self.free(field, kind);
        if amount > share {
            return Err(Short { share });
        }
        Ok(())
    }

    fn amounts(&self, field: FieldNo, kind: Kind) -> Amounts
        requires in_schema { field.0 < length self.now }
        ensures free { result.free ≡ free_at self.now field.0 kind }
        ensures held { result.held ≡ held_at self.now field.0 kind }
        ensures cut { result.cut ≡ cut_at self.now field.0 kind }
        ensures most { result.free + result.held + result.cut ≤ max_change }
    {
        let row = self.rows[usize::from(field.0)];
        match kind {
            Kind::Lower => row.lower,
            Kind::Raise => row.raise,
        }
    }
}

/// The rights on a field that a site begins with.
fn first_rights(schema: &Schema, site: SiteNo, field: FieldNo) -> FieldRights
    requires site_in { site.0 < schema.now.sites }
    requires field_in { field.0 < length schema.now.fields }
    ensures fresh { IsFresh schema.now site.0 field.0 result }
    ensures within { IsWithinWidth result }
{
    let (floor, ceiling, _) = schema.bounds(field);
    FieldRights {
        width: ceiling.abs_diff(floor),
        lower: Amounts {
            free: schema.part(site, field, Kind::Lower),
            held: 0,
            cut: 0,
        },
        raise: Amounts {
            free: schema.part(site, field, Kind::Raise),
            held: 0,
            cut: 0,
        },
    }
}

/// The rights on a field of which so many are free and so many given up, to lower and to raise it.
fn told_rights(schema: &Schema, field: FieldNo, free: (u64, u64), cut: (u64, u64)) -> FieldRights
    requires field_in { field.0 < length schema.now.fields }
    requires few { free.0 + free.1 + cut.0 + cut.1 ≤ width_of (field_at schema.now field.0) }
    ensures told { IsTold schema.now field.0 free cut result }
    ensures within { IsWithinWidth result }
{
    let (floor, ceiling, _) = schema.bounds(field);
    FieldRights {
        width: ceiling.abs_diff(floor),
        lower: Amounts {
            free: free.0,
            held: 0,
            cut: cut.0,
        },
        raise: Amounts {
            free: free.1,
            held: 0,
            cut: cut.1,
        },
    }
}
