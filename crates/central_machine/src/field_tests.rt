//! The rules on fields that one central store keeps, tested by the sums of a front.

ghost use Rattle.std.specs.Prelude.{◌≡◌, ℕ, ◌<◌, ◌&&◌, int_le, List, length};
ghost use Rattle.field_bounds.specs.declared.kind.Kind.{Kind};
ghost use Rattle.field_bounds.specs.declared.entry.Entry.{Entry};
ghost use Rattle.field_bounds.specs.Effects.{fresh, share};
ghost use Rattle.field_bounds.specs.Central.{at_site, committed_value};
ghost use Rattle.central_rules.specs.Verdict.{on_field, within_bound, true_share, test_of};
ghost use Rattle.central_rules.specs.declared.verdict.Rule.TheVariants.{Grant, Shortage, Interval};
ghost use Rattle.central_machine.specs.FieldAmounts.{amount};
ghost use Rattle.central_machine.specs.Sums.{AreSums};

use crate::amounts::FieldAmounts;
use crate::field_sums::FieldSums;
use central_rules::{Bounds, bounds_of, has, lies_between};
use field_bounds::{Command, Entry, FieldNo, Kind, Refusal, Reply, Schema};

/// Bounds with the floor as the value.
fn at_floor(bounds: Bounds) -> Bounds
    ensures value { result.value ≡ bounds.floor }
{
    Bounds {
        floor: bounds.floor,
        ceiling: bounds.ceiling,
        value: bounds.floor,
    }
}

/// Whether a number is told rightly as a site's share of a kind, less than was asked. Of a field
/// that the schema lacks nothing is told.
fn is_share(
    schema: &Schema,
    free: &FieldAmounts,
    field: FieldNo,
    kind: Kind,
    asked: u64,
    told: u64,
) -> bool
    ensures { (t : List Entry) (s : ℕ) → ((f : ℕ) (k : Kind) → f < length schema.now.fields →
        amount free.now f k ≡ share (fresh schema.now s) f k (at_site schema.now t s)) →
        result ≡ true_share schema.now t s field kind asked told }
{
    if !has(schema, field) {
        return true;
    }
    told == free.at(usize::from(field.0), kind) && told < asked
}

/// Whether an entry keeps the rule on shortages: it names its site's share, which is less than was
/// asked.
#[inline(always)]
pub fn shortage_holds(schema: &Schema, free: &FieldAmounts, entry: &Entry) -> bool
    ensures { (t : List Entry) → ((f : ℕ) (k : Kind) → f < length schema.now.fields →
        amount free.now f k
        ≡ share (fresh schema.now entry.now.site.0) f k (at_site schema.now t entry.now.site.0)) →
        result ≡ test_of schema.now t entry.now Shortage }
{
    let Reply::Refused(Refusal::Short { share }) = entry.reply else {
        return true;
    };
    match entry.command {
        Command::Escrow { field, change, .. } => {
            let asked = change.unsigned_abs();
            is_share(schema, free, field, Kind::of(change), asked, share)
        }
        Command::Give {
            field,
            kind,
            amount,
            ..
        } => is_share(schema, free, field, kind, amount, share),
        Command::Spare {
            field,
            kind,
            want,
            ..
        } => is_share(schema, free, field, kind, want, share),
        Command::Tighten {
            field,
            kind,
            amount,
        } => is_share(schema, free, field, kind, amount, share),
        _ => true,
    }
}

impl FieldSums {
    /// Whether one central store may grant a change of a kind, of this size: the infimum less it
    /// lies at the floor or above, or the supremum and it at the ceiling or below, where floor and
    /// ceiling are tightened by what was given up. On a field that the schema lacks any change may be
    /// granted.
    #[inline(always)]
    fn may_grant(&self, schema: &Schema, field: FieldNo, kind: Kind, by: u64) -> bool
        ensures { (t : List Entry) → AreSums schema.now t self.now →
            result ≡ on_field schema.now field (within_bound schema.now t field.0 by kind) }
    {
        if !has(schema, field) {
            return true;
        }
        let place = usize::from(field.0);
        let aside = u128::from(self.aside.at(place, kind));
        let cut = u128::from(self.cut.at(place, kind));
        aside + cut + u128::from(by) <= u128::from(self.room.at(place, kind))
    }

    /// Whether the committed value of a field lies between the two. Of a field that the schema lacks
    /// any does.
    #[inline(always)]
    fn holds_between(&self, schema: &Schema, field: FieldNo, lo: i64, hi: i64) -> bool
        ensures { (t : List Entry) → AreSums schema.now t self.now →
            result ≡ on_field schema.now field (int_le lo (committed_value schema.now t field.0)
            && int_le (committed_value schema.now t field.0) hi) }
    {
        if !has(schema, field) {
            return true;
        }
        let from_floor = at_floor(bounds_of(schema, field));
        let above = u128::from(self.room.at(usize::from(field.0), Kind::Lower));
        lies_between(lo, hi, &from_floor, above, 0)
    }

    /// Whether an entry keeps the rule on grants: what is granted or given up on a field is allowed
    /// by the infimum or the supremum.
    #[inline(always)]
    pub fn grant_holds(&self, schema: &Schema, entry: &Entry) -> bool
        ensures { (t : List Entry) → AreSums schema.now t self.now →
            result ≡ test_of schema.now t entry.now Grant }
    {
        match (entry.command, entry.reply) {
            (Command::Escrow { field, change, .. }, Reply::Granted) => {
                let size = change.unsigned_abs();
                self.may_grant(schema, field, Kind::of(change), size)
            }
            (
                Command::Tighten {
                    field,
                    kind,
                    amount,
                },
                Reply::Tightened { .. },
            ) => self.may_grant(schema, field, kind, amount),
            _ => true,
        }
    }

    /// Whether an entry keeps the rule on intervals: one that was read of a field holds its committed
    /// value.
    #[inline(always)]
    pub fn interval_holds(&self, schema: &Schema, entry: &Entry) -> bool
        ensures { (t : List Entry) → AreSums schema.now t self.now →
            result ≡ test_of schema.now t entry.now Interval }
    {
        match (entry.command, entry.reply) {
            (Command::Read { field }, Reply::Between { lo, hi }) => {
                self.holds_between(schema, field, lo, hi)
            }
            _ => true,
        }
    }
}
