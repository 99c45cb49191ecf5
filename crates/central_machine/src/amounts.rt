//! Amounts of both kinds, by number.

ghost use Rattle.std.specs.Prelude.{◌≡◌, ◌<◌, ℕ, pos, ◌+ℤ◌, ◌≤ℤ◌, true, IfOk, length, slice_index_or};
ghost use Rattle.field_bounds.specs.declared.kind.Kind.{Kind};
ghost use Rattle.field_bounds.specs.Parts.{part_of};
ghost use Rattle.central_machine.specs.FieldAmounts.{amount, has_slot, IsPut};
ghost use Rattle.central_machine.specs.Sums.{IsRoom};

use central_rules::bounds_of;
use field_bounds::{FieldNo, Kind, Schema, SiteNo};
use std::alloc::{AllocError, Global};

/// An amount of each kind at each place.
#[derive(Drop)]
pub struct FieldAmounts {
    lower: Vec<u64>,
    raise: Vec<u64>,
}

/// How far one value lies above another.
fn distance(low: i64, high: i64) -> u64
    requires ordered { low ≤ℤ high }
    ensures { low +ℤ pos result ≡ high }
{
    high.abs_diff(low)
}

impl FieldAmounts {
    /// So many places with nothing.
    pub fn zeros(alloc: Global, n: usize) -> Result<FieldAmounts, AllocError>
        ensures { IfOk result (λ made. (g : ℕ) (k : Kind) → g < n →
            (has_slot made g ≡ true) × (amount made g k ≡ 0)) }
    {
        Ok(FieldAmounts {
            lower: Vec::from_elem(alloc, 0u64, n)?,
            raise: Vec::from_elem(alloc, 0u64, n)?,
        })
    }

    /// The rights that a site begins with.
    fn parts_of(
        alloc: Global,
        schema: &Schema,
        site: SiteNo,
        kind: Kind,
    ) -> Result<Vec<u64>, AllocError>
        requires site_in { site.0 < schema.now.sites }
        ensures { IfOk result (λ made. (length made.items ≡ length schema.now.fields) × ((f : ℕ) →
            f < length schema.now.fields →
            slice_index_or made.items f 0 ≡ part_of schema.now site.0 f kind)) }
    {
        let mut made = Vec::new(alloc);
        for field in 0..schema.fields() {
            made.push(schema.part(site, FieldNo(field), kind))?;
        }
        Ok(made)
    }

    pub fn parts(alloc: Global, schema: &Schema, site: SiteNo) -> Result<FieldAmounts, AllocError>
        requires site_in { site.0 < schema.now.sites }
        ensures { IfOk result (λ made. (f : ℕ) (k : Kind) → f < length schema.now.fields →
            (has_slot made f ≡ true) × (amount made f k ≡ part_of schema.now site.0 f k)) }
    {
        Ok(FieldAmounts {
            lower: FieldAmounts::parts_of(alloc, schema, site, Kind::Lower)?,
            raise: FieldAmounts::parts_of(alloc, schema, site, Kind::Raise)?,
        })
    }

    /// By how much the start value of each field may fall and rise within the schema's bounds.
    pub fn rooms(alloc: Global, schema: &Schema) -> Result<FieldAmounts, AllocError>
        ensures { IfOk result (λ made. (f : ℕ) → f < length schema.now.fields →
            IsRoom schema.now f made) }
    {
        let mut lower = Vec::new(alloc);
        let mut raise = Vec::new(alloc);
        for field in 0..schema.fields() {
            let bounds = bounds_of(schema, FieldNo(field));
            lower.push(distance(bounds.floor, bounds.value))?;
            raise.push(distance(bounds.value, bounds.ceiling))?;
        }
        Ok(FieldAmounts { lower, raise })
    }

    /// The amount at a place, 0 where there is none.
    pub fn at(&self, place: usize, kind: Kind) -> u64
        ensures { result ≡ amount self.now place kind }
    {
        let list = match kind {
            Kind::Lower => &self.lower,
            Kind::Raise => &self.raise,
        };
        match list.get(place) {
            Some(n) => *n,
            None => 0,
        }
    }

    /// Puts an amount at a place, and does nothing where there is none.
    pub fn put(&mut self, place: usize, kind: Kind, n: u64)
        ensures { IsPut self.old self.new place kind n }
    {
        match kind {
            Kind::Lower => {
                if let Some(slot) = self.lower.get_mut(place) {
                    *slot = n;
                }
            }
            Kind::Raise => {
                if let Some(slot) = self.raise.get_mut(place) {
                    *slot = n;
                }
            }
        }
    }
}
