//! Totals of both kinds by site and field, most of which stay 0.

ghost use Rattle.std.specs.Prelude.{◌≡◌, ◌<◌, ℕ, IfOk, OnOk, true};
ghost use Rattle.field_bounds.specs.declared.kind.Kind.{Kind};
ghost use Rattle.central_machine.specs.SparseTotals.{told, has_spot, IsTold};

use crate::spread::Spread;
use field_bounds::Kind;
use std::alloc::{AllocError, Global};

/// A total of each kind at each place.
#[derive(Drop)]
pub struct SparseTotals {
    pub lower: Spread,
    pub raise: Spread,
}

impl SparseTotals {
    /// So many places with 0. Takes memory for a number of each kind for each 16 of them.
    pub fn zeros(alloc: Global, n: usize) -> Result<SparseTotals, AllocError>
        ensures { IfOk result (λ made. (g : ℕ) (k : Kind) → g < n →
            (has_spot made g ≡ true) × (told made g k ≡ 0)) }
    {
        Ok(SparseTotals {
            lower: Spread::zeros(alloc, n)?,
            raise: Spread::zeros(alloc, n)?,
        })
    }

    /// The total at a place, 0 where there is none.
    #[inline(always)]
    pub fn at(&self, place: usize, kind: Kind) -> u64
        ensures { result ≡ told self.now place kind }
    {
        match kind {
            Kind::Lower => self.lower.at(place),
            Kind::Raise => self.raise.at(place),
        }
    }

    /// Puts a total at a place, and does nothing where there is none. The first put among 16 places
    /// of a kind takes memory for them; the error is want of it.
    #[inline(always)]
    pub fn put(&mut self, place: usize, kind: Kind, n: u64) -> Result<(), AllocError>
        ensures { OnOk result (IsTold self.old self.new place kind n) }
    {
        match kind {
            Kind::Lower => self.lower.put(place, n),
            Kind::Raise => self.raise.put(place, n),
        }
    }
}
