//! What a summary tells of fields: own rights, and totals with the site, the field and the kind that
//! they are of.

ghost use Rattle.std.specs.Prelude.{◌≡◌};

use field_bounds::{FieldNo, Kind, SiteNo};
use std::marker::Model;

/// All that was given to another site, or accepted from it, of a kind on a field: 1 to
/// 1,000,000,000,000,000,000 rights.
///
/// Source: Balegas and others 2015.
#[derive(Clone, Copy, Debug, PartialEq, Eq)]
pub struct Total {
    pub site: SiteNo,
    pub field: FieldNo,
    pub kind: Kind,
    pub total: u64,
}

/// All that a site gave up for good of a kind on a field: 1 to 2,000,000,000,000,000 rights.
#[derive(Clone, Copy, Debug, PartialEq, Eq)]
pub struct Cut {
    pub field: FieldNo,
    pub kind: Kind,
    pub total: u64,
}

/// The own rights of each field, to lower and to raise it. Contracts see them as a list.
#[derive(Drop)]
pub struct OwnRights {
    held: Vec<(u64, u64)>,
}

impl Model for OwnRights {
    ghost use Rattle.std.specs.Prelude.{List, ℕ};

    ghost Value = { List (ℕ × ℕ) };

    ghost view = { λ r. r.held.items };
}

impl OwnRights {
    /// These rights, field by field. Takes no memory.
    pub fn new(held: Vec<(u64, u64)>) -> OwnRights
        ensures all { result ≡ held.items }
    {
        OwnRights { held }
    }

    /// The rights, field by field. Takes no memory.
    pub fn as_slice(&self) -> &[(u64, u64)]
        ensures all { result.now ≡ self.now }
    {
        &self.held
    }
}

/// Totals given to other sites, or accepted from them. Contracts see them as a list.
#[derive(Drop)]
pub struct Totals {
    held: Vec<Total>,
}

impl Model for Totals {
    ghost use Rattle.std.specs.Prelude.{List};
    ghost use Rattle.kept_records.specs.declared.total.Total.{Total};

    ghost Value = { List Total };

    ghost view = { λ t. t.held.items };
}

impl Totals {
    /// These totals, in their order. Takes no memory.
    pub fn new(held: Vec<Total>) -> Totals
        ensures all { result ≡ held.items }
    {
        Totals { held }
    }

    /// The totals, in their order. Takes no memory.
    pub fn as_slice(&self) -> &[Total]
        ensures all { result.now ≡ self.now }
    {
        &self.held
    }
}

/// Totals given up for good. Contracts see them as a list.
#[derive(Drop)]
pub struct Cuts {
    held: Vec<Cut>,
}

impl Model for Cuts {
    ghost use Rattle.std.specs.Prelude.{List};
    ghost use Rattle.kept_records.specs.declared.total.Cut.{Cut};

    ghost Value = { List Cut };

    ghost view = { λ c. c.held.items };
}

impl Cuts {
    /// These totals, in their order. Takes no memory.
    pub fn new(held: Vec<Cut>) -> Cuts
        ensures all { result ≡ held.items }
    {
        Cuts { held }
    }

    /// The totals, in their order. Takes no memory.
    pub fn as_slice(&self) -> &[Cut]
        ensures all { result.now ≡ self.now }
    {
        &self.held
    }
}
