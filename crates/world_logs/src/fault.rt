//! Why the logs of a world were refused.

use field_bounds::{FieldNo, Kind, SiteNo};
use std::alloc::{AllocError, AllocFailed};

/// A site accepted more than it was given, of a kind on a field: totals in rights.
#[derive(Clone, Copy, Debug, PartialEq, Eq)]
pub struct Excess {
    /// The site that gave.
    pub from: SiteNo,
    /// The site that accepted.
    pub to: SiteNo,
    pub field: FieldNo,
    pub kind: Kind,
    /// What was given, by the log of the site that gave.
    pub given: u64,
    /// What was accepted, by the log of the site that accepted: more than was given.
    pub accepted: u64,
}

/// Why the logs of a world were refused.
#[derive(Clone, Copy, Debug, PartialEq, Eq)]
pub enum WorldFault {
    /// This site is the lowest whose log isn't lawful, and this record of it, counted from 1, the
    /// first that may not stand behind those before it.
    BreaksRule { site: SiteNo, number: u64 },
    /// Each log is lawful, and this is the first of what was accepted and never given: that of the
    /// lowest site that accepted such, there from the lowest site, there on the lowest field, and
    /// there of lowering rights before raising ones.
    AcceptedMore(Excess),
    /// Where logs are lost: of the fields on which the known sites guard more rights, and have more
    /// in flight among one another, than the field is wide, this is the lowest. So no lost logs go
    /// with these.
    TooMuch { field: FieldNo },
    /// Memory is wanting.
    NoMemory,
}

impl From<AllocError> for WorldFault {
    ghost use Rattle.std.specs.Prelude.{◌≡◌};
    ghost use Rattle.world_logs.specs.declared.fault.WorldFault.TheVariants.{NoMemory};

    ghost from_gives = { λ _ e. e ≡ NoMemory };

    fn from(_refused: AllocError) -> WorldFault {
        WorldFault::NoMemory
    }
}

impl<T: Drop> From<AllocFailed<T>> for WorldFault {
    ghost use Rattle.std.specs.Prelude.{◌≡◌};
    ghost use Rattle.world_logs.specs.declared.fault.WorldFault.TheVariants.{NoMemory};

    ghost from_gives = { λ _ e. e ≡ NoMemory };

    fn from(_refused: AllocFailed<T>) -> WorldFault {
        WorldFault::NoMemory
    }
}
