//! Why no verdict is told.

ghost use Rattle.std.specs.Prelude.{◌≡◌};
ghost use Rattle.woven_verdict.specs.declared.fault.VerdictFault.TheVariants.{NoMemory, Unread as NotRead};

use field_bounds::SiteNo;
use std::alloc::AllocError;
use thiserror::Error;

/// The next entry of a history couldn't be read.
#[derive(Clone, Copy, Debug, PartialEq, Eq)]
pub struct Unread;

/// Why no verdict is told.
#[derive(Clone, Copy, Debug, PartialEq, Eq, Error)]
pub enum VerdictFault {
    /// No trace weaves the histories. The site is the lowest place with entries left, and the number,
    /// from 1, that of its next entry.
    #[error("no trace weaves the histories: entry {number} of site {} can't come next", .site.0)]
    Stuck { site: SiteNo, number: u64 },
    /// The next entry of a history couldn't be read.
    #[error("an entry couldn't be read")]
    Unread,
    /// Memory is wanting.
    #[error("out of memory")]
    NoMemory,
}

impl From<AllocError> for VerdictFault {
    ghost use Rattle.std.specs.Prelude.{◌≡◌};
    ghost use Rattle.woven_verdict.specs.declared.fault.VerdictFault.TheVariants.{NoMemory};

    ghost from_gives = { λ _ e. e ≡ NoMemory };

    fn from(_fault: AllocError) -> VerdictFault {
        VerdictFault::NoMemory
    }
}

impl From<Unread> for VerdictFault {
    ghost use Rattle.std.specs.Prelude.{◌≡◌};
    ghost use Rattle.woven_verdict.specs.declared.fault.VerdictFault.TheVariants.{Unread as NotRead};

    ghost from_gives = { λ _ e. e ≡ NotRead };

    fn from(_fault: Unread) -> VerdictFault {
        VerdictFault::Unread
    }
}
