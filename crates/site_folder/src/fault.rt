//! Why there is no identity.

ghost use Rattle.std.specs.Prelude.{◌≡◌};
ghost use Rattle.site_folder.specs.declared.fault.IdentityFault.TheVariants.{NoMemory};
ghost use Rattle.site_folder.specs.Reading.{fault_of};

use field_bounds::SchemaFault;
use std::alloc::AllocError;
use thiserror::Error;

/// Why a text is no identity's, or a number and a header make none.
#[derive(Clone, Copy, Debug, Drop, PartialEq, Eq, Error)]
pub enum IdentityFault {
    /// The first line is that of no version of the format.
    #[error("its first line isn't `escrow site 1` or `escrow site 2`")]
    Version,
    /// The first line is that of a version, and the others aren't a number, in version 2 a world's
    /// own name, the name of a world and a header.
    #[error("it isn't the lines of a site")]
    NoIdentity,
    /// The name of the world isn't that of its own name and the header: one of them was changed.
    #[error("its world isn't that of its header")]
    World,
    /// No world can have this name of its own.
    #[error("a world's name has 1 to 64 of a-z A-Z 0-9 . _ -")]
    Name,
    /// The header has more than one line.
    #[error("the header isn't one line")]
    Lines,
    /// The header tells no schema; never for want of memory.
    #[error("header {0}")]
    Header(SchemaFault),
    /// No site of the header has the number.
    #[error("no site of the header has this number")]
    Number,
    /// Memory is wanting.
    #[error("out of memory")]
    NoMemory,
}

impl From<AllocError> for IdentityFault {
    ghost from_gives = { λ _ fault. fault ≡ NoMemory };

    fn from(_refused: AllocError) -> IdentityFault {
        IdentityFault::NoMemory
    }
}

impl From<SchemaFault> for IdentityFault {
    ghost from_gives = { λ refused fault. fault ≡ fault_of refused };

    fn from(refused: SchemaFault) -> IdentityFault {
        match refused {
            SchemaFault::NoMemory => IdentityFault::NoMemory,
            SchemaFault::NotJson
            | SchemaFault::Shape
            | SchemaFault::SiteCount
            | SchemaFault::FieldCount
            | SchemaFault::Name
            | SchemaFault::NameUsed
            | SchemaFault::Bounds
            | SchemaFault::TooLong => IdentityFault::Header(refused),
        }
    }
}
