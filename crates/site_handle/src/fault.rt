//! Why a call did nothing.

ghost use Rattle.std.specs.Prelude.{◌≡◌};

use std::alloc::AllocError;

/// Why a site isn't opened.
#[derive(Clone, Copy, Debug, PartialEq, Eq)]
pub enum OpeningFault {
    /// Memory is wanting.
    NoMemory,
    /// The header tells no schema.
    NoSchema,
    /// The schema has no site of this number.
    NoSite,
    /// This line of the log, counted from 1, is the first that is no record or breaks a rule of a
    /// kept log.
    Line(u64),
}

impl From<AllocError> for OpeningFault {
    ghost use Rattle.site_handle.specs.declared.fault.OpeningFault.TheVariants.{NoMemory};

    ghost from_gives = { λ _ fault. fault ≡ NoMemory };

    fn from(_refused: AllocError) -> OpeningFault {
        OpeningFault::NoMemory
    }
}

/// Why a line isn't carried out, or isn't told.
#[derive(Clone, Copy, Debug, PartialEq, Eq)]
pub enum CallFault {
    /// Memory is wanting; nothing was done.
    NoMemory,
    /// The bytes are no line: they aren't UTF-8, have a line feed, or are more than 256.
    NoLine,
    /// The line spells no command under the schema.
    NoCommand,
    /// The line spells a command of another site.
    OtherSite,
    /// The command was carried out, and memory is wanting for its text.
    Untold,
}

impl From<AllocError> for CallFault {
    ghost use Rattle.site_handle.specs.declared.fault.CallFault.TheVariants.{NoMemory};

    ghost from_gives = { λ _ fault. fault ≡ NoMemory };

    fn from(_refused: AllocError) -> CallFault {
        CallFault::NoMemory
    }
}
