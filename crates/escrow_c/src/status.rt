//! How a call ended, as the number that C gets.

ghost use Rattle.std.specs.Prelude.{◌≡◌};
ghost use Rattle.escrow_c.specs.Status.{opening_status, call_status};

use site_handle::{CallFault, OpeningFault};

/// The call did what it says.
pub const DONE: u32 = 0;
/// Memory is wanting; nothing was done.
pub const NO_MEMORY: u32 = 1;
/// The handle is to no site.
pub const CLOSED: u32 = 2;
/// The handle is to a site already.
pub const IS_OPEN: u32 = 3;
/// The header tells no schema.
pub const NO_SCHEMA: u32 = 4;
/// The schema has no site of this number.
pub const NO_SITE: u32 = 5;
/// A line of the log is no record of this site.
pub const BAD_LOG: u32 = 6;
/// The bytes are no line.
pub const NO_LINE: u32 = 7;
/// The line or the numbers spell no command.
pub const NO_COMMAND: u32 = 8;
/// The line spells a command of another site.
pub const OTHER_SITE: u32 = 9;
/// There is too little room for the answer; nothing was done.
pub const NO_ROOM: u32 = 10;
/// The command was carried out, and memory is wanting for the text of its entry.
pub const UNTOLD: u32 = 11;
/// The site is down: it answers nothing but a restart.
pub const DOWN: u32 = 12;
/// The schema has no field of this number.
pub const NO_FIELD: u32 = 13;
/// The log has fewer bytes than that.
pub const PAST_END: u32 = 14;

/// The script is longer than a run reads.
pub const TOO_LONG: u32 = 15;
/// A line of the trace is no entry.
pub const BAD_ENTRY: u32 = 16;
/// An entry of the trace breaks a rule.
pub const ILLEGAL: u32 = 17;

/// The status of a site that isn't opened.
pub fn opening_status(fault: OpeningFault) -> u32
    ensures { result ≡ opening_status fault }
{
    match fault {
        OpeningFault::NoMemory => NO_MEMORY,
        OpeningFault::NoSchema => NO_SCHEMA,
        OpeningFault::NoSite => NO_SITE,
        OpeningFault::Line(_) => BAD_LOG,
    }
}

/// The status of a line that isn't carried out, or not told.
pub fn call_status(fault: CallFault) -> u32
    ensures { result ≡ call_status fault }
{
    match fault {
        CallFault::NoMemory => NO_MEMORY,
        CallFault::NoLine => NO_LINE,
        CallFault::NoCommand => NO_COMMAND,
        CallFault::OtherSite => OTHER_SITE,
        CallFault::Untold => UNTOLD,
    }
}
