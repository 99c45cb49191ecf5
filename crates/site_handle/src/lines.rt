//! What the bytes that a host gives are.

ghost use Rattle.std.specs.Prelude.{◌≤◌, ◌<◌, length, take, drop, IsTrue, IsFalse, IfOk, IfErr};
ghost use Rattle.request_lines.specs.Requests.{Asks};
ghost use Rattle.site_service.specs.Opening.{AreLines};
ghost use Rattle.site_handle.specs.Lines.{IsNoLine, IsLine, IsUnasked};

use crate::fault::CallFault;
use entry_text::{MAX_LINE, read_command};
use field_bounds::{Command, Schema, SiteNo};
use memchr::memrchr;
use std::str;

/// How many bytes stand up to and with the last line feed. What stands behind it was torn off.
pub(crate) fn whole_lines(bytes: &[u8]) -> usize
    ensures within { result ≤ length bytes.now }
    ensures lines { AreLines bytes.now (take result bytes.now) (drop result bytes.now) }
{
    match memrchr(b'\n', bytes) {
        Some(at) => at + 1,
        None => 0,
    }
}

// Whether the bytes are no line: they aren't UTF-8, have a line feed, or are too many.
fn is_no_line(bytes: &[u8]) -> bool
    ensures yes { IsTrue result → IsNoLine bytes.now }
    ensures no { IsFalse result → IsLine bytes.now }
{
    if bytes.len() > MAX_LINE {
        return true;
    }
    if bytes.contains(&b'\n') {
        return true;
    }
    str::from_utf8(bytes).is_err()
}

/// The command of the site of this number that a line spells under the schema.
pub(crate) fn command_in(schema: &Schema, number: SiteNo, line: &[u8]) -> Result<Command, CallFault>
    ensures ok { IfOk result (Asks schema.now number line.now) }
    ensures err { IfErr result (IsUnasked schema.now number line.now) }
{
    match read_command(schema, line) {
        Some((site, command)) if site == number => Ok(command),
        Some(_) => Err(CallFault::OtherSite),
        None if is_no_line(line) => Err(CallFault::NoLine),
        None => Err(CallFault::NoCommand),
    }
}
