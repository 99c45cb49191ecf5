//! Commands, replies and entries as they are written.

ghost use Rattle.std.specs.Prelude.{◌≡◌, IfOk, string_bytes};
ghost use Rattle.entry_text.specs.Spelling.{command_text, entry_text};

use crate::append::push_entry;
use crate::spelling::push_command;
use field_bounds::{Command, Entry, Schema, SiteNo};
use std::alloc::{AllocError, Global};

/// The line, without an LF, that spells the command at the site under the schema. The error is want
/// of memory. Costs the memory of the line.
pub fn write_command(
    alloc: Global,
    schema: &Schema,
    site: SiteNo,
    command: Command,
) -> Result<String, AllocError>
    ensures text { IfOk result (λ line. string_bytes line ≡ command_text schema.now site command) }
{
    let mut line = String::new(alloc);
    push_command(&mut line, schema, site, command)?;
    Ok(line)
}

/// The line, without an LF, that spells the entry under the schema. The error is want of memory.
/// Costs the memory of the line.
pub fn write_entry(alloc: Global, schema: &Schema, entry: Entry) -> Result<String, AllocError>
    ensures text { IfOk result (λ line. string_bytes line ≡ entry_text schema.now entry) }
{
    let mut line = String::new(alloc);
    push_entry(&mut line, schema, entry)?;
    Ok(line)
}
