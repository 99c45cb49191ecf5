//! The scripts of the sites.

ghost use Rattle.std.specs.Prelude.{◌≡◌, ◌<◌, [], length, IfOk, OnOk, IfSome, IfNone};
ghost use Rattle.site_workers.specs.Scripts.{scripts_of};
ghost use Rattle.escrow_work.specs.Scripts.{IsPlain, IsBadLine, scripts_from, with_command};

use entry_text::{MAX_LINE, read_command};
use field_bounds::{Command, Schema, SiteNo, is_accept};
use std::alloc::{AllocError, Global};

/// The schema, the header line as it was read, and each site's script so far.
#[derive(Drop)]
pub(crate) struct Scripts {
    pub(crate) schema: Schema,
    pub(crate) header: Vec<u8>,
    pub(crate) rows: Vec<Vec<Command>>,
    ghost whole: { length rows.items ≡ schema.sites },
}

/// What a plain line asks.
pub(crate) fn read_plain(schema: &Schema, line: &[u8]) -> Option<(SiteNo, Command)>
    ensures some { IfSome result (λ asked. IsPlain schema.now line.now asked.0 asked.1) }
    ensures none { IfNone result (IsBadLine schema.now line.now) }
{
    if line.len() > MAX_LINE {
        return None;
    }
    let (site, command) = read_command(schema, line)?;
    if site.0 < schema.sites() && !is_accept(&command) {
        Some((site, command))
    } else {
        None
    }
}

/// Adds a command to the script of its site.
pub(crate) fn deal(
    rows: &mut Vec<Vec<Command>>,
    site: SiteNo,
    command: Command,
) -> Result<(), AllocError>
    requires { site.0 < length rows.old.items }
    ensures dealt { OnOk result (scripts_of rows.new.items
        ≡ with_command (scripts_of rows.old.items) site.0 command) }
    ensures count { length rows.new.items ≡ length rows.old.items }
{
    rows[usize::from(site.0)].push(command)?;
    Ok(())
}

/// One empty script for each site.
pub(crate) fn empty_rows(alloc: Global, sites: u16) -> Result<Vec<Vec<Command>>, AllocError>
    ensures none { IfOk result (λ rows. scripts_of rows.items ≡ scripts_from sites []) }
    ensures count { IfOk result (λ rows. length rows.items ≡ sites) }
{
    let mut rows = Vec::with_capacity(alloc, usize::from(sites))?;
    for _site in 0..sites {
        rows.push(Vec::new(alloc))?;
    }
    Ok(rows)
}
