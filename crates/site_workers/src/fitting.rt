//! Which scripts workers take.

ghost use Rattle.std.specs.Prelude.{◌↔◌, IsTrue};
ghost use Rattle.site_workers.specs.Scripts.{HasNoAccept, scripts_of, ScriptsFit};

use field_bounds::{Command, Schema, is_accept};

/// Whether none of the commands is an accept.
fn has_no_accept(script: &[Command]) -> bool
    ensures { IsTrue result ↔ HasNoAccept script.now }
{
    for command in script {
        if is_accept(command) {
            return false;
        }
    }
    true
}

/// Whether there is one script for each site, and no accept in them. Costs a look at each command,
/// and no memory.
pub fn scripts_fit(schema: &Schema, scripts: &[Vec<Command>]) -> bool
    ensures fit { IsTrue result ↔ ScriptsFit schema.now (scripts_of scripts.now) }
{
    if scripts.len() != usize::from(schema.sites()) {
        return false;
    }
    for script in scripts {
        if !has_no_accept(script.as_slice()) {
            return false;
        }
    }
    true
}
