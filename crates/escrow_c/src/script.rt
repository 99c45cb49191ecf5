//! A whole script as text, and its answers as text.

ghost use Rattle.std.specs.Prelude.{◌≡◌, ◌≢◌, ◌<◌, ◌≤◌, length, take, IfOk, IfErr};
ghost use Rattle.escrow_c.specs.Status.{done, no_room};
ghost use Rattle.escrow_c.specs.Texts.{AnswersScript, Explained, script_status};

use crate::status::{DONE, NO_MEMORY, NO_ROOM, NO_SCHEMA, TOO_LONG};
use escrow_run::run_script;
use script_input::{ScriptFault, Watched};
use std::alloc::Global;

/// What answers a script, or why nothing does.
pub(crate) fn answers_to(alloc: Global, script: &[u8]) -> Result<Vec<u8>, ScriptFault>
    ensures ok { IfOk result (λ out. AnswersScript script.now out.items) }
    ensures err { IfErr result (Explained script.now) }
{
    let mut reader = Watched::new(script);
    let mut writer = Watched::new(Vec::new(alloc));
    match run_script(alloc, &mut reader, &mut writer) {
        Ok(()) => Ok(writer.into_inner()),
        Err(fault) => Err(fault),
    }
}

/// Writes an answer to the front of the room, where it has room, and tells how many bytes it has.
pub(crate) fn fill(answers: &[u8], room: &mut [u8], needed: &mut usize) -> u32
    ensures done { result ≡ done → take needed.new room.new ≡ answers.now }
    ensures within { result ≡ done → needed.new ≤ length room.new }
    ensures room { result ≢ done → (result ≡ no_room) × (length room.old < needed.new) }
    ensures needed { needed.new ≡ length answers.now }
    ensures untouched { result ≢ done → room.new ≡ room.old }
{
    *needed = answers.len();
    if room.len() < answers.len() {
        return NO_ROOM;
    }
    room[..answers.len()].copy_from_slice(answers);
    DONE
}

/// The status of a script that isn't answered. Those faults that aren't named never come.
pub(crate) fn script_status(fault: ScriptFault) -> u32
    ensures { result ≡ script_status fault }
{
    match fault {
        ScriptFault::Header(_) => NO_SCHEMA,
        ScriptFault::TooLong => TOO_LONG,
        ScriptFault::NoMemory => NO_MEMORY,
        ScriptFault::Read => NO_MEMORY,
        ScriptFault::Write => NO_MEMORY,
        ScriptFault::BadLine(_) => NO_MEMORY,
        ScriptFault::Work(_) => NO_MEMORY,
        ScriptFault::Stuck => NO_MEMORY,
        ScriptFault::Illegal => NO_MEMORY,
    }
}
