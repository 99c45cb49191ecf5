//! What the workers of scripts make, woven.

ghost use Rattle.std.specs.Prelude.{IfOk, IfErr};
ghost use Rattle.site_workers.specs.Scripts.{scripts_of, ScriptsFit};
ghost use Rattle.escrow_work.specs.Work.{Works, MakesNone};

use field_bounds::{Command, Entry, Schema};
use script_input::ScriptFault;
use site_desk::FreeGate;
use site_workers::run_workers;
use std::alloc::Global;
use std::sync::Wait;
use std::thread::Threads;
use trace_weave::{WeaveFault, weave};
use work_faults::WorkFault;

/// The entries, the oldest first, that are woven of the histories which workers make of these
/// scripts. Nobody has judged them yet.
pub(crate) fn work_woven<'x, R: Threads + Wait + Sync>(
    rt: &'x R,
    alloc: Global,
    schema: &'x Schema,
    scripts: Vec<Vec<Command>>,
    gate: &'x FreeGate,
) -> Result<Vec<Entry>, ScriptFault>
    requires fit { ScriptsFit schema.now (scripts_of scripts.items) }
    ensures ok { IfOk result (λ entries.
        Works schema.now (scripts_of scripts.items) entries.items) }
    ensures fault { IfErr result (MakesNone schema.now (scripts_of scripts.items)) }
{
    let _sites = schema.sites();
    let histories = match run_workers(rt, alloc, schema, scripts, gate) {
        Ok(histories) => histories,
        Err(WorkFault::NoMemory) => return Err(ScriptFault::NoMemory),
        Err(fault) => return Err(ScriptFault::Work(fault)),
    };
    match weave(alloc, histories.as_slice()) {
        Ok(entries) => Ok(entries),
        Err(WeaveFault::NoMemory) => Err(ScriptFault::NoMemory),
        Err(WeaveFault::Stuck { .. }) => Err(ScriptFault::Stuck),
    }
}
