//! The command `check`.

ghost use Rattle.std.specs.Prelude.{◌≡◌, length};

use field_bounds::{FieldNo, Schema};
use folder_faults::Fault;
use std::io;
use world_folders::{WorldFolders, checked_states, read_world};
use world_logs::FieldState;

// Shows where each field stands.
fn show_states(rt: &impl Print, schema: &Schema, states: &[FieldState]) -> io::Result<()>
    requires count { length states.now ≡ length schema.now.fields }
{
    for number in 0..schema.fields() {
        let name = schema.name(FieldNo(number));
        let state = states[usize::from(number)];
        let FieldState {
            value,
            floor,
            ceiling,
        } = state;
        println!(rt; "field {name} value {value} floor {floor} ceiling {ceiling}")?;
    }
    Ok(())
}

// Shows a world whose logs account for every right.
fn show_world(rt: &impl Print, world: &WorldFolders, states: &[FieldState]) -> io::Result<()>
    requires count { length states.now ≡ length world.now.schema.fields }
{
    println!(rt; "world {}", world.name)?;
    println!(rt; "sites {}", world.schema.sites())?;
    show_states(rt, &world.schema, states)
}

/// Checks the logs of all sites of a world together, and shows where each field stands by them. They
/// are read without their locks.
pub(crate) fn check(rt: &HostRuntime, folders: &[String]) -> Result<(), Fault> {
    let world = read_world(rt, rt.alloc(), folders)?;
    let states = checked_states(rt, rt.alloc(), &world)?;
    match show_world(rt, &world, states.as_slice()) {
        Ok(()) => Ok(()),
        Err(_) => Err(Fault::Write),
    }
}
