//! The command `weave`.

ghost use Rattle.std.specs.Prelude.{◌≤◌, length};

use entry_text::append_entry;
use field_bounds::{Entry, Schema};
use folder_faults::Fault;
use script_input::{PIECE, Sink, Watched};
use std::alloc::{AllocError, Global};
use trace_weave::{WeaveFault, WovenEntries, weave_order};
use world_folders::{WorldFolders, read_histories, read_world};

// One trace of all sites: the order in which it takes the entries of the histories.
fn order_of(alloc: Global, histories: &[Vec<Entry>]) -> Result<Vec<u16>, Fault>
    requires few { length histories.now ≤ 65535 }
{
    match weave_order(alloc, histories) {
        Ok(order) => Ok(order),
        Err(WeaveFault::Stuck { site, number }) => Err(Fault::Stuck(site.0, number)),
        Err(WeaveFault::NoMemory) => Err(Fault::NoMemory),
    }
}

// Adds the line of an entry.
fn add_line(text: &mut Vec<u8>, schema: &Schema, entry: Entry) -> Result<(), AllocError> {
    append_entry(text, schema, entry)?;
    text.push(b'\n')?;
    Ok(())
}

// Writes what has gathered, and keeps its memory for more.
fn write_piece<W: Sink>(writer: &mut W, text: &mut Vec<u8>) -> Result<(), Fault> {
    match writer.write_all(text.as_slice()) {
        Ok(()) => {
            text.clear();
            Ok(())
        }
        Err(_) => Err(Fault::Write),
    }
}

// Writes the header line and the entries, a line each.
fn write_trace<W: Sink>(
    alloc: Global,
    writer: &mut W,
    world: &WorldFolders,
    trace: WovenEntries<'_>,
) -> Result<(), Fault> {
    let mut text = Vec::from_slice(alloc, world.header.as_slice())?;
    text.push(b'\n')?;
    for entry in trace {
        add_line(&mut text, &world.schema, entry)?;
        if text.len() >= PIECE {
            write_piece(writer, &mut text)?;
        }
    }
    write_piece(writer, &mut text)
}

// Weaves the sites, and writes the trace.
fn weave_sites(rt: &HostRuntime, world: &WorldFolders) -> Result<(), Fault> {
    let alloc = rt.alloc();
    let histories = read_histories(rt, alloc, world)?;
    let order = order_of(alloc, histories.as_slice())?;
    let trace = WovenEntries::new(alloc, histories.as_slice(), order)?;
    let mut writer = Watched::new(rt.stdout());
    write_trace(alloc, &mut writer, world, trace)
}

/// Writes one trace of all sites of a world: the header line, and an entry a line, as an audit reads
/// them. The folders are read without their locks, and nothing is written before all are read.
pub(crate) fn weave_folders(rt: &HostRuntime, folders: &[String]) -> Result<(), Fault> {
    let world = read_world(rt, rt.alloc(), folders)?;
    weave_sites(rt, &world)
}
