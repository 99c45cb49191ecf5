//! Where each site of a world stands on a field, in a table.

ghost use Rattle.std.specs.Prelude.{◌≡◌, ℕ, ◌<◌, [], IfOk, OnOk, length, get_or};
ghost use Rattle.reaching_steps.specs.declared.standing.FieldHoldings.{FieldHoldings};
ghost use Rattle.world_steps.specs.View.{trace_of};
ghost use Rattle.reaching_steps.specs.FieldHoldings.{Stands};
ghost use Rattle.reaching_steps.specs.Told.{AllTold, IsMadeWithin, Renews};

use crate::site_effects::{ends_doubt, put_next, read_there, standing_at};
use crate::standing::{FieldHoldings, standing_at_first};
use field_bounds::FieldNo;
use std::alloc::{AllocError, Global};
use world_steps::{StepReply, World};

/// A table in which nothing took effect.
fn empty_table(alloc: Global, sites: u16, field: FieldNo) -> Result<Vec<FieldHoldings>, AllocError>
    ensures count { IfOk result (λ table. length table.items ≡ sites) }
    ensures empty { IfOk result (λ table. (s : ℕ) (d : FieldHoldings) → s < length table.items →
        Stands field.0 (get_or table.items s d) []) }
{
    let mut table = Vec::new(alloc);
    for site in 0..sites {
        table.push(standing_at_first(alloc))?;
    }
    Ok(table)
}

/// A table in which nothing took effect is filled: the trace is read, each entry at its site.
fn fill(world: &World, table: &mut [FieldHoldings], field: FieldNo) -> Result<(), AllocError>
    requires count { length table.old ≡ world.now.schema.sites }
    requires empty { (s : ℕ) (d : FieldHoldings) → s < length table.old →
        Stands field.0 (get_or table.old s d) [] }
    ensures told { OnOk result (AllTold world.now.schema field.0 (trace_of world.now) table.new) }
{
    let schema = world.schema();
    let trace = world.trace();
    for i in 0..trace.len() {
        read_there(schema, table, &trace[i], &trace[i + 1..], field)?;
    }
    Ok(())
}

/// Where each site of a world stands on a field. The error is want of memory. Costs reading the
/// trace once; for each grant, commit and abort a look through the open transactions of its site, 64
/// at most, from the newest on for a grant; for each reply in doubt what comes later, up to the next
/// restart of its site; and for each spare of the field in doubt that was kept, for each site what
/// was given and accepted on the field at the sparing one before it.
pub(crate) fn table_of(
    alloc: Global,
    world: &World,
    field: FieldNo,
) -> Result<Vec<FieldHoldings>, AllocError>
    ensures count { IfOk result (λ table. length table.items ≡ world.now.schema.sites) }
    ensures told { IfOk result (λ table. AllTold world.now.schema field.0
        (trace_of world.now) table.items) }
{
    let mut table = empty_table(alloc, world.schema().sites(), field)?;
    fill(world, &mut table, field)?;
    Ok(table)
}

/// The table, once a world has answered one step more: the site of the entry that was made, if any,
/// stands so by then. After a restart, which may tell that what was in doubt is kept, the site is
/// read anew. The error is want of memory.
pub(crate) fn renew(
    alloc: Global,
    world: &World,
    table: &mut Vec<FieldHoldings>,
    reply: StepReply,
    field: FieldNo,
) -> Result<(), AllocError>
    requires made { IsMadeWithin reply world.now.schema.sites }
    ensures renewed { OnOk result (Renews world.now field.0 reply table.old.items table.new.items) }
{
    let _schema = world.schema();
    let _trace = world.trace();
    match reply {
        StepReply::NoStatement => Ok(()),
        StepReply::Made(entry) => {
            let place = usize::from(entry.site.0);
            if place >= table.len() {
                return Ok(());
            }
            if ends_doubt(entry.reply) {
                table[place] = standing_at(alloc, world, entry.site, field)?;
                return Ok(());
            }
            put_next(&mut table[place], &entry, field)
        }
    }
}
