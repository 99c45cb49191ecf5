//! What took effect at one site, read from the trace of all sites.

ghost use Rattle.std.specs.Prelude.{◌≡◌, ◌<◌, IfOk, OnOk, List, true, false, length};
ghost use Rattle.field_bounds.specs.declared.effect.Effect.{Effect};
ghost use Rattle.field_bounds.specs.declared.entry.Entry.{Entry};
ghost use Rattle.field_bounds.specs.Effects.{fresh, share, wanted_by, spared_at, doubt_kept_in};
ghost use Rattle.field_bounds.specs.Owed.{is_unsure};
ghost use Rattle.field_bounds.specs.Central.{at_site};
ghost use Rattle.field_bounds.specs.Lawful.{IsLawful};
ghost use Rattle.world_steps.specs.View.{trace_of};
ghost use Rattle.reaching_steps.specs.FieldHoldings.{Tells, Stands};
ghost use Rattle.reaching_steps.specs.Told.{is_elsewhere, ends_doubt, Reads, ReadsOwn, Puts, AllRead};

use crate::rights::rights_of;
use crate::standing::{FieldHoldings, note, standing_at_first};
use field_bounds::{
    Entry, FieldNo, Reply, Schema, SiteNo, counts, effect_of, spared_amount, wanted_by,
};
use std::alloc::{AllocError, Global};
use world_steps::World;

/// Whether a reply is in doubt.
fn is_unsure(reply: Reply) -> bool
    ensures value { result ≡ is_unsure reply }
{
    matches!(reply, Reply::Unsure)
}

/// Whether what an entry spared in doubt is of another field.
#[inline(always)]
fn is_spared_elsewhere(entry: &Entry, field: FieldNo) -> bool
    ensures spared { result ≡ true → (is_unsure entry.now.reply ≡ true)
        × (is_elsewhere field.0 (wanted_by entry.now.command) ≡ true) }
    ensures other { result ≡ false → is_unsure entry.now.reply ≡ true
        → is_elsewhere field.0 (wanted_by entry.now.command) ≡ false }
{
    if !is_unsure(entry.reply) {
        return false;
    }
    match wanted_by(entry.command) {
        None => false,
        Some((at, _, _)) => at.0 != field.0,
    }
}

/// What a reply in doubt spared of the field, where the site stood so.
fn spared_in_doubt(
    schema: &Schema,
    standing: &FieldHoldings,
    entry: &Entry,
    site: SiteNo,
    field: FieldNo,
) -> u64
    requires in_schema { site.0 < schema.now.sites }
    ensures value { (es : List Effect)
        → IsLawful schema.now (fresh schema.now site.0) es → Tells field.0 standing.now es
        → is_unsure entry.now.reply ≡ true
        → is_elsewhere field.0 (wanted_by entry.now.command) ≡ false
        → result ≡ spared_at (λ f k. share (fresh schema.now site.0) f k es)
        (wanted_by entry.now.command) }
{
    if !is_unsure(entry.reply) {
        return 0;
    }
    let Some((at, kind, want)) = wanted_by(entry.command) else {
        return 0;
    };
    if at.0 != field.0 {
        return 0;
    }
    let (_, free) = rights_of(schema, standing, site, at, kind);
    spared_amount(free, want)
}

/// One more entry of the site is read.
#[inline(always)]
fn read_own(
    schema: &Schema,
    standing: &mut FieldHoldings,
    entry: &Entry,
    later: &[Entry],
    site: SiteNo,
    field: FieldNo,
) -> Result<(), AllocError>
    requires in_schema { site.0 < schema.now.sites }
    ensures read { OnOk result (ReadsOwn schema.now site.0 field.0 standing.old entry.now
        (doubt_kept_in site.0 later.now) standing.new) }
{
    if !counts(entry.reply, later, site) {
        return Ok(());
    }
    if is_spared_elsewhere(entry, field) {
        return Ok(());
    }
    let amount = spared_in_doubt(schema, standing, entry, site, field);
    match effect_of(entry.command, entry.reply, amount) {
        None => Ok(()),
        Some(effect) => note(standing, effect, field),
    }
}

/// One more entry of the trace is read; the others' did nothing here.
fn read_entry(
    schema: &Schema,
    standing: &mut FieldHoldings,
    entry: &Entry,
    later: &[Entry],
    site: SiteNo,
    field: FieldNo,
) -> Result<(), AllocError>
    requires in_schema { site.0 < schema.now.sites }
    ensures read { OnOk result (Reads schema.now site.0 field.0 standing.old entry.now later.now
        standing.new) }
{
    if entry.site.0 != site.0 {
        return Ok(());
    }
    read_own(schema, standing, entry, later, site, field)
}

/// One more entry of the trace is read at its own site.
#[inline(always)]
pub(crate) fn read_there(
    schema: &Schema,
    table: &mut [FieldHoldings],
    entry: &Entry,
    later: &[Entry],
    field: FieldNo,
) -> Result<(), AllocError>
    requires count { length table.old ≡ schema.now.sites }
    ensures read { OnOk result (AllRead schema.now field.0 table.old entry.now later.now table.new) }
{
    let place = usize::from(entry.site.0);
    if place >= table.len() {
        return Ok(());
    }
    read_own(schema, &mut table[place], entry, later, entry.site, field)
}

/// Whether a reply tells what became of what stood in doubt.
pub(crate) fn ends_doubt(reply: Reply) -> bool
    ensures value { result ≡ ends_doubt reply }
{
    matches!(reply, Reply::Restarted { .. })
}

/// One more entry of a site, which ends no doubt. The error is want of memory.
pub(crate) fn put_next(
    standing: &mut FieldHoldings,
    entry: &Entry,
    field: FieldNo,
) -> Result<(), AllocError>
    ensures put { OnOk result (Puts field.0 standing.old entry.now standing.new) }
{
    if is_unsure(entry.reply) {
        return Ok(());
    }
    match effect_of(entry.command, entry.reply, 0) {
        None => Ok(()),
        Some(effect) => note(standing, effect, field),
    }
}

/// Where a site of a world stands on a field. The error is want of memory. Costs reading the trace,
/// and for the site's own entries what `table_of` costs for them.
pub(crate) fn standing_at(
    alloc: Global,
    world: &World,
    site: SiteNo,
    field: FieldNo,
) -> Result<FieldHoldings, AllocError>
    requires in_schema { site.0 < world.now.schema.sites }
    ensures value { IfOk result (λ standing. Stands field.0 standing
        (at_site world.now.schema (trace_of world.now) site.0)) }
{
    let schema = world.schema();
    let trace = world.trace();
    let mut standing = standing_at_first(alloc);
    for i in 0..trace.len() {
        read_entry(
            schema,
            &mut standing,
            &trace[i],
            &trace[i + 1..],
            site,
            field,
        )?;
    }
    Ok(standing)
}
