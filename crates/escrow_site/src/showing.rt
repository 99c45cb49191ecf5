//! The command `show`.

ghost use Rattle.std.specs.Prelude.{◌≡◌, ◌<◌, length};

use field_bounds::{FieldNo, Kind, Schema, SiteNo};
use folder_faults::Fault;
use gift_ledger::{FieldAccounts, Ledger};
use log_replay::Standing;
use site_folder::Identity;
use site_rights::Rights;
use std::io;
use world_folders::{Paths, Shown, read_records, read_site};

// Shows the rights on a field.
fn show_rights(rt: &impl Print, schema: &Schema, rights: &Rights, field: FieldNo) -> io::Result<()>
    requires in_schema { field.0 < length schema.now.fields }
    requires fields { length rights.now ≡ length schema.now.fields }
{
    let name = schema.name(field);
    let (lo, hi) = rights.interval(schema, field);
    let lower = rights.free(field, Kind::Lower);
    let raise = rights.free(field, Kind::Raise);
    print!(rt; "field {name} between {lo} {hi} share {lower} {raise}")?;
    let lower = rights.tightened(field, Kind::Lower);
    let raise = rights.tightened(field, Kind::Raise);
    println!(rt; " tightened {lower} {raise}")
}

// Shows a total above 0.
fn show_total(
    rt: &impl Print,
    what: &str,
    site: u16,
    name: &str,
    kind: &str,
    total: u64,
) -> io::Result<()> {
    if total == 0 {
        return Ok(());
    }
    println!(rt; "{what} {site} {name} {kind} {total}")
}

// Shows the totals on a field with another site.
fn show_totals(rt: &impl Print, site: u16, name: &str, totals: &FieldAccounts) -> io::Result<()> {
    show_total(rt, "given", site, name, "lower", totals.lower.given)?;
    show_total(rt, "given", site, name, "raise", totals.raise.given)?;
    show_total(rt, "accepted", site, name, "lower", totals.lower.accepted)?;
    show_total(rt, "accepted", site, name, "raise", totals.raise.accepted)
}

// Shows the totals on a field, site by site.
fn show_ledger(
    rt: &impl Print,
    sites: u16,
    ledger: &Ledger,
    field: FieldNo,
    name: &str,
) -> io::Result<()> {
    for site in 0..sites {
        if let Some(totals) = ledger.accounts(SiteNo(site)).get(usize::from(field.0)) {
            show_totals(rt, site, name, totals)?;
        }
    }
    Ok(())
}

// Shows each field in order.
fn show_fields(rt: &impl Print, schema: &Schema, standing: &Standing) -> io::Result<()>
    requires fields { length standing.now.rights ≡ length schema.now.fields }
{
    for number in 0..schema.fields() {
        let field = FieldNo(number);
        show_rights(rt, schema, &standing.rights, field)?;
        show_ledger(
            rt,
            schema.sites(),
            &standing.ledger,
            field,
            schema.name(field),
        )?;
    }
    Ok(())
}

// Shows who the folder belongs to, and how far its log has come.
fn show_site(rt: &impl Print, identity: &Identity, world: &str, shown: &Shown) -> io::Result<()> {
    println!(rt; "site {}", identity.number().0)?;
    println!(rt; "world {world}")?;
    println!(rt; "epoch {}", shown.standing.epoch)?;
    println!(rt; "length {}", shown.length)?;
    match shown.gone {
        Some(bytes) => println!(rt; "gone {bytes}"),
        None => Ok(()),
    }
}

// Shows who the folder belongs to, and what its log stands for.
fn show_log(rt: &impl Print, identity: &Identity, world: &str, shown: &Shown) -> io::Result<()>
    requires fields { length shown.now.standing.rights ≡ length identity.now.schema.fields }
{
    show_site(rt, identity, world, shown)?;
    show_fields(rt, identity.schema(), &shown.standing)
}

// Shows what the log of a site stands for.
fn show_folder(rt: &HostRuntime, paths: &Paths, identity: &Identity) -> Result<(), Fault> {
    let shown = read_records(rt, rt.alloc(), paths, identity)?;
    let world = identity.world(rt.alloc())?;
    match show_log(rt, identity, world.as_str(), &shown) {
        Ok(()) => Ok(()),
        Err(_) => Err(Fault::Write),
    }
}

/// Shows what the log of a folder stands for. It is read without its lock.
pub(crate) fn show(rt: &HostRuntime, folder: &str) -> Result<(), Fault> {
    let paths = Paths::new(rt.alloc(), folder)?;
    let identity = read_site(rt, rt.alloc(), &paths)?;
    show_folder(rt, &paths, &identity)
}
