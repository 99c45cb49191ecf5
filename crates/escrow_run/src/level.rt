//! The gifts that level a field among the sites of a world that are up.

ghost use Rattle.std.specs.Prelude.{◌≡◌, ◌<◌, ◌≤◌, ◌^◌, All, IfOk, IfSome, None, Some, if◌then◌else◌, length, map, sum};
ghost use Rattle.field_bounds.specs.Limits.{IsSchema};
ghost use Rattle.field_bounds.specs.Effects.{fresh};
ghost use Rattle.field_bounds.specs.Owed.{is_up};
ghost use Rattle.field_bounds.specs.Central.{own};
ghost use Rattle.rebalance.specs.EvenPlan.{IsGift};
ghost use Rattle.world_steps.specs.View.{trace_of};
ghost use Rattle.escrow_run.specs.Level.{sites_up, free_at, gift_of, level_gifts};

use field_bounds::{Command, FieldNo, Kind, SiteNo};
use rebalance::{Move, plan_even};
use std::alloc::{AllocError, Global};
use world_steps::{Luck, World, WorldStep};

/// The field that a line levels, and the kind of its rights.
#[derive(Clone, Copy)]
pub(crate) struct Level {
    pub(crate) field: FieldNo,
    pub(crate) kind: Kind,
}

// The sites of a world that are up, in order, and the free rights that each has of one kind on one
// field.
#[derive(Drop)]
struct SitesUp {
    sites: Vec<SiteNo>,
    shares: Vec<u64>,
}

// What a site has free of the kind on the field, or None where it is down.
fn free_at(world: &World, site: SiteNo, level: Level) -> Option<u64>
    requires there { site.0 < world.now.schema.sites }
    requires named { level.field.0 < length world.now.schema.fields }
    ensures value { result ≡ (if is_up (fresh world.now.schema site.0)
        (own site.0 (trace_of world.now)) then Some (free_at world.now.schema (trace_of world.now)
        level.field level.kind site) else None) }
    ensures few { IsSchema world.now.schema
        → IfSome result (λ free. free ≤ 2_000_000_000_000_000) }
{
    let (lower, raise) = world.share(site, level.field)?;
    match level.kind {
        Kind::Lower => Some(lower),
        Kind::Raise => Some(raise),
    }
}

// The sites that are up, and what they have free of the kind on the field. The error is want of
// memory. Costs a look at each site.
fn sites_up(alloc: Global, world: &World, level: Level) -> Result<SitesUp, AllocError>
    requires named { level.field.0 < length world.now.schema.fields }
    ensures sites { IfOk result (λ up. up.sites.items
        ≡ sites_up world.now.schema (trace_of world.now) world.now.schema.sites) }
    ensures shares { IfOk result (λ up. up.shares.items
        ≡ map (free_at world.now.schema (trace_of world.now) level.field level.kind)
        up.sites.items) }
    ensures few { IfOk result (λ up. sum up.shares.items < 2 ^ 64) }
{
    let mut up = SitesUp {
        sites: Vec::new(alloc),
        shares: Vec::new(alloc),
    };
    for number in 0..world.schema().sites() {
        let site = SiteNo(number);
        let Some(free) = free_at(world, site, level) else {
            continue;
        };
        up.sites.push(site)?;
        up.shares.push(free)?;
    }
    Ok(up)
}

// The gift that carries out a move among some sites.
fn gift(sites: &[SiteNo], level: Level, planned: Move) -> WorldStep
    requires from { planned.from < length sites.now }
    requires to { planned.to < length sites.now }
    ensures { result ≡ gift_of sites.now level.field level.kind planned }
{
    let give = Command::Give {
        to: sites[planned.to],
        field: level.field,
        kind: level.kind,
        amount: planned.amount,
    };
    WorldStep::Do {
        site: sites[planned.from],
        command: give,
        luck: Luck::Fine,
    }
}

// The gifts that carry out the moves of a plan among some sites.
fn gifts_of(
    alloc: Global,
    sites: &[SiteNo],
    level: Level,
    plan: &[Move],
) -> Result<Vec<WorldStep>, AllocError>
    requires within { All (IsGift (length sites.now)) plan.now }
    ensures { IfOk result (λ gifts. gifts.items
        ≡ map (gift_of sites.now level.field level.kind) plan.now) }
{
    let mut gifts = Vec::new(alloc);
    for planned in plan {
        gifts.push(gift(sites, level, *planned))?;
    }
    Ok(gifts)
}

/// The gifts that level a field among the sites that are up. The error is want of memory. Costs a
/// look at each site, and the memory of the sites' shares and of the gifts.
pub(crate) fn gifts(
    alloc: Global,
    world: &World,
    level: Level,
) -> Result<Vec<WorldStep>, AllocError>
    requires named { level.field.0 < length world.now.schema.fields }
    ensures { IfOk result (λ gifts. gifts.items
        ≡ level_gifts world.now.schema (trace_of world.now) level.field level.kind) }
{
    let up = sites_up(alloc, world, level)?;
    let plan = plan_even(alloc, up.shares.as_slice())?;
    gifts_of(alloc, up.sites.as_slice(), level, plan.as_slice())
}
