//! What a base stands for.

ghost use Rattle.std.specs.Prelude.{◌<◌, List, IfOk, IfSome, IfNone};
ghost use Rattle.kept_records.specs.declared.record.Record.{Record};
ghost use Rattle.kept_records.specs.Text.{IsSummary};
ghost use Rattle.log_replay.specs.Standing.{IsStandingFor};
ghost use Rattle.log_bases.specs.Bases.{IsPast};
ghost use Rattle.log_bases.specs.Pasts.{past_of};

use crate::balance::is_balanced;
use field_bounds::{Schema, SiteNo};
use kept_records::Summary;
use log_replay::Standing;
use std::alloc::{AllocError, Global};

/// What a base stands for, with no rights held. It is that for whichever past the base has
/// (`stands`), and it is told exactly where it has one: then `past_of` is one (`some`), and None is
/// answered only where no records are (`none`). The numbers of the base lie in the ranges that
/// `Record::Summary` tells, as those of each record do that was read. The error is want of memory.
///
/// Costs what `is_balanced` does, and where the base has a past what `Standing::of_summary` does:
/// memory for a row of each field, and for one of each site and field.
///
/// Source: Balegas and others 2015 for the rights and the totals; this project for bases.
pub fn stand_on(
    alloc: Global,
    schema: &Schema,
    site: SiteNo,
    base: &Summary,
) -> Result<Option<Standing>, AllocError>
    requires site_in { site.0 < schema.now.sites }
    requires in_range { IsSummary base.now }
    ensures stands { IfOk result (λ told. IfSome told (λ standing. (past : List Record)
        → IsPast schema.now site.0 base.now past
        → IsStandingFor schema.now site.0 past standing)) }
    ensures some { IfOk result (λ told. IfSome told (λ _. IsPast schema.now site.0 base.now
        (past_of schema.now site.0 base.now))) }
    ensures none { IfOk result (λ told. IfNone told ((past : List Record)
        → IsPast schema.now site.0 base.now past → ⊥)) }
{
    let _sites = schema.sites();
    if !is_balanced(schema, site, base) {
        return Ok(None);
    }
    let standing = Standing::of_summary(alloc, schema, site, base)?;
    Ok(Some(standing))
}
