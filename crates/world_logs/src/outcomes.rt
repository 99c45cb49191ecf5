//! Which log is told, where those of several sites break a rule.

ghost use Rattle.std.specs.Prelude.{◌≡◌, IfOk, IfErr, Ok, length, map};
ghost use Rattle.world_logs.specs.Outcomes.{TellsBroken};

use crate::fault::WorldFault;
use field_bounds::{Schema, SiteNo};
use std::alloc::Global;

/// What the logs of all sites stand for, or the fault of the lowest site whose log breaks a rule: for
/// each site, in order, there is what its log came to. That is Ok with the standing for it, or with
/// None where it is lost, as `check_standings` or `bound_standings` take it; or the number of its
/// first record, counted from 1, that breaks a rule.
///
/// Where each is Ok, these are answered in their order (`standings`), and the caller asks them what
/// lies between two logs. Else the fault is `BreaksRule`, or want of memory (`fault`). So a caller
/// that takes in all logs first tells what `check_world`, `settle_world` and `bound_world` tell: a log
/// that isn't lawful before anything between two of them. Costs a move for each site, and memory for
/// the answer.
pub fn standings_or_fault<T: Drop>(
    alloc: Global,
    schema: &Schema,
    outcomes: Vec<Result<T, u64>>,
) -> Result<Vec<T>, WorldFault>
    requires count { length outcomes.items ≡ schema.now.sites }
    ensures standings { IfOk result (λ standings. outcomes.items
        ≡ map (λ one. Ok one) standings.items) }
    ensures fault { IfErr result (λ fault. TellsBroken outcomes.items fault) }
{
    // There are so few that a site's number fits.
    let _sites = schema.sites();
    let mut standings = Vec::new(alloc);
    let mut site: u16 = 0;
    for outcome in outcomes {
        match outcome {
            Ok(standing) => standings.push(standing)?,
            Err(number) => {
                let site = SiteNo(site);
                return Err(WorldFault::BreaksRule { site, number });
            }
        }
        site += 1;
    }
    Ok(standings)
}
