//! What the log of each site stands for.

ghost use Rattle.std.specs.Prelude.{◌≡◌, ℕ, ◌<◌, List, IfOk, IfErr, length, map};
ghost use Rattle.std.specs.List.{AllByRecursion};
ghost use Rattle.kept_records.specs.declared.record.Record.{Record};
ghost use Rattle.kept_records.specs.Text.{IsRecord};
ghost use Rattle.kept_records.specs.Stands.{Lawful};
ghost use Rattle.log_replay.specs.Standing.{IsStandingFor};
ghost use Rattle.world_logs.specs.Logs.{log_of};
ghost use Rattle.world_logs.specs.Faults.{TellsOfLog, TellsUnlawful};
ghost use Rattle.world_logs.specs.Body.{StandFor};
ghost use Rattle.world_logs.specs.LostBody.{records_in};

use crate::fault::WorldFault;
use field_bounds::{Schema, SiteNo};
use kept_records::Record;
use log_replay::{Replayed, Standing, replay};
use std::alloc::Global;

/// What the log of one site stands for.
pub(crate) fn standing_of(
    alloc: Global,
    schema: &Schema,
    site: SiteNo,
    log: &[Record],
) -> Result<Standing, WorldFault>
    requires site_in { site.0 < schema.now.sites }
    requires in_range { AllByRecursion IsRecord log.now }
    ensures lawful { IfOk result (λ standing. Lawful schema.now site.0 log.now) }
    ensures stands { IfOk result (λ standing. IsStandingFor schema.now site.0 log.now standing) }
    ensures fault { IfErr result (λ fault. TellsOfLog schema.now site.0 log.now fault) }
{
    match replay(alloc, schema, site, log)? {
        Replayed::Standing(standing) => Ok(standing),
        Replayed::BreaksRule { number } => Err(WorldFault::BreaksRule { site, number }),
    }
}

/// What tells the records of a site's log.
pub(crate) trait KeptLog {
    /// The records, and none where the log is lost.
    ghost kept: { Self → List Record };

    /// The records.
    fn records(&self) -> &[Record]
        ensures { result.now ≡ kept self.now };
}

impl KeptLog for Vec<Record> {
    ghost kept = { λ log. log.items };

    fn records(&self) -> &[Record] {
        self.as_slice()
    }
}

impl KeptLog for Option<Vec<Record>> {
    ghost kept = { λ log. records_in log };

    fn records(&self) -> &[Record] {
        match self {
            Some(log) => log.as_slice(),
            None => &[],
        }
    }
}

/// What the log of each site stands for, site by site, or the first log that isn't lawful.
pub(crate) fn standings_of<L: KeptLog>(
    alloc: Global,
    schema: &Schema,
    logs: &[L],
) -> Result<Vec<Standing>, WorldFault>
    requires count { length logs.now ≡ schema.now.sites }
    requires in_range { (s : ℕ) → AllByRecursion IsRecord (log_of (map L.kept logs.now) s) }
    ensures stand { IfOk result (λ standings. StandFor schema.now (map L.kept logs.now)
        standings.items) }
    ensures fault { IfErr result (λ fault. TellsUnlawful schema.now (map L.kept logs.now) fault) }
{
    let mut standings = Vec::new(alloc);
    for number in 0..schema.sites() {
        let log = logs[usize::from(number)].records();
        standings.push(standing_of(alloc, schema, SiteNo(number), log)?)?;
    }
    Ok(standings)
}
