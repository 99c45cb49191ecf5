//! Whether the logs of all sites account for every right.

ghost use Rattle.std.specs.Prelude.{◌≡◌, ℕ, List, IfOk, IfErr, length};
ghost use Rattle.std.specs.List.{AllByRecursion};
ghost use Rattle.kept_records.specs.declared.record.Record.{Record};
ghost use Rattle.kept_records.specs.Text.{IsRecord};
ghost use Rattle.world_logs.specs.Logs.{records_of, log_of, AreLawful, AcceptedWithin};
ghost use Rattle.world_logs.specs.States.{AreStates};
ghost use Rattle.world_logs.specs.Faults.{TellsFault};
ghost use Rattle.world_logs.specs.Body.{StandFor, AreForLogs, AddUp, AreOfWorld};

use crate::excess_search::first_excess;
use crate::fault::WorldFault;
use crate::field_state::FieldState;
use crate::standings::standings_of;
use crate::sums::state_of;
use field_bounds::{FieldNo, Schema};
use kept_records::Record;
use log_replay::Standing;
use std::alloc::{AllocError, Global};

/// Where each field stands.
fn states_of(
    alloc: Global,
    schema: &Schema,
    standings: &[Standing],
) -> Result<Vec<FieldState>, AllocError>
    requires of_world { AreOfWorld schema.now standings.now }
    ensures states { IfOk result (λ states. (logs : List (List Record))
        → AddUp schema.now logs standings.now → AreStates schema.now logs states.items) }
{
    let mut states = Vec::new(alloc);
    for number in 0..schema.fields() {
        states.push(state_of(schema, standings, FieldNo(number)))?;
    }
    Ok(states)
}

/// Checks what the logs of all sites of a world stand for, one standing for each site in the order of
/// the sites, and answers where each field stands, field by field. Each log is lawful, as the caller
/// knows that took it in, straight from its bytes, say: no list of its records is needed. Of all
/// logs of which these are the standings it says what `check_world` says of them. That tells a log
/// that isn't lawful before anything between two logs, so a caller takes in all logs first, and asks
/// `standings_or_fault`. Of the faults `AcceptedMore` and `NoMemory` are answered here.
///
/// Costs a look for each field and each two sites at what passed between them, and memory for the
/// answer.
pub fn check_standings(
    alloc: Global,
    schema: &Schema,
    standings: &[Standing],
) -> Result<Vec<FieldState>, WorldFault>
    requires of_logs { AreForLogs schema.now standings.now }
    ensures count { IfOk result (λ states. length states.items ≡ length schema.now.fields) }
    ensures within { IfOk result (λ states. (logs : List (List Record))
        → StandFor schema.now logs standings.now → AcceptedWithin schema.now logs) }
    ensures states { IfOk result (λ states. (logs : List (List Record))
        → StandFor schema.now logs standings.now → AreStates schema.now logs states.items) }
    ensures fault { IfErr result (λ fault. (logs : List (List Record))
        → StandFor schema.now logs standings.now → TellsFault schema.now logs fault) }
{
    match first_excess(schema, standings, &[]) {
        Some(excess) => Err(WorldFault::AcceptedMore(excess)),
        None => Ok(states_of(alloc, schema, standings)?),
    }
}

/// Checks the logs of all sites of a world, one for each site in the order of the sites, and answers
/// where each field stands, field by field: its committed value, and its bounds as tightened.
///
/// It is answered exactly where each log is lawful and no site has accepted more from another than
/// that has given it. By the law `logs_account_for_all_rights` the own rights of all sites and those
/// in flight are then all that lies between a value and its bounds: no right was made or lost.
/// `BreaksRule` and `AcceptedMore` name the first that is not so; `NoMemory` can come in place of
/// any answer.
///
/// This is the plain form, over lists of records. A program that has the bytes of the logs needs no
/// list: it takes in each by `replay_log`, and asks `standings_or_fault` and then `check_standings`.
///
/// The records' numbers lie in the ranges that `Record` tells, as those that were read from a log do.
/// Costs a pass over each log, and for each field and each two sites a look at what passed between
/// them. Takes memory for what each log stands for and for the answer.
pub fn check_world(
    alloc: Global,
    schema: &Schema,
    logs: &[Vec<Record>],
) -> Result<Vec<FieldState>, WorldFault>
    requires count { length logs.now ≡ schema.now.sites }
    requires in_range { (s : ℕ) → AllByRecursion IsRecord (log_of (records_of logs.now) s) }
    ensures lawful { IfOk result (λ states. AreLawful schema.now (records_of logs.now)) }
    ensures within { IfOk result (λ states. AcceptedWithin schema.now (records_of logs.now)) }
    ensures states { IfOk result (λ states. AreStates schema.now (records_of logs.now)
        states.items) }
    ensures fault { IfErr result (λ fault. TellsFault schema.now (records_of logs.now) fault) }
{
    let standings = standings_of(alloc, schema, logs)?;
    check_standings(alloc, schema, standings.as_slice())
}
