//! The schema of a new world, which goes on where the logs of an old one end.

ghost use Rattle.std.specs.Prelude.{◌≡◌, ℕ, ◌<◌, List, IfOk, IfErr, Ok, Some, length, map, slice_get};
ghost use Rattle.std.specs.List.{AllByRecursion};
ghost use Rattle.field_bounds.specs.Schema.{spec_value};
ghost use Rattle.field_bounds.specs.Limits.{of_parts};
ghost use Rattle.field_bounds.specs.Parts.{field_at};
ghost use Rattle.kept_records.specs.declared.record.Record.{Record};
ghost use Rattle.kept_records.specs.Text.{IsRecord};
ghost use Rattle.world_logs.specs.declared.field_state.FieldState.{FieldState};
ghost use Rattle.world_logs.specs.Logs.{records_of, log_of, AreLawful, AcceptedWithin};
ghost use Rattle.world_logs.specs.States.{with_state, Settles};
ghost use Rattle.world_logs.specs.Faults.{TellsFault};
ghost use Rattle.world_logs.specs.Body.{StandFor, AreForLogs};

use crate::check::check_standings;
use crate::fault::WorldFault;
use crate::field_state::FieldState;
use crate::standings::standings_of;
use field_bounds::{FieldNo, FieldSpec, Schema, SchemaFault};
use kept_records::Record;
use log_replay::Standing;
use std::alloc::{AllocError, Global};

/// A field of the same name that begins at this state.
fn settled_field(
    alloc: Global,
    schema: &Schema,
    field: FieldNo,
    state: FieldState,
) -> Result<FieldSpec, AllocError>
    requires field_in { field.0 < length schema.now.fields }
    ensures value { IfOk result (λ spec. spec_value spec
        ≡ with_state (field_at schema.now field.0) state) }
{
    Ok(FieldSpec {
        name: String::from_str(alloc, schema.name(field))?,
        floor: state.floor,
        ceiling: state.ceiling,
        value: state.value,
    })
}

/// The fields, in their order, each beginning at its state.
fn settled_fields(
    alloc: Global,
    schema: &Schema,
    states: &[FieldState],
) -> Result<Vec<FieldSpec>, AllocError>
    requires count { length states.now ≡ length schema.now.fields }
    ensures count { IfOk result (λ specs. length specs.items ≡ length schema.now.fields) }
    ensures each { IfOk result (λ specs. (f : ℕ) (state : FieldState)
        → slice_get states.now f ≡ Some state → slice_get (map spec_value specs.items) f
        ≡ Some (with_state (field_at schema.now f) state)) }
{
    let mut specs = Vec::new(alloc);
    for number in 0..schema.fields() {
        let state = states[usize::from(number)];
        specs.push(settled_field(alloc, schema, FieldNo(number), state)?)?;
    }
    Ok(specs)
}

/// The schema of so many sites and these fields, which have no fault.
fn schema_of_fields(alloc: Global, sites: u16, fields: Vec<FieldSpec>) -> Result<Schema, AllocError>
    requires faultless { of_parts sites (map spec_value fields.items)
        ≡ Ok (record { sites = sites; fields = map spec_value fields.items }) }
    ensures value { IfOk result (λ schema. schema
        ≡ record { sites = sites; fields = map spec_value fields.items }) }
{
    match Schema::new(alloc, sites, fields) {
        Ok(schema) => Ok(schema),
        Err(SchemaFault::NoMemory) => Err(AllocError),
        Err(_) => unreachable!(),
    }
}

/// The schema of a new world that goes on where the logs of all sites of a world end, by what they
/// stand for: one standing for each site in the order of the sites. Of all logs of which these are
/// the standings it says what `settle_world` says of them, where each is lawful.
///
/// It is answered exactly where `check_standings` answers, and the faults are those. Costs what that
/// costs, and one look-up and one insertion for each field.
pub fn settle_standings(
    alloc: Global,
    schema: &Schema,
    standings: &[Standing],
) -> Result<Schema, WorldFault>
    requires of_logs { AreForLogs schema.now standings.now }
    ensures within { IfOk result (λ settled. (logs : List (List Record))
        → StandFor schema.now logs standings.now → AcceptedWithin schema.now logs) }
    ensures settled { IfOk result (λ settled. (logs : List (List Record))
        → StandFor schema.now logs standings.now → Settles schema.now logs settled) }
    ensures fault { IfErr result (λ fault. (logs : List (List Record))
        → StandFor schema.now logs standings.now → TellsFault schema.now logs fault) }
{
    let states = check_standings(alloc, schema, standings)?;
    let fields = settled_fields(alloc, schema, states.as_slice())?;
    Ok(schema_of_fields(alloc, schema.sites(), fields)?)
}

/// The schema of a new world that goes on where the logs of all sites of a world end, one for each
/// site in the order of the sites: as many sites, and the same fields in the same order, each of
/// which begins at its committed value with the bounds as tightened. Rights in flight are the new
/// sites' then: none of the old logs and of the old world's statements may be used with it.
///
/// It is answered exactly where `check_world` answers, and the faults are those. It is the plain form,
/// as that is, beside `settle_standings`. Costs what `check_world` costs, and one look-up and one
/// insertion for each field.
pub fn settle_world(
    alloc: Global,
    schema: &Schema,
    logs: &[Vec<Record>],
) -> Result<Schema, WorldFault>
    requires count { length logs.now ≡ schema.now.sites }
    requires in_range { (s : ℕ) → AllByRecursion IsRecord (log_of (records_of logs.now) s) }
    ensures lawful { IfOk result (λ settled. AreLawful schema.now (records_of logs.now)) }
    ensures within { IfOk result (λ settled. AcceptedWithin schema.now (records_of logs.now)) }
    ensures settled { IfOk result (λ settled. Settles schema.now (records_of logs.now) settled) }
    ensures fault { IfErr result (λ fault. TellsFault schema.now (records_of logs.now) fault) }
{
    let standings = standings_of(alloc, schema, logs)?;
    settle_standings(alloc, schema, standings.as_slice())
}
