//! Laws of the logs of all sites, each as the contract of a function that does nothing.

ghost use Rattle.std.specs.Prelude.{◌≡◌, ◌≤ℤ◌, ◌<◌, ℕ, Bool, false, List, Option, length};
ghost use Rattle.field_bounds.specs.declared.entry.Entry.{Entry};
ghost use Rattle.field_bounds.specs.Schema.{SchemaValue};
ghost use Rattle.field_bounds.specs.Limits.{IsSchema};
ghost use Rattle.field_bounds.specs.Central.{committed_value, floor_in as floor_in_trace, ceiling_in as ceiling_in_trace, IsSound};
ghost use Rattle.kept_records.specs.declared.record.Record.{Record};
ghost use Rattle.world_logs.specs.Logs.{AreLawful, AcceptedWithin, value_in, floor_in, ceiling_in, IsConserved};
ghost use Rattle.world_logs.specs.Traces.{AreLeft};
ghost use Rattle.world_logs.specs.Lost.{MayBe, least_value, greatest_value};

/// The logs of all sites, each lawful, of which none has accepted more than was given to its site,
/// account for every right: on each field the committed value lies above the floor, and below the
/// ceiling, by exactly the own rights of all sites and those in flight (`conserved`). So the value
/// lies within its bounds (`bounded`). The floor and the ceiling are the schema's, as far inwards as
/// the sites have given rights up.
///
/// Source: O'Neil 1986 for the committed value, Balegas and others 2015 for rights that are divided
/// among sites and transferred, this project for the law.
pub fn logs_account_for_all_rights()
    ensures conserved { (schema : SchemaValue) (logs : List (List Record)) → IsSchema schema
        → AreLawful schema logs → AcceptedWithin schema logs → IsConserved schema logs }
    ensures bounded { (schema : SchemaValue) (logs : List (List Record)) → IsSchema schema
        → AreLawful schema logs → AcceptedWithin schema logs → (f : ℕ) → f < length schema.fields
        → (floor_in schema logs f ≤ℤ value_in schema logs f)
        × (value_in schema logs f ≤ℤ ceiling_in schema logs f) }
{}

/// Where logs are lost, the others still bound each value: whatever the lost ones said, if each log
/// is lawful and no site has accepted more than it was given, a field's committed value is at least
/// the schema's floor and what the known sites guard of rights to lower it and have in flight among
/// one another, and at most its ceiling less the same to raise it.
///
/// Source: Balegas and others 2015 for the bound that rights which are held give to a value, this
/// project for both kinds and for rights in flight.
pub fn known_logs_bound_each_value()
    ensures within { (schema : SchemaValue) (known : List (Option (List Record)))
        (logs : List (List Record)) → IsSchema schema → MayBe schema known logs →
        (f : ℕ) → f < length schema.fields
        → (least_value schema known f ≤ℤ value_in schema logs f)
        × (value_in schema logs f ≤ℤ greatest_value schema known f) }
{}

/// The logs that the sites of a world leave pass the check, and tell what its trace comes to. Where
/// each reply of a trace was owed and each statement that was taken in was issued before, no log that
/// its entries left has accepted more than was given, whatever stands there of what is in doubt
/// (`within`). Where nothing that is in doubt stands, as in the logs of sites that are up, value,
/// floor and ceiling of each field are those of the trace (`value`, `floor`, `ceiling`): the value is
/// the one that one central store has committed.
///
/// Source: O'Neil 1986 for the committed value, this project for the law.
pub fn logs_tell_what_the_trace_does()
    ensures within { (schema : SchemaValue) (trace : List Entry) (kept : ℕ → Bool)
        (logs : List (List Record)) → IsSound schema trace → AreLeft schema trace kept logs
        → AcceptedWithin schema logs }
    ensures value { (schema : SchemaValue) (trace : List Entry) (logs : List (List Record))
        → IsSchema schema → IsSound schema trace → AreLeft schema trace (λ s. false) logs →
        (f : ℕ) → f < length schema.fields
        → value_in schema logs f ≡ committed_value schema trace f }
    ensures floor { (schema : SchemaValue) (trace : List Entry) (logs : List (List Record))
        → IsSchema schema → IsSound schema trace → AreLeft schema trace (λ s. false) logs →
        (f : ℕ) → floor_in schema logs f ≡ floor_in_trace schema trace f }
    ensures ceiling { (schema : SchemaValue) (trace : List Entry) (logs : List (List Record))
        → IsSchema schema → IsSound schema trace → AreLeft schema trace (λ s. false) logs →
        (f : ℕ) → ceiling_in schema logs f ≡ ceiling_in_trace schema trace f }
{}
