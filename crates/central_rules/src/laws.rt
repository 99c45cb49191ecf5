//! Laws of the definitions, each as the contract of a function that does nothing.

ghost use Rattle.std.specs.Prelude.{◌≡◌, ◌<◌, ℕ, true, List, reverse, ◌↔◌};
ghost use Rattle.field_bounds.specs.declared.entry.Entry.{Entry};
ghost use Rattle.field_bounds.specs.Schema.{SchemaValue};
ghost use Rattle.field_bounds.specs.Limits.{IsSchema};
ghost use Rattle.field_bounds.specs.Effects.{fresh};
ghost use Rattle.field_bounds.specs.Owed.{Fits, place};
ghost use Rattle.field_bounds.specs.Central.{own, IsSound, IsCentral, GrantRule, ShortageRule, IntervalRule, StatementRule};
ghost use Rattle.central_rules.specs.declared.verdict.Rule.{Rule};
ghost use Rattle.central_rules.specs.declared.verdict.Verdict.TheVariants.{Legal, Illegal};
ghost use Rattle.central_rules.specs.declared.verdict.Rule.TheVariants.{Site, Grant, Shortage, Interval, Statement as Told, Reply as Owed};
ghost use Rattle.central_rules.specs.Verdict.{test_of, verdict_of, IsFirstBad};

/// The verdict is what it says it is. It is Legal exactly where the trace is sound, so that each
/// reply is one that its site owes after its own entries alone, and central, so that one central
/// store could have made it (`legal`). Else `at` is the first bad entry, counted from 1: the front
/// before it is sound and central, and `rule` is the first rule that it breaks over that front
/// (`illegal`). Over every sound trace the verdict is Legal (`sound`). Entries stand in order, the
/// oldest first; a trace has the newest first.
pub fn verdict_is_exact()
    ensures legal { (schema : SchemaValue) (entries : List Entry) →
        verdict_of schema entries ≡ Legal
        ↔ (IsSound schema (reverse entries) × IsCentral schema (reverse entries)) }
    ensures illegal { (schema : SchemaValue) (entries : List Entry) (at : ℕ) (rule : Rule) →
        verdict_of schema entries ≡ Illegal at rule → IsFirstBad schema (reverse entries) at rule }
    ensures sound { (schema : SchemaValue) (entries : List Entry) →
        IsSchema schema → IsSound schema (reverse entries) → verdict_of schema entries ≡ Legal }
{}

/// Each rule has a test of its own, which holds of an entry over the front before it exactly where
/// the rule does (`site`, `grant`, `shortage`, `interval`, `statement`, `reply`).
pub fn tests_are_rules()
    ensures site { (schema : SchemaValue) (t : List Entry) (e : Entry) →
        test_of schema t e Site ≡ true ↔ (e.site.0 < schema.sites) }
    ensures grant { (schema : SchemaValue) (t : List Entry) (e : Entry) →
        test_of schema t e Grant ≡ true ↔ GrantRule schema t e.command e.reply }
    ensures shortage { (schema : SchemaValue) (t : List Entry) (e : Entry) →
        test_of schema t e Shortage ≡ true ↔ ShortageRule schema t e.site.0 e.command e.reply }
    ensures interval { (schema : SchemaValue) (t : List Entry) (e : Entry) →
        test_of schema t e Interval ≡ true ↔ IntervalRule schema t e.command e.reply }
    ensures statement { (schema : SchemaValue) (t : List Entry) (e : Entry) →
        test_of schema t e Told ≡ true ↔ StatementRule t e.command e.reply }
    ensures reply { (schema : SchemaValue) (t : List Entry) (e : Entry) →
        test_of schema t e Owed ≡ true
        ↔ Fits (place schema e.site.0 (fresh schema e.site.0) (own e.site.0 t)) e.command e.reply }
{}
