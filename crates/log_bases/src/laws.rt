//! Laws of bases and of their pasts, each as the contract of a function that does nothing.

ghost use Rattle.std.specs.Prelude.{◌≡◌, ◌<◌, ◌++◌, ◌∷◌, ℕ, Bool, List};
ghost use Rattle.field_bounds.specs.Schema.{SchemaValue};
ghost use Rattle.field_bounds.specs.Limits.{IsSchema};
ghost use Rattle.kept_records.specs.declared.record.Record.{Record};
ghost use Rattle.kept_records.specs.Stands.{Lawful, base_stood_for};
ghost use Rattle.kept_records.specs.Summary.{SummaryValue, summary_record};
ghost use Rattle.log_bases.specs.Bases.{IsPast, IsBalanced, Balances};
ghost use Rattle.log_bases.specs.Pasts.{past_of};

/// What lawful records stand for balances: on each field, what a site guards of it and all that it
/// gave make up its parts and all that it accepted.
///
/// Source: Balegas and others 2015 for the rights and the totals.
pub fn lawful_records_balance()
    ensures balance { (schema : SchemaValue) (s : ℕ) (rs : List Record) → Lawful schema s rs
        → Balances schema s rs }
{}

/// A base has a past exactly where it is balanced. Where it is, `past_of` is one.
pub fn balanced_bases_have_pasts()
    ensures some { (schema : SchemaValue) (s : ℕ) (base : SummaryValue) → IsSchema schema
        → s < schema.sites → IsBalanced schema s base
        → IsPast schema s base (past_of schema s base) }
    ensures only { (schema : SchemaValue) (s : ℕ) (base : SummaryValue) (past : List Record)
        → IsSchema schema → s < schema.sites → IsPast schema s base past
        → IsBalanced schema s base }
{}

/// Whichever past stood in front of a base, a site that reads what stands behind it stands on the
/// same: its history has one base (`base`), and the same records may stand there (`follow`).
pub fn pasts_answer_alike()
    ensures base { (schema : SchemaValue) (s : ℕ) (told : SummaryValue) (p q rs : List Record)
        (up : Bool) → IsPast schema s told p → IsPast schema s told q
        → Lawful schema s (p ++ summary_record told ∷ rs)
        → base_stood_for schema s up (p ++ summary_record told ∷ rs)
        ≡ base_stood_for schema s up (q ++ summary_record told ∷ rs) }
    ensures follow { (schema : SchemaValue) (s : ℕ) (told : SummaryValue) (p q rs : List Record)
        → IsPast schema s told p → IsPast schema s told q
        → Lawful schema s (p ++ summary_record told ∷ rs)
        → Lawful schema s (q ++ summary_record told ∷ rs) }
{}
