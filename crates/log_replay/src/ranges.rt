//! That the summary of records may be written.

ghost use Rattle.std.specs.Prelude.{◌≡◌, ◌≤◌, ◌<◌, ℕ, List, true};
ghost use Rattle.field_bounds.specs.Schema.{SchemaValue};
ghost use Rattle.field_bounds.specs.Limits.{IsSchema};
ghost use Rattle.kept_records.specs.declared.record.Record.{Record};
ghost use Rattle.kept_records.specs.Text.{IsRecord, IsSummary};
ghost use Rattle.kept_records.specs.Stands.{summary_of, Lawful};
ghost use Rattle.std.specs.List.{AllByRecursion};
ghost use Rattle.field_bounds.specs.declared.kind.Kind.{Kind};
ghost use Rattle.kept_records.specs.Summary.{totals_of, rises};

/// Totals site by site, field by field and kind by kind rise strictly, whatever they are, if each
/// is within a bound.
pub fn totals_rise()
    ensures rise { (F : ℕ → ℕ → Kind → ℕ) (most : ℕ) → ((r f : ℕ) (k : Kind) → F r f k ≤ most)
        → (s m n : ℕ) → rises (totals_of F s m n) ≡ true }
{}

/// The summary of lawful records may be written: its numbers are in the ranges of its text.
pub fn summary_may_be_written()
    ensures ranges { (schema : SchemaValue) (s : ℕ) (rs : List Record) → IsSchema schema
        → s < schema.sites → Lawful schema s rs →
        AllByRecursion IsRecord rs → IsSummary (summary_of schema s rs) }
{}
