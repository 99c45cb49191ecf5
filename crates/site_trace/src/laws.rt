//! Laws of traces, each as the contract of a function that does nothing.

ghost use Rattle.std.specs.Prelude.{◌≡◌, ℕ, ◌+◌, ◌<◌, ◌≤◌, ◌++◌, [], Bool, List, length, take, reverse};
ghost use Rattle.field_bounds.specs.Schema.{SchemaValue};
ghost use Rattle.field_bounds.specs.Limits.{IsSchema};
ghost use Rattle.field_bounds.specs.Effects.{Base};
ghost use Rattle.field_bounds.specs.Owed.{IsRun};
ghost use Rattle.field_bounds.specs.declared.entry.Entry.{Entry};
ghost use Rattle.kept_records.specs.declared.record.Record.{Record};
ghost use Rattle.kept_state.specs.Keeps.{Keeps};
ghost use Rattle.script_input.specs.Lines.{whole_lines, last_part};
ghost use Rattle.site_trace.specs.declared.reading.Trace.{Trace};
ghost use Rattle.site_trace.specs.declared.reading.TracedEntry.{TracedEntry};
ghost use Rattle.site_trace.specs.declared.cutting.TraceEnd.{TraceEnd};
ghost use Rattle.site_trace.specs.Ends.{IsEnd};
ghost use Rattle.site_trace.specs.Kept.{AreKept, LeaveFewer};
ghost use Rattle.site_trace.specs.Records.{AreSure, records_left};
ghost use Rattle.site_trace.specs.Traces.{AreTraced, IsTrace, IsFirstOther, entries_of};

/// What the entries of a site tell of its records by commands and replies alone is so: a run of owed
/// replies `o`, of which none is in doubt and no restart failed, leaves behind the records `bs` that
/// the site stood on as many more as `records_left` counts, summaries left out.
///
/// So where a stop left a front of these records, a history that is cut back by their number is the
/// one that left just that front (`cut`). `kept` and `left` tell whether a record in doubt is kept.
pub fn entries_tell_records_left()
    ensures left { (schema : SchemaValue) (s : ℕ) (base : Base) (bs : List Record) (kept : Bool)
        (o : List Entry) (rs : List Record) → IsRun schema s base o → AreSure o
        → Keeps schema s base bs kept o rs → length rs ≡ length bs + records_left o }
    ensures cut { (schema : SchemaValue) (s : ℕ) (base : Base) (bs : List Record) (kept : Bool)
        (later o : List Entry) (rs log back : List Record) → IsRun schema s base (later ++ o)
        → AreSure (later ++ o) → Keeps schema s base bs kept (later ++ o) rs → rs ≡ log ++ back
        → length log ≡ length bs + records_left o
        → (left : Bool) × Keeps schema s base bs left o log }
{}

/// Bytes are read as a trace in one way: they hold one list of entries (`one`), and a trace is never
/// refused for a line (`never`).
pub fn trace_is_read_in_one_way()
    ensures one { (schema : SchemaValue) (bytes : List ℕ) (trace other : Trace) → IsSchema schema
        → IsTrace schema bytes trace → IsTrace schema bytes other
        → (trace.entries.items ≡ other.entries.items) × (trace.length ≡ other.length) }
    ensures never { (schema : SchemaValue) (bytes : List ℕ) (trace : Trace) (number : ℕ)
        → IsTrace schema bytes trace → IsFirstOther schema bytes number → ⊥ }
{}

/// Where a trace is cut, its bytes are whole lines with nothing behind them (`whole`), and hold the
/// entries that stay (`holds`). So what is written behind them begins a line, and the trace goes on.
/// Each longer front of whole lines holds entries that leave more records than the log has
/// (`longest`).
pub fn cut_trace_holds_its_entries()
    ensures holds { (schema : SchemaValue) (bytes : List ℕ) (trace : Trace) (kept : ℕ)
        (end : TraceEnd) → IsTrace schema bytes trace → IsEnd trace kept end
        → AreTraced schema 0 (whole_lines (take end.length bytes))
        (take end.entries trace.entries.items) }
    ensures whole { (schema : SchemaValue) (bytes : List ℕ) (trace : Trace) (kept : ℕ)
        (end : TraceEnd) → IsTrace schema bytes trace → IsEnd trace kept end
        → last_part (take end.length bytes) ≡ [] }
    ensures longest { (schema : SchemaValue) (bytes : List ℕ) (trace : Trace) (kept : ℕ)
        (end : TraceEnd) (length_of_front : ℕ) (traced : List TracedEntry) → IsSchema schema
        → IsTrace schema bytes trace → IsEnd trace kept end → end.length < length_of_front
        → length_of_front ≤ length bytes → last_part (take length_of_front bytes) ≡ []
        → AreTraced schema 0 (whole_lines (take length_of_front bytes)) traced
        → kept < records_left (reverse (entries_of traced)) }
{}

/// The entries that `kept_entries` gives are those that stay where `trace_end_at` cuts the same trace
/// (`same`), and it gives none where that tells none (`none`).
pub fn kept_entries_are_those_of_the_cut()
    ensures same { (schema : SchemaValue) (bytes : List ℕ) (trace : Trace) (kept : ℕ)
        (end : TraceEnd) (entries : List Entry) → IsSchema schema → IsTrace schema bytes trace
        → IsEnd trace kept end → AreKept schema bytes kept entries
        → entries ≡ entries_of (take end.entries trace.entries.items) }
    ensures none { (schema : SchemaValue) (bytes : List ℕ) (trace : Trace) (kept : ℕ)
        → IsSchema schema → IsTrace schema bytes trace → LeaveFewer schema bytes kept
        → records_left (reverse (entries_of trace.entries.items)) < kept }
{}
