//! Laws of the records' texts, each as the contract of a function that does nothing.

ghost use Rattle.std.specs.Prelude.{◌≡◌, ◌+◌, ◌<◌, ◌≤◌, ◌++◌, ◌∷◌, [], ◌⊎◌, List, ℕ, length, take, true};
ghost use Rattle.std.specs.List.{flat_map, AllByRecursion};
ghost use Rattle.kept_records.specs.declared.record.Record.{Record};
ghost use Rattle.kept_records.specs.Text.{text, IsRecord};
ghost use Rattle.field_bounds.specs.Schema.{SchemaValue};
ghost use Rattle.kept_records.specs.Logs.{IsLog, Reads};
ghost use Rattle.kept_records.specs.Stands.{may_follow, Lawful, plain, piece, since_summary, max_behind, own_in};
ghost use Rattle.kept_records.specs.Summaries.{SameSums, LeavesPrefix, TellsOf};
ghost use Rattle.kept_records.specs.Summary.{SummaryValue, summary_record};
ghost use Rattle.field_bounds.specs.declared.kind.Kind.{Kind};

/// No record's text begins another record's text: where one does, the two records are the same one
/// (`same`), and nothing is left behind it (`whole`). So what a log holds is told by its bytes
/// alone.
pub fn no_text_begins_another()
    ensures same { (r s : Record) (more : List ℕ) → IsRecord r → IsRecord s
        → text s ≡ text r ++ more → r ≡ s }
    ensures whole { (r s : Record) (more : List ℕ) → IsRecord r → IsRecord s
        → text s ≡ text r ++ more → more ≡ [] }
{}

/// A torn end takes nothing from the records before it. Where a log of records has nothing behind
/// them and any front of one more record's text is added, as an append that fails or a stop leaves
/// it, the bytes are a log of the same records with that front behind them, or of these records and
/// the new one with nothing behind (`append`). Cut to the length that reading answers, the bytes
/// are a log of the records that were read, with nothing behind (`cut`). And bytes are a log of one
/// list of records alone, with one rest (`one`).
pub fn torn_end_keeps_records()
    ensures append { (bytes : List ℕ) (rs : List Record) (r : Record) (k : ℕ) → IsLog bytes rs []
        → IsRecord r →
        IsLog (bytes ++ take k (text r)) rs (take k (text r))
        ⊎ IsLog (bytes ++ take k (text r)) (rs ++ r ∷ []) [] }
    ensures cut { (bytes : List ℕ) (rs : List Record) (n : ℕ) → Reads bytes rs n
        → IsLog (take n bytes) rs [] }
    ensures one { (bytes : List ℕ) (rs ss : List Record) (a b : List ℕ) → IsLog bytes rs a
        → IsLog bytes ss b → (rs ≡ ss) × (a ≡ b) }
{}

/// How many bytes of a record's text were kept tells what stands there. Behind a log with nothing
/// behind its records, fewer bytes than the text has are a torn end, and the records are the same
/// (`torn`); all of them are one more record (`whole`). A log that is cut to the length of its
/// records' texts is a log of these records with nothing behind them (`cut`).
pub fn kept_bytes_tell_what_stands()
    ensures torn { (bytes : List ℕ) (rs : List Record) (r : Record) (n : ℕ) → IsLog bytes rs []
        → IsRecord r → n < length (text r) →
        IsLog (bytes ++ take n (text r)) rs (take n (text r)) }
    ensures whole { (bytes : List ℕ) (rs : List Record) (r : Record) (n : ℕ) → IsLog bytes rs []
        → IsRecord r → length (text r) ≤ n →
        IsLog (bytes ++ take n (text r)) (rs ++ r ∷ []) [] }
    ensures cut { (bytes rest : List ℕ) (rs : List Record) (n : ℕ) → IsLog bytes rs rest
        → n ≡ length (flat_map text rs) → IsLog (take n bytes) rs [] }
{}

/// Summaries change nothing that records stand for: without them records stand for the same
/// (`sums`, `owned`), and are lawful where all are (`lawful`). What is appended for a record, with
/// the summary behind it where one is due, is lawful (`piece`), and once it stands whole fewer than
/// 1,000 records stand behind the last summary (`bound`); one record more is one more (`one`).
pub fn summaries_tell_nothing_new()
    ensures sums { (rs : List Record) → SameSums (plain rs) rs }
    ensures owned { (schema : SchemaValue) (s : ℕ) (rs : List Record) (f : ℕ) (k : Kind) →
        own_in schema s (plain rs) f k ≡ own_in schema s rs f k }
    ensures lawful { (schema : SchemaValue) (s : ℕ) (rs : List Record) → Lawful schema s rs
        → Lawful schema s (plain rs) }
    ensures piece { (schema : SchemaValue) (s : ℕ) (rs : List Record) (r : Record)
        → Lawful schema s rs →
        may_follow schema s rs r ≡ true → Lawful schema s (rs ++ piece schema s rs r) }
    ensures bound { (schema : SchemaValue) (s : ℕ) (rs : List Record) (r : Record) →
        since_summary (rs ++ piece schema s rs r) < max_behind }
    ensures one { (rs : List Record) (r : Record) → since_summary (rs ++ r ∷ []) ≤ since_summary rs
        + 1 }
{}

/// What a piece of several lines leaves behind a log, where the medium kept so many of its bytes: a
/// front of its records, and a rest in which no line ends, which a cut takes away. Its first record
/// stands exactly where all bytes of that record's own text were kept, whatever stands behind it.
pub fn torn_piece_leaves_a_front()
    ensures front { (bytes : List ℕ) (rs ps : List Record) (k : ℕ) → IsLog bytes rs []
        → AllByRecursion IsRecord ps →
        LeavesPrefix bytes rs ps k (bytes ++ take k (flat_map text ps)) }
{}

/// A summary that may stand behind some records tells what they stand for: its epoch, the own
/// rights of each field, and the totals of each other site and field, so that nothing before it has
/// to be read.
pub fn summary_tells_what_stands()
    ensures tells { (schema : SchemaValue) (s : ℕ) (rs : List Record) (v : SummaryValue) →
        may_follow schema s rs (summary_record v) ≡ true
        → TellsOf schema s v (rs ++ summary_record v ∷ []) }
{}
