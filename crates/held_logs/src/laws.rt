//! Laws of what a file holds, each as the contract of a function that does nothing.

ghost use Rattle.std.specs.Prelude.{◌≡◌, ◌++◌, ◌∷◌, ℕ, List, length};
ghost use Rattle.std.specs.List.{flat_map};
ghost use Rattle.field_bounds.specs.Schema.{SchemaValue};
ghost use Rattle.kept_records.specs.declared.record.Record.{Record as Kept};
ghost use Rattle.kept_records.specs.declared.counting.LogCount.{LogCount as Count};
ghost use Rattle.kept_records.specs.Logs.{IsLog};
ghost use Rattle.kept_records.specs.Stands.{Lawful, greatest, plain};
ghost use Rattle.kept_records.specs.Summary.{SummaryValue, summary_record};
ghost use Rattle.kept_records.specs.Text.{text};
ghost use Rattle.log_replay.specs.declared.standing.Standing.{Standing};
ghost use Rattle.log_replay.specs.declared.log_bytes.LogReplayed.TheVariants.{BadLine, BreaksRule};
ghost use Rattle.log_replay.specs.LogBytes.{ComesTo};
ghost use Rattle.log_stand.specs.declared.stand.Stand.{Stand as StandValue};
ghost use Rattle.log_bases.specs.Bases.{IsPast};
ghost use Rattle.log_head.specs.declared.gone.Gone.{Gone as GoneValue};
ghost use Rattle.held_logs.specs.Behind.{ComesFrom, IsForLog, TellsBehind};
ghost use Rattle.held_logs.specs.Counts.{IsCountBehind, IsStandBehind, told_number};

/// A standing that `replay_held` tells is for lawful records of a site: where nothing is gone, for
/// those that are held (`whole`), and else for a past of the base and those behind it (`behind`). It
/// is what the checks of a world's logs ask of a standing.
///
/// Source: Balegas and others 2015 for the rights and the totals; this project for bases.
pub fn held_standings_are_for_logs()
    ensures whole { (schema : SchemaValue) (s : ℕ) (bytes : List ℕ) (standing : Standing) (n : ℕ)
        → ComesTo schema s bytes standing n → IsForLog schema s standing }
    ensures behind { (schema : SchemaValue) (s : ℕ) (bytes : List ℕ) (standing : Standing) (n : ℕ)
        → ComesFrom schema s bytes standing n → IsForLog schema s standing }
{}

/// Of a log that begins with a base, and whose records are lawful behind a past of it, `replay_held`
/// names no line: none that is no record (`lines`), and none that breaks a rule (`rules`).
///
/// Source: Balegas and others 2015 for the rights and the totals; this project for bases.
pub fn named_lines_spare_lawful_logs()
    ensures lines { (schema : SchemaValue) (s n : ℕ) (held rest : List ℕ) (base : SummaryValue)
        (past rs : List Kept) → TellsBehind schema s held (BadLine n)
        → IsLog held (summary_record base ∷ rs) rest → IsPast schema s base past
        → Lawful schema s (past ++ (summary_record base ∷ rs)) → ⊥ }
    ensures rules { (schema : SchemaValue) (s n : ℕ) (held rest : List ℕ) (base : SummaryValue)
        (past rs : List Kept) → TellsBehind schema s held (BreaksRule n)
        → IsLog held (summary_record base ∷ rs) rest → IsPast schema s base past
        → Lawful schema s (past ++ (summary_record base ∷ rs)) → ⊥ }
{}

/// Where a log holds a base and some records behind it, and its head tells rightly how many bytes and
/// records are gone, `stand_held` and `count_held` tell of it what is true of all its records, those
/// that are gone included: the epoch of the last restart (`epoch`), how long they are (`size`), and
/// how many are no summaries (`others`).
///
/// Source: this project.
pub fn what_is_gone_counts_with_what_is_held()
    ensures epoch { (schema : SchemaValue) (s : ℕ) (base : SummaryValue) (past rs : List Kept)
        (rest held : List ℕ) (gone : GoneValue) (stand : StandValue) → IsPast schema s base past
        → IsLog held (summary_record base ∷ rs) rest → IsStandBehind gone held stand
        → stand.epoch ≡ greatest (past ++ (summary_record base ∷ rs)) }
    ensures size { (past rs : List Kept) (rest held : List ℕ) (gone : GoneValue)
        (stand : StandValue) → IsLog held rs rest → IsStandBehind gone held stand
        → gone.bytes ≡ length (flat_map text past)
        → stand.length ≡ told_number (length (flat_map text (past ++ rs))) }
    ensures others { (past rs : List Kept) (rest held : List ℕ) (gone : GoneValue)
        (count : Count) → IsLog held rs rest → IsCountBehind gone held count
        → gone.records ≡ length (plain past)
        → count.plain ≡ told_number (length (plain (past ++ rs))) }
{}
