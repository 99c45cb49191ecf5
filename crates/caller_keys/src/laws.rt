//! What texts of notes and records tell, as contracts of functions that do nothing.

ghost use Rattle.std.specs.Prelude.{◌≡◌, ◌≢◌, ◌++◌, ℕ, List, [], All, take};
ghost use Rattle.std.specs.List.{AllPass, AllByRecursion, flat_map};
ghost use Rattle.caller_keys.specs.Keys.{KeyNote, IsNote, note_line, is_note_byte, EndsInLineFeed, HasNoLf, IsKeyed, AreLines, LeavesFront, CutsRest};

/// A text has one list of notes, and its records are one text.
pub fn notes_and_records_are_told_apart()
    ensures one { (text : List ℕ) (ns ms : List KeyNote) (r s : List ℕ) → IsKeyed text ns r
        → IsKeyed text ms s → (ns ≡ ms) × (r ≡ s) }
{}

/// Texts that are keyed: nothing (`nothing`); of two that are, the first of whole lines, the one behind
/// the other (`joined`); lines of notes alone, which have no records (`notes`); and records in which no
/// byte is a `K` (75), as all that records are spelled with are, and a front of them (`records`).
pub fn keyed_texts_are_joined()
    ensures nothing { IsKeyed [] [] [] }
    ensures joined { (text more : List ℕ) (ns ms : List KeyNote) (r s : List ℕ) → AreLines text
        → IsKeyed text ns r → IsKeyed more ms s → IsKeyed (text ++ more) (ns ++ ms) (r ++ s) }
    ensures notes { (ns : List KeyNote) → AllByRecursion IsNote ns
        → IsKeyed (flat_map note_line ns) ns [] }
    ensures records { (text : List ℕ) → All (λ b. b ≢ 75) text → IsKeyed text [] text }
{}

/// A front of a text, which is what a stop leaves of it, is keyed with a front of the notes, and a front
/// of the records up to what stands behind the last line feed (`stop`). What stands behind the last line
/// feed of the records stands at the end of the text, so that it is cut off there with no note (`cut`).
pub fn a_stop_leaves_a_front()
    ensures stop { (text : List ℕ) (notes : List KeyNote) (records : List ℕ) (k : ℕ)
        → IsKeyed text notes records → LeavesFront notes records (take k text) }
    ensures cut { (text : List ℕ) (notes : List KeyNote) (before rest : List ℕ)
        → IsKeyed text notes (before ++ rest) → AreLines before → HasNoLf rest
        → CutsRest text notes before rest }
{}

/// The line of a note is a batch's: it is spelled with `A-Z`, `0-9`, space and line feed alone
/// (`letters`), and ends in a line feed (`line`).
pub fn notes_are_spelled_as_batches()
    ensures letters { (n : KeyNote) → IsNote n → AllPass is_note_byte (note_line n) }
    ensures line { (n : KeyNote) → EndsInLineFeed (note_line n) }
{}
