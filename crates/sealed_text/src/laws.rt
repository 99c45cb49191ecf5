//! What texts of closed batches tell, as contracts of functions that do nothing.

ghost use Rattle.std.specs.Prelude.{◌≡◌, ◌<◌, ◌+◌, ◌++◌, ℕ, Bool, true, false, List, All, take, length};
ghost use Rattle.sealed_text.specs.Seals.{IsBatch, IsRecords, IsTorn, IsEnd, IsDamagedAt, sealed_batch, sealed_text, closed_text, lines_of, LeavesFront, ChangesByte};

/// No two lists of batches have one text, whatever a stop left behind them, or the end of the world
/// (`batches`): so a text unseals to one list of batches, and to one rest. What a stop leaves is
/// never the end of the world (`ends`).
pub fn no_two_lists_have_one_text()
    ensures batches { (bs cs : List (List ℕ)) (r s : List ℕ) (d e : Bool) → All IsRecords bs
        → All IsRecords cs → IsEnd d r → IsEnd e s → sealed_text bs ++ r ≡ sealed_text cs ++ s
        → (bs ≡ cs) × (r ≡ s) }
    ensures ends { (rest : List ℕ) → IsEnd true rest → IsEnd false rest → ⊥ }
{}

/// A front of a text of closed batches, which is what a stop leaves of it, unseals to a front of
/// the batches: where a stop had left something behind them already (`torn`), and where the world
/// was ended and the front isn't the whole text (`ended`).
pub fn a_stop_leaves_a_front()
    ensures torn { (batches : List (List ℕ)) (rest : List ℕ) (k : ℕ) → All IsRecords batches
        → IsTorn rest → LeavesFront batches (take k (sealed_text batches ++ rest)) }
    ensures ended { (batches : List (List ℕ)) (k : ℕ) → All IsRecords batches
        → k < length (closed_text true batches)
        → LeavesFront batches (take k (closed_text true batches)) }
{}

/// One byte that was changed in a closed batch, or in the line that closes it, is damage at the line
/// at which that batch begins, whatever stands behind it. So the reading refuses it, and cuts nothing
/// off.
pub fn a_changed_byte_is_damage()
    ensures { (batches : List (List ℕ)) (batch changed rest : List ℕ) → All IsRecords batches
        → IsBatch batch → ChangesByte (sealed_batch batch) changed
        → IsDamagedAt (sealed_text batches ++ (changed ++ rest))
        (1 + lines_of (sealed_text batches)) }
{}
