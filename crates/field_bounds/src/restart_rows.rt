//! Worked rows of stops and restarts, computed against the definitions, each as a clause of a
//! function that does nothing. They are of site 0 of two: of a field from 0 to 100 at 40, it has 20
//! rights to lower and 30 to raise it.

ghost use Rattle.std.specs.Prelude.{◌≡◌, ℕ, pos, [], ◌∷◌, reverse, take, None};
ghost use Rattle.field_bounds.specs.declared.kind.Kind.TheVariants.{Lower, Raise};
ghost use Rattle.field_bounds.specs.declared.entry.Command.TheVariants.{Begin, Commit, Restate, Read, Share, Restart};
ghost use Rattle.field_bounds.specs.declared.entry.Last.{Last};
ghost use Rattle.field_bounds.specs.declared.entry.Last.TheVariants.{Nothing, Kept};
ghost use Rattle.field_bounds.specs.declared.entry.Refusal.TheVariants.{NumbersFull, NothingGiven};
ghost use Rattle.field_bounds.specs.declared.entry.Reply.TheVariants.{Begun, Committed, Between, Shares, Restarted, Unsure, Refused};
ghost use Rattle.field_bounds.specs.Owed.{IsRun};
ghost use Rattle.field_bounds.specs.Statements.{statement_of};
ghost use Rattle.field_bounds.specs.Central.{committed_value, inf, sup, shares, in_flight, IsTold, IsSound};
ghost use Rattle.field_bounds.specs.Worked.{halved_shelf, stock, txn, row_entry};
ghost use Rattle.field_bounds.specs.WorkedGifts.{site, give_lower, spare_raise, takes_in, IsOwedAt, IsWrongAt};
ghost use Rattle.field_bounds.specs.WorkedRestarts.{row_aborted, in_doubt, row_lost, row_kept, kept_late, epoch_used, gift_kept, spare_kept, spare_lost, row_spent, no_epoch_left};

/// Each reply of these rows is owed.
pub fn worked_restarts()
    ensures aborted { IsOwedAt 0 row_aborted }
    ensures lost { IsOwedAt 0 row_lost }
    ensures kept { IsOwedAt 0 row_kept }
    ensures kept_late { IsOwedAt 0 kept_late }
    ensures epoch_used { IsOwedAt 0 epoch_used }
    ensures gift_kept { IsOwedAt 0 gift_kept }
    ensures spare_kept { IsOwedAt 0 spare_kept }
    ensures spare_lost { IsOwedAt 0 spare_lost }
    ensures no_epoch_left { IsRun halved_shelf 0 row_spent (reverse no_epoch_left) }
{}

/// In those rows these other replies aren't owed: a commit of what the restart aborted, the old
/// epoch's next number, a read answered while the site is down, a restart that tells of nothing in
/// doubt after a reply that was, one that tells of a kept command where none was in doubt, rights
/// still set aside after what was lost, rights free again after what was kept, an epoch that no
/// failed restart used up, the same epoch again, a begin in doubt, and a refused restart where
/// epochs are left.
pub fn wrong_restarts()
    ensures commits { IsWrongAt 0 (take 3 row_aborted) (Commit (txn 1)) Committed }
    ensures goes_on { IsWrongAt 0 (take 4 row_aborted) Begin (Begun (txn 2)) }
    ensures read_down { IsWrongAt 0 (take 3 in_doubt) (Read stock) (Between (pos 20) (pos 70)) }
    ensures nothing { (epoch : ℕ) → IsWrongAt 0 in_doubt Restart (Restarted epoch Nothing) }
    ensures found { (epoch : ℕ) → IsWrongAt 0 (take 2 row_aborted) Restart (Restarted epoch Kept) }
    ensures held { IsWrongAt 0 (take 5 row_lost) (Share stock) (Shares 0 30) }
    ensures freed { IsWrongAt 0 (take 5 row_kept) (Share stock) (Shares 20 30) }
    ensures skipped { (last : Last) → IsWrongAt 0 in_doubt Restart (Restarted 2 last) }
    ensures again { (last : Last) → IsWrongAt 0 in_doubt Restart (Restarted 0 last) }
    ensures begun { IsWrongAt 0 (take 0 row_aborted) Begin Unsure }
    ensures full { IsWrongAt 0 in_doubt Restart (Refused NumbersFull) }
    ensures unstated { IsWrongAt 0 (take 2 gift_kept) (Restate (site 1) stock Lower)
        (Refused NothingGiven) }
{}

/// The rows `kept` and `lost` are sound traces. While the commit of 20 is in doubt it counts as
/// open: the committed value is 40, the infimum 20 and the supremum 40. Once it was kept all three
/// are 20, once it was lost all three are 40. A gift or a spare in doubt issues no statement; once
/// it was kept its rights are in flight, 5 of the gift and 15 of the spare. A trace that takes in
/// what nobody gave isn't sound, also where that is in doubt.
pub fn worked_doubt()
    ensures sound { IsSound halved_shelf (reverse row_kept)
        × IsSound halved_shelf (reverse row_lost) }
    ensures waiting { let front = reverse in_doubt in
        (committed_value halved_shelf front 0 ≡ pos 40)
        × (inf halved_shelf front 0 ≡ pos 20)
        × (sup halved_shelf front 0 ≡ pos 40) }
    ensures kept { let whole = reverse row_kept in
        (committed_value halved_shelf whole 0 ≡ pos 20)
        × (inf halved_shelf whole 0 ≡ pos 20)
        × (sup halved_shelf whole 0 ≡ pos 20) }
    ensures lost { let whole = reverse row_lost in
        (committed_value halved_shelf whole 0 ≡ pos 40)
        × (inf halved_shelf whole 0 ≡ pos 40)
        × (sup halved_shelf whole 0 ≡ pos 40) }
    ensures unissued { statement_of (row_entry (give_lower 1 5) Unsure) ≡ None }
    ensures flying { let whole = reverse gift_kept in
        (in_flight halved_shelf whole 0 Lower ≡ 5) × (shares halved_shelf whole 0 Lower ≡ 35) }
    ensures spared_unissued { statement_of (row_entry (spare_raise 1 100) Unsure) ≡ None }
    ensures spared_flying { let whole = reverse spare_kept in
        (in_flight halved_shelf whole 0 Raise ≡ 15) × (shares halved_shelf whole 0 Raise ≡ 45) }
    ensures made_up { ¬ IsTold (takes_in 5 Unsure ∷ []) }
{}
