//! Worked rows of records and of luck, computed against the definitions, each as a clause of a
//! function that does nothing. They are of site 0 of two: of a field from 0 to 100 at 40, it has 20
//! rights to lower and 30 to raise it.

ghost use Rattle.std.specs.Prelude.{◌≡◌, [], ◌∷◌, take};
ghost use Rattle.field_bounds.specs.declared.kind.Kind.TheVariants.{Lower, Raise};
ghost use Rattle.field_bounds.specs.declared.entry.Command.TheVariants as commands;
ghost use Rattle.field_bounds.specs.declared.entry.Last.TheVariants.{Nothing, Kept, Lost};
ghost use Rattle.field_bounds.specs.declared.entry.Reply.TheVariants.{Restarted, Unsure, StillDown, Committed};
ghost use Rattle.field_bounds.specs.Worked.{halved_shelf, stock, txn};
ghost use Rattle.field_bounds.specs.WorkedGifts.{site, IsOwedAt};
ghost use Rattle.kept_records.specs.declared.record.Record.TheVariants as records;
ghost use Rattle.kept_records.specs.Stands.{own_in};
ghost use Rattle.kept_state.specs.declared.luck.Luck.TheVariants.{Fine, Torn};
ghost use Rattle.kept_state.specs.Worked.{Leaves, IsLawfulAtZero, replies, commit, commit_of_two, gift, cut_lower, cut_raise, row_committed, found_kept, found_lost, gifts_kept, spares_kept, cuts_kept, torn, torn_twice, torn_gift, torn_cut};

/// What these histories leave. A commit of 20 in doubt that is kept stands in front of the records
/// of both restarts, the one that failed too (`kept`), and leaves 0 rights to lower and 50 to raise
/// (`rights`); where it is lost, the record of the restart stands alone (`lost`). A gift is kept
/// with all that was given before (`gifts`), a spare likewise (`spares`), a tightening with all
/// that was given up before of its kind (`cuts`), and a commit with its escrows in the order in
/// which they were granted (`in_order`). What was given up is owned no more (`given_up`). Each of
/// these records may stand (`lawful`, `lawful_cuts`), and each reply of these histories is owed
/// (`owed`): the premises of the laws are met.
pub fn worked_records()
    ensures kept { Leaves found_kept (commit ∷ records.Restart 1 ∷ records.Restart 2 ∷ []) }
    ensures lost { Leaves found_lost (records.Restart 1 ∷ []) }
    ensures gifts { Leaves gifts_kept (gift 3 ∷ gift 5 ∷ records.Restart 1 ∷ []) }
    ensures spares { Leaves spares_kept (gift 10 ∷ gift 13 ∷ records.Restart 1 ∷ []) }
    ensures cuts { Leaves cuts_kept (cut_lower 3 ∷ cut_raise 4 ∷ cut_lower 5 ∷ records.Restart 1
        ∷ []) }
    ensures in_order { Leaves row_committed (commit_of_two ∷ []) }
    ensures rights { let rs = commit ∷ records.Restart 1 ∷ records.Restart 2 ∷ [] in
        (own_in halved_shelf 0 rs 0 Lower ≡ 0) × (own_in halved_shelf 0 rs 0 Raise ≡ 50) }
    ensures given_up { let rs = cut_lower 3 ∷ cut_raise 4 ∷ cut_lower 5 ∷ records.Restart 1 ∷ [] in
        (own_in halved_shelf 0 rs 0 Lower ≡ 15) × (own_in halved_shelf 0 rs 0 Raise ≡ 26) }
    ensures lawful { IsLawfulAtZero (commit ∷ records.Restart 1 ∷ records.Restart 2 ∷ []) }
    ensures lawful_cuts { IsLawfulAtZero (cut_lower 3 ∷ cut_raise 4 ∷ cut_lower 20 ∷ cut_raise 30
        ∷ []) }
    ensures owed { IsOwedAt 0 found_kept × IsOwedAt 0 found_lost × IsOwedAt 0 gifts_kept
        × IsOwedAt 0 spares_kept × IsOwedAt 0 cuts_kept × IsOwedAt 0 row_committed }
{}

/// What these histories don't leave: neither a commit that was kept without its record, nor one
/// that was lost with it, nor a restart of another epoch. And what no site has kept: the commit of
/// all its rights twice, a gift of more than it has, a total that doesn't grow, an epoch twice, a
/// commit of another epoch than the last restart's, more given up than it has, the same total given
/// up twice, and an acceptance beyond the room that is left where some was given up.
pub fn wrong_records()
    ensures forgotten { Leaves found_kept (records.Restart 1 ∷ records.Restart 2 ∷ []) → ⊥ }
    ensures invented { Leaves found_lost (commit ∷ records.Restart 1 ∷ []) → ⊥ }
    ensures other_epoch { Leaves found_kept (commit ∷ records.Restart 1 ∷ records.Restart 3 ∷ [])
        → ⊥ }
    ensures commit_twice { IsLawfulAtZero (commit ∷ commit ∷ []) → ⊥ }
    ensures too_much { IsLawfulAtZero (gift 21 ∷ []) → ⊥ }
    ensures same_total { IsLawfulAtZero (gift 5 ∷ gift 5 ∷ []) → ⊥ }
    ensures same_epoch { IsLawfulAtZero (records.Restart 1 ∷ records.Restart 1 ∷ []) → ⊥ }
    ensures old_commit { IsLawfulAtZero (records.Restart 1 ∷ commit ∷ []) → ⊥ }
    ensures cut_too_far { IsLawfulAtZero (cut_lower 21 ∷ []) → ⊥ }
    ensures cut_twice { IsLawfulAtZero (cut_lower 5 ∷ cut_lower 5 ∷ []) → ⊥ }
    ensures no_room { IsLawfulAtZero (cut_lower 20 ∷ records.Accept (site 1) stock Lower 51 ∷ [])
        → ⊥ }
{}

/// Replies that luck leaves. A commit whose append is torn is in doubt; its text is 12 bytes, so
/// torn behind 11 it is lost (`lost`), and behind 12 kept (`kept`). A restart that is torn fails
/// (`fails`): its text is 4 bytes, so behind 4 it uses up its epoch (`used`), and behind 3 it
/// doesn't (`unused`). A gift of 5 is 10 bytes (`gift_lost`, `gift_kept`), a tightening of 5 is 8
/// (`cut_lost`, `cut_kept`).
pub fn worked_luck()
    ensures fine { replies (take 2 (torn 0)) (commands.Commit (txn 1)) Fine ≡ Committed }
    ensures unsure { replies (take 2 (torn 0)) (commands.Commit (txn 1)) (Torn 12) ≡ Unsure }
    ensures lost { replies (torn 11) commands.Restart Fine ≡ Restarted 1 Lost }
    ensures kept { replies (torn 12) commands.Restart Fine ≡ Restarted 1 Kept }
    ensures fails { replies (torn 12) commands.Restart (Torn 4) ≡ StillDown }
    ensures used { replies (torn_twice 12 4) commands.Restart Fine ≡ Restarted 2 Kept }
    ensures unused { replies (torn_twice 12 3) commands.Restart Fine ≡ Restarted 1 Kept }
    ensures gift_lost { replies (torn_gift 9) commands.Restart Fine ≡ Restarted 1 Lost }
    ensures gift_kept { replies (torn_gift 10) commands.Restart Fine ≡ Restarted 1 Kept }
    ensures cut_lost { replies (torn_cut 7) commands.Restart Fine ≡ Restarted 1 Lost }
    ensures cut_kept { replies (torn_cut 8) commands.Restart Fine ≡ Restarted 1 Kept }
    ensures nothing { replies [] commands.Restart Fine ≡ Restarted 1 Nothing }
{}
