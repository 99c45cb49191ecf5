//! Worked rows of rights that are given up for good, computed against the definitions, each as a
//! clause of a function that does nothing. Of a field from 0 to 100 at 40, each of two sites has 20
//! rights to lower and 30 to raise it.

ghost use Rattle.std.specs.Prelude.{◌≡◌, pos, reverse, take, None};
ghost use Rattle.field_bounds.specs.declared.entry.Command.TheVariants.{Accept, Read, Share};
ghost use Rattle.field_bounds.specs.declared.entry.Reply.TheVariants.{Tightened, Accepted, Between, Shares};
ghost use Rattle.field_bounds.specs.Central.{floor_in, ceiling_in, committed_value, inf, sup, IsCentral, IsSound};
ghost use Rattle.field_bounds.specs.Statements.{statement_of};
ghost use Rattle.field_bounds.specs.Worked.{halved_shelf, stock, row_entry};
ghost use Rattle.field_bounds.specs.WorkedGifts.{statement_to, IsOwedAt, IsWrongAt};
ghost use Rattle.field_bounds.specs.WorkedTightenings.{raise_floor, row_tightened, tightened_twice, tightened_around, tighten_unsure, tighten_kept, tighten_lost, cut_room, both_tightened, over_cut, cut_too_far};

/// Each reply of these rows is owed.
pub fn worked_tightenings()
    ensures tightened { IsOwedAt 0 row_tightened }
    ensures tightened_twice { IsOwedAt 0 tightened_twice }
    ensures tightened_around { IsOwedAt 0 tightened_around }
    ensures tighten_unsure { IsOwedAt 0 tighten_unsure }
    ensures tighten_kept { IsOwedAt 0 tighten_kept }
    ensures tighten_lost { IsOwedAt 0 tighten_lost }
    ensures cut_room { IsOwedAt 1 cut_room }
{}

/// In those rows these other replies aren't owed: a share that a tightening left as it was, one of
/// the other kind, an interval without what was given up, a total that forgets an earlier
/// tightening, one that counts both kinds, more given up than the share, what an escrow set aside
/// given up, rights free again after a tightening that was kept, and rights gone after one that was
/// lost, and a room that grew by what was given up.
pub fn wrong_tightenings()
    ensures share_kept { IsWrongAt 0 (take 1 row_tightened) (Share stock) (Shares 20 30) }
    ensures other_kind { IsWrongAt 0 (take 1 row_tightened) (Share stock) (Shares 20 25) }
    ensures read_wide { IsWrongAt 0 (take 1 row_tightened) (Read stock)
        (Between (pos 15) (pos 70)) }
    ensures forgotten { IsWrongAt 0 (take 5 tightened_twice) (raise_floor 2) (Tightened 2) }
    ensures both_counted { IsWrongAt 0 (take 5 tightened_twice) (raise_floor 2) (Tightened 10) }
    ensures too_many { IsWrongAt 0 (take 1 row_tightened) (raise_floor 16) (Tightened 21) }
    ensures set_aside { IsWrongAt 0 (take 2 tightened_around) (raise_floor 1) (Tightened 1) }
    ensures freed { IsWrongAt 0 (take 2 tighten_kept) (Share stock) (Shares 20 30) }
    ensures gone { IsWrongAt 0 (take 2 tighten_lost) (Share stock) (Shares 15 30) }
    ensures room_grew { IsWrongAt 1 (take 1 cut_room) (Accept (statement_to 51)) (Accepted 51) }
{}

/// The bounds of a trace. At its end the row of one site leaves the field the bounds 5 and 70. What
/// is in doubt moves no bound, and once it was kept the floor is 5. The row of both sites is a
/// sound trace: its floor is 25, and so is the committed value once site 0 has lowered by all that
/// it may. A tightening issues no statement.
pub fn worked_bounds()
    ensures bounds { let whole = reverse row_tightened in
        (floor_in halved_shelf whole 0 ≡ pos 5) × (ceiling_in halved_shelf whole 0 ≡ pos 70) }
    ensures waiting { floor_in halved_shelf (reverse tighten_unsure) 0 ≡ pos 0 }
    ensures kept { floor_in halved_shelf (reverse (take 2 tighten_kept)) 0 ≡ pos 5 }
    ensures lost { floor_in halved_shelf (reverse (take 2 tighten_lost)) 0 ≡ pos 0 }
    ensures sound { IsSound halved_shelf (reverse both_tightened) }
    ensures spent { let whole = reverse both_tightened in
        (floor_in halved_shelf whole 0 ≡ pos 25)
        × (committed_value halved_shelf whole 0 ≡ pos 25)
        × (inf halved_shelf whole 0 ≡ pos 25)
        × (sup halved_shelf whole 0 ≡ pos 25) }
    ensures unissued { statement_of (row_entry (raise_floor 5) (Tightened 5)) ≡ None }
{}

/// One central store holds to the bounds of the trace. Where both sites have given up all their
/// rights to lower, the floor is the committed value, and a trace in which an escrow is granted
/// then is no run of it; nor is one in which more is given up than the floor leaves.
pub fn wrong_traces()
    ensures floor { let front = reverse (take 2 over_cut) in
        (floor_in halved_shelf front 0 ≡ pos 40)
        × (inf halved_shelf front 0 ≡ pos 40)
        × (ceiling_in halved_shelf front 0 ≡ pos 100) }
    ensures granted { ¬ IsCentral halved_shelf (reverse over_cut) }
    ensures given_up { ¬ IsCentral halved_shelf (reverse cut_too_far) }
{}
