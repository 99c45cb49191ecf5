//! Worked rows of gifts between two sites, computed against the definitions, each as a clause of a
//! function that does nothing. Of a field from 0 to 100 at 40, each site has 20 rights to lower and
//! 30 to raise it.

ghost use Rattle.std.specs.Prelude.{◌≡◌, ℕ, pos, reverse, take, Some, None};
ghost use Rattle.field_bounds.specs.declared.kind.Kind.TheVariants.{Lower};
ghost use Rattle.field_bounds.specs.declared.entry.Command.TheVariants.{Restate, Spare, Accept};
ghost use Rattle.field_bounds.specs.declared.entry.Refusal.TheVariants.{Short, Forged};
ghost use Rattle.field_bounds.specs.declared.entry.Reply.TheVariants.{Given, Stated, Spared, Accepted, Refused};
ghost use Rattle.field_bounds.specs.Owed.{IsRun};
ghost use Rattle.field_bounds.specs.Central.{committed_value, inf, sup, shares, in_flight, given_between, accepted_between, IsTold, IsSound};
ghost use Rattle.field_bounds.specs.Statements.{statement_of};
ghost use Rattle.field_bounds.specs.Worked.{halved_shelf, stock, row_entry};
ghost use Rattle.field_bounds.specs.WorkedGifts.{site, give_lower, statement_to, takes_in, IsOwedAt, IsWrongAt, not_given, given_away, given_twice, spare_raise, spared_twice, not_spared, nearly_full, row_filled, spare_filled, room_filled, late_and_twice, not_taken_in, passed_on, made_up};

/// Each reply of these rows is owed.
pub fn worked_gifts()
    ensures not_given { IsOwedAt 0 not_given }
    ensures given_away { IsOwedAt 0 given_away }
    ensures given_twice { IsOwedAt 0 given_twice }
    ensures spared_twice { IsOwedAt 0 spared_twice }
    ensures not_spared { IsOwedAt 0 not_spared }
    ensures filled { IsRun halved_shelf 0 nearly_full (reverse row_filled) }
    ensures spare_filled { IsRun halved_shelf 0 nearly_full (reverse spare_filled) }
    ensures room_filled { IsOwedAt 1 room_filled }
    ensures late_and_twice { IsOwedAt 1 late_and_twice }
    ensures not_taken_in { IsOwedAt 1 not_taken_in }
{}

/// In those rows these other replies aren't owed: 21 rights given of 20, an amount answered where a
/// total is owed, a restatement that counts again, a total taken in as if all of it were new, a
/// lower total taken in as the greatest, a second taking in of the same, a refusal of what is
/// within the room, more spared than half of the share, half of an odd share rounded down, and a
/// spare refused where there is a share.
pub fn wrong_gifts()
    ensures too_many { IsWrongAt 0 (take 0 given_away) (give_lower 1 21) (Given 21) }
    ensures amount { IsWrongAt 0 (take 1 given_twice) (give_lower 1 2) (Given 2) }
    ensures counted_again { IsWrongAt 0 (take 2 given_twice) (Restate (site 1) stock Lower)
        (Stated 10) }
    ensures all_new { IsWrongAt 1 (take 1 late_and_twice) (Accept (statement_to 7)) (Accepted 7) }
    ensures late { IsWrongAt 1 (take 1 late_and_twice) (Accept (statement_to 3)) (Accepted 3) }
    ensures forgotten { IsWrongAt 1 (take 2 late_and_twice) (Accept (statement_to 5)) (Accepted 2) }
    ensures twice { IsWrongAt 1 (take 2 late_and_twice) (Accept (statement_to 5)) (Accepted 5) }
    ensures in_room { (room : ℕ) → IsWrongAt 1 (take 0 late_and_twice) (Accept (statement_to 50))
        (Refused (Forged room)) }
    ensures all_spared { IsWrongAt 0 (take 0 spared_twice) (spare_raise 1 100) (Spared 30 30) }
    ensures rounded_down { IsWrongAt 0 (take 1 spared_twice) (spare_raise 1 100) (Spared 7 22) }
    ensures spare_short { IsWrongAt 0 (take 0 spared_twice) (spare_raise 1 100)
        (Refused (Short 30)) }
{}

/// The row of both sites is a sound trace. After the gift, 5 rights are in flight, and the shares
/// of both sites and these are still the 40 by which the infimum lies above the floor. At the end
/// site 1 has accepted the 5 that it was given, none are in flight, and 25 are open: the infimum is
/// 15, the supremum and the committed value 40. A trace that takes in what nobody gave isn't sound.
pub fn worked_flight()
    ensures sound { IsSound halved_shelf (reverse passed_on) }
    ensures issued { statement_of (row_entry (give_lower 1 5) (Given 5)) ≡ Some (statement_to 5) }
    ensures restated { statement_of (row_entry (Restate (site 1) stock Lower) (Stated 5))
        ≡ Some (statement_to 5) }
    ensures spared { statement_of (row_entry (Spare (site 1) stock Lower 9) (Spared 2 5))
        ≡ Some (statement_to 5) }
    ensures unissued { statement_of (takes_in 5 (Accepted 5)) ≡ None }
    ensures flying { let front = reverse (take 1 passed_on) in
        (in_flight halved_shelf front 0 Lower ≡ 5)
        × (shares halved_shelf front 0 Lower ≡ 35)
        × (inf halved_shelf front 0 ≡ pos 40) }
    ensures landed { let whole = reverse passed_on in
        (given_between halved_shelf whole 0 Lower 0 1 ≡ 5)
        × (accepted_between halved_shelf whole 0 Lower 0 1 ≡ 5)
        × (in_flight halved_shelf whole 0 Lower ≡ 0)
        × (shares halved_shelf whole 0 Lower ≡ 15) }
    ensures values { let whole = reverse passed_on in
        (committed_value halved_shelf whole 0 ≡ pos 40)
        × (inf halved_shelf whole 0 ≡ pos 15)
        × (sup halved_shelf whole 0 ≡ pos 40) }
    ensures made_up { ¬ IsTold (reverse made_up) }
{}
