//! Worked rows of one site, of two and of two fields, computed against the definitions, each as a
//! clause of a function that does nothing.

ghost use Rattle.std.specs.Prelude.{◌≡◌, pos, reverse, take};
ghost use Rattle.field_bounds.specs.declared.kind.Kind.TheVariants.{Lower, Raise};
ghost use Rattle.field_bounds.specs.declared.entry.Command.TheVariants.{Begin, Commit, Read, Share};
ghost use Rattle.field_bounds.specs.declared.entry.Refusal.{Refusal};
ghost use Rattle.field_bounds.specs.declared.entry.Reply.TheVariants.{Begun, Committed, Aborted, Between, Shares, Refused};
ghost use Rattle.field_bounds.specs.Limits.{IsSchema};
ghost use Rattle.field_bounds.specs.Parts.{part_of};
ghost use Rattle.field_bounds.specs.Central.{committed_value, inf, sup, IsSound};
ghost use Rattle.field_bounds.specs.Worked.{shelf, fixed, widest, halved_shelf, uneven, twins, stock, txn, lower_by, IsOwed, IsWrong, row_lowered, row_raised, row_unmoved, row_emptied, row_given_back, sixteen, row_crowded, half_lowered, half_short, half_both, two_fields, in_turns};

/// Each reply of these rows is owed.
pub fn worked_runs()
    ensures lowered { IsOwed shelf row_lowered }
    ensures raised { IsOwed shelf row_raised }
    ensures unmoved { IsOwed fixed row_unmoved }
    ensures emptied { IsOwed widest row_emptied }
    ensures given_back { IsOwed shelf row_given_back }
    ensures sixteen { IsOwed shelf sixteen }
    ensures crowded { IsOwed shelf row_crowded }
    ensures half_lowered { IsOwed halved_shelf half_lowered }
    ensures half_short { IsOwed halved_shelf half_short }
    ensures half_both { IsOwed halved_shelf half_both }
    ensures two_fields { IsOwed twins two_fields }
{}

/// At each place of the row `lowered`, where 20 are taken from 40, these other replies aren't owed.
pub fn wrong_replies()
    ensures begun_as_two { IsWrong shelf (take 0 row_lowered) Begin (Begun (txn 2)) }
    ensures escrow_refused { (refusal : Refusal) →
        IsWrong shelf (take 1 row_lowered) (lower_by 1 20) (Refused refusal) }
    ensures escrow_committed { IsWrong shelf (take 1 row_lowered) (lower_by 1 20) Committed }
    ensures read_wide { IsWrong shelf (take 2 row_lowered) (Read stock)
        (Between (pos 0) (pos 100)) }
    ensures read_early { IsWrong shelf (take 2 row_lowered) (Read stock)
        (Between (pos 20) (pos 20)) }
    ensures commit_aborted { IsWrong shelf (take 3 row_lowered) (Commit (txn 1)) Aborted }
    ensures read_late { IsWrong shelf (take 4 row_lowered) (Read stock)
        (Between (pos 40) (pos 40)) }
{}

/// The three schemas of the rows are within the limits, and the row `lowered` is a sound trace: the
/// premises of the laws are met. While its escrow is open the committed value is 40, the infimum 20
/// and the supremum 40; after the commit all three are 20.
pub fn worked_values()
    ensures schemas { IsSchema shelf × IsSchema fixed × IsSchema widest }
    ensures sound { IsSound shelf (reverse row_lowered) }
    ensures open { let front = reverse (take 3 row_lowered) in
        (committed_value shelf front 0 ≡ pos 40)
        × (inf shelf front 0 ≡ pos 20)
        × (sup shelf front 0 ≡ pos 40) }
    ensures closed { let whole = reverse row_lowered in
        (committed_value shelf whole 0 ≡ pos 20)
        × (inf shelf whole 0 ≡ pos 20)
        × (sup shelf whole 0 ≡ pos 20) }
{}

/// At site 0 of two, which lowers by its 20 of the 40, these other replies to a Share aren't owed:
/// what the escrow set aside as if it were free, what was spent as if it didn't turn, the two kinds
/// exchanged, any refusal, and the rights of both sites.
pub fn wrong_shares()
    ensures early { IsWrong halved_shelf (take 2 half_lowered) (Share stock) (Shares 20 30) }
    ensures unturned { IsWrong halved_shelf (take 4 half_lowered) (Share stock) (Shares 0 30) }
    ensures exchanged { IsWrong halved_shelf (take 4 half_lowered) (Share stock) (Shares 50 0) }
    ensures refused { (refusal : Refusal) →
        IsWrong halved_shelf (take 4 half_lowered) (Share stock) (Refused refusal) }
    ensures of_all { IsWrong halved_shelf (take 4 half_lowered) (Share stock) (Shares 20 80) }
{}

/// The schemas of the rows of two sites and of two fields are within the limits. Of 41 rights to
/// lower and 59 to raise, site 0 has one more of each kind than site 1 (`parts`). The row of 5 and
/// -3 at site 0 is a sound trace, after which the committed value is 42 (`both`). So is the trace
/// of both sites in turns: while their escrows of -20 and 30 are open, the committed value is 40,
/// the infimum 20 and the supremum 70; at the end all three are 50.
pub fn worked_sites()
    ensures schemas { IsSchema halved_shelf × IsSchema uneven × IsSchema twins }
    ensures parts { (part_of uneven 0 0 Lower ≡ 21)
        × (part_of uneven 1 0 Lower ≡ 20)
        × (part_of uneven 0 0 Raise ≡ 30)
        × (part_of uneven 1 0 Raise ≡ 29) }
    ensures both { let whole = reverse half_both in
        IsSound halved_shelf whole × (committed_value halved_shelf whole 0 ≡ pos 42) }
    ensures sound { IsSound halved_shelf (reverse in_turns) }
    ensures open { let front = reverse (take 4 in_turns) in
        (committed_value halved_shelf front 0 ≡ pos 40)
        × (inf halved_shelf front 0 ≡ pos 20)
        × (sup halved_shelf front 0 ≡ pos 70) }
    ensures closed { let whole = reverse in_turns in
        (committed_value halved_shelf whole 0 ≡ pos 50)
        × (inf halved_shelf whole 0 ≡ pos 50)
        × (sup halved_shelf whole 0 ≡ pos 50) }
{}
