//! Worked rows of a world, computed against the definitions, each as a clause of a function that
//! does nothing. Of a field from 0 to 100 at 40, each of two sites has 20 rights to lower and 30 to
//! raise it.

ghost use Rattle.std.specs.Prelude.{◌∷◌, reverse, take, None};
ghost use Rattle.field_bounds.specs.declared.entry.Command.TheVariants.{Abort, Restart, Share};
ghost use Rattle.field_bounds.specs.declared.entry.Last.TheVariants.{Nothing, Kept, Lost};
ghost use Rattle.field_bounds.specs.declared.entry.Refusal.TheVariants.{NotYours};
ghost use Rattle.field_bounds.specs.declared.entry.Reply.TheVariants.{Granted, Aborted, Accepted, Restarted, Shares, Refused, StillDown};
ghost use Rattle.field_bounds.specs.Worked.{halved_shelf, stock, txn, lower_by, raise_by, row_entry};
ghost use Rattle.field_bounds.specs.WorkedTightenings.{over_cut};
ghost use Rattle.kept_state.specs.declared.luck.Luck.TheVariants.{Fine};
ghost use Rattle.world_steps.specs.declared.step.WorldStep.TheVariants.{Deliver};
ghost use Rattle.field_bounds.specs.Central.{OutcomesAreBounded};
ghost use Rattle.world_steps.specs.Promises.{OutcomesAreBoundedThroughout};
ghost use Rattle.world_steps.specs.Worked.{fine, step_delivered, Comes, NeverComes, passed_on, out_of_order, row_aborted, row_lost, row_kept, kept_late, epoch_used, gift_kept, taken_in, taken_in_late, read_elsewhere, row_tightened, none_left, cut_kept, cut_lost, row_refused, row_granted};

/// The steps of these rows make a trace of these replies.
pub fn worked_worlds()
    ensures passed_on { Comes passed_on }
    ensures out_of_order { Comes out_of_order }
    ensures aborted { Comes row_aborted }
    ensures lost { Comes row_lost }
    ensures kept { Comes row_kept }
    ensures kept_late { Comes kept_late }
    ensures epoch_used { Comes epoch_used }
    ensures gift_kept { Comes gift_kept }
    ensures taken_in { Comes taken_in }
    ensures taken_in_late { Comes taken_in_late }
    ensures read_elsewhere { Comes read_elsewhere }
    ensures tightened { Comes row_tightened }
    ensures none_left { Comes none_left }
    ensures cut_kept { Comes cut_kept }
    ensures cut_lost { Comes cut_lost }
    ensures refused { Comes row_refused }
{}

/// In those rows these other replies don't come: a gift in doubt delivered before its site
/// restarted, a statement used up by its first delivery, one refused as another site's, the total
/// of the later statement counted again, a commit of which a byte was lost told as kept, one that
/// is whole told as lost, an epoch that no restart kept, the epoch that a failed restart kept, a
/// restart that fails though its append is whole, an acceptance that was kept counted again, rights
/// that two deliveries told counted twice, an escrow granted past a floor that both sites raised,
/// and a tightening of which a byte was lost told as kept.
pub fn wrong_worlds()
    ensures issued_at_once { NeverComes (take 1 gift_kept) (step_delivered (Accepted 5)) }
    ensures used_up { NeverComes (take 5 passed_on) (Deliver 1 Fine, None) }
    ensures repeat_refused { NeverComes (take 5 passed_on) (step_delivered (Refused NotYours)) }
    ensures counted_again { NeverComes (take 3 out_of_order) (step_delivered (Accepted 3)) }
    ensures torn_kept { NeverComes (take 4 row_lost) (fine 0 Restart (Restarted 1 Kept)) }
    ensures whole_lost { NeverComes (take 4 row_kept) (fine 0 Restart (Restarted 1 Lost)) }
    ensures epoch_skipped { NeverComes (take 4 kept_late) (fine 0 Restart (Restarted 2 Kept)) }
    ensures epoch_again { NeverComes (take 1 epoch_used) (fine 0 Restart (Restarted 1 Nothing)) }
    ensures fails { NeverComes (take 4 row_kept) (fine 0 Restart StillDown) }
    ensures accepted_again { NeverComes (take 4 taken_in) (step_delivered (Accepted 5)) }
    ensures past_the_floor { NeverComes (take 3 none_left) (fine 0 (lower_by 1 1) Granted) }
    ensures torn_cut_kept { NeverComes (take 1 cut_lost) (fine 0 Restart (Restarted 1 Kept)) }
    ensures counted_twice { NeverComes (take 5 taken_in_late)
        (fine 1 (Share stock) (Shares 30 30)) }
{}

/// What keeps no promise of `outcomes`: one right to lower too many was granted, so that the field
/// would end below its floor were the transaction committed (`below`); the same with a right to
/// raise (`above`); an escrow granted below a floor that tightenings raised (`tightened`); and a
/// trace in which the first transaction was aborted since, as its fronts are held to the promise
/// too (`before`).
pub fn wrong_outcomes()
    ensures below { ¬ OutcomesAreBounded halved_shelf (row_granted (lower_by 1 41)) }
    ensures above { ¬ OutcomesAreBounded halved_shelf (row_granted (raise_by 1 61)) }
    ensures tightened { ¬ OutcomesAreBounded halved_shelf (reverse over_cut) }
    ensures before { ¬ OutcomesAreBoundedThroughout halved_shelf
        (row_entry (Abort (txn 1)) Aborted ∷ row_granted (lower_by 1 41)) }
{}
