//! Worked rows of reach, computed against the definitions.

ghost use Rattle.std.specs.Prelude.{pos, neg_ℤ, []};
ghost use Rattle.reaching_steps.specs.declared.fault.ReachFault.TheVariants.{NotUp, InFlight, Unstated, Tightened, Outside};
ghost use Rattle.field_bounds.specs.WorkedGifts.{site};
ghost use Rattle.reaching_steps.specs.Worked.{Takes, Meets, moved_by, down_to_20, up_to_70, given_to_0, row_received, row_untold, row_told, by_site_1, row_stopped, cut, row_opened, row_ended};

/// What the definitions make of these rows.
pub fn worked_reaches()
    ensures down { Takes [] (pos 20) down_to_20 }
    ensures up { Takes down_to_20 (pos 70) (moved_by 2 (pos 50)) }
    ensures there { Takes up_to_70 (pos 70) [] }
    ensures outside { Meets up_to_70 (pos 19) (Outside (pos 20) (pos 70)) }
    ensures flight { Meets given_to_0 (pos 20) (InFlight (site 1)) }
    ensures too_low { Meets row_received (pos 24) (Outside (pos 25) (pos 70)) }
    ensures just { Takes row_received (pos 25) (moved_by 1 (neg_ℤ (pos 15))) }
    ensures unstated { Meets row_untold (pos 25) (Unstated (site 1)) }
    ensures stated { Takes row_told (pos 15) by_site_1 }
    ensures down_site { Meets row_stopped (pos 40) (NotUp (site 1)) }
    ensures tightened { Meets cut (pos 40) Tightened }
    ensures open { Takes row_opened (pos 20) row_ended }
{}
