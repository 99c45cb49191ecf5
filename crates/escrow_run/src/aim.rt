//! What a line reaches for, and why that isn't reached.

ghost use Rattle.std.specs.Prelude.{◌≡◌, IfSome, MatchOption, Option, Some};
ghost use Rattle.reaching_steps.specs.declared.fault.ReachFault.{ReachFault as Fault};
ghost use Rattle.reaching_steps.specs.Body.{Explains};
ghost use Rattle.escrow_run.specs.Reach.{IsReason};

use field_bounds::{FieldNo, SiteNo};
use reaching_steps::ReachFault;

/// What a line reaches for: a value of a field, by steps at other sites than this one.
#[derive(Clone, Copy)]
pub(crate) struct Aim {
    pub(crate) site: SiteNo,
    pub(crate) field: FieldNo,
    pub(crate) target: i64,
}

/// Why a value isn't reached, in a word, or None for want of memory, which ends the run.
pub(crate) fn reason(fault: ReachFault) -> Option<&'static str>
    ensures word { MatchOption result (fault ≡ ReachFault.NoMemory)
        (λ word. IsReason fault word.now) }
    ensures why { IfSome result (λ word. (first : Option Fault) → Explains fault first
        → first ≡ Some fault) }
{
    match fault {
        ReachFault::NoSite => Some("site"),
        ReachFault::NoField => Some("field"),
        ReachFault::NotUp { .. } => Some("down"),
        ReachFault::InFlight { .. } => Some("flight"),
        ReachFault::Unstated { .. } => Some("unstated"),
        ReachFault::Tightened => Some("tightened"),
        ReachFault::Numbers { .. } => Some("numbers"),
        ReachFault::Outside { .. } => Some("outside"),
        ReachFault::NoMemory => None,
    }
}
