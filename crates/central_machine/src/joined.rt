//! What the parts found, joined: the least place, and there the first rule.

ghost use Rattle.std.specs.Prelude.{◌≡◌};
ghost use Rattle.central_machine.specs.Parts.{rank, is_before, earlier};

use crate::part::RuleFault;
use central_rules::Rule;

/// The place of a rule in the order in which they are tested.
fn rank(rule: Rule) -> u8
    ensures { result ≡ rank rule }
{
    match rule {
        Rule::Site => 0,
        Rule::Grant => 1,
        Rule::Shortage => 2,
        Rule::Interval => 3,
        Rule::Statement => 4,
        Rule::Reply => 5,
    }
}

/// Whether a fault stands before another: at a lesser place, or at the same one with an earlier
/// rule.
fn is_before(a: RuleFault, b: RuleFault) -> bool
    ensures { result ≡ is_before a b }
{
    a.place < b.place || a.place == b.place && rank(a.rule) < rank(b.rule)
}

/// The earlier of two faults.
pub fn earlier(a: Option<RuleFault>, b: Option<RuleFault>) -> Option<RuleFault>
    ensures { result ≡ earlier a b }
{
    match (a, b) {
        (Some(p), Some(q)) => { if is_before(q, p) { Some(q) } else { Some(p) } }
        (Some(p), None) => Some(p),
        (None, b) => b,
    }
}
