//! The plan that levels shares.

use super::refused::Refusals;
use rebalance::{Move, plan_even};
use std::alloc::Global;

/// Shares of three sites that one gift of 10 levels: site 1 gives it to site 0.
const SHARES: [u64; 3] = [0, 20, 10];

/// Whether the plan is the one gift.
fn is_told(plan: &[Move]) -> bool {
    match plan {
        [one] => one.from == 1 && one.to == 0 && one.amount == 10,
        _ => false,
    }
}

/// Whether the first plan that wasn't refused memory is the one gift, of two tries.
pub fn are_told(alloc: Global, refusals: &mut Refusals) -> bool {
    for _ in 0..2 {
        if let Ok(plan) = plan_even(alloc, &SHARES) {
            return is_told(&plan);
        }
        refusals.note();
    }
    false
}
