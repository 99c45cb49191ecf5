//! The moves that make the shares of the sites even.

ghost use Rattle.std.specs.Prelude.{◌≡◌, ◌^◌, ◌<◌, ◌≤◌, ◌-◌, ◌++◌, ◌∷◌, [], ◌≢◌, List, IfOk, OnOk, OnErr, All, length, sum, vec_len};
ghost use Rattle.rebalance.specs.EvenPlan.{even_plan, even_target, target, IsGift, Reaches, Settles, moved_in_all};
ghost use Rattle.rebalance.specs.declared.even_plan.Move.{Move};

use std::alloc::{AllocError, Global};

/// One gift, in rights, from the site at one index to the site at another.
#[derive(Clone, Copy, Debug, PartialEq, Eq)]
pub struct Move {
    pub from: usize,
    pub to: usize,
    pub amount: u64,
}

/// What the site at index `site` is to hold when `total` is divided among so many sites.
fn target_of(total: u64, sites: usize, site: usize) -> u64
    requires some { 0 < sites }
    requires within { site < sites }
    ensures { result ≡ even_target total sites site }
{
    let sites = sites as u64;
    let rest = total % sites;
    let quotient = total / sites;
    if (site as u64) < rest {
        quotient + 1
    } else {
        quotient
    }
}

/// Adds the move of what lies from `start` to `end` of two rows, if anything does.
fn add_move(
    plan: &mut Vec<Move>,
    from: usize,
    to: usize,
    start: u64,
    end: u64,
) -> Result<(), AllocError>
    ensures some { OnOk result (start < end →
        plan.new.items ≡ plan.old.items ++ record { from = from; to = to; amount = end - start }
        ∷ []) }
    ensures none { OnOk result (end ≤ start → plan.new.items ≡ plan.old.items) }
    ensures err { OnErr result (start < end) }
{
    if start < end {
        let amount = end - start;
        plan.push(Move { from, to, amount })?;
    }
    Ok(())
}

/// The moves that leave each site with its even part of the sum of the shares: the parts differ by
/// at most 1, and the sites that come first have the greater ones. The sum fits `u64`; any number
/// of sites will do, also none.
///
/// The rights above target are laid in one row and the missing ones in another, both in order of
/// site, and each stretch that two sites cover together is one move (`plan`). Carried out one after
/// another, the moves leave each site with its target (`reached`); each carries something from one
/// site to another one (`gifts`), and there are fewer moves than sites (`few`). No moves that reach
/// the targets carry less (`least`), nor do any that settle in another order, where a site may owe
/// in between (`least_settling`). The error is want of memory, and comes only where there is
/// something to move (`err`).
///
/// Costs one pass over the sites, at most two steps for each, and the memory of the moves.
pub fn plan_even(alloc: Global, shares: &[u64]) -> Result<Vec<Move>, AllocError>
    requires sum { sum shares.now < 2 ^ 64 }
    ensures plan { IfOk result (λ plan. plan.items ≡ even_plan shares.now) }
    ensures reached { IfOk result (λ plan. Reaches (target shares.now) shares.now plan.items) }
    ensures gifts { IfOk result (λ plan. All (IsGift (length shares.now)) plan.items) }
    ensures few { IfOk result (λ plan. 0 < length shares.now → vec_len plan < length shares.now) }
    ensures least { IfOk result
        (λ plan. (others : List Move) → Reaches (target shares.now) shares.now others
        → moved_in_all plan.items ≤ moved_in_all others) }
    ensures least_settling { IfOk result
        (λ plan. (others : List Move) → Settles (target shares.now) shares.now others
        → moved_in_all plan.items ≤ moved_in_all others) }
    ensures err { OnErr result (even_plan shares.now ≢ []) }
{
    let sites = shares.len();
    let total: u64 = shares.iter().sum();
    let mut plan = Vec::new(alloc);
    let mut from = 0;
    let mut to = 0;
    let mut above_before = 0;
    let mut missing_before = 0;
    while from < sites {
        let above = shares[from].saturating_sub(target_of(total, sites, from));
        let missing = target_of(total, sites, to).saturating_sub(shares[to]);
        let above_end = above_before + above;
        let missing_end = missing_before + missing;
        let start = above_before.max(missing_before);
        let end = above_end.min(missing_end);
        add_move(&mut plan, from, to, start, end)?;
        if above_end <= missing_end {
            above_before = above_end;
            from += 1;
        } else {
            missing_before = missing_end;
            to += 1;
        }
    }
    Ok(plan)
}
