//! Plans and spared amounts, each worked by hand.

ghost use Rattle.std.specs.Prelude.{◌^◌, ◌<◌, sum};

use rebalance::{Move, plan_even, spare_amount};
use std::alloc::AllocError;
use std::test::Fail;

// Whether the plan of the shares is these moves, each from, to and amount.
fn plans(rt: HostRuntime, shares: &[u64], moves: &[(usize, usize, u64)]) -> Result<bool, AllocError>
    requires { sum shares.now < 2 ^ 64 }
{
    let plan = plan_even(rt.alloc(), shares)?;
    let mut wanted = Vec::new(rt.alloc());
    for &(from, to, amount) in moves {
        wanted.push(Move { from, to, amount })?;
    }
    Ok(plan.as_slice() == wanted.as_slice())
}

#[test]
fn evens_three_sites(rt: HostRuntime) -> Result<(), Fail> {
    assert!(rt; plans(rt, &[0, 20, 10], &[(1, 0, 10)])?);
    assert!(rt; plans(rt, &[9, 0, 1], &[(0, 1, 3), (0, 2, 2)])?);
    assert!(rt; plans(rt, &[0, 0, 11], &[(2, 0, 4), (2, 1, 4)])?);
    Ok(())
}

#[test]
fn evens_in_order_of_site(rt: HostRuntime) -> Result<(), Fail> {
    assert!(rt; plans(rt, &[8, 0, 1, 7], &[(0, 1, 4), (3, 2, 3)])?);
    assert!(rt; plans(rt, &[0, 5, 0, 7], &[(1, 0, 2), (3, 0, 1), (3, 2, 3)])?);
    Ok(())
}

#[test]
fn leaves_even_shares_alone(rt: HostRuntime) -> Result<(), Fail> {
    assert!(rt; plans(rt, &[], &[])?);
    assert!(rt; plans(rt, &[7], &[])?);
    assert!(rt; plans(rt, &[0, 0], &[])?);
    assert!(rt; plans(rt, &[4, 4, 3], &[])?);
    Ok(())
}

#[test]
fn moves_a_right_that_is_out_of_place(rt: HostRuntime) -> Result<(), Fail> {
    assert!(rt; plans(rt, &[3, 4, 4], &[(2, 0, 1)])?);
    Ok(())
}

#[test]
fn evens_the_greatest_shares(rt: HostRuntime) -> Result<(), Fail> {
    let half = u64::MAX / 2;
    assert!(rt; plans(rt, &[0, u64::MAX], &[(1, 0, half + 1)])?);
    assert!(rt; plans(rt, &[u64::MAX, 0], &[(0, 1, half)])?);
    assert!(rt; plans(rt, &[u64::MAX], &[])?);
    Ok(())
}

#[test]
fn spares_half_of_an_odd_share_rounded_up(rt: HostRuntime) {
    assert_eq!(rt; spare_amount(30, 100), 15);
    assert_eq!(rt; spare_amount(15, 100), 8);
    assert_eq!(rt; spare_amount(15, 3), 3);
    assert_eq!(rt; spare_amount(1, 1), 1);
    assert_eq!(rt; spare_amount(0, 9), 0);
    assert_eq!(rt; spare_amount(u64::MAX - 1, u64::MAX), u64::MAX / 2);
}
