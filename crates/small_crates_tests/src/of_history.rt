//! Both kinds of history, through the trait.

use history::{GhostHistory, History};
use std::alloc::{AllocError, Global};

// What was added, and how often.
#[derive(Drop)]
struct Sum<H: History<u8>> {
    total: u64,
    history: H,
}

fn add<H: History<u8>>(sum: &mut Sum<H>, item: u8) -> Result<(), AllocError> {
    sum.history.reserve(1)?;
    sum.total = sum.total.saturating_add(item as u64);
    sum.history.push_reserved(item);
    Ok(())
}

fn five<H: History<u8>>(alloc: Global) -> Result<Sum<H>, AllocError> {
    let mut sum = Sum {
        total: 0,
        history: H::of(Vec::new(alloc)),
    };
    add(&mut sum, 2)?;
    add(&mut sum, 3)?;
    Ok(sum)
}

#[test]
fn a_history_is_kept_by_a_vec(rt: HostRuntime) {
    let sum = five::<Vec<u8>>(rt.alloc()).expect(&rt, "memory");
    assert_eq!(rt; sum.total, 5);
    assert_eq!(rt; sum.history.as_slice(), [2u8, 3].as_slice());
}

#[test]
fn an_item_is_noted(rt: HostRuntime) {
    let mut history = GhostHistory::<u8>::of(Vec::new(rt.alloc()));
    history.note(&2);
    assert!(rt; history.reserve(1).is_ok());
}

#[test]
fn a_ghost_history_is_counted(rt: HostRuntime) {
    let sum = five::<GhostHistory<u8>>(rt.alloc()).expect(&rt, "memory");
    assert_eq!(rt; sum.total, 5);
}
