//! Sites, fields, transactions, kinds and statements as keys of maps, and in order.

use super::*;
use std::collections::{BTreeMap, HashMap};

fn add_totals(totals: &mut HashMap<SiteNo, u64>) -> Result<(), AllocError> {
    totals.insert(SiteNo(1), 5)?;
    totals.insert(SiteNo(0), 7)?;
    totals.insert(SiteNo(1), 2)?;
    Ok(())
}

fn assert_totals(rt: &impl Abort, totals: &HashMap<SiteNo, u64>) {
    let found = [
        totals.get(&SiteNo(0)),
        totals.get(&SiteNo(1)),
        totals.get(&SiteNo(2)),
    ];
    assert_eq!(rt; found, [Some(&7), Some(&2), None]);
}

#[test]
fn keyed_by_site(rt: HostRuntime) -> Result<(), Fail> {
    let mut totals = HashMap::new(rt.alloc());
    add_totals(&mut totals)?;
    assert_totals(&rt, &totals);
    Ok(())
}

/// A transaction of an epoch.
const fn txn(epoch: u32, number: u32) -> TxnId {
    TxnId { epoch, number }
}

fn add_fates(fates: &mut BTreeMap<TxnId, &'static str>) -> Result<(), AllocError> {
    fates.insert(txn(2, 1), "open")?;
    fates.insert(txn(1, 9), "committed")?;
    fates.insert(txn(1, 8), "aborted")?;
    Ok(())
}

fn assert_fates(rt: &impl Abort, fates: &BTreeMap<TxnId, &'static str>) {
    let of_keys = (fates.get(&txn(1, 9)), fates.get(&txn(2, 9)));
    let first = fates.first_key_value();
    assert_eq!(rt;
        (of_keys, first),
        ((Some(&"committed"), None), Some((&txn(1, 8), &"aborted")))
    );
}

#[test]
fn keyed_by_transaction(rt: HostRuntime) -> Result<(), Fail> {
    let mut fates = BTreeMap::new(rt.alloc());
    add_fates(&mut fates)?;
    assert_fates(&rt, &fates);
    Ok(())
}

#[test]
fn transactions_in_order(rt: HostRuntime) {
    let mut txns = [txn(2, 1), txn(1, 9), txn(1, 8)];
    txns.sort_unstable();
    assert_eq!(rt; txns, [txn(1, 8), txn(1, 9), txn(2, 1)]);
}

#[test]
fn fields_in_order(rt: HostRuntime) {
    let mut fields = [FieldNo(3), FieldNo(0), FieldNo(1)];
    fields.sort_unstable();
    assert_eq!(rt; fields, [FieldNo(0), FieldNo(1), FieldNo(3)]);
}

#[test]
fn kinds_and_statements_in_order(rt: HostRuntime) {
    let found = [
        Kind::Lower < Kind::Raise,
        TOLD_FIVE < TOLD_SIX,
        TOLD_FIVE < TOLD_FIVE,
    ];
    assert_eq!(rt; found, [true, true, false]);
}
