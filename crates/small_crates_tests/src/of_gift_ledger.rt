//! A worked example of a ledger. Every expected value is worked out by hand.

ghost use Rattle.gift_ledger.specs.Ledger.{IsSlot};

use field_bounds::{FieldNo, FieldSpec, Kind, Schema, SiteNo};
use gift_ledger::{Ledger, LedgerFull};
use std::test::Fail;

const STOCK: FieldNo = FieldNo(0);

const OTHER: SiteNo = SiteNo(1);

/// Gives 3 and then 2 to the other site, and tells it again.
#[tactic(auto, using(gift_ledger::proofs::LedgerLaws::place_stays))]
fn given_five(ledger: &mut Ledger) -> Option<u64>
    requires place { IsSlot ledger.old 1 0 }
    ensures place { IsSlot ledger.new 1 0 }
{
    ledger.give(OTHER, STOCK, Kind::Lower, 3).ok()?;
    ledger.give(OTHER, STOCK, Kind::Lower, 2).ok()?;
    ledger.restate(OTHER, STOCK, Kind::Lower)
}

/// The gains from the totals 5, 3 and 7 of the other site.
#[tactic(auto, using(gift_ledger::proofs::LedgerLaws::place_stays))]
fn gains(ledger: &mut Ledger) -> (u64, u64, u64)
    requires place { IsSlot ledger.old 1 0 }
    ensures place { IsSlot ledger.new 1 0 }
{
    let first = ledger.accept(OTHER, STOCK, Kind::Raise, 5);
    let late = ledger.accept(OTHER, STOCK, Kind::Raise, 3);
    let more = ledger.accept(OTHER, STOCK, Kind::Raise, 7);
    (first, late, more)
}

/// What is answered after 500 gifts that reach the greatest total, to one right more.
#[tactic(auto, using(gift_ledger::proofs::LedgerLaws::place_stays))]
fn overfull(ledger: &mut Ledger) -> Option<LedgerFull>
    requires place { IsSlot ledger.old 1 0 }
{
    for _ in 0..500 {
        ledger
            .give(OTHER, STOCK, Kind::Raise, 2_000_000_000_000_000)
            .ok()?;
    }
    ledger.give(OTHER, STOCK, Kind::Raise, 1).err()
}

#[test]
#[tactic(auto, using(gift_ledger::proofs::LedgerLaws::fresh_place))]
fn first_of_two_sites(rt: HostRuntime) -> Result<(), Fail> {
    let field = FieldSpec {
        name: String::from_str(rt.alloc(), "stock")?,
        floor: 0,
        ceiling: 100,
        value: 40,
    };
    let schema = Schema::new(rt.alloc(), 2, vec![in rt.alloc(); field]?)?;
    assert!(rt; schema.sites() == 2 && schema.fields() == 1);
    let mut ledger = Ledger::new(rt.alloc(), &schema, SiteNo(0))?;
    assert_eq!(rt; ledger.restate(OTHER, STOCK, Kind::Lower), None);
    assert_eq!(rt; given_five(&mut ledger), Some(5));
    assert_eq!(rt; gains(&mut ledger), (5, 0, 2));
    let full = LedgerFull {
        total: 1_000_000_000_000_000_000,
    };
    assert_eq!(rt; overfull(&mut ledger), Some(full));
    Ok(())
}
