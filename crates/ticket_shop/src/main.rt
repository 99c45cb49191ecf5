//! A ticket shop over three sites in one process: the example of how the library is called. It
//! prints what each site was asked and answered, and at the end the verdict on all of it.
#![tactic(auto)]

ghost use Rattle.std.specs.Prelude.{◌≡◌};

mod fault;
mod office;
mod post;
mod shop;

use fault::ShopFault;
use field_bounds::Schema;
use shop::Shop;
use site_desk::Blank;
use std::alloc::Global;
use std::marker::Brand;
use std::sync::Wait;
use std::sync::ledger::Ledger;
use std::thread::Threads;

// guide: header
/// Three sites, and the seats that are left: 60 of 90.
const HEADER: &str = r#"{"sites":3,"fields":[{"name":"seats","floor":0,"ceiling":90,"value":60}]}"#;
// guide: end

/// A day of the shop, with a book of calls for each site.
fn run_shop<
    A: Ledger + Send + Sync,
    B: Ledger + Send + Sync,
    C: Ledger + Send + Sync,
    R: Threads + Wait + Print + Sync,
>(
    rt: &R,
    alloc: Global,
    schema: &Schema,
    north: Blank,
    south: Blank,
    web: Blank,
) -> Result<(), ShopFault>
    requires sites { schema.now.sites ≡ 3 }
    requires north { (north.name ≡ A.name) × (north.parts ≡ A.parts) × (north.parts ≡ 1) }
    requires south { (south.name ≡ B.name) × (south.parts ≡ B.parts) × (south.parts ≡ 1) }
    requires web { (web.name ≡ C.name) × (web.parts ≡ C.parts) × (web.parts ≡ 1) }
{
    let mut shop: Shop<A, B, C> = Shop::open(alloc, schema, north, south, web)?;
    shop.trade(rt, alloc, schema)?;
    shop.print_appended(rt)?;
    shop.close(rt, alloc, schema)
}

// guide: books
fn main(rt: HostRuntime) -> Result<(), ShopFault> {
    let alloc = rt.alloc();
    let schema = Schema::from_header(alloc, HEADER.as_bytes())?;
    if schema.sites() != 3 {
        return Err(ShopFault::Sites(schema.sites()));
    }
    let (north, south, web) = (Blank::new(1), Blank::new(1), Blank::new(1));
    run_shop::<Brand, Brand, Brand, _>(&rt, alloc, &schema, north, south, web)
}
// guide: end
