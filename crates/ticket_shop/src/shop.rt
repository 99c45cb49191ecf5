//! The three offices of the shop, each in a thread of its own.

ghost use Rattle.std.specs.Prelude.{◌≡◌};

use crate::fault::ShopFault;
use crate::office::{Errand, Office};
use crate::post::Post;
use central_machine::{Verdict, judge};
use field_bounds::{Entry, Schema, SiteNo, Statement};
use kept_records::Mishap;
use site_desk::Blank;
use std::alloc::{AllocError, Global};
use std::sync::Wait;
use std::sync::ledger::Ledger;
use std::thread;
use std::thread::Threads;
use trace_weave::weave;

const NORTH: SiteNo = SiteNo(0);

const SOUTH: SiteNo = SiteNo(1);

const WEB: SiteNo = SiteNo(2);

/// The mishap of the web: its first append stops after four bytes, so that its record is lost.
const STOPS_EARLY: Mishap = Mishap::Append(4);

/// The mishap in the south: its first append stops once all bytes are kept, unknown to the site.
const STOPS_LATE: Mishap = Mishap::Append(u64::MAX);

/// What the post begins with. Its lots are then 3, 6, 12 and 11: of four statements, the places 3,
/// 2, 0 and 3, from 0.
const SEED: usize = 8;

/// What each office does first.
const SALES_NORTH: [Errand<'static>; 2] = [Errand::Sell(8), Errand::Look];

const SALES_SOUTH: [Errand<'static>; 2] = [Errand::Hold(5), Errand::Look];

const SALES_WEB: [Errand<'static>; 2] = [Errand::Sell(20), Errand::Look];

/// What each does while the box offices give rights to the web.
const GIFTS_NORTH: [Errand<'static>; 3] = [
    Errand::Give(WEB, 5),
    Errand::Give(WEB, 3),
    Errand::Give(WEB, 2),
];

const GIFTS_SOUTH: [Errand<'static>; 1] = [Errand::Give(WEB, 6)];

const SALE_WEB: [Errand<'static>; 1] = [Errand::Sell(6)];

/// What the box offices do while the web takes in what came by post.
const SALE_NORTH: [Errand<'static>; 1] = [Errand::Sell(3)];

const WITHDRAWAL_SOUTH: [Errand<'static>; 2] = [Errand::Withdraw(4), Errand::Look];

/// Two box offices and the web.
#[derive(Drop)]
pub struct Shop<A: Ledger, B: Ledger, C: Ledger> {
    north: Office<A>,
    south: Office<B>,
    web: Office<C>,
}

impl<A: Ledger + Send + Sync, B: Ledger + Send + Sync, C: Ledger + Send + Sync> Shop<A, B, C> {
    /// Opens the three sites.
    pub fn open(
        alloc: Global,
        schema: &Schema,
        north: Blank,
        south: Blank,
        web: Blank,
    ) -> Result<Shop<A, B, C>, ShopFault>
        requires sites { schema.now.sites ≡ 3 }
        requires north { (north.name ≡ A.name) × (north.parts ≡ A.parts) × (north.parts ≡ 1) }
        requires south { (south.name ≡ B.name) × (south.parts ≡ B.parts) × (south.parts ≡ 1) }
        requires web { (web.name ≡ C.name) × (web.parts ≡ C.parts) × (web.parts ≡ 1) }
    {
        Ok(Shop {
            north: Office::open(alloc, north, schema, NORTH, Mishap::Never)?,
            south: Office::open(alloc, south, schema, SOUTH, STOPS_LATE)?,
            web: Office::open(alloc, web, schema, WEB, STOPS_EARLY)?,
        })
    }

    /// Each office does its errands, all at the same time.
    fn work<R: Threads + Wait + Sync>(
        &mut self,
        rt: &R,
        alloc: Global,
        at_north: &[Errand],
        at_south: &[Errand],
        at_web: &[Errand],
    ) -> Result<(), ShopFault> {
        let north = &mut self.north;
        let south = &mut self.south;
        let web = &mut self.web;
        let (of_north, (of_south, of_web)) = thread::join(
            rt,
            move || north.run(rt, alloc, at_north),
            move || {
                thread::join(
                    rt,
                    move || south.run(rt, alloc, at_south),
                    move || web.run(rt, alloc, at_web),
                )
            },
        );
        of_north.and(of_south).and(of_web)
    }

    fn print_news(
        &mut self,
        rt: &impl Print,
        alloc: Global,
        schema: &Schema,
        title: &str,
    ) -> Result<(), ShopFault> {
        println!(rt; "{title}")?;
        self.north.print_news(rt, alloc, schema)?;
        self.south.print_news(rt, alloc, schema)?;
        self.web.print_news(rt, alloc, schema)
    }

    /// The statements of all gifts so far, in order of site.
    fn sent(&self, alloc: Global) -> Result<Vec<Statement>, AllocError> {
        let mut sent = Vec::new(alloc);
        sent.extend_from_slice(self.north.sent())?;
        sent.extend_from_slice(self.south.sent())?;
        sent.extend_from_slice(self.web.sent())?;
        Ok(sent)
    }

    /// The web takes in what the post brings of the statements so far, while the others go on.
    fn work_after_post<R: Threads + Wait + Sync>(
        &mut self,
        rt: &R,
        alloc: Global,
    ) -> Result<(), ShopFault> {
        let arrived = Post::new(SEED).carry(alloc, &self.sent(alloc)?)?;
        let at_web = [Errand::Accept(&arrived), Errand::Sell(6), Errand::Look];
        self.work(rt, alloc, &SALE_NORTH, &WITHDRAWAL_SOUTH, &at_web)
    }

    /// A day of the shop: sales, gifts to the web, their statements by post, and more sales.
    pub fn trade<R: Threads + Wait + Print + Sync>(
        &mut self,
        rt: &R,
        alloc: Global,
        schema: &Schema,
    ) -> Result<(), ShopFault> {
        self.work(rt, alloc, &SALES_NORTH, &SALES_SOUTH, &SALES_WEB)?;
        self.print_news(rt, alloc, schema, "sales")?;
        self.work(rt, alloc, &GIFTS_NORTH, &GIFTS_SOUTH, &SALE_WEB)?;
        self.print_news(rt, alloc, schema, "gifts")?;
        self.work_after_post(rt, alloc)?;
        self.print_news(rt, alloc, schema, "post")
    }

    /// Prints how many bytes each office has appended to its medium.
    pub fn print_appended(&self, rt: &impl Print) -> Result<(), ShopFault> {
        println!(rt; "appended")?;
        let offices = [
            self.north.appended(),
            self.south.appended(),
            self.web.appended(),
        ];
        for (site, bytes) in offices.iter().enumerate() {
            println!(rt; "{site} {bytes} bytes")?;
        }
        Ok(())
    }

    /// Closes the offices, and judges what they did as one store.
    pub fn close<R: Print>(self, rt: &R, alloc: Global, schema: &Schema) -> Result<(), ShopFault> {
        let Shop { north, south, web } = self;
        let north = north.close(alloc)?;
        let south = south.close(alloc)?;
        let web = web.close(alloc)?;
        judge_all(rt, alloc, schema, north, south, web)
    }
}

/// Weaves the histories of the sites into one trace, and prints the verdict on it.
fn judge_all<R: Print>(
    rt: &R,
    alloc: Global,
    schema: &Schema,
    north: Vec<Entry>,
    south: Vec<Entry>,
    web: Vec<Entry>,
) -> Result<(), ShopFault> {
    // guide: judge
    let histories = vec![in alloc; north, south, web]?;
    let trace = weave(alloc, &histories).map_err(ShopFault::Weave)?;
    print_verdict(rt, alloc, schema, &trace)
    // guide: end
}

/// Judges a trace, and prints the verdict on it.
fn print_verdict(
    rt: &impl Print,
    alloc: Global,
    schema: &Schema,
    trace: &[Entry],
) -> Result<(), ShopFault> {
    match judge(alloc, schema, trace)? {
        Verdict::Legal => println!(rt; "legal {}", trace.len())?,
        Verdict::Illegal { at, rule } => println!(rt; "illegal {at} {rule:?}")?,
    }
    Ok(())
}
