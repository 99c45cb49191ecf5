//! One site: its desk, its worker and its courier.

ghost use Rattle.std.specs.Prelude.{◌≡◌, ◌<◌, ◌++◌, Ok, Err, Some, IfOk, IfErr, IfNone, IfSome};
ghost use Rattle.crossbeam_channel.specs.Claims.{view, IsSeatAt};
ghost use Rattle.crossbeam_channel.specs.Ends.{receives_on};
ghost use Rattle.work_faults.specs.declared.workers.WorkFault.TheVariants.{NoMemory};
ghost use Rattle.site_workers.specs.Carried.{commands_of};
ghost use Rattle.site_workers.specs.Faults.{fault_of_courier, IsCarried, IsFaultAt, IsFaultOf, IsWantBehind, TurnsNone};
ghost use Rattle.site_workers.specs.declared.site_fault.SiteFault.TheVariants.{Worker as OfWorker, Courier as OfCourier};
ghost use Rattle.site_workers.specs.Scripts.{HasNoAccept, IsRising, IsClosed, IsWorked};

use crate::courier::carry;
use crate::fault::{fault_of_call, fault_of_courier, fault_of_receipts};
use crate::inbox::Way;
use crate::post::{Mail, Post, end_all};
use crate::running::Answer;
use crate::site_fault::SiteFault;
use field_bounds::{Command, Entry, Schema, SiteNo, statement_of};
use kept_records::MemoryMedium;
use site_desk::{Blank, Closed, Desk, Gate, Pass, Receipt, check_receipts};
use std::alloc::{AllocError, Global};
use std::marker::Brand;
use std::snapshot::Snapshot;
use std::sync::Wait;
use std::sync::ledger::Ledger;
use std::thread;
use std::thread::{Promise, Threads};
use work_faults::WorkFault;

/// What a site's thread is given: its number, its worker's script and ends of all inboxes, and its
/// courier's end of its own.
#[derive(Drop)]
pub(crate) struct Seat {
    pub site: SiteNo,
    pub script: Vec<Command>,
    pub posts: Vec<Post>,
    pub mail: Mail,
}

/// Makes the script's calls in order at the gate, and puts each statement issued into its
/// receiver's inbox, once the lock is let go.
fn work<L: Ledger, R: Wait, G: Gate>(
    rt: &R,
    alloc: Global,
    desk: &Desk<L, MemoryMedium>,
    pass: &mut Pass<L>,
    script: &[Command],
    posts: &mut Vec<Post>,
    gate: &G,
) -> Result<Vec<Receipt>, WorkFault>
    ensures calls { IfOk result (λ receipts. commands_of receipts.items ≡ script.now) }
    ensures rising { IfOk result (λ receipts. IsRising pass.old.last receipts.items pass.new.last) }
    ensures fault { IfErr result (IsFaultAt desk.now.schema desk.now.site (G.turns gate.now)) }
{
    let mut receipts = Vec::new(alloc);
    for command in script {
        match desk.call_at(rt, alloc, pass, *command, gate) {
            Ok(receipt) => {
                receipts.push(receipt)?;
                let entry = receipt.entry();
                if let Some(statement) = statement_of(&entry) {
                    if let Some(post) = posts.get_mut(usize::from(statement.to.0)) {
                        post.put_stated(rt, statement);
                    }
                }
            }
            Err(fault) => return Err(fault_of_call(desk.site(), fault)),
        }
    }
    Ok(receipts)
}

/// What a courier's thread hands back: what `carry` answered, its pass, and its way of the inbox.
#[derive(Drop)]
struct Carried<L: Ledger> {
    answer: Result<Vec<Receipt>, WorkFault>,
    pass: Pass<L>,
    way: Way,
}

/// Carries the mail, and lets go of the inbox: what is put later is handed back.
fn carry_mail<L: Ledger, R: Wait>(
    rt: &R,
    alloc: Global,
    mail: Mail,
    schema: &Schema,
    desk: &Desk<L, MemoryMedium>,
    pass: Pass<L>,
) -> Carried<L>
    ensures seat { IsSeatAt (receives_on mail.inbox) result.way }
    ensures carried { IsCarried schema.now.sites desk.now.site (view mail.way).taken
        (view result.way).taken pass.count result.pass.count result.answer }
{
    let Mail { inbox, way } = mail;
    let mut way = way;
    let mut pass = pass;
    let answer = carry(rt, alloc, &inbox, &mut way, schema, desk, &mut pass);
    Carried { answer, pass, way }
}

/// What the courier's thread of a site promises: what `carry` does, from the mail and the calls
/// that it began with.
#[derive(Drop)]
struct Courier {
    site: SiteNo,
    sites: u16,
    calls: u64,
    mail: Snapshot<Mail>,
}

impl<L: Ledger> Promise<Carried<L>> for Courier {
    ghost kept_by = { λ p c. IsSeatAt (receives_on p.mail.value.inbox) c.way
        × IsCarried p.sites p.site (view p.mail.value.way).taken (view c.way).taken p.calls
        c.pass.count c.answer };
}

/// The worker on this thread and the courier on one of its own.
fn run_both<'x, L: Ledger + Send + Sync, R: Threads + Wait + Sync, G: Gate>(
    rt: &'x R,
    alloc: Global,
    desk: &'x Desk<L, MemoryMedium>,
    schema: &'x Schema,
    gate: &'x G,
    script: Vec<Command>,
    mail: Mail,
    first: Pass<L>,
    second: Pass<L>,
    posts: Vec<Post>,
) -> (Result<Vec<Receipt>, WorkFault>, Pass<L>, Option<Carried<L>>)
    ensures calls { IfOk result.0 (λ receipts. commands_of receipts.items ≡ script.items) }
    ensures rising { IfOk result.0 (λ receipts. IsRising first.last receipts.items result.1.last) }
    ensures fault { IfErr result.0 (IsFaultAt desk.now.schema desk.now.site (G.turns gate.now)) }
    ensures seat { IfSome result.2 (λ c. IsSeatAt (receives_on mail.inbox) c.way) }
    ensures carried { IfSome result.2 (λ c. IsCarried schema.now.sites desk.now.site
        (view mail.way).taken (view c.way).taken second.count c.pass.count c.answer) }
{
    thread::scope(
        thread::scope_env(),
        rt,
        move |scope| -> (Result<Vec<Receipt>, WorkFault>, Pass<L>, Option<Carried<L>>)
            ensures calls { IfOk result.0 (λ receipts. commands_of receipts.items ≡ script.items) }
            ensures rising { IfOk result.0 (λ receipts.
                IsRising first.last receipts.items result.1.last) }
            ensures fault { IfErr result.0 (IsFaultAt desk.entry.now.schema desk.entry.now.site
                (G.turns gate.entry.now)) }
            ensures seat { IfSome result.2 (λ c. IsSeatAt (receives_on mail.inbox) c.way) }
            ensures carried { IfSome result.2 (λ c. IsCarried schema.entry.now.sites
                desk.entry.now.site (view mail.way).taken (view c.way).taken second.count
                c.pass.count c.answer) }
        {
            let mut first = first;
            let mut posts = posts;
            let courier = Courier {
                site: desk.site(),
                sites: schema.sites(),
                calls: second.count(),
                mail: Snapshot::of(&mail),
            };
            let spawned = scope.spawn_with(courier, move || {
                carry_mail(rt, alloc, mail, schema, desk, second)
            });
            match spawned {
                Ok(handle) => {
                    let worked = work(
                        rt,
                        alloc,
                        desk,
                        &mut first,
                        script.as_slice(),
                        &mut posts,
                        gate,
                    );
                    end_all(rt, posts);
                    (worked, first, Some(handle.join(rt)))
                }
                Err(refused) => {
                    drop(refused);
                    end_all(rt, posts);
                    (Err(WorkFault::NoMemory), first, None)
                }
            }
        },
    )
}

/// What a site is told of its courier: its receipts and its pass. A courier that couldn't be made is
/// want of memory.
fn told_of_courier<L: Ledger>(
    carried: Option<Carried<L>>,
) -> Result<(Vec<Receipt>, Pass<L>), WorkFault>
    ensures none { IfNone carried (result ≡ Err NoMemory) }
    ensures ok { IfSome carried (λ c. IfOk c.answer (λ receipts. result ≡ Ok (receipts, c.pass))) }
    ensures fault { IfSome carried (λ c. IfErr c.answer
        (λ fault. result ≡ Err (fault_of_courier fault))) }
{
    let Some(
        Carried {
            answer,
            pass,
            way: _,
        },
    ) = carried
    else {
        return Err(WorkFault::NoMemory);
    };
    match answer {
        Ok(receipts) => Ok((receipts, pass)),
        Err(fault) => Err(fault_of_courier(fault)),
    }
}

/// What a worker and its courier answered. Of two faults the worker's is told: the courier's comes with
/// the worker's receipts.
fn worker_first<T: Drop>(
    worked: Result<Vec<Receipt>, WorkFault>,
    carried: Result<T, WorkFault>,
) -> Result<(Vec<Receipt>, T), SiteFault>
    ensures worker { IfErr worked (λ fault. result ≡ Err (OfWorker fault)) }
    ensures courier { IfOk worked (λ own. IfErr carried (λ fault.
        result ≡ Err (OfCourier fault own))) }
    ensures both { IfOk worked (λ own. IfOk carried (λ theirs. result ≡ Ok (own, theirs))) }
    ensures ok { IfOk result (λ r. (worked ≡ Ok r.0) × (carried ≡ Ok r.1)) }
{
    match (worked, carried) {
        (Err(fault), _) => Err(SiteFault::Worker(fault)),
        (Ok(receipts), Err(fault)) => Err(SiteFault::Courier { fault, receipts }),
        (Ok(own), Ok(theirs)) => Ok((own, theirs)),
    }
}

/// A worker's receipts, and behind them its courier's.
fn joined(own: Vec<Receipt>, theirs: Vec<Receipt>) -> Result<Vec<Receipt>, SiteFault>
    ensures ok { IfOk result (λ receipts. receipts.items ≡ own.items ++ theirs.items) }
    ensures fault { IfErr result (IsWantBehind own.items) }
{
    let mut receipts = own;
    let mut theirs = theirs;
    match receipts.append(&mut theirs) {
        Ok(()) => Ok(receipts),
        Err(_) => Err(SiteFault::Courier {
            fault: WorkFault::NoMemory,
            receipts,
        }),
    }
}

/// The history of a closed desk, where the receipts are exactly its entries.
fn checked_history(
    alloc: Global,
    closed: &Closed<MemoryMedium>,
    receipts: &[Receipt],
) -> Result<Vec<Entry>, WorkFault>
    ensures closed { IfOk result (λ history. IsClosed closed.now.schema closed.now.site
        history.items receipts.now) }
    ensures fault { IfErr result (IsFaultAt closed.now.schema closed.now.site TurnsNone) }
{
    if !closed.on_fresh_base() {
        return Err(WorkFault::Passes {
            site: closed.site(),
        });
    }
    let history = closed.history();
    if let Err(fault) = check_receipts(alloc, closed, receipts) {
        return Err(fault_of_receipts(fault));
    }
    Ok(history.to_vec(alloc)?)
}

/// Closes the desk, and hands its history back where the receipts are exactly its entries.
fn finish<L: Ledger>(
    alloc: Global,
    desk: Desk<L, MemoryMedium>,
    first: Pass<L>,
    second: Pass<L>,
    receipts: &[Receipt],
) -> Result<Vec<Entry>, WorkFault>
    ensures closed { IfOk result (λ history. IsClosed desk.schema desk.site history.items
        receipts.now) }
    ensures fault { IfErr result (IsFaultAt desk.schema desk.site TurnsNone) }
{
    let site = desk.site();
    let mut passes = Vec::new(alloc);
    passes.push(first)?;
    passes.push(second)?;
    match desk.close(passes) {
        Ok(closed) => checked_history(alloc, &closed, receipts),
        Err(_) => Err(WorkFault::Passes { site }),
    }
}

/// The desk of a site, over an empty log, and the two passes to it.
fn open<L: Ledger>(
    alloc: Global,
    blank: Blank,
    schema: &Schema,
    site: SiteNo,
) -> Option<(Desk<L, MemoryMedium>, Pass<L>, Pass<L>)>
    requires name { blank.name ≡ L.name }
    requires parts { blank.parts ≡ L.parts }
    requires some { 0 < blank.parts }
    requires in_schema { site.0 < schema.now.sites }
    ensures desk { IfSome result (λ made. (made.0.schema ≡ schema.now) × (made.0.site ≡ site)) }
{
    let medium = MemoryMedium::new(Vec::new(alloc));
    let (desk, mut passes) = Desk::<L, MemoryMedium>::new(alloc, blank, schema, site, medium).ok()?;
    let first = passes.pop()?;
    let second = passes.pop()?;
    Some((desk, first, second))
}

/// One site, over its own ledger: its desk is made, called and closed here.
fn run_over<'x, L: Ledger + Send + Sync, R: Threads + Wait + Sync, G: Gate>(
    rt: &'x R,
    alloc: Global,
    blank: Blank,
    schema: &'x Schema,
    seat: Seat,
    gate: &'x G,
) -> Answer
    requires name { blank.name ≡ L.name }
    requires parts { blank.parts ≡ L.parts }
    requires some { 0 < blank.parts }
    requires in_schema { seat.site.0 < schema.now.sites }
    requires plain { HasNoAccept seat.script.items }
    ensures worked { IfOk result (λ history. IsWorked schema.now seat.site seat.script.items
        history.items) }
    ensures fault { IfErr result (IsFaultOf schema.now (G.turns gate.now) seat.site
        seat.script.items) }
{
    let Seat {
        site,
        script,
        posts,
        mail,
    } = seat;
    let Some((desk, first, second)) = open::<L>(alloc, blank, schema, site) else {
        drop(mail);
        end_all(rt, posts);
        return Err(SiteFault::Worker(WorkFault::NoMemory));
    };
    let (worked, first, carried) = run_both(
        rt, alloc, &desk, schema, gate, script, mail, first, second, posts,
    );
    let (own, (theirs, second)) = worker_first(worked, told_of_courier(carried))?;
    let receipts = joined(own, theirs)?;
    match finish(alloc, desk, first, second, receipts.as_slice()) {
        Ok(history) => Ok(history),
        Err(fault) => Err(SiteFault::Close { fault, receipts }),
    }
}

/// One site, over a ledger that is named here.
pub(crate) fn run_site<'x, R: Threads + Wait + Sync, G: Gate>(
    rt: &'x R,
    alloc: Global,
    schema: &'x Schema,
    seat: Seat,
    gate: &'x G,
) -> Answer
    requires in_schema { seat.site.0 < schema.now.sites }
    requires plain { HasNoAccept seat.script.items }
    ensures worked { IfOk result (λ history. IsWorked schema.now seat.site seat.script.items
        history.items) }
    ensures fault { IfErr result (IsFaultOf schema.now (G.turns gate.now) seat.site
        seat.script.items) }
{
    run_over::<Brand, R, G>(rt, alloc, Blank::new(2), schema, seat, gate)
}
