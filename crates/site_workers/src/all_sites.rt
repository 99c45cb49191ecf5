//! All sites, each in a thread of its own.

ghost use Rattle.std.specs.Prelude.{◌≡◌, ◌<◌, [], List, length, Err, IfOk, IfErr, OnOk, IfSome, IfNone};
ghost use Rattle.crossbeam_channel.specs.Claims.{view};
ghost use Rattle.crossbeam_channel.specs.Ends.{sends_on};
ghost use Rattle.field_bounds.specs.declared.entry.Command.{Command as CommandSeen};
ghost use Rattle.field_bounds.specs.Schema.{SchemaValue};
ghost use Rattle.site_workers.specs.Jobs.{AreJoined, AreAnswers, IsAnswer, TellsFirst};
ghost use Rattle.site_workers.specs.Faults.{site_named, TellsForeign, TellsLost, TellsDiffers, TellsTurned};
ghost use Rattle.site_workers.specs.declared.site_fault.SiteFault.TheVariants.{Worker};
ghost use Rattle.work_faults.specs.declared.workers.WorkFault.TheVariants.{NoMemory};
ghost use Rattle.site_workers.specs.Posts.{AreHired, AreOpened, HavePosts};
ghost use Rattle.site_workers.specs.Scripts.{scripts_of, histories_of, HasNoAccept, ScriptsFit, AllWorked};

use crate::gathering::gather;
use crate::inbox::open_inbox;
use crate::one_site::{Seat, run_site};
use crate::post::{Mail, Post, Spare, end_for};
use crate::running::{Answer, SiteThread, WorkPromise};
use crate::site_fault::SiteFault;
use field_bounds::{Command, Entry, Schema, SiteNo};
use site_desk::Gate;
use std::alloc::{AllocError, Global};
use std::snapshot::Snapshot;
use std::sync::Wait;
use std::thread;
use std::thread::Threads;
use work_faults::WorkFault;

/// One empty row of posts for each worker.
fn empty_rows(alloc: Global, sites: u16) -> Result<Vec<Vec<Post>>, WorkFault>
    ensures rows { IfOk result (λ rows. (length rows.items ≡ sites)
        × HavePosts 0 rows.items []) }
    ensures fault { IfErr result (λ fault. fault ≡ NoMemory) }
{
    let mut rows = Vec::with_capacity(alloc, usize::from(sites))?;
    for _site in 0..sites {
        rows.push(Vec::new(alloc))?;
    }
    Ok(rows)
}

/// Hires each site's worker at a new inbox, and puts its end of it into its row.
fn hire_all(spare: &mut Spare, sites: u16, posts: &mut Vec<Vec<Post>>) -> Result<(), WorkFault>
    requires new { (view spare.old.way).made ≡ 0 }
    requires rows { length posts.old.items ≡ sites }
    ensures inbox { OnOk result (sends_on spare.new.slot ≡ sends_on spare.old.slot) }
    ensures hired { OnOk result (AreHired spare.new 0 posts.old.items posts.new.items) }
    ensures made { OnOk result ((view spare.new.way).made ≡ sites) }
    ensures fault { IfErr result (λ fault. fault ≡ NoMemory) }
{
    for site in 0..sites {
        let post = spare.hire(SiteNo(site))?;
        posts[usize::from(site)].push(post)?;
    }
    Ok(())
}

/// The posts of each worker, the mail of each courier, and the caller's ends of the inboxes. At
/// each inbox a way was cut for each site's worker, once, and stands in that worker's row; the
/// caller keeps the maker's, which has made as many workers as there are sites, so whoever it makes
/// later has the name of no site.
pub(crate) fn open_all(
    alloc: Global,
    sites: u16,
) -> Result<(Vec<Vec<Post>>, Vec<Mail>, Vec<Spare>), WorkFault>
    ensures opened { IfOk result (λ r. AreOpened sites r.0.items r.2.items) }
    ensures fault { IfErr result (λ fault. fault ≡ NoMemory) }
{
    let mut posts = empty_rows(alloc, sites)?;
    let mut mails = Vec::new(alloc);
    let mut spares = Vec::new(alloc);
    for _site in 0..sites {
        let (slot, inbox, way) = open_inbox(alloc)?;
        let mut spare = Spare { slot, way };
        hire_all(&mut spare, sites, &mut posts)?;
        mails.push(spare.admit(inbox))?;
        spares.push(spare)?;
    }
    Ok((posts, mails, spares))
}

/// The seat of a site.
fn seat_of(
    site: SiteNo,
    script: Vec<Command>,
    posts: Option<Vec<Post>>,
    mail: Option<Mail>,
) -> Option<Seat>
    ensures site { IfSome result (λ seat. seat.site ≡ site) }
    ensures script { IfSome result (λ seat. seat.script ≡ script) }
{
    let posts = posts?;
    let mail = mail?;
    Some(Seat {
        site,
        script,
        posts,
        mail,
    })
}

/// What a site's thread answers; one that couldn't be made is want of memory.
fn answer_of<'x, R: Threads, G: Gate>(rt: &'x R, handle: Option<SiteThread<'x, G>>) -> Answer
    ensures made { IfSome handle.entry (λ job.
        IsAnswer job.schema (G.turns job.gate) job.site job.script result) }
    ensures refused { IfNone handle.entry (result ≡ Err (Worker NoMemory)) }
{
    match handle {
        Some(handle) => handle.join(rt),
        None => Err(SiteFault::Worker(WorkFault::NoMemory)),
    }
}

/// What each site's thread answers, in order of site. The threads are in that order from the last.
fn join_all<'x, R: Threads, G: Gate>(
    rt: &'x R,
    alloc: Global,
    handles: Vec<Option<SiteThread<'x, G>>>,
) -> Result<Vec<Answer>, WorkFault>
    ensures answers { (schema : SchemaValue) (gate : G) (all : List (List CommandSeen))
        → AreJoined schema gate (G.turns gate) all handles.entry.items [] →
        IfOk result (λ answers. AreAnswers schema (G.turns gate) 0 all answers.items) }
    ensures fault { IfErr result (λ fault. fault ≡ NoMemory) }
{
    let mut handles = handles;
    let mut answers = Vec::with_capacity(alloc, handles.len())?;
    while let Some(handle) = handles.pop() {
        answers.push(answer_of(rt, handle))?;
    }
    Ok(answers)
}

/// Tells all couriers that the workers which couldn't be made put no more. The threads are in order
/// of site, the last of which is the lowest site's.
///
/// A put waits while an inbox is full, so call it once each site's thread was made, or refused and
/// its receiver let go: then no put waits for a courier that isn't there.
fn end_for_missing<'x, R: Wait, G: Gate>(
    rt: &R,
    sites: u16,
    handles: &[Option<SiteThread<'x, G>>],
    spares: &mut Vec<Spare>,
) {
    for (site, handle) in (0..sites).zip(handles.iter().rev()) {
        if handle.is_none() {
            end_for(rt, spares, SiteNo(site));
        }
    }
}

/// One thread for each site; what they answer, in order of site.
fn run_threads<'x, R: Threads + Wait + Sync, G: Gate>(
    rt: &'x R,
    alloc: Global,
    schema: &'x Schema,
    scripts: Vec<Vec<Command>>,
    posts: Vec<Vec<Post>>,
    mails: Vec<Mail>,
    spares: Vec<Spare>,
    gate: &'x G,
) -> Result<Vec<Answer>, WorkFault>
    requires fit { ScriptsFit schema.now (scripts_of scripts.items) }
    ensures answers { IfOk result (λ answers. AreAnswers schema.now (G.turns gate.now) 0
        (scripts_of scripts.items) answers.items) }
    ensures fault { IfErr result (λ fault. fault ≡ NoMemory) }
{
    thread::scope(
        thread::scope_env(),
        rt,
        move |scope| -> Result<Vec<Answer>, WorkFault>
            requires fit { ScriptsFit schema.now (scripts_of scripts.items) }
            ensures answers { IfOk result (λ answers. AreAnswers schema.entry.now
                (G.turns gate.entry.now) 0 (scripts_of scripts.items) answers.items) }
            ensures fault { IfErr result (λ fault. fault ≡ NoMemory) }
        {
            let mut left = scripts;
            let mut posts = posts;
            let mut mails = mails;
            let mut spares = spares;
            let mut next = schema.sites();
            let mut handles: Vec<Option<SiteThread<G>>> = Vec::with_capacity(alloc, left.len())?;
            while let Some(script) = left.pop() {
                next -= 1;
                let site = SiteNo(next);
                let mut started = None;
                if let Some(seat) = seat_of(site, script, posts.pop(), mails.pop()) {
                    let task = WorkPromise {
                        schema,
                        site,
                        script: Snapshot::of(&seat.script),
                        gate,
                    };
                    let spawned = scope.spawn_with(
                        task,
                        move ||
                            requires in_schema { seat.site.0 < schema.now.sites }
                            requires plain { HasNoAccept seat.script.items }
                        { run_site(rt, alloc, schema, seat, gate) },
                    );
                    match spawned {
                        Ok(handle) => {
                            started = Some(SiteThread::new(handle));
                        }
                        Err(refused) => drop(refused),
                    }
                }
                handles.push(started)?;
            }
            end_for_missing(rt, schema.sites(), handles.as_slice(), &mut spares);
            drop(spares);
            join_all(rt, alloc, handles)
        },
    )
}

/// Runs each script at its site, all at the same time, and takes each statement that one site
/// issues to its receiver, which accepts it. Answers what each site answered, in order of site: its
/// history, with its oldest entry first, or why it has none. What goes from site to site isn't
/// looked at: `gather` does that, and tells one fault of several.
///
/// A history is a run of owed replies on the fresh base; its commands without its accepts are its
/// script, whole and in order; its entries are exactly the receipts of its worker and its courier,
/// each once. A fault of a site is its own, and names that site where it names one; its courier's
/// comes only with the receipts of all its worker's calls.
///
/// Give one script for each site, with no accept in them: `scripts_fit` tests it. The error is want of
/// memory for what all sites share. Costs what `run_workers` does, but for the statements.
///
/// Source: as `run_workers`.
pub fn run_sites<'x, R: Threads + Wait + Sync, G: Gate>(
    rt: &'x R,
    alloc: Global,
    schema: &'x Schema,
    scripts: Vec<Vec<Command>>,
    gate: &'x G,
) -> Result<Vec<Answer>, WorkFault>
    requires fit { ScriptsFit schema.now (scripts_of scripts.items) }
    ensures answers { IfOk result (λ answers. AreAnswers schema.now (G.turns gate.now) 0
        (scripts_of scripts.items) answers.items) }
    ensures fault { IfErr result (λ fault. fault ≡ NoMemory) }
{
    let (posts, mails, spares) = open_all(alloc, schema.sites())?;
    run_threads(rt, alloc, schema, scripts, posts, mails, spares, gate)
}

/// Runs each script at its site, all at the same time, and takes each statement that one site
/// issues to its receiver, which accepts it. Answers the histories in order of site, each with its
/// oldest entry first.
///
/// Each site has a desk over a new medium in memory, a worker, which makes its script's calls in
/// order at the gate, and a courier, which accepts without it. At Ok each history is a run of owed
/// replies on the fresh base; its commands without its accepts are its script, whole and in order;
/// its entries are exactly the receipts of its worker and its courier, each once; each statement
/// that it accepts was issued by the worker of the site that it names; and each statement that it
/// issues is accepted in its receiver's history.
///
/// Give one script for each site, with no accept in them: `scripts_fit` tests it. Of several faults
/// the one of the lowest site is answered, the worker's before the courier's (`first`): `GateTurns`,
/// `WentBack`, `Passes`, `Receipts`, `NoMemory`. Where there is none, `Foreign` and then `Lost`
/// name the lowest site whose history shows it. It is `gather` over `run_sites`, which hands out the
/// faults of all sites.
///
/// Costs two threads a site, an inbox of 1,024 letters for each, memory for the histories twice,
/// for their receipts and for the statements, and time in proportion to the scripts.
///
/// Source: Balegas and others 2015 for sites that act alone on rights that they hold and state what
/// they give, O'Neil 1986 for escrows, this project for workers and couriers.
pub fn run_workers<'x, R: Threads + Wait + Sync, G: Gate>(
    rt: &'x R,
    alloc: Global,
    schema: &'x Schema,
    scripts: Vec<Vec<Command>>,
    gate: &'x G,
) -> Result<Vec<Vec<Entry>>, WorkFault>
    requires fit { ScriptsFit schema.now (scripts_of scripts.items) }
    ensures ok { IfOk result (λ hs. AllWorked schema.now (scripts_of scripts.items)
        (histories_of hs.items)) }

    // Of answers that these sites may give, the fault is that of the lowest site that has one, where
    // it is none of those below, and no want of memory.
    ensures first { IfErr result (TellsFirst schema.now (G.turns gate.now)
        (scripts_of scripts.items)) }

    // Foreign names the lowest site of such histories that accepts a statement which wasn't issued.
    ensures foreign { IfErr result (TellsForeign schema.now (scripts_of scripts.items)) }

    // Lost names the lowest site of such histories, none of them foreign, that lacks an accept.
    ensures lost { IfErr result (TellsLost schema.now (scripts_of scripts.items)) }

    // Receipts tells how receipts can differ from a history of a site of the schema, and no want
    // of memory.
    ensures receipts { IfErr result (TellsDiffers schema.now) }

    // GateTurns comes only where the gate may turn a call of a site of the schema away: never of a
    // gate that turns none.
    ensures turned { IfErr result (TellsTurned schema.now (G.turns gate.now)) }

    // A fault that names a site names one of the schema.
    ensures site { IfErr result (λ fault. IfSome (site_named fault)
        (λ site. site.0 < schema.now.sites)) }
{
    let _sites = schema.sites();
    let answers = run_sites(rt, alloc, schema, scripts, gate)?;
    gather(alloc, answers)
}
