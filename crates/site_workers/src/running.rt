//! The thread of one site, and what it promises.

ghost use Rattle.std.specs.Prelude.{◌≡◌, IfOk, IfErr};
ghost use Rattle.site_workers.specs.Faults.{IsFaultOf};
ghost use Rattle.site_workers.specs.Scripts.{IsWorked};

use crate::site_fault::SiteFault;
use field_bounds::{Command, Entry, Schema, SiteNo};
use site_desk::Gate;
use std::marker::Model;
use std::snapshot::Snapshot;
use std::thread::{Promise, PromisedHandle, Threads};

/// What a site's thread hands back: its history, or why it has none.
pub type Answer = Result<Vec<Entry>, SiteFault>;

/// What a site's thread promises of the history that it hands back, or of its fault.
#[derive(Drop)]
pub(crate) struct WorkPromise<'x, G: Gate> {
    pub schema: &'x Schema,
    pub site: SiteNo,
    pub script: Snapshot<Vec<Command>>,
    pub gate: &'x G,
}

impl<'x, G: Gate> Promise<Answer> for WorkPromise<'x, G> {
    ghost kept_by = { λ p r. IfOk r (λ history. IsWorked p.schema.now p.site p.script.value.items
        history.items) × IfErr r (IsFaultOf p.schema.now (G.turns p.gate.now) p.site
        p.script.value.items) };
}

/// A site's thread. Contracts see what it was given.
#[derive(Drop)]
pub(crate) struct SiteThread<'x, G: Gate> {
    handle: PromisedHandle<Answer, WorkPromise<'x, G>>,
}

impl<'x, G: Gate> Model for SiteThread<'x, G> {
    ghost use Rattle.site_workers.specs.Jobs.{Job};

    ghost Value = { Job G };

    ghost view = { λ r. record {
      schema = r.handle.promise.schema.now;
      site = r.handle.promise.site;
      script = r.handle.promise.script.value.items;
      gate = r.handle.promise.gate.now;
    } };
}

impl<'x, G: Gate> SiteThread<'x, G> {
    pub fn new(handle: PromisedHandle<Answer, WorkPromise<'x, G>>) -> SiteThread<'x, G>
        ensures schema { result.schema ≡ handle.entry.promise.schema.now }
        ensures site { result.site ≡ handle.entry.promise.site }
        ensures script { result.script ≡ handle.entry.promise.script.value.items }
        ensures gate { result.gate ≡ handle.entry.promise.gate.now }
    {
        SiteThread { handle }
    }

    pub fn join<R: Threads>(self, rt: &R) -> Answer
        ensures worked { IfOk result (λ history. IsWorked self.entry.schema self.entry.site
            self.entry.script history.items) }
        ensures fault { IfErr result (IsFaultOf self.entry.schema (G.turns self.entry.gate)
            self.entry.site self.entry.script) }
    {
        let SiteThread { handle } = self;
        handle.join(rt)
    }
}
