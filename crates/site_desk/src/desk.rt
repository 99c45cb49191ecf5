//! The lock round a kept site.

ghost use Rattle.std.specs.Prelude.{◌≡◌, ◌+◌, ◌<◌, IfOk, IfErr, OnErr, length, vec_len};
ghost use Rattle.site_desk.specs.Faults.{Fails, FailsAtGate};
ghost use Rattle.site_desk.specs.declared.fault.DeskFault.TheVariants.{GateTurns};
ghost use Rattle.site_desk.specs.Passes.{AreNew, Settles};
ghost use Rattle.site_desk.specs.Receipts.{Counts};
ghost use Rattle.site_step.specs.Opening.{TellsLine, SparesLogs, FailsUnder};

use crate::locked::{Blank, Closed, Kept, Pass, Receipt};
use crate::{DeskFault, Gate, locked};
use field_bounds::{Command, Schema, SiteNo};
use kept_records::Medium;
use site_step::{OpenFault, Site};
use std::alloc::Global;
use std::marker::Model;
use std::snapshot::Snapshot;
use std::sync::ledger::Ledger;
use std::sync::{Mutex, Wait};

/// One site behind one lock, with its schema and number beside the lock. Its calls are counted by
/// the ledger that `L` names, so that only the passes made with it serve. Contracts see the schema
/// and the number.
///
/// Source: Balegas and others 2015 for sites that act alone on rights that they hold.
#[derive(Drop)]
pub struct Desk<L: Ledger, M: Medium> {
    schema: Schema,
    number: SiteNo,
    kept: Mutex<Kept<L, M>>,
}

impl<L: Ledger, M: Medium> Model for Desk<L, M> {
    ghost use Rattle.site_desk.specs.Passes.{DeskSeen};

    ghost Value = { DeskSeen };

    ghost view = { λ d. record { schema = d.schema; site = d.number } };
}

/// A desk that wasn't closed, with the passes that were handed in and the length of the history
/// that was found, in entries. What was found under the lock is for contracts alone: it takes no
/// bytes.
#[derive(Drop)]
pub struct CloseError<L: Ledger, M: Medium> {
    pub desk: Desk<L, M>,
    pub passes: Vec<Pass<L>>,
    pub length: u64,
    pub found: Snapshot<Kept<L, M>>,
}

impl<L: Ledger, M: Medium + Drop> Desk<L, M> {
    /// Opens the site of this number over the medium and puts it behind a lock. The passes are as
    /// many as the blank has parts, and no call was made with them. At a fault, which is the site's
    /// own, the medium is dropped.
    ///
    /// The blank is the one that `L` names, and has a part. Costs what opening the site costs, two
    /// copies of the schema, and memory for the passes.
    pub fn new(
        alloc: Global,
        blank: Blank,
        schema: &Schema,
        number: SiteNo,
        medium: M,
    ) -> Result<(Desk<L, M>, Vec<Pass<L>>), OpenFault>
        requires name { blank.name ≡ L.name }
        requires parts { blank.parts ≡ L.parts }
        requires some { 0 < blank.parts }
        requires in_schema { number.0 < schema.now.sites }
        ensures desk { IfOk result (λ r. (r.0.schema ≡ schema.now) × (r.0.site ≡ number)) }
        ensures passes { IfOk result (λ r. (vec_len r.1 ≡ blank.parts) × AreNew r.1.items) }
        ensures line { IfErr result (λ fault. TellsLine schema.now number.0
            (M.bytes medium) fault) }
        ensures never { IfErr result (λ fault. SparesLogs schema.now number.0
            (M.bytes medium) fault) }
        ensures device { IfErr result (λ fault. FailsUnder fault (M.foretold medium)) }
    {
        let own = schema.copy()?;
        let site = match Site::open(alloc, schema.copy()?, number, medium) {
            Ok(site) => site,
            Err((fault, _medium)) => return Err(fault),
        };
        let (kept, passes) = locked::make::<L, M>(alloc, blank, site)?;
        Ok((
            Desk {
                schema: own,
                number,
                kept: Mutex::new(kept),
            },
            passes,
        ))
    }

    /// The site's number. Costs no memory.
    pub fn site(&self) -> SiteNo
        ensures value { result ≡ self.now.site }
    {
        self.number
    }

    /// Waits for the site's lock, and for nothing else, and serves the command. The receipt has the
    /// command asked and a number above all that the pass has seen, and the pass has one call more.
    ///
    /// `NoMemory`: memory is wanting. `WentBack`: the pass has seen an entry beyond the end of the
    /// history, so never at a first call. After a fault neither site nor pass has changed.
    /// `GateTurns` never comes. Costs what the site's own step costs.
    pub fn call<R: Wait>(
        &self,
        rt: &R,
        alloc: Global,
        pass: &mut Pass<L>,
        command: Command,
    ) -> Result<Receipt, DeskFault>
        ensures ok { IfOk result (λ r. Counts pass.old command r pass.new) }
        ensures same { OnErr result (pass.new ≡ pass.old) }
        ensures fault { IfErr result (λ e. Fails pass.old.last e) }
    {
        self.kept.lock(rt).serve(alloc, pass, command)
    }

    /// The same, where the gate lets the call in: it is asked with the lock held, before the
    /// command is applied, and told once the call was served and the lock is let go. Where it
    /// doesn't, `GateTurns`, and nothing has changed: so it never comes of a gate that turns no
    /// call away.
    pub fn call_at<R: Wait, G: Gate>(
        &self,
        rt: &R,
        alloc: Global,
        pass: &mut Pass<L>,
        command: Command,
        gate: &G,
    ) -> Result<Receipt, DeskFault>
        ensures ok { IfOk result (λ r. Counts pass.old command r pass.new) }
        ensures same { OnErr result (pass.new ≡ pass.old) }
        ensures fault { IfErr result (λ e. FailsAtGate pass.old.last e) }
        ensures turned { IfErr result (λ e. e ≡ GateTurns
            → G.turns gate.now self.now.site (pass.old.count + 1)) }
    {
        let mut kept = self.kept.lock(rt);
        let call = kept.next_call(pass);
        if !gate.inside(self.number, call) {
            return Err(DeskFault::GateTurns);
        }
        let receipt = kept.serve(alloc, pass, command)?;
        drop(kept);
        gate.answered(self.number, call);
        Ok(receipt)
    }

    /// Closes the site: exactly where the calls of the passes handed in add up to the length of its
    /// history, and it has the schema and the number that the desk was made with. Else the desk and
    /// the passes come back, with the length found under the lock. Costs a look at each pass and
    /// each field, and no memory.
    pub fn close(self, passes: Vec<Pass<L>>) -> Result<Closed<M>, CloseError<L, M>>
        ensures ok { IfOk result (λ closed. Settles self.schema self.site passes.items closed) }
        ensures passes { IfErr result (λ e. e.passes ≡ passes) }
        ensures desk { IfErr result (λ e. e.desk ≡ self) }
        ensures length { IfErr result (λ e. e.length ≡ length e.found.value.history) }

        // Either the passes' calls aren't as many as the entries found, or the site found under the
        // lock has another schema or number.
        ensures refused { IfErr result (λ e.
            ¬ Settles self.schema self.site passes.items e.found.value) }
    {
        let Desk {
            schema,
            number,
            kept,
        } = self;
        match kept.into_inner().settle(&schema, number, passes.as_slice()) {
            Ok(closed) => Ok(closed),
            Err((kept, length)) => {
                let found = Snapshot::of(&kept);
                Err(CloseError {
                    desk: Desk {
                        schema,
                        number,
                        kept: Mutex::new(kept),
                    },
                    passes,
                    length,
                    found,
                })
            }
        }
    }
}
