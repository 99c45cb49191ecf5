//! A log that is shortened: its front is let go, up to a summary.

ghost use Rattle.std.specs.Prelude.{◌≡◌, ℕ, true, IfOk, IfSome, OnOk, OnErr};
ghost use Rattle.field_bounds.specs.Owed.{is_up};
ghost use Rattle.log_head.specs.Horizons.{is_passed};
ghost use Rattle.site_step.specs.Site.{base_of};
ghost use Rattle.site_service.specs.Answers.{site_of, held_in};
ghost use Rattle.site_step.specs.Shortening.{latest_commit, IsShortening, CanGo};
ghost use Rattle.site_service.specs.Service.{IsSettled};
ghost use Rattle.site_service.specs.Shortening.{TellsMore, MayLetGo, SparesOpenBy, SparesOpen, LeavesEither};
ghost use Rattle.site_service.specs.Shorter.{ListsAllOpen, IsShorter};

use super::Service;
use crate::kept::KeptCommits;
use crate::keyed::held_keys;
use crate::keys::NotedKeys;
use crate::letting_go::{counted, list_all_open, reached};
use field_bounds::TxnId;
use kept_records::Device;
use log_head::{Gone, Horizon};
use short_log::{PutFault, ShortLog};
use site_step::Shortening;
use std::alloc::{AllocError, Global};

/// What takes the place of a service's log: what its head tells, and its text; and what the service
/// knows of it then.
#[derive(Drop)]
pub(crate) struct Shorter {
    told: Gone,
    text: Vec<u8>,
    keys: NotedKeys,
    kept: KeptCommits,
}

impl<F: ShortLog> Service<F> {
    // The open transactions that a horizon up to this one has to list; None where it can't.
    fn open_then(&mut self, alloc: Global, last: TxnId) -> Result<Option<Vec<u32>>, AllocError>
        requires up { is_up (base_of (site_of self.old.served)) self.old.served.site.history
            ≡ true }
        ensures same { self.new ≡ self.old }
        ensures lists { IfOk result (λ told. IfSome told (λ listed. ListsAllOpen
            (site_of self.old.served) (held_in self.old.served) self.old.served.let_go.told last
            listed.items)) }
    {
        list_all_open(
            alloc,
            &mut self.kept,
            &self.site,
            self.site.medium().bytes(),
            &self.told,
            last,
        )
    }

    // What is told once this is let go; None where it can't be told.
    fn told_then(&mut self, alloc: Global, plan: &Shortening) -> Result<Option<Gone>, AllocError>
        requires plan { IsShortening (site_of self.old.served) plan.now }
        requires latest { plan.now.latest ≡ latest_commit plan.now.gone }
        ensures same { self.new ≡ self.old }
        ensures tells { IfOk result (λ told. IfSome told (λ gone. TellsMore
            self.old.served.let_go.told gone plan.now.gone)) }
        ensures spares { IfOk result (λ told. IfSome told (λ gone. SparesOpenBy self.old.served
            (is_passed gone.horizon))) }
    {
        let goes = self.site.medium().bytes().len() - plan.held().len();
        let Some((bytes, records)) = counted(&self.told, goes as u64, plan.records()) else {
            return Ok(None);
        };
        let last = reached(&self.told, plan.latest());
        let Some(listed) = self.open_then(alloc, last)? else {
            return Ok(None);
        };
        match Horizon::new(last.epoch, last.number, listed) {
            Some(horizon) => Ok(Some(Gone {
                bytes,
                records,
                horizon,
            })),
            None => Ok(None),
        }
    }

    // The log that takes the place of this one once this is let go; None where its head can't be told.
    fn shorter(&mut self, alloc: Global, plan: &Shortening) -> Result<Option<Shorter>, AllocError>
        requires plan { IsShortening (site_of self.old.served) plan.now }
        requires latest { plan.now.latest ≡ latest_commit plan.now.gone }
        ensures same { self.new ≡ self.old }
        ensures is { IfOk result (λ told. IfSome told (IsShorter self.old.served plan.now)) }
    {
        let Some(told) = self.told_then(alloc, plan)? else {
            return Ok(None);
        };
        let mut kept = KeptCommits::new(alloc);
        let mut keys = held_keys(alloc, &mut kept, &self.keys, plan.held())?;
        let mut text = Vec::from_slice(alloc, keys.lines())?;
        text.extend_from_slice(plan.held())?;
        keys.clear_lines();
        Ok(Some(Shorter {
            told,
            text,
            keys,
            kept,
        }))
    }

    // Puts a shorter log in the place of the log, and then lets go of what it hasn't got: so many bytes
    // stay as the plan leaves.
    fn replace_by(&mut self, plan: Shortening, shorter: Shorter) -> Result<(), Device>
        requires settled { IsSettled self.old }
        requires plan { IsShortening (site_of self.old.served) plan }
        requires is { IsShorter self.old.served plan shorter }
        ensures ok { OnOk result (IsSettled self.new) }
        ensures let_go { (keep : ℕ) → CanGo (held_in self.old.served) keep plan.gone
            → OnOk result (MayLetGo keep self.old.served self.new.served) }
        ensures open { OnOk result (SparesOpen self.old.served self.new.served) }
        ensures waiting { self.new.waiting ≡ self.old.waiting }
        ensures lost { OnErr result (self.new.lost ≡ true) }
        ensures served { OnErr result (self.new.served ≡ self.old.served) }
        ensures safe { (keep : ℕ) → CanGo (held_in self.old.served) keep plan.gone
            → OnErr result (LeavesEither keep self.old.served self.new.safe) }
    {
        let Shorter {
            told,
            text,
            keys,
            kept,
        } = shorter;
        match self.log.replace(&told, text.as_slice()) {
            Ok(()) => {
                self.settled = plan.held().len();
                self.site.shorten(plan);
                self.kept = kept;
                self.keys = keys;
                self.told = Some(told);
                Ok(())
            }
            Err(PutFault::Refused) => Ok(()),
            Err(PutFault::Failed) => {
                self.lost = true;
                Err(Device)
            }
        }
    }

    /// Shortens the log, where the site can: what is let go are its first records, up to a summary
    /// behind whose line at least `keep` bytes stay, and another summary among them: so at least 1,000
    /// records, also where `keep` is 0. A log of what stays takes the place of the log: the
    /// notes of the keys whose commits are held, and the records that are held. What was answered, and
    /// what waits, stays as it is, and so does what the site stands on. A commit that is let go is
    /// forgotten from then on, and so is its key, and no later one; of a transaction that is open, and
    /// hasn't committed, nothing more is forgotten. All has to be settled, as right behind a release.
    ///
    /// Where the new log can't be made, or memory is wanting, all is as it was. `Device`: it isn't
    /// known which of the two logs is there, each whole, and nothing is let out any more. Costs twice
    /// the memory of what stays, a look at each record, and a write of what stays with its syncs.
    /// Source: this project.
    pub fn shorten(&mut self, alloc: Global, keep: usize) -> Result<(), Device>
        requires settled { IsSettled self.old }
        ensures ok { OnOk result (IsSettled self.new) }

        // Of what was held at least `keep` bytes and another summary stay behind the summary that
        // comes first.
        ensures let_go { OnOk result (MayLetGo keep self.old.served self.new.served) }

        // A client whose transaction was open is told of its commit yes or no, as before.
        ensures open { OnOk result (SparesOpen self.old.served self.new.served) }
        ensures waiting { self.new.waiting ≡ self.old.waiting }
        ensures lost { OnErr result (self.new.lost ≡ true) }
        ensures served { OnErr result (self.new.served ≡ self.old.served) }
        ensures safe { OnErr result (LeavesEither keep self.old.served self.new.safe) }
    {
        let Ok(Some(plan)) = self.site.shortening(alloc, keep) else {
            return Ok(());
        };
        let Ok(Some(shorter)) = self.shorter(alloc, &plan) else {
            return Ok(());
        };
        self.replace_by(plan, shorter)
    }
}
