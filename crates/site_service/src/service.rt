//! A site over a log that follows its medium.

ghost use Rattle.std.specs.Prelude.{◌≡◌, ◌<◌, [], true, length, List, ℕ, None, IfOk, IfErr, OnOk, OnErr, MatchResult};
ghost use Rattle.entry_text.specs.Lines.{max_line};
ghost use Rattle.script_input.specs.Streams.{HasRefused};
ghost use Rattle.file_medium.specs.Copies.{IsCopyOf};
ghost use Rattle.site_service.specs.Behind.{IsOpenedBehind, TellsBadBehind};
ghost use Rattle.site_service.specs.Answers.{LeavesAnswer, whole_of, site_of, held_in};
ghost use Rattle.site_step.specs.Shortening.{held_of};
ghost use Rattle.site_service.specs.Index.{IsFollowed};
ghost use Rattle.site_service.specs.Kept.{AnswersCommit, AnswersKey, IsRightOf};
ghost use Rattle.site_service.specs.LetGo.{IsRightOfKey, IsTold, let_go_of};
ghost use Rattle.site_service.specs.Opening.{IsOpened, IsStarted, IsSafe, KeepsLines, SparesLines, TellsBadLine};
ghost use Rattle.site_service.specs.Service.{Grows, StandsOnHeld, AddsNotesFirst, IsSettled, KeepsLog, HasApplied, HasAnswered, LetsOut, HoldsBack};
ghost use Rattle.site_service.specs.Counting.{CountsWrites};
ghost use Rattle.site_service.specs.Traces.{trace_of, HasTold, HasKept};

mod shortening;

use crate::answering::{answer_line, carry_out};
use crate::behind::open_behind;
use crate::fault::ServeFault;
use crate::following::{add_both, add_safely, let_out};
use crate::kept::KeptCommits;
use crate::key_answer::KeyAnswer;
use crate::keyed::kept_with;
use crate::keys::NotedKeys;
use crate::opening::{OpenedLog, open_lines};
use crate::telling::{commit_answer, key_answer};
use caller_keys::Key;
use field_bounds::{Command, Entry, Schema, SiteNo, TxnId};
use file_medium::{FileFailed, LogFile};
use history::GhostHistory;
use kept_records::{Device, MemoryMedium};
use log_head::{CommitAnswer, Gone};
use script_input::Sink;
use site_step::{OpenFault, Site};
use std::alloc::{AllocError, Global};
use std::marker::Model;

/// One site that answers at once, over a medium in memory, and lets its answers out in batches: the
/// log's file is given what the medium holds, and is synced, before the text of a batch leaves.
/// There is no other way out for a text, so no answer is seen whose record isn't safe.
///
/// The medium never fails, so no answer is in doubt and no restart fails. Where a call of the file
/// fails while the log is to follow, nothing is let out any more: what the file then has is seen by
/// who opens the log anew.
///
/// The front of the log may be let go, up to a summary: the site stands on it as before, and the
/// medium and the file hold what stays. What was let go is told by the log's head.
///
/// Contracts see the site, what was let go, and how many lines were answered; the text that waits;
/// the bytes of the file, those that are safe, and the fewest that a cut of it has left, as far as it
/// tells them; how many of the medium's bytes are settled; and whether the file has failed. At all
/// times the safe bytes are the settled ones of the medium, with the notes of keys, and so are those
/// of the file, unless it has failed. Costs memory for the log once, as far as it is held, for the
/// text that waits, and for the commits that were asked for: none for the records before, nor for
/// the answers. Source: this project.
#[derive(Drop)]
pub struct Service<F: LogFile> {
    site: Site<MemoryMedium, GhostHistory<Entry>>,
    kept: KeptCommits,
    keys: NotedKeys,
    // What was let go of the log, if ever anything was.
    told: Option<Gone>,
    lines: u64,
    waiting: Vec<u8>,
    log: F,
    settled: usize,
    lost: bool,
}

impl<F: LogFile> Model for Service<F> {
    ghost use Rattle.site_service.specs.Service.{ServiceValue, value_of};
    ghost use Rattle.site_service.specs.Index.{IsSoundService};

    ghost Value = { ServiceValue };

    ghost view = { λ s. value_of s.site s.keys.last s.told s.lines s.waiting.items
        (F.bytes s.log) (F.safe s.log) (F.least s.log) s.settled s.lost };

    ghost invariant = { λ s. IsSoundService s.site (value_of s.site s.keys.last s.told
        s.lines s.waiting.items (F.bytes s.log) (F.safe s.log) (F.least s.log) s.settled s.lost)
        s.kept s.keys.lines };
}

impl<F: LogFile + Drop> Service<F> {
    /// Opens the site of this number over a log, and restarts it: the answer to that waits. What
    /// stands behind the last line feed is a torn record: once the site is open over the whole lines
    /// it is cut off, and they are made safe. Then the answer is written to the trace, and is safe
    /// there, before the log gets the record of the restart, which is made safe too; `NoTrace` is for
    /// a site that keeps no trace.
    ///
    /// `Line(n)`: line n of the log, from 1, is the first that is no record or breaks a rule of a
    /// kept log; that never comes over what a service left, wherever a stop fell. Then the log is as
    /// it was, its torn end too. `Device`: a call of a file failed. `NoMemory`: memory is wanting.
    /// Each hands the log back, of whose whole lines no cut took any and what was safe still is; so
    /// too at any moment before. Costs two syncs of the log and one of the trace, and memory for the
    /// bytes of the log, twice until it is open.
    pub fn open<T: LogFile>(
        alloc: Global,
        schema: Schema,
        number: SiteNo,
        log: F,
        trace: &mut T,
    ) -> Result<Service<F>, (OpenFault, F)>
        requires in_schema { number.0 < schema.sites }
        ensures ok { IfOk result (IsOpened schema number (F.bytes log)) }
        ensures line { IfErr result (λ left. TellsBadLine schema number (F.bytes log) left.0) }

        // Of the whole lines of the log what was safe still is, however it ends.
        ensures safe { MatchResult result
            (λ made. KeepsLines (F.bytes log) (F.safe log) made.safe)
            (λ left. KeepsLines (F.bytes log) (F.safe log) (F.safe left.1)) }

        // No cut took any of them, so they stood in the log at each moment.
        ensures least { MatchResult result
            (λ made. SparesLines (F.bytes log) (F.least log) made.least)
            (λ left. SparesLines (F.bytes log) (F.least log) (F.least left.1)) }

        // A log that is refused is as it was.
        ensures same_bytes { IfErr result (λ left. (n : ℕ) → left.0 ≡ OpenFault.Line n
            → F.bytes left.1 ≡ F.bytes log) }
        ensures same_safe { IfErr result (λ left. (n : ℕ) → left.0 ≡ OpenFault.Line n
            → F.safe left.1 ≡ F.safe log) }
        ensures same_least { IfErr result (λ left. (n : ℕ) → left.0 ≡ OpenFault.Line n
            → F.least left.1 ≡ F.least log) }
        ensures told { IfOk result (λ made. HasTold (trace_of (T.bytes trace.old) (T.safe trace.old))
            (trace_of (T.bytes trace.new) (T.safe trace.new)) made.waiting) }
        ensures kept { OnErr result (HasKept (trace_of (T.bytes trace.old) (T.safe trace.old))
            (trace_of (T.bytes trace.new) (T.safe trace.new)) []) }
        ensures uncut { T.least trace.new ≡ T.least trace.old }
    {
        let mut log = log;
        match open_lines(alloc, schema, number, &mut log) {
            Ok(opened) => Service::start(alloc, opened, None, log, trace),
            Err(fault) => Err((fault, log)),
        }
    }

    /// Opens the site of this number over a log of which this was let go, as its head tells, and
    /// restarts it, as `open` does over one that is whole. The first of its records has to be a
    /// summary which some lawful records may stand in front of, and is line 1; whichever records were
    /// let go, the site answers as it would behind those. The faults are those of `open`, and what
    /// each leaves; the costs too, and a look at each total of the first record for each field.
    pub fn open_behind<T: LogFile>(
        alloc: Global,
        schema: Schema,
        number: SiteNo,
        told: Gone,
        log: F,
        trace: &mut T,
    ) -> Result<Service<F>, (OpenFault, F)>
        requires in_schema { number.0 < schema.sites }
        ensures ok { IfOk result (IsOpenedBehind schema number told (F.bytes log)) }
        ensures line { IfErr result (λ left. TellsBadBehind schema number (F.bytes log) left.0) }
        ensures safe { MatchResult result
            (λ made. KeepsLines (F.bytes log) (F.safe log) made.safe)
            (λ left. KeepsLines (F.bytes log) (F.safe log) (F.safe left.1)) }
        ensures least { MatchResult result
            (λ made. SparesLines (F.bytes log) (F.least log) made.least)
            (λ left. SparesLines (F.bytes log) (F.least log) (F.least left.1)) }
        ensures same_bytes { IfErr result (λ left. (n : ℕ) → left.0 ≡ OpenFault.Line n
            → F.bytes left.1 ≡ F.bytes log) }
        ensures same_safe { IfErr result (λ left. (n : ℕ) → left.0 ≡ OpenFault.Line n
            → F.safe left.1 ≡ F.safe log) }
        ensures same_least { IfErr result (λ left. (n : ℕ) → left.0 ≡ OpenFault.Line n
            → F.least left.1 ≡ F.least log) }
        ensures told { IfOk result (λ made. HasTold (trace_of (T.bytes trace.old) (T.safe trace.old))
            (trace_of (T.bytes trace.new) (T.safe trace.new)) made.waiting) }
        ensures kept { OnErr result (HasKept (trace_of (T.bytes trace.old) (T.safe trace.old))
            (trace_of (T.bytes trace.new) (T.safe trace.new)) []) }
        ensures uncut { T.least trace.new ≡ T.least trace.old }
    {
        let _epoch = told.horizon.epoch();
        let mut log = log;
        match open_behind(alloc, schema, number, &mut log) {
            Ok(opened) => Service::start(alloc, opened, Some(told), log, trace),
            Err(fault) => Err((fault, log)),
        }
    }

    // Serves a site that was opened over what its log holds, of which this was let go: restarts it,
    // and settles that.
    fn start<T: LogFile>(
        alloc: Global,
        opened: OpenedLog,
        told: Option<Gone>,
        log: F,
        trace: &mut T,
    ) -> Result<Service<F>, (OpenFault, F)>
        requires stands { StandsOnHeld opened.site }
        requires let_go { IsTold (let_go_of opened.site.gone told) }
        requires none { opened.keys.lines ≡ [] }
        requires text { IsFollowed (F.bytes log) (F.safe log) opened.keys.last
            (held_of opened.site) }
        ensures ok { IfOk result (IsStarted (whole_of opened.site) opened.keys.last
            (let_go_of opened.site.gone told)) }
        ensures line { IfErr result (λ left. (n : ℕ) → left.0 ≡ OpenFault.Line n → ⊥) }
        ensures safe { (held : List ℕ) → IsCopyOf (F.bytes log) held → IsCopyOf (F.safe log) held
            → MatchResult result (λ made. IsSafe made.safe held)
            (λ left. IsSafe (F.safe left.1) held) }
        ensures least { MatchResult result (λ made. made.least ≡ F.least log)
            (λ left. F.least left.1 ≡ F.least log) }
        ensures told { IfOk result (λ made. HasTold (trace_of (T.bytes trace.old) (T.safe trace.old))
            (trace_of (T.bytes trace.new) (T.safe trace.new)) made.waiting) }
        ensures kept { OnErr result (HasKept (trace_of (T.bytes trace.old) (T.safe trace.old))
            (trace_of (T.bytes trace.new) (T.safe trace.new)) []) }
        ensures uncut { T.least trace.new ≡ T.least trace.old }
    {
        let OpenedLog { site, keys } = opened;
        let settled = site.medium().bytes().len();
        let mut service = Service {
            site,
            kept: KeptCommits::new(alloc),
            keys,
            told,
            lines: 0,
            waiting: Vec::new(alloc),
            log,
            settled,
            lost: false,
        };
        match service.restart(alloc, trace) {
            Ok(()) => Ok(service),
            Err(fault) => Err((fault, service.into_log())),
        }
    }

    // The log, as it is.
    fn into_log(self) -> F
        ensures bytes { F.bytes result ≡ self.log }
        ensures safe { F.safe result ≡ self.safe }
        ensures least { F.least result ≡ self.least }
    {
        self.log
    }
}

impl<F: LogFile> Service<F> {
    /// The site, to be looked at. Costs no memory.
    pub fn site(&self) -> &Site<MemoryMedium, GhostHistory<Entry>>
        ensures value { result.now ≡ site_of self.now.served }
        ensures whole { self.now.served.let_go.told ≡ None → result.now.gone ≡ [] }
    {
        &self.site
    }

    /// What is told of what was let go of the log, or None where nothing ever was. Costs no memory.
    pub fn gone(&self) -> &Option<Gone>
        ensures value { result.now ≡ self.now.served.let_go.told }
    {
        &self.told
    }

    /// Whether a call of the file has failed, so that nothing is let out any more. Costs no memory.
    pub fn is_lost(&self) -> bool
        ensures value { result ≡ self.now.lost }
    {
        self.lost
    }

    /// Whether the commit of a transaction is in the log: so a client finds out whose answer didn't
    /// come. Where it is yes, the commit is safe once the log is settled, as before any answer is
    /// let out. Where nothing was let go it is yes or no. Else it is yes where the commit is among
    /// the records that are held, and else no, or forgotten where it may be among those that were
    /// let go. The error is want of memory. Costs a look-up, a step for each doubling of the number
    /// of commits; and for each record that came since the last question, since the opening, or
    /// since the log was shortened, a look at it, and for a commit 8 bytes, with room made by
    /// doubling: more where it stands behind the commit of a later transaction.
    pub fn has_kept(&mut self, alloc: Global, txn: TxnId) -> Result<CommitAnswer, AllocError>
        ensures kept { IfOk result (AnswersCommit (held_in self.old.served)
            self.old.served.let_go.told txn) }

        // It is right of all records of the log, those that were let go too.
        ensures right { IfOk result (IsRightOf self.old.served.site.bytes txn) }
        ensures same { self.new ≡ self.old }
    {
        let is_held = self.kept.holds(alloc, self.site.medium().bytes(), txn)?;
        Ok(commit_answer(&self.told, txn, is_held))
    }

    /// The transaction whose commit is in the log with this key, where one is: so a client finds out
    /// whose answer didn't come, and that no other commit with the key will be carried out. It is
    /// that of the last note of the key, and is safe as for `has_kept`. Where none is among the
    /// records that are held it is no, or forgotten where one may be among those that were let go:
    /// any may, unless a position is given behind which each commit with the key is, as of a later
    /// epoch or a greater number of its epoch, and the commits that were let go don't reach behind
    /// that. So whoever is to commit with a key writes a position down first, that of any transaction
    /// of the site so far. The error is want of memory. Costs a look-up of the key, and what
    /// `has_kept` costs.
    pub fn kept_key(
        &mut self,
        alloc: Global,
        key: Key<'_>,
        since: Option<TxnId>,
    ) -> Result<KeyAnswer, AllocError>
        ensures kept { IfOk result (AnswersKey (held_in self.old.served)
            self.old.served.let_go.told self.old.served.last key.entry.bytes.now since) }

        // Where it is no, no commit of a transaction behind the position was let go; nothing was,
        // where none is given.
        ensures right { IfOk result (IsRightOfKey self.old.served.let_go.gone since) }
        ensures same { self.new ≡ self.old }
    {
        let found = kept_with(
            alloc,
            &mut self.kept,
            &self.keys,
            self.site.medium().bytes(),
            key,
        )?;
        Ok(key_answer(&self.told, since, found))
    }

    /// Carries out a command; the line of its entry waits. Where memory is refused no answer waits;
    /// the command may have been carried out, as by a stop of which nobody sees the answer. Costs
    /// what the site's own step costs, and the text.
    pub fn apply(&mut self, alloc: Global, command: Command) -> Result<(), AllocError>
        ensures ok { OnOk result (HasApplied command self.old self.new) }
        ensures err { OnErr result (self.new.waiting ≡ self.old.waiting) }

        // Nothing of the site or of the keys is lost, also where memory is refused.
        ensures grows { Grows self.old.served.site self.new.served.site }
        ensures last { self.new.served.last ≡ self.old.served.last }
        ensures let_go { self.new.served.let_go ≡ self.old.served.let_go }
        ensures log { KeepsLog self.old self.new }
    {
        carry_out(alloc, &mut self.site, &mut self.waiting, command)
    }

    /// Answers a line, without its LF: the entry of the command that it asks of this site; or `bad
    /// line N WHY`, N the number of the line, from 1 since the service was opened. The answer
    /// waits. A commit with a key is carried out only where `kept_key` tells no, and else answered by
    /// what it tells: nothing has changed then. The answer to a line of more than 256 bytes is that to any other
    /// such line. Where memory is refused no answer waits; a command may have been carried out, and
    /// the key of a commit is noted then.
    pub fn answer(&mut self, alloc: Global, line: &[u8]) -> Result<(), AllocError>
        ensures ok { OnOk result (HasAnswered line.now self.old self.new) }
        ensures long { (whole : List ℕ) → max_line < length line.now → max_line < length whole
            → OnOk result (HasAnswered whole self.old self.new) }
        ensures err { OnErr result (self.new.waiting ≡ self.old.waiting) }

        // Where memory is refused all is as it was, or the line did what it does but for its text: no
        // commit with a key stands without its note.
        ensures left { OnErr result (LeavesAnswer self.old.served line.now self.new.served) }

        // Nothing of the site is lost, also where memory is refused.
        ensures grows { Grows self.old.served.site self.new.served.site }
        ensures let_go { self.new.served.let_go ≡ self.old.served.let_go }
        ensures log { KeepsLog self.old self.new }
    {
        self.lines = self.lines.wrapping_add(1);
        answer_line(
            alloc,
            &mut self.site,
            &mut self.kept,
            &mut self.keys,
            &self.told,
            &mut self.waiting,
            self.lines,
            line,
        )
    }

    /// Writes the text that waits behind a trace, and makes it safe there, by one sync where any
    /// waits. To be called once for a text, before the log is settled: so the log is never ahead of
    /// the trace. At the fault, a call of the trace's file failed, and what was safe of it still is.
    /// Costs no memory.
    pub fn write_trace<T: LogFile>(&self, trace: &mut T) -> Result<(), Device>
        ensures ok { OnOk result (HasTold (trace_of (T.bytes trace.old) (T.safe trace.old))
            (trace_of (T.bytes trace.new) (T.safe trace.new)) self.now.waiting) }
        ensures err { OnErr result (T.safe trace.new ≡ T.safe trace.old) }
        ensures uncut { T.least trace.new ≡ T.least trace.old }
    {
        if self.waiting.is_empty() {
            return Ok(());
        }
        match add_safely(trace, self.waiting.as_slice()) {
            Ok(()) => Ok(()),
            Err(FileFailed) => Err(Device),
        }
    }

    // Writes the trace, and then settles the log: where the trace fails, no more of the log is safe.
    fn settle_behind<T: LogFile>(&mut self, trace: &mut T) -> Result<(), Device>
        ensures ok { OnOk result (IsSettled self.new) }
        ensures safe { OnErr result (self.new.safe ≡ self.old.safe) }
        ensures front { (text : List ℕ) → IsCopyOf self.old.log text → IsCopyOf self.old.safe text
            → OnOk result (IsSafe self.new.safe text) }
        ensures least { self.new.least ≡ self.old.least }
        ensures served { self.new.served ≡ self.old.served }
        ensures waiting { self.new.waiting ≡ self.old.waiting }
        ensures told { OnOk result (HasTold (trace_of (T.bytes trace.old) (T.safe trace.old))
            (trace_of (T.bytes trace.new) (T.safe trace.new)) self.old.waiting) }
        ensures kept { OnErr result (HasKept (trace_of (T.bytes trace.old) (T.safe trace.old))
            (trace_of (T.bytes trace.new) (T.safe trace.new)) []) }
        ensures uncut { T.least trace.new ≡ T.least trace.old }
    {
        self.write_trace(trace)?;
        self.settle()
    }

    // Restarts the site, tells that to the trace, and settles the log.
    fn restart<T: LogFile>(&mut self, alloc: Global, trace: &mut T) -> Result<(), OpenFault>
        ensures ok { OnOk result (HasApplied Command.Restart self.old self.new) }
        ensures settled { OnOk result (IsSettled self.new) }
        ensures line { IfErr result (λ fault. (n : ℕ) → fault ≡ OpenFault.Line n → ⊥) }
        ensures grows { Grows self.old.served.site self.new.served.site }
        ensures safe { OnErr result (self.new.safe ≡ self.old.safe) }
        ensures front { (text : List ℕ) → IsCopyOf self.old.log text → IsCopyOf self.old.safe text
            → OnOk result (IsSafe self.new.safe text) }
        ensures least { self.new.least ≡ self.old.least }
        ensures told { OnOk result (HasTold (trace_of (T.bytes trace.old) (T.safe trace.old))
            (trace_of (T.bytes trace.new) (T.safe trace.new)) self.new.waiting) }
        ensures kept { OnErr result (HasKept (trace_of (T.bytes trace.old) (T.safe trace.old))
            (trace_of (T.bytes trace.new) (T.safe trace.new)) []) }
        ensures uncut { T.least trace.new ≡ T.least trace.old }
    {
        self.apply(alloc, Command::Restart)?;
        match self.settle_behind(trace) {
            Ok(()) => Ok(()),
            Err(Device) => Err(OpenFault::Device),
        }
    }

    /// Brings the log to what the medium holds, and to the notes of all keys, by one sync where that is
    /// more than it has: at Ok the record of each answer so far is safe, and so is the key of each
    /// commit, whose note stands in front of the records that are new. At the fault, which is a
    /// fault of the file in this call or an earlier one, nothing is let out any more; what was safe
    /// still is. Costs no memory.
    pub fn settle(&mut self) -> Result<(), Device>
        ensures ok { OnOk result (IsSettled self.new) }
        ensures err { OnErr result (self.new.lost ≡ true) }
        ensures safe { OnErr result (self.new.safe ≡ self.old.safe) }

        // What the log gets are lines of notes, and the records behind them: so no front of that has
        // a record without its note.
        ensures order { (text : List ℕ) → IsCopyOf self.old.log text → OnOk result (AddsNotesFirst
            self.new.log text self.old.settled (held_in self.old.served)) }

        // A text that the log held, all safe, stands in it still, and maybe more behind it.
        ensures front { (text : List ℕ) → IsCopyOf self.old.log text → IsCopyOf self.old.safe text
            → OnOk result (IsSafe self.new.safe text) }
        ensures lost { self.old.lost ≡ true → self.new.lost ≡ true }
        ensures least { self.new.least ≡ self.old.least }
        ensures served { self.new.served ≡ self.old.served }
        ensures waiting { self.new.waiting ≡ self.old.waiting }
    {
        if self.lost {
            return Err(Device);
        }
        let held = self.site.medium().bytes();
        let all = held.len();
        if self.settled == all && self.keys.is_logged() {
            return Ok(());
        }
        match add_both(&mut self.log, self.keys.lines(), &held[self.settled..]) {
            Ok(()) => {
                self.settled = all;
                self.keys.clear_lines();
                Ok(())
            }
            Err(FileFailed) => {
                self.lost = true;
                Err(Device)
            }
        }
    }

    /// Settles the log, and then writes the text that waits: all of it at Ok. The faults are
    /// `Device`, at which the writer wasn't called, and `Write`, at which a front of the text was
    /// written; none waits then, so that no answer is written twice. Costs no memory.
    pub fn release<W: Sink>(&mut self, writer: &mut W) -> Result<(), ServeFault>
        ensures ok { OnOk result (LetsOut (W.bytes writer.old) (W.bytes writer.new)
            self.old self.new) }
        ensures err { IfErr result (HoldsBack (W.bytes writer.old) (W.bytes writer.new)
            self.old self.new) }

        // At a device fault the writer is as it was.
        ensures untouched { IfErr result (λ fault. fault ≡ ServeFault.Device
            → writer.new ≡ writer.old) }

        // Once a call of the file has failed nothing is let out any more.
        ensures lost { self.old.lost ≡ true → self.new.lost ≡ true }
        ensures least { self.new.least ≡ self.old.least }
        ensures served { self.new.served ≡ self.old.served }
        ensures refused { IfErr result (λ fault. fault ≡ ServeFault.Write
            → HasRefused (W.last writer.new)) }
        ensures writes { CountsWrites result (W.refusals writer.old) (W.refusals writer.new) }
    {
        self.settle()?;
        let_out(&mut self.waiting, writer)
    }
}
