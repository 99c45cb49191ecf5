//! A site and its step.

ghost use Rattle.std.specs.Prelude.{◌≡◌, ◌<◌, ◌≤◌, ◌+◌, ◌++◌, List, [], ℕ, reverse, Some, OnErr, IfOk, IfErr};
ghost use Rattle.std.specs.List.{flat_map};
ghost use Rattle.field_bounds.specs.declared.entry.Last.{Last};
ghost use Rattle.field_bounds.specs.declared.entry.Last.TheVariants.{Nothing};
ghost use Rattle.field_bounds.specs.Owed.{interval_of, shares_of, is_up, IsRun};
ghost use Rattle.site_step.specs.Site.{here, base_of, Applies, HoldsLog, Finds, Opens, foretold_by};
ghost use Rattle.kept_records.specs.declared.medium.Mishap.TheVariants.{Read};
ghost use Rattle.kept_records.specs.declared.record.Record.{Record};
ghost use Rattle.kept_records.specs.Stands.{since_summary, max_behind};
ghost use Rattle.kept_records.specs.Text.{text};
ghost use Rattle.log_bases.specs.Bases.{IsPast};
ghost use Rattle.site_step.specs.Replaying.{downs_before};
ghost use Rattle.site_step.specs.Opening.{StartsWith, BeginsBehind, TellsLine, SparesLogs, TellsLineBehind, SparesLogsBehind, FailsUnder, failed_at, foretold_at};

mod alone;
mod asking;
mod committing;
mod ending;
mod gifts;
mod identity;
mod ladder;
mod opening;
mod restart;
mod shortening;
mod tightening;
mod writing;

use crate::accounts::SiteAccounts;
use crate::extent::Extent;
use escrow_journal::Journal;
use field_bounds::{Command, Entry, FieldNo, Kind, Reply, Schema, SiteNo, by_command};
use history::{GhostHistory, History, Unkept};
use kept_records::{Medium, Mishap, Record, Summary, TornMedium};
use log_replay::Standing;
pub use opening::OpenFault;
use opening::{Found, read_base};
pub use shortening::Shortening;
use std::alloc::{AllocError, Global};
use std::marker::Model;

/// One site of a schema, over a medium that keeps what it answered. Contracts see the schema and
/// the site's number; the records that the log held when the site was opened, and whether it was
/// empty then; the history, the newest entry first; the log's bytes, the medium's count of failures
/// and the mishap foretold for it; where an answer is in doubt, how many records stood before its
/// own, summaries left out; how many records the last restart replayed; and the records that are
/// gone, the first of the log, which the medium holds no longer.
///
/// Source: O'Neil 1986 for escrows and the test of a grant, Balegas and others 2015 for rights that
/// a site holds and transfers, this project for what it keeps and its restarts.
#[derive(Drop)]
pub struct Site<M: Medium, H: History<Entry> = Vec<Entry>> {
    schema: Schema,
    number: SiteNo,
    medium: M,
    fresh: bool,
    // What is in these three only proofs see. The records that the log held when the site was opened
    // are those of `past`, which no medium held and the code doesn't count, and behind them `based`.
    past: Unkept<Record>,
    based: GhostHistory<Record>,
    // The first records of the log, whose texts the medium no longer holds.
    gone: Unkept<Record>,
    history: H,
    up: bool,
    extent: Extent,
    doubt: Option<usize>,
    replayed: u64,
    accounts: SiteAccounts,
    // The text of the last record; its memory is used again.
    line: Vec<u8>,
}

impl<M: Medium, H: History<Entry>> Model for Site<M, H> {
    ghost use Rattle.std.specs.Prelude.{◌++◌, length};
    ghost use Rattle.kept_records.specs.Stands.{plain};
    ghost use Rattle.site_step.specs.Site.{SiteValue, value_of, doubt_behind};
    ghost use Rattle.site_step.specs.State.{IsSoundSite, counted_from};

    ghost Value = { SiteValue };

    ghost view = { λ s. value_of s.schema s.number s.fresh (s.past.items ++ s.based.list.items)
        (H.items s.history) (M.bytes s.medium) (M.failed s.medium) (M.foretold s.medium)
        (doubt_behind (length (plain s.past.items)) s.doubt) s.replayed s.gone.items };

    ghost invariant = { λ s. IsSoundSite (value_of s.schema s.number s.fresh
        (s.past.items ++ s.based.list.items) (H.items s.history) (M.bytes s.medium)
        (M.failed s.medium) (M.foretold s.medium)
        (doubt_behind (length (plain s.past.items)) s.doubt) s.replayed s.gone.items)
        s.up (counted_from (length (plain s.past.items)) s.extent) s.accounts };
}

impl<M: Medium, H: History<Entry>> Site<M, H> {
    /// Opens a site over a medium that holds its log behind the records that are gone, which the
    /// standing is for.
    fn open_over(
        alloc: Global,
        schema: Schema,
        site: SiteNo,
        standing: Standing,
        medium: M,
    ) -> Result<Site<M, H>, (OpenFault, M)>
        ghost past: { List Record }
        requires in_schema { site.0 < schema.sites }
        requires begins { BeginsBehind schema site.0 past standing (M.bytes medium) }
        ensures ok { IfOk result (λ made. Opens schema site (flat_map text past ++ M.bytes medium)
            (M.failed medium) made) }
        ensures gone { IfOk result (λ made. made.gone ≡ past) }
        ensures mishap { IfOk result (λ made. made.foretold ≡ M.foretold medium) }
        ensures nothing { IfOk result (λ made. flat_map text past ++ M.bytes medium ≡ []
            → Finds made 0 Nothing) }
        ensures line { IfErr result (λ refused. TellsLineBehind schema site.0 past
            (M.bytes medium) refused.0) }
        ensures never { IfErr result (λ refused. SparesLogsBehind schema site.0 past
            (M.bytes medium) refused.0) }
        ensures bytes { IfErr result (λ refused. M.bytes refused.1 ≡ M.bytes medium) }
        ensures failed { IfErr result (λ refused. M.failed refused.1
            ≡ failed_at refused.0 (M.failed medium)) }
        ensures foretold { IfErr result (λ refused. M.foretold refused.1
            ≡ foretold_at refused.0 (M.foretold medium)) }
        ensures device { IfErr result (λ refused. FailsUnder refused.0 (M.foretold medium)) }
        ensures read { IfOk result (λ made. M.foretold medium ≡ Some Read → ⊥) }
    {
        let mut medium = medium;
        match read_base(alloc, &schema, site, standing, &mut medium) {
            Ok(
                Found {
                    fresh,
                    based,
                    extent,
                    standing,
                },
            ) => Ok(Site {
                schema,
                number: site,
                medium,
                fresh,
                past: Unkept::told(),
                based,
                gone: Unkept::told(),
                history: H::of(Vec::new(alloc)),
                up: fresh,
                extent,
                doubt: None,
                replayed: 0,
                accounts: SiteAccounts {
                    standing,
                    journal: Journal::new(alloc),
                    last: 0,
                },
                line: Vec::new(alloc),
            }),
            Err(fault) => Err((fault, medium)),
        }
    }

    /// Opens a site as `open` does, whose history goes where the type says: `Site::open_with` of a
    /// `Site<M, GhostHistory<Entry>>` makes one that keeps no entry, and answers alike.
    pub fn open_with(
        alloc: Global,
        schema: Schema,
        site: SiteNo,
        medium: M,
    ) -> Result<Site<M, H>, (OpenFault, M)>
        requires in_schema { site.0 < schema.sites }
        ensures ok { IfOk result (λ made. Opens schema site (M.bytes medium)
            (M.failed medium) made) }
        ensures mishap { IfOk result (λ made. made.foretold ≡ M.foretold medium) }
        ensures whole { IfOk result (λ made. made.gone ≡ []) }
        ensures nothing { IfOk result (λ made. M.bytes medium ≡ [] → Finds made 0 Nothing) }
        ensures line { IfErr result (λ refused. TellsLine schema site.0
            (M.bytes medium) refused.0) }
        ensures never { IfErr result (λ refused. SparesLogs schema site.0
            (M.bytes medium) refused.0) }
        ensures bytes { IfErr result (λ refused. M.bytes refused.1 ≡ M.bytes medium) }
        ensures failed { IfErr result (λ refused. M.failed refused.1
            ≡ failed_at refused.0 (M.failed medium)) }
        ensures foretold { IfErr result (λ refused. M.foretold refused.1
            ≡ foretold_at refused.0 (M.foretold medium)) }
        ensures device { IfErr result (λ refused. FailsUnder refused.0 (M.foretold medium)) }
        ensures read { IfOk result (λ made. M.foretold medium ≡ Some Read → ⊥) }
    {
        match Standing::new(alloc, &schema, site) {
            Ok(standing) => Site::open_over(alloc, schema, site, standing, medium),
            Err(AllocError) => Err((OpenFault::NoMemory, medium)),
        }
    }

    /// Opens a site over a medium that holds its log from a base on, its first line: what was in
    /// front of it was let go. The site is down, and stands on all records once it is restarted,
    /// those that are gone included. So it does for whichever past the base may stand behind, which
    /// the caller names in its proof: `stand_on` of `log_bases` tells where there is one. Each line
    /// behind the base is tested as `open` tests it, and the base's is line 1; the faults are those
    /// of `open`. Costs what `open` costs.
    ///
    /// Source: this project.
    pub fn open_from(
        alloc: Global,
        schema: Schema,
        site: SiteNo,
        base: &Summary,
        medium: M,
    ) -> Result<Site<M, H>, (OpenFault, M)>
        ghost past: { List Record }
        requires in_schema { site.0 < schema.sites }
        requires past { IsPast schema site.0 base.now past }
        requires first { StartsWith (M.bytes medium) base.now }
        ensures ok { IfOk result (λ made. Opens schema site (flat_map text past ++ M.bytes medium)
            (M.failed medium) made) }
        ensures gone { IfOk result (λ made. made.gone ≡ past) }
        ensures mishap { IfOk result (λ made. made.foretold ≡ M.foretold medium) }
        ensures line { IfErr result (λ refused. TellsLineBehind schema site.0 past
            (M.bytes medium) refused.0) }
        ensures never { IfErr result (λ refused. SparesLogsBehind schema site.0 past
            (M.bytes medium) refused.0) }
        ensures bytes { IfErr result (λ refused. M.bytes refused.1 ≡ M.bytes medium) }
        ensures failed { IfErr result (λ refused. M.failed refused.1
            ≡ failed_at refused.0 (M.failed medium)) }
        ensures foretold { IfErr result (λ refused. M.foretold refused.1
            ≡ foretold_at refused.0 (M.foretold medium)) }
        ensures device { IfErr result (λ refused. FailsUnder refused.0 (M.foretold medium)) }
        ensures read { IfOk result (λ made. M.foretold medium ≡ Some Read → ⊥) }
    {
        match Standing::of_summary(alloc, &schema, site, base) {
            Ok(standing) => Site::open_over(alloc, schema, site, standing, medium),
            Err(AllocError) => Err((OpenFault::NoMemory, medium)),
        }
    }

    /// The site's number. Costs no memory.
    pub fn site(&self) -> SiteNo
        ensures value { result ≡ self.now.site }
    {
        self.number
    }

    /// Whether the site is up: it answers every command. Else it refuses all but a restart. Costs
    /// no memory.
    pub fn is_up(&self) -> bool
        ensures value { result ≡ is_up (base_of self.now) self.now.history }
    {
        self.up
    }

    /// How many records the last Restart replayed that read the medium and wasn't refused, and 0
    /// before: the turns of the loop that took them in. They are those behind the last whole
    /// summary in what it read, or all where there is none. Where at most 1,000 records stood
    /// behind the last summary when the site was opened, it is at most 1,000 and the number of
    /// Restarts answered StillDown since the last Restarted before it. Costs no memory.
    pub fn replayed(&self) -> u64
        ensures value { result ≡ self.now.replayed }
        ensures few { since_summary self.now.based ≤ max_behind
            → result ≤ max_behind + downs_before self.now.history }
    {
        self.replayed
    }

    /// Between which values the field's committed value lies, as far as this site knows, both
    /// included: what a Read answers, and None where a Read is refused, which is where the site is
    /// down or the field isn't in the schema. Costs no memory.
    pub fn interval(&self, field: FieldNo) -> Option<(i64, i64)>
        ensures value { result ≡ interval_of (here self.now) field }
    {
        if !self.is_up() || !self.has(field) {
            return None;
        }
        Some(self.bounds_known(field))
    }

    /// The site's free rights on the field, to lower and to raise it, in rights: what a Share
    /// answers, and None where a Share is refused, which is where the site is down or the field
    /// isn't in the schema. Costs no memory.
    pub fn share(&self, field: FieldNo) -> Option<(u64, u64)>
        ensures value { result ≡ shares_of (here self.now) field }
    {
        if !self.is_up() || !self.has(field) {
            return None;
        }
        Some((self.free(field, Kind::Lower), self.free(field, Kind::Raise)))
    }

    /// Answers a command and adds the entry to the history. The reply is the one that the site owes
    /// after its own entries. A refusal changes nothing but the history; after want of memory
    /// nothing has changed.
    ///
    /// A Commit of a transaction with escrows, a Give, a Spare, a Tighten, and an Accept with a
    /// gain are answered once their record stands whole on the medium. Where the device fails they
    /// are answered Unsure, and a Restart that isn't answered StillDown: the site is then down. A
    /// Restart tells what became of the record in doubt.
    ///
    /// Costs a look through the open transactions, at most 64, for a command that names one, and
    /// one step for each escrow of a transaction that ends. A Give, a Restate, a Spare and an
    /// Accept look at one total and at the rights on one field, a Tighten at the rights on one
    /// field. What is written has the length of one record; its text is made in a buffer of the
    /// site, whose memory is used again. Nothing of that grows with the history, the number of
    /// fields or the number of sites. The record that is, by count, at least the 1,000th behind the
    /// last summary is written with the next summary, in one piece: that costs a few passes over
    /// the rights and the totals of the site, and memory for them. A Restart reads the end of the
    /// medium back to the last whole summary, and takes in each record behind it; its cost doesn't
    /// grow with what stands before.
    pub fn apply(&mut self, alloc: Global, command: Command) -> Result<Reply, AllocError>
        ensures ok { IfOk result (λ reply. Applies self.old command reply self.new) }
        ensures err { OnErr result (self.new ≡ self.old) }
    {
        if let Some(refusal) = self.refusal(command) {
            return self.refuse(command, refusal);
        }
        by_command! { command;
            Begin => self.begin(),
            Escrow { txn, field, change } => self.grant(txn, field, change),
            Commit { txn } => self.commit(alloc, txn),
            Abort { txn } => self.answer(Command::Abort { txn }, Reply::Aborted),
            Give { to, field, kind, amount } => self.give(alloc, to, field, kind, amount),
            Restate { to, field, kind } => self.restate(to, field, kind),
            Spare { to, field, kind, want } => self.spare(alloc, to, field, kind, want),
            Tighten { field, kind, amount } => self.tighten(alloc, field, kind, amount),
            Accept(told) => self.accept(alloc, told),
            Read { field } => self.read(field),
            Share { field } => self.tell_shares(field),
            Restart => self.restart(alloc),
        }
    }
}

impl<M: Medium> Site<M, Vec<Entry>> {
    /// Opens a site over a medium, which stays as it is. Over an empty one the site is up at epoch
    /// 0 with its parts as free rights. Over any other it is down, and stands on the records that
    /// the medium holds, once it is restarted: bytes behind the last line feed are a torn record,
    /// and are left out. Its history is empty.
    ///
    /// A fault hands the medium back. `Device`: the device failed in its one read, which a mishap
    /// for reads makes it do; where it is known that none strikes, this never comes, and where one
    /// struck it is used up. `Line(n)`: line n, from 1, is the first that is no record or breaks a
    /// rule of a kept log; that never comes over what a site left, wherever a stop fell.
    /// `NoMemory`: memory is wanting.
    ///
    /// Reads the medium once, and takes its records in one after another, each from its line. Costs
    /// memory for its bytes and for one record at a time, one row for each field, and one more for
    /// each site and field.
    pub fn open(
        alloc: Global,
        schema: Schema,
        site: SiteNo,
        medium: M,
    ) -> Result<Site<M>, (OpenFault, M)>
        requires in_schema { site.0 < schema.sites }
        ensures ok { IfOk result (λ made. Opens schema site (M.bytes medium)
            (M.failed medium) made) }
        ensures mishap { IfOk result (λ made. made.foretold ≡ M.foretold medium) }
        ensures whole { IfOk result (λ made. made.gone ≡ []) }
        ensures nothing { IfOk result (λ made. M.bytes medium ≡ [] → Finds made 0 Nothing) }
        ensures line { IfErr result (λ refused. TellsLine schema site.0
            (M.bytes medium) refused.0) }
        ensures never { IfErr result (λ refused. SparesLogs schema site.0
            (M.bytes medium) refused.0) }
        ensures bytes { IfErr result (λ refused. M.bytes refused.1 ≡ M.bytes medium) }
        ensures failed { IfErr result (λ refused. M.failed refused.1
            ≡ failed_at refused.0 (M.failed medium)) }
        ensures foretold { IfErr result (λ refused. M.foretold refused.1
            ≡ foretold_at refused.0 (M.foretold medium)) }
        ensures device { IfErr result (λ refused. FailsUnder refused.0 (M.foretold medium)) }
        ensures read { IfOk result (λ made. M.foretold medium ≡ Some Read → ⊥) }
    {
        Site::open_with(alloc, schema, site, medium)
    }

    /// The commands answered so far with their replies, the oldest first: a run of owed replies,
    /// and the medium holds the records that they leave. Costs no memory.
    pub fn history(&self) -> &[Entry]
        ensures value { reverse result.now ≡ self.now.history }
        ensures run { IsRun self.now.schema self.now.site.0 (base_of self.now) self.now.history }
        ensures holds { HoldsLog self.now }
    {
        &self.history
    }
}

impl<H: History<Entry>> Site<TornMedium, H> {
    /// Sets the mishap that strikes the site's medium next, in place of the one before, and changes
    /// nothing else. Where the count of failures is at the greatest `u64`, none strikes. Costs no
    /// memory.
    pub fn arm(&mut self, mishap: Mishap)
        ensures armed { self.new ≡ record self.old {
          foretold =
              foretold_by self.old.failed mishap;
        } }
        ensures finds { (epoch : ℕ) (found : Last) → Finds self.old epoch found
            → Finds self.new epoch found }
    {
        self.medium.arm(mishap);
    }
}
