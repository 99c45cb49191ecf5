//! A restart: the site stands anew on what its medium holds.

ghost use Rattle.std.specs.Prelude.{◌≡◌, ◌<◌, ◌≤◌, [], ◌∷◌, ◌++◌, List, ℕ, length, Some, OnErr, IfOk};
ghost use Rattle.field_bounds.specs.Owed.{max_epoch};
ghost use Rattle.field_bounds.specs.Limits.{IsSchema};
ghost use Rattle.kept_records.specs.declared.medium.Mishap.TheVariants.{Read};
ghost use Rattle.field_bounds.specs.declared.entry.Command.TheVariants as commands;
ghost use Rattle.kept_records.specs.declared.record.Record.{Record};
ghost use Rattle.kept_records.specs.ReadingBack.{PartsAt, IsWhole};
ghost use Rattle.site_step.specs.Site.{Applies};
ghost use Rattle.site_step.specs.Resuming.{HoldsBehind, IsReplayed, ResumesOver, ResumesAs, found_by};

use super::Site;
use crate::extent::due_behind;
use field_bounds::{Command, Entry, Last, MAX_EPOCH, Refusal, Reply, Schema, SiteNo};
use history::History;
use kept_records::{
    Medium, MediumFault, ReadBack, Record, append_restart_piece, count_plain, read_back,
    starts_with_no_restart,
};
use log_replay::{Resumed, Standing, resume as replay_end};
use std::alloc::{AllocError, Global};

/// How a restart went.
#[derive(Drop)]
enum RestartEnd {
    /// The device failed. Where it was an append or a cut, so many records were replayed before.
    Failed {
        turns: Option<u64>,
    },
    /// The last epoch is used up.
    NumbersFull,
    /// The records that stood behind the place that was looked at, what all of them stand for, the
    /// epoch of the record that was added, how many were replayed, and the length in bytes of all
    /// with the added lines.
    Standing {
        behind: Vec<Record>,
        standing: Standing,
        epoch: u32,
        turns: u64,
        length: usize,
    },
}

/// Cuts a torn end and adds the record of a restart in the next epoch, with the summary that is
/// due.
fn add_restart<M: Medium>(
    alloc: Global,
    schema: &Schema,
    line: &mut Vec<u8>,
    medium: &mut M,
    log: ReadBack,
    replay: Resumed,
) -> Result<RestartEnd, AllocError>
    requires whole { IsWhole (M.bytes medium.old) log.whole }
    requires present { log.present ≡ length (M.bytes medium.old) }
    requires within { log.whole ≤ log.present }
    requires replayed { (s : ℕ) × (gone : List Record) × (held : List Record) × (rest : List ℕ)
        × IsReplayed schema.now s gone held rest replay.standing replay.turns
        (M.bytes medium.old) }
    requires below { replay.standing.epoch < max_epoch }
    requires read { M.foretold medium.old ≡ Some Read → ⊥ }
    ensures resumes { IfOk result (λ resumed. ResumesAs schema.now replay.standing replay.turns
        log.behind.items resumed (M.bytes medium.old) (M.bytes medium.new) (M.foretold medium.old)
        (M.foretold medium.new) (M.failed medium.old) (M.failed medium.new)) }
    ensures bytes { OnErr result (M.bytes medium.new ≡ M.bytes medium.old) }
    ensures failed { OnErr result (M.failed medium.new ≡ M.failed medium.old) }
    ensures foretold { OnErr result (M.foretold medium.new ≡ M.foretold medium.old) }
{
    let epoch = replay.standing.epoch + 1;
    let next = Record::Restart { epoch };
    let due = due_behind(alloc, schema, &replay.standing, replay.turns, &next)?;
    match append_restart_piece(line, medium, log.whole, log.present, epoch, due)? {
        Ok(()) => Ok(RestartEnd::Standing {
            behind: log.behind,
            standing: replay.standing,
            epoch,
            turns: replay.turns,
            length: log.whole.saturating_add(line.len()),
        }),
        Err(_) => Ok(RestartEnd::Failed {
            turns: Some(replay.turns),
        }),
    }
}

/// Adds the record of a restart behind the log that was replayed, where an epoch is left.
fn resume_over<M: Medium>(
    alloc: Global,
    schema: &Schema,
    line: &mut Vec<u8>,
    medium: &mut M,
    log: ReadBack,
    replay: Resumed,
) -> Result<RestartEnd, AllocError>
    requires whole { IsWhole (M.bytes medium.old) log.whole }
    requires present { log.present ≡ length (M.bytes medium.old) }
    requires within { log.whole ≤ log.present }
    requires replayed { (s : ℕ) × (gone : List Record) × (held : List Record) × (rest : List ℕ)
        × IsReplayed schema.now s gone held rest replay.standing replay.turns
        (M.bytes medium.old) }
    requires read { M.foretold medium.old ≡ Some Read → ⊥ }
    ensures resumes { IfOk result (λ resumed. ResumesAs schema.now replay.standing replay.turns
        log.behind.items resumed (M.bytes medium.old) (M.bytes medium.new) (M.foretold medium.old)
        (M.foretold medium.new) (M.failed medium.old) (M.failed medium.new)) }
    ensures bytes { OnErr result (M.bytes medium.new ≡ M.bytes medium.old) }
    ensures failed { OnErr result (M.failed medium.new ≡ M.failed medium.old) }
    ensures foretold { OnErr result (M.foretold medium.new ≡ M.foretold medium.old) }
{
    if replay.standing.epoch >= MAX_EPOCH {
        return Ok(RestartEnd::NumbersFull);
    }
    add_restart(alloc, schema, line, medium, log, replay)
}

/// Reads the medium, replays the records behind the last summary, cuts a torn end and adds the
/// record of a restart. The records of its log before the place are known. So it does behind
/// whatever records are gone, where the medium holds a log from a summary on.
fn resume<M: Medium>(
    alloc: Global,
    schema: &Schema,
    site: SiteNo,
    place: usize,
    line: &mut Vec<u8>,
    medium: &mut M,
) -> Result<RestartEnd, AllocError>
    requires site_in { site.0 < schema.now.sites }
    requires limits { IsSchema schema.now }
    requires log { (gone : List Record) × (held : List Record) × (rest : List ℕ)
        × HoldsBehind schema.now site.0 gone held rest (M.bytes medium.old) }
    requires place { PartsAt (M.bytes medium.old) place }
    ensures resumes { IfOk result (λ resumed. (gone held : List Record) (rest : List ℕ)
        → HoldsBehind schema.now site.0 gone held rest (M.bytes medium.old) →
        ResumesOver schema.now site.0 place gone held rest resumed (M.bytes medium.old)
        (M.bytes medium.new) (M.foretold medium.old) (M.foretold medium.new)
        (M.failed medium.old) (M.failed medium.new)) }
    ensures bytes { OnErr result (M.bytes medium.new ≡ M.bytes medium.old) }
    ensures failed { OnErr result (M.failed medium.new ≡ M.failed medium.old) }
    ensures foretold { OnErr result (M.foretold medium.new ≡ M.foretold medium.old) }
{
    let log = match read_back(alloc, medium, place) {
        Ok(log) => log,
        Err(MediumFault::Device) => return Ok(RestartEnd::Failed { turns: None }),
        Err(MediumFault::NoMemory) => return Err(AllocError),
    };
    let replay = replay_end(alloc, schema, site, &log)?;
    resume_over(alloc, schema, line, medium, log, replay)
}

/// What became of the record in doubt, where one is, by the records behind its place.
fn last_of(doubt: Option<usize>, behind: &[Record]) -> Last
    ensures { result ≡ found_by doubt behind.now }
{
    match doubt {
        None => Last::Nothing,
        Some(_) => {
            if starts_with_no_restart(behind) {
                Last::Kept
            } else {
                Last::Lost
            }
        }
    }
}

/// Adds the entry of a restart to a history that has room for it.
fn tell<H: History<Entry>>(history: &mut H, site: SiteNo, reply: Reply)
    requires room { H.has_room history.old 1 }
    ensures told { H.items history.new ≡ H.items history.old
        ++ record { site = site; command = commands.Restart; reply = reply } ∷ [] }
{
    history.push_reserved(Entry {
        site,
        command: Command::Restart,
        reply,
    });
}

impl<M: Medium, H: History<Entry>> Site<M, H> {
    pub(super) fn restart(&mut self, alloc: Global) -> Result<Reply, AllocError>
        ensures ok { IfOk result (λ reply. Applies self.old commands.Restart reply self.new) }
        ensures err { OnErr result (self.new ≡ self.old) }
    {
        self.history.reserve(1)?;
        match resume(
            alloc,
            &self.schema,
            self.number,
            self.extent.length,
            &mut self.line,
            &mut self.medium,
        )? {
            RestartEnd::Failed { turns } => {
                self.up = false;
                self.replayed = turns.unwrap_or(self.replayed);
                tell(&mut self.history, self.number, Reply::StillDown);
                Ok(Reply::StillDown)
            }
            RestartEnd::NumbersFull => {
                let reply = Reply::Refused(Refusal::NumbersFull);
                tell(&mut self.history, self.number, reply);
                Ok(reply)
            }
            RestartEnd::Standing {
                behind,
                standing,
                epoch,
                turns,
                length,
            } => {
                let last = last_of(self.doubt, &behind);
                self.accounts.stand_on(&self.schema, standing, epoch);
                self.up = true;
                self.extent.reach(count_plain(&behind), turns, length);
                self.doubt = None;
                self.replayed = turns;
                let reply = Reply::Restarted { epoch, last };
                tell(&mut self.history, self.number, reply);
                Ok(reply)
            }
        }
    }
}
