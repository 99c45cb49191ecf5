//! What a step asks, and how it is carried out at its site.

ghost use Rattle.std.specs.Prelude.{◌≡◌, ◌<◌, ◌+◌, ◌∷◌, ℕ, true, List, IfOk, OnOk, OnErr, Some, length, reverse, vec_len, vec_capacity};
ghost use Rattle.field_bounds.specs.declared.entry.Entry.{Entry};
ghost use Rattle.field_bounds.specs.declared.entry.Last.{Last};
ghost use Rattle.field_bounds.specs.Schema.{SchemaValue};
ghost use Rattle.field_bounds.specs.Effects.{fresh};
ghost use Rattle.field_bounds.specs.Statements.{statement_of, may_issue};
ghost use Rattle.kept_records.specs.declared.medium.Mishap.TheVariants as mishaps;
ghost use Rattle.kept_state.specs.Luck.{Lucky, own_lucky, lucky_reply};
ghost use Rattle.site_step.specs.Site.{Finds};
ghost use Rattle.world_steps.specs.World.{statements_issued, with_statement, statement_at, question_of, luck_of};
ghost use Rattle.world_steps.specs.Standing.{Once, AllFollow, AreCalm};

use crate::step::WorldStep;
use field_bounds::{Command, Entry, Reply, SiteNo, Statement, may_issue, statement_of};
use history::GhostHistory;
use kept_records::{Mishap, TornMedium};
use kept_state::Luck;
use site_step::Site;
use std::alloc::{AllocError, Global};

/// Adds the statement that an entry issues, if any, to a list that has room.
#[inline]
pub(crate) fn note(told: &mut Vec<Statement>, entry: &Entry)
    requires room { vec_len told.old < vec_capacity told.old }
    ensures told { reverse told.new.items ≡ with_statement (statement_of entry.now)
        (reverse told.old.items) }
{
    if let Some(statement) = statement_of(entry) {
        told.push_reserved(statement);
    }
}

/// Gets room for the statement that an answer to the command issues, where it may issue one. The
/// error is want of memory.
#[inline(always)]
pub(crate) fn reserve_for(told: &mut Vec<Statement>, command: Command) -> Result<(), AllocError>
    ensures room { OnOk result (may_issue command ≡ true
        → vec_len told.new < vec_capacity told.new) }
    ensures same { told.new.items ≡ told.old.items }
{
    if may_issue(&command) {
        return told.reserve(1);
    }
    Ok(())
}

/// The entry of a command at a site and its reply.
#[inline(always)]
pub(crate) fn entry_of(site: SiteNo, command: Command, reply: Reply) -> Entry
    ensures { result ≡ record { site = site; command = command; reply = reply } }
{
    Entry {
        site,
        command,
        reply,
    }
}

/// Adds the statement that a reply to the command issues, if any. Most commands issue none, whatever
/// the reply, and then the entry isn't put together.
#[inline(always)]
pub(crate) fn note_reply(told: &mut Vec<Statement>, site: SiteNo, command: Command, reply: Reply)
    requires room { may_issue command ≡ true → vec_len told.old < vec_capacity told.old }
    ensures told { reverse told.new.items
        ≡ with_statement (statement_of (record { site = site; command = command; reply = reply }))
        (reverse told.old.items) }
{
    if may_issue(&command) {
        note(told, &entry_of(site, command, reply));
    }
}

/// The statement of a number, counted from 1.
fn statement_numbered(told: &[Statement], k: u64) -> Option<Statement>
    ensures value { result ≡ statement_at k (reverse told.now) }
{
    if k == 0 || k > told.len() as u64 {
        return None;
    }
    Some(told[(k - 1) as usize])
}

/// The site and the command of a step, where it makes an entry.
pub(crate) fn question_of(told: &[Statement], step: &WorldStep) -> Option<(SiteNo, Command)>
    ensures value { (trace : List Entry) → reverse told.now ≡ statements_issued trace
        → result ≡ question_of trace step.now }
{
    match *step {
        WorldStep::Do {
            site,
            command,
            luck: _,
        } => Some((site, command)),
        WorldStep::Deliver { k, luck: _ } => {
            let statement = statement_numbered(told, k)?;
            Some((statement.to, Command::Accept(statement)))
        }
    }
}

/// How the append of a step goes.
pub(crate) fn luck_of(step: &WorldStep) -> Luck
    ensures value { result ≡ luck_of step.now }
{
    match *step {
        WorldStep::Do {
            site: _,
            command: _,
            luck,
        }
        | WorldStep::Deliver { k: _, luck } => luck,
    }
}

/// One command at a site, with its luck: a mishap is armed where that is torn, and nothing is armed
/// after it.
#[inline(always)]
fn apply_once(
    site: &mut Site<TornMedium, GhostHistory<Entry>>,
    alloc: Global,
    command: Command,
    luck: Luck,
) -> Result<Reply, AllocError>
    requires calm { site.old.foretold ≡ Some mishaps.Never }
    requires room { site.old.failed < 18_446_744_073_709_551_615 }
    ensures once { IfOk result (λ reply. (epoch : ℕ) (found : Last) → Finds site.old epoch found →
        Once site.old epoch found command luck reply site.new) }
    ensures err { OnErr result (site.new ≡ site.old) }
{
    let Luck::Torn(bytes) = luck else {
        return site.apply(alloc, command);
    };
    site.arm(Mishap::Append(bytes));
    let answered = site.apply(alloc, command);
    site.arm(Mishap::Never);
    answered
}

/// One command at one of the sites, with its luck.
#[inline(always)]
pub(crate) fn apply_at(
    sites: &mut [Site<TornMedium, GhostHistory<Entry>>],
    alloc: Global,
    number: SiteNo,
    command: Command,
    luck: Luck,
) -> Result<Reply, AllocError>
    requires known { number.0 < length sites.old }
    requires calm { AreCalm 18_446_744_073_709_551_615 sites.old }
    ensures stand { IfOk result (λ reply. (schema : SchemaValue) (past : List Lucky) (bound : ℕ) →
        AllFollow schema past bound sites.old →
        (reply ≡ lucky_reply schema number.0 (fresh schema number.0)
        (own_lucky number.0 past) command luck)
        × AllFollow schema ((record { site = number; command = command; reply = reply }, luck)
        ∷ past) (bound + 1) sites.new) }
    ensures count { length sites.new ≡ length sites.old }
    ensures err { OnErr result (sites.new ≡ sites.old) }
{
    apply_once(&mut sites[usize::from(number.0)], alloc, command, luck)
}
