//! Sets of statements.

ghost use Rattle.std.specs.Prelude.{◌≡◌, ◌↔◌, ◌⊎◌, [], IsTrue, OnOk, IfOk, Contains, reverse, slice_index_or};
ghost use Rattle.field_bounds.specs.declared.entry.Statement.{Statement};
ghost use Rattle.field_bounds.specs.declared.entry.Command.TheVariants.{Accept};
ghost use Rattle.statement_set.specs.Issued.{HasIssued};
ghost use Rattle.site_workers.specs.Scripts.{histories_of, HasAccept};
ghost use Rattle.site_workers.specs.Crossing.{AreIssued, AreAccepted};

use field_bounds::{Command, Entry, SiteNo, Statement};
use statement_set::StatementSet;
use std::alloc::{AllocError, Global};

/// Puts the statement that the entry accepts, if it accepts one, into the set.
fn insert_accepted(set: &mut StatementSet, entry: &Entry) -> Result<(), AllocError>
    ensures ok { OnOk result ((other : Statement) → Contains set.new other
        ↔ ((entry.now.command ≡ Accept other) ⊎ Contains set.old other)) }
{
    if let Command::Accept(statement) = entry.command {
        set.insert(statement)?;
    }
    Ok(())
}

/// The statements that a history issues.
fn issued_by(alloc: Global, history: &[Entry]) -> Result<StatementSet, AllocError>
    ensures { IfOk result (λ set. HasIssued set (reverse history.now)) }
{
    let mut set = StatementSet::new(alloc);
    for entry in history {
        set.insert_issued(entry)?;
    }
    Ok(set)
}

/// The statements that a history accepts.
fn accepted_by(alloc: Global, history: &[Entry]) -> Result<StatementSet, AllocError>
    ensures { IfOk result (λ set. (told : Statement)
        → Contains set told ↔ HasAccept told (reverse history.now)) }
{
    let mut set = StatementSet::new(alloc);
    for entry in history {
        insert_accepted(&mut set, entry)?;
    }
    Ok(set)
}

/// The statements that each history issues.
pub(crate) fn all_issued(
    alloc: Global,
    histories: &[Vec<Entry>],
) -> Result<Vec<StatementSet>, AllocError>
    ensures { IfOk result (λ sets. AreIssued (histories_of histories.now) sets.items) }
{
    let mut sets = Vec::new(alloc);
    for history in histories {
        let set = issued_by(alloc, history.as_slice())?;
        sets.push(set)?;
    }
    Ok(sets)
}

/// The statements that each history accepts.
pub(crate) fn all_accepted(
    alloc: Global,
    histories: &[Vec<Entry>],
) -> Result<Vec<StatementSet>, AllocError>
    ensures { IfOk result (λ sets. AreAccepted (histories_of histories.now) sets.items) }
{
    let mut sets = Vec::new(alloc);
    for history in histories {
        let set = accepted_by(alloc, history.as_slice())?;
        sets.push(set)?;
    }
    Ok(sets)
}

/// Whether the statement is in the set of this site; there is none where the site has no set.
pub(crate) fn has_at(sets: &[StatementSet], site: SiteNo, told: Statement) -> bool
    ensures { IsTrue result ↔ Contains (slice_index_or sets.now site.0 []) told }
{
    match sets.get(usize::from(site.0)) {
        Some(set) => set.has(told),
        None => false,
    }
}
