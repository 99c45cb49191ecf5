//! Which entries leave a record in a site's log.

ghost use Rattle.std.specs.Prelude.{◌≡◌, Bool, MatchOption, map, reverse};
ghost use Rattle.field_bounds.specs.declared.entry.Entry.{Entry};
ghost use Rattle.site_trace.specs.Records.{names, escrow_after, has_escrow, commits_escrow, leaves_record};

use crate::reading::TracedEntry;
use field_bounds::{Command, Entry, Reply, TxnId};

/// What tells an entry: it alone, or with its place in a trace.
pub(crate) trait TellsEntry {
    ghost told: { Self → Entry };

    /// The entry.
    fn entry(&self) -> &Entry
        ensures { result.now ≡ told self.now };
}

impl TellsEntry for Entry {
    ghost told = { λ entry. entry };

    fn entry(&self) -> &Entry {
        self
    }
}

impl TellsEntry for TracedEntry {
    ghost told = { λ traced. traced.entry };

    fn entry(&self) -> &Entry {
        &self.entry
    }
}

// Whether the command names this transaction.
fn names(txn: TxnId, command: Command) -> bool
    ensures { result ≡ names txn command }
{
    match command {
        Command::Escrow { txn: named, .. }
        | Command::Commit { txn: named }
        | Command::Abort { txn: named } => txn == named,
        Command::Begin
        | Command::Give { .. }
        | Command::Restate { .. }
        | Command::Spare { .. }
        | Command::Tighten { .. }
        | Command::Accept(_)
        | Command::Read { .. }
        | Command::Share { .. }
        | Command::Restart => false,
    }
}

// What the entry tells of the transaction: that it has an escrow, that it was begun and has none, or
// nothing.
fn escrow_told(txn: TxnId, entry: &Entry) -> Option<bool>
    ensures { MatchOption result
        ((before : Bool) → escrow_after txn entry.now.command before entry.now.reply ≡ before)
        (λ told. (before : Bool)
        → escrow_after txn entry.now.command before entry.now.reply ≡ told) }
{
    match entry.reply {
        Reply::Begun(begun) => if begun == txn { Some(false) } else { None },
        Reply::Granted => if names(txn, entry.command) {
            Some(true)
        } else {
            None
        },
        Reply::Committed
        | Reply::Aborted
        | Reply::Given { .. }
        | Reply::Stated { .. }
        | Reply::Spared { .. }
        | Reply::Tightened { .. }
        | Reply::Accepted { .. }
        | Reply::Between { .. }
        | Reply::Shares { .. }
        | Reply::Restarted { .. }
        | Reply::Unsure
        | Reply::StillDown
        | Reply::Refused(_) => None,
    }
}

// Whether the transaction was granted an escrow since it was begun.
fn has_escrow<T: TellsEntry>(txn: TxnId, before: &[T]) -> bool
    ensures { result ≡ has_escrow txn (reverse (map T.told before.now)) }
{
    let mut left = before;
    while let Some((last, front)) = left.split_last() {
        if let Some(told) = escrow_told(txn, last.entry()) {
            return told;
        }
        left = front;
    }
    false
}

// Whether the command is the commit of a transaction that was granted an escrow since it was begun.
fn commits_escrow<T: TellsEntry>(before: &[T], command: Command) -> bool
    ensures { result ≡ commits_escrow (reverse (map T.told before.now)) command }
{
    match command {
        Command::Commit { txn } => has_escrow(txn, before),
        Command::Begin
        | Command::Escrow { .. }
        | Command::Abort { .. }
        | Command::Give { .. }
        | Command::Restate { .. }
        | Command::Spare { .. }
        | Command::Tighten { .. }
        | Command::Accept(_)
        | Command::Read { .. }
        | Command::Share { .. }
        | Command::Restart => false,
    }
}

/// Whether the entry leaves a record, behind these entries.
pub(crate) fn leaves_record<T: TellsEntry>(before: &[T], entry: &Entry) -> bool
    ensures { result ≡ leaves_record (reverse (map T.told before.now)) entry.now.command
        entry.now.reply }
{
    match entry.reply {
        Reply::Committed => commits_escrow(before, entry.command),
        Reply::Accepted { gain } => gain > 0,
        Reply::Given { .. }
        | Reply::Spared { .. }
        | Reply::Tightened { .. }
        | Reply::Restarted { .. } => true,
        Reply::Begun(_)
        | Reply::Granted
        | Reply::Aborted
        | Reply::Stated { .. }
        | Reply::Between { .. }
        | Reply::Shares { .. }
        | Reply::Unsure
        | Reply::StillDown
        | Reply::Refused(_) => false,
    }
}
