//! What commands and their replies put into effect.

ghost use Rattle.std.specs.Prelude.{◌≡◌, ◌∷◌, ℕ, List, Some, true};
ghost use Rattle.std.specs.Option.{unwrap_or};
ghost use Rattle.field_bounds.specs.declared.kind.Kind.{Kind};
ghost use Rattle.field_bounds.specs.declared.effect.Effect.TheVariants.{Gives};
ghost use Rattle.field_bounds.specs.declared.entry.Entry.{Entry};
ghost use Rattle.field_bounds.specs.Effects.{effect_by, wanted_by, spared_at, counts, doubt_kept_in};
ghost use Rattle.field_bounds.specs.Owed.{is_unsure};
ghost use Rattle.field_bounds.specs.Shape.{txn_ended};

use crate::effect::Effect;
use crate::entry::{Command, Entry, Last, Reply};
use crate::id::{FieldNo, SiteNo, TxnId};
use crate::kind::Kind;

/// On which field, of which kind and how much a spare wants: None for every other command. Costs no
/// memory.
#[inline(always)]
pub fn wanted_by(command: Command) -> Option<(FieldNo, Kind, u64)>
    ensures value { result ≡ wanted_by command }
{
    match command {
        Command::Spare {
            to: _,
            field,
            kind,
            want,
        } => Some((field, kind, want)),
        Command::Begin
        | Command::Escrow { .. }
        | Command::Commit { .. }
        | Command::Abort { .. }
        | Command::Give { .. }
        | Command::Restate { .. }
        | Command::Tighten { .. }
        | Command::Accept(_)
        | Command::Read { .. }
        | Command::Share { .. }
        | Command::Restart => None,
    }
}

/// The transaction that a command ends: None for a command that ends none. Costs no memory.
#[inline(always)]
pub fn txn_ended(command: Command) -> Option<TxnId>
    ensures value { result ≡ txn_ended command }
{
    match command {
        Command::Commit { txn } | Command::Abort { txn } => Some(txn),
        Command::Begin
        | Command::Escrow { .. }
        | Command::Give { .. }
        | Command::Restate { .. }
        | Command::Spare { .. }
        | Command::Tighten { .. }
        | Command::Accept(_)
        | Command::Read { .. }
        | Command::Share { .. }
        | Command::Restart => None,
    }
}

/// So much of a kind on a field leaves, to a site or for good.
#[inline(always)]
fn left(to: Option<SiteNo>, field: FieldNo, kind: Kind, amount: u64) -> Option<Effect>
    ensures value { result ≡ Some (Gives to field kind amount) }
{
    Some(Effect::Gives {
        to,
        field,
        kind,
        amount,
    })
}

/// What a command puts into effect by its reply, with its answer, or in doubt where its answer may
/// be so; a spare in doubt has spared so much. Costs no memory.
#[inline(always)]
pub fn effect_of(command: Command, reply: Reply, spared: u64) -> Option<Effect>
    ensures value { (shares : ℕ → Kind → ℕ) →
        (is_unsure reply ≡ true → spared ≡ spared_at shares (wanted_by command)) →
        result ≡ effect_by shares command reply }
{
    match command {
        Command::Begin => match reply {
            Reply::Begun(txn) => Some(Effect::Begins { txn }),
            _ => None,
        },
        Command::Escrow { txn, field, change } => match reply {
            Reply::Granted => Some(Effect::Grants { txn, field, change }),
            _ => None,
        },
        Command::Commit { txn } => match reply {
            Reply::Committed | Reply::Unsure => Some(Effect::Commits { txn }),
            _ => None,
        },
        Command::Abort { txn } => match reply {
            Reply::Aborted => Some(Effect::Aborts { txn }),
            _ => None,
        },
        Command::Give {
            to,
            field,
            kind,
            amount,
        } => match reply {
            Reply::Given { .. } | Reply::Unsure => left(Some(to), field, kind, amount),
            _ => None,
        },
        Command::Spare {
            to,
            field,
            kind,
            ..
        } => match reply {
            Reply::Spared { amount, .. } => left(Some(to), field, kind, amount),
            Reply::Unsure => left(Some(to), field, kind, spared),
            _ => None,
        },
        Command::Tighten {
            field,
            kind,
            amount,
        } => match reply {
            Reply::Tightened { .. } | Reply::Unsure => left(None, field, kind, amount),
            _ => None,
        },
        Command::Accept(told) => match reply {
            Reply::Accepted { .. } | Reply::Unsure => Some(Effect::Accepts {
                from: told.from,
                field: told.field,
                kind: told.kind,
                total: told.total,
            }),
            _ => None,
        },
        Command::Restart => match reply {
            Reply::Restarted { .. } => Some(Effect::Stops),
            _ => None,
        },
        Command::Restate { .. } | Command::Read { .. } | Command::Share { .. } => None,
    }
}

/// Whether a restart of the site found that what is in doubt is kept.
fn found_at(entry: &Entry, site: SiteNo) -> Option<bool>
    ensures value { (later : List Entry) → doubt_kept_in site.0 (entry.now ∷ later)
        ≡ unwrap_or result (doubt_kept_in site.0 later) }
{
    if entry.site.0 != site.0 {
        return None;
    }
    match entry.reply {
        Reply::Restarted { epoch: _, last } => Some(last == Last::Kept),
        _ => None,
    }
}

/// Whether what stands in doubt at a site was kept, by the entries that come later.
fn was_kept(later: &[Entry], site: SiteNo) -> bool
    ensures value { result ≡ doubt_kept_in site.0 later.now }
{
    for entry in later {
        if let Some(kept) = found_at(entry, site) {
            return kept;
        }
    }
    false
}

/// Whether what a reply answers counts, where the entries that come later, of all sites and the
/// oldest first, tell of what is in doubt. Costs no memory, and reads the later entries where the
/// reply is in doubt, up to the site's next restart.
pub fn counts(reply: Reply, later: &[Entry], site: SiteNo) -> bool
    ensures value { result ≡ counts (doubt_kept_in site.0 later.now) reply }
{
    match reply {
        Reply::Unsure => was_kept(later, site),
        _ => true,
    }
}
