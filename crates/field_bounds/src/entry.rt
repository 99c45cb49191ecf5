//! What a site is asked, what it answers, and the entry that it keeps of both.

use crate::id::{FieldNo, SiteNo, TxnId};
use crate::kind::Kind;

/// A quantity set aside by a transaction: a change of a field, below 0 to lower it and above 0 to
/// raise it.
///
/// Source: O'Neil 1986.
#[derive(Clone, Copy, Debug, PartialEq, Eq)]
pub struct Escrow {
    pub field: FieldNo,
    pub change: i64,
}

/// What a giver tells of its gifts: the rights of a kind on a field that it has given to another
/// site so far, all gifts together, in rights, 1 to 1,000,000,000,000,000,000 where a site issued
/// it. Each statement holds all that the earlier ones told, so one that comes late, twice, never or
/// out of order does no harm.
///
/// Source: Balegas and others 2015 for transfers that are kept as entries that only grow, this
/// project for the statement.
#[derive(Clone, Copy, Debug, PartialEq, Eq, PartialOrd, Ord, Hash)]
pub struct Statement {
    pub from: SiteNo,
    pub to: SiteNo,
    pub field: FieldNo,
    pub kind: Kind,
    pub total: u64,
}

/// What a site is asked.
#[derive(Clone, Copy, Debug, PartialEq, Eq)]
pub enum Command {
    /// Opens a transaction.
    Begin,
    /// Sets aside, for an open transaction, the rights to change a field.
    Escrow {
        txn: TxnId,
        field: FieldNo,
        change: i64,
    },
    /// Makes the changes of an open transaction permanent.
    Commit {
        txn: TxnId,
    },
    /// Gives the rights of an open transaction back.
    Abort {
        txn: TxnId,
    },
    /// Gives free rights of a kind on a field to another site, so many.
    Give {
        to: SiteNo,
        field: FieldNo,
        kind: Kind,
        amount: u64,
    },
    /// Asks for a statement of what was given so far.
    Restate {
        to: SiteNo,
        field: FieldNo,
        kind: Kind,
    },
    /// Gives free rights of a kind on a field to another site: as many as it wants, and at most
    /// half of the share, rounded up.
    Spare {
        to: SiteNo,
        field: FieldNo,
        kind: Kind,
        want: u64,
    },
    /// Gives free rights of a kind on a field up for good, so many: rights to lower raise the
    /// field's floor, and rights to raise lower its ceiling.
    Tighten {
        field: FieldNo,
        kind: Kind,
        amount: u64,
    },
    /// Takes in a statement of another site: what it tells beyond the statements taken in before
    /// becomes free rights here.
    Accept(Statement),
    /// Asks between which values the field's committed value lies.
    Read {
        field: FieldNo,
    },
    /// Asks how many rights of each kind the site has free on the field.
    Share {
        field: FieldNo,
    },
    /// Stops the site, and starts it again on what it kept: each open transaction is aborted, and
    /// what is in doubt is settled. A site that is up may be asked too.
    Restart,
}

/// Why a site refuses a command. The numbers in the texts of programs are the wire's, and leave
/// room for the refusals of later stages.
#[derive(Clone, Copy, Debug, PartialEq, Eq)]
pub enum Refusal {
    /// The site is down, and the command isn't a restart.
    Down,
    /// A site that is named isn't in the schema.
    NoSite,
    /// The field isn't in the schema.
    NoField,
    /// The transaction isn't open at this site.
    NoTransaction,
    /// The amount, the change or the stated total is 0.
    Zero,
    /// The amount or the change without its sign is above 2,000,000,000,000,000, or the stated
    /// total above 1,000,000,000,000,000,000.
    TooLarge,
    /// More is asked than the site's share of the kind, which is told. A spare is short only where
    /// that share is 0.
    Short { share: u64 },
    /// The other site is this site.
    SelfGift,
    /// The total given so far, which is told, and the amount are together above
    /// 1,000,000,000,000,000,000.
    LedgerFull { total: u64 },
    /// The statement is for another site.
    NotYours,
    /// The gain is above the room, which is told: the field's width less the rights of both kinds
    /// that the site has, and less those that it has given up for good.
    Forged { room: u64 },
    /// 64 transactions are open.
    TooManyOpen,
    /// The transaction has 16 escrows.
    TooManyEscrows,
    /// The epoch's last transaction number is 1,000,000,000 (for a begin), or the last epoch kept
    /// is (for a restart).
    NumbersFull,
    /// Nothing was given yet, so there is nothing to state.
    NothingGiven,
}

/// What a restart found of the command that was answered with `Unsure` since the restart before.
#[derive(Clone, Copy, Debug, PartialEq, Eq)]
pub enum Last {
    /// No command was answered so.
    Nothing,
    /// It was kept: it takes effect now.
    Kept,
    /// It was lost: it never takes effect.
    Lost,
}

/// What a site answers.
#[derive(Clone, Copy, Debug, PartialEq, Eq)]
pub enum Reply {
    Begun(TxnId),
    Granted,
    Committed,
    Aborted,
    /// The amount was given, and this is the total given so far, in rights.
    Given { total: u64 },
    /// This is the total given so far, in rights.
    Stated { total: u64 },
    /// So many were given, in rights, and this is the total given so far.
    Spared { amount: u64, total: u64 },
    /// The amount was given up for good, and this is all that the site has given up so far of the
    /// kind on the field, in rights, 1 to 2,000,000,000,000,000.
    Tightened { total: u64 },
    /// The statement was taken in, and so many rights became free by it: 0 where nothing in it was
    /// new.
    Accepted { gain: u64 },
    /// The committed value lies between these two, both included.
    Between { lo: i64, hi: i64 },
    /// The free rights of the site on the field, to lower and to raise it: in rights, each 0 to
    /// 2,000,000,000,000,000.
    Shares { lower: u64, raise: u64 },
    /// The site is up again, in this epoch, 1 to 1,000,000,000. Each transaction that was open is
    /// aborted, and `last` settles what was in doubt.
    Restarted { epoch: u32, last: Last },
    /// The command may be kept or not, and the site is down: the next restart tells which. Only a
    /// commit of a transaction with an escrow, a give, a spare, a tighten, and an accept that
    /// brings a gain are answered so.
    Unsure,
    /// The restart failed, and the site is down.
    StillDown,
    Refused(Refusal),
}

/// One command at one site, with its reply.
#[derive(Clone, Copy, Debug, PartialEq, Eq)]
pub struct Entry {
    pub site: SiteNo,
    pub command: Command,
    pub reply: Reply,
}
