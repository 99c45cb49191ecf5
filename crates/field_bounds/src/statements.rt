//! The statements that entries issue.

ghost use Rattle.std.specs.Prelude.{◌≡◌, false, None};
ghost use Rattle.field_bounds.specs.declared.id.SiteNo.{SiteNo};
ghost use Rattle.field_bounds.specs.declared.entry.Reply.{Reply};
ghost use Rattle.field_bounds.specs.Shape.{is_accept};
ghost use Rattle.field_bounds.specs.Statements.{statement_of, told_by, may_issue};

use crate::entry::{Command, Entry, Reply, Statement};

/// The statement that an entry issues: that of a Give answered Given, a Restate answered Stated, or
/// a Spare answered Spared, with the entry's site as giver and the reply's total. None for every
/// other entry. Takes no memory.
pub fn statement_of(entry: &Entry) -> Option<Statement>
    ensures value { result ≡ statement_of entry.now }
{
    let from = entry.site;
    match (entry.command, entry.reply) {
        (
            Command::Give {
                to,
                field,
                kind,
                amount: _,
            },
            Reply::Given { total },
        )
        | (Command::Restate { to, field, kind }, Reply::Stated { total })
        | (
            Command::Spare {
                to,
                field,
                kind,
                want: _,
            },
            Reply::Spared { amount: _, total },
        ) => Some(Statement {
            from,
            to,
            field,
            kind,
            total,
        }),
        (Command::Give { .. } | Command::Restate { .. } | Command::Spare { .. }, _)
        | (
            Command::Begin
            | Command::Escrow { .. }
            | Command::Commit { .. }
            | Command::Abort { .. }
            | Command::Tighten { .. }
            | Command::Accept(_)
            | Command::Read { .. }
            | Command::Share { .. }
            | Command::Restart,
            _,
        ) => None,
    }
}

/// Whether an answer to the command may issue a statement: where not, none does, whatever the reply.
/// Costs no memory.
#[inline(always)]
pub fn may_issue(command: &Command) -> bool
    ensures value { result ≡ may_issue command.now }
    ensures none { result ≡ false → (from : SiteNo) (reply : Reply) →
        told_by from command.now reply ≡ None }
{
    matches!(
        *command,
        Command::Give { .. } | Command::Restate { .. } | Command::Spare { .. }
    )
}

/// Whether a command takes a statement in. Costs no memory.
#[inline(always)]
pub fn is_accept(command: &Command) -> bool
    ensures value { result ≡ is_accept command.now }
{
    matches!(*command, Command::Accept(_))
}
