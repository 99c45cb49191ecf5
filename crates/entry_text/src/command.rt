//! Commands as text.

ghost use Rattle.std.specs.Prelude.{◌≡◌, ◌++◌, IfSome, Some};
ghost use Rattle.field_bounds.specs.declared.id.SiteNo.{SiteNo as Site};
ghost use Rattle.field_bounds.specs.declared.entry.Command.{Command as CommandType};
ghost use Rattle.line_words.specs.Reading.{Gives};
ghost use Rattle.entry_text.specs.Spelling.{command_text};
ghost use Rattle.entry_text.specs.Ranges.{SiteFits, CommandFits};
ghost use Rattle.entry_text.specs.Reading.{table_at};
ghost use Rattle.entry_text.specs.Commands.{gift_commands, own_commands, command_table, command_at, command_of};

use crate::front::site_command;
use crate::word::{Fields, field_at, kind_at, named, number_at, signed_at, site_at, txn_at};
use field_bounds::{Command, Schema, SiteNo, Statement};
use line_words::Words;

// Takes a command that changes or tells what the site itself has: its name, and what follows it.
#[tactic(auto, unfolding(crate::specs::Reading::table_at))]
fn own_command(line: &mut Words<'_>, fields: &Fields<'_>) -> Option<Command>
    ensures { Gives result line.new (table_at (own_commands fields.now) line.old) }
{
    if named(line, "accept") {
        let from = site_at(line)?;
        let to = site_at(line)?;
        let field = field_at(line, fields)?;
        let kind = kind_at(line)?;
        let total = number_at(line)?;
        Some(Command::Accept(Statement {
            from,
            to,
            field,
            kind,
            total,
        }))
    } else if named(line, "tighten") {
        let field = field_at(line, fields)?;
        let kind = kind_at(line)?;
        let amount = number_at(line)?;
        Some(Command::Tighten {
            field,
            kind,
            amount,
        })
    } else if named(line, "read") {
        let field = field_at(line, fields)?;
        Some(Command::Read { field })
    } else if named(line, "share") {
        let field = field_at(line, fields)?;
        Some(Command::Share { field })
    } else if named(line, "restart") {
        Some(Command::Restart)
    } else {
        None
    }
}

// The same, where the command may also give rights to a site.
#[tactic(auto, unfolding(crate::specs::Reading::table_at))]
fn gift_or_own_command(line: &mut Words<'_>, fields: &Fields<'_>) -> Option<Command>
    ensures { Gives result line.new
        (table_at (gift_commands fields.now ++ own_commands fields.now) line.old) }
{
    if named(line, "give") {
        let to = site_at(line)?;
        let field = field_at(line, fields)?;
        let kind = kind_at(line)?;
        let amount = number_at(line)?;
        Some(Command::Give {
            to,
            field,
            kind,
            amount,
        })
    } else if named(line, "restate") {
        let to = site_at(line)?;
        let field = field_at(line, fields)?;
        let kind = kind_at(line)?;
        Some(Command::Restate { to, field, kind })
    } else if named(line, "spare") {
        let to = site_at(line)?;
        let field = field_at(line, fields)?;
        let kind = kind_at(line)?;
        let want = number_at(line)?;
        Some(Command::Spare {
            to,
            field,
            kind,
            want,
        })
    } else {
        own_command(line, fields)
    }
}

// Takes a command: its name, and what follows it.
#[tactic(auto, unfolding(crate::specs::Reading::table_at))]
fn any_command(line: &mut Words<'_>, fields: &Fields<'_>) -> Option<Command>
    ensures { Gives result line.new (table_at (command_table fields.now) line.old) }
{
    if named(line, "begin") {
        Some(Command::Begin)
    } else if named(line, "escrow") {
        let txn = txn_at(line)?;
        let field = field_at(line, fields)?;
        let change = signed_at(line)?;
        Some(Command::Escrow { txn, field, change })
    } else if named(line, "commit") {
        let txn = txn_at(line)?;
        Some(Command::Commit { txn })
    } else if named(line, "abort") {
        let txn = txn_at(line)?;
        Some(Command::Abort { txn })
    } else {
        gift_or_own_command(line, fields)
    }
}

/// Takes a site and a command.
#[tactic(auto, unfolding(crate::specs::Commands::command_at))]
pub(crate) fn command(line: &mut Words<'_>, fields: &Fields<'_>) -> Option<(SiteNo, Command)>
    ensures { Gives result line.new (command_at fields.now line.old) }
{
    let site = site_at(line)?;
    let command = any_command(line, fields)?;
    Some((site, command))
}

// The site and the command that the line spells, the words cut one after another.
#[inline(never)]
#[tactic(auto, unfolding(crate::specs::Commands::command_of))]
fn cut_command(schema: &Schema, line: &[u8]) -> Option<(SiteNo, Command)>
    ensures { result ≡ command_of schema.now line.now }
{
    let mut words = Words::new(line);
    let command = command(&mut words, &Fields::new(schema))?;
    if words.is_empty() {
        Some(command)
    } else {
        None
    }
}

/// The site and the command that the line, without its LF, spells under the schema. The site may
/// lie outside the schema. None where the line spells no command.
///
/// Costs a pass over the line and at most one look-up in a map, and no memory; twice that where the
/// line spells no command, one of a restate, a spare or a restart, a number of 20 digits, or a field
/// by its number.
pub fn read_command(schema: &Schema, line: &[u8]) -> Option<(SiteNo, Command)>
    ensures found { IfSome result (λ asked. line.now ≡ command_text schema.now asked.0 asked.1) }
    ensures fits { IfSome result (λ asked. SiteFits asked.0 × CommandFits asked.1) }
    ensures only { (site : Site) (command : CommandType) → SiteFits site → CommandFits command
        → line.now ≡ command_text schema.now site command → result ≡ Some (site, command) }
{
    if let Some((site, command, [])) = site_command(&Fields::new(schema), line) {
        return Some((site, command));
    }
    cut_command(schema, line)
}
