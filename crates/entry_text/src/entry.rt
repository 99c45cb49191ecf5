//! Entries as text.

ghost use Rattle.std.specs.Prelude.{◌≡◌, IfSome, Some};
ghost use Rattle.field_bounds.specs.declared.entry.Entry.{Entry as EntryType};
ghost use Rattle.field_bounds.specs.Limits.{IsSchema};
ghost use Rattle.line_words.specs.Reading.{Gives};
ghost use Rattle.entry_text.specs.Spelling.{entry_text};
ghost use Rattle.entry_text.specs.Ranges.{EntryFits};
ghost use Rattle.entry_text.specs.Entries.{entry_at, entry_of};

use crate::command::command;
use crate::front::site_command;
use crate::reply::reply;
use crate::whole::whole_reply;
use crate::word::{Fields, expect_word};
use field_bounds::{Entry, Schema};
use line_words::{Words, behind};

#[tactic(auto, unfolding(crate::specs::Entries::entry_at))]
fn entry(line: &mut Words<'_>, fields: &Fields<'_>) -> Option<Entry>
    ensures { Gives result line.new (entry_at fields.now line.old) }
{
    let (site, command) = command(line, fields)?;
    expect_word(line, "->")?;
    let reply = reply(line)?;
    Some(Entry {
        site,
        command,
        reply,
    })
}

// The entry that the line spells, the words cut one after another.
#[inline(never)]
#[tactic(auto, unfolding(crate::specs::Entries::entry_of))]
fn cut_entry(schema: &Schema, line: &[u8]) -> Option<Entry>
    ensures { result ≡ entry_of schema.now line.now }
{
    let mut words = Words::new(line);
    let entry = entry(&mut words, &Fields::new(schema))?;
    if words.is_empty() { Some(entry) } else { None }
}

// The entry that the line spells, read from its front. None where it is told by the words alone.
#[inline(always)]
fn whole_entry(fields: &Fields<'_>, line: &[u8]) -> Option<Entry>
    requires { IsSchema fields.now }
    ensures text { IfSome result (λ entry. line.now ≡ entry_text fields.now entry) }
    ensures fits { IfSome result EntryFits }
{
    let (site, command, rest) = site_command(fields, line)?;
    let reply = whole_reply(behind(rest, " -> ")?)?;
    Some(Entry {
        site,
        command,
        reply,
    })
}

/// The entry that the line, without its LF, spells under the schema: a command, ` -> ` and a reply.
/// Any command may stand beside any reply, and the site may lie outside the schema. None where the
/// line spells no entry.
///
/// Costs a pass over the line and at most one look-up in a map, and no memory; twice that where the
/// line spells no entry, or a command that `read_command` reads twice, and a pass more over a reply
/// that is none.
#[inline(always)]
pub fn read_entry(schema: &Schema, line: &[u8]) -> Option<Entry>
    ensures found { IfSome result (λ entry. line.now ≡ entry_text schema.now entry) }
    ensures fits { IfSome result EntryFits }
    ensures only { (entry : EntryType) → EntryFits entry → line.now ≡ entry_text schema.now entry
        → result ≡ Some entry }
{
    if let Some(entry) = whole_entry(&Fields::new(schema), line) {
        return Some(entry);
    }
    cut_entry(schema, line)
}
