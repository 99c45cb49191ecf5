//! A trace in which something is changed.

ghost use Rattle.std.specs.Prelude.{◌<◌, length};

use crate::dice::Dice;
use crate::drawn;
use field_bounds::{Command, Entry, Reply, SiteNo};
use std::alloc::{AllocError, Global};

/// A reply that is drawn: of the kind that a command is answered with, or of any.
fn reply_to(dice: &mut Dice, command: Command) -> Reply {
    if dice.below(2) == 0 {
        drawn::answer(dice, command)
    } else {
        drawn::reply(dice)
    }
}

/// An entry that is drawn.
fn strange(dice: &mut Dice) -> Entry {
    let command = drawn::command(dice);
    Entry {
        site: drawn::site(dice),
        command,
        reply: reply_to(dice, command),
    }
}

/// The entry with one of its parts drawn anew.
fn changed(dice: &mut Dice, entry: Entry) -> Entry {
    match dice.below(4) {
        0 => Entry {
            site: SiteNo(dice.small(4)),
            ..entry
        },
        1 => Entry {
            command: drawn::command(dice),
            ..entry
        },
        _ => Entry {
            reply: reply_to(dice, entry.command),
            ..entry
        },
    }
}

/// Exchanges the entry at a place with its neighbour, where it has one.
fn exchange(entries: &mut [Entry], at: usize)
    requires inside { at < length entries.old }
{
    let next = at + 1;
    if next < entries.len() {
        entries.swap(at, next);
    }
}

/// The trace with one of its entries changed, dropped, exchanged with its neighbour or told twice,
/// or with a strange one put in.
pub fn mutated(alloc: Global, dice: &mut Dice, trace: &[Entry]) -> Result<Vec<Entry>, AllocError> {
    let mut entries = Vec::from_slice(alloc, trace)?;
    if entries.is_empty() {
        entries.push(strange(dice))?;
        return Ok(entries);
    }
    let at = dice.place(entries.len());
    let entry = entries[at];
    match dice.below(8) {
        0 => {
            entries.remove(at);
        }
        1 => exchange(&mut entries, at),
        2 => entries.insert(at, entry)?,
        3 => entries.insert(at, strange(dice))?,
        _ => entries[at] = changed(dice, entry),
    }
    Ok(entries)
}
