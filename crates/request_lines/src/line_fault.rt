//! Why a line is no command, as far as its words tell.

ghost use Rattle.std.specs.Prelude.{◌≡◌};
ghost use Rattle.line_words.specs.Words.{words};
ghost use Rattle.request_lines.specs.LineFaults.{has_no_field, has_field_next, has_field_second, place_of, next_fault, second_fault, third_fault, fault_behind, fault_in};

use crate::bad_line::BadLine;
use entry_text::{Fields, field_at};
use field_bounds::Schema;
use line_words::{Words, is_text};

/// Where a field stands behind the name of a command.
#[derive(Clone, Copy, PartialEq, Eq)]
pub(crate) enum FieldPlace {
    /// The word names no command.
    Unknown,
    /// The command names no field.
    Nowhere,
    /// The field is the next word.
    Next,
    /// The field is the second word.
    Second,
    /// The field is the third word.
    Third,
}

// The name of a command with no field in it.
fn has_no_field(name: &[u8]) -> bool
    ensures { result ≡ has_no_field name.now }
{
    is_text(name, "begin")
        || is_text(name, "commit")
        || is_text(name, "abort")
        || is_text(name, "restart")
}

// The name of a command whose field is the next word.
fn has_field_next(name: &[u8]) -> bool
    ensures { result ≡ has_field_next name.now }
{
    is_text(name, "tighten") || is_text(name, "read") || is_text(name, "share")
}

// The name of a command whose field is the second word.
fn has_field_second(name: &[u8]) -> bool
    ensures { result ≡ has_field_second name.now }
{
    is_text(name, "escrow")
        || is_text(name, "give")
        || is_text(name, "restate")
        || is_text(name, "spare")
}

// Where the field stands behind the name of a command.
fn place_of(name: &[u8]) -> FieldPlace
    ensures { result ≡ place_of name.now }
{
    if has_no_field(name) {
        FieldPlace::Nowhere
    } else if has_field_next(name) {
        FieldPlace::Next
    } else if has_field_second(name) {
        FieldPlace::Second
    } else if is_text(name, "accept") {
        FieldPlace::Third
    } else {
        FieldPlace::Unknown
    }
}

// What is wrong where the next word is to be a field.
#[tactic(auto, unfolding(line_words::specs::Reading::word_at))]
fn next_fault(schema: &Schema, words: &mut Words<'_>) -> BadLine
    ensures { result ≡ next_fault schema.now words.old }
{
    if words.is_empty() {
        return BadLine::NoCommand;
    }
    match field_at(words, &Fields::new(schema)) {
        Some(_) => BadLine::NoCommand,
        None => BadLine::NoField,
    }
}

// What is wrong where the second word is to be a field.
fn second_fault(schema: &Schema, words: &mut Words<'_>) -> BadLine
    ensures { result ≡ second_fault schema.now words.old }
{
    match words.next() {
        Some(_) => next_fault(schema, words),
        None => BadLine::NoCommand,
    }
}

// What is wrong where the third word is to be a field.
fn third_fault(schema: &Schema, words: &mut Words<'_>) -> BadLine
    ensures { result ≡ third_fault schema.now words.old }
{
    match words.next() {
        Some(_) => second_fault(schema, words),
        None => BadLine::NoCommand,
    }
}

// What is wrong behind the name of a command.
fn fault_behind(schema: &Schema, name: &[u8], words: &mut Words<'_>) -> BadLine
    ensures { result ≡ fault_behind schema.now (place_of name.now) words.old }
{
    match place_of(name) {
        FieldPlace::Unknown => BadLine::UnknownWord,
        FieldPlace::Nowhere => BadLine::NoCommand,
        FieldPlace::Next => next_fault(schema, words),
        FieldPlace::Second => second_fault(schema, words),
        FieldPlace::Third => third_fault(schema, words),
    }
}

/// What is wrong with a line that spells no command, and doesn't ask for a commit.
pub(crate) fn fault_in(schema: &Schema, line: &[u8]) -> BadLine
    ensures { result ≡ fault_in schema.now (words line.now) }
{
    let mut words = Words::new(line);
    let Some(first) = words.next() else {
        return BadLine::NoCommand;
    };
    let Some(name) = words.next() else {
        return BadLine::NoCommand;
    };
    if is_text(first, "kept") {
        return BadLine::NoCommand;
    }
    fault_behind(schema, name, &mut words)
}
