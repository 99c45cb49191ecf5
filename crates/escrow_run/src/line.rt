//! What a line behind the header asks.

ghost use Rattle.std.specs.Prelude.{◌≡◌, ◌≢◌, ◌<◌, ◌≤◌, ◌++◌, ◌∷◌, ◌↔◌, ℕ, List, All, IfNone, IfSome, IsTrue, MatchBool, MatchOption, Some, codes, slice_index};
ghost use Rattle.field_bounds.specs.Limits.{IsSchema};
ghost use Rattle.field_bounds.specs.declared.id.SiteNo.{SiteNo as Site};
ghost use Rattle.field_bounds.specs.declared.entry.Command.{Command as CommandType};
ghost use Rattle.kept_state.specs.declared.luck.Luck.{Luck as LuckType};
ghost use Rattle.kept_state.specs.declared.luck.Luck.TheVariants.{Fine, Torn};
ghost use Rattle.world_steps.specs.declared.step.WorldStep.TheVariants.{Do};
ghost use Rattle.line_words.specs.Reading.{Gives};
ghost use Rattle.entry_text.specs.Reading.{table_at};
ghost use Rattle.escrow_run.specs.declared.line.Line.{Line as LineType};
ghost use Rattle.escrow_run.specs.Text.{luck_text, step_text, asked_text, LuckFits, NumbersFit, AskedFits, IsTaken, IsAsked, IsBad, luck_at, line_table};

use crate::aim::Aim;
use crate::level::Level;
use entry_text::{
    Fields, MAX_LINE, expect, field_at, kind_at, number_at, read_command, read_number, signed_at,
    site_at,
};
use field_bounds::{Command, Schema, SiteNo};
use line_words::{Words, is_text};
use world_steps::{Luck, World, WorldStep, step_fits};

/// What a line asks.
#[derive(Clone, Copy)]
pub(crate) enum Line {
    /// A step.
    Step(WorldStep),
    /// The gifts that level a field.
    Level(Level),
    /// The steps that reach a value.
    Reach(Aim),
}

// ---- a line that begins with a number

// The bytes before the last space, and those after it.
fn split_last_word(line: &[u8]) -> Option<(&[u8], &[u8])>
    ensures { MatchOption result (All (λ b. b ≢ 32) line.now)
        (λ parts. All (λ b. b ≢ 32) parts.1.now × (line.now ≡ parts.0.now ++ 32 ∷ parts.1.now)) }
{
    match line.iter().rposition(|byte| *byte == b' ') {
        Some(at) => Some((&line[..at], &line[at + 1..])),
        None => None,
    }
}

// The bytes before the word of luck, where they end in it.
fn before_torn(bytes: &[u8]) -> Option<&[u8]>
    ensures { MatchOption result ((plain : List ℕ) → bytes.now ≢ plain ++ codes " torn")
        (λ plain. bytes.now ≡ plain.now ++ codes " torn") }
{
    bytes.strip_suffix(b" torn")
}

// The line without its luck, where it has one, and how many bytes of the append are kept.
fn split_luck(line: &[u8]) -> Option<(&[u8], u64)>
    ensures found { IfSome result (λ parts. (line.now ≡ parts.0.now ++ luck_text (Torn parts.1))
        × LuckFits (Torn parts.1)) }
    ensures none { IfNone result ((front : List ℕ) (bytes : ℕ) → LuckFits (Torn bytes) →
        line.now ≢ front ++ luck_text (Torn bytes)) }
{
    let (front, word) = split_last_word(line)?;
    let bytes = read_number(word)?;
    let plain = before_torn(front)?;
    Some((plain, bytes))
}

// The command that a line asks of a site. It is read whole before luck is looked for, since a
// field's name may be the word of luck.
fn command_step(schema: &Schema, line: &[u8]) -> Option<WorldStep>
    ensures found { IfSome result (λ step. (line.now ≡ step_text schema.now step)
        × NumbersFit step) }
    ensures none { IfNone result ((site : Site) (command : CommandType) (luck : LuckType)
        → NumbersFit (Do site command luck)
        → line.now ≢ step_text schema.now (Do site command luck)) }
{
    if let Some((site, command)) = read_command(schema, line) {
        let luck = Luck::Fine;
        return Some(WorldStep::Do {
            site,
            command,
            luck,
        });
    }
    let (plain, bytes) = split_luck(line)?;
    let (site, command) = read_command(schema, plain)?;
    let luck = Luck::Torn(bytes);
    Some(WorldStep::Do {
        site,
        command,
        luck,
    })
}

// ---- a line that begins with a name

// Takes how an append goes, by the words that are left.
fn take_luck(words: &mut Words<'_>) -> Option<Luck>
    ensures { Gives result words.new (luck_at words.old) }
{
    if words.is_empty() {
        return Some(Luck::Fine);
    }
    if !is_text(words.next()?, "torn") {
        return None;
    }
    Some(Luck::Torn(number_at(words)?))
}

// Takes a name, and what is asked by it.
#[tactic(auto, unfolding(entry_text::specs::Reading::table_at))]
fn take_named(words: &mut Words<'_>, fields: &Fields<'_>) -> Option<Line>
    ensures { Gives result words.new (table_at (line_table fields.now) words.old) }
{
    let name = words.next()?;
    if is_text(name, "deliver") {
        let k = number_at(words)?;
        let luck = take_luck(words)?;
        Some(Line::Step(WorldStep::Deliver { k, luck }))
    } else if is_text(name, "level") {
        let field = field_at(words, fields)?;
        let kind = kind_at(words)?;
        Some(Line::Level(Level { field, kind }))
    } else if is_text(name, "reach") {
        let site = site_at(words)?;
        let field = field_at(words, fields)?;
        let target = signed_at(words)?;
        Some(Line::Reach(Aim {
            site,
            field,
            target,
        }))
    } else {
        None
    }
}

// What a line asks by a name.
fn named_line(schema: &Schema, line: &[u8]) -> Option<Line>
    ensures found { IfSome result (λ asked. (line.now ≡ asked_text schema.now asked)
        × AskedFits asked) }
    ensures only { (asked : LineType) → IsAsked schema.now line.now asked
        → 57 < slice_index line.now 0 → result ≡ Some asked }
{
    let mut words = Words::new(line);
    let asked = take_named(&mut words, &Fields::new(schema))?;
    if words.is_empty() { Some(asked) } else { None }
}

// ---- either

// Whether a line begins with no digit.
fn begins_with_name(line: &[u8]) -> bool
    ensures { MatchBool result (57 < slice_index line.now 0) (slice_index line.now 0 ≤ 57) }
{
    match line {
        [first, ..] => *first > b'9',
        [] => false,
    }
}

// What a line asks, whether or not a world of the schema takes it.
fn any_line(schema: &Schema, line: &[u8]) -> Option<Line>
    ensures found { IfSome result (λ asked. (line.now ≡ asked_text schema.now asked)
        × AskedFits asked) }
    ensures only { IsSchema schema.now → (asked : LineType) → IsAsked schema.now line.now asked
        → result ≡ Some asked }
{
    if begins_with_name(line) {
        named_line(schema, line)
    } else {
        Some(Line::Step(command_step(schema, line)?))
    }
}

// Whether a world of the schema takes what a line asks.
fn is_taken(schema: &Schema, asked: Line) -> bool
    ensures { IsTrue result ↔ IsTaken schema.now asked }
{
    match asked {
        Line::Step(step) => step_fits(schema, &step),
        Line::Level(level) => level.field.0 < schema.fields(),
        Line::Reach(aim) => aim.site.0 < schema.sites() && aim.field.0 < schema.fields(),
    }
}

/// What a line behind the header, without its LF, asks of a world, or None where it asks nothing.
/// Costs a pass over the line, and no memory; three more over a command that is torn, and four more
/// where the line begins with a number and asks nothing.
pub(crate) fn read_line(world: &World, line: &[u8]) -> Option<Line>
    ensures found { IfSome result (IsAsked world.now.schema line.now) }
    ensures none { IfNone result (IsBad world.now.schema line.now) }
{
    if line.len() > MAX_LINE {
        return None;
    }
    let schema = world.schema();
    let asked = any_line(schema, line)?;
    if is_taken(schema, asked) {
        Some(asked)
    } else {
        None
    }
}

/// The site and the command of a step whose luck is fine: its line spells them, and no more.
#[inline(always)]
pub(crate) fn fine_command(step: &WorldStep) -> Option<(SiteNo, Command)>
    ensures { MatchOption result ((site : Site) (command : CommandType)
        → step.now ≢ Do site command Fine) (λ asked. step.now ≡ Do asked.0 asked.1 Fine) }
{
    match *step {
        WorldStep::Do {
            site,
            command,
            luck: Luck::Fine,
        } => Some((site, command)),
        WorldStep::Do {
            site: _,
            command: _,
            luck: Luck::Torn(_),
        }
        | WorldStep::Deliver { k: _, luck: _ } => None,
    }
}
