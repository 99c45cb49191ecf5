//! Remarks: the lines of a run's output that are no entries.

ghost use Rattle.std.specs.Prelude.{◌≡◌, IfSome, Some};
ghost use Rattle.std.specs.Bool.{Decides};
ghost use Rattle.line_words.specs.Reading.{Gives, word_at};
ghost use Rattle.escrow_audit.specs.Remarks.{reason_of, opening_of, ending_of, no_statement_at, level_at, outcome_after, outcome_at, reach_at, remark_after, remark_at, is_in_schema, remark_text, RemarkFits, IsRemark};
ghost use Rattle.escrow_audit.specs.declared.remark.Remark.{Remark as RemarkType};

use entry_text::{Fields, MAX_LINE, expect, field_at, kind_at, number_at, signed_at, site_at};
use field_bounds::{FieldNo, Kind, Schema, SiteNo};
use line_words::{Words, is_text};

/// Why a target isn't reached.
#[derive(Clone, Copy, Debug)]
pub(crate) enum Reason {
    Site,
    Field,
    Down,
    Flight,
    Unstated,
    Tightened,
    Numbers,
    Outside,
}

/// How reaching for a target ends: by so many steps, or by none, for a reason.
#[derive(Clone, Copy, Debug)]
pub(crate) enum ReachEnd {
    Steps { steps: u64 },
    Unreached { reason: Reason },
}

/// What a run tells of a line, where that is no entry.
#[derive(Clone, Copy, Debug)]
pub(crate) enum Remark {
    BadLine,
    NoStatement {
        number: u64,
    },
    Level {
        field: FieldNo,
        kind: Kind,
        moves: u64,
    },
    Reach {
        site: SiteNo,
        field: FieldNo,
        target: i64,
        outcome: ReachEnd,
    },
}

/// The word that a remark begins with.
#[derive(Clone, Copy, Debug)]
pub(crate) enum RemarkWord {
    Bad,
    Deliver,
    Level,
    Reach,
}

/// The word that an outcome begins with.
#[derive(Clone, Copy, Debug)]
pub(crate) enum Ending {
    Steps,
    No,
}

#[tactic(auto, unfolding(crate::specs::Remarks::reason_of))]
fn reason_named(word: &[u8]) -> Option<Reason>
    ensures { result ≡ reason_of word.now }
{
    if is_text(word, "site") {
        Some(Reason::Site)
    } else if is_text(word, "field") {
        Some(Reason::Field)
    } else if is_text(word, "down") {
        Some(Reason::Down)
    } else if is_text(word, "flight") {
        Some(Reason::Flight)
    } else if is_text(word, "unstated") {
        Some(Reason::Unstated)
    } else if is_text(word, "tightened") {
        Some(Reason::Tightened)
    } else if is_text(word, "numbers") {
        Some(Reason::Numbers)
    } else if is_text(word, "outside") {
        Some(Reason::Outside)
    } else {
        None
    }
}

#[tactic(auto, unfolding(crate::specs::Remarks::opening_of))]
fn opening_named(word: &[u8]) -> Option<RemarkWord>
    ensures { result ≡ opening_of word.now }
{
    if is_text(word, "bad") {
        Some(RemarkWord::Bad)
    } else if is_text(word, "deliver") {
        Some(RemarkWord::Deliver)
    } else if is_text(word, "level") {
        Some(RemarkWord::Level)
    } else if is_text(word, "reach") {
        Some(RemarkWord::Reach)
    } else {
        None
    }
}

#[tactic(auto, unfolding(crate::specs::Remarks::ending_of))]
fn ending_named(word: &[u8]) -> Option<Ending>
    ensures { result ≡ ending_of word.now }
{
    if is_text(word, "steps") {
        Some(Ending::Steps)
    } else if is_text(word, "no") {
        Some(Ending::No)
    } else {
        None
    }
}

// Takes a reason.
#[tactic(auto, unfolding(line_words::specs::Reading::word_at))]
fn reason_at(line: &mut Words<'_>) -> Option<Reason>
    ensures { Gives result line.new (word_at reason_of line.old) }
{
    reason_named(line.next()?)
}

// Takes the word that a remark begins with.
#[tactic(auto, unfolding(line_words::specs::Reading::word_at))]
fn opening_at(line: &mut Words<'_>) -> Option<RemarkWord>
    ensures { Gives result line.new (word_at opening_of line.old) }
{
    opening_named(line.next()?)
}

// Takes the word that an outcome begins with.
#[tactic(auto, unfolding(line_words::specs::Reading::word_at))]
fn ending_at(line: &mut Words<'_>) -> Option<Ending>
    ensures { Gives result line.new (word_at ending_of line.old) }
{
    ending_named(line.next()?)
}

#[tactic(auto, unfolding(crate::specs::Remarks::no_statement_at))]
fn no_statement(line: &mut Words<'_>) -> Option<Remark>
    ensures { Gives result line.new (no_statement_at line.old) }
{
    let number = number_at(line)?;
    expect(line, "->")?;
    expect(line, "refused")?;
    expect(line, "16")?;
    expect(line, "no")?;
    expect(line, "statement")?;
    Some(Remark::NoStatement { number })
}

#[tactic(auto, unfolding(crate::specs::Remarks::level_at))]
fn level(line: &mut Words<'_>, fields: &Fields<'_>) -> Option<Remark>
    ensures { Gives result line.new (level_at fields.now line.old) }
{
    let field = field_at(line, fields)?;
    let kind = kind_at(line)?;
    expect(line, "->")?;
    expect(line, "moves")?;
    let moves = number_at(line)?;
    Some(Remark::Level { field, kind, moves })
}

#[tactic(auto, unfolding(crate::specs::Remarks::outcome_after))]
fn outcome_of(line: &mut Words<'_>, ending: Ending) -> Option<ReachEnd>
    ensures { Gives result line.new (outcome_after ending line.old) }
{
    match ending {
        Ending::Steps => {
            let steps = number_at(line)?;
            Some(ReachEnd::Steps { steps })
        }
        Ending::No => {
            let reason = reason_at(line)?;
            Some(ReachEnd::Unreached { reason })
        }
    }
}

#[tactic(auto, unfolding(crate::specs::Remarks::outcome_at))]
fn any_outcome(line: &mut Words<'_>) -> Option<ReachEnd>
    ensures { Gives result line.new (outcome_at line.old) }
{
    let ending = ending_at(line)?;
    outcome_of(line, ending)
}

#[tactic(auto, unfolding(crate::specs::Remarks::reach_at))]
fn reach(line: &mut Words<'_>, fields: &Fields<'_>) -> Option<Remark>
    ensures { Gives result line.new (reach_at fields.now line.old) }
{
    let site = site_at(line)?;
    let field = field_at(line, fields)?;
    let target = signed_at(line)?;
    expect(line, "->")?;
    let outcome = any_outcome(line)?;
    Some(Remark::Reach {
        site,
        field,
        target,
        outcome,
    })
}

#[tactic(auto, unfolding(crate::specs::Remarks::remark_after))]
fn rest_of(line: &mut Words<'_>, fields: &Fields<'_>, opening: RemarkWord) -> Option<Remark>
    ensures { Gives result line.new (remark_after fields.now opening line.old) }
{
    match opening {
        RemarkWord::Bad => {
            expect(line, "line")?;
            Some(Remark::BadLine)
        }
        RemarkWord::Deliver => no_statement(line),
        RemarkWord::Level => level(line, fields),
        RemarkWord::Reach => reach(line, fields),
    }
}

#[tactic(auto, unfolding(crate::specs::Remarks::remark_at))]
fn any_remark(line: &mut Words<'_>, fields: &Fields<'_>) -> Option<Remark>
    ensures { Gives result line.new (remark_at fields.now line.old) }
{
    let opening = opening_at(line)?;
    rest_of(line, fields, opening)
}

// The remark that a line spells, whether or not its site and field are in the schema.
fn read_remark(schema: &Schema, line: &[u8]) -> Option<Remark>
    ensures found { IfSome result (λ remark. line.now ≡ remark_text schema.now remark) }
    ensures fits { IfSome result RemarkFits }
    ensures only { (remark : RemarkType) → RemarkFits remark
        → line.now ≡ remark_text schema.now remark
        → result ≡ Some remark }
{
    let mut words = Words::new(line);
    let remark = any_remark(&mut words, &Fields::new(schema))?;
    if words.is_empty() { Some(remark) } else { None }
}

// The site and the field that a remark names are in the schema.
#[tactic(auto, unfolding(crate::specs::Remarks::is_in_schema))]
fn is_in_schema(schema: &Schema, remark: Remark) -> bool
    ensures { result ≡ is_in_schema schema.now remark }
{
    match remark {
        Remark::BadLine => true,
        Remark::NoStatement { .. } => true,
        Remark::Level { field, .. } => field.0 < schema.fields(),
        Remark::Reach { site, field, .. } => site.0 < schema.sites() && field.0 < schema.fields(),
    }
}

/// Whether a line, without its LF, is a remark: what a run tells of a line, where that is no entry.
/// Costs a pass over the line and at most one look-up in a map, and no memory.
pub(crate) fn is_remark(schema: &Schema, line: &[u8]) -> bool
    ensures { Decides result (IsRemark schema.now line.now) }
{
    if line.len() > MAX_LINE {
        return false;
    }
    match read_remark(schema, line) {
        Some(remark) => is_in_schema(schema, remark),
        None => false,
    }
}
