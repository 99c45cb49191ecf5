//! Refusals as text.

ghost use Rattle.std.specs.Prelude.{◌≡◌, ◌^◌, ◌++◌, [], ◌∷◌, MatchOption, codes};
ghost use Rattle.std.specs.Fmt.{decimal};
ghost use Rattle.field_bounds.specs.declared.entry.Refusal.TheVariants.{Short, LedgerFull, Forged};
ghost use Rattle.line_words.specs.Words.{line, words};
ghost use Rattle.line_words.specs.Reading.{Gives, number_of, only_of};
ghost use Rattle.entry_text.specs.Reading.{read_beside, phrase, two_words, three_words};
ghost use Rattle.entry_text.specs.Replies.{refusal_table, refusal_at};
ghost use Rattle.entry_text.specs.Spelling.{refusal_words};

use crate::word::{expect_word, number_at};
use field_bounds::Refusal;
use line_words::Words;

/// The words of a refusal, and the number that it tells behind them.
pub(crate) fn refusal_parts(refusal: Refusal) -> (&'static str, Option<u64>)
    ensures { MatchOption result.1
        (result.0.now ≡ line (codes "refused" ∷ refusal_words refusal))
        (λ told. result.0.now ++ 32 ∷ decimal told ≡ line (codes "refused" ∷ refusal_words refusal)) }
{
    match refusal {
        Refusal::Down => ("refused 1 down", None),
        Refusal::NoSite => ("refused 2 no site", None),
        Refusal::NoField => ("refused 3 no field", None),
        Refusal::NoTransaction => ("refused 4 no transaction", None),
        Refusal::Zero => ("refused 5 zero", None),
        Refusal::TooLarge => ("refused 6 too large", None),
        Refusal::Short { share } => ("refused 7 short", Some(share)),
        Refusal::SelfGift => ("refused 8 self gift", None),
        Refusal::LedgerFull { total } => ("refused 9 ledger full", Some(total)),
        Refusal::NotYours => ("refused 10 not yours", None),
        Refusal::Forged { room } => ("refused 11 forged", Some(room)),
        Refusal::TooManyOpen => ("refused 12 too many open", None),
        Refusal::TooManyEscrows => ("refused 13 too many escrows", None),
        Refusal::NumbersFull => ("refused 14 numbers full", None),
        Refusal::NothingGiven => ("refused 15 nothing given", None),
    }
}

/// Takes a word that has to be this, and gives the refusal.
fn one(line: &mut Words<'_>, only: &str, refusal: Refusal) -> Option<Refusal>
    requires { words only.now ≡ only.now ∷ [] }
    ensures { Gives result line.new (phrase (only.now ∷ []) refusal line.old) }
{
    expect_word(line, only)?;
    Some(refusal)
}

/// The same with two words.
fn two(line: &mut Words<'_>, first: &str, second: &str, refusal: Refusal) -> Option<Refusal>
    requires first { words first.now ≡ first.now ∷ [] }
    requires second { words second.now ≡ second.now ∷ [] }
    ensures { Gives result line.new (phrase (first.now ∷ second.now ∷ []) refusal line.old) }
{
    expect_word(line, first)?;
    one(line, second, refusal)
}

/// The same with three words.
fn three(
    line: &mut Words<'_>,
    first: &str,
    second: &str,
    third: &str,
    refusal: Refusal,
) -> Option<Refusal>
    requires first { words first.now ≡ first.now ∷ [] }
    requires second { words second.now ≡ second.now ∷ [] }
    requires third { words third.now ≡ third.now ∷ [] }
    ensures { Gives result line.new
        (phrase (first.now ∷ second.now ∷ third.now ∷ []) refusal line.old) }
{
    expect_word(line, first)?;
    two(line, second, third, refusal)
}

/// Takes the words of a refusal that tells a share.
fn short(line: &mut Words<'_>) -> Option<Refusal>
    ensures { Gives result line.new (two_words (only_of (codes "short")) (number_of (2 ^ 64))
        (λ a share. Short share) line.old) }
{
    expect_word(line, "short")?;
    let share = number_at(line)?;
    Some(Refusal::Short { share })
}

/// Takes the words of a refusal that tells the total of a full ledger.
fn ledger_full(line: &mut Words<'_>) -> Option<Refusal>
    ensures { Gives result line.new (three_words (only_of (codes "ledger"))
        (only_of (codes "full")) (number_of (2 ^ 64)) (λ a b total. LedgerFull total) line.old) }
{
    expect_word(line, "ledger")?;
    expect_word(line, "full")?;
    let total = number_at(line)?;
    Some(Refusal::LedgerFull { total })
}

/// Takes the words of a refusal that tells the room that was left.
fn forged(line: &mut Words<'_>) -> Option<Refusal>
    ensures { Gives result line.new (two_words (only_of (codes "forged")) (number_of (2 ^ 64))
        (λ a room. Forged room) line.old) }
{
    expect_word(line, "forged")?;
    let room = number_at(line)?;
    Some(Refusal::Forged { room })
}

/// Takes the words that follow the number of a refusal.
fn numbered(line: &mut Words<'_>, number: u64) -> Option<Refusal>
    ensures { Gives result line.new (read_beside refusal_table (decimal number) line.old) }
{
    match number {
        1 => one(line, "down", Refusal::Down),
        2 => two(line, "no", "site", Refusal::NoSite),
        3 => two(line, "no", "field", Refusal::NoField),
        4 => two(line, "no", "transaction", Refusal::NoTransaction),
        5 => one(line, "zero", Refusal::Zero),
        6 => two(line, "too", "large", Refusal::TooLarge),
        7 => short(line),
        8 => two(line, "self", "gift", Refusal::SelfGift),
        9 => ledger_full(line),
        10 => two(line, "not", "yours", Refusal::NotYours),
        11 => forged(line),
        12 => three(line, "too", "many", "open", Refusal::TooManyOpen),
        13 => three(line, "too", "many", "escrows", Refusal::TooManyEscrows),
        14 => two(line, "numbers", "full", Refusal::NumbersFull),
        15 => two(line, "nothing", "given", Refusal::NothingGiven),
        _ => None,
    }
}

/// Takes a refusal: its number and its words.
pub(crate) fn refusal(line: &mut Words<'_>) -> Option<Refusal>
    ensures { Gives result line.new (refusal_at line.old) }
{
    let number = number_at(line)?;
    numbered(line, number)
}
