//! A line as words with one space between them.

ghost use Rattle.std.specs.Prelude.{◌≡◌, ◌==◌, ◌^◌, [], ◌∷◌, ◌++◌, Some, MatchOption, MatchBool, ◌≢◌, ℕ, List, position};
ghost use Rattle.line_words.specs.Words.{words};
ghost use Rattle.line_words.specs.Reading.{Gives, word_at, number_of, signed_of};
ghost use Rattle.line_words.specs.Fronts.{dotted_of};

use crate::front::{left_behind, left_behind_text, number_in_front};
use crate::number::{below_zero, from_zero, read_dotted, read_number, read_signed};
use std::marker::Model;

#[inline(always)]
fn place_of_space(bytes: &[u8]) -> Option<usize>
    ensures { result ≡ position (λ b. b == 32) bytes.now }
{
    bytes.iter().position(|b| *b == b' ')
}

/// What is left of a line: its words from here on. A line is cut at each space, so that it has one
/// word more than spaces, and a word is empty where two spaces stand side by side or one stands at
/// an end. Contracts see the list of the words that are left.
#[derive(Drop)]
pub struct Words<'a> {
    left: Option<&'a [u8]>,
}

impl<'a> Model for Words<'a> {
    ghost use Rattle.std.specs.Prelude.{ℕ, List};
    ghost use Rattle.line_words.specs.Words.{words_of};

    ghost Value = { List (List ℕ) };

    ghost view = { λ w. words_of w.left };
}

impl<'a> Words<'a> {
    /// The words of the line. Costs no memory.
    pub fn new(line: &'a [u8]) -> Words<'a>
        ensures cut { result ≡ words line.now }
    {
        Words { left: Some(line) }
    }

    /// No word is left. Costs no memory.
    pub fn is_empty(&self) -> bool
        ensures none { MatchBool result (self.now ≡ []) (self.now ≢ []) }
    {
        self.left.is_none()
    }

    /// Takes the next word, or tells None where no word is left. Costs a pass over the word, and
    /// no memory.
    #[inline(always)]
    pub fn next(&mut self) -> Option<&'a [u8]>
        ensures first { MatchOption result (self.old ≡ []) (λ w. self.old ≡ w.now ∷ self.new) }
    {
        let bytes = self.left?;
        match place_of_space(bytes) {
            Some(at) => {
                self.left = Some(&bytes[at + 1..]);
                Some(&bytes[..at])
            }
            None => {
                self.left = None;
                Some(bytes)
            }
        }
    }

    // Takes the next word where at most 19 digits spell it as a number, and else nothing.
    #[inline(always)]
    fn short_number(&mut self) -> Option<u64>
        ensures { MatchOption result (self.new ≡ self.old)
            (λ n. word_at (number_of (2 ^ 64)) self.old ≡ Some (n, self.new)) }
    {
        let bytes = self.left?;
        let (number, count) = number_in_front(bytes)?;
        let left = left_behind(bytes, count)?;
        self.left = left;
        Some(number)
    }

    /// Takes the next word as a number, 0 to 18,446,744,073,709,551,615, or tells None where it is
    /// no such number or no word is left. Costs a pass over the word, and no memory.
    #[inline(always)]
    pub fn next_number(&mut self) -> Option<u64>
        ensures word { Gives result self.new (word_at (number_of (2 ^ 64)) self.old) }
    {
        if let Some(number) = self.short_number() {
            return Some(number);
        }
        self.cut_number()
    }

    // The same, the word cut first.
    #[tactic(auto, unfolding(crate::specs::Reading::word_at))]
    fn cut_number(&mut self) -> Option<u64>
        ensures { Gives result self.new (word_at (number_of (2 ^ 64)) self.old) }
    {
        read_number(self.next()?)
    }

    // Takes the next word where a minus and at most 19 digits spell it as a number below 0, and
    // else nothing.
    #[inline(always)]
    fn short_negative(&mut self) -> Option<i64>
        ensures { MatchOption result (self.new ≡ self.old)
            (λ z. word_at signed_of self.old ≡ Some (z, self.new)) }
    {
        let bytes = self.left?;
        let [b'-', digits @ ..] = bytes else {
            return None;
        };
        let (size, count) = number_in_front(digits)?;
        let number = below_zero(size)?;
        let left = left_behind(bytes, count + 1)?;
        self.left = left;
        Some(number)
    }

    // Takes the next word where at most 19 digits spell it as an i64, and else nothing.
    #[inline(always)]
    fn short_positive(&mut self) -> Option<i64>
        ensures { MatchOption result (self.new ≡ self.old)
            (λ z. word_at signed_of self.old ≡ Some (z, self.new)) }
    {
        let bytes = self.left?;
        let (size, count) = number_in_front(bytes)?;
        let number = from_zero(size)?;
        let left = left_behind(bytes, count)?;
        self.left = left;
        Some(number)
    }

    /// Takes the next word as a number with a sign, -9,223,372,036,854,775,808 to
    /// 9,223,372,036,854,775,807, or tells None where it is no such number or no word is left.
    /// Costs a pass over the word, and no memory.
    #[inline]
    pub fn next_signed(&mut self) -> Option<i64>
        ensures word { Gives result self.new (word_at signed_of self.old) }
    {
        if let Some(number) = self.short_positive() {
            return Some(number);
        }
        if let Some(number) = self.short_negative() {
            return Some(number);
        }
        self.cut_signed()
    }

    // The same, the word cut first.
    #[tactic(auto, unfolding(crate::specs::Reading::word_at))]
    fn cut_signed(&mut self) -> Option<i64>
        ensures { Gives result self.new (word_at signed_of self.old) }
    {
        read_signed(self.next()?)
    }

    // Takes the next word where it is two numbers of at most 19 digits with a dot between them,
    // and else nothing.
    #[inline(always)]
    fn short_dotted(&mut self) -> Option<(u64, u64)>
        ensures { MatchOption result (self.new ≡ self.old)
            (λ pair. word_at dotted_of self.old ≡ Some (pair, self.new)) }
    {
        let bytes = self.left?;
        let (first, dot) = number_in_front(bytes)?;
        if dot == bytes.len() || bytes[dot] != b'.' {
            return None;
        }
        let (second, count) = number_in_front(&bytes[dot + 1..])?;
        let left = left_behind(bytes, dot + 1 + count)?;
        self.left = left;
        Some((first, second))
    }

    /// Takes the next word as two numbers with a dot between them, each 0 to
    /// 18,446,744,073,709,551,615, or tells None where it is no such word or no word is left. Costs
    /// a pass over the word, and no memory.
    #[inline]
    pub fn next_dotted(&mut self) -> Option<(u64, u64)>
        ensures word { Gives result self.new (word_at dotted_of self.old) }
    {
        if let Some(pair) = self.short_dotted() {
            return Some(pair);
        }
        self.cut_dotted()
    }

    // The same, the word cut first.
    #[tactic(auto, unfolding(crate::specs::Reading::word_at))]
    fn cut_dotted(&mut self) -> Option<(u64, u64)>
        ensures { Gives result self.new (word_at dotted_of self.old) }
    {
        read_dotted(self.next()?)
    }

    /// Takes the words of the text, with one space between them, where these are the next; else
    /// takes nothing, and tells false. Costs a pass over the text, and no memory.
    #[inline(always)]
    pub fn take_text(&mut self, text: &str) -> bool
        ensures taken { MatchBool result (self.old ≡ words text.now ++ self.new)
            ((self.new ≡ self.old)
            × ((ws : List (List ℕ)) → self.old ≢ words text.now ++ ws)) }
    {
        let Some(bytes) = self.left else {
            return false;
        };
        let Some(left) = left_behind_text(bytes, text) else {
            return false;
        };
        self.left = left;
        true
    }
}
