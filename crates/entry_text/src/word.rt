//! The readers of one word.

ghost use Rattle.std.specs.Prelude.{◌≡◌, ◌<◌, ◌^◌, [], ◌∷◌, MatchBool, IfSome, Some, length};
ghost use Rattle.field_bounds.specs.declared.kind.Kind.{Kind as KindType};
ghost use Rattle.field_bounds.specs.declared.id.FieldNo.{FieldNo as FieldNumber};
ghost use Rattle.field_bounds.specs.declared.id.TxnId.{TxnId as Txn};
ghost use Rattle.field_bounds.specs.Limits.{IsSchema};
ghost use Rattle.line_words.specs.Words.{words};
ghost use Rattle.entry_text.specs.Taking.{IsOther, limited, id_from};
ghost use Rattle.line_words.specs.Reading.{Gives, word_at, below, number_of, signed_of, only_of};
ghost use Rattle.entry_text.specs.Spelling.{id_text, kind_text, field_text};
ghost use Rattle.entry_text.specs.Ranges.{IdFits, FieldFits};
ghost use Rattle.entry_text.specs.Reading.{site_of, id_of, kind_of, field_of};

use field_bounds::{FieldNo, Kind, Schema, SiteNo, TxnId};
use line_words::{Words, is_text, read_dotted, read_number};
use std::marker::Model;

/// Takes the next word where it is this text, which has no space.
#[inline(always)]
pub(crate) fn named(line: &mut Words<'_>, text: &str) -> bool
    requires { words text.now ≡ text.now ∷ [] }
    ensures { MatchBool result (line.old ≡ text.now ∷ line.new)
        ((line.new ≡ line.old) × IsOther text.now line.old) }
{
    line.take_text(text)
}

// The number, where it is one of u16.
#[inline(always)]
pub(crate) fn small_number(number: u64) -> Option<u16>
    ensures { result ≡ limited (2 ^ 16) number }
{
    if number > u64::from(u16::MAX) {
        return None;
    }
    Some(number as u16)
}

// The number, where it is one of u32.
#[inline(always)]
fn medium_number(number: u64) -> Option<u32>
    ensures { result ≡ limited (2 ^ 32) number }
{
    if number > u64::from(u32::MAX) {
        return None;
    }
    Some(number as u32)
}

/// The fields of a schema, with their number at hand. Contracts see the schema.
#[derive(Drop)]
pub struct Fields<'a> {
    schema: &'a Schema,
    count: u16,
}

impl<'a> Model for Fields<'a> {
    ghost use Rattle.std.specs.Prelude.{◌≡◌, length};
    ghost use Rattle.field_bounds.specs.Schema.{SchemaValue};

    ghost Value = { SchemaValue };

    ghost view = { λ f. f.schema.now };

    ghost invariant = { λ f. f.count ≡ length f.schema.now.fields };
}

impl<'a> Fields<'a> {
    /// The fields of the schema. Costs no memory.
    pub fn new(schema: &'a Schema) -> Fields<'a>
        ensures schema { result ≡ schema.now }
        ensures limits { IsSchema schema.now }
    {
        Fields {
            schema,
            count: schema.fields(),
        }
    }

    /// How many fields there are.
    #[inline(always)]
    pub(crate) fn count(&self) -> u16
        ensures { result ≡ length self.now.fields }
    {
        self.count
    }

    /// The name of a field.
    #[inline(always)]
    pub(crate) fn name(&self, field: FieldNo) -> &str
        requires { field.0 < length self.now.fields }
        ensures { result.now ≡ field_text self.now field }
    {
        self.schema.name(field)
    }

    /// The field that the word spells.
    #[tactic(auto, unfolding(crate::specs::Reading::field_of))]
    pub(crate) fn read(&self, word: &[u8]) -> Option<FieldNo>
        ensures { result ≡ field_of self.now word.now }
    {
        match word {
            [b'#', digits @ ..] => {
                let number = small_number(read_number(digits)?)?;
                if number < self.count {
                    return None;
                }
                Some(FieldNo(number))
            }
            _ => self.schema.field_no_of(word),
        }
    }
}

/// The kind that the word spells: `lower` or `raise`. None where it spells none. Costs no memory.
#[tactic(auto, unfolding(crate::specs::Reading::kind_of))]
pub fn read_kind(word: &[u8]) -> Option<Kind>
    ensures value { result ≡ kind_of word.now }
    ensures found { IfSome result (λ k. word.now ≡ kind_text k) }
    ensures only { (k : KindType) → word.now ≡ kind_text k → result ≡ Some k }
{
    if is_text(word, "lower") {
        Some(Kind::Lower)
    } else if is_text(word, "raise") {
        Some(Kind::Raise)
    } else {
        None
    }
}

/// The field that the word spells: a name of the schema, or `#` and a number from the count of
/// fields to 65535. So each field number has one spelling under a schema. None where the word
/// spells none. Costs one look-up in a map, and no memory.
pub fn read_field(schema: &Schema, word: &[u8]) -> Option<FieldNo>
    ensures found { IfSome result (λ f. word.now ≡ field_text schema.now f) }
    ensures only { (f : FieldNumber) → FieldFits f → word.now ≡ field_text schema.now f
        → result ≡ Some f }
{
    Fields::new(schema).read(word)
}

/// Takes the next word as a number, 0 to 18,446,744,073,709,551,615, or tells None where it is no
/// such number or no word is left. Costs a pass over the word, and no memory.
#[inline]
#[tactic(auto, unfolding(line_words::specs::Reading::word_at))]
pub fn number_at(line: &mut Words<'_>) -> Option<u64>
    ensures word { Gives result line.new (word_at (number_of (2 ^ 64)) line.old) }
{
    line.next_number()
}

// Takes a number of u16.
#[inline(always)]
fn small_at(line: &mut Words<'_>) -> Option<u16>
    ensures { Gives result line.new (word_at (below (2 ^ 16)) line.old) }
{
    let number = line.next_number()?;
    small_number(number)
}

/// Takes an epoch: a number of u32.
pub(crate) fn epoch_at(line: &mut Words<'_>) -> Option<u32>
    ensures { Gives result line.new (word_at (below (2 ^ 32)) line.old) }
{
    let number = line.next_number()?;
    medium_number(number)
}

/// Takes the next word as a number with a sign, -9,223,372,036,854,775,808 to
/// 9,223,372,036,854,775,807, or tells None where it is no such number or no word is left. Costs a
/// pass over the word, and no memory.
#[inline]
#[tactic(auto, unfolding(line_words::specs::Reading::word_at))]
pub fn signed_at(line: &mut Words<'_>) -> Option<i64>
    ensures word { Gives result line.new (word_at signed_of line.old) }
{
    line.next_signed()
}

/// Takes the next word as a site, a number up to 65535, or tells None where it is no site or no
/// word is left. Costs a pass over the word, and no memory.
#[inline(always)]
#[tactic(auto, unfolding(line_words::specs::Reading::word_at, crate::specs::Reading::site_of))]
pub fn site_at(line: &mut Words<'_>) -> Option<SiteNo>
    ensures word { Gives result line.new (word_at site_of line.old) }
{
    Some(SiteNo(small_at(line)?))
}

// The transaction of an epoch and a number.
#[inline(always)]
fn txn_from(epoch: u64, number: u64) -> Option<TxnId>
    ensures { result ≡ id_from (epoch, number) }
{
    let epoch = medium_number(epoch)?;
    let number = medium_number(number)?;
    Some(TxnId { epoch, number })
}

// The transaction that the word spells.
#[inline(always)]
#[tactic(auto, using(crate::proofs::Taken::id_is))]
fn txn_of(word: &[u8]) -> Option<TxnId>
    ensures { result ≡ id_of word.now }
{
    let (epoch, number) = read_dotted(word)?;
    txn_from(epoch, number)
}

/// Takes a transaction: `EPOCH.NUMBER`, each a number of u32.
#[inline(always)]
pub(crate) fn txn_at(line: &mut Words<'_>) -> Option<TxnId>
    ensures { Gives result line.new (word_at id_of line.old) }
{
    let (epoch, number) = line.next_dotted()?;
    txn_from(epoch, number)
}

/// The transaction that the word spells: `EPOCH.NUMBER`, each a number from 0 to 4,294,967,295.
/// None where the word spells none. Costs a pass over the word, and no memory.
// Not inlined: few lines ask for one by itself, and it would make the answer to each other line dearer.
#[inline(never)]
pub fn read_txn(word: &[u8]) -> Option<TxnId>
    ensures found { IfSome result (λ t. word.now ≡ id_text t) }
    ensures fits { IfSome result (λ t. IdFits t) }
    ensures only { (t : Txn) → IdFits t → word.now ≡ id_text t → result ≡ Some t }
{
    txn_of(word)
}

/// Takes the next word as a kind, `lower` or `raise`, or tells None where it is no kind or no word
/// is left. Costs no memory.
#[tactic(auto, unfolding(line_words::specs::Reading::word_at, crate::specs::Reading::kind_of))]
pub fn kind_at(line: &mut Words<'_>) -> Option<Kind>
    ensures word { Gives result line.new (word_at kind_of line.old) }
{
    if named(line, "lower") {
        return Some(Kind::Lower);
    }
    if named(line, "raise") {
        return Some(Kind::Raise);
    }
    // Neither word stands here, so this tells None: it takes off the word that does.
    read_kind(line.next()?)
}

/// Takes the next word as a field, or tells None where it spells none or no word is left. Costs one
/// look-up in a map, and no memory.
#[inline(always)]
#[tactic(auto, unfolding(line_words::specs::Reading::word_at))]
pub fn field_at(line: &mut Words<'_>, fields: &Fields<'_>) -> Option<FieldNo>
    ensures word { Gives result line.new (word_at (field_of fields.now) line.old) }
{
    fields.read(line.next()?)
}

/// Takes the next word where it is this text, or tells None where it is another or no word is left.
/// Costs a pass over the word, and no memory.
#[tactic(auto, unfolding(line_words::specs::Reading::word_at, line_words::specs::Reading::only_of))]
pub fn expect(line: &mut Words<'_>, text: &str) -> Option<()>
    ensures word { Gives result line.new (word_at (only_of text.now) line.old) }
{
    if is_text(line.next()?, text) {
        Some(())
    } else {
        None
    }
}

/// The same of a text that has no space.
#[inline(always)]
pub(crate) fn expect_word(line: &mut Words<'_>, text: &str) -> Option<()>
    requires { words text.now ≡ text.now ∷ [] }
    ensures { Gives result line.new (word_at (only_of text.now) line.old) }
{
    if named(line, text) { Some(()) } else { None }
}
