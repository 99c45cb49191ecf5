//! Commands that a line begins with, and the bytes that follow them: read in one look at each byte,
//! with no cut into words.
//!
//! Each reader here gives up, with None, at what it doesn't know; the readers of words say then
//! what a line spells. All are inlined into one function, so that what is left of the line stays in
//! registers.

ghost use Rattle.std.specs.Prelude.{◌≡◌, ◌<◌, ◌≤◌, ◌∷◌, ◌++◌, IfSome, length, slice_index_or};
ghost use Rattle.field_bounds.specs.Limits.{IsSchema};
ghost use Rattle.std.specs.Fmt.{decimal};
ghost use Rattle.line_words.specs.Words.{line};
ghost use Rattle.entry_text.specs.Ranges.{SiteFits, IdFits, CommandFits};
ghost use Rattle.entry_text.specs.Spelling.{id_text, kind_text, field_text, command_words, command_text};

use crate::word::{Fields, small_number};
use field_bounds::{Command, FieldNo, Kind, SiteNo, Statement, TxnId};
use line_words::{behind, first_number, first_signed, is_text, number_and};

// Up to so many fields, a look at each name costs less than a look-up in a map.
const FEW_FIELDS: u16 = 4;

// A site that the bytes begin with, and what follows the space behind it.
#[inline(always)]
fn first_site(bytes: &[u8]) -> Option<(SiteNo, &[u8])>
    ensures { IfSome result (λ s. bytes.now ≡ decimal s.0.0 ++ 32 ∷ s.1.now) }
{
    let (number, rest) = number_and(bytes, b' ')?;
    let site = small_number(number)?;
    Some((SiteNo(site), rest))
}

// A number of u32 that the bytes begin with, and what follows the mark behind it. Here and below the
// number is tested where it stands: an Option between costs 6 instructions for each transaction.
#[inline(always)]
fn medium_and(bytes: &[u8], mark: u8) -> Option<(u32, &[u8])>
    ensures { IfSome result (λ n. bytes.now ≡ decimal n.0 ++ mark ∷ n.1.now) }
{
    let (number, rest) = number_and(bytes, mark)?;
    if number > u64::from(u32::MAX) {
        return None;
    }
    Some((number as u32, rest))
}

// The same with no mark behind it.
#[inline(always)]
fn first_medium(bytes: &[u8]) -> Option<(u32, &[u8])>
    ensures { IfSome result (λ n. bytes.now ≡ decimal n.0 ++ n.1.now) }
{
    let (number, rest) = first_number(bytes)?;
    if number > u64::from(u32::MAX) {
        return None;
    }
    Some((number as u32, rest))
}

/// A transaction that the bytes begin with, and what follows it.
#[inline(always)]
pub(crate) fn first_txn(bytes: &[u8]) -> Option<(TxnId, &[u8])>
    ensures cut { IfSome result (λ t. bytes.now ≡ id_text t.0 ++ t.1.now) }
    ensures fits { IfSome result (λ t. IdFits t.0) }
{
    let (epoch, rest) = medium_and(bytes, b'.')?;
    let (number, rest) = first_medium(rest)?;
    Some((TxnId { epoch, number }, rest))
}

#[inline(always)]
fn first_kind(bytes: &[u8]) -> Option<(Kind, &[u8])>
    ensures { IfSome result (λ k. bytes.now ≡ kind_text k.0 ++ k.1.now) }
{
    if let Some(rest) = behind(bytes, "lower") {
        return Some((Kind::Lower, rest));
    }
    let rest = behind(bytes, "raise")?;
    Some((Kind::Raise, rest))
}

// The first space among eight bytes is at the place that this tells, where one is among them, and
// 8 where none is. It is a guess, since the reader of a field judges the word: by the test for a
// zero byte of Mycroft, after the spaces have become zeros.
#[inline(always)]
fn space_guess(bytes: &[u8; 8]) -> usize
    ensures { result ≤ 8 }
{
    let zeros = u64::from_le_bytes(*bytes) ^ 0x2020_2020_2020_2020;
    let marks = zeros.wrapping_sub(0x0101_0101_0101_0101) & !zeros & 0x8080_8080_8080_8080;
    (marks.trailing_zeros() / 8) as usize
}

// How many bytes the word in front has.
#[inline(always)]
fn word_length(bytes: &[u8]) -> usize
    ensures within { result ≤ length bytes.now }
    ensures ended { result < length bytes.now → slice_index_or bytes.now result 0 ≡ 32 }
{
    let mut at = match bytes.first_chunk::<8>() {
        Some(chunk) => space_guess(chunk),
        None => 0,
    };
    while at < bytes.len() && bytes[at] != b' ' {
        at += 1;
    }
    at
}

// What follows a name that is the word in front. The last bytes are compared first, since names are
// often alike up to these.
#[inline(always)]
fn behind_name<'a>(bytes: &'a [u8], name: &str) -> Option<&'a [u8]>
    ensures { IfSome result (λ rest. bytes.now ≡ name.now ++ rest.now) }
{
    let count = name.len();
    if count == 0 || bytes.len() < count || bytes[count - 1] != name.as_bytes()[count - 1] {
        return None;
    }
    if bytes.len() > count && bytes[count] != b' ' {
        return None;
    }
    if !is_text(&bytes[..count], name) {
        return None;
    }
    Some(&bytes[count..])
}

// The field whose name is the word in front, found by a look at each name.
#[inline(always)]
fn field_by_looks<'a>(fields: &Fields<'_>, bytes: &'a [u8]) -> Option<(FieldNo, &'a [u8])>
    ensures { IfSome result (λ f. bytes.now ≡ field_text fields.now f.0 ++ f.1.now) }
{
    for number in 0..fields.count() {
        let field = FieldNo(number);
        if let Some(rest) = behind_name(bytes, fields.name(field)) {
            return Some((field, rest));
        }
    }
    None
}

// The field whose name is the word in front, found in a map, or the field of a number.
#[inline(always)]
fn field_by_word<'a>(fields: &Fields<'_>, bytes: &'a [u8]) -> Option<(FieldNo, &'a [u8])>
    requires { IsSchema fields.now }
    ensures { IfSome result (λ f. bytes.now ≡ field_text fields.now f.0 ++ f.1.now) }
{
    let end = word_length(bytes);
    let field = fields.read(&bytes[..end])?;
    Some((field, &bytes[end..]))
}

// The field that the word in front names.
#[inline(always)]
fn first_field<'a>(fields: &Fields<'_>, bytes: &'a [u8]) -> Option<(FieldNo, &'a [u8])>
    requires { IsSchema fields.now }
    ensures { IfSome result (λ f. bytes.now ≡ field_text fields.now f.0 ++ f.1.now) }
{
    if fields.count() <= FEW_FIELDS {
        return field_by_looks(fields, bytes);
    }
    field_by_word(fields, bytes)
}

// ---- commands, each from its name on

#[inline(always)]
fn first_escrow<'a>(fields: &Fields<'_>, bytes: &'a [u8]) -> Option<(Command, &'a [u8])>
    requires { IsSchema fields.now }
    ensures cut { IfSome result (λ c. bytes.now ≡ line (command_words fields.now c.0) ++ c.1.now) }
    ensures fits { IfSome result (λ c. CommandFits c.0) }
{
    let (txn, rest) = first_txn(behind(bytes, "escrow ")?)?;
    let (field, rest) = first_field(fields, behind(rest, " ")?)?;
    let (change, rest) = first_signed(behind(rest, " ")?)?;
    Some((Command::Escrow { txn, field, change }, rest))
}

#[inline(always)]
fn first_give<'a>(fields: &Fields<'_>, bytes: &'a [u8]) -> Option<(Command, &'a [u8])>
    requires { IsSchema fields.now }
    ensures cut { IfSome result (λ c. bytes.now ≡ line (command_words fields.now c.0) ++ c.1.now) }
    ensures fits { IfSome result (λ c. CommandFits c.0) }
{
    let (to, rest) = first_site(behind(bytes, "give ")?)?;
    let (field, rest) = first_field(fields, rest)?;
    let (kind, rest) = first_kind(behind(rest, " ")?)?;
    let (amount, rest) = first_number(behind(rest, " ")?)?;
    let command = Command::Give {
        to,
        field,
        kind,
        amount,
    };
    Some((command, rest))
}

#[inline(always)]
fn first_accept<'a>(fields: &Fields<'_>, bytes: &'a [u8]) -> Option<(Command, &'a [u8])>
    requires { IsSchema fields.now }
    ensures cut { IfSome result (λ c. bytes.now ≡ line (command_words fields.now c.0) ++ c.1.now) }
    ensures fits { IfSome result (λ c. CommandFits c.0) }
{
    let (from, rest) = first_site(behind(bytes, "accept ")?)?;
    let (to, rest) = first_site(rest)?;
    let (field, rest) = first_field(fields, rest)?;
    let (kind, rest) = first_kind(behind(rest, " ")?)?;
    let (total, rest) = first_number(behind(rest, " ")?)?;
    let command = Command::Accept(Statement {
        from,
        to,
        field,
        kind,
        total,
    });
    Some((command, rest))
}

#[inline(always)]
fn first_tighten<'a>(fields: &Fields<'_>, bytes: &'a [u8]) -> Option<(Command, &'a [u8])>
    requires { IsSchema fields.now }
    ensures cut { IfSome result (λ c. bytes.now ≡ line (command_words fields.now c.0) ++ c.1.now) }
    ensures fits { IfSome result (λ c. CommandFits c.0) }
{
    let (field, rest) = first_field(fields, behind(bytes, "tighten ")?)?;
    let (kind, rest) = first_kind(behind(rest, " ")?)?;
    let (amount, rest) = first_number(behind(rest, " ")?)?;
    let command = Command::Tighten {
        field,
        kind,
        amount,
    };
    Some((command, rest))
}

// A command, found by its first byte. All stand in one function, since a call that hands out a
// command would send each command through memory.
#[inline(always)]
fn first_command<'a>(fields: &Fields<'_>, bytes: &'a [u8]) -> Option<(Command, &'a [u8])>
    requires { IsSchema fields.now }
    ensures cut { IfSome result (λ c. bytes.now ≡ line (command_words fields.now c.0) ++ c.1.now) }
    ensures fits { IfSome result (λ c. CommandFits c.0) }
{
    match bytes {
        [b'e', ..] => first_escrow(fields, bytes),
        [b'b', ..] => {
            let rest = behind(bytes, "begin")?;
            Some((Command::Begin, rest))
        }
        [b'c', ..] => {
            let (txn, rest) = first_txn(behind(bytes, "commit ")?)?;
            Some((Command::Commit { txn }, rest))
        }
        [b'r', ..] => {
            let (field, rest) = first_field(fields, behind(bytes, "read ")?)?;
            Some((Command::Read { field }, rest))
        }
        [b's', ..] => {
            let (field, rest) = first_field(fields, behind(bytes, "share ")?)?;
            Some((Command::Share { field }, rest))
        }
        [b'g', ..] => first_give(fields, bytes),
        [b'a', b'c', ..] => first_accept(fields, bytes),
        [b'a', ..] => {
            let (txn, rest) = first_txn(behind(bytes, "abort ")?)?;
            Some((Command::Abort { txn }, rest))
        }
        [b't', ..] => first_tighten(fields, bytes),
        _ => None,
    }
}

/// A site and a command that the line begins with, and what follows them. None where the line
/// begins with none, and where only the readers of words tell which.
#[inline(always)]
pub(crate) fn site_command<'a>(
    fields: &Fields<'_>,
    bytes: &'a [u8],
) -> Option<(SiteNo, Command, &'a [u8])>
    requires { IsSchema fields.now }
    ensures cut { IfSome result (λ asked. bytes.now
        ≡ command_text fields.now asked.0 asked.1 ++ asked.2.now) }
    ensures fits { IfSome result (λ asked. SiteFits asked.0 × CommandFits asked.1) }
{
    let (site, rest) = first_site(bytes)?;
    let (command, rest) = first_command(fields, rest)?;
    Some((site, command, rest))
}
