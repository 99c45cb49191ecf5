//! Writing records.

ghost use Rattle.std.specs.Prelude.{◌≡◌, ◌+◌, ◌<◌, ◌/◌, ◌%◌, ◌++◌, ◌∷◌, [], OnOk, IfOk};
ghost use Rattle.std.specs.Fmt.{decimal, signed_decimal};
ghost use Rattle.std.specs.List.{flat_map};
ghost use Rattle.kept_records.specs.declared.record.Record.TheVariants.{Commit};
ghost use Rattle.kept_records.specs.Keeping.{with_due};
ghost use Rattle.kept_records.specs.Text.{text, letter_of, words_of, words_spaced, kind_word, escrow_words, total_words, cut_words, rights_words, group_words, cuts_words, summary_words, IsRecord};
ghost use Rattle.kept_records.specs.Logs.{TearsClean};
ghost use Rattle.kept_records.specs.Summary.{summary_told};

use crate::record::Record;
use crate::summary::Summary;
use crate::total::{Cut, Total};
use field_bounds::{Escrow, FieldNo, Kind, SiteNo, TxnId};
use itoa::Buffer;
use std::alloc::{AllocError, Global};

// Adds a space and a word.
#[inline(always)]
fn push_word(line: &mut Vec<u8>, word: &[u8]) -> Result<(), AllocError>
    ensures { OnOk result (line.new.items ≡ line.old.items ++ 32 ∷ word.now) }
{
    line.push(b' ')?;
    line.extend_from_slice(word)?;
    Ok(())
}

// Adds a digit.
#[inline(always)]
fn push_digit(line: &mut Vec<u8>, digit: u64) -> Result<(), AllocError>
    requires { digit < 10 }
    ensures { OnOk result (line.new.items ≡ line.old.items ++ (48 + digit) ∷ []) }
{
    line.push(b'0' + digit as u8)?;
    Ok(())
}

// Adds the two digits of a number below 100, the first of which may be 0.
#[inline(always)]
fn push_pair(line: &mut Vec<u8>, number: u64) -> Result<(), AllocError>
    requires { number < 100 }
    ensures { OnOk result (line.new.items ≡ line.old.items
        ++ (48 + number / 10) ∷ (48 + number % 10) ∷ []) }
{
    push_digit(line, number / 10)?;
    push_digit(line, number % 10)
}

// Adds a number of one digit or of two.
#[inline(always)]
fn push_two(line: &mut Vec<u8>, number: u64) -> Result<(), AllocError>
    requires { number < 100 }
    ensures { OnOk result (line.new.items ≡ line.old.items ++ decimal number) }
{
    if number < 10 {
        return push_digit(line, number);
    }
    push_pair(line, number)
}

// Adds a number. Digit by digit where they are few, as those of most records are: that takes no
// buffer and no call that copies.
#[inline(always)]
fn push_digits(line: &mut Vec<u8>, number: u64) -> Result<(), AllocError>
    ensures { OnOk result (line.new.items ≡ line.old.items ++ decimal number) }
{
    if number < 100 {
        return push_two(line, number);
    }
    if number < 10_000 {
        push_two(line, number / 100)?;
        return push_pair(line, number % 100);
    }
    push_many(line, number)
}

// Adds a number of any size.
fn push_many(line: &mut Vec<u8>, number: u64) -> Result<(), AllocError>
    ensures { OnOk result (line.new.items ≡ line.old.items ++ decimal number) }
{
    let mut buffer = Buffer::new();
    line.extend_from_slice(buffer.format(number).as_bytes())?;
    Ok(())
}

// Adds a space and a number.
#[inline(always)]
fn push_number(line: &mut Vec<u8>, number: u64) -> Result<(), AllocError>
    ensures { OnOk result (line.new.items ≡ line.old.items ++ 32 ∷ decimal number) }
{
    line.push(b' ')?;
    push_digits(line, number)
}

// Adds a space and a number with its sign.
#[inline(always)]
fn push_signed(line: &mut Vec<u8>, number: i64) -> Result<(), AllocError>
    ensures { OnOk result (line.new.items ≡ line.old.items ++ 32 ∷ signed_decimal number) }
{
    line.push(b' ')?;
    if number < 0 {
        line.push(b'-')?;
        return push_digits(line, number.unsigned_abs());
    }
    push_digits(line, number.unsigned_abs())
}

fn kind_letter(kind: Kind) -> &'static [u8]
    ensures { result.now ≡ kind_word kind }
{
    match kind {
        Kind::Lower => b"l",
        Kind::Raise => b"r",
    }
}

// Adds the words of the escrows, a space before each.
fn push_escrows(line: &mut Vec<u8>, escrows: &[Escrow]) -> Result<(), AllocError>
    ensures { OnOk result (line.new.items ≡ line.old.items
        ++ words_spaced (escrow_words escrows.now)) }
{
    for escrow in escrows {
        push_number(line, u64::from(escrow.field.0))?;
        push_signed(line, escrow.change)?;
    }
    Ok(())
}

// Adds the words of a gift or of an acceptance, a space before each.
fn push_total(
    line: &mut Vec<u8>,
    other: SiteNo,
    field: FieldNo,
    kind: Kind,
    total: u64,
) -> Result<(), AllocError>
    ensures { OnOk result (line.new.items ≡ line.old.items
        ++ words_spaced (total_words other field kind total)) }
{
    push_number(line, u64::from(other.0))?;
    push_cut(line, field, kind, total)
}

// Adds the rights of each field, a space before each.
fn push_rights(line: &mut Vec<u8>, rights: &[(u64, u64)]) -> Result<(), AllocError>
    ensures { OnOk result (line.new.items ≡ line.old.items
        ++ words_spaced (rights_words rights.now)) }
{
    for row in rights {
        push_number(line, row.0)?;
        push_number(line, row.1)?;
    }
    Ok(())
}

// Adds totals, each behind the letter of its group, a space before each word.
fn push_group(line: &mut Vec<u8>, letter: u8, totals: &[Total]) -> Result<(), AllocError>
    ensures { OnOk result (line.new.items ≡ line.old.items
        ++ words_spaced (group_words letter totals.now)) }
{
    for told in totals {
        push_word(line, &[letter])?;
        push_total(line, told.site, told.field, told.kind, told.total)?;
    }
    Ok(())
}

// Adds the words behind the letter of a tightening, a space before each.
fn push_cut(line: &mut Vec<u8>, field: FieldNo, kind: Kind, total: u64) -> Result<(), AllocError>
    ensures { OnOk result (line.new.items ≡ line.old.items
        ++ words_spaced (cut_words field kind total)) }
{
    push_number(line, u64::from(field.0))?;
    push_word(line, kind_letter(kind))?;
    push_number(line, total)
}

// Adds totals given up, each behind its letter, a space before each word.
fn push_cuts(line: &mut Vec<u8>, totals: &[Cut]) -> Result<(), AllocError>
    ensures { OnOk result (line.new.items ≡ line.old.items
        ++ words_spaced (cuts_words totals.now)) }
{
    for told in totals {
        push_word(line, b"t")?;
        push_cut(line, told.field, told.kind, told.total)?;
    }
    Ok(())
}

// Adds the totals of a summary, a space before each word.
fn push_groups(
    line: &mut Vec<u8>,
    gifts: &[Total],
    accepts: &[Total],
    tightenings: &[Cut],
) -> Result<(), AllocError>
    ensures { OnOk result (line.new.items ≡ line.old.items
        ++ words_spaced (group_words 103 gifts.now
        ++ (group_words 97 accepts.now ++ cuts_words tightenings.now))) }
{
    push_group(line, b'g', gifts)?;
    push_group(line, b'a', accepts)?;
    push_cuts(line, tightenings)
}

// Adds the words of a summary, a space before each.
fn push_summary(
    line: &mut Vec<u8>,
    epoch: u32,
    rights: &[(u64, u64)],
    gifts: &[Total],
    accepts: &[Total],
    tightenings: &[Cut],
) -> Result<(), AllocError>
    ensures { OnOk result (line.new.items ≡ line.old.items
        ++ words_spaced (summary_words (summary_told epoch rights.now gifts.now accepts.now
        tightenings.now))) }
{
    push_number(line, u64::from(epoch))?;
    push_number(line, rights.len() as u64)?;
    push_rights(line, rights)?;
    push_groups(line, gifts, accepts, tightenings)
}

fn letter(kept: &Record) -> u8
    ensures { result ≡ letter_of kept.now }
{
    match kept {
        Record::Commit { .. } => b'C',
        Record::Gift { .. } => b'G',
        Record::Accept { .. } => b'A',
        Record::Tighten { .. } => b'T',
        Record::Restart { .. } => b'R',
        Record::Summary { .. } => b'S',
    }
}

// Adds the words of a commit behind its letter, a space before each.
#[inline(always)]
fn push_commit(line: &mut Vec<u8>, txn: TxnId, escrows: &[Escrow]) -> Result<(), AllocError>
    ensures { OnOk result (line.new.items ≡ line.old.items
        ++ words_spaced (words_of (Commit txn escrows.now))) }
{
    push_number(line, u64::from(txn.epoch))?;
    push_number(line, u64::from(txn.number))?;
    push_escrows(line, escrows)
}

// Adds the words of a record behind its letter, a space before each.
fn push_words(line: &mut Vec<u8>, kept: &Record) -> Result<(), AllocError>
    ensures { OnOk result (line.new.items ≡ line.old.items ++ words_spaced (words_of kept.now)) }
{
    match kept {
        Record::Commit { txn, escrows } => push_commit(line, *txn, escrows.as_slice()),
        Record::Gift {
            to,
            field,
            kind,
            total,
        } => push_total(line, *to, *field, *kind, *total),
        Record::Accept {
            from,
            field,
            kind,
            total,
        } => push_total(line, *from, *field, *kind, *total),
        Record::Tighten { field, kind, total } => push_cut(line, *field, *kind, *total),
        Record::Restart { epoch } => push_number(line, u64::from(*epoch)),
        Record::Summary {
            epoch,
            rights,
            gifts,
            accepts,
            tightenings,
        } => push_summary(
            line,
            *epoch,
            rights.as_slice(),
            gifts.as_slice(),
            accepts.as_slice(),
            tightenings.as_slice(),
        ),
    }
}

// Adds the text of a record, its line feed included.
fn push_record(line: &mut Vec<u8>, kept: &Record) -> Result<(), AllocError>
    ensures { OnOk result (line.new.items ≡ line.old.items ++ text kept.now) }
{
    line.push(letter(kept))?;
    push_words(line, kept)?;
    line.push(b'\n')?;
    Ok(())
}

/// Writes the text of a record, its line feed included, in place of what `line` holds, whose memory
/// is used again. The error is want of memory; `line` then holds anything.
pub(crate) fn put_record(line: &mut Vec<u8>, kept: &Record) -> Result<(), AllocError>
    ensures text { OnOk result (line.new.items ≡ text kept.now) }
{
    line.clear();
    push_record(line, kept)
}

/// Writes the text of the record of a commit, as `put_record` does, from its escrows where they
/// stand. The error is want of memory; `line` then holds anything.
pub(crate) fn put_commit(
    line: &mut Vec<u8>,
    txn: TxnId,
    escrows: &[Escrow],
) -> Result<(), AllocError>
    ensures text { OnOk result (line.new.items ≡ text (Commit txn escrows.now)) }
{
    line.clear();
    line.push(b'C')?;
    push_commit(line, txn, escrows)?;
    line.push(b'\n')?;
    Ok(())
}

/// Writes the text of a record, and behind it that of the summary that is due, in place of what
/// `line` holds. The error is want of memory; `line` then holds anything.
pub(crate) fn put_piece(
    line: &mut Vec<u8>,
    kept: &Record,
    due: Option<Summary>,
) -> Result<(), AllocError>
    ensures text { OnOk result (line.new.items ≡ flat_map text (with_due kept.now due)) }
{
    put_record(line, kept)?;
    match due {
        None => Ok(()),
        Some(summary) => push_record(line, &summary.into_record()),
    }
}

/// The text of a record, its line feed included. Its numbers have to lie in the ranges that
/// `Record` tells. A front of the text is the whole text, or has no line feed: so an append that
/// fails, or a stop, leaves the whole record or none. The error is want of memory. Costs a pass
/// over the record, and memory for the text.
pub fn write_record(alloc: Global, kept: &Record) -> Result<Vec<u8>, AllocError>
    requires ranges { IsRecord kept.now }
    ensures text { IfOk result (λ line. line.items ≡ text kept.now) }
    ensures torn { IfOk result (λ line. TearsClean line.items) }
{
    let mut line = Vec::new(alloc);
    put_record(&mut line, kept)?;
    Ok(line)
}
