//! Records of the common kinds, read straight from the bytes that begin with their text.

ghost use Rattle.std.specs.Prelude.{◌≡◌, ◌≤◌, ◌++◌, ◌∷◌, [], if◌then◌else◌, IfSome};
ghost use Rattle.field_bounds.specs.Owed.{max_change};
ghost use Rattle.std.specs.Fmt.{decimal, signed_decimal};
ghost use Rattle.std.specs.List.{AllByRecursion};
ghost use Rattle.kept_records.specs.Text.{IsChange, IsEscrow, IsListed, IsListedCut, kind_word, escrow_words, total_words, cut_words, words_spaced};
ghost use Rattle.kept_records.specs.Lines.{IsCommitAt, IsRestartAt, IsRecordAt};
ghost use Rattle.kept_records.specs.Lent.{record_told};

use crate::lent_records::CommonRecord;
use crate::reading::MAX_PLACE;
use crate::total::{Cut, Total};
use field_bounds::{
    Escrow, FieldNo, Kind, MAX_CHANGE, MAX_EPOCH, MAX_ESCROWS, MAX_NUMBER, MAX_TOTAL, SiteNo, TxnId,
};
use line_words::first_number;

// What stands behind a byte that the bytes begin with.
#[inline(always)]
fn behind_byte(bytes: &[u8], first: u8) -> Option<&[u8]>
    ensures { IfSome result (λ behind. bytes.now ≡ first ∷ behind.now) }
{
    match bytes {
        [byte, behind @ ..] if *byte == first => Some(behind),
        _ => None,
    }
}

// A space and a number from a least to a greatest one, and what stands behind them.
#[inline(always)]
fn number_behind_space(bytes: &[u8], least: u64, most: u64) -> Option<(u64, &[u8])>
    ensures spelled { IfSome result (λ read. bytes.now ≡ (32 ∷ decimal read.0) ++ read.1.now) }
    ensures least { IfSome result (λ read. least ≤ read.0) }
    ensures most { IfSome result (λ read. read.0 ≤ most) }
{
    let (value, left) = first_number(behind_byte(bytes, b' ')?)?;
    if least <= value && value <= most {
        Some((value, left))
    } else {
        None
    }
}

// Whether a minus sign stands first, and what stands behind it.
#[inline(always)]
fn sign(bytes: &[u8]) -> (bool, &[u8])
    ensures { bytes.now ≡ (if result.0 then 45 ∷ [] else []) ++ result.1.now }
{
    match bytes {
        [b'-', behind @ ..] => (true, behind),
        _ => (false, bytes),
    }
}

// The change of this size, below 0 or above it.
#[inline(always)]
fn change_of(below: bool, size: u64) -> i64
    requires some { 1 ≤ size }
    requires small { size ≤ max_change }
    ensures spelled { signed_decimal result ≡ (if below then 45 ∷ [] else []) ++ decimal size }
    ensures range { IsChange result }
{
    if below {
        -1 - (size - 1) as i64
    } else {
        size as i64
    }
}

// A change, and what stands behind it. Its sign is as likely the one as the other, so no branch is
// taken by it.
#[inline(always)]
fn change_at_front(bytes: &[u8]) -> Option<(i64, &[u8])>
    ensures spelled { IfSome result (λ read. bytes.now ≡ signed_decimal read.0 ++ read.1.now) }
    ensures range { IfSome result (λ read. IsChange read.0) }
{
    let (below, digits) = sign(bytes);
    let (size, behind) = first_number(digits)?;
    if 1 <= size && size <= MAX_CHANGE {
        Some((change_of(below, size), behind))
    } else {
        None
    }
}

// An escrow, a space before each of its words, and what stands behind it.
#[inline(always)]
fn escrow(bytes: &[u8]) -> Option<(Escrow, &[u8])>
    ensures spelled { IfSome result (λ read. bytes.now ≡ (32 ∷ decimal read.0.field.0)
        ++ ((32 ∷ signed_decimal read.0.change) ++ read.1.now)) }
    ensures range { IfSome result (λ read. IsEscrow read.0) }
{
    let (field, left) = number_behind_space(bytes, 0, MAX_PLACE)?;
    let (change, left) = change_at_front(behind_byte(left, b' ')?)?;
    let escrow = Escrow {
        field: FieldNo(field as u16),
        change,
    };
    Some((escrow, left))
}

// Puts escrows up to the end of the line in place of what `held` holds, and tells what stands
// behind that line; or None where they don't fit its memory.
#[inline(always)]
fn escrows<'a>(held: &mut Vec<Escrow>, bytes: &'a [u8]) -> Option<&'a [u8]>
    ensures spelled { IfSome result (λ behind. bytes.now
        ≡ words_spaced (escrow_words held.new.items) ++ 10 ∷ behind.now) }
    ensures ranges { IfSome result (λ _. AllByRecursion IsEscrow held.new.items) }
{
    held.clear();
    let mut left = bytes;
    while let Some((escrow, more)) = escrow(left) {
        if held.len() == held.capacity() {
            return None;
        }
        held.push_reserved(escrow);
        left = more;
    }
    behind_byte(left, b'\n')
}

/// The transaction of the commit whose text the bytes begin with, and what stands behind the text.
/// Its escrows are put in place of what `held` holds. None tells nothing: for a commit too, as
/// where the escrows don't fit the memory of `held`. Takes no memory.
#[inline(always)]
pub(crate) fn commit_at<'a>(held: &mut Vec<Escrow>, bytes: &'a [u8]) -> Option<(TxnId, &'a [u8])>
    ensures { IfSome result (λ read. IsCommitAt bytes.now read.0 held.new.items read.1.now) }
{
    if held.capacity() == 0 {
        return None;
    }
    let words = behind_byte(bytes, b'C')?;
    let (epoch, left) = number_behind_space(words, 0, u64::from(MAX_EPOCH))?;
    let (number, left) = number_behind_space(left, 1, u64::from(MAX_NUMBER))?;
    let rest = escrows(held, left)?;
    let count = held.len();
    if count < 1 || count > MAX_ESCROWS {
        return None;
    }
    let txn = TxnId {
        epoch: epoch as u32,
        number: number as u32,
    };
    Some((txn, rest))
}

/// The epoch of the restart whose text the bytes begin with, and what stands behind the text. None
/// tells nothing. Takes no memory.
#[inline(always)]
pub(crate) fn restart_at(bytes: &[u8]) -> Option<(u32, &[u8])>
    ensures { IfSome result (λ read. IsRestartAt bytes.now read.0 read.1.now) }
{
    let words = behind_byte(bytes, b'R')?;
    let (epoch, left) = number_behind_space(words, 1, u64::from(MAX_EPOCH))?;
    let rest = behind_byte(left, b'\n')?;
    Some((epoch as u32, rest))
}

// A space and the letter of a kind, and what stands behind them.
#[inline(always)]
fn kind_behind_space(bytes: &[u8]) -> Option<(Kind, &[u8])>
    ensures spelled { IfSome result (λ read. bytes.now ≡ (32 ∷ kind_word read.0) ++ read.1.now) }
{
    match bytes {
        [b' ', b'l', behind @ ..] => Some((Kind::Lower, behind)),
        [b' ', b'r', behind @ ..] => Some((Kind::Raise, behind)),
        _ => None,
    }
}

// The words of a total up to the end of the line, and what stands behind that line.
#[inline(always)]
fn total_line(bytes: &[u8]) -> Option<(Total, &[u8])>
    ensures spelled { IfSome result (λ read. bytes.now
        ≡ words_spaced (total_words read.0.site read.0.field read.0.kind read.0.total)
        ++ 10 ∷ read.1.now) }
    ensures range { IfSome result (λ read. IsListed read.0) }
{
    let (site, left) = number_behind_space(bytes, 0, MAX_PLACE)?;
    let (field, left) = number_behind_space(left, 0, MAX_PLACE)?;
    let (kind, left) = kind_behind_space(left)?;
    let (total, left) = number_behind_space(left, 1, MAX_TOTAL)?;
    let rest = behind_byte(left, b'\n')?;
    let told = Total {
        site: SiteNo(site as u16),
        field: FieldNo(field as u16),
        kind,
        total,
    };
    Some((told, rest))
}

// The same of a total that was given up.
#[inline(always)]
fn cut_line(bytes: &[u8]) -> Option<(Cut, &[u8])>
    ensures spelled { IfSome result (λ read. bytes.now
        ≡ words_spaced (cut_words read.0.field read.0.kind read.0.total) ++ 10 ∷ read.1.now) }
    ensures range { IfSome result (λ read. IsListedCut read.0) }
{
    let (field, left) = number_behind_space(bytes, 0, MAX_PLACE)?;
    let (kind, left) = kind_behind_space(left)?;
    let (total, left) = number_behind_space(left, 1, MAX_CHANGE)?;
    let rest = behind_byte(left, b'\n')?;
    let told = Cut {
        field: FieldNo(field as u16),
        kind,
        total,
    };
    Some((told, rest))
}

/// The record whose text the bytes begin with, but a summary, and what stands behind the text. A
/// commit's escrows are put in place of what `held` holds. None tells nothing. Takes no memory.
#[inline(always)]
pub(crate) fn common_at<'a>(
    held: &mut Vec<Escrow>,
    bytes: &'a [u8],
) -> Option<(CommonRecord, &'a [u8])>
    ensures { IfSome result (λ read. IsRecordAt bytes.now (record_told read.0 held.new.items)
        read.1.now) }
{
    match bytes {
        [b'C', ..] => {
            let (txn, behind) = commit_at(held, bytes)?;
            Some((CommonRecord::Commit { txn }, behind))
        }
        [b'R', ..] => {
            let (epoch, behind) = restart_at(bytes)?;
            Some((CommonRecord::Restart { epoch }, behind))
        }
        [b'G', words @ ..] => {
            let (told, behind) = total_line(words)?;
            let gift = CommonRecord::Gift {
                to: told.site,
                field: told.field,
                kind: told.kind,
                total: told.total,
            };
            Some((gift, behind))
        }
        [b'A', words @ ..] => {
            let (told, behind) = total_line(words)?;
            let accept = CommonRecord::Accept {
                from: told.site,
                field: told.field,
                kind: told.kind,
                total: told.total,
            };
            Some((accept, behind))
        }
        [b'T', words @ ..] => {
            let (told, behind) = cut_line(words)?;
            let tighten = CommonRecord::Tighten {
                field: told.field,
                kind: told.kind,
                total: told.total,
            };
            Some((tighten, behind))
        }
        _ => None,
    }
}
