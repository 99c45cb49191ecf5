//! Reading one record.

ghost use Rattle.std.specs.Prelude.{◌≡◌, ◌≤◌, IfSome};
ghost use Rattle.line_words.specs.Words.{words};
ghost use Rattle.line_words.specs.Reading.{word_at, Gives};
ghost use Rattle.kept_records.specs.declared.reading.LineFault.TheVariants.{NoMemory};
ghost use Rattle.kept_records.specs.Reading.{number_within, change_of, kind_of, total_from, escrows_from, commit_from, gift_from, accept_from, cut_from, tighten_from, restart_from, record_of, Tells};

use crate::record::{Escrows, Record};
use crate::summary_reading::{take_listed, take_listed_cut, take_summary};
use crate::total::{Cut, Total};
use field_bounds::{Escrow, FieldNo, Kind, MAX_CHANGE, MAX_EPOCH, MAX_ESCROWS, MAX_NUMBER, TxnId};
use line_words::{Words, read_number, read_signed};
use std::alloc::{AllocFailed, Global};
use std::mem;

// The greatest number of a site or of a field that a record can name.
pub(crate) const MAX_PLACE: u64 = u16::MAX as u64;

/// Why a line isn't read.
#[derive(Clone, Copy)]
pub(crate) enum LineFault {
    NoRecord,
    NoMemory,
}

impl<T: Drop> From<AllocFailed<T>> for LineFault {
    ghost from_gives = { λ _ e. e ≡ NoMemory };

    fn from(_refused: AllocFailed<T>) -> LineFault {
        LineFault::NoMemory
    }
}

#[tactic(auto, unfolding(crate::specs::Reading::number_within))]
pub(crate) fn number(word: &[u8], least: u64, most: u64) -> Option<u64>
    ensures value { result ≡ number_within least most word.now }
    ensures most { IfSome result (λ n. n ≤ most) }
{
    let number = read_number(word)?;
    if least <= number && number <= most {
        Some(number)
    } else {
        None
    }
}

#[tactic(auto, unfolding(crate::specs::Reading::change_of))]
fn change(word: &[u8]) -> Option<i64>
    ensures { result ≡ change_of word.now }
{
    let change = read_signed(word)?;
    let size = change.unsigned_abs();
    if 1 <= size && size <= MAX_CHANGE {
        Some(change)
    } else {
        None
    }
}

pub(crate) fn kind(word: &[u8]) -> Option<Kind>
    ensures { result ≡ kind_of word.now }
{
    match word {
        [b'l'] => Some(Kind::Lower),
        [b'r'] => Some(Kind::Raise),
        _ => None,
    }
}

#[tactic(auto, unfolding(line_words::specs::Reading::word_at))]
pub(crate) fn take_number(words: &mut Words, least: u64, most: u64) -> Option<u64>
    ensures value { Gives result words.new (word_at (number_within least most) words.old) }
    ensures most { IfSome result (λ n. n ≤ most) }
{
    number(words.next()?, least, most)
}

#[tactic(auto, using(crate::proofs::Listed::total_laws))]
fn take_total(mut words: Words) -> Option<Total>
    ensures { result ≡ total_from words.entry }
{
    let told = take_listed(&mut words)?;
    match words.next() {
        Some(_) => None,
        None => Some(told),
    }
}

#[tactic(auto, unfolding(crate::specs::Reading::gift_from))]
fn take_gift(words: Words) -> Option<Record>
    ensures { result ≡ gift_from words.entry }
{
    let told = take_total(words)?;
    Some(Record::Gift {
        to: told.site,
        field: told.field,
        kind: told.kind,
        total: told.total,
    })
}

#[tactic(auto, unfolding(crate::specs::Reading::accept_from))]
fn take_accept(words: Words) -> Option<Record>
    ensures { result ≡ accept_from words.entry }
{
    let told = take_total(words)?;
    Some(Record::Accept {
        from: told.site,
        field: told.field,
        kind: told.kind,
        total: told.total,
    })
}

#[tactic(auto, using(crate::proofs::Listed::cut_laws))]
fn take_cut(mut words: Words) -> Option<Cut>
    ensures { result ≡ cut_from words.entry }
{
    let told = take_listed_cut(&mut words)?;
    match words.next() {
        Some(_) => None,
        None => Some(told),
    }
}

#[tactic(auto, unfolding(crate::specs::Reading::tighten_from))]
fn take_tighten(words: Words) -> Option<Record>
    ensures { result ≡ tighten_from words.entry }
{
    let told = take_cut(words)?;
    Some(Record::Tighten {
        field: told.field,
        kind: told.kind,
        total: told.total,
    })
}

#[tactic(auto, unfolding(crate::specs::Reading::restart_from))]
fn take_restart(mut words: Words) -> Option<Record>
    ensures { result ≡ restart_from words.entry }
{
    let epoch = take_number(&mut words, 1, u64::from(MAX_EPOCH))?;
    match words.next() {
        Some(_) => None,
        None => Some(Record::Restart {
            epoch: epoch as u32,
        }),
    }
}

// Pairs of a field and a change up to the end of the line, in the spare memory.
fn take_escrows(
    alloc: Global,
    spare: &mut Vec<Escrow>,
    mut words: Words,
) -> Result<Escrows, LineFault>
    ensures { Tells result (escrows_from words.entry) }
{
    let mut escrows = mem::replace(spare, Vec::new(alloc));
    escrows.clear();
    while let Some(first) = words.next() {
        let Some(field) = number(first, 0, MAX_PLACE) else {
            return Err(LineFault::NoRecord);
        };
        let Some(second) = words.next() else {
            return Err(LineFault::NoRecord);
        };
        let Some(change) = change(second) else {
            return Err(LineFault::NoRecord);
        };
        escrows.push(Escrow {
            field: FieldNo(field as u16),
            change,
        })?;
    }
    let read = Escrows::new(escrows);
    Ok(read)
}

#[tactic(auto, unfolding(crate::specs::Reading::commit_from))]
fn take_commit(
    alloc: Global,
    spare: &mut Vec<Escrow>,
    mut words: Words,
) -> Result<Record, LineFault>
    ensures { Tells result (commit_from words.entry) }
{
    let Some(epoch) = take_number(&mut words, 0, u64::from(MAX_EPOCH)) else {
        return Err(LineFault::NoRecord);
    };
    let Some(number) = take_number(&mut words, 1, u64::from(MAX_NUMBER)) else {
        return Err(LineFault::NoRecord);
    };
    let escrows = take_escrows(alloc, spare, words)?;
    let count = escrows.as_slice().len();
    if 1 <= count && count <= MAX_ESCROWS {
        let txn = TxnId {
            epoch: epoch as u32,
            number: number as u32,
        };
        Ok(Record::Commit { txn, escrows })
    } else {
        Err(LineFault::NoRecord)
    }
}

/// The record whose text is the line and a line feed. A commit's escrows are put into the spare
/// memory, whatever it held.
#[tactic(auto, unfolding(crate::specs::Reading::record_of))]
pub(crate) fn read_line(
    alloc: Global,
    spare: &mut Vec<Escrow>,
    line: &[u8],
) -> Result<Record, LineFault>
    ensures { Tells result (record_of (words line.now)) }
{
    let mut words = Words::new(line);
    match words.next() {
        Some([b'C']) => take_commit(alloc, spare, words),
        Some([b'G']) => take_gift(words).ok_or(LineFault::NoRecord),
        Some([b'A']) => take_accept(words).ok_or(LineFault::NoRecord),
        Some([b'S']) => take_summary(alloc, words),
        Some([b'T']) => take_tighten(words).ok_or(LineFault::NoRecord),
        Some([b'R']) => take_restart(words).ok_or(LineFault::NoRecord),
        _ => Err(LineFault::NoRecord),
    }
}
