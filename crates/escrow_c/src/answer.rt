//! A reply in numbers.

ghost use Rattle.std.specs.Prelude.{◌≡◌};
ghost use Rattle.escrow_c.specs.Numbers.{last_number, refusal_answer, answer_of, told_answer, refused_answer};

use field_bounds::{Last, Refusal, Reply};

/// A reply in numbers: its kind, and what it tells. What a kind doesn't tell is 0.
#[repr(C)]
#[derive(Clone, Copy)]
pub struct Answer {
    /// 1 begun, 2 granted, 3 committed, 4 aborted, 5 given, 6 stated, 7 spared, 8 tightened, 9
    /// accepted, 10 between, 11 shares, 12 restarted, 13 unsure, 14 still down, 15 refused.
    pub kind: u32,
    /// Of a refusal its number; of a restart 0 for nothing, 1 for kept, 2 for lost.
    pub code: u32,
    pub first: u64,
    pub second: u64,
    pub low: i64,
    pub high: i64,
}

// A kind that tells two numbers.
fn told(kind: u32, first: u64, second: u64) -> Answer
    ensures { result ≡ told_answer kind first second }
{
    Answer {
        kind,
        code: 0,
        first,
        second,
        low: 0,
        high: 0,
    }
}

// The refusal of this number.
fn refused(code: u32, first: u64) -> Answer
    ensures { result ≡ refused_answer code first }
{
    Answer {
        kind: 15,
        code,
        first,
        second: 0,
        low: 0,
        high: 0,
    }
}

fn refusal_answer(refusal: Refusal) -> Answer
    ensures { result ≡ refusal_answer refusal }
{
    match refusal {
        Refusal::Down => refused(1, 0),
        Refusal::NoSite => refused(2, 0),
        Refusal::NoField => refused(3, 0),
        Refusal::NoTransaction => refused(4, 0),
        Refusal::Zero => refused(5, 0),
        Refusal::TooLarge => refused(6, 0),
        Refusal::Short { share } => refused(7, share),
        Refusal::SelfGift => refused(8, 0),
        Refusal::LedgerFull { total } => refused(9, total),
        Refusal::NotYours => refused(10, 0),
        Refusal::Forged { room } => refused(11, room),
        Refusal::TooManyOpen => refused(12, 0),
        Refusal::TooManyEscrows => refused(13, 0),
        Refusal::NumbersFull => refused(14, 0),
        Refusal::NothingGiven => refused(15, 0),
    }
}

fn last_number(last: Last) -> u32
    ensures { result ≡ last_number last }
{
    match last {
        Last::Nothing => 0,
        Last::Kept => 1,
        Last::Lost => 2,
    }
}

fn between(low: i64, high: i64) -> Answer
    ensures { result ≡ record (told_answer 10 0 0) {
      low = low;
      high = high;
    } }
{
    Answer {
        kind: 10,
        code: 0,
        first: 0,
        second: 0,
        low,
        high,
    }
}

fn restarted(epoch: u32, last: Last) -> Answer
    ensures { result ≡ record (told_answer 12 epoch 0) {
      code = last_number last;
    } }
{
    Answer {
        kind: 12,
        code: last_number(last),
        first: u64::from(epoch),
        second: 0,
        low: 0,
        high: 0,
    }
}

/// The reply in numbers.
pub fn answer_of(reply: Reply) -> Answer
    ensures { result ≡ answer_of reply }
{
    match reply {
        Reply::Begun(txn) => told(1, u64::from(txn.epoch), u64::from(txn.number)),
        Reply::Granted => told(2, 0, 0),
        Reply::Committed => told(3, 0, 0),
        Reply::Aborted => told(4, 0, 0),
        Reply::Given { total } => told(5, total, 0),
        Reply::Stated { total } => told(6, total, 0),
        Reply::Spared { amount, total } => told(7, amount, total),
        Reply::Tightened { total } => told(8, total, 0),
        Reply::Accepted { gain } => told(9, gain, 0),
        Reply::Between { lo, hi } => between(lo, hi),
        Reply::Shares { lower, raise } => told(11, lower, raise),
        Reply::Restarted { epoch, last } => restarted(epoch, last),
        Reply::Unsure => told(13, 0, 0),
        Reply::StillDown => told(14, 0, 0),
        Reply::Refused(refusal) => refusal_answer(refusal),
    }
}
