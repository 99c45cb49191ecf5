//! Whether a reply is the one that is owed. Sums made afresh are wider than a reply's numbers.

ghost use Rattle.std.specs.Prelude.{◌≡◌, ◌&&◌, pos, ◌+ℤ◌, ◌-ℤ◌};
ghost use Rattle.std.specs.Ordering.{int_eq};
ghost use Rattle.field_bounds.specs.declared.entry.Reply.TheVariants.{Begun, Granted, Committed, Aborted, Given, Stated, Spared, Tightened, Accepted, Between, Shares, Unsure, Refused};
ghost use Rattle.field_bounds.specs.declared.entry.Refusal.TheVariants.{Short, LedgerFull, Forged};
ghost use Rattle.field_bounds.specs.Owed.{is_unsure};
ghost use Rattle.central_rules.specs.Replies.{same_refusal, same_found, same_reply};

use field_bounds::{Last, Refusal, Reply};

pub fn same_refusal(a: Refusal, b: Refusal) -> bool
    ensures { result ≡ same_refusal a b }
{
    match (a, b) {
        (Refusal::Down, Refusal::Down)
        | (Refusal::NoSite, Refusal::NoSite)
        | (Refusal::NoField, Refusal::NoField)
        | (Refusal::NoTransaction, Refusal::NoTransaction)
        | (Refusal::Zero, Refusal::Zero)
        | (Refusal::TooLarge, Refusal::TooLarge)
        | (Refusal::SelfGift, Refusal::SelfGift)
        | (Refusal::NotYours, Refusal::NotYours)
        | (Refusal::TooManyOpen, Refusal::TooManyOpen)
        | (Refusal::TooManyEscrows, Refusal::TooManyEscrows)
        | (Refusal::NumbersFull, Refusal::NumbersFull)
        | (Refusal::NothingGiven, Refusal::NothingGiven) => true,
        (Refusal::Short { share: a }, Refusal::Short { share: b }) => a == b,
        (Refusal::LedgerFull { total: a }, Refusal::LedgerFull { total: b }) => a == b,
        (Refusal::Forged { room: a }, Refusal::Forged { room: b }) => a == b,
        _ => false,
    }
}

pub fn same_last(a: Last, b: Last) -> bool
    ensures { result ≡ same_found a b }
{
    matches!(
        (a, b),
        (Last::Nothing, Last::Nothing) | (Last::Kept, Last::Kept) | (Last::Lost, Last::Lost)
    )
}

#[inline(always)]
pub fn is_refused(reply: Reply, refusal: Refusal) -> bool
    ensures { result ≡ same_reply reply (Refused refusal) }
{
    match reply {
        Reply::Refused(told) => same_refusal(told, refusal),
        _ => false,
    }
}

#[inline(always)]
pub fn is_short(reply: Reply, owed: u128) -> bool
    ensures { result ≡ same_reply reply (Refused (Short owed)) }
{
    match reply {
        Reply::Refused(Refusal::Short { share }) => u128::from(share) == owed,
        _ => false,
    }
}

pub fn is_full(reply: Reply, owed: u128) -> bool
    ensures { result ≡ same_reply reply (Refused (LedgerFull owed)) }
{
    match reply {
        Reply::Refused(Refusal::LedgerFull { total }) => u128::from(total) == owed,
        _ => false,
    }
}

pub fn is_forged(reply: Reply, owed: u128) -> bool
    ensures { result ≡ same_reply reply (Refused (Forged owed)) }
{
    match reply {
        Reply::Refused(Refusal::Forged { room }) => u128::from(room) == owed,
        _ => false,
    }
}

#[inline(always)]
pub fn is_begun(reply: Reply, epoch: u32, number: u64) -> bool
    ensures { result ≡ same_reply reply (Begun (record { epoch = epoch; number = number })) }
{
    match reply {
        Reply::Begun(txn) => txn.epoch == epoch && u64::from(txn.number) == number,
        _ => false,
    }
}

#[inline(always)]
pub fn is_granted(reply: Reply) -> bool
    ensures { result ≡ same_reply reply Granted }
{
    matches!(reply, Reply::Granted)
}

#[inline(always)]
pub fn is_committed(reply: Reply) -> bool
    ensures { result ≡ same_reply reply Committed }
{
    matches!(reply, Reply::Committed)
}

pub fn is_aborted(reply: Reply) -> bool
    ensures { result ≡ same_reply reply Aborted }
{
    matches!(reply, Reply::Aborted)
}

#[inline(always)]
pub fn is_unsure(reply: Reply) -> bool
    ensures { result ≡ is_unsure reply }
{
    matches!(reply, Reply::Unsure)
}

pub fn is_given(reply: Reply, owed: u128) -> bool
    ensures { result ≡ same_reply reply (Given owed) }
{
    match reply {
        Reply::Given { total } => u128::from(total) == owed,
        _ => false,
    }
}

pub fn is_stated(reply: Reply, owed: u128) -> bool
    ensures { result ≡ same_reply reply (Stated owed) }
{
    match reply {
        Reply::Stated { total } => u128::from(total) == owed,
        _ => false,
    }
}

pub fn is_spared(reply: Reply, owed: u64, owed_total: u128) -> bool
    ensures { result ≡ same_reply reply (Spared owed owed_total) }
{
    match reply {
        Reply::Spared { amount, total } => amount == owed && u128::from(total) == owed_total,
        _ => false,
    }
}

pub fn is_tightened(reply: Reply, owed: u128) -> bool
    ensures { result ≡ same_reply reply (Tightened owed) }
{
    match reply {
        Reply::Tightened { total } => u128::from(total) == owed,
        _ => false,
    }
}

pub fn is_accepted(reply: Reply, owed: u64) -> bool
    ensures { result ≡ same_reply reply (Accepted owed) }
{
    match reply {
        Reply::Accepted { gain } => gain == owed,
        _ => false,
    }
}

/// Whether a number lies so far above another.
#[inline(always)]
fn is_above_by(high: i64, low: i64, by: u128) -> bool
    ensures above { result ≡ int_eq high (low +ℤ pos by) }
    ensures below { result ≡ int_eq low (high -ℤ pos by) }
{
    low <= high && u128::from(high.abs_diff(low)) == by
}

/// Whether the interval begins so far above the floor, and ends so far below the ceiling.
#[inline(always)]
pub fn is_between(reply: Reply, floor: i64, ceiling: i64, above: u128, below: u128) -> bool
    ensures { result ≡ same_reply reply (Between (floor +ℤ pos above) (ceiling -ℤ pos below)) }
{
    match reply {
        Reply::Between { lo, hi } => {
            is_above_by(lo, floor, above) && is_above_by(ceiling, hi, below)
        }
        _ => false,
    }
}

pub fn is_shares(reply: Reply, owed_lower: u128, owed_raise: u128) -> bool
    ensures { result ≡ same_reply reply (Shares owed_lower owed_raise) }
{
    match reply {
        Reply::Shares { lower, raise } => {
            u128::from(lower) == owed_lower && u128::from(raise) == owed_raise
        }
        _ => false,
    }
}
