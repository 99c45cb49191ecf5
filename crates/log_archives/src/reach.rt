//! What heads tell, and whether a horizon goes on from another.

ghost use Rattle.std.specs.Prelude.{◌≡◌};
ghost use Rattle.field_bounds.specs.Effects.{is_up_to};
ghost use Rattle.log_head.specs.Horizons.{last_of};
ghost use Rattle.log_archives.specs.Heads.{bytes_told, records_told, goes_on, may_go, reaches, were_beyond};

use field_bounds::{TxnId, is_up_to};
use kept_records::Record;
use log_head::{Gone, Horizon};

/// How many bytes were let go by what is told.
pub(crate) fn bytes_told(gone: &Option<Gone>) -> u64
    ensures value { result ≡ bytes_told gone.now }
{
    match gone {
        Some(gone) => gone.bytes,
        None => 0,
    }
}

/// How many records without summaries were let go by what is told.
pub(crate) fn records_told(gone: &Option<Gone>) -> u64
    ensures value { result ≡ records_told gone.now }
{
    match gone {
        Some(gone) => gone.records,
        None => 0,
    }
}

/// Whether a record may be gone by the horizon.
pub(crate) fn may_go(horizon: &Horizon, next: &Record) -> bool
    ensures value { result ≡ may_go horizon.now next.now }
{
    match next.commit_told() {
        Some(txn) => horizon.has_passed(txn),
        None => true,
    }
}

// The last transaction that a horizon may have passed.
fn last_of(horizon: &Horizon) -> TxnId
    ensures value { result ≡ last_of horizon.now }
{
    TxnId {
        epoch: horizon.epoch(),
        number: horizon.number(),
    }
}

// Whether the new horizon reaches as far as the old one.
fn is_as_far(old: &Horizon, new: &Horizon) -> bool
    ensures value { result ≡ is_up_to (last_of new.now) (last_of old.now) }
{
    is_up_to(last_of(new), last_of(old))
}

// Whether none of these transactions of an epoch was passed by the horizon.
fn were_beyond(old: &Horizon, epoch: u32, numbers: &[u32]) -> bool
    ensures value { result ≡ were_beyond old.now epoch numbers.now }
{
    numbers.iter().all(|number| {
        !old.has_passed(TxnId {
            epoch,
            number: *number,
        })
    })
}

// Whether the new horizon has passed all that the old one has.
fn reaches(old: &Horizon, new: &Horizon) -> bool
    ensures value { result ≡ reaches old.now new.now }
{
    if !is_as_far(old, new) {
        return false;
    }
    were_beyond(old, new.epoch(), new.open_then())
}

/// Whether the horizon has passed all that might be gone before.
pub(crate) fn goes_on(gone: &Option<Gone>, new: &Horizon) -> bool
    ensures value { result ≡ goes_on gone.now new.now }
{
    match gone {
        Some(gone) => reaches(&gone.horizon, new),
        None => true,
    }
}
