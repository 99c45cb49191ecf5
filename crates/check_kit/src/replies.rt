//! Replies, spelled as a trace spells them.

/// A reply, as `reply!(between 20 70)`.
#[macro_export]
macro_rules! reply {
    (begun $txn:tt) => {
        $crate::Reply::Begun($crate::txn!($txn))
    };
    (granted) => {
        $crate::Reply::Granted
    };
    (committed) => {
        $crate::Reply::Committed
    };
    (aborted) => {
        $crate::Reply::Aborted
    };
    (given $total:literal) => {
        $crate::Reply::Given { total: $total }
    };
    (stated $total:literal) => {
        $crate::Reply::Stated { total: $total }
    };
    (spared $amount:literal $total:literal) => {
        $crate::Reply::Spared { amount: $amount, total: $total }
    };
    (tightened $total:literal) => {
        $crate::Reply::Tightened { total: $total }
    };
    (accepted $gain:literal) => {
        $crate::Reply::Accepted { gain: $gain }
    };
    (between $lo:literal $hi:literal) => {
        $crate::Reply::Between { lo: $lo, hi: $hi }
    };
    (share $lower:literal $raise:literal) => {
        $crate::Reply::Shares { lower: $lower, raise: $raise }
    };
    (restarted $epoch:literal nothing) => {
        $crate::Reply::Restarted { epoch: $epoch, last: $crate::Last::Nothing }
    };
    (restarted $epoch:literal kept) => {
        $crate::Reply::Restarted { epoch: $epoch, last: $crate::Last::Kept }
    };
    (restarted $epoch:literal lost) => {
        $crate::Reply::Restarted { epoch: $epoch, last: $crate::Last::Lost }
    };
    (unsure) => {
        $crate::Reply::Unsure
    };
    (still down) => {
        $crate::Reply::StillDown
    };
    (refused $($refusal:tt)+) => {
        $crate::Reply::Refused($crate::refusal!($($refusal)+))
    };
}

/// A refusal with its number, as `refusal!(7 short 20)`.
#[macro_export]
macro_rules! refusal {
    (1 down) => {
        $crate::Refusal::Down
    };
    (2 no site) => {
        $crate::Refusal::NoSite
    };
    (3 no field) => {
        $crate::Refusal::NoField
    };
    (4 no transaction) => {
        $crate::Refusal::NoTransaction
    };
    (5 zero) => {
        $crate::Refusal::Zero
    };
    (7 short $share:literal) => {
        $crate::Refusal::Short { share: $share }
    };
    (8 self gift) => {
        $crate::Refusal::SelfGift
    };
    (10 not yours) => {
        $crate::Refusal::NotYours
    };
    (11 forged $room:literal) => {
        $crate::Refusal::Forged { room: $room }
    };
    (14 numbers full) => {
        $crate::Refusal::NumbersFull
    };
    (15 nothing given) => {
        $crate::Refusal::NothingGiven
    };
}
