//! What is answered of a commit or a key, once it is known what is held of it.

ghost use Rattle.std.specs.Prelude.{◌≡◌};
ghost use Rattle.site_service.specs.LetGo.{commit_answer, reach_of, spares_since, key_answer};

use crate::key_answer::KeyAnswer;
use field_bounds::{TxnId, is_up_to};
use log_head::{CommitAnswer, Gone};

/// What is answered of a transaction whose commit is held, or isn't.
pub(crate) fn commit_answer(told: &Option<Gone>, txn: TxnId, is_held: bool) -> CommitAnswer
    ensures { result ≡ commit_answer told.now txn is_held }
{
    match told {
        Some(gone) => gone.horizon.answer(txn, is_held),
        None if is_held => CommitAnswer::Yes,
        None => CommitAnswer::No,
    }
}

/// The position up to which commits may be gone.
pub(crate) fn reach_of(gone: &Gone) -> TxnId
    ensures { result ≡ reach_of gone.now }
{
    TxnId {
        epoch: gone.horizon.epoch(),
        number: gone.horizon.number(),
    }
}

// Whether no commit is gone of a transaction behind a position, by what is told. Where no position is
// given, each commit may be looked for: then nothing must be gone.
fn spares_since(told: &Option<Gone>, since: Option<TxnId>) -> bool
    ensures { result ≡ spares_since told.now since }
{
    match (told, since) {
        (None, _) => true,
        (Some(_), None) => false,
        (Some(gone), Some(since)) => is_up_to(since, reach_of(gone)),
    }
}

/// What is answered of a key with which this commit is held, or none. Each commit with the key is one
/// behind the position, where one is given.
pub(crate) fn key_answer(
    told: &Option<Gone>,
    since: Option<TxnId>,
    held: Option<TxnId>,
) -> KeyAnswer
    ensures { result ≡ key_answer told.now since held }
{
    match held {
        Some(txn) => KeyAnswer::Kept(txn),
        None if spares_since(told, since) => KeyAnswer::No,
        None => KeyAnswer::Forgotten,
    }
}
