//! Heads, read.

ghost use Rattle.std.specs.Prelude.{◌≡◌, ◌≢◌, ◌∷◌, ◌++◌, ℕ, List, IfOk, IfErr, IfSome, IfNone, MatchResult};
ghost use Rattle.log_head.specs.declared.fault.HeadFault.TheVariants.{NoMemory};
ghost use Rattle.log_head.specs.declared.gone.Gone.{Gone as GoneValue};
ghost use Rattle.log_head.specs.declared.gone.HeadKind.{HeadKind as Kind};
ghost use Rattle.log_head.specs.Horizons.{HorizonValue, IsHorizon};
ghost use Rattle.log_head.specs.Heads.{BeginsWith, IsGone, IsKind, IsNotShortened, IsRefused, head_text, told_then};

use crate::fault::HeadFault;
use crate::gone::{Gone, Head, HeadKind};
use crate::horizon::Horizon;
use crate::numbers::{behind, narrowed, split_numbers};
use crate::writing::first_lines;
use sealed_text::sum_line;
use site_folder::{Identity, log_name, sealed_log_name};
use std::alloc::{AllocError, Global};

// The horizon that numbers tell, or None where they are out of range.
fn horizon_of(alloc: Global, numbers: &[u64]) -> Result<Option<Horizon>, AllocError>
    ensures some { IfOk result (λ told. IfSome told (λ h.
        numbers.now ≡ h.epoch ∷ h.number ∷ h.open_then)) }
    ensures own { IfOk result (λ told. IfSome told IsHorizon) }
    ensures none { IfOk result (λ told. IfNone told ((h : HorizonValue) → IsHorizon h
        → numbers.now ≢ h.epoch ∷ h.number ∷ h.open_then)) }
{
    let Some(numbers) = narrowed(alloc, numbers)? else {
        return Ok(None);
    };
    match numbers.as_slice() {
        [epoch, number, open_then @ ..] => {
            let open_then = Vec::from_slice(alloc, open_then)?;
            Ok(Horizon::new(*epoch, *number, open_then))
        }
        _ => Ok(None),
    }
}

// What the two lines tell with which the bytes begin, and what stands behind them; or None where they
// begin with no such lines.
fn read_told(alloc: Global, bytes: &[u8]) -> Result<Option<(Gone, &[u8])>, AllocError>
    ensures some { IfOk result (λ told. IfSome told (λ parts.
        bytes.now ≡ told_then parts.0 parts.1.now)) }
    ensures own { IfOk result (λ told. IfSome told (λ parts. IsGone parts.0)) }
    ensures none { IfOk result (λ told. IfNone told ((gone : GoneValue) (rest : List ℕ)
        → IsGone gone → bytes.now ≢ told_then gone rest)) }
{
    let Some((counts, bytes)) = split_numbers(alloc, bytes, b"head ")? else {
        return Ok(None);
    };
    let Some((numbers, rest)) = split_numbers(alloc, bytes, b"horizon ")? else {
        return Ok(None);
    };
    let Some(horizon) = horizon_of(alloc, numbers.as_slice())? else {
        return Ok(None);
    };
    if counts.len() != 2 {
        return Ok(None);
    }
    let counts = counts.as_slice();
    let gone = Gone {
        bytes: counts[0],
        records: counts[1],
        horizon,
    };
    Ok(Some((gone, rest)))
}

// The head of version 3 with which the bytes begin.
fn read_shortened(alloc: Global, identity: &Identity, bytes: &[u8]) -> Result<Head, HeadFault>
    ensures found { IfOk result (BeginsWith identity.now bytes.now) }
    ensures refused { IfErr result (IsNotShortened identity.now bytes.now) }
{
    let name = first_lines(alloc, identity)?;
    let Some(told) = behind(bytes, name.as_slice()) else {
        return Err(HeadFault::Other);
    };
    let Some((gone, rest)) = read_told(alloc, told)? else {
        return Err(HeadFault::Changed);
    };
    let lines = bytes.len() - rest.len();
    let sum = sum_line(&bytes[..lines]);
    match behind(rest, &sum) {
        Some(_) => Ok(Head {
            kind: HeadKind::Shortened(gone),
            length: lines + sum.len(),
        }),
        None => Err(HeadFault::Changed),
    }
}

/// The head of a site's log with which the bytes begin: of version 1, 2 or 3, as `log_name`,
/// `sealed_log_name` and `write_head` spell it, and as nothing else does.
///
/// The fault is `Other`, where they don't begin with the name of a log of the site, of version 1 or 2,
/// or with the first three lines of one of version 3; and `Changed`, where those three lines are right
/// and the head behind them isn't. `NoMemory` can come in place of any answer. Costs a SHA-256 over the
/// world's header, three times, two passes over the head, and memory for it.
pub fn read_head(alloc: Global, identity: &Identity, bytes: &[u8]) -> Result<Head, HeadFault>
    ensures found { IfOk result (BeginsWith identity.now bytes.now) }
    ensures only { (kind : Kind) (rest : List ℕ) → IsKind kind
        → bytes.now ≡ head_text identity.now kind ++ rest
        → MatchResult result (λ head. head.kind ≡ kind) (λ fault. fault ≡ NoMemory) }
    ensures refused { IfErr result (IsRefused identity.now bytes.now) }
{
    let name = sealed_log_name(alloc, identity)?;
    if let Some(_rest) = behind(bytes, name.as_slice()) {
        return Ok(Head {
            kind: HeadKind::Sealed,
            length: name.len(),
        });
    }
    let name = log_name(alloc, identity)?;
    if let Some(_rest) = behind(bytes, name.as_slice()) {
        return Ok(Head {
            kind: HeadKind::Plain,
            length: name.len(),
        });
    }
    read_shortened(alloc, identity, bytes)
}
