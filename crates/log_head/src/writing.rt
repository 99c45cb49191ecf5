//! Heads, written.

ghost use Rattle.std.specs.Prelude.{◌≡◌, ◌++◌, ◌∷◌, IfOk, OnOk};
ghost use Rattle.std.specs.Fmt.{decimal};
ghost use Rattle.site_folder.specs.Identity.{file_name};
ghost use Rattle.log_head.specs.Heads.{spaced, version_line, head_line, horizon_line, shortened_lines, shortened_name};

use crate::gone::Gone;
use crate::horizon::Horizon;
use itoa::Buffer;
use sealed_text::sum_line;
use site_folder::{Identity, log_name};
use std::alloc::{AllocError, Global};

/// The first line of a log of version 3, which is as long as that of version 1.
const VERSION: &[u8] = b"escrow log 3";

/// The first three lines of a log of version 3 of a site.
pub(crate) fn first_lines(alloc: Global, identity: &Identity) -> Result<Vec<u8>, AllocError>
    ensures { IfOk result (λ lines. lines.items ≡ file_name version_line identity.now) }
{
    let plain = log_name(alloc, identity)?;
    let mut lines = Vec::from_slice(alloc, VERSION)?;
    lines.extend_from_slice(&plain[VERSION.len()..])?;
    Ok(lines)
}

// Adds a space and a number.
fn push_number(text: &mut Vec<u8>, number: u64) -> Result<(), AllocError>
    ensures { OnOk result (text.new.items ≡ text.old.items ++ 32 ∷ decimal number) }
{
    let mut buffer = Buffer::new();
    text.push(b' ')?;
    text.extend_from_slice(buffer.format(number).as_bytes())?;
    Ok(())
}

// Adds a space and each of the numbers.
#[tactic(auto, using(crate::proofs::NumberLines::spaced_next))]
fn push_numbers(text: &mut Vec<u8>, numbers: &[u32]) -> Result<(), AllocError>
    ensures { OnOk result (text.new.items ≡ text.old.items ++ spaced numbers.now) }
{
    for number in numbers {
        push_number(text, u64::from(*number))?;
    }
    Ok(())
}

// Adds the line that tells how much was let go, without its line feed.
fn push_head_line(text: &mut Vec<u8>, gone: &Gone) -> Result<(), AllocError>
    ensures { OnOk result (text.new.items ≡ text.old.items ++ head_line gone.now) }
{
    text.extend_from_slice(b"head")?;
    push_number(text, gone.bytes)?;
    push_number(text, gone.records)
}

// Adds the line of a horizon, without its line feed.
fn push_horizon_line(text: &mut Vec<u8>, horizon: &Horizon) -> Result<(), AllocError>
    ensures { OnOk result (text.new.items ≡ text.old.items ++ horizon_line horizon.now) }
{
    text.extend_from_slice(b"horizon")?;
    push_number(text, u64::from(horizon.epoch()))?;
    push_number(text, u64::from(horizon.number()))?;
    push_numbers(text, horizon.open_then())
}

// The lines of a head in front of that of its sum.
fn head_lines(alloc: Global, identity: &Identity, gone: &Gone) -> Result<Vec<u8>, AllocError>
    ensures { IfOk result (λ text. text.items ≡ shortened_lines identity.now gone.now) }
{
    let mut text = first_lines(alloc, identity)?;
    push_head_line(&mut text, gone)?;
    text.push(b'\n')?;
    push_horizon_line(&mut text, &gone.horizon)?;
    text.push(b'\n')?;
    Ok(text)
}

/// The head of a log of version 3 of a site, of which this was let go: six lines, each with a line feed
/// at its end, the last of which tells the sum of the others. The error is want of memory. Costs a
/// SHA-256 over the world's header, and the memory of the head.
pub fn write_head(alloc: Global, identity: &Identity, gone: &Gone) -> Result<Vec<u8>, AllocError>
    ensures text { IfOk result (λ text. text.items ≡ shortened_name identity.now gone.now) }
{
    let mut text = head_lines(alloc, identity, gone)?;
    let sum = sum_line(text.as_slice());
    text.extend_from_slice(&sum)?;
    Ok(text)
}
