//! Texts of closed batches, read.

ghost use Rattle.std.specs.Prelude.{◌≡◌, ◌+◌, IfOk, IfErr};
ghost use Rattle.sealed_text.specs.Seals.{Unseals, IsRefused, lines_of};

use crate::fault::TextFault;
use crate::rest::{Rest, rest_of};
use std::alloc::Global;

/// What a text holds.
#[derive(Drop)]
pub struct Unsealed {
    /// The records of the closed batches, one behind another.
    pub records: Vec<u8>,
    /// How many bytes of the text are closed: the batches with their sums, and the end of the world
    /// where it was ended. What stands behind them was left by a stop.
    pub whole: usize,
    /// Whether the world was ended: then nothing stands behind the closed bytes.
    pub is_ended: bool,
}

// The line that stands behind the bytes, the first one being 1.
fn line_behind(bytes: &[u8]) -> u64
    ensures line { result ≡ 1 + lines_of bytes.now }
{
    1 + bytes.iter().filter(|byte| **byte == b'\n').count() as u64
}

/// The records of a text of closed batches, and how much of it is closed.
///
/// Behind the last closed batch may stand the front of another one with its sum, as a stop leaves
/// it, or the end of the world alone. The fault is `Damaged` where anything else stands there, so too
/// where a sum isn't that of its batch, with the line at which that begins; `NoMemory` can come in
/// place of any answer. Costs two passes over the text, and memory of the length of the text.
pub fn unseal(alloc: Global, text: &[u8]) -> Result<Unsealed, TextFault>
    ensures ok { IfOk result (Unseals text.now) }
    ensures err { IfErr result (IsRefused text.now) }
{
    let mut records = Vec::with_capacity(alloc, text.len())?;
    let mut rest = text;
    loop {
        match rest_of(rest) {
            Rest::Records(batch, behind) => {
                records.extend_from_slice(batch)?;
                rest = behind;
            }
            Rest::Ended => {
                return Ok(Unsealed {
                    records,
                    whole: text.len(),
                    is_ended: true,
                });
            }
            Rest::Torn => {
                return Ok(Unsealed {
                    records,
                    whole: text.len() - rest.len(),
                    is_ended: false,
                });
            }
            Rest::Damaged => {
                return Err(TextFault::Damaged {
                    line: line_behind(&text[..text.len() - rest.len()]),
                });
            }
        }
    }
}
