//! What is added to an open batch, and to the file that it is closed in.

ghost use Rattle.std.specs.Prelude.{◌≡◌, ◌+◌, ◌<◌, ◌≤◌, ◌++◌, [], true, length, take, IfSome, OnOk, OnErr, vec_len, vec_capacity};
ghost use Rattle.std.specs.Io.KnownBytes.{append_known};
ghost use Rattle.sealed_text.specs.Seals.{sealed_batch, EndsInLineFeed, IsRecords};

use file_medium::{FileFailed, LogFile, write_front};
use sealed_text::{end_batch, is_batch, sum_line};
use std::alloc::Global;

/// The length of a line that closes a batch.
const SUM_LINE: usize = 21;

/// Adds a piece to a batch, and makes room for the line that closes it.
pub(crate) fn add_piece(batch: &mut Vec<u8>, piece: &[u8]) -> Result<(), FileFailed>
    ensures ok { OnOk result (batch.new.items ≡ batch.old.items ++ piece.now) }
    ensures room { OnOk result (vec_len batch.new + 21 ≤ vec_capacity batch.new) }
    ensures err { OnErr result (batch.new.items ≡ batch.old.items) }
    ensures kept { OnErr result (vec_capacity batch.old ≤ vec_capacity batch.new) }
{
    match batch.reserve(piece.len() + SUM_LINE) {
        Ok(()) => {
            batch.extend_from_slice(piece).unwrap();
            Ok(())
        }
        Err(_) => Err(FileFailed),
    }
}

/// Writes a batch and the line that closes it behind the bytes of a file, by one write where the
/// file takes them whole, and syncs it. The buffer of the batch is emptied either way, and keeps its
/// memory.
pub(crate) fn add_sealed<F: LogFile>(file: &mut F, batch: &mut Vec<u8>) -> Result<(), FileFailed>
    requires room { vec_len batch.old + 21 ≤ vec_capacity batch.old }
    ensures added { OnOk result (F.bytes file.new
        ≡ append_known (F.bytes file.old) (sealed_batch batch.old.items)) }
    ensures safe { OnOk result (F.safe file.new ≡ F.bytes file.new) }
    ensures kept { OnErr result (F.safe file.new ≡ F.safe file.old) }
    ensures least { F.least file.new ≡ F.least file.old }
    ensures none { batch.new.items ≡ [] }
{
    let line = sum_line(batch.as_slice());
    batch.extend_from_slice(&line).unwrap();
    let is_whole = write_front(file, batch.as_slice()) == batch.len();
    batch.clear();
    if !is_whole {
        return Err(FileFailed);
    }
    file.sync()
}

/// The text of one closed batch of these records, or None where the bytes are no batch of records, or
/// memory is wanting.
pub(crate) fn seal_records(alloc: Global, held: &[u8]) -> Option<Vec<u8>>
    ensures text { IfSome result (λ text. text.items ≡ sealed_batch held.now) }
    ensures records { IfSome result (λ _. IsRecords held.now) }
{
    if !is_batch(held) || held == end_batch() {
        return None;
    }
    let mut text = Vec::new(alloc);
    add_piece(&mut text, held).ok()?;
    let line = sum_line(held);
    text.extend_from_slice(&line).unwrap();
    Some(text)
}

/// Whether so many bytes are there, and are none, or end in a line feed.
pub(crate) fn are_lines(batch: &[u8], kept: usize) -> bool
    ensures within { result ≡ true → kept ≤ length batch.now }
    ensures lines { result ≡ true → 0 < kept → EndsInLineFeed (take kept batch.now) }
{
    kept == 0 || (kept <= batch.len() && batch[kept - 1] == b'\n')
}
