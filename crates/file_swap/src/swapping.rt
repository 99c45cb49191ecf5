//! The steps in their order.

ghost use Rattle.std.specs.Prelude.{◌≡◌, ◌≤◌, ◌⊎◌, ◌++◌, length, take, IfErr, OnOk};
ghost use Rattle.std.specs.Io.KnownBytes.{append_known};
ghost use Rattle.file_medium.specs.Copies.{IsCopyOf};
ghost use Rattle.file_medium.specs.Files.{IsSpared};

use crate::replaceable::{PutFault, Replaceable};

/// Writes the piece behind the bytes of the new file, and tells how many it took: all of it, unless
/// a write failed or took nothing.
fn write_all<F: Replaceable>(file: &mut F, piece: &[u8]) -> usize
    ensures bound { result ≤ length piece.now }
    ensures beside { F.beside file.new ≡ append_known (F.beside file.old) (take result piece.now) }
    ensures bytes { F.bytes file.new ≡ F.bytes file.old }
    ensures safe { F.safe file.new ≡ F.safe file.old }
    ensures least { F.least file.new ≡ F.least file.old }
{
    let mut written = 0;
    while written < piece.len() {
        match file.write_beside(&piece[written..]) {
            Ok(0) | Err(_) => return written,
            Ok(count) => written += count,
        }
    }
    written
}

/// Puts a file that holds a head and these bytes behind it in the place of the file: begins it, writes
/// it whole, syncs it, and only then puts it there. At Ok the file holds them, a stop of the machine
/// leaves them, and no cut has left fewer. `Refused`: the file is as it was, whatever came of the new
/// one. `Failed`: a stop of the machine leaves what was safe of the file, or the new one, whole; the
/// file isn't to be used any more. Costs a write of the bytes, two syncs, and no memory.
pub fn put_anew<F: Replaceable>(file: &mut F, head: &[u8], held: &[u8]) -> Result<(), PutFault>
    ensures ok { OnOk result (IsCopyOf (F.bytes file.new) (head.now ++ held.now)
        × IsCopyOf (F.safe file.new) (head.now ++ held.now)) }
    ensures all_safe { OnOk result (F.safe file.new ≡ F.bytes file.new) }
    ensures spared { OnOk result (IsSpared (length (head.now ++ held.now)) (F.least file.new)) }
    ensures refused { IfErr result (λ fault. fault ≡ PutFault.Refused
        → (F.bytes file.new ≡ F.bytes file.old)
        × (F.safe file.new ≡ F.safe file.old)
        × (F.least file.new ≡ F.least file.old)) }
    ensures failed { IfErr result (λ fault. fault ≡ PutFault.Failed
        → (F.safe file.new ≡ F.safe file.old)
        ⊎ IsCopyOf (F.safe file.new) (head.now ++ held.now)) }
{
    if file.begin_beside().is_err() {
        return Err(PutFault::Refused);
    }
    if write_all(file, head) < head.len() {
        return Err(PutFault::Refused);
    }
    if write_all(file, held) < held.len() {
        return Err(PutFault::Refused);
    }
    if file.sync_beside().is_err() {
        return Err(PutFault::Refused);
    }
    file.put_in_place()
}
