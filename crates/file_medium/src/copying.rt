//! What goes between a file and memory.

ghost use Rattle.std.specs.Prelude.{◌≡◌, ◌<◌, ◌≤◌, ◌+◌, ◌^◌, ◌++◌, true, length, take, IfOk, OnOk, vec_len};
ghost use Rattle.std.specs.Io.KnownBytes.{append_known};
ghost use Rattle.file_medium.specs.Copies.{EndsAs, IsCopyOf, IsFrontOf, ReadsOn};

use crate::log_file::{FileFailed, LogFile};
use kept_records::MediumFault;
use std::alloc::Global;

/// How many bytes of a file are read at a time.
const PIECE: usize = 65_536;

/// Memory for a piece of a file.
pub(crate) fn new_piece(alloc: Global) -> Result<Vec<u8>, MediumFault>
    ensures some { IfOk result (λ piece. 0 < vec_len piece) }
{
    match vec![in alloc; 0u8; PIECE] {
        Ok(piece) => Ok(piece),
        Err(_) => Err(MediumFault::NoMemory),
    }
}

/// Writes the piece behind the bytes of the file, in as many writes as it takes, and tells how many
/// bytes the file took, from the front: all of them, or a write failed or took none. That one isn't
/// tried again, and nothing is synced. Costs no memory.
pub fn write_front<F: LogFile>(file: &mut F, piece: &[u8]) -> usize
    ensures bound { result ≤ length piece.now }
    ensures bytes { F.bytes file.new ≡ append_known (F.bytes file.old) (take result piece.now) }
    ensures safe { F.safe file.new ≡ F.safe file.old }
    ensures least { F.least file.new ≡ F.least file.old }
{
    let mut written = 0;
    while written < piece.len() {
        match file.write(&piece[written..]) {
            Ok(0) | Err(_) => return written,
            Ok(count) => written += count,
        }
    }
    written
}

/// Whether the file holds these bytes behind the first so many, and no others. No, where a read
/// fails.
pub(crate) fn holds<F: LogFile>(file: &mut F, piece: &mut [u8], from: u64, bytes: &[u8]) -> bool
    requires some { 0 < length piece.old }
    requires fits { from + length bytes.now < 2 ^ 64 }
    ensures ends { result ≡ true → EndsAs (F.bytes file.old) from bytes.now }
    ensures bytes { F.bytes file.new ≡ F.bytes file.old }
    ensures safe { F.safe file.new ≡ F.safe file.old }
    ensures least { F.least file.new ≡ F.least file.old }
{
    let mut seen = 0;
    while seen < bytes.len() {
        match file.read_at(from + seen as u64, piece) {
            Ok(0) | Err(_) => return false,
            Ok(count) => {
                if count > bytes.len() - seen || piece[..count] != bytes[seen..seen + count] {
                    return false;
                }
                seen += count;
            }
        }
    }
    match file.read_at(from + seen as u64, piece) {
        Ok(0) => true,
        Ok(_) | Err(_) => false,
    }
}

/// Adds bytes to a copy.
fn keep(held: &mut Vec<u8>, bytes: &[u8]) -> Result<(), MediumFault>
    ensures kept { OnOk result (held.new.items ≡ held.old.items ++ bytes.now) }
{
    match held.extend_from_slice(bytes) {
        Ok(()) => Ok(()),
        Err(_) => Err(MediumFault::NoMemory),
    }
}

/// Reads the next bytes of a file behind those that were read, and tells whether there were any.
fn read_next<F: LogFile>(
    file: &mut F,
    held: &mut Vec<u8>,
    piece: &mut [u8],
) -> Result<bool, MediumFault>
    requires some { 0 < length piece.old }
    requires front { IsFrontOf (F.bytes file.old) held.old.items }
    ensures read { IfOk result (ReadsOn (F.bytes file.new) held.new.items) }
    ensures bytes { F.bytes file.new ≡ F.bytes file.old }
    ensures safe { F.safe file.new ≡ F.safe file.old }
    ensures least { F.least file.new ≡ F.least file.old }
{
    let at = held.as_slice().len();
    match file.read_at(at as u64, piece) {
        Ok(0) => Ok(false),
        Ok(count) => {
            keep(held, &piece[..count])?;
            Ok(true)
        }
        Err(FileFailed) => Err(MediumFault::Device),
    }
}

/// Reads a file whole, in pieces of 64 KiB. `Device`: a read failed. `NoMemory`: memory is wanting.
/// Costs a pass over the file, and memory for it and for a piece.
pub fn read_whole<F: LogFile>(alloc: Global, file: &mut F) -> Result<Vec<u8>, MediumFault>
    ensures copy { IfOk result (λ held. IsCopyOf (F.bytes file.new) held.items) }
    ensures bytes { F.bytes file.new ≡ F.bytes file.old }
    ensures safe { F.safe file.new ≡ F.safe file.old }
    ensures least { F.least file.new ≡ F.least file.old }
{
    let mut held = Vec::new(alloc);
    let mut piece = new_piece(alloc)?;
    for _ in 0..u64::MAX {
        if !read_next(file, &mut held, piece.as_mut_slice())? {
            return Ok(held);
        }
    }
    Err(MediumFault::Device)
}
