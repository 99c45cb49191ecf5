//! What a site does with its medium.

ghost use Rattle.std.specs.Prelude.{◌≡◌, ◌≤◌, OnOk, OnErr, IfOk, length};
ghost use Rattle.std.specs.List.{flat_map, AllByRecursion};
ghost use Rattle.kept_records.specs.declared.record.Record.TheVariants.{Commit, Restart};
ghost use Rattle.kept_records.specs.Text.{text, IsRecord};
ghost use Rattle.kept_records.specs.Medium.{AppendFate};
ghost use Rattle.kept_records.specs.Keeping.{with_due, Appends, CutsAndAppends, CutAndAppendFate, starts_with_no_restart};

use crate::medium::{Device, Medium};
use crate::record::Record;
use crate::summary::Summary;
use crate::writing::{put_commit, put_piece, put_record};
use field_bounds::{Escrow, TxnId};
use std::alloc::AllocError;

/// Adds a record behind the bytes of a medium, and in the same piece, with one call of the medium,
/// the summary that is due behind it. The inner result tells how it went: Ok where the whole text
/// of the piece stands there; its error is a fault of the device, which leaves some front of that
/// text: none of it, a part, or all. The outer error is want of memory, which leaves the medium as
/// it was. The numbers of both have to lie in the ranges that `Record` tells. The text is made in
/// `line`, whatever that held, and its memory is used again.
pub fn append_piece<M: Medium>(
    line: &mut Vec<u8>,
    medium: &mut M,
    kept: &Record,
    due: Option<Summary>,
) -> Result<Result<(), Device>, AllocError>
    requires ranges { AllByRecursion IsRecord (with_due kept.now due) }
    ensures added { IfOk result (λ added. Appends added (M.bytes medium.old)
        (flat_map text (with_due kept.now due)) (M.bytes medium.new) (M.failed medium.old)
        (M.failed medium.new)) }
    ensures fate { IfOk result (λ added. AppendFate (M.foretold medium.old) (M.bytes medium.old)
        (flat_map text (with_due kept.now due)) added (M.bytes medium.new)
        (M.foretold medium.new)) }
    ensures line { IfOk result (λ _. line.new.items ≡ flat_map text (with_due kept.now due)) }
    ensures bytes { OnErr result (M.bytes medium.new ≡ M.bytes medium.old) }
    ensures failed { OnErr result (M.failed medium.new ≡ M.failed medium.old) }
    ensures foretold { OnErr result (M.foretold medium.new ≡ M.foretold medium.old) }
{
    put_piece(line, kept, due)?;
    medium.reserve(line.len())?;
    let added = medium.append(line);
    Ok(added)
}

/// Adds a record alone behind the bytes of a medium, as `append_piece` does where no summary is due,
/// and with the same errors.
pub fn append_record<M: Medium>(
    line: &mut Vec<u8>,
    medium: &mut M,
    kept: &Record,
) -> Result<Result<(), Device>, AllocError>
    requires ranges { IsRecord kept.now }
    ensures added { IfOk result (λ added. Appends added (M.bytes medium.old) (text kept.now)
        (M.bytes medium.new) (M.failed medium.old) (M.failed medium.new)) }
    ensures fate { IfOk result (λ added. AppendFate (M.foretold medium.old) (M.bytes medium.old)
        (text kept.now) added (M.bytes medium.new) (M.foretold medium.new)) }
    ensures line { IfOk result (λ _. line.new.items ≡ text kept.now) }
    ensures bytes { OnErr result (M.bytes medium.new ≡ M.bytes medium.old) }
    ensures failed { OnErr result (M.failed medium.new ≡ M.failed medium.old) }
    ensures foretold { OnErr result (M.foretold medium.new ≡ M.foretold medium.old) }
{
    put_record(line, kept)?;
    medium.reserve(line.len())?;
    let whole = medium.append(line);
    Ok(whole)
}

/// Adds the record of a commit behind the bytes of a medium, as `append_piece` does where no
/// summary is due, from its escrows where they stand: so no record is made of them first. The
/// errors are those of `append_piece`.
pub fn append_commit<M: Medium>(
    line: &mut Vec<u8>,
    medium: &mut M,
    txn: TxnId,
    escrows: &[Escrow],
) -> Result<Result<(), Device>, AllocError>
    requires ranges { IsRecord (Commit txn escrows.now) }
    ensures added { IfOk result (λ added. Appends added (M.bytes medium.old)
        (text (Commit txn escrows.now)) (M.bytes medium.new) (M.failed medium.old)
        (M.failed medium.new)) }
    ensures fate { IfOk result (λ added. AppendFate (M.foretold medium.old) (M.bytes medium.old)
        (text (Commit txn escrows.now)) added (M.bytes medium.new) (M.foretold medium.new)) }
    ensures line { IfOk result (λ _. line.new.items ≡ text (Commit txn escrows.now)) }
    ensures bytes { OnErr result (M.bytes medium.new ≡ M.bytes medium.old) }
    ensures failed { OnErr result (M.failed medium.new ≡ M.failed medium.old) }
    ensures foretold { OnErr result (M.foretold medium.new ≡ M.foretold medium.old) }
{
    put_commit(line, txn, escrows)?;
    medium.reserve(line.len())?;
    let stood = medium.append(line);
    Ok(stood)
}

// Cuts what stands behind the first bytes, where there is something, and adds a line.
fn cut_and_append<M: Medium>(
    medium: &mut M,
    whole: usize,
    present: usize,
    line: &[u8],
) -> Result<(), Device>
    requires room { length line.now ≤ M.room medium.old }
    requires present { present ≡ length (M.bytes medium.old) }
    requires within { whole ≤ present }
    ensures added { CutsAndAppends result whole (M.bytes medium.old) line.now (M.bytes medium.new)
        (M.failed medium.old) (M.failed medium.new) }
    ensures fate { CutAndAppendFate (M.foretold medium.old) whole
        (M.bytes medium.old) line.now result (M.bytes medium.new) (M.foretold medium.new) }
{
    if whole < present {
        medium.cut(whole)?;
    }
    medium.append(line)
}

/// Cuts the torn end of a medium, where it has one, and adds the record of a restart, and in the
/// same piece, with one call of the medium, the summary that is due behind it. `whole` is the
/// length of the whole records, and `present` that of all bytes, as `read_back` answers them. The
/// inner result tells how it went: Ok where the piece stands behind the whole records; its error is
/// a fault of the device, which leaves the bytes as they were, or the whole records and some front
/// of the piece's text. The outer error is want of memory, which leaves the medium as it was. The
/// epoch is 1 to 1,000,000,000, and the summary's numbers lie in the ranges that `Record` tells.
/// The text is made in `line`, whatever that held, and its memory is used again.
pub fn append_restart_piece<M: Medium>(
    line: &mut Vec<u8>,
    medium: &mut M,
    whole: usize,
    present: usize,
    epoch: u32,
    due: Option<Summary>,
) -> Result<Result<(), Device>, AllocError>
    requires present { present ≡ length (M.bytes medium.old) }
    requires within { whole ≤ present }
    requires ranges { AllByRecursion IsRecord (with_due (Restart epoch) due) }
    ensures added { IfOk result (λ added. CutsAndAppends added whole (M.bytes medium.old)
        (flat_map text (with_due (Restart epoch) due)) (M.bytes medium.new) (M.failed medium.old)
        (M.failed medium.new)) }
    ensures fate { IfOk result (λ added. CutAndAppendFate (M.foretold medium.old) whole
        (M.bytes medium.old) (flat_map text (with_due (Restart epoch) due)) added
        (M.bytes medium.new) (M.foretold medium.new)) }
    ensures line { IfOk result (λ _. line.new.items
        ≡ flat_map text (with_due (Restart epoch) due)) }
    ensures bytes { OnErr result (M.bytes medium.new ≡ M.bytes medium.old) }
    ensures failed { OnErr result (M.failed medium.new ≡ M.failed medium.old) }
    ensures foretold { OnErr result (M.foretold medium.new ≡ M.foretold medium.old) }
{
    put_restart(line, epoch, due)?;
    medium.reserve(line.len())?;
    Ok(cut_and_append(medium, whole, present, line))
}

// Writes the text of a restart's record, and behind it that of the summary that is due.
fn put_restart(line: &mut Vec<u8>, epoch: u32, due: Option<Summary>) -> Result<(), AllocError>
    ensures { OnOk result (line.new.items ≡ flat_map text (with_due (Restart epoch) due)) }
{
    put_piece(line, &Record::Restart { epoch }, due)
}

/// Whether there is a first of these records, and it is no restart's: behind the place of a record
/// in doubt, whether that record stands there, since a restart adds only its own.
pub fn starts_with_no_restart(records: &[Record]) -> bool
    ensures { result ≡ starts_with_no_restart records.now }
{
    match records.first() {
        None => false,
        Some(kept) => kept.restart_told().is_none(),
    }
}
