//! Where the base of the next part stands in a part.

ghost use Rattle.std.specs.Prelude.{◌≡◌, ◌≢◌, ◌++◌, ℕ, List, IfOk, IfSome, IfNone, MatchOption};
ghost use Rattle.log_archives.specs.Joints.{FindsBase, FindsLine, HasBase, HasNoBase};

use crate::reach::bytes_told;
use kept_records::{LentRecords, RecordLine, plain_count};
use log_head::Gone;
use std::alloc::{AllocError, Global};

/// Where the base of the next part stands in a part.
pub(crate) enum BaseFound {
    /// At this place, and it has so many bytes.
    At { cut: usize, base: usize },
    /// The part ends in front of it, or within it.
    Short,
    /// There is no base, or another line stands there.
    OtherBase,
    /// The place lies in front of the part, or at its beginning.
    OtherBytes,
}

// How many bytes the base has with which the bytes begin, or None where they begin with none.
fn base_length(alloc: Global, bytes: &[u8]) -> Result<Option<usize>, AllocError>
    ensures some { IfOk result (λ told. IfSome told (HasBase bytes.now)) }
    ensures none { IfOk result (λ told. IfNone told (HasNoBase bytes.now)) }
{
    let mut lines = LentRecords::new(alloc, bytes);
    let first = match lines.next_line(alloc)? {
        RecordLine::Record(first) => first,
        RecordLine::NoRecord => return Ok(None),
        RecordLine::End => return Ok(None),
    };
    if plain_count(&first) > 0 {
        return Ok(None);
    }
    Ok(Some(bytes.len() - lines.left()))
}

// What stands behind a line, or None where the bytes don't begin with it.
fn behind<'a>(bytes: &'a [u8], line: &[u8]) -> Option<&'a [u8]>
    ensures rest { MatchOption result ((rest : List ℕ) → bytes.now ≢ line.now ++ rest)
        (λ rest. bytes.now ≡ line.now ++ rest.now) }
{
    bytes.strip_prefix(line)
}

// Whether a base stands at the place that is told.
fn base_at(gone: &Option<Gone>, held: &[u8], told: &Gone, base: &[u8]) -> BaseFound
    ensures found { FindsLine gone.now held.now told.now base.now result }
{
    let before = bytes_told(gone);
    if told.bytes <= before {
        return BaseFound::OtherBytes;
    }
    let cut = (told.bytes - before) as usize;
    if held.len() < cut {
        return BaseFound::Short;
    }
    let (_front, left) = held.split_at(cut);
    if left.len() < base.len() {
        return BaseFound::Short;
    }
    match behind(left, base) {
        Some(_rest) => BaseFound::At {
            cut,
            base: base.len(),
        },
        None => BaseFound::OtherBase,
    }
}

/// Finds the base with which the next part begins in a part, at the place that the head of the next one
/// tells.
pub(crate) fn find_base(
    alloc: Global,
    gone: &Option<Gone>,
    held: &[u8],
    told: &Gone,
    next: &[u8],
) -> Result<BaseFound, AllocError>
    ensures found { IfOk result (FindsBase gone.now held.now told.now next.now) }
{
    match base_length(alloc, next)? {
        Some(base) => Ok(base_at(gone, held, told, &next[..base])),
        None => Ok(BaseFound::OtherBase),
    }
}
