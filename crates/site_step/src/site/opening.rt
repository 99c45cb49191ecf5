//! What a site finds on the medium over which it is opened.

ghost use Rattle.std.specs.Prelude.{◌≡◌, ◌<◌, ◌+◌, ◌^◌, List, [], ◌∷◌, ◌++◌, true, Some, length, IfOk, IfErr};
ghost use Rattle.kept_records.specs.declared.record.Record.{Record};
ghost use Rattle.kept_records.specs.Lent.{record_told};
ghost use Rattle.kept_records.specs.declared.medium.MediumFault.TheVariants as faults;
ghost use Rattle.kept_records.specs.declared.medium.Mishap.TheVariants.{Read};
ghost use Rattle.site_step.specs.declared.site.opening.OpenFault.TheVariants.{Device, NoMemory};
ghost use Rattle.site_step.specs.Opening.{BeginsBehind, TellsLineBehind, SparesLogsBehind, FailsUnder, IsFound, failed_at, foretold_at, fault_of};

use crate::extent::Extent;
use field_bounds::{Schema, SiteNo};
use history::{GhostHistory, History};
use kept_records::{
    CommonRecord, LentRecords, Medium, MediumFault, Record, RecordLine, by_line, plain_count,
};
use log_replay::{Standing, take_next};
use std::alloc::{AllocError, Global};
use thiserror::Error;

/// Why a site wasn't opened.
#[derive(Clone, Copy, Debug, PartialEq, Eq, Error)]
pub enum OpenFault {
    /// The device of the medium failed in this call.
    #[error("device fault")]
    Device,
    /// This line, counted from 1, is the first that is no record or breaks a rule of a kept log.
    #[error("line {0} is no record of this site")]
    Line(u64),
    /// Memory is wanting.
    #[error("out of memory")]
    NoMemory,
}

impl From<MediumFault> for OpenFault {
    ghost from_gives = { λ fault e. e ≡ fault_of fault };

    fn from(fault: MediumFault) -> OpenFault {
        match fault {
            MediumFault::Device => OpenFault::Device,
            MediumFault::NoMemory => OpenFault::NoMemory,
        }
    }
}

impl From<AllocError> for OpenFault {
    ghost from_gives = { λ _ e. e ≡ NoMemory };

    fn from(_refused: AllocError) -> OpenFault {
        OpenFault::NoMemory
    }
}

/// What a medium holds: whether it is empty, its records, which only proofs see, how far they
/// reach, and what they stand for.
#[derive(Drop)]
pub(super) struct Found {
    pub fresh: bool,
    pub based: GhostHistory<Record>,
    pub extent: Extent,
    pub standing: Standing,
}

/// Reads what a medium holds, which stays as it is, behind the records that the standing is for.
pub(super) fn read_base<M: Medium>(
    alloc: Global,
    schema: &Schema,
    site: SiteNo,
    standing: Standing,
    medium: &mut M,
) -> Result<Found, OpenFault>
    ghost gone: { List Record }
    requires begins { BeginsBehind schema.now site.0 gone standing (M.bytes medium.old) }
    ensures found { IfOk result (λ found. IsFound schema.now site.0 gone
        (M.bytes medium.old) found) }
    ensures fresh { IfOk result (λ found. found.fresh ≡ true → M.bytes medium.old ≡ []) }
    ensures empty { IfOk result (λ found. M.bytes medium.old ≡ [] → found.fresh ≡ true) }
    ensures line { IfErr result (λ fault. TellsLineBehind schema.now site.0 gone
        (M.bytes medium.old) fault) }
    ensures never { IfErr result (λ fault. SparesLogsBehind schema.now site.0 gone
        (M.bytes medium.old) fault) }
    ensures bytes { M.bytes medium.new ≡ M.bytes medium.old }
    ensures failed { IfErr result (λ fault. M.failed medium.new
        ≡ failed_at fault (M.failed medium.old)) }
    ensures count { IfOk result (λ found. M.failed medium.new ≡ M.failed medium.old) }
    ensures foretold { IfErr result (λ fault. M.foretold medium.new
        ≡ foretold_at fault (M.foretold medium.old)) }
    ensures device { IfErr result (λ fault. FailsUnder fault (M.foretold medium.old)) }
    ensures read { IfOk result (λ found. M.foretold medium.old ≡ Some Read → ⊥) }
    ensures mishap { IfOk result (λ found. M.foretold medium.new ≡ M.foretold medium.old) }
{
    let bytes = medium.read_all(alloc)?;
    find(alloc, schema, site, standing, &bytes)
}

/// Notes a record that is lent, and leaves the lines as they are. The list that only proofs see
/// takes a whole one, so its escrows go into it, and come back to the reader, which reads the next
/// into their memory. Once this is inlined nothing is moved.
#[inline(always)]
fn note_lent(
    alloc: Global,
    based: &mut GhostHistory<Record>,
    lines: &mut LentRecords,
    told: CommonRecord,
)
    requires room { length based.old.list.items + 1 < 2 ^ 63 }
    ensures items { based.new.list.items
        ≡ based.old.list.items ++ record_told told lines.old.escrows ∷ [] }
    ensures left { lines.new.left ≡ lines.old.left }
{
    let next = lines.whole(alloc, told);
    based.note(&next);
    lines.give_back(next);
}

/// The records in the bytes, and what they stand for behind the records that the standing is for.
/// Each is read from its line and taken in before the next, and no list of them is made.
fn find(
    alloc: Global,
    schema: &Schema,
    _site: SiteNo,
    standing: Standing,
    bytes: &[u8],
) -> Result<Found, OpenFault>
    ghost gone: { List Record }
    requires begins { BeginsBehind schema.now _site.0 gone standing bytes.now }
    ensures found { IfOk result (λ found. IsFound schema.now _site.0 gone bytes.now found) }
    ensures fresh { IfOk result (λ found. found.fresh ≡ true → bytes.now ≡ []) }
    ensures empty { IfOk result (λ found. bytes.now ≡ [] → found.fresh ≡ true) }
    ensures line { IfErr result (λ fault. TellsLineBehind schema.now _site.0 gone
        bytes.now fault) }
    ensures never { IfErr result (λ fault. SparesLogsBehind schema.now _site.0 gone
        bytes.now fault) }
    ensures device { IfErr result (λ fault. fault ≡ Device → ⊥) }
{
    let mut standing = standing;
    let mut based = GhostHistory::of(Vec::new(alloc));
    let mut number: u64 = 0;
    let mut count: usize = 0;
    let mut lines = LentRecords::new(alloc, bytes);
    by_line! { 'lines: lines.next_common(), lines.next_line(alloc)?;
        Some(told) => {
            number += 1;
            if !standing.take_common(schema, told, lines.escrows()) {
                return Err(OpenFault::Line(number));
            }
            count += 1;
            note_lent(alloc, &mut based, &mut lines, told);
        },
        RecordLine::Record(next) => {
            number += 1;
            if !take_next(alloc, schema, &mut standing, &next)? {
                return Err(OpenFault::Line(number));
            }
            count += plain_count(&next);
            based.note(&next);
            lines.give_back(next);
        },
        RecordLine::NoRecord => return Err(OpenFault::Line(number + 1)),
        RecordLine::End => break 'lines,
    }
    let length = bytes.len() - lines.left();
    Ok(Found {
        fresh: bytes.is_empty(),
        based,
        extent: Extent {
            count,
            length,
            behind: 0,
        },
        standing,
    })
}
