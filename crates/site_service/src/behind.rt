//! What a service finds in a log whose front was let go.

ghost use Rattle.field_bounds.specs.declared.id.TxnId.{TxnId as Txn};
ghost use Rattle.site_step.specs.Shortening.{has_commit};
ghost use Rattle.std.specs.Prelude.{◌≡◌, ◌<◌, [], true, ℕ, List, IfOk, IfErr, IfSome, IfNone, OnErr};
ghost use Rattle.kept_records.specs.Summary.{SummaryValue};
ghost use Rattle.script_input.specs.Lines.{last_part};
ghost use Rattle.site_step.specs.Opening.{StartsWith};
ghost use Rattle.log_bases.specs.Bases.{IsPast};
ghost use Rattle.log_bases.specs.Pasts.{past_of};
ghost use Rattle.file_medium.specs.Copies.{IsCopyOf};
ghost use Rattle.site_service.specs.Opening.{HoldsRecords, KeepsLines, SparesLines};
ghost use Rattle.site_service.specs.Behind.{OpensBehind, IsBadBase, IsBadBehind, TellsBadBehind};
ghost use Rattle.site_service.specs.Service.{StandsOnHeld};

use crate::opening::{OpenedLog, keep_lines, read_lines, split_lines};
use field_bounds::{Entry, Schema, SiteNo};
use file_medium::LogFile;
use history::GhostHistory;
use kept_records::{LentRecords, MemoryMedium, RecordLine, Summary};
use log_bases::stand_on;
use site_step::{OpenFault, Site};
use std::alloc::{AllocError, Global};

// The summary with which records begin, or None where they begin with none.
fn first_base(alloc: Global, records: &[u8]) -> Result<Option<Summary>, AllocError>
    ensures some { IfOk result (λ told. IfSome told (StartsWith records.now)) }
    ensures none { IfOk result (λ told. IfNone told ((base : SummaryValue)
        → StartsWith records.now base → ⊥)) }
{
    let mut lines = LentRecords::new(alloc, records);
    let line = lines.next_line(alloc)?;
    match line {
        RecordLine::Record(kept) => Ok(kept.into_summary()),
        RecordLine::NoRecord => Ok(None),
        RecordLine::End => Ok(None),
    }
}

// The base with which records begin, which some lawful records may stand in front of. The fault is
// line 1 where there is none.
fn tested_base(
    alloc: Global,
    schema: &Schema,
    number: SiteNo,
    records: &[u8],
) -> Result<Summary, OpenFault>
    requires in_schema { number.0 < schema.now.sites }
    ensures first { IfOk result (StartsWith records.now) }
    ensures past { IfOk result (λ base. IsPast schema.now number.0 base
        (past_of schema.now number.0 base)) }
    ensures line { IfErr result (IsBadBase schema.now number records.now) }
{
    let Some(base) = first_base(alloc, records)? else {
        return Err(OpenFault::Line(1));
    };
    match stand_on(alloc, schema, number, &base)? {
        Some(_) => Ok(base),
        None => Err(OpenFault::Line(1)),
    }
}

// Opens the site over whole lines of records from a base on. The medium is dropped at a fault.
fn open_base(
    alloc: Global,
    schema: Schema,
    number: SiteNo,
    held: Vec<u8>,
) -> Result<Site<MemoryMedium, GhostHistory<Entry>>, OpenFault>
    requires in_schema { number.0 < schema.sites }
    requires whole { last_part held.items ≡ [] }
    ensures opens { IfOk result (OpensBehind schema number held.items) }
    ensures stands { IfOk result StandsOnHeld }

    // The records that are chosen to be gone hold only commits of epoch 0, which no horizon spares.
    ensures early { IfOk result (λ site. (txn : Txn) → has_commit txn site.gone ≡ true
        → txn.epoch ≡ 0) }
    ensures line { IfErr result (IsBadBehind schema number held.items) }
{
    let base = tested_base(alloc, &schema, number, &held)?;
    match Site::open_from(alloc, schema, number, &base, MemoryMedium::new(held)) {
        Ok(site) => Ok(site),
        Err((fault, _medium)) => Err(fault),
    }
}

/// Opens the site over the records among the whole lines of a log whose front was let go, as
/// `open_lines` does where nothing was: the first of these records has to be a summary which some
/// lawful records may stand in front of, and is line 1.
pub(crate) fn open_behind<F: LogFile>(
    alloc: Global,
    schema: Schema,
    number: SiteNo,
    log: &mut F,
) -> Result<OpenedLog, OpenFault>
    requires in_schema { number.0 < schema.sites }
    ensures lines { IfOk result (λ opened. (held records : List ℕ)
        × HoldsRecords (F.bytes log.old) held opened.keys.last records
        × OpensBehind schema number records opened.site
        × IsCopyOf (F.bytes log.new) held × IsCopyOf (F.safe log.new) held) }
    ensures none { IfOk result (λ opened. opened.keys.lines ≡ []) }
    ensures stands { IfOk result (λ opened. StandsOnHeld opened.site) }
    ensures early { IfOk result (λ opened. (txn : Txn) → has_commit txn opened.site.gone ≡ true
        → txn.epoch ≡ 0) }
    ensures line { IfErr result (TellsBadBehind schema number (F.bytes log.old)) }
    ensures kept { OnErr result (KeepsLines (F.bytes log.old) (F.safe log.old)
        (F.safe log.new)) }
    ensures least { SparesLines (F.bytes log.old) (F.least log.old) (F.least log.new) }
    ensures same_bytes { IfErr result (λ fault. (n : ℕ) → fault ≡ OpenFault.Line n
        → F.bytes log.new ≡ F.bytes log.old) }
    ensures same_safe { IfErr result (λ fault. (n : ℕ) → fault ≡ OpenFault.Line n
        → F.safe log.new ≡ F.safe log.old) }
    ensures same_least { IfErr result (λ fault. (n : ℕ) → fault ≡ OpenFault.Line n
        → F.least log.new ≡ F.least log.old) }
{
    let held = read_lines(alloc, log)?;
    let torn = held.torn;
    let whole = held.lines.as_slice().len();
    let (keys, records) = split_lines(alloc, held.lines)?;
    let site = open_base(alloc, schema, number, records)?;
    keep_lines(log, whole, torn)?;
    Ok(OpenedLog { site, keys })
}
