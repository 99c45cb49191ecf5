//! Where two parts of a log join.

ghost use Rattle.std.specs.Prelude.{◌≡◌, ◌+◌, ◌<◌, ◌&&◌, ◌↔◌, length, IfOk, IfSome, IfNone, IsTrue};
ghost use Rattle.folder_logs.specs.Files.{bytes_of};
ghost use Rattle.log_archives.specs.Heads.{bytes_told, goes_on, records_told};
ghost use Rattle.log_archives.specs.Joints.{HasLines, HeadTells, IsJointFault, Joins, TellsLines, TellsWrongly};

use crate::fault::JointFault;
use crate::finding::{BaseFound, find_base};
use crate::reach::{goes_on, records_told};
use crate::survey::survey;
use field_bounds::{Schema, SiteNo};
use held_logs::{HeldLog, replay_held};
use log_head::Gone;
use log_replay::LogReplayed;
use std::alloc::{AllocError, Global};

// Why the records of which this is gone aren't lawful, or None where they are.
fn why_unlawful(
    alloc: Global,
    schema: &Schema,
    site: SiteNo,
    gone: &Option<Gone>,
    records: &[u8],
) -> Result<Option<JointFault>, AllocError>
    requires site_in { site.0 < schema.now.sites }
    ensures lawful { IfOk result (λ fault. IfNone fault (HasLines schema.now site.0 gone.now records.now)) }
    ensures fault { IfOk result (λ fault. IfSome fault (TellsLines schema.now site.0 gone.now records.now)) }
{
    match replay_held(alloc, schema, site, gone, records)? {
        LogReplayed::Standing { .. } => Ok(None),
        LogReplayed::BadLine { number } => Ok(Some(JointFault::BadLine { number })),
        LogReplayed::BreaksRule { number } => Ok(Some(JointFault::BreaksRule { number })),
    }
}

// Whether so many records more are told to be gone.
fn tells_records(gone: &Option<Gone>, told: &Gone, more: usize) -> bool
    ensures is { IsTrue result ↔ (told.now.records ≡ records_told gone.now + more) }
{
    u128::from(told.records) == u128::from(records_told(gone)) + more as u128
}

// Whether a horizon is told that has passed all that might be gone before, and all that goes now.
fn tells_horizon(gone: &Option<Gone>, told: &Gone, all_may_go: bool) -> bool
    ensures value { result ≡ all_may_go && goes_on gone.now told.now.horizon }
{
    if all_may_go {
        goes_on(gone, &told.horizon)
    } else {
        false
    }
}

// Why what is told isn't right once this front of a part is gone too, or None where it is.
fn why_untold(
    alloc: Global,
    gone: &Option<Gone>,
    front: &[u8],
    told: &Gone,
) -> Result<Option<JointFault>, AllocError>
    requires place { told.now.bytes ≡ bytes_told gone.now + length front.now }
    ensures tells { IfOk result (λ fault. IfNone fault (HeadTells gone.now front.now told.now)) }
    ensures fault { IfOk result (λ fault. IfSome fault (TellsWrongly gone.now front.now told.now)) }
{
    let seen = survey(alloc, &told.horizon, front)?;
    if seen.left != 0 {
        return Ok(Some(JointFault::OtherBytes));
    }
    if !tells_records(gone, told, seen.plain) {
        return Ok(Some(JointFault::OtherRecords));
    }
    if !tells_horizon(gone, told, seen.all_may_go) {
        return Ok(Some(JointFault::OtherHorizon));
    }
    Ok(None)
}

/// Why the next part of a log doesn't go on where a part of it leaves off, or None where it does. Of the
/// part, `gone` and the records are what `read_held` found; of the next one `told` is what its head tells
/// to be gone, and `next` the bytes of its records.
///
/// None (`joins`): in the part, at the place that the next head tells, the base stands with which the next
/// one begins; the records of the part up to and with it are lawful, behind each past that the base of
/// the part itself has, or as a whole log where nothing is gone; and what the next head tells is right of
/// what is gone then: its bytes, its records but summaries, and that its horizon has passed each commit
/// among them, and all that the horizon of the part has passed. What the part holds behind that place
/// isn't looked at: the next one has it. That a chain of such parts is one lawful log is the law
/// `joined_parts_are_one_log`, that its heads tell rightly what is gone `joints_go_on`.
///
/// The error is want of memory, which can come in place of any answer. Costs what `replay_held` does, and
/// two passes more over the part; memory for a standing, and for one record at a time.
///
/// Source: Balegas and others 2015 for the rights and the totals; this project for parts.
pub fn check_joint(
    alloc: Global,
    schema: &Schema,
    site: SiteNo,
    part: &HeldLog<'_>,
    told: &Gone,
    next: &[u8],
) -> Result<Option<JointFault>, AllocError>
    requires site_in { site.0 < schema.now.sites }
    ensures joins { IfOk result (λ fault. IfNone fault (Joins schema.now site.0 part.now.gone
        (bytes_of part.now.records) told.now next.now)) }
    ensures fault { IfOk result (λ fault. IfSome fault (IsJointFault schema.now site.0 part.now.gone
        (bytes_of part.now.records) told.now next.now)) }
{
    let held = part.records.as_slice();
    let (cut, base) = match find_base(alloc, &part.gone, held, told, next)? {
        BaseFound::At { cut, base } => (cut, base),
        BaseFound::Short => return Ok(Some(JointFault::Short)),
        BaseFound::OtherBase => return Ok(Some(JointFault::OtherBase)),
        BaseFound::OtherBytes => return Ok(Some(JointFault::OtherBytes)),
    };
    let lines = &held[..cut + base];
    if let Some(fault) = why_unlawful(alloc, schema, site, &part.gone, lines)? {
        return Ok(Some(fault));
    }
    why_untold(alloc, &part.gone, &held[..cut], told)
}
