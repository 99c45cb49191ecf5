//! What is told of what all sites answered.

ghost use Rattle.std.specs.Prelude.{◌≡◌, ◌≤◌, Err, IfOk, IfErr, IfSome, IfNone, length};
ghost use Rattle.work_faults.specs.declared.workers.WorkFault.TheVariants.{NoMemory};
ghost use Rattle.site_workers.specs.Jobs.{lowest_fault, answers_of, TellsCrossed};
ghost use Rattle.site_workers.specs.Scripts.{histories_of, NoneForeign, NoneLost};

use crate::crossing::{foreign, lost};
use crate::running::Answer;
use field_bounds::Entry;
use std::alloc::Global;
use work_faults::WorkFault;

/// The fault of the lowest site that has one. The answers are in order of site.
fn lowest_fault(answers: &[Answer]) -> Option<WorkFault>
    ensures value { result ≡ lowest_fault answers.now }
{
    for answer in answers {
        match answer {
            Ok(_) => {}
            Err(fault) => return Some(fault.fault()),
        }
    }
    None
}

/// The histories of all sites. Of several faults the one of the lowest site is answered.
fn histories_in(alloc: Global, answers: Vec<Answer>) -> Result<Vec<Vec<Entry>>, WorkFault>
    ensures lowest { IfSome (lowest_fault answers.items) (λ fault. result ≡ Err fault) }
    ensures memory { IfNone (lowest_fault answers.items)
        (IfErr result (λ fault. fault ≡ NoMemory)) }
    ensures ok { IfOk result (λ histories. answers.items ≡ answers_of histories.items) }
{
    if let Some(fault) = lowest_fault(answers.as_slice()) {
        return Err(fault);
    }
    let mut answers = answers;
    let mut histories = Vec::with_capacity(alloc, answers.len())?;
    while let Some(answer) = answers.pop() {
        match answer {
            Ok(history) => histories.push(history)?,
            Err(fault) => return Err(fault.fault()),
        }
    }
    histories.reverse();
    Ok(histories)
}

/// What is told of what all sites answered, in order of site, at most 65,536 of them: their
/// histories, each with its oldest entry first, or one fault.
///
/// Of several faults the one of the lowest site is told (`lowest`), which is its worker's before its
/// courier's, as `SiteFault` has them. Where each site has a history, `Foreign` names the lowest that
/// accepts a statement which wasn't issued, and where none does, `Lost` the lowest that lacks an
/// accept of one that was issued to it (`crossed`). At Ok there is no such site (`ok`). Else memory is
/// wanting.
///
/// Costs memory for the statements that the histories issue and accept.
///
/// Source: this project.
pub fn gather(alloc: Global, answers: Vec<Answer>) -> Result<Vec<Vec<Entry>>, WorkFault>
    requires few { length answers.items ≤ 65536 }

    // A fault of a site goes before whatever the histories show.
    ensures lowest { IfSome (lowest_fault answers.items) (λ fault. result ≡ Err fault) }

    // Without one, Foreign and Lost name the lowest site of these histories that shows it.
    ensures crossed { IfNone (lowest_fault answers.items)
        (IfErr result (TellsCrossed answers.items)) }

    // All answers are these histories, and nothing is foreign or lost in them.
    ensures ok { IfOk result (λ hs. answers.items ≡ answers_of hs.items) }
    ensures none_foreign { IfOk result (λ hs. NoneForeign (histories_of hs.items)) }
    ensures none_lost { IfOk result (λ hs. NoneLost (histories_of hs.items)) }
{
    let histories = histories_in(alloc, answers)?;
    let strange = foreign(alloc, histories.as_slice())?;
    if let Some(site) = strange {
        return Err(WorkFault::Foreign { site });
    }
    let lacking = lost(alloc, histories.as_slice())?;
    if let Some(site) = lacking {
        return Err(WorkFault::Lost { site });
    }
    Ok(histories)
}
