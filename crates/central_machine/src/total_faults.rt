//! The part of the totals: what it finds first.

ghost use Rattle.std.specs.Prelude.{IfOk};
ghost use Rattle.central_machine.specs.declared.part.Part.TheVariants.{OnTotals};
ghost use Rattle.central_machine.specs.Parts.{IsFault};

use crate::judging::length_of;
use crate::part::RuleFault;
use crate::totals::FrontTotals;
use field_bounds::{Entry, Schema};
use std::alloc::{AllocError, Global};

/// The first entry that breaks a rule on fields, or has a reply that its site doesn't owe.
pub fn totals_fault(
    alloc: Global,
    schema: &Schema,
    entries: &[Entry],
) -> Result<Option<RuleFault>, AllocError>
    ensures { IfOk result (λ fault. IsFault schema.now entries.now OnTotals fault) }
{
    let _few = length_of(entries);
    let mut totals = FrontTotals::new(alloc, schema)?;
    for (place, entry) in entries.iter().enumerate() {
        if let Some(rule) = totals.take_in(alloc, schema, entry)? {
            return Ok(Some(RuleFault { place, rule }));
        }
    }
    Ok(None)
}
