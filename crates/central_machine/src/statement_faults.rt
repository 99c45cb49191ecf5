//! The part of the statements: what it finds first.

ghost use Rattle.std.specs.Prelude.{◌≡◌, IfOk, List};
ghost use Rattle.field_bounds.specs.declared.entry.Entry.{Entry};
ghost use Rattle.central_machine.specs.Parts.{IsFault, part_rule};
ghost use Rattle.statement_set.specs.Issued.{HasIssued};
ghost use Rattle.central_machine.specs.declared.part.Part.TheVariants.{Statements};

use crate::part::RuleFault;
use crate::statements;
use central_rules::Rule;
use field_bounds::{Entry, Schema};
use statement_set::StatementSet;
use std::alloc::{AllocError, Global};

/// The first of the rules Site and Statement that the next entry breaks.
fn statements_broken(issued: &StatementSet, schema: &Schema, entry: &Entry) -> Option<Rule>
    ensures { (t : List Entry) → HasIssued issued.now t →
        result ≡ part_rule schema.now t entry.now Statements }
{
    if entry.site.0 >= schema.sites() {
        return Some(Rule::Site);
    }
    if !statements::holds(issued, entry) {
        return Some(Rule::Statement);
    }
    None
}

/// The first entry of a site that isn't in the schema, or that takes in a statement that wasn't
/// issued.
pub fn statements_fault(
    alloc: Global,
    schema: &Schema,
    entries: &[Entry],
) -> Result<Option<RuleFault>, AllocError>
    ensures { IfOk result (λ fault. IsFault schema.now entries.now Statements fault) }
{
    let mut issued = StatementSet::new(alloc);
    for (place, entry) in entries.iter().enumerate() {
        if let Some(rule) = statements_broken(&issued, schema, entry) {
            return Ok(Some(RuleFault { place, rule }));
        }
        statements::note(&mut issued, entry)?;
    }
    Ok(None)
}
