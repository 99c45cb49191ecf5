//! The parts of the judge's work, and what a part finds.

use central_rules::Rule;

/// A part of the work: the rules Site and Statement, or the rules that are tested by the running
/// totals: Grant, Shortage, Interval and Reply.
#[derive(Clone, Copy)]
pub enum Part {
    Statements,
    OnTotals,
}

/// A bad entry, by its place, and a rule that it breaks.
#[derive(Clone, Copy)]
pub struct RuleFault {
    pub place: usize,
    pub rule: Rule,
}
