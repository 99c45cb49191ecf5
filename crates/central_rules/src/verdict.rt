//! What a judge answers.

/// The rules of a trace, in the order in which they are tested.
///
/// Source: O'Neil 1986 for the bounds and the value of one central store, Balegas and others 2015
/// for what was given before it is accepted, this project for the rules.
#[derive(Clone, Copy, Debug, PartialEq, Eq)]
pub enum Rule {
    /// The entry's site is in the schema.
    Site,
    /// An escrow that was granted, and rights that were given up, are allowed by the infimum or the
    /// supremum.
    Grant,
    /// A shortage names the site's share, which is less than was asked.
    Shortage,
    /// An interval that was read holds the committed value.
    Interval,
    /// A statement that is accepted, or whose acceptance is in doubt, was issued before.
    Statement,
    /// The reply is one that the site owes after its own entries.
    Reply,
}

/// Whether entries are legal; else the first bad one, counted from 1, and the first rule that it
/// breaks.
#[derive(Clone, Copy, Debug, PartialEq, Eq)]
pub enum Verdict {
    Legal,
    Illegal { at: u64, rule: Rule },
}
