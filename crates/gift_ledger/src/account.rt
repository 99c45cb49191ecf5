//! The totals between two sites, and the fault of a gift.

/// The totals of one kind on a field between a site and another, in rights.
#[derive(Clone, Copy, Debug, PartialEq, Eq)]
pub struct Account {
    /// Given to the other site so far, at most 1,000,000,000,000,000,000.
    pub given: u64,
    /// The greatest total accepted from the other site.
    pub accepted: u64,
}

/// The totals of both kinds on a field between a site and another.
#[derive(Clone, Copy, Debug, PartialEq, Eq)]
pub struct FieldAccounts {
    pub lower: Account,
    pub raise: Account,
}

/// The total given so far and the amount are together above 1,000,000,000,000,000,000; the total so
/// far is told, in rights.
#[derive(Clone, Copy, Debug, PartialEq, Eq)]
pub struct LedgerFull {
    pub total: u64,
}
