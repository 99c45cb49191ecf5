//! The rights on one field, and the words of the calls that change them.

/// The rights of one kind on a field, in units of the field.
#[derive(Clone, Copy, Debug, PartialEq, Eq)]
pub struct Amounts {
    /// Free to be taken.
    pub free: u64,
    /// Set aside by open transactions.
    pub held: u64,
    /// Given up for good: by so much the field's bound of the kind is tighter.
    pub cut: u64,
}

/// The rights of both kinds on a field, and the field's width, which is the schema's ceiling less
/// its floor. The six amounts together never exceed the width, and the width is at most
/// 2,000,000,000,000,000.
#[derive(Clone, Copy, Debug, PartialEq, Eq)]
pub struct FieldRights {
    pub width: u64,
    pub lower: Amounts,
    pub raise: Amounts,
}

/// More was asked than is free; the share is what is free.
#[derive(Clone, Copy, Debug, PartialEq, Eq)]
pub struct Short {
    pub share: u64,
}

/// How a transaction ends.
#[derive(Clone, Copy, Debug, PartialEq, Eq)]
pub enum Outcome {
    Committed,
    Aborted,
}
