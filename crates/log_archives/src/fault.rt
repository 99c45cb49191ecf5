//! Why two parts of a log don't join.

use thiserror::Error;

/// Why the next part of a log doesn't go on where a part leaves off. Lines are those of the records of
/// the part, the first being 1: so a record's number is its line's.
#[derive(Clone, Copy, Debug, Drop, PartialEq, Eq, Error)]
pub enum JointFault {
    /// This line of the part is the first that is no record.
    #[error("line {number} is no record")]
    BadLine { number: u64 },
    /// This record of the part is the first that may not stand behind those before it. It may be the
    /// base of the next part, which isn't the summary then of what stands in front of it.
    #[error("record {number} breaks a rule")]
    BreaksRule { number: u64 },
    /// The part ends in front of the place at which the next one begins, or within its base there.
    #[error("the part is too short")]
    Short,
    /// The next part begins with no base, or with another line than stands at that place in the part.
    #[error("the next part begins with another base")]
    OtherBase,
    /// The head of the next part tells other bytes to be gone: it tells no more than that of the part,
    /// or no record ends there.
    #[error("the next head tells other bytes")]
    OtherBytes,
    /// The head of the next part tells other records to be gone.
    #[error("the next head tells other records")]
    OtherRecords,
    /// The horizon of the next part hasn't passed a commit that is gone, or one that the horizon of the
    /// part has passed.
    #[error("the next head tells another horizon")]
    OtherHorizon,
}
