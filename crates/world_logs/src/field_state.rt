//! Where a field stands.

/// The committed value of a field, and its bounds as far as they were tightened, in units of the
/// field. Each is within -10^15 to 10^15, and the value lies between the other two.
#[derive(Clone, Copy, Debug, PartialEq, Eq)]
pub struct FieldState {
    pub value: i64,
    pub floor: i64,
    pub ceiling: i64,
}

/// Between which values the committed value of a field lies, the two included, in units of the
/// field. Each is within -10^15 to 10^15, and the least is no more than the greatest.
#[derive(Clone, Copy, Debug, PartialEq, Eq)]
pub struct FieldRange {
    pub least: i64,
    pub greatest: i64,
}
