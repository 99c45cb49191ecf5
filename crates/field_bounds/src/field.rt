//! What a schema is told of a field.

/// The parts of one field: a name of 1 to 32 bytes of `a-z0-9_`, and three quantities within
/// -10^15 to 10^15 with `floor <= value <= ceiling`. A value of this type may break those limits:
/// `Schema::new` tests them.
#[derive(Debug, Drop)]
pub struct FieldSpec {
    pub name: String,
    pub floor: i64,
    pub ceiling: i64,
    pub value: i64,
}
