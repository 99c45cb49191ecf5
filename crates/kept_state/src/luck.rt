//! How an append goes.

/// How the append of one step ends.
#[derive(Clone, Copy, Debug, PartialEq, Eq)]
pub enum Luck {
    /// The append is whole.
    Fine,
    /// The append is torn: the medium keeps so many bytes of the record, or all of it where it has
    /// no more, and the site doesn't learn which.
    Torn(u64),
}
