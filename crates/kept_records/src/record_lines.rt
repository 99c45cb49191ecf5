//! What stands next in bytes that are read as records line by line.

use crate::record::Record;

/// What stands next in bytes that are read line by line.
#[derive(Drop)]
pub enum RecordLine {
    /// The text of this record.
    Record(Record),
    /// A line that is the text of no record.
    NoRecord,
    /// No line ends there.
    End,
}
