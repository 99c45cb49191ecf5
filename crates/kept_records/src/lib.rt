//! What a site keeps across a stop: a medium of bytes with its law, and the records that are
//! written to it, one line each, so that a torn end can't corrupt what was kept before.
#![tactic(auto)]

mod counting;
mod cursor;
mod keeping;
mod laws;
mod lent_records;
mod log;
mod macros;
mod medium;
mod memory;
mod reading;
mod reading_back;
mod record;
mod record_lines;
mod straight;
mod summary;
mod summary_reading;
mod torn;
mod total;
mod writing;

pub use counting::{LogCount, count_log};
pub use cursor::Cursor;
pub use keeping::{
    append_commit, append_piece, append_record, append_restart_piece, starts_with_no_restart,
};
pub use laws::{
    kept_bytes_tell_what_stands, no_text_begins_another, summaries_tell_nothing_new,
    summary_tells_what_stands, torn_end_keeps_records, torn_piece_leaves_a_front,
};
pub use lent_records::{CommonRecord, LentRecords};
pub use log::{Front, RecordFault, read_front, read_records};
pub use medium::{Device, End, Medium, MediumFault, Mishap};
pub use memory::MemoryMedium;
pub use reading_back::{LastLines, ReadBack, count_plain, plain_count, read_back};
pub use record::{Escrows, Record};
pub use record_lines::RecordLine;
pub use summary::Summary;
pub use torn::TornMedium;
pub use total::{Cut, Cuts, OwnRights, Total, Totals};
pub use writing::write_record;
