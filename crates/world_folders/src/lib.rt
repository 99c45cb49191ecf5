//! The folders of the sites of one world, and what their logs and traces come to, by the bytes that are
//! read of them. Files are read over the trait `ReadsFiles`; none is opened or locked here.
#![tactic(auto)]

mod checking;
mod folder;
mod folder_log;
mod marks;
mod progress;
mod reading;
mod settling;
mod showing;
mod tells_fault;
mod tracing;
mod weaving;
mod worlds;

pub use checking::checked_states;
pub use folder::{Paths, read_fault, read_file, read_site};
pub use folder_log::{count_records, damaged_line, held_in, read_stand};
pub use marks::check_mark;
pub use progress::tell_reading;
pub use reading::{PathFault, ReadsFiles};
pub use settling::{lost_sites, ranges_of, settled_header};
pub use showing::{Shown, read_records};
pub use tells_fault::TellsFault;
pub use tracing::{TraceCut, cut_back, read_cut, read_kept_entries};
pub use weaving::read_histories;
pub use worlds::{SiteFolder, WorldFolders, read_world};
