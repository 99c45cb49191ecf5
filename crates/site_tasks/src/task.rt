//! What the command line asks for.

use log_stand::Stand;

/// How a folder is served.
#[derive(Clone, Copy, Debug, Drop, PartialEq, Eq)]
pub struct Serving {
    /// Whether its files are synced.
    pub is_synced: bool,
    /// Whether a trace is kept beside its log.
    pub is_traced: bool,
    /// How far its log has come at least, or None where that isn't told.
    pub not_before: Option<Stand>,
    /// How many bytes of its log stay at least while it lets go of its front, or None where it keeps
    /// all.
    pub keep: Option<usize>,
    /// Whether the log as it was is kept behind each time that it let go of its front.
    pub is_archived: bool,
}

/// How a world is settled.
#[derive(Clone, Copy, Debug, Drop, PartialEq, Eq)]
pub struct Settling {
    /// Whether the header is told alone, and no folder is closed.
    pub is_dry: bool,
    /// Whether the header of a world whose folders are all closed is told again.
    pub is_again: bool,
}

/// What the command line asks for.
#[derive(Drop)]
pub enum Task {
    /// To make the folder of the site of this number, by the schema in a file, in the world of this name.
    /// None: no name was given, so that nothing is made.
    Create {
        folder: String,
        schema: String,
        site: u64,
        name: Option<String>,
    },
    /// To serve the site of a folder.
    Serve {
        folder: String,
        how: Serving,
    },
    /// To tell what the log of a folder stands for.
    Show {
        folder: String,
    },
    /// To check the logs of all sites of a world together.
    Check {
        folders: Vec<String>,
    },
    /// To verify the log of a folder with all parts that were kept of it.
    Verify {
        folder: String,
    },
    /// To write the header of a world that goes on where the logs end, and to close the folders.
    Settle {
        folders: Vec<String>,
        how: Settling,
    },
    /// To write one trace of all sites of a world.
    Weave {
        folders: Vec<String>,
    },
    /// To judge the one trace of all sites of a world.
    Judge {
        folders: Vec<String>,
    },
    /// To tell which versions of files are read and made.
    Version,
}
