//! What files tell of a call that failed.

use file_medium::{FileFault, HostFile, LogFile};

/// A file that tells which call of it failed, and why.
pub trait TellsFault: LogFile + Drop {
    /// The last call that failed, where one did.
    fn take_fault(&mut self) -> Option<FileFault>;
}

impl TellsFault for HostFile {
    fn take_fault(&mut self) -> Option<FileFault> {
        HostFile::take_fault(self)
    }
}
