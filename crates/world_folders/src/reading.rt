//! What is read of the system by paths.

ghost use Rattle.std.specs.Prelude.{◌≡◌, ◌≢◌, ℕ, Bool, List, IfOk, IfErr};
ghost use Rattle.std.specs.IoError.{error_kind};
ghost use Rattle.world_folders.specs.declared.reading.PathFault.{PathFault};
ghost use Rattle.world_folders.specs.declared.reading.PathFault.TheVariants.{Failed, NoFolder, NotThere};
ghost use Rattle.world_folders.specs.Reading.{IsRead, IsSeen};

use crate::progress::tell_reading;
use field_bounds::SiteNo;
use std::fs;
use std::io::{self, ErrorKind};

/// Why a call of the system at a path failed.
#[derive(Debug, Drop)]
pub enum PathFault {
    /// Nothing is at its path.
    NotThere,
    /// On its path something stands for a folder that is none.
    NoFolder,
    /// The system can't, for this reason.
    Failed(io::Error),
}

impl PathFault {
    /// Why a call at a path failed, by what the system told.
    pub fn of(error: io::Error) -> PathFault
        ensures missing { error_kind error ≡ ErrorKind.NotFound → result ≡ NotThere }
        ensures file { error_kind error ≡ ErrorKind.NotADirectory → result ≡ NoFolder }
        ensures other { error_kind error ≢ ErrorKind.NotFound
            → error_kind error ≢ ErrorKind.NotADirectory → result ≡ Failed error }
    {
        match error.kind() {
            ErrorKind::NotFound => PathFault::NotThere,
            ErrorKind::NotADirectory => PathFault::NoFolder,
            _ => PathFault::Failed(error),
        }
    }
}

/// Files that are read by their paths.
///
/// No contract can see what a file of the system holds, so an implementation may know of none: then
/// each clause holds, and tells nothing. What is proved over this trait is proved of all files that are
/// read as it says; that those of the system are is a premise.
pub trait ReadsFiles {
    /// The file at this path is known to hold these bytes.
    ghost holds: { Self → List ℕ → List ℕ → Type 0 };

    /// It is known whether there is a file at this path.
    ghost stands: { Self → List ℕ → Bool → Type 0 };

    /// A call at this path may fail so.
    ghost fails: { Self → List ℕ → PathFault → Type 0 };

    /// The bytes of the file at a path, as it is now.
    fn read(&self, path: &str) -> Result<Vec<u8>, PathFault>
        ensures read { IfOk result (λ bytes. IsRead (holds self.now) path.now bytes.items) }
        ensures unread { IfErr result (fails self.now path.now) };

    /// Whether there is a file at a path.
    fn is_there(&self, path: &str) -> Result<bool, PathFault>
        ensures seen { IfOk result (λ there. IsSeen (stands self.now) path.now there) }
        ensures unseen { IfErr result (fails self.now path.now) };

    /// Tells who looks on that the folder of a site is read.
    fn tell_reading(&self, folder: &str, site: SiteNo, sites: u16);
}

impl ReadsFiles for HostRuntime {
    ghost holds = { λ _ _ _. ⊥ };

    ghost stands = { λ _ _ _. ⊥ };

    ghost fails = { λ _ _ _. Unit {0} };

    fn read(&self, path: &str) -> Result<Vec<u8>, PathFault> {
        fs::read(self, path).map_err(PathFault::of)
    }

    fn is_there(&self, path: &str) -> Result<bool, PathFault> {
        fs::exists(self, path).map_err(PathFault::of)
    }

    fn tell_reading(&self, folder: &str, site: SiteNo, sites: u16) {
        tell_reading(self, folder, site, sites);
    }
}
