//! Why a run of workers gave no histories.

ghost use Rattle.std.specs.Prelude.{◌≡◌};
ghost use Rattle.work_faults.specs.declared.workers.WorkFault.TheVariants.{NoMemory};

use crate::receipts::ReceiptFault;
use field_bounds::SiteNo;
use std::alloc::{AllocError, AllocFailed};
use thiserror::Error;

/// Why a run of workers gave no histories.
#[derive(Clone, Copy, Debug, PartialEq, Eq, Error)]
pub enum WorkFault {
    /// The gate turned a worker's call away.
    #[error("the gate turned a call away")]
    GateTurns,
    /// The history of this site was found to have this length, in entries, which is below the
    /// number of an entry that was seen before.
    #[error("the history of site {site:?} went back to {length} entries")]
    WentBack { site: SiteNo, length: u64 },
    /// The calls of this site's worker and courier aren't as many as its entries, or its history
    /// doesn't stand on the fresh base.
    #[error("the calls at site {site:?} aren't its history")]
    Passes { site: SiteNo },
    /// The receipts of a worker and its courier aren't the entries of their site. Want of memory is
    /// never told so.
    #[error("{0}")]
    Receipts(ReceiptFault),
    /// This site, the lowest such, accepted a statement that the site which it names didn't issue.
    #[error("site {site:?} accepted a statement that wasn't issued")]
    Foreign { site: SiteNo },
    /// This site, the lowest such, didn't accept a statement that was issued to it. Of a courier
    /// that is called alone: its inbox was closed before each worker had ended.
    #[error("site {site:?} lacks a statement that was issued to it")]
    Lost { site: SiteNo },
    /// Memory is wanting, or a thread couldn't be made.
    #[error("out of memory")]
    NoMemory,
}

impl<T: Drop> From<AllocFailed<T>> for WorkFault {
    ghost use Rattle.std.specs.Prelude.{◌≡◌};
    ghost use Rattle.work_faults.specs.declared.workers.WorkFault.TheVariants.{NoMemory};

    ghost from_gives = { λ _ e. e ≡ NoMemory };

    fn from(_refused: AllocFailed<T>) -> WorkFault {
        WorkFault::NoMemory
    }
}

impl From<AllocError> for WorkFault {
    ghost from_gives = { λ _ e. e ≡ NoMemory };

    fn from(_refused: AllocError) -> WorkFault {
        WorkFault::NoMemory
    }
}
