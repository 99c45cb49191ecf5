//! Why receipts aren't those of a history.

use field_bounds::SiteNo;
use thiserror::Error;

/// Why receipts aren't those of a history. Numbers are places in the history, from 1.
#[derive(Clone, Copy, Debug, PartialEq, Eq, Error)]
pub enum ReceiptFault {
    /// This receipt is of another site or of no place of the history, or another entry stands
    /// there.
    #[error("receipt {number} of site {site:?} is no entry of the history")]
    Differs { site: SiteNo, number: u64 },
    /// An earlier receipt has this place.
    #[error("receipt {number} of site {site:?} is there twice")]
    Twice { site: SiteNo, number: u64 },
    /// No receipt has this place, the least such.
    #[error("receipt {number} of site {site:?} is missing")]
    Missing { site: SiteNo, number: u64 },
    /// Memory is wanting.
    #[error("out of memory")]
    NoMemory,
}
