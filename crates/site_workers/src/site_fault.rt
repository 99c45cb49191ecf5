//! Why a site has no history.

ghost use Rattle.std.specs.Prelude.{◌≡◌};
ghost use Rattle.site_workers.specs.Faults.{fault_of};

use site_desk::Receipt;
use work_faults::WorkFault;

/// Why a site has no history: its worker's fault, else its courier's, else that of its desk's close.
///
/// A fault behind the worker's comes with the receipts of what went well before, so none is told in
/// place of one that goes first.
#[derive(Drop, Debug)]
pub enum SiteFault {
    /// The worker came to this fault, or the site's threads couldn't be made: want of memory.
    Worker(WorkFault),
    /// The worker made all calls of its script, with these receipts. Its courier came to this fault,
    /// or memory was wanting to put the courier's receipts behind them.
    Courier {
        fault: WorkFault,
        receipts: Vec<Receipt>,
    },
    /// Both went well, with these receipts, the worker's in front. The close came to this fault.
    Close {
        fault: WorkFault,
        receipts: Vec<Receipt>,
    },
}

impl SiteFault {
    /// The fault, as a run of all sites tells it.
    pub fn fault(&self) -> WorkFault
        ensures value { result ≡ fault_of self.now }
    {
        match self {
            SiteFault::Worker(fault) => *fault,
            SiteFault::Courier { fault, receipts: _ } => *fault,
            SiteFault::Close { fault, receipts: _ } => *fault,
        }
    }
}
