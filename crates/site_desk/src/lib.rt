//! A desk: one site behind one lock, which many threads call. Each call is one step of the site
//! under the lock, and each caller gets a receipt.
#![tactic(auto)]

mod desk;
mod fault;
mod gate;
mod locked;
mod receipts;

pub use desk::{CloseError, Desk};
pub use fault::DeskFault;
pub use gate::{FreeGate, Gate};
pub use locked::{Blank, Closed, Kept, Pass, Receipt};
pub use receipts::check_receipts;
pub use work_faults::ReceiptFault;
