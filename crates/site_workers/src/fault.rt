//! How faults of a site's parts are told as faults of a run.

ghost use Rattle.std.specs.Prelude.{◌≡◌};
ghost use Rattle.site_workers.specs.Faults.{fault_of_call, fault_of_courier, fault_of_receipts};

use field_bounds::SiteNo;
use site_desk::DeskFault;
use work_faults::{ReceiptFault, WorkFault};

/// How a fault of a desk's call is told.
pub(crate) fn fault_of_call(site: SiteNo, fault: DeskFault) -> WorkFault
    ensures { result ≡ fault_of_call site fault }
{
    match fault {
        DeskFault::NoMemory => WorkFault::NoMemory,
        DeskFault::WentBack { length } => WorkFault::WentBack { site, length },
        DeskFault::GateTurns => WorkFault::GateTurns,
    }
}

/// How a courier's fault is told of its site. Its inbox is closed early only where a thread that
/// couldn't be made has left an End out, so that is told as the same.
pub(crate) fn fault_of_courier(fault: WorkFault) -> WorkFault
    ensures { result ≡ fault_of_courier fault }
{
    match fault {
        WorkFault::Lost { .. } => WorkFault::NoMemory,
        WorkFault::GateTurns
        | WorkFault::WentBack { .. }
        | WorkFault::Passes { .. }
        | WorkFault::Receipts(_)
        | WorkFault::Foreign { .. }
        | WorkFault::NoMemory => fault,
    }
}

/// How a fault of receipts is told.
pub(crate) fn fault_of_receipts(fault: ReceiptFault) -> WorkFault
    ensures { result ≡ fault_of_receipts fault }
{
    match fault {
        ReceiptFault::NoMemory => WorkFault::NoMemory,
        ReceiptFault::Differs { .. } | ReceiptFault::Twice { .. } | ReceiptFault::Missing { .. } =>
            WorkFault::Receipts(fault),
    }
}
