//! Why the log of a folder isn't verified, in words that name the file.

ghost use Rattle.std.specs.Prelude.{◌≡◌, IfOk, string_bytes};
ghost use Rattle.folder_faults.specs.declared.fault.Fault.TheVariants.{NoMemory};
ghost use Rattle.folder_archives.specs.declared.fault.VerifyFault.TheVariants.{Log};
ghost use Rattle.folder_archives.specs.Faults.{status_of_verify};
ghost use Rattle.folder_archives.specs.Steps.{IsToldOf, TellsHeldFault, TellsJointFault};

use crate::beginning::Beginning;
use folder_faults::Fault;
use held_logs::HeldFault;
use log_archives::JointFault;
use std::alloc::{AllocError, Global};
use thiserror::Error;

/// Why a part of a log is refused, or the log as the last one. A path is that of the part which the
/// other one doesn't go with.
#[derive(Debug, Drop, Error)]
pub enum PartWhy {
    #[error("isn't there: what is in front of it can't be verified")]
    Missing,
    #[error("isn't a log of this site, or is a later program's")]
    Other,
    #[error("its head was changed")]
    Changed,
    #[error("line {0}: the batch that begins there is damaged")]
    Damaged(u64),
    #[error("line {0} is no record of this site")]
    BadLine(u64),
    #[error("ends before {0} begins")]
    Short(String),
    #[error("its first record isn't the summary that stands there in {0}")]
    OtherBase(String),
    #[error("its head tells other bytes to be gone than {0} has")]
    OtherBytes(String),
    #[error("its head tells other records to be gone than {0} has")]
    OtherRecords(String),
    #[error("its head tells a horizon that hasn't passed what is gone by {0}")]
    OtherHorizon(String),
}

/// Why the log of a folder isn't verified.
#[derive(Debug, Drop, Error)]
pub enum VerifyFault {
    /// The log itself is refused, a call of the system failed, or memory was wanting.
    #[error("{0}")]
    Log(Fault),
    /// What lies at this path is refused, or that nothing does.
    #[error("{0}: {1}")]
    Part(String, PartWhy),
}

impl From<AllocError> for VerifyFault {
    ghost from_gives = { λ _ fault. fault ≡ Log NoMemory };

    fn from(_refused: AllocError) -> VerifyFault {
        VerifyFault::Log(Fault::NoMemory)
    }
}

impl From<Fault> for VerifyFault {
    ghost from_gives = { λ given fault. fault ≡ Log given };

    fn from(fault: Fault) -> VerifyFault {
        VerifyFault::Log(fault)
    }
}

impl VerifyFault {
    /// The status with which the program ends.
    pub fn status(&self) -> u8
        ensures { result ≡ status_of_verify self.now }
    {
        match self {
            VerifyFault::Log(fault) => fault.status(),
            VerifyFault::Part(..) => 3,
        }
    }
}

/// The fault of a part, or of the log as the last one.
pub(crate) fn part_fault(alloc: Global, path: &str, why: PartWhy) -> VerifyFault
    ensures told { IsToldOf path.now why result }
{
    match String::from_str(alloc, path) {
        Ok(path) => VerifyFault::Part(path, why),
        Err(_) => VerifyFault::Log(Fault::NoMemory),
    }
}

/// Why the file at a path is no part.
pub(crate) fn held_fault(alloc: Global, path: &str, fault: HeldFault) -> VerifyFault
    ensures told { TellsHeldFault path.now fault result }
{
    match fault {
        HeldFault::Other => part_fault(alloc, path, PartWhy::Other),
        HeldFault::Changed => part_fault(alloc, path, PartWhy::Changed),
        HeldFault::Damaged { line } => part_fault(alloc, path, PartWhy::Damaged(line)),
        HeldFault::NoMemory => VerifyFault::Log(Fault::NoMemory),
    }
}

/// Why the part at a path and the next one don't join: a fault of the one or of the other.
pub(crate) fn joint_fault(
    alloc: Global,
    path: &str,
    next: &Beginning,
    fault: JointFault,
) -> Result<VerifyFault, AllocError>
    ensures told { IfOk result (TellsJointFault path.now (string_bytes next.now.path) fault) }
{
    let of = String::from_str(alloc, path)?;
    let next = next.path.as_str();
    match fault {
        JointFault::BadLine { number } | JointFault::BreaksRule { number } => {
            Ok(part_fault(alloc, path, PartWhy::BadLine(number)))
        }
        JointFault::Short => {
            let next = String::from_str(alloc, next)?;
            Ok(part_fault(alloc, path, PartWhy::Short(next)))
        }
        JointFault::OtherBase => Ok(part_fault(alloc, next, PartWhy::OtherBase(of))),
        JointFault::OtherBytes => Ok(part_fault(alloc, next, PartWhy::OtherBytes(of))),
        JointFault::OtherRecords => Ok(part_fault(alloc, next, PartWhy::OtherRecords(of))),
        JointFault::OtherHorizon => Ok(part_fault(alloc, next, PartWhy::OtherHorizon(of))),
    }
}
