use crate::address_fault::AddressFault;
use crate::file_fault::{Cause, SystemWord};
use crate::folder_fault::FolderFault;
use crate::key_fault::KeyFault;
use rly_core::Refusal;
use rly_plan::PlanFault;
use std::alloc::AllocError;
use thiserror::Error;

/// The error of a relay that wasn't started, or didn't end well; displays as the lines for standard error.
#[derive(Debug, Drop, Error)]
pub enum ServeFault {
    /// The plan can't be read, or isn't UTF-8.
    #[error("rly: plan failed\nrly: plan: {0}")]
    Plan(SystemWord),
    /// The plan is something other than a file, such as a pipe.
    #[error("rly: plan failed\nrly: plan: not a regular file")]
    SpecialPlan,
    /// A socket refused an address of a link.
    #[error("rly: link failed\nrly: {0}")]
    Link(AddressFault),
    /// A file is no valid key for a link.
    #[error("rly: key failed\nrly: {0}")]
    Key(KeyFault),
    /// A folder can't play a neighbour.
    #[error("rly: folder failed\nrly: {0}")]
    Folder(FolderFault),
    /// There was no thread for a worker or the reporter.
    #[error("rly: worker failed")]
    Worker,
    /// Standard error failed, so the startup or end line was not written.
    #[error("rly: output failed")]
    Unreported,
    /// The plan or the device was refused, or the journal ended broken.
    #[error("{0}{1}")]
    Refused(Refusal, Cause),
}

impl From<AllocError> for ServeFault {
    ghost use Rattle.std.specs.Prelude.{◌≡◌};
    ghost use Rattle.rly_core.specs.declared.refusal.Refusal.TheVariants.{OutOfMemory};
    ghost use Rattle.rly_station.specs.declared.serve_fault.ServeFault.TheVariants.{Refused};
    ghost use Rattle.rly_station.specs.declared.file_fault.Cause.TheVariants.{NoCause};

    ghost from_gives = { λ _ fault. fault ≡ Refused OutOfMemory NoCause };

    fn from(_refused: AllocError) -> ServeFault {
        ServeFault::Refused(Refusal::OutOfMemory, Cause::NoCause)
    }
}

impl From<PlanFault> for ServeFault {
    ghost use Rattle.std.specs.Prelude.{◌≡◌};
    ghost use Rattle.rly_station.specs.Faults.{cause_at};
    ghost use Rattle.rly_station.specs.declared.serve_fault.ServeFault.TheVariants.{Refused};

    ghost from_gives = { λ plan fault. fault ≡ Refused plan.refusal (cause_at plan.place) };

    fn from(plan: PlanFault) -> ServeFault {
        match plan.place {
            Some(place) => ServeFault::Refused(plan.refusal, Cause::At(place)),
            None => ServeFault::Refused(plan.refusal, Cause::NoCause),
        }
    }
}
