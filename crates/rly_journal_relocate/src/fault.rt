ghost use Rattle.std.specs.Prelude.{◌≡◌};
ghost use Rattle.rly_journal_relocate.specs.Faults.{fault_of};
ghost use Rattle.rly_journal_relocate.specs.declared.fault.CollectionFault.TheVariants.{OutOfMemory};

use rly_gate::ReadFault;
use std::alloc::AllocError;

/// The reason for a failed collection. The disk is unchanged.
#[derive(Clone, Copy, PartialEq, Eq, Drop)]
pub enum CollectionFault {
    /// Memory allocation failed.
    OutOfMemory,
    /// A read of the device failed.
    Device,
}

impl From<AllocError> for CollectionFault {
    ghost from_gives = { λ _ fault. fault ≡ OutOfMemory };

    fn from(_refused: AllocError) -> CollectionFault {
        CollectionFault::OutOfMemory
    }
}

impl From<ReadFault> for CollectionFault {
    ghost from_gives = { λ cause fault. fault ≡ fault_of cause };

    fn from(cause: ReadFault) -> CollectionFault {
        match cause {
            ReadFault::OutOfMemory => CollectionFault::OutOfMemory,
            ReadFault::Device => CollectionFault::Device,
        }
    }
}
