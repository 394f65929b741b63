use crate::custody_wait::WaitFault;
use rly_folder_clients::PutFault;
use std::alloc::AllocError;

/// Why not all of an input was put, or its station hasn't custody of it. What was put stays.
#[derive(Clone, Copy, Debug)]
pub enum PutStop {
    /// The input failed.
    Input,
    /// The next file is longer than any station takes.
    TooLong,
    /// A growth of memory was refused.
    OutOfMemory,
    /// The next file wasn't put, or may not be durable.
    Put(PutFault),
    /// All files up to this one were put, and the wait for the station's custody failed.
    Wait(WaitFault),
}

impl From<AllocError> for PutStop {
    ghost use Rattle.std.specs.Prelude.{◌≡◌};
    ghost use Rattle.rly_daemon_folder.specs.declared.put_stop.PutStop.TheVariants.{OutOfMemory};

    ghost from_gives = { λ _ stop. stop ≡ OutOfMemory };

    fn from(_refused: AllocError) -> PutStop {
        PutStop::OutOfMemory
    }
}
