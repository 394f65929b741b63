ghost use Rattle.std.specs.Prelude.{◌≡◌};
ghost use Rattle.rly_record.specs.declared.decode_fault.DecodeFault.TheVariants.{OutOfMemory};

use std::alloc::AllocError;

/// The reason for a failed decoding.
#[derive(Clone, Copy, Debug, PartialEq, Eq)]
pub enum DecodeFault {
    /// Memory allocation failed.
    OutOfMemory,
    /// The bytes encode no value of the requested kind: no record, no body, or no checkpoint of a sound state.
    Malformed,
}

impl From<AllocError> for DecodeFault {
    ghost from_gives = { λ _ e. e ≡ OutOfMemory };

    fn from(_refused: AllocError) -> DecodeFault {
        DecodeFault::OutOfMemory
    }
}
