use rly_core::Refusal;

/// The reason for a failed opening of a device. The device reads as before.
#[derive(Clone, Copy, PartialEq, Eq)]
pub enum OpenFault {
    /// Memory allocation failed.
    OutOfMemory,
    /// The device doesn't begin with a header of this format.
    NotADevice,
    /// The header's values are outside their limits, or the device is too small for them.
    BadGeometry,
    /// The bytes at this offset of the device are damaged.
    Damaged(u64),
    /// A call of the device failed.
    Device,
}

impl From<OpenFault> for Refusal {
    ghost use Rattle.std.specs.Prelude.{◌≡◌};
    ghost use Rattle.rly_journal.specs.Faults.{opening_refusal};

    ghost from_gives = { λ fault refusal. refusal ≡ opening_refusal fault };

    fn from(fault: OpenFault) -> Refusal {
        match fault {
            OpenFault::OutOfMemory => Refusal::OutOfMemory,
            OpenFault::NotADevice => Refusal::NotADevice,
            OpenFault::BadGeometry => Refusal::BadGeometry,
            OpenFault::Damaged(place) => Refusal::Damaged(place),
            OpenFault::Device => Refusal::Device,
        }
    }
}
