use rly_core::Refusal;
use rly_plan::KeyPath;
use std::io;
use std::io::ErrorKind;
use thiserror::Error;

/// The system's error of a failed call; displays as its text.
#[derive(Clone, Copy, Debug, Error)]
#[error("{0}")]
pub struct SystemWord(pub io::Error);

/// The part of a device's file that failed.
#[derive(Clone, Copy, Debug, PartialEq, Eq, Error)]
pub enum FilePart {
    /// The file doesn't exist, can't be a device, or a call of it failed.
    #[error("device")]
    Device,
    /// Another program has locked the file, or it can't be locked.
    #[error("lock")]
    Lock,
    /// The file isn't readable and writable for this user.
    #[error("permission")]
    Permission,
    /// There is no room for the file's bytes.
    #[error("room")]
    Room,
}

impl FilePart {
    ghost use Rattle.std.specs.Prelude.{◌≡◌};
    ghost use Rattle.rly_station.specs.Faults.{part_of};

    /// The part, by the kind of the system's error.
    fn of(kind: ErrorKind) -> FilePart
        ensures { result ≡ part_of kind }
    {
        match kind {
            ErrorKind::PermissionDenied | ErrorKind::ReadOnlyFilesystem => FilePart::Permission,
            ErrorKind::StorageFull | ErrorKind::QuotaExceeded | ErrorKind::FileTooLarge => {
                FilePart::Room
            }
            _ => FilePart::Device,
        }
    }
}

/// The error of a file that can't serve as a device: the part that failed, and the system's error.
#[derive(Clone, Copy, Debug, Error)]
#[error("{part}: {word}")]
pub struct FileFault {
    pub part: FilePart,
    pub word: SystemWord,
}

impl FileFault {
    ghost use Rattle.std.specs.Prelude.{◌≡◌};
    ghost use Rattle.rly_station.specs.declared.file_fault.FilePart.TheVariants.{Lock};

    /// A file that another program has locked, or that can't be locked.
    pub fn of_lock(error: io::Error) -> FileFault
        ensures { result ≡ record { part = Lock; word = record { 0 = error } } }
    {
        FileFault {
            part: FilePart::Lock,
            word: SystemWord(error),
        }
    }
}

impl From<io::Error> for FileFault {
    ghost use Rattle.std.specs.Prelude.{◌≡◌};
    ghost use Rattle.std.specs.IoError.{error_kind};
    ghost use Rattle.rly_station.specs.Faults.{part_of};

    ghost from_gives = { λ error fault. fault
        ≡ record { part = part_of (error_kind error); word = record { 0 = error } } };

    fn from(error: io::Error) -> FileFault {
        FileFault {
            part: FilePart::of(error.kind()),
            word: SystemWord(error),
        }
    }
}

/// The cause of a refusal; displays as a second line after the refusal's, or as nothing.
#[derive(Clone, Copy, Debug, Error)]
pub enum Cause {
    /// The refusal needs no cause.
    #[error("")]
    NoCause,
    /// A value of an option is out of its limits.
    #[error("\nrly: options: value out of limits")]
    Options,
    /// A plan has more peers or hops than the device.
    #[error("\nrly: plan: more peers or hops than the device")]
    Plan,
    /// The location of the first fault of a plan.
    #[error("\nrly: plan: at {0}")]
    At(KeyPath),
    /// The values in a device's header are out of their limits, or its file is too short for them.
    #[error("\nrly: device: header value out of limits, or file too short")]
    Header,
    /// An error of the system.
    #[error("\nrly: {0}")]
    System(FileFault),
}

impl Cause {
    ghost use Rattle.std.specs.Prelude.{◌≡◌};
    ghost use Rattle.rly_station.specs.Faults.{device_cause};

    /// The cause of a refusal on opening a device, or on a failed call of it: `fault` is the first of its failed
    /// calls.
    pub fn of_device(refusal: Refusal, fault: Option<FileFault>) -> Cause
        ensures { result ≡ device_cause refusal fault }
    {
        match (refusal, fault) {
            (Refusal::BadGeometry, _) => Cause::Header,
            (Refusal::Device | Refusal::Broken, Some(fault)) => Cause::System(fault),
            _ => Cause::NoCause,
        }
    }
}
