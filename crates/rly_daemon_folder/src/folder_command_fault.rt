use crate::custody_wait::WaitFault;
use crate::put_stop::PutStop;
use rly_folder::Area;
use rly_folder_clients::{GetFault, PutFault};
use rly_folder_file::{OpenFault, PlaceFault};
use std::alloc::AllocError;
use std::io;
use thiserror::Error;

/// The error of `rly put` or `rly get`; displays as the lines for standard error.
#[derive(Clone, Copy, Debug, Error)]
pub enum FolderCommandFault {
    /// The folder can't be used.
    #[error("rly: folder failed\nrly: folder: {0}")]
    Open(OpenFault),
    /// A call of the folder failed. The last file of a put is there once, or not at all; the last payload of a get may be
    /// printed again.
    #[error("rly: folder failed\nrly: folder: {0}")]
    Call(PlaceFault),
    /// As many files wait in `new/` as may. Nothing more was put.
    #[error("rly: folder failed\nrly: folder: new: full, at least 16384 files wait; the station that has the folder as a peer takes them")]
    Full,
    /// Other writers took each name that was tried. Nothing more was put.
    #[error("rly: folder failed\nrly: folder: new: the next 1000 names are taken; try again")]
    Taken,
    /// A file of `new/` has the greatest number that there is. Nothing more was put.
    #[error("rly: folder failed\nrly: folder: new/18446744073709551615: no number is greater; rename this file")]
    NoNumber,
    /// The next file of the input is longer than any station takes.
    #[error("rly: input failed\nrly: input: a payload of more than 8192 bytes")]
    LongInput,
    /// A file that was handed out is longer than a station's.
    #[error("rly: folder failed\nrly: folder: out: a file of more than 65536 bytes is no station's; remove it")]
    LongFile,
    /// The station hasn't custody of this file yet.
    #[error("rly: wait is over\nrly: folder: file {0}: not in custody yet; it stays in the folder")]
    Over(u64),
    /// The station refused this file.
    #[error("rly: file refused\nrly: folder: file {0}: {1}; it is in refused/")]
    Refused(u64, RefusedFile),
    /// A call of the system for this file failed.
    #[error("rly: folder failed\nrly: folder: file {0}: {1}")]
    File(u64, io::Error),
    /// The input failed.
    #[error("rly: input failed")]
    Input,
    /// The output failed.
    #[error("rly: output failed")]
    Output,
    /// A growth of memory was refused.
    #[error("refused 14 memory")]
    OutOfMemory,
}

/// Why a station refused a file.
#[derive(Clone, Copy, Debug, Error)]
pub enum RefusedFile {
    #[error("its destination has no route")]
    NoRoute,
    #[error("longer than the station takes")]
    TooLong,
    #[error("too short for a destination")]
    TooShort,
}

impl FolderCommandFault {
    ghost use Rattle.std.specs.Prelude.{◌≡◌, false};
    ghost use Rattle.rly_daemon_folder.specs.FolderCommands.{is_over};

    /// Returns true iff a wait for custody is over.
    pub fn is_over(&self) -> bool
        ensures { result ≡ is_over self.now }
    {
        matches!(self, FolderCommandFault::Over(_))
    }

    /// The fault of a put, with the folder's last failed call.
    pub(crate) fn of_put(stop: PutStop, call: Option<PlaceFault>) -> FolderCommandFault {
        match stop {
            PutStop::Input => FolderCommandFault::Input,
            PutStop::TooLong => FolderCommandFault::LongInput,
            PutStop::OutOfMemory => FolderCommandFault::OutOfMemory,
            PutStop::Put(PutFault::Full) => FolderCommandFault::Full,
            PutStop::Put(PutFault::Taken) => FolderCommandFault::Taken,
            PutStop::Put(PutFault::NoNumber) => FolderCommandFault::NoNumber,
            PutStop::Put(PutFault::Folder) => FolderCommandFault::of_call(call),
            PutStop::Wait(fault) => FolderCommandFault::of_wait(fault),
        }
    }

    /// The fault of a wait.
    pub(crate) fn of_wait(fault: WaitFault) -> FolderCommandFault {
        match fault {
            WaitFault::Over(number) => FolderCommandFault::Over(number),
            WaitFault::Refused(number, area) => {
                FolderCommandFault::Refused(number, RefusedFile::of(area))
            }
            WaitFault::File(number, word) => FolderCommandFault::File(number, word),
            WaitFault::Call(fault) => FolderCommandFault::Call(fault),
        }
    }

    /// The fault of a get, with the folder's last failed call.
    pub(crate) fn of_get(fault: GetFault, call: Option<PlaceFault>) -> FolderCommandFault
        ensures { is_over result ≡ false }
    {
        match fault {
            GetFault::Output => FolderCommandFault::Output,
            GetFault::TooLong => FolderCommandFault::LongFile,
            GetFault::Folder => FolderCommandFault::of_call(call),
        }
    }

    /// The fault of a failed call. One that the system gave no reason for was refused memory.
    fn of_call(call: Option<PlaceFault>) -> FolderCommandFault
        ensures { is_over result ≡ false }
    {
        match call {
            Some(fault) => FolderCommandFault::Call(fault),
            None => FolderCommandFault::OutOfMemory,
        }
    }
}

impl RefusedFile {
    /// The reason in a name of `refused/`.
    fn of(area: Area) -> RefusedFile {
        match area {
            Area::TooLong => RefusedFile::TooLong,
            Area::TooShort => RefusedFile::TooShort,
            _ => RefusedFile::NoRoute,
        }
    }
}

impl From<AllocError> for FolderCommandFault {
    fn from(_refused: AllocError) -> FolderCommandFault {
        FolderCommandFault::OutOfMemory
    }
}
