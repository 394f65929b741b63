use std::alloc::AllocError;
use std::fmt::{Display, Formatter};
use std::{fmt, io};
use thiserror::Error;

/// A failed call of the system for the file of a path; displays as both.
#[derive(Debug, Drop)]
pub struct ShelfFault {
    /// The path of the file.
    pub path: String,
    /// The system's error.
    pub word: io::Error,
}

impl Display for ShelfFault {
    fn fmt<W: fmt::Write>(&self, f: &mut Formatter<W>) -> fmt::Result {
        write!(f, "{}: {}", self.path.as_str(), self.word)
    }
}

/// Why not all files were put.
#[derive(Debug, Drop, Error)]
pub enum PutFault {
    /// A file couldn't be read or written.
    #[error("{0}")]
    File(ShelfFault),
    /// The system has no randomness for a key.
    #[error("randomness: {0}")]
    Random(io::Error),
    /// A growth of memory was refused.
    #[error("refused 14 memory")]
    OutOfMemory,
}

impl From<ShelfFault> for PutFault {
    fn from(fault: ShelfFault) -> PutFault {
        PutFault::File(fault)
    }
}

impl From<AllocError> for PutFault {
    fn from(_refused: AllocError) -> PutFault {
        PutFault::OutOfMemory
    }
}
