// Why a call of a folder failed.
use crate::place::{Place, SubFolder};
use std::fmt::{Display, Formatter, Result as FmtResult, Write};
use std::io;
use thiserror::Error;

/// A failed call of the system: where in the folder, and the system's reason.
#[derive(Clone, Copy, Debug, Error)]
#[error("{place}: {word}")]
pub struct PlaceFault {
    pub place: Place,
    pub word: io::Error,
}

/// Why a folder can't be used.
#[derive(Clone, Copy, Debug, Error)]
pub enum OpenFault {
    /// The folder isn't there, or can't be looked at.
    #[error("{0}")]
    Folder(io::Error),
    /// A call of the system for a file in it failed.
    #[error("{0}")]
    Call(PlaceFault),
    /// The path is that of another kind of file.
    #[error("not a folder")]
    NotAFolder,
    /// A file got no second name.
    #[error("the file system has no hard links: {0}")]
    NoLinks(io::Error),
    /// A sub-folder isn't on the folder's file system, so no file can be moved there.
    #[error("{0} is on another file system")]
    OtherFileSystem(SubFolder),
    /// Another program has the lock.
    #[error("locked by another process")]
    Locked,
}

impl From<PlaceFault> for OpenFault {
    fn from(fault: PlaceFault) -> OpenFault {
        match fault.place {
            Place::Folder => OpenFault::Folder(fault.word),
            _ => OpenFault::Call(fault),
        }
    }
}

/// The message that a folder can't be used: its path and the reason.
#[derive(Clone, Copy, Debug)]
pub struct OpenMessage<'a> {
    pub path: &'a str,
    pub fault: OpenFault,
}

impl Display for OpenMessage<'_> {
    fn fmt<W: Write>(&self, formatter: &mut Formatter<W>) -> FmtResult {
        write!(formatter, "folder {}: {}", self.path, self.fault)
    }
}

/// The outcome of a call at a place.
pub(crate) fn at<T>(place: Place, outcome: io::Result<T>) -> Result<T, PlaceFault> {
    match outcome {
        Ok(value) => Ok(value),
        Err(word) => Err(PlaceFault { place, word }),
    }
}
