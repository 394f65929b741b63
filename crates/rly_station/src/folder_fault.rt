use crate::file_fault::SystemWord;
use crate::worker_name::WorkerName;
use rly_link::Worker;
use std::fmt;
use std::fmt::{Display, Formatter};
use thiserror::Error;

/// A part of a folder; displays as its name.
#[derive(Clone, Copy, Debug, Error)]
pub enum FolderPart {
    #[error("new")]
    New,
    #[error("sent")]
    Sent,
    #[error("refused")]
    Refused,
    #[error("out")]
    Out,
    /// The file that gets a name once it is written.
    #[error("hidden file")]
    Hidden,
    /// The file by which hard links are tried.
    #[error("trial of a hard link")]
    Trial,
    #[error("lock")]
    Lock,
}

/// The reason why a folder can't play a neighbour; displays as words.
#[derive(Clone, Copy, Debug, Error)]
pub enum FolderWord {
    /// The folder isn't there, or can't be looked at.
    #[error("{0}")]
    System(SystemWord),
    /// The path is that of another kind of file.
    #[error("not a folder")]
    NotAFolder,
    /// A file got no second name.
    #[error("the file system has no hard links: {0}")]
    NoLinks(SystemWord),
    /// A sub-folder of this name is on another file system.
    #[error("{0} is on another file system")]
    OtherFileSystem(FolderPart),
    /// Another process has it, or another worker of this one.
    #[error("locked by another process")]
    Locked,
    /// A call of the system failed at a place in the folder.
    #[error("{0}: {1}")]
    Inside(FolderPart, SystemWord),
    /// The address on which its link is woken can't be written into it.
    #[error(".wake: {0}")]
    Wake(SystemWord),
    /// There is no socket on which its link is woken.
    #[error("no socket for its wake-ups: {0}")]
    Bell(SystemWord),
}

/// A folder that can't play a neighbour: the link's worker, the folder's path, and the reason; displays as a line for
/// standard error.
#[derive(Debug, Drop)]
pub struct FolderFault {
    pub worker: Worker,
    pub path: String,
    pub word: FolderWord,
}

impl Display for FolderFault {
    fn fmt<W: fmt::Write>(&self, f: &mut Formatter<W>) -> fmt::Result {
        let name = WorkerName(self.worker);
        write!(f, "{name}: folder {}: {}", self.path.as_str(), self.word)
    }
}
