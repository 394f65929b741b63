use crate::file_fault::SystemWord;
use crate::worker_name::WorkerName;
use rly_link::Worker;
use std::fmt::{Display, Formatter};
use std::{fmt, io};
use thiserror::Error;

/// The reason why a file is no valid key; displays as words.
#[derive(Clone, Copy, Debug, Error)]
pub enum KeyWord {
    /// The system's error.
    #[error("{0}")]
    System(SystemWord),
    /// It is something other than a file, such as a pipe.
    #[error("not a regular file")]
    Special,
    /// Its text is not a key.
    #[error("not one or two lines of 64 hex digits")]
    Form,
    /// Others than its owner may read, write or execute it: its permissions.
    #[error("permissions {0:o} for group or others; must be 0")]
    Shared(u32),
}

impl From<io::Error> for KeyWord {
    fn from(error: io::Error) -> KeyWord {
        KeyWord::System(SystemWord(error))
    }
}

/// A file that is no valid key for a link: the link's worker, the file's path, and the reason; displays as a line
/// for standard error.
#[derive(Debug, Drop)]
pub struct KeyFault {
    pub worker: Worker,
    pub path: String,
    pub word: KeyWord,
}

impl Display for KeyFault {
    fn fmt<W: fmt::Write>(&self, f: &mut Formatter<W>) -> fmt::Result {
        let name = WorkerName(self.worker);
        write!(f, "{name}: key {}: {}", self.path.as_str(), self.word)
    }
}
