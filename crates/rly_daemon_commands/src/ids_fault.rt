use rly_plan_changes::OtherStation;
use rly_station::SystemWord;
use std::fmt;
use std::fmt::{Display, Formatter};
use thiserror::Error;

/// The reason why the ids of a device aren't kept; displays as words.
#[derive(Clone, Copy, Debug, Error)]
pub enum IdsWord {
    /// An id means another station in the plan than in the file.
    #[error("{0} in the plan; --renumber allows it, and what waits there goes to that one")]
    Renumbered(OtherStation),
    /// The file keeps no ids.
    #[error("not the ids of a device; remove it, and `rly serve` makes it from its plan")]
    Broken,
    /// The system's error.
    #[error("{0}")]
    System(SystemWord),
}

/// The file that keeps the ids of a device, and why it doesn't; displays as the lines for standard error.
#[derive(Debug, Drop)]
pub struct IdsFileFault {
    pub path: String,
    pub word: IdsWord,
}

impl Display for IdsFileFault {
    fn fmt<W: fmt::Write>(&self, f: &mut Formatter<W>) -> fmt::Result {
        write!(
            f,
            "rly: ids failed\nrly: ids: {}: {}",
            self.path.as_str(),
            self.word
        )
    }
}

/// The file that should keep the ids of a device, and the system's error; displays as the line for standard error.
#[derive(Debug, Drop)]
pub(crate) struct UnkeptIds {
    pub(crate) path: String,
    pub(crate) word: SystemWord,
}

impl Display for UnkeptIds {
    fn fmt<W: fmt::Write>(&self, f: &mut Formatter<W>) -> fmt::Result {
        write!(
            f,
            "rly: ids: {}: not written, so a later change of what they mean isn't seen: {}",
            self.path.as_str(),
            self.word
        )
    }
}
