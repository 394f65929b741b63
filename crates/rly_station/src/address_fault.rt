use crate::failed_calls::kind_of;
use crate::file_fault::SystemWord;
use crate::worker_name::WorkerName;
use rly_link::Worker;
use std::fmt;
use std::fmt::{Display, Formatter};
use thiserror::Error;

/// One of the two addresses of a link.
#[derive(Clone, Copy, Debug, PartialEq, Eq, Error)]
pub enum End {
    /// The one on which it receives.
    #[error("listen")]
    Listen,
    /// The one to which it sends.
    #[error("remote")]
    Remote,
}

impl End {
    ghost use Rattle.std.specs.Prelude.{◌≡◌};
    ghost use Rattle.rly_station.specs.Openings.{is_same_end};

    fn is_same(self, other: End) -> bool
        ensures { result ≡ is_same_end self other }
    {
        match self {
            End::Listen => matches!(other, End::Listen),
            End::Remote => matches!(other, End::Remote),
        }
    }
}

/// An address of a link that the system refused, with the system's error.
#[derive(Clone, Copy, Debug, Error)]
#[error("{end}: {word}")]
pub struct EndFault {
    pub end: End,
    pub word: SystemWord,
}

impl EndFault {
    ghost use Rattle.std.specs.Prelude.{◌≡◌};
    ghost use Rattle.rly_station.specs.Openings.{is_like};

    /// Whether another refusal is like this one: of the same address, with the same number of the system.
    pub fn is_like(self, other: EndFault) -> bool
        ensures { result ≡ is_like self other }
    {
        self.end.is_same(other.end) && kind_of(&self.word.0) == kind_of(&other.word.0)
    }
}

/// A link that the system refused: its worker, the address, and the system's error; displays as a line for standard
/// error.
#[derive(Debug, Drop)]
pub struct AddressFault {
    pub worker: Worker,
    pub end: End,
    pub address: String,
    pub word: SystemWord,
}

impl Display for AddressFault {
    fn fmt<W: fmt::Write>(&self, f: &mut Formatter<W>) -> fmt::Result {
        let name = WorkerName(self.worker);
        write!(
            f,
            "{name}: {} {}: {}",
            self.end,
            self.address.as_str(),
            self.word
        )
    }
}
