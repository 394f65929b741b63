use rly_link::Worker;
use std::fmt;
use std::fmt::{Display, Formatter};

/// The owner of a link; displays as `peer 1` or `hop 1`.
#[derive(Clone, Copy, PartialEq, Eq)]
pub struct WorkerName(pub Worker);

impl Display for WorkerName {
    ghost use Rattle.std.specs.Prelude.{Some};
    ghost use Rattle.rly_station.specs.Warnings.{name_text};

    ghost output = { λ name. Some (name_text name.0) };

    fn fmt<W: fmt::Write>(&self, f: &mut Formatter<W>) -> fmt::Result {
        match self.0 {
            Worker::Receiver(peer) => write!(f, "peer {}", peer.0),
            Worker::Sender(hop) => write!(f, "hop {}", hop.0),
        }
    }
}
