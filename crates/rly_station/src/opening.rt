//! What becomes of a link that a station opens while it serves.

use crate::address_fault::EndFault;
use crate::worker_name::WorkerName;
use rly_link::Worker;
use std::fmt;
use std::fmt::{Display, Formatter};

/// What is logged of a link that isn't open.
#[derive(Clone, Copy)]
pub enum Opening {
    /// The system refused it. It is tried again after a wait in microseconds.
    Refused { fault: EndFault, wait: u64 },
    /// It is open now.
    Opened,
}

/// The same of a worker's link, with the text of the address that the system refused; displays as the line for standard error,
/// without its newline.
#[derive(Drop)]
pub struct OpeningLine<'a> {
    pub worker: Worker,
    pub address: &'a str,
    pub opening: Opening,
}

impl<'a> Display for OpeningLine<'a> {
    ghost use Rattle.rly_station.specs.Openings.{opening_text};

    ghost output = { λ line. opening_text line.worker line.opening };

    fn fmt<W: fmt::Write>(&self, f: &mut Formatter<W>) -> fmt::Result {
        let name = WorkerName(self.worker);
        match self.opening {
            Opening::Refused { fault, wait } => write!(
                f,
                "rly: {name}: {} {}: {}, tries again in {} s",
                fault.end,
                self.address,
                fault.word,
                wait / 1_000_000
            ),
            Opening::Opened => write!(f, "rly: {name}: link open"),
        }
    }
}
