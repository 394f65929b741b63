//! The destinations of the Data that a link heard last.

ghost use Rattle.std.specs.Prelude.{◌≡◌, ◌<◌, ◌%◌};
ghost use Rattle.rly_link_log.specs.HeardData.{destination_heard, heard_after, no_data};

use crate::seen::{Seen, SeenData};

/// How many Data are kept: as many as a neighbour has in flight at most.
const SEATS: usize = 64;

/// The last 64 Data that a link heard, each at its number modulo 64.
#[derive(Clone, Copy)]
pub(crate) struct HeardData {
    seats: [SeenData; SEATS],
}

impl HeardData {
    /// None yet.
    pub(crate) fn new() -> HeardData
        ensures { result ≡ no_data }
    {
        let none = SeenData {
            number: 0,
            length: 0,
            destination: None,
        };
        HeardData {
            seats: [none; SEATS],
        }
    }

    /// A message is heard. A Data is kept.
    pub(crate) fn hear(&mut self, seen: Seen)
        ensures { self.new ≡ heard_after self.old seen }
    {
        if let Seen::Data(datum) = seen {
            self.seats[seat_of(datum.number)] = datum;
        }
    }

    /// The destination of the Data of a number, if it is among them and named one.
    pub(crate) fn destination(&self, number: u64) -> Option<u16>
        ensures { result ≡ destination_heard self.now number }
    {
        let datum = self.seats[seat_of(number)];
        if datum.number == number {
            return datum.destination;
        }
        None
    }
}

/// The seat of a number.
pub(crate) fn seat_of(number: u64) -> usize
    ensures seat { result ≡ number % 64 }
    ensures bound { result < 64 }
{
    (number % SEATS as u64) as usize
}
