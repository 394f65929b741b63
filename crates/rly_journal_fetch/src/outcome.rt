ghost use Rattle.std.specs.Prelude.{◌≡◌};
ghost use Rattle.rly_journal_fetch.specs.FetchReads.{IsLean, stored_at_address};

use rly_machine::{Answer, SeatId};
use rly_segment_checkpoint::{DeviceAddress, Stored};

/// The outcome of a call of a round, before payloads are read for its Fetches.
#[derive(Drop)]
pub enum Outcome {
    /// Its reply is complete.
    Answered(Answer),
    /// It needs a payload for its reply.
    Wanted {
        /// The client that sent the call.
        seat: SeatId,
        /// The client's number of the call.
        number: u64,
        /// The number of accepted commands at that point.
        position: u64,
        /// The limit of the datagram, 0 for none.
        limit: u64,
        /// The device address of the payload, if it has bytes.
        place: Option<DeviceAddress>,
    },
}

/// Returns the device address of a payload, if it has bytes.
pub fn place_of(payload: &Stored) -> Option<DeviceAddress>
    ensures { IsLean payload.now → stored_at_address result ≡ payload.now }
{
    match payload {
        Stored::Inline(_) => None,
        Stored::Placed(place) => Some(*place),
    }
}
