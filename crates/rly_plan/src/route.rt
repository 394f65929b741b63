ghost use Rattle.std.specs.Prelude.{◌≡◌};
ghost use Rattle.rly_plan.specs.ContactPlan.{destination_in};
ghost use Rattle.rly_plan.specs.Passes.{destination_from, route_from};

use crate::passes::number_16;
use rly_core::HopId;
use rly_plan_syntax::{DestinationDraft, RouteDraft};

/// The destination of a route.
#[derive(Clone, Copy, PartialEq, Eq)]
pub enum Destination {
    /// A station, 1 to 65,535.
    Station(u16),
    /// Each destination without a route of its own, and payloads too short to name one.
    Rest,
}

impl Destination {
    ghost use Rattle.std.specs.Prelude.{◌≡◌};
    ghost use Rattle.rly_plan.specs.ContactPlan.{is_for, is_rest};

    /// Whether it names a station.
    pub(crate) fn is_for(self, destination: u16) -> bool
        ensures { result ≡ is_for destination self }
    {
        match self {
            Destination::Station(station) => station == destination,
            Destination::Rest => false,
        }
    }

    /// Whether it is the rest.
    pub(crate) fn is_rest(self) -> bool
        ensures { result ≡ is_rest self }
    {
        match self {
            Destination::Station(_) => false,
            Destination::Rest => true,
        }
    }
}

/// The next hop of a destination.
#[derive(Clone, Copy, PartialEq, Eq)]
pub struct Route {
    /// The destination.
    pub destination: Destination,
    /// The next hop on the way to it.
    pub hop: HopId,
}

/// The destination that a payload names by its first two bytes, the greater one first: `None` if it is shorter.
pub(crate) fn destination_in(payload: &[u8]) -> Option<u16>
    ensures { result ≡ destination_in payload.now }
{
    if payload.len() < 2 {
        return None;
    }
    Some(u16::from(payload[0]) * 256 + u16::from(payload[1]))
}

/// The route of a draft.
pub(crate) fn route_of_draft(draft: RouteDraft) -> Route
    ensures { result ≡ route_from draft }
{
    Route {
        destination: destination_of_draft(draft.destination),
        hop: HopId(number_16(draft.hop)),
    }
}

fn destination_of_draft(draft: DestinationDraft) -> Destination
    ensures { result ≡ destination_from draft }
{
    match draft {
        DestinationDraft::Station(station) => Destination::Station(number_16(station)),
        DestinationDraft::Rest => Destination::Rest,
    }
}
