//! Lookups in the plans of a network.

ghost use Rattle.std.specs.Prelude.{◌≡◌, option_copied};
ghost use Rattle.rly_plan.specs.ContactPlan.{at_number};
ghost use Rattle.rly_network.specs.Stations.{has_route, hop_of, is_link, next_station, peer_of, station_of};

use crate::station_plan::StationPlan;
use rly_core::HopId;
use rly_plan::{Destination, Neighbour, NextHop, Plan};

/// The station of a number.
pub(crate) fn station_of(stations: &[StationPlan], number: u16) -> Option<&StationPlan>
    ensures { option_copied result ≡ station_of stations.now number }
{
    for station in stations {
        if station.plan.station() == number {
            return Some(station);
        }
    }
    None
}

/// The peer at a socket of a plan that has a station's number.
pub(crate) fn peer_of(plan: &Plan, number: u16) -> Option<&Neighbour>
    ensures { option_copied result ≡ peer_of plan.now number }
{
    for peer in plan.peers() {
        if peer.station == number && peer.far.addresses().is_some() {
            return Some(peer);
        }
    }
    None
}

/// Whether a hop leads over a link: it is at a socket and has a contact.
pub(crate) fn is_link(hop: &NextHop) -> bool
    ensures { result ≡ is_link hop.now }
{
    hop.neighbour.far.addresses().is_some() && hop.contact_count() > 0
}

/// Whether a plan has a route of a destination's own.
pub(crate) fn has_route(plan: &Plan, destination: u16) -> bool
    ensures { result ≡ has_route plan.now destination }
{
    for route in plan.routes() {
        if let Destination::Station(station) = route.destination {
            if station == destination {
                return true;
            }
        }
    }
    false
}

/// The hop for a destination, or for the rest if there is none, of what the station `from` gives.
pub(crate) fn hop_of(plan: &Plan, from: u16, to: Option<u16>) -> Option<HopId>
    ensures { result ≡ hop_of plan.now from to }
{
    match to {
        Some(destination) => plan.hop_for(from, &destination.to_be_bytes()),
        None => plan.rest_for(from),
    }
}

/// The hop of a plan by its id.
pub(crate) fn next_hop(plan: &Plan, hop: HopId) -> Option<&NextHop>
    ensures { option_copied result ≡ at_number plan.now.hops hop.0 }
{
    match hop.0 {
        0 => None,
        _ => plan.hops().get(hop.0 as usize - 1),
    }
}

/// The station that a hop of another one leads to over a link, if its plan is there.
pub(crate) fn next_station<'a>(
    stations: &'a [StationPlan],
    hop: &NextHop,
) -> Option<&'a StationPlan>
    ensures { option_copied result ≡ next_station stations.now hop.now }
{
    if is_link(hop) {
        station_of(stations, hop.neighbour.station)
    } else {
        None
    }
}
