//! The datagrams that a station takes of a folder.

ghost use Rattle.std.specs.Prelude.{◌≡◌, IfOk, is_some};
ghost use Rattle.rly_link_folder.specs.Inbox.{destination_of, longest_of, routes_of, takes_rest};
ghost use Rattle.rly_plan.specs.ContactPlan.{rest_for};
ghost use Rattle.rly_posts.specs.Folders.{longest_payload, probe_of, stations_of};

use rly_core::limits::MAX_PAYLOAD;
use rly_hop::{MAX_MESSAGE, StationId};
use rly_link_folder::Admission;
use rly_plan::{Destination, Plan, Route};
use std::alloc::{AllocError, Global};

/// The bytes of a Data before its payload, at most.
const HEADER: usize = MAX_MESSAGE - MAX_PAYLOAD as usize;

/// The datagrams that the station of a plan takes from a peer's station, whose messages have at most `longest` bytes: those
/// that the plan has a hop for. Each file begins with its destination, or is for this one.
pub(crate) fn admission_of(
    alloc: Global,
    plan: &Plan,
    peer: StationId,
    longest: usize,
    destination: Option<u16>,
) -> Result<Admission, AllocError>
    ensures routes { IfOk result (λ rules. routes_of rules ≡ stations_of plan.now.routes) }
    ensures rest { IfOk result (λ rules. takes_rest rules ≡ is_some (rest_for plan.now peer.0)) }
    ensures longest { IfOk result (λ rules. longest_of rules ≡ longest_payload longest) }
    ensures destination { IfOk result (λ rules. destination_of rules ≡ destination) }
{
    let routes = stations_of(alloc, plan.routes())?;
    let rest = plan.rest_for(peer.0).is_some();
    Ok(Admission::new(routes, rest, longest_payload(longest), destination))
}

/// The stations that have a route of their own.
fn stations_of(alloc: Global, routes: &[Route]) -> Result<Vec<u16>, AllocError>
    ensures { IfOk result (λ found. found.items ≡ stations_of routes.now) }
{
    let mut found = Vec::new(alloc);
    for route in routes {
        if let Destination::Station(station) = route.destination {
            found.push(station)?;
        }
    }
    Ok(found)
}

/// The length of the longest payload of messages with at most this many bytes.
fn longest_payload(longest: usize) -> u16
    ensures { result ≡ longest_payload longest }
{
    longest.saturating_sub(HEADER).min(MAX_PAYLOAD as usize) as u16
}

/// A station that has a route of its own at the station of a plan: 0, which only the rest leads on, if none has.
pub(crate) fn probe_of(plan: &Plan) -> u16
    ensures { result ≡ probe_of plan.now }
{
    for route in plan.routes() {
        if let Destination::Station(station) = route.destination {
            return station;
        }
    }
    0
}
