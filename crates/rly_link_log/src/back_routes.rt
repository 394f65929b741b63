//! The routes of a plan that lead back to a peer's station.

ghost use Rattle.std.specs.Prelude.{◌≡◌, IfOk};
ghost use Rattle.rly_link_log.specs.BackRoutes.{back_hop, back_routes, routes_to};
ghost use Rattle.rly_plan.specs.ContactPlan.{leads_to};

use rly_core::HopId;
use rly_hop::StationId;
use rly_link::Worker;
use rly_plan::{Destination, Plan, Route};
use std::alloc::{AllocError, Global};

/// A destination whose route leads to a peer's station, and the hop of that route.
#[derive(Clone, Copy)]
pub struct BackRoute {
    pub destination: u16,
    pub hop: HopId,
}

/// The routes of a plan that lead to the station of a worker's peer. A datagram of that peer would go back by them.
#[derive(Drop)]
pub struct BackRoutes {
    routes: Vec<BackRoute>,
}

impl BackRoutes {
    /// Those of a plan, for a worker whose neighbour is station `peer`: none for a hop's worker.
    pub fn new(
        alloc: Global,
        plan: &Plan,
        worker: Worker,
        peer: StationId,
    ) -> Result<BackRoutes, AllocError>
        ensures { IfOk result (λ backs. backs.routes.items ≡ back_routes plan.now worker peer) }
    {
        match worker {
            Worker::Receiver(_) => {
                let routes = routes_to(alloc, plan, peer, plan.routes())?;
                Ok(BackRoutes { routes })
            }
            Worker::Sender(_) => Ok(BackRoutes {
                routes: Vec::new(alloc),
            }),
        }
    }

    /// The hop of a destination whose route leads back.
    pub(crate) fn hop_of(&self, destination: u16) -> Option<HopId>
        ensures { result ≡ back_hop self.now.routes.items destination }
    {
        for route in &self.routes {
            if route.destination == destination {
                return Some(route.hop);
            }
        }
        None
    }
}

/// Those of a plan's routes that lead to a station.
fn routes_to(
    alloc: Global,
    plan: &Plan,
    station: StationId,
    routes: &[Route],
) -> Result<Vec<BackRoute>, AllocError>
    ensures { IfOk result (λ found. found.items ≡ routes_to plan.now station routes.now) }
{
    let mut found = Vec::new(alloc);
    for route in routes {
        if let Destination::Station(destination) = route.destination {
            if leads_to(plan, station, route.hop) {
                found.push(BackRoute {
                    destination,
                    hop: route.hop,
                })?;
            }
        }
    }
    Ok(found)
}

/// Whether a hop leads to a station.
fn leads_to(plan: &Plan, station: StationId, hop: HopId) -> bool
    ensures { result ≡ leads_to plan.now station.0 hop }
{
    match plan.hop(hop) {
        Some(neighbour) => neighbour.station == station.0,
        None => false,
    }
}
