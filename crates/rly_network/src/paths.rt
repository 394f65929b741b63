//! The ways of datagrams from plan to plan.

ghost use Rattle.std.specs.Prelude.{◌≡◌, ◌++◌, Err, IfErr, IfOk, length, Ok, OnOk};
ghost use Rattle.std.specs.List.{enumerate_from, flat_map};
ghost use Rattle.rly_network.specs.Paths.{class_of, declared, is_home, onward, peer_conflicts, route_conflicts, trouble_at_end};
ghost use Rattle.rly_network.specs.Paths.{trouble_from, trouble_of};

use crate::disagreement::{Conflict, Disagreement, Trouble, push_at};
use crate::station_plan::StationPlan;
use crate::stations::{has_route, hop_of, next_hop, next_station, station_of};
use rly_core::HopId;
use rly_plan::{Destination, Neighbour, NextHop, PlanKey, Route, Row};
use std::alloc::AllocError;

/// Appends each route of a station that doesn't lead its datagrams to their end.
pub(crate) fn check_routes(
    found: &mut Vec<Disagreement>,
    stations: &[StationPlan],
    station: &StationPlan,
    routes: &[Route],
) -> Result<(), AllocError>
    ensures { OnOk result (found.new.items
        ≡ found.old.items ++ flat_map (route_conflicts stations.now station.now) (enumerate_from 1 routes.now)) }
{
    let mut number: u64 = 0;
    for route in routes {
        number += 1;
        check_route(found, stations, station, number, route)?;
    }
    Ok(())
}

fn check_route(
    found: &mut Vec<Disagreement>,
    stations: &[StationPlan],
    station: &StationPlan,
    number: u64,
    route: &Route,
) -> Result<(), AllocError>
    ensures { OnOk result
        (found.new.items ≡ found.old.items ++ route_conflicts stations.now station.now (number, route.now)) }
{
    let to = class_of(route.destination);
    match trouble_of(stations, station, route.hop, to) {
        Some(trouble) => {
            let conflict = Conflict::Astray(to, trouble);
            push_at(found, station, Row::Route, number, PlanKey::Hop, conflict)
        }
        None => Ok(()),
    }
}

/// The station that a destination names: `None` for the rest.
fn class_of(destination: Destination) -> Option<u16>
    ensures { result ≡ class_of destination }
{
    match destination {
        Destination::Station(station) => Some(station),
        Destination::Rest => None,
    }
}

/// Appends each peer that is a folder with a destination to which its files don't come.
pub(crate) fn check_peers(
    found: &mut Vec<Disagreement>,
    stations: &[StationPlan],
    station: &StationPlan,
    peers: &[Neighbour],
) -> Result<(), AllocError>
    ensures { OnOk result (found.new.items
        ≡ found.old.items ++ flat_map (peer_conflicts stations.now station.now) (enumerate_from 1 peers.now)) }
{
    let mut number: u64 = 0;
    for peer in peers {
        number += 1;
        check_peer(found, stations, station, number, peer)?;
    }
    Ok(())
}

fn check_peer(
    found: &mut Vec<Disagreement>,
    stations: &[StationPlan],
    station: &StationPlan,
    number: u64,
    peer: &Neighbour,
) -> Result<(), AllocError>
    ensures { OnOk result
        (found.new.items ≡ found.old.items ++ peer_conflicts stations.now station.now (number, peer.now)) }
{
    let Some(to) = declared(peer) else {
        return Ok(());
    };
    match trouble_from(stations, station, peer.station, to) {
        Some(trouble) => {
            let conflict = Conflict::Astray(Some(to), trouble);
            push_at(
                found,
                station,
                Row::Peer,
                number,
                PlanKey::Destination,
                conflict,
            )
        }
        None => Ok(()),
    }
}

/// The destination of a peer's files, if the peer is a folder and gives it.
fn declared(peer: &Neighbour) -> Option<u16>
    ensures { result ≡ declared peer.now }
{
    match peer.far.folder() {
        Some(folder) => folder.destination,
        None => None,
    }
}

/// Where the way of what a peer's station gives for a destination goes wrong.
fn trouble_from(
    stations: &[StationPlan],
    station: &StationPlan,
    from: u16,
    to: u16,
) -> Option<Trouble>
    ensures { result ≡ trouble_from stations.now station.now from to }
{
    match hop_of(&station.plan, from, Some(to)) {
        Some(hop) => trouble_of(stations, station, hop, Some(to)),
        None => Some(Trouble::NoRoute(station.plan.station())),
    }
}

/// Where the way of what a station gives to a hop, for a destination or for the rest, goes wrong: `None` if it leads into a
/// folder of the destination's station, over at most as many stations as there are.
fn trouble_of(
    stations: &[StationPlan],
    station: &StationPlan,
    hop: HopId,
    to: Option<u16>,
) -> Option<Trouble>
    ensures { result ≡ trouble_of stations.now to (length stations.now) station.now hop }
{
    let (mut at, mut hop) = (station, hop);
    for _step in 0..stations.len() {
        match onward(stations, at, hop, to) {
            Ok((next, later)) => {
                at = next;
                hop = later;
            }
            Err(trouble) => return trouble,
        }
    }
    Some(Trouble::Circle(at.plan.station()))
}

/// The station to which a hop of another one leads over a link, and its own hop there. `Err`: the way ends, well or with a
/// trouble.
fn onward<'a>(
    stations: &'a [StationPlan],
    station: &StationPlan,
    hop: HopId,
    to: Option<u16>,
) -> Result<(&'a StationPlan, HopId), Option<Trouble>>
    ensures on { IfOk result (λ p. onward stations.now to station.now hop ≡ Ok (p.0.now, p.1)) }
    ensures end { IfErr result (λ trouble. onward stations.now to station.now hop ≡ Err trouble) }
{
    let Some(link) = next_hop(&station.plan, hop) else {
        return Err(Some(Trouble::NoRoute(station.plan.station())));
    };
    let Some(next) = next_station(stations, link) else {
        return Err(trouble_at_end(stations, station, link, to));
    };
    match hop_of(&next.plan, station.plan.station(), to) {
        Some(later) => Ok((next, later)),
        None => Err(Some(Trouble::NoRoute(next.plan.station()))),
    }
}

/// What is wrong with a way that ends at a hop of a station. A link to a station without a plan is told elsewhere.
fn trouble_at_end(
    stations: &[StationPlan],
    station: &StationPlan,
    hop: &NextHop,
    to: Option<u16>,
) -> Option<Trouble>
    ensures { result ≡ trouble_at_end stations.now to station.now hop.now }
{
    let number = station.plan.station();
    if hop.contact_count() == 0 {
        return Some(Trouble::NeverOpen(number));
    }
    if hop.neighbour.far.folder().is_none() {
        return None;
    }
    match to {
        Some(destination) if !is_home(stations, station, destination) => {
            Some(Trouble::Elsewhere(number))
        }
        _ => None,
    }
}

/// Whether a station is a destination's: it has that number, or, if none has it, a route of the destination's own.
fn is_home(stations: &[StationPlan], station: &StationPlan, destination: u16) -> bool
    ensures { result ≡ is_home stations.now destination station.now }
{
    match station_of(stations, destination) {
        Some(_) => station.plan.station() == destination,
        None => has_route(&station.plan, destination),
    }
}
