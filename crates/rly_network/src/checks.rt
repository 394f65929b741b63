//! What the plans of a network disagree on.

ghost use Rattle.std.specs.Prelude.{◌≡◌, ◌++◌, IfOk, OnOk};
ghost use Rattle.std.specs.List.{flat_map};
ghost use Rattle.rly_network.specs.Check.{at_array, device_conflicts, disagreements, same_station, same_stations};
ghost use Rattle.rly_network.specs.Check.{station_conflicts};

use crate::disagreement::{Conflict, Disagreement, push_if};
use crate::links::check_hops;
use crate::paths::{check_peers, check_routes};
use crate::station_plan::StationPlan;
use crate::stations::station_of;
use rly_plan::{KeyPath, Row};
use std::alloc::{AllocError, Global};

/// What the plans of a network disagree on (`docs/NETWORK.md`): first the stations with a number that a later one has too, then
/// station by station its device, its links, its peers that give a destination, and its routes. `Err`: out of memory.
pub fn check(alloc: Global, stations: &[StationPlan]) -> Result<Vec<Disagreement>, AllocError>
    ensures { IfOk result (λ found. found.items ≡ disagreements stations.now) }
{
    let mut found = Vec::new(alloc);
    check_numbers(&mut found, stations)?;
    check_stations(&mut found, stations, stations)?;
    Ok(found)
}

/// Appends each station with a number that a later one has too.
fn check_numbers(found: &mut Vec<Disagreement>, stations: &[StationPlan]) -> Result<(), AllocError>
    ensures { OnOk result (found.new.items ≡ found.old.items ++ same_stations stations.now) }
{
    for index in 0..stations.len() {
        let station = &stations[index];
        let later = &stations[index + 1..];
        check_number(found, station, later)?;
    }
    Ok(())
}

fn check_number(
    found: &mut Vec<Disagreement>,
    station: &StationPlan,
    later: &[StationPlan],
) -> Result<(), AllocError>
    ensures { OnOk result (found.new.items ≡ found.old.items ++ same_station station.now later.now) }
{
    let number = station.plan.station();
    let is_same = station_of(later, number).is_some();
    let disagreement = Disagreement {
        station: number,
        place: KeyPath::Station,
        conflict: Conflict::SameStation,
    };
    push_if(found, is_same, disagreement)
}

/// Appends what each of some stations of a network disagrees on.
fn check_stations(
    found: &mut Vec<Disagreement>,
    stations: &[StationPlan],
    some: &[StationPlan],
) -> Result<(), AllocError>
    ensures { OnOk result
        (found.new.items ≡ found.old.items ++ flat_map (station_conflicts stations.now) some.now) }
{
    for station in some {
        check_station(found, stations, station)?;
    }
    Ok(())
}

fn check_station(
    found: &mut Vec<Disagreement>,
    stations: &[StationPlan],
    station: &StationPlan,
) -> Result<(), AllocError>
    ensures { OnOk result (found.new.items ≡ found.old.items ++ station_conflicts stations.now station.now) }
{
    check_device(found, station)?;
    check_hops(found, stations, station, station.plan.hops())?;
    check_peers(found, stations, station, station.plan.peers())?;
    check_routes(found, stations, station, station.plan.routes())
}

/// Appends what a station's plan has more of than its device.
fn check_device(found: &mut Vec<Disagreement>, station: &StationPlan) -> Result<(), AllocError>
    ensures { OnOk result (found.new.items ≡ found.old.items ++ device_conflicts station.now) }
{
    let (hops, peers) = (station.device.hops, station.device.peers);
    let is_few = hops < station.plan.hop_count() as u64;
    push_if(
        found,
        is_few,
        at_array(station, Row::Hop, Conflict::FewHops(hops)),
    )?;
    let is_few = peers < station.plan.peer_count() as u64;
    push_if(
        found,
        is_few,
        at_array(station, Row::Peer, Conflict::FewPeers(peers)),
    )
}

/// A conflict at an array of a station's plan.
fn at_array(station: &StationPlan, row: Row, conflict: Conflict) -> Disagreement
    ensures { result ≡ at_array station.now row conflict }
{
    Disagreement {
        station: station.plan.station(),
        place: KeyPath::Array(row),
        conflict,
    }
}
