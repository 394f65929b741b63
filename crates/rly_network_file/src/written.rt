//! The files of a network's stations, once the plans were read again and checked.

ghost use Rattle.std.specs.Prelude.{◌≡◌, IfOk, map, OnOk, Some, true};
ghost use Rattle.std.specs.List.{list_all};
ghost use Rattle.rly_network_file.specs.Ids.{is_kept};
ghost use Rattle.rly_network_file.specs.Written.{IsWritten, is_by, neighbours_in, station_plan};

use crate::fault::NetworkFault;
use crate::ids::{NetworkIds, StationIds};
use crate::kept::is_kept;
use crate::loads::check_loads;
use crate::network_file::NetworkFile;
use crate::places::lines_in_file;
use crate::station_files::{StationFiles, files_of};
use rly_network::{StationPlan, check};
use rly_plan::{Neighbour, NextHop, Plan, PlanFault};
use std::alloc::{AllocError, Global};

/// The files of each station of a network. Each plan was read again: it is that of its station by these ids, and the
/// plans with their devices disagree on nothing, so the laws of `rly_network` hold of them. Disagreements are returned,
/// each with its place in the network file.
pub fn write(
    alloc: Global,
    file: &NetworkFile,
    ids: &NetworkIds,
) -> Result<Vec<StationFiles>, NetworkFault>
    ensures written { IfOk result (λ files. IsWritten file.now.numbers.items ids.now files.items) }
{
    let files = files_of(alloc, file, ids)?;
    let stations = read_all(alloc, ids, &files)?;
    let found = check(alloc, &stations)?;
    if !found.is_empty() {
        return Err(NetworkFault::Found(lines_in_file(alloc, file, ids, &found)?));
    }
    check_loads(alloc, file)?;
    Ok(files)
}

/// The plans that the texts hold, with the devices.
fn read_all(
    alloc: Global,
    ids: &NetworkIds,
    files: &[StationFiles],
) -> Result<Vec<StationPlan>, NetworkFault>
    ensures read { IfOk result (λ stations. map station_plan files.now ≡ map Some stations.items) }
    ensures own { IfOk result
        (λ stations. map (λ s. s.plan.station) stations.items ≡ map (λ f. f.number) files.now) }
    ensures by_ids { IfOk result (λ stations. list_all (is_by ids.now) stations.items ≡ true) }
{
    let mut stations = Vec::new(alloc);
    for file in files {
        stations.push(read_one(alloc, ids, file)?)?;
    }
    Ok(stations)
}

fn read_one(
    alloc: Global,
    ids: &NetworkIds,
    file: &StationFiles,
) -> Result<StationPlan, NetworkFault>
    ensures read { IfOk result (λ station. station_plan file.now ≡ Some station) }
    ensures own { IfOk result (λ station. station.plan.station ≡ file.now.number) }
    ensures by_ids { IfOk result (λ station. is_by ids.now station ≡ true) }
{
    match Plan::read(alloc, file.plan.as_str()) {
        Ok(plan) => {
            check_own(alloc, ids, file, &plan)?;
            Ok(StationPlan {
                plan,
                device: file.device,
            })
        }
        Err(fault) => Err(fault_of_plan(alloc, file, &fault)),
    }
}

/// Refuses a plan of another station, or one in which an id means another neighbour.
fn check_own(
    alloc: Global,
    ids: &NetworkIds,
    file: &StationFiles,
    plan: &Plan,
) -> Result<(), NetworkFault>
    ensures own { OnOk result (plan.now.station ≡ file.now.number) }
    ensures by_ids { OnOk result (is_kept ids.now (neighbours_in plan.now) ≡ true) }
{
    let own = StationIds {
        number: plan.station(),
        peers: peers_in(alloc, plan.peers())?,
        hops: hops_in(alloc, plan.hops())?,
    };
    if own.number == file.number && is_kept(&ids.stations, &own) {
        return Ok(());
    }
    let name = file.name.as_str();
    Err(NetworkFault::Found(format!(in alloc;
        "station {name}: its plan isn't that of its number and its ids\n"
    )?))
}

fn peers_in(alloc: Global, peers: &[Neighbour]) -> Result<Vec<u16>, AllocError>
    ensures { IfOk result (λ numbers. numbers.items ≡ map (λ p. p.station) peers.now) }
{
    let mut numbers = Vec::new(alloc);
    for peer in peers {
        numbers.push(peer.station)?;
    }
    Ok(numbers)
}

fn hops_in(alloc: Global, hops: &[NextHop]) -> Result<Vec<u16>, AllocError>
    ensures { IfOk result (λ numbers. numbers.items ≡ map (λ h. h.neighbour.station) hops.now) }
{
    let mut numbers = Vec::new(alloc);
    for hop in hops {
        numbers.push(hop.neighbour.station)?;
    }
    Ok(numbers)
}

/// The fault of a plan that isn't one, with its place. Only a refusal of memory has none.
fn fault_of_plan(alloc: Global, file: &StationFiles, fault: &PlanFault) -> NetworkFault {
    let name = file.name.as_str();
    let Some(place) = &fault.place else {
        return NetworkFault::Memory;
    };
    match format!(in alloc; "station {name}: its plan would be refused at {place}\n") {
        Ok(line) => NetworkFault::Found(line),
        Err(_) => NetworkFault::Memory,
    }
}
