//! Which id each neighbour has.

ghost use Rattle.std.specs.Prelude.{◌≡◌, IfOk, [], List, option_copied, Some, string_bytes, true, unwrap_or};
ghost use Rattle.rly_network_file.specs.Ids.{are_distinct, keeps};
ghost use Rattle.rly_network_file.specs.IdsText.{ids_of_text};

use crate::distinct::is_there;
use crate::fault::{NetworkFault, fault_at};
use crate::ids::{NetworkIds, StationIds, text_of};
use crate::kept::keeps;
use crate::network_file::NetworkFile;
use std::alloc::Global;

/// The ids of a network, and the text that is read as them: those that there were before, and the next ones for neighbours
/// that are new. So no id ever gets another meaning.
pub fn assign(
    alloc: Global,
    file: &NetworkFile,
    before: Option<&NetworkIds>,
) -> Result<(NetworkIds, String), NetworkFault>
    ensures kept { IfOk result (λ it. keeps (unwrap_or (option_copied before.entry) []) it.0 ≡ true) }
    ensures distinct { IfOk result (λ it. are_distinct it.0 ≡ true) }
    ensures read { IfOk result (λ it. ids_of_text (string_bytes it.1) ≡ Some it.0) }
{
    match before {
        Some(before) => assign_after(alloc, file, &before.stations),
        None => assign_after(alloc, file, &[]),
    }
}

fn assign_after(
    alloc: Global,
    file: &NetworkFile,
    before: &[StationIds],
) -> Result<(NetworkIds, String), NetworkFault>
    ensures kept { IfOk result (λ it. keeps before.now it.0 ≡ true) }
    ensures distinct { IfOk result (λ it. are_distinct it.0 ≡ true) }
    ensures read { IfOk result (λ it. ids_of_text (string_bytes it.1) ≡ Some it.0) }
{
    let mut stations = Vec::new(alloc);
    push_all(alloc, &mut stations, file, before)?;
    let text = text_of(alloc, &stations)?;
    let ids = NetworkIds::from_text(alloc, text.as_str())?;
    if !keeps(before, &ids.stations) {
        return Err(fault_at(alloc, "the ids", "an id would change its meaning"));
    }
    Ok((ids, text))
}

/// Appends the stations that had ids before, and those of the network that had none.
fn push_all(
    alloc: Global,
    stations: &mut Vec<StationIds>,
    file: &NetworkFile,
    before: &[StationIds],
) -> Result<(), NetworkFault> {
    for ids in before {
        let (peers, hops) = (ids.peers.clone()?, ids.hops.clone()?);
        stations.push(grown(alloc, file, ids.number, peers, hops)?)?;
    }
    for station in &file.stations {
        if !is_there(stations, station.number) {
            let (peers, hops) = (Vec::new(alloc), Vec::new(alloc));
            stations.push(grown(alloc, file, station.number, peers, hops)?)?;
        }
    }
    Ok(())
}

/// The ids of a station, with the next ones for neighbours that have none.
fn grown(
    alloc: Global,
    file: &NetworkFile,
    number: u16,
    mut peers: Vec<u16>,
    mut hops: Vec<u16>,
) -> Result<StationIds, NetworkFault> {
    push_neighbours(&mut peers, &mut hops, file, number)?;
    if peers.len() > 64 || hops.len() > 64 {
        let text = format!(in alloc;
            "station {number} has used more than 64 ids of peers or of hops"
        )?;
        return Err(fault_at(alloc, "the ids", text.as_str()));
    }
    Ok(StationIds {
        number,
        peers,
        hops,
    })
}

fn push_neighbours(
    peers: &mut Vec<u16>,
    hops: &mut Vec<u16>,
    file: &NetworkFile,
    number: u16,
) -> Result<(), NetworkFault> {
    for link in &file.links {
        if link.to == number {
            push_once(peers, link.from)?;
        }
        if link.from == number {
            push_once(hops, link.to)?;
        }
    }
    for folder in &file.folders {
        if folder.station == number && folder.incoming.is_some() {
            push_once(peers, folder.number)?;
        }
        if folder.station == number && folder.outgoing.is_some() {
            push_once(hops, folder.number)?;
        }
    }
    Ok(())
}

fn push_once(numbers: &mut Vec<u16>, number: u16) -> Result<(), NetworkFault> {
    if place_of(numbers, number).is_none() {
        numbers.push(number)?;
    }
    Ok(())
}

/// The id of a neighbour: its place, from 1.
pub(crate) fn place_of(numbers: &[u16], number: u16) -> Option<usize> {
    for (index, other) in numbers.iter().enumerate() {
        if *other == number {
            return Some(index.saturating_add(1));
        }
    }
    None
}
