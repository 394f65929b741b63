//! The places of disagreements in the network file.

use crate::fault::NetworkFault;
use crate::ids::NetworkIds;
use crate::neighbours::{Side, neighbour_place};
use crate::network_file::NetworkFile;
use crate::plans::routes_of;
use rly_network::Disagreement;
use rly_plan::{KeyPath, PlanKey, Row, Spot};
use std::alloc::Global;
use std::fmt;

/// A table of the network file, or a key of it; displays as its path.
#[derive(Clone, Copy)]
pub(crate) struct Place {
    /// The array of the table.
    pub array: &'static str,
    /// The number of the table, from 1.
    pub table: usize,
    /// The key with a point before it, or nothing.
    pub key: &'static str,
}

impl fmt::Display for Place {
    fn fmt<W: fmt::Write>(&self, f: &mut fmt::Formatter<W>) -> fmt::Result {
        let Place { array, table, key } = *self;
        write!(f, "{array}[{table}]{key}")
    }
}

/// The lines of disagreements, each with its place in the network file before the one in the plan.
pub(crate) fn lines_in_file(
    alloc: Global,
    file: &NetworkFile,
    ids: &NetworkIds,
    found: &[Disagreement],
) -> Result<String, NetworkFault> {
    let mut lines = String::new(alloc);
    for disagreement in found {
        let place = place_in_file(alloc, file, ids, *disagreement)?;
        writeln!(&mut lines, "{place}: {disagreement}")?;
    }
    Ok(lines)
}

fn place_in_file(
    alloc: Global,
    file: &NetworkFile,
    ids: &NetworkIds,
    found: Disagreement,
) -> Result<Place, NetworkFault> {
    let station = station_place(file, found.station);
    let (Some(own), KeyPath::In(row, number, spot)) = (ids.of(found.station), found.place) else {
        return Ok(station);
    };
    let index = number.saturating_sub(1) as usize;
    let (side, key) = match row {
        Row::Peer => (Side::Peer, ""),
        Row::Hop => (Side::Hop, key_of(spot)),
        Row::Route => {
            let routes = routes_of(alloc, file, own)?;
            return Ok(match routes.get(index) {
                Some(route) => route.place,
                None => station,
            });
        }
    };
    let place = match own.row(side).get(index) {
        Some(number) => {
            neighbour_place(&file.links, &file.folders, side, own.number, *number, key)
        }
        None => None,
    };
    Ok(place.unwrap_or(station))
}

/// The place of a station.
pub(crate) fn station_place(file: &NetworkFile, number: u16) -> Place {
    let mut table = 0;
    for (index, station) in file.stations.iter().enumerate() {
        if station.number == number {
            table = index.saturating_add(1);
        }
    }
    Place {
        array: "station",
        table,
        key: "",
    }
}

/// The key of a link's table that a key of its hop comes from.
fn key_of(spot: Spot) -> &'static str {
    match spot {
        Spot::At(PlanKey::Station) => ".to",
        Spot::At(PlanKey::Key) => ".key",
        _ => "",
    }
}
