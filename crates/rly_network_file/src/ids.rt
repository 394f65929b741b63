//! The ids of the neighbours of each station.

ghost use Rattle.std.specs.Prelude.{◌≡◌, IfOk, Some};
ghost use Rattle.toml.specs.View.{table_view};
ghost use Rattle.rly_network_file.specs.IdsText.{ids_in, neighbours_at};

use crate::distinct::are_distinct;
use crate::fault::{NetworkFault, fault_at};
use crate::items::{Item, items_at, number_in};
use crate::neighbours::Side;
use crate::values::{check_keys, document_of};
use rly_plan_syntax::value_at;
use std::alloc::Global;
use std::marker::Model;
use toml::{Table, Value};

/// The neighbours of a station in the order of their ids, which count from 1: the stations' numbers.
#[derive(Drop)]
pub struct StationIds {
    /// The station's own number.
    pub number: u16,
    /// Its peers.
    pub peers: Vec<u16>,
    /// Its hops.
    pub hops: Vec<u16>,
}

impl Model for StationIds {
    ghost use Rattle.rly_network_file.specs.Ids.{Neighbours};

    ghost Value = { Neighbours };

    ghost view = { λ s. record { number = s.number; peers = s.peers.items; hops = s.hops.items } };
}

impl StationIds {
    /// The neighbours at a side.
    pub(crate) fn row(&self, side: Side) -> &[u16] {
        match side {
            Side::Peer => &self.peers,
            Side::Hop => &self.hops,
        }
    }
}

/// The ids of the neighbours of each station.
#[derive(Drop)]
pub struct NetworkIds {
    pub(crate) stations: Vec<StationIds>,
}

impl Model for NetworkIds {
    ghost use Rattle.std.specs.Prelude.{List};
    ghost use Rattle.rly_network_file.specs.Ids.{Neighbours};

    ghost Value = { List Neighbours };

    ghost view = { λ ids. ids.stations.items };
}

impl NetworkIds {
    ghost use Rattle.std.specs.Prelude.{◌≡◌, IfOk, Some, true};
    ghost use Rattle.rly_network_file.specs.Ids.{are_distinct};
    ghost use Rattle.rly_network_file.specs.IdsText.{ids_of_text};

    /// Reads ids (`docs/NETWORK.md`, "Ids"). The first fault is returned with its place.
    pub fn from_text(alloc: Global, text: &str) -> Result<NetworkIds, NetworkFault>
        ensures read { IfOk result (λ ids. ids_of_text text.now ≡ Some ids) }
        ensures distinct { IfOk result (λ ids. are_distinct ids ≡ true) }
    {
        let document = document_of(alloc, text)?;
        check_keys(alloc, &document, "the top", &["station"])?;
        let stations = stations_in(alloc, &document)?;
        if !are_distinct(&stations) {
            return Err(fault_at(alloc, "station", "a number is there twice"));
        }
        Ok(NetworkIds { stations })
    }

    /// The neighbours of a station.
    pub(crate) fn of(&self, number: u16) -> Option<&StationIds> {
        for station in &self.stations {
            if station.number == number {
                return Some(station);
            }
        }
        None
    }
}

const HEAD: &str =
    "# Which neighbour has which id at each station, the first of an array id 1. `rly network write` keeps this file. Keep it with
# the network's: without it ids would change their meaning.
";

/// A text that is to be read as these ids.
pub(crate) fn text_of(alloc: Global, stations: &[StationIds]) -> Result<String, NetworkFault> {
    let mut text = String::from_str(alloc, HEAD)?;
    for station in stations {
        let number = station.number;
        writeln!(&mut text, "\n[[station]]\nnumber = {number}")?;
        push_row(&mut text, "peer", &station.peers)?;
        push_row(&mut text, "hop", &station.hops)?;
    }
    Ok(text)
}

fn push_row(text: &mut String, key: &str, numbers: &[u16]) -> Result<(), NetworkFault> {
    write!(text, "{key} = [")?;
    let mut between = "";
    for number in numbers {
        write!(text, "{between}{number}")?;
        between = ", ";
    }
    text.push_str("]\n")?;
    Ok(())
}

/// The ids of a document's stations: none if it has no `station`.
fn stations_in(alloc: Global, document: &Table) -> Result<Vec<StationIds>, NetworkFault>
    ensures { IfOk result (λ stations. ids_in (table_view document.now) ≡ Some stations.items) }
{
    match value_at(document, "station") {
        Some(_) => items_at(alloc, document, "station", "station"),
        None => Ok(Vec::new(alloc)),
    }
}

impl Item for StationIds {
    ghost use Rattle.rly_network_file.specs.IdsText.{neighbours_of};

    ghost shape = { neighbours_of };

    fn read(alloc: Global, value: &Value, place: &str) -> Result<StationIds, NetworkFault> {
        match value.as_table() {
            Some(table) => read_station(alloc, table, place),
            None => Err(fault_at(alloc, place, "write a table")),
        }
    }
}

fn read_station(alloc: Global, table: &Table, place: &str) -> Result<StationIds, NetworkFault>
    ensures { IfOk result (λ ids. neighbours_at (table_view table.now) ≡ Some ids) }
{
    check_keys(alloc, table, place, &["number", "peer", "hop"])?;
    let number = number_in(alloc, table, place)?;
    let place_of_peers = format!(in alloc; "{place}.peer")?;
    let peers: Vec<u16> = items_at(alloc, table, "peer", place_of_peers.as_str())?;
    let place_of_hops = format!(in alloc; "{place}.hop")?;
    let hops: Vec<u16> = items_at(alloc, table, "hop", place_of_hops.as_str())?;
    Ok(StationIds {
        number,
        peers,
        hops,
    })
}
