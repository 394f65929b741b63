//! The station of each id of a plan.

ghost use Rattle.std.specs.Prelude.{◌≡◌, ◌++◌, IfOk, OnOk, length, map, option_copied, string_bytes};
ghost use Rattle.std.specs.List.{flat_map};
ghost use Rattle.rly_plan.specs.ContactPlan.{at_number};
ghost use Rattle.rly_plan_changes.specs.PlanIds.{array_text, first_other, ids_of, later, other_station, station_line};
ghost use Rattle.rly_plan_changes.specs.PlanIds.{station_of_hop, station_of_peer};

use rly_plan::{Neighbour, NextHop, Plan, Row};
use std::alloc::{AllocError, Global};
use std::fmt;
use std::marker::Model;

/// The stations that the ids of a plan, or of a device, name: the first is that of id 1.
#[derive(Drop)]
pub struct PlanIds {
    pub(crate) peers: Vec<u16>,
    pub(crate) hops: Vec<u16>,
}

impl Model for PlanIds {
    ghost use Rattle.rly_plan_changes.specs.PlanIds.{Ids};

    ghost Value = { Ids };

    ghost view = { λ ids. record { peers = ids.peers.items; hops = ids.hops.items } };
}

/// An id that names another station than before; displays as the two.
#[derive(Clone, Copy, Debug, PartialEq, Eq)]
pub struct OtherStation {
    /// Whether the id is a peer's or a hop's.
    pub row: Row,
    /// The id.
    pub id: u64,
    /// The station that it named.
    pub was: u16,
    /// The station that it names now.
    pub now: u16,
}

impl fmt::Display for OtherStation {
    ghost use Rattle.std.specs.Prelude.{Some};
    ghost use Rattle.rly_plan_changes.specs.PlanIds.{other_text};

    ghost output = { λ other. Some (other_text other) };

    fn fmt<W: fmt::Write>(&self, f: &mut fmt::Formatter<W>) -> fmt::Result {
        let row = self.row.text();
        write!(
            f,
            "{row} {} named station {}, and names station {}",
            self.id, self.was, self.now
        )
    }
}

impl PlanIds {
    ghost use Rattle.std.specs.Prelude.{◌≡◌, ◌++◌, IfOk, OnOk, string_bytes};
    ghost use Rattle.rly_plan_changes.specs.PlanIds.{ids_of, ids_text, kept_after};

    /// Those of a plan. `Err`: out of memory.
    pub fn of(alloc: Global, plan: &Plan) -> Result<PlanIds, AllocError>
        ensures { IfOk result (λ ids. ids ≡ ids_of plan.now) }
    {
        Ok(PlanIds {
            peers: stations_of_peers(alloc, plan.peers())?,
            hops: stations_of_hops(alloc, plan.hops())?,
        })
    }

    /// Adds the ids of a device that these lack. `Err`: out of memory.
    pub(crate) fn keep(&mut self, kept: &PlanIds) -> Result<(), AllocError>
        ensures { OnOk result (self.new ≡ kept_after kept.now self.old) }
    {
        add_later(&mut self.peers, &kept.peers)?;
        add_later(&mut self.hops, &kept.hops)
    }

    /// The text of a file that keeps them. `Err`: out of memory.
    pub fn text(&self, alloc: Global) -> Result<String, AllocError>
        ensures { IfOk result (λ text. string_bytes text ≡ ids_text self.now) }
    {
        let mut text = String::new(alloc);
        writeln!(
            &mut text,
            "# The station of each id. `rly serve` keeps them; docs/FORMATS.md says how."
        )?;
        write_array(&mut text, "peers", &self.peers)?;
        write_array(&mut text, "hops", &self.hops)?;
        Ok(text)
    }
}

/// The first id that names another station in the second of two plans, peers before hops. `Err`: out of memory.
pub fn other_station(
    alloc: Global,
    old: &Plan,
    new: &Plan,
) -> Result<Option<OtherStation>, AllocError>
    ensures { IfOk result (λ other. other ≡ other_station (ids_of old.now) (ids_of new.now)) }
{
    let old = PlanIds::of(alloc, old)?;
    let new = PlanIds::of(alloc, new)?;
    Ok(other_of(&old, &new))
}

/// The first id that names another station in the second of two, peers before hops.
pub(crate) fn other_of(old: &PlanIds, new: &PlanIds) -> Option<OtherStation>
    ensures { result ≡ other_station old.now new.now }
{
    match first_other(Row::Peer, &old.peers, &new.peers) {
        Some(other) => Some(other),
        None => first_other(Row::Hop, &old.hops, &new.hops),
    }
}

/// The first id of a row that names another station in the second of two lists.
fn first_other(row: Row, old: &[u16], new: &[u16]) -> Option<OtherStation>
    ensures { result ≡ first_other row 1 old.now new.now }
{
    for index in 0..old.len().min(new.len()) {
        let (was, now) = (old[index], new[index]);
        if was != now {
            let id = index as u64 + 1;
            return Some(OtherStation { row, id, was, now });
        }
    }
    None
}

fn stations_of_peers(alloc: Global, peers: &[Neighbour]) -> Result<Vec<u16>, AllocError>
    ensures { IfOk result (λ stations. stations.items ≡ map station_of_peer peers.now) }
{
    let mut stations = Vec::new(alloc);
    for peer in peers {
        stations.push(peer.station)?;
    }
    Ok(stations)
}

fn stations_of_hops(alloc: Global, hops: &[NextHop]) -> Result<Vec<u16>, AllocError>
    ensures { IfOk result (λ stations. stations.items ≡ map station_of_hop hops.now) }
{
    let mut stations = Vec::new(alloc);
    for hop in hops {
        stations.push(hop.neighbour.station)?;
    }
    Ok(stations)
}

/// Adds those of the kept stations that come after these.
fn add_later(stations: &mut Vec<u16>, kept: &[u16]) -> Result<(), AllocError>
    ensures { OnOk result (stations.new.items ≡ later kept.now stations.old.items) }
{
    let count = stations.len();
    if count < kept.len() {
        stations.extend_from_slice(&kept[count..])?;
    }
    Ok(())
}

/// Appends an array of stations.
fn write_array(text: &mut String, name: &str, stations: &[u16]) -> Result<(), AllocError>
    ensures { OnOk result (string_bytes text.new ≡ string_bytes text.old ++ array_text name.now stations.now) }
{
    writeln!(text, "{name} = [")?;
    write_stations(text, stations)?;
    writeln!(text, "]")?;
    Ok(())
}

fn write_stations(text: &mut String, stations: &[u16]) -> Result<(), AllocError>
    ensures { OnOk result (string_bytes text.new ≡ string_bytes text.old ++ flat_map station_line stations.now) }
{
    for station in stations {
        writeln!(text, "  {station},")?;
    }
    Ok(())
}
