//! The text of a station's plan.

use crate::assignment::place_of;
use crate::fault::{NetworkFault, fault_at};
use crate::folders::{Folder, folder_of};
use crate::ids::{NetworkIds, StationIds};
use crate::links::{Link, link_at};
use crate::neighbours::{Side, count_in_use, is_in_use};
use crate::network_file::NetworkFile;
use crate::paths::step_of;
use crate::places::Place;
use crate::stations::{Station, find};
use std::alloc::Global;

/// A route of a plan, and the table of the network file that it comes from.
#[derive(Drop)]
pub(crate) struct Route {
    pub destination: Option<u16>,
    pub hop: usize,
    pub place: Place,
}

/// The text of a station's plan.
pub(crate) fn plan_text(
    alloc: Global,
    file: &NetworkFile,
    ids: &NetworkIds,
    own: &StationIds,
    station: &Station,
) -> Result<String, NetworkFault> {
    let (number, name) = (station.number, station.name.as_str());
    let mut text = format!(in alloc;
        "# Station {number}, {name}. Written by `rly network write`: change the network's file.\nstation = {number}\n"
    )?;
    push_neighbours(alloc, &mut text, file, ids, own, station, Side::Peer)?;
    push_neighbours(alloc, &mut text, file, ids, own, station, Side::Hop)?;
    let routes = routes_of(alloc, file, own)?;
    push_routes(&mut text, &routes)?;
    Ok(text)
}

/// Appends the tables of a station's peers or of its hops, up to the last one that is in use.
fn push_neighbours(
    alloc: Global,
    text: &mut String,
    file: &NetworkFile,
    ids: &NetworkIds,
    own: &StationIds,
    station: &Station,
    side: Side,
) -> Result<(), NetworkFault> {
    let array = match side {
        Side::Peer => "peer",
        Side::Hop => "hop",
    };
    let used = count_in_use(file, side, own);
    for (index, number) in own.row(side).iter().enumerate() {
        if index < used {
            let id = index.saturating_add(1);
            writeln!(text, "\n[[{array}]]\nid = {id}\nstation = {number}")?;
            push_neighbour(alloc, text, file, ids, station, side, id, *number)?;
        }
    }
    Ok(())
}

/// Appends the other keys of a neighbour's table.
fn push_neighbour(
    alloc: Global,
    text: &mut String,
    file: &NetworkFile,
    ids: &NetworkIds,
    station: &Station,
    side: Side,
    id: usize,
    number: u16,
) -> Result<(), NetworkFault> {
    if let Some(link) = link_at(&file.links, side, station.number, number) {
        return push_link(alloc, text, file, ids, link, side);
    }
    match folder_of(&file.folders, side, station.number, number) {
        Some(folder) => push_folder(text, file, folder, side),
        None => push_unused(text, port_of(station, side, id), side),
    }
}

fn push_link(
    alloc: Global,
    text: &mut String,
    file: &NetworkFile,
    ids: &NetworkIds,
    link: &Link,
    side: Side,
) -> Result<(), NetworkFault> {
    let far = match side {
        Side::Peer => Side::Hop,
        Side::Hop => Side::Peer,
    };
    let listen = end_of(alloc, file, ids, link, side, true)?;
    let remote = end_of(alloc, file, ids, link, far, false)?;
    writeln!(text, "listen = \"{listen}\"\nremote = \"{remote}\"")?;
    if let Some(key) = &link.key {
        writeln!(text, "key = \"{key}\"")?;
    }
    match side {
        Side::Peer => Ok(()),
        Side::Hop => {
            push_number(text, "resend", link.settings.resend)?;
            push_number(text, "rate", link.settings.rate)?;
            push_contacts(text, file, link.settings.lead, link.settings.contacts)
        }
    }
}

/// Appends a key with a number, if there is one.
fn push_number(text: &mut String, key: &str, number: Option<u64>) -> Result<(), NetworkFault> {
    if let Some(number) = number {
        writeln!(text, "{key} = {number}")?;
    }
    Ok(())
}

fn push_contacts(
    text: &mut String,
    file: &NetworkFile,
    lead: Option<u64>,
    index: usize,
) -> Result<(), NetworkFault> {
    push_number(text, "lead", lead)?;
    if let Some(contacts) = file.contacts.get(index) {
        let array = contacts.text.as_str();
        writeln!(text, "contacts = [{array}]")?;
    }
    Ok(())
}

fn push_folder(
    text: &mut String,
    file: &NetworkFile,
    folder: &Folder,
    side: Side,
) -> Result<(), NetworkFault> {
    if let Some(path) = folder.path(side) {
        writeln!(text, "folder = \"{path}\"")?;
    }
    let settings = folder.settings;
    match side {
        Side::Peer => {
            push_number(text, "destination", settings.destination.map(u64::from))?;
            push_number(text, "limit", settings.limit)
        }
        Side::Hop => {
            push_number(text, "most", settings.most)?;
            push_contacts(text, file, settings.lead, settings.contacts)
        }
    }
}

/// Appends the keys of a neighbour that was taken out: an address that nobody else reaches.
fn push_unused(text: &mut String, port: u64, side: Side) -> Result<(), NetworkFault> {
    writeln!(
        text,
        "# Taken out: it keeps its id.\nlisten = \"127.0.0.1:{port}\"\nremote = \"127.0.0.1:9\""
    )?;
    match side {
        Side::Peer => Ok(()),
        Side::Hop => Ok(text.push_str("contacts = []\n")?),
    }
}

/// The address of an end of a link: the one on which it listens, or the one to which the other end sends.
fn end_of(
    alloc: Global,
    file: &NetworkFile,
    ids: &NetworkIds,
    link: &Link,
    side: Side,
    is_listen: bool,
) -> Result<String, NetworkFault> {
    let (at, neighbour, port) = match side {
        Side::Peer => (link.to, link.from, link.settings.to_port),
        Side::Hop => (link.from, link.to, link.settings.from_port),
    };
    let id = match ids.of(at) {
        Some(own) => place_of(own.row(side), neighbour),
        None => None,
    };
    let (Some(station), Some(id)) = (find(&file.stations, at), id) else {
        return Err(fault_at(alloc, "the ids", "a link has none; assign them anew"));
    };
    let port = match port {
        Some(port) => u64::from(port),
        None => port_of(station, side, id),
    };
    let host = if is_listen {
        station.listen.as_str()
    } else {
        station.address.as_str()
    };
    Ok(format!(in alloc; "{host}:{port}")?)
}

/// The port of an id: those of a station's hops come 64 after those of its peers.
fn port_of(station: &Station, side: Side, id: usize) -> u64 {
    let port = u64::from(station.port).saturating_add(id as u64);
    match side {
        Side::Peer => port,
        Side::Hop => port.saturating_add(64),
    }
}

/// The routes of a station: those of the paths, and one into each folder of its own that no path leads elsewhere.
pub(crate) fn routes_of(
    alloc: Global,
    file: &NetworkFile,
    own: &StationIds,
) -> Result<Vec<Route>, NetworkFault> {
    let mut routes = Vec::new(alloc);
    for step in &file.steps {
        if step.station == own.number {
            let (table, station, next) = (step.table, step.station, step.next);
            match place_of(&own.hops, next) {
                Some(hop) if is_in_use(file, Side::Hop, station, next) => routes.push(Route {
                    destination: step.destination,
                    hop,
                    place: Place {
                        array: "path",
                        table,
                        key: "",
                    },
                })?,
                _ => {
                    return Err(NetworkFault::Found(format!(in alloc;
                        "path[{table}]: station {station} has neither a link nor a folder to {next}\n"
                    )?));
                }
            }
        }
    }
    push_own(&mut routes, file, own)?;
    Ok(routes)
}

fn push_own(
    routes: &mut Vec<Route>,
    file: &NetworkFile,
    own: &StationIds,
) -> Result<(), NetworkFault> {
    for folder in &file.folders {
        let number = folder.number;
        if folder.station == own.number
            && folder.outgoing.is_some()
            && step_of(&file.steps, own.number, Some(number)).is_none()
        {
            if let Some(hop) = place_of(&own.hops, number) {
                routes.push(Route {
                    destination: Some(number),
                    hop,
                    place: Place {
                        array: "folder",
                        table: folder.table,
                        key: "",
                    },
                })?;
            }
        }
    }
    Ok(())
}

fn push_routes(text: &mut String, routes: &[Route]) -> Result<(), NetworkFault> {
    for route in routes {
        let hop = route.hop;
        text.push_str("\n[[route]]\n")?;
        match route.destination {
            Some(destination) => writeln!(text, "destination = {destination}")?,
            None => text.push_str("destination = \"rest\"\n")?,
        }
        writeln!(text, "hop = {hop}")?;
    }
    Ok(())
}
