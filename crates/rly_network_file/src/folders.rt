//! The folders of applications of a network file.

use crate::contacts::{Contacts, contacts_at};
use crate::fault::{NetworkFault, fault_at, fault_of_key};
use crate::links::Link;
use crate::names::{Name, numbers_at, push_name, station_at};
use crate::neighbours::{Side, neighbour_place};
use crate::stations::{Station, find};
use crate::values::{check_keys, name_at, number_at, port_at, table_of, tables_at, text_at};
use rly_plan::{MAX_FILES, MAX_LEAD, MAX_LIMIT};
use std::alloc::Global;
use toml::Table;

/// An application at a station.
#[derive(Drop)]
pub(crate) struct Folder {
    /// The number of its table, from 1.
    pub table: usize,
    pub station: u16,
    /// The number by which the station's plan names it.
    pub number: u16,
    /// The folder from which the station takes its files.
    pub incoming: Option<String>,
    /// The folder into which the station puts files for it.
    pub outgoing: Option<String>,
    pub settings: FolderSettings,
}

impl Folder {
    /// The folder from which the station takes files, or that into which it puts them.
    pub(crate) fn path(&self, side: Side) -> Option<&String> {
        match side {
            Side::Peer => self.incoming.as_ref(),
            Side::Hop => self.outgoing.as_ref(),
        }
    }
}

#[derive(Clone, Copy)]
pub(crate) struct FolderSettings {
    pub destination: Option<u16>,
    pub limit: Option<u64>,
    pub most: Option<u64>,
    pub lead: Option<u64>,
    /// What it gives on average, in bytes a second.
    pub load: Option<u64>,
    /// The index of the contacts of its outgoing folder.
    pub contacts: usize,
}

const KEYS: [&str; 11] = [
    "at",
    "number",
    "name",
    "in",
    "out",
    "destination",
    "limit",
    "most",
    "lead",
    "load",
    "contacts",
];

/// Appends the names of the applications.
pub(crate) fn read_names(
    alloc: Global,
    document: &Table,
    names: &mut Vec<Name>,
) -> Result<(), NetworkFault> {
    let values = tables_at(alloc, document, "folder")?;
    for (index, value) in values.iter().enumerate() {
        let place = format!(in alloc; "folder[{}]", index.saturating_add(1))?;
        let table = table_of(alloc, value, place.as_str())?;
        check_keys(alloc, table, place.as_str(), &KEYS)?;
        let number = port_at(alloc, table, place.as_str(), "number")?;
        match (name_at(alloc, table, place.as_str(), "name")?, number) {
            (Some(name), Some(number)) => {
                push_name(alloc, names, place.as_str(), name.as_str(), number)?;
            }
            (Some(_), None) => {
                return Err(fault_at(alloc, place.as_str(), "a name wants a number beside it"));
            }
            (None, _) => (),
        }
    }
    Ok(())
}

/// The applications, in the file's order.
pub(crate) fn read_folders(
    alloc: Global,
    document: &Table,
    names: &[Name],
    stations: &[Station],
    links: &[Link],
    contacts: &mut Vec<Contacts>,
) -> Result<Vec<Folder>, NetworkFault> {
    let mut folders = Vec::new(alloc);
    let values = tables_at(alloc, document, "folder")?;
    for (index, value) in values.iter().enumerate() {
        let number = index.saturating_add(1);
        let place = format!(in alloc; "folder[{number}]")?;
        let table = table_of(alloc, value, place.as_str())?;
        let settings = read_settings(alloc, table, names, contacts, place.as_str())?;
        let at = numbers_at(
            alloc,
            names,
            table,
            place.as_str(),
            "at",
            "missing; write stations",
        )?;
        for station in &at {
            let folder = read_folder(alloc, table, place.as_str(), number, *station, settings)?;
            check_folder(alloc, &folders, stations, links, &folder, place.as_str())?;
            folders.push(folder)?;
        }
    }
    Ok(folders)
}

fn read_folder(
    alloc: Global,
    table: &Table,
    place: &str,
    number: usize,
    station: u16,
    settings: FolderSettings,
) -> Result<Folder, NetworkFault> {
    Ok(Folder {
        table: number,
        station,
        number: port_at(alloc, table, place, "number")?.unwrap_or(station),
        incoming: text_at(alloc, table, place, "in")?,
        outgoing: text_at(alloc, table, place, "out")?,
        settings,
    })
}

fn read_settings(
    alloc: Global,
    table: &Table,
    names: &[Name],
    contacts: &mut Vec<Contacts>,
    place: &str,
) -> Result<FolderSettings, NetworkFault> {
    Ok(FolderSettings {
        destination: station_at(alloc, names, table, place, "destination")?,
        limit: number_at(alloc, table, place, "limit", 1, MAX_LIMIT)?,
        most: number_at(alloc, table, place, "most", 1, MAX_FILES)?,
        lead: number_at(alloc, table, place, "lead", 0, MAX_LEAD)?,
        load: number_at(alloc, table, place, "load", 1, 1_000_000_000)?,
        contacts: contacts_at(alloc, contacts, table, place)?,
    })
}

/// Refuses a folder at no station, without a direction, or with the number of another neighbour of its station.
fn check_folder(
    alloc: Global,
    folders: &[Folder],
    stations: &[Station],
    links: &[Link],
    folder: &Folder,
    place: &str,
) -> Result<(), NetworkFault> {
    let (at, number) = (folder.station, folder.number);
    let (gives, takes) = (folder.incoming.is_some(), folder.outgoing.is_some());
    if find(stations, at).is_none() {
        return Err(fault_of_key(alloc, place, "at", "it isn't a station"));
    }
    if !gives && !takes {
        return Err(fault_at(alloc, place, "write in or out, a folder"));
    }
    let is_peer = neighbour_place(links, folders, Side::Peer, at, number, "").is_some();
    let is_hop = neighbour_place(links, folders, Side::Hop, at, number, "").is_some();
    if (gives && is_peer) || (takes && is_hop) {
        let text = "another neighbour of the station has it; write another";
        return Err(fault_of_key(alloc, place, "number", text));
    }
    Ok(())
}

/// The application of a number that a station has at a side: one that gives it files, or one that takes them.
pub(crate) fn folder_of(
    folders: &[Folder],
    side: Side,
    station: u16,
    number: u16,
) -> Option<&Folder> {
    for folder in folders {
        if folder.station == station && folder.number == number && folder.path(side).is_some() {
            return Some(folder);
        }
    }
    None
}
