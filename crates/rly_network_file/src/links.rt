//! The links of a network file.

use crate::contacts::{Contacts, contacts_at};
use crate::fault::{NetworkFault, fault_at, fault_of_key};
use crate::names::{Name, numbers_at};
use crate::neighbours::Side;
use crate::stations::{Station, find};
use crate::values::{check_keys, flag_at, number_at, port_at, table_of, tables_at, text_at};
use rly_core::limits::{MAX_RESEND, MIN_RESEND};
use rly_plan::{MAX_LEAD, MAX_RATE};
use std::alloc::Global;
use toml::{Table, Value};

/// A link from one station to another.
#[derive(Drop)]
pub(crate) struct Link {
    /// The number of its table, from 1.
    pub table: usize,
    pub from: u16,
    pub to: u16,
    /// The name of its key's file.
    pub key: Option<String>,
    pub settings: Settings,
}

/// What a table of links says of each of them.
#[derive(Clone, Copy)]
pub(crate) struct Settings {
    /// The index of its contacts.
    pub contacts: usize,
    pub resend: Option<u64>,
    pub rate: Option<u64>,
    pub lead: Option<u64>,
    /// The ports at its two ends.
    pub from_port: Option<u16>,
    pub to_port: Option<u16>,
}

/// Whether links have keys, and the name of the file if they share one.
#[derive(Drop)]
enum Keyed {
    No,
    Own,
    Shared(String),
}

const KEYS: [&str; 10] = [
    "from",
    "to",
    "both",
    "contacts",
    "resend",
    "rate",
    "lead",
    "key",
    "from_port",
    "to_port",
];

/// The links, in the file's order.
pub(crate) fn read_links(
    alloc: Global,
    document: &Table,
    names: &[Name],
    stations: &[Station],
    contacts: &mut Vec<Contacts>,
) -> Result<Vec<Link>, NetworkFault> {
    let keyed = flag_at(alloc, document, "the top", "key")?.unwrap_or(true);
    let mut links = Vec::new(alloc);
    let values = tables_at(alloc, document, "link")?;
    for (index, value) in values.iter().enumerate() {
        let number = index.saturating_add(1);
        let place = format!(in alloc; "link[{number}]")?;
        let table = table_of(alloc, value, place.as_str())?;
        check_keys(alloc, table, place.as_str(), &KEYS)?;
        let settings = read_settings(alloc, table, place.as_str(), contacts)?;
        let keyed = read_keyed(alloc, table, place.as_str(), keyed)?;
        let mut group = Group {
            table: number,
            settings,
            keyed,
        };
        group.push_all(alloc, &mut links, names, stations, table, place.as_str())?;
    }
    Ok(links)
}

fn read_settings(
    alloc: Global,
    table: &Table,
    place: &str,
    contacts: &mut Vec<Contacts>,
) -> Result<Settings, NetworkFault> {
    Ok(Settings {
        contacts: contacts_at(alloc, contacts, table, place)?,
        resend: number_at(alloc, table, place, "resend", MIN_RESEND, MAX_RESEND)?,
        rate: number_at(alloc, table, place, "rate", 1, MAX_RATE)?,
        lead: number_at(alloc, table, place, "lead", 0, MAX_LEAD)?,
        from_port: port_at(alloc, table, place, "from_port")?,
        to_port: port_at(alloc, table, place, "to_port")?,
    })
}

fn read_keyed(
    alloc: Global,
    table: &Table,
    place: &str,
    keyed: bool,
) -> Result<Keyed, NetworkFault> {
    let own = match table.get("key") {
        Some(Value::Boolean(own)) => *own,
        Some(_) => {
            return match text_at(alloc, table, place, "key")? {
                Some(name) if is_file_name(name.as_str()) => Ok(Keyed::Shared(name)),
                _ => Err(fault_of_key(alloc, place, "key", "write true, false or a file's name")),
            };
        }
        None => keyed,
    };
    Ok(if own { Keyed::Own } else { Keyed::No })
}

/// Whether a text is a file's name in the station's own folder.
fn is_file_name(text: &str) -> bool {
    let mut is_hidden = true;
    for byte in text.as_bytes() {
        if byte.is_ascii_alphanumeric() {
            is_hidden = false;
        } else if is_hidden || !(*byte == b'-' || *byte == b'_' || *byte == b'.') {
            return false;
        }
    }
    !is_hidden
}

/// The links of one table.
#[derive(Drop)]
struct Group {
    table: usize,
    settings: Settings,
    keyed: Keyed,
}

impl Group {
    /// Appends a link from each station of `from` to each of `to`, and back if `both` is given.
    fn push_all(
        &mut self,
        alloc: Global,
        links: &mut Vec<Link>,
        names: &[Name],
        stations: &[Station],
        table: &Table,
        place: &str,
    ) -> Result<(), NetworkFault> {
        let missing = "missing; write stations";
        let from = numbers_at(alloc, names, table, place, "from", missing)?;
        let to = numbers_at(alloc, names, table, place, "to", missing)?;
        check_stations(alloc, stations, &from, place, "from")?;
        check_stations(alloc, stations, &to, place, "to")?;
        let has_port = self.settings.from_port.is_some() || self.settings.to_port.is_some();
        if has_port && (from.len() != 1 || to.len() != 1) {
            return Err(fault_at(
                alloc,
                place,
                "a port is that of one link; write a table for each",
            ));
        }
        self.push_between(alloc, links, stations, &from, &to, place)?;
        if flag_at(alloc, table, place, "both")?.unwrap_or(false) {
            let Settings {
                from_port,
                to_port,
                ..
            } = self.settings;
            self.settings.from_port = to_port;
            self.settings.to_port = from_port;
            self.push_between(alloc, links, stations, &to, &from, place)?;
        }
        Ok(())
    }

    fn push_between(
        &self,
        alloc: Global,
        links: &mut Vec<Link>,
        stations: &[Station],
        from: &[u16],
        to: &[u16],
        place: &str,
    ) -> Result<(), NetworkFault> {
        for station in from {
            for far in to {
                if station != far {
                    self.push_link(alloc, links, stations, *station, *far, place)?;
                }
            }
        }
        Ok(())
    }

    /// Appends a link, which no other table may give.
    fn push_link(
        &self,
        alloc: Global,
        links: &mut Vec<Link>,
        stations: &[Station],
        from: u16,
        to: u16,
        place: &str,
    ) -> Result<(), NetworkFault> {
        if let Some(other) = link_of(links, from, to) {
            let number = other.table;
            let text = format!(in alloc;
                "link[{number}] already leads from station {from} to station {to}"
            )?;
            return Err(fault_at(alloc, place, text.as_str()));
        }
        links.push(Link {
            table: self.table,
            from,
            to,
            key: key_of(alloc, &self.keyed, stations, from, to)?,
            settings: self.settings,
        })?;
        Ok(())
    }
}

fn check_stations(
    alloc: Global,
    stations: &[Station],
    numbers: &[u16],
    place: &str,
    key: &str,
) -> Result<(), NetworkFault> {
    for number in numbers {
        if find(stations, *number).is_none() {
            let text = format!(in alloc; "no station has the number {number}")?;
            return Err(fault_of_key(alloc, place, key, text.as_str()));
        }
    }
    Ok(())
}

/// The name of the file of a link's key, if it has one: the name in its table, or one by the names of its stations.
fn key_of(
    alloc: Global,
    keyed: &Keyed,
    stations: &[Station],
    from: u16,
    to: u16,
) -> Result<Option<String>, NetworkFault> {
    match keyed {
        Keyed::No => Ok(None),
        Keyed::Shared(name) => Ok(Some(name.clone()?)),
        Keyed::Own => match (find(stations, from), find(stations, to)) {
            (Some(from), Some(to)) => {
                let (from, to) = (from.name.as_str(), to.name.as_str());
                Ok(Some(format!(in alloc; "{from}-to-{to}.key")?))
            }
            _ => Ok(None),
        },
    }
}

/// The link from one station to another.
pub(crate) fn link_of(links: &[Link], from: u16, to: u16) -> Option<&Link> {
    for link in links {
        if link.from == from && link.to == to {
            return Some(link);
        }
    }
    None
}

/// The link between a station and its neighbour at a side.
pub(crate) fn link_at(links: &[Link], side: Side, station: u16, number: u16) -> Option<&Link> {
    match side {
        Side::Peer => link_of(links, number, station),
        Side::Hop => link_of(links, station, number),
    }
}
