//! The stations of a network file.

ghost use Rattle.std.specs.Prelude.{◌≡◌, ◌≢◌, [], codes, IfOk, Some};
ghost use Rattle.toml.specs.View.{table_view};
ghost use Rattle.rly_network_file.specs.NetworkText.{numbers_in};

use crate::fault::{NetworkFault, fault_at, fault_of_key};
use crate::items::{Item, items_at, number_in};
use crate::names::{Name, push_name};
use crate::values::{check_keys, flag_at, name_at, number_at, table_of, tables_at, text_at};
use rly_core::{Params, limits};
use std::alloc::Global;
use std::marker::Model;
use toml::{Table, Value};

/// The options of `rly format`, and where a station listens.
#[derive(Clone, Copy)]
pub(crate) struct Device {
    pub params: Params,
    pub segments: Option<u64>,
    pub length: Option<u64>,
    pub keep_all: bool,
}

/// How many ports a station has: one for each id of a peer and of a hop.
const PORTS: u16 = 128;

/// A station.
#[derive(Drop)]
pub(crate) struct Station {
    pub number: u16,
    pub name: String,
    /// The host to which its neighbours send.
    pub address: String,
    /// The host on which it listens.
    pub listen: String,
    /// Its peer 1 listens on the next port, its hop 1 on the one 65 after it.
    pub port: u16,
    pub device: Device,
}

const DEVICE_KEYS: [&str; 12] = [
    "hops",
    "peers",
    "window",
    "items",
    "bytes",
    "maxpacket",
    "target",
    "interval",
    "payload",
    "segments",
    "length",
    "keep_all",
];

const KEYS: [&str; 17] = [
    "number",
    "name",
    "address",
    "listen",
    "port",
    "hops",
    "peers",
    "window",
    "items",
    "bytes",
    "maxpacket",
    "target",
    "interval",
    "payload",
    "segments",
    "length",
    "keep_all",
];

/// The stations, in the file's order; appends their names.
pub(crate) fn read_stations(
    alloc: Global,
    document: &Table,
    names: &mut Vec<Name>,
) -> Result<Vec<Station>, NetworkFault> {
    let device = default_device(alloc, document)?;
    let port = number_at(alloc, document, "the top", "port", 1, 65_535)?.unwrap_or(7_000);
    let step = number_at(alloc, document, "the top", "step", 0, 65_535)?.unwrap_or(0);
    let mut stations = Vec::new(alloc);
    let values = tables_at(alloc, document, "station")?;
    for (index, value) in values.iter().enumerate() {
        let place = format!(in alloc; "station[{}]", index.saturating_add(1))?;
        let station = read_station(alloc, value, place.as_str(), device, port, step)?;
        check_new(alloc, &stations, &station, place.as_str())?;
        push_name(
            alloc,
            names,
            place.as_str(),
            station.name.as_str(),
            station.number,
        )?;
        stations.push(station)?;
    }
    Ok(stations)
}

/// Refuses a number, a name or ports that another station has.
fn check_new(
    alloc: Global,
    stations: &[Station],
    station: &Station,
    place: &str,
) -> Result<(), NetworkFault> {
    for other in stations {
        if other.number == station.number {
            return Err(fault_of_key(alloc, place, "number", "another station has it"));
        }
        if other.name.as_str() == station.name.as_str() {
            return Err(fault_of_key(alloc, place, "name", "another station has it"));
        }
        if other.listen.as_str() == station.listen.as_str()
            && other.port.abs_diff(station.port) < PORTS
        {
            let text =
                "its ports overlap those of another station on this host; write step = 128 or more, or another port";
            return Err(fault_of_key(alloc, place, "port", text));
        }
    }
    Ok(())
}

/// The device of stations that say nothing of their own.
fn default_device(alloc: Global, document: &Table) -> Result<Device, NetworkFault> {
    let device = Device {
        params: Params::DEFAULT,
        segments: None,
        length: None,
        keep_all: false,
    };
    match document.get("device") {
        Some(value) => {
            let table = table_of(alloc, value, "device")?;
            check_keys(alloc, table, "device", &DEVICE_KEYS)?;
            read_device(alloc, table, "device", device)
        }
        None => Ok(device),
    }
}

fn read_station(
    alloc: Global,
    value: &Value,
    place: &str,
    device: Device,
    port: u64,
    step: u64,
) -> Result<Station, NetworkFault> {
    let table = table_of(alloc, value, place)?;
    check_keys(alloc, table, place, &KEYS)?;
    let number = number_in(alloc, table, place)?;
    let Some(name) = name_at(alloc, table, place, "name")? else {
        return Err(fault_of_key(alloc, place, "name", "missing; write a name"));
    };
    let Some(address) = text_at(alloc, table, place, "address")? else {
        let text = "missing; write an address or a name";
        return Err(fault_of_key(alloc, place, "address", text));
    };
    let listen = match text_at(alloc, table, place, "listen")? {
        Some(listen) => listen,
        None => address.clone()?,
    };
    Ok(Station {
        number,
        name,
        address,
        listen,
        port: read_base(alloc, table, place, port, step, number)?,
        device: read_device(alloc, table, place, device)?,
    })
}

/// The port before those of a station: its own, or the network's, and its step for each number.
fn read_base(
    alloc: Global,
    table: &Table,
    place: &str,
    port: u64,
    step: u64,
    number: u16,
) -> Result<u16, NetworkFault> {
    let base = match number_at(alloc, table, place, "port", 0, 65_407)? {
        Some(base) => base,
        None => port.saturating_add(step.saturating_mul(u64::from(number))),
    };
    match u16::try_from(base) {
        Ok(base) if base <= 65_407 => Ok(base),
        _ => Err(fault_of_key(
            alloc,
            place,
            "port",
            "the ports counted up for it end above 65535; write one, 0 to 65407",
        )),
    }
}

/// A device with the options that a table gives.
fn read_device(
    alloc: Global,
    table: &Table,
    place: &str,
    device: Device,
) -> Result<Device, NetworkFault> {
    let params = read_params(alloc, table, place, device.params)?;
    let segments = number_at(alloc, table, place, "segments", 2, limits::MAX_SEGMENTS)?;
    let length = number_at(alloc, table, place, "length", 1, 2_147_483_647)?;
    let keep_all = flag_at(alloc, table, place, "keep_all")?.unwrap_or(device.keep_all);
    if params.check().is_err() {
        return Err(fault_of_key(alloc, place, "target", "it is at most the interval"));
    }
    Ok(Device {
        params,
        segments: segments.or(device.segments),
        length: length.or(device.length),
        keep_all,
    })
}

fn read_params(
    alloc: Global,
    table: &Table,
    place: &str,
    params: Params,
) -> Result<Params, NetworkFault> {
    let hops = number_at(alloc, table, place, "hops", 1, limits::MAX_HOPS)?;
    let peers = number_at(alloc, table, place, "peers", 1, limits::MAX_PEERS)?;
    let window = number_at(alloc, table, place, "window", 1, limits::MAX_WINDOW)?;
    let items = number_at(alloc, table, place, "items", 1, limits::MAX_ITEMS)?;
    let bytes = number_at(alloc, table, place, "bytes", 1, limits::MAX_BYTES)?;
    let maxpacket = number_at(alloc, table, place, "maxpacket", 0, limits::MAX_MAXPACKET)?;
    let target = number_at(alloc, table, place, "target", 1, limits::MAX_INTERVAL)?;
    let interval = number_at(alloc, table, place, "interval", 1, limits::MAX_INTERVAL)?;
    let payload = number_at(alloc, table, place, "payload", 1, limits::MAX_PAYLOAD)?;
    Ok(Params {
        hops: hops.unwrap_or(params.hops),
        peers: peers.unwrap_or(params.peers),
        window: window.unwrap_or(params.window),
        items: items.unwrap_or(params.items),
        bytes: bytes.unwrap_or(params.bytes),
        maxpacket: maxpacket.unwrap_or(params.maxpacket),
        target: target.unwrap_or(params.target),
        interval: interval.unwrap_or(params.interval),
        payload: payload.unwrap_or(params.payload),
    })
}

/// The station of a number.
pub(crate) fn find(stations: &[Station], number: u16) -> Option<&Station> {
    for station in stations {
        if station.number == number {
            return Some(station);
        }
    }
    None
}

/// The number of a station of a network file.
#[derive(Drop)]
pub struct StationNumber(pub u16);

impl Model for StationNumber {
    ghost use Rattle.std.specs.Prelude.{ℕ};

    ghost Value = { ℕ };

    ghost view = { λ station. station.0 };
}

impl Item for StationNumber {
    ghost use Rattle.rly_network_file.specs.NetworkText.{number_of};

    ghost shape = { number_of };

    fn read(alloc: Global, value: &Value, place: &str) -> Result<StationNumber, NetworkFault> {
        match value.as_table() {
            Some(table) => Ok(StationNumber(number_in(alloc, table, place)?)),
            None => Err(fault_at(alloc, place, "write a table")),
        }
    }
}

/// The numbers of the stations, at least one, in the file's order.
pub(crate) fn numbers_in(
    alloc: Global,
    document: &Table,
) -> Result<Vec<StationNumber>, NetworkFault>
    ensures are { IfOk result (λ numbers. numbers_in (table_view document.now) ≡ Some numbers.items) }
    ensures some { IfOk result (λ numbers. numbers.items ≢ []) }
{
    let numbers: Vec<StationNumber> = items_at(alloc, document, "station", "station")?;
    if numbers.is_empty() {
        return Err(fault_at(alloc, "station", "write a station"));
    }
    Ok(numbers)
}
