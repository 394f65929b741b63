//! What is written for a station.

ghost use Rattle.std.specs.Prelude.{◌≡◌, IfOk, map};

use crate::fault::{NetworkFault, fault_at};
use crate::ids::NetworkIds;
use crate::neighbours::{Side, count_in_use};
use crate::network_file::NetworkFile;
use crate::places::station_place;
use crate::plans::plan_text;
use crate::stations::{Device, Station, find};
use rly_core::Params;
use std::alloc::Global;

/// What is written for a station.
#[derive(Drop)]
pub struct StationFiles {
    /// Its number.
    pub number: u16,
    /// Its name, which no other station has.
    pub name: String,
    /// The text of its plan.
    pub plan: String,
    /// The options of `rly format` for its device: one line.
    pub format: String,
    /// Settings for its service: a drop-in of systemd.
    pub unit: String,
    /// The files of keys that the plan names, in the plan's folder. A name is that of one key in the whole network.
    pub keys: Vec<String>,
    /// The parameters of its device.
    pub device: Params,
}

/// The files of each station, in the network file's order.
pub(crate) fn files_of(
    alloc: Global,
    file: &NetworkFile,
    ids: &NetworkIds,
) -> Result<Vec<StationFiles>, NetworkFault>
    ensures { IfOk result (λ files. map (λ f. f.number) files.items ≡ file.now.numbers.items) }
{
    let mut files = Vec::new(alloc);
    for number in &file.numbers {
        files.push(station_files(alloc, file, ids, number.0)?)?;
    }
    Ok(files)
}

fn station_files(
    alloc: Global,
    file: &NetworkFile,
    ids: &NetworkIds,
    number: u16,
) -> Result<StationFiles, NetworkFault>
    ensures { IfOk result (λ files. files.number ≡ number) }
{
    let place = format!(in alloc; "{}", station_place(file, number))?;
    let (Some(station), Some(own)) = (find(&file.stations, number), ids.of(number)) else {
        return Err(fault_at(alloc, place.as_str(), "it has no ids; assign them anew"));
    };
    if count_in_use(file, Side::Peer, own) == 0 {
        let text = "nothing comes to it: no link leads here, and no folder has an `in`";
        return Err(fault_at(alloc, place.as_str(), text));
    }
    if count_in_use(file, Side::Hop, own) == 0 {
        let text = "nothing goes from it: no link leads on, and no folder has an `out`";
        return Err(fault_at(alloc, place.as_str(), text));
    }
    Ok(StationFiles {
        number,
        name: station.name.clone()?,
        plan: plan_text(alloc, file, ids, own, station)?,
        format: format_text(alloc, station.device)?,
        unit: unit_text(alloc, file, station)?,
        keys: keys_of(alloc, file, number)?,
        device: params_of(station.device),
    })
}

/// The parameters with which `rly format` makes a device.
fn params_of(device: Device) -> Params {
    if device.keep_all {
        Params {
            target: 3_600_000_000,
            interval: 3_600_000_000,
            maxpacket: 65_535,
            ..device.params
        }
    } else {
        device.params
    }
}

fn format_text(alloc: Global, device: Device) -> Result<String, NetworkFault> {
    let Params {
        hops,
        peers,
        window,
        items,
        bytes,
        maxpacket,
        target,
        interval,
        payload,
    } = device.params;
    let mut text = format!(in alloc;
        "--hops {hops} --peers {peers} --window {window} --items {items} --bytes {bytes}"
    )?;
    if device.keep_all {
        text.push_str(" --keep-all")?;
    } else {
        write!(
            &mut text,
            " --maxpacket {maxpacket} --target {target} --interval {interval}"
        )?;
    }
    write!(&mut text, " --payload {payload}")?;
    if let Some(segments) = device.segments {
        write!(&mut text, " --segments {segments}")?;
    }
    if let Some(length) = device.length {
        write!(&mut text, " --length {length}")?;
    }
    text.push_str("\n")?;
    Ok(text)
}

/// A name for the service, and the folders of applications that lie elsewhere.
fn unit_text(alloc: Global, file: &NetworkFile, station: &Station) -> Result<String, NetworkFault> {
    let (number, name) = (station.number, station.name.as_str());
    let mut text = format!(in alloc;
        "[Unit]\nDescription=Store-and-forward datagram relay, station {number} ({name})\n\n[Service]\n"
    )?;
    for folder in &file.folders {
        if folder.station == number {
            push_folder(&mut text, &folder.incoming)?;
            push_folder(&mut text, &folder.outgoing)?;
        }
    }
    Ok(text)
}

fn push_folder(text: &mut String, folder: &Option<String>) -> Result<(), NetworkFault> {
    match folder {
        Some(path) if path.as_str().as_bytes().starts_with(b"/") => {
            writeln!(text, "ReadWritePaths=\"-{path}\"")?;
            Ok(())
        }
        _ => Ok(()),
    }
}

/// The files of keys of a station, each once.
fn keys_of(alloc: Global, file: &NetworkFile, number: u16) -> Result<Vec<String>, NetworkFault> {
    let mut keys = Vec::new(alloc);
    for link in &file.links {
        if link.from == number || link.to == number {
            push_key(&mut keys, &link.key)?;
        }
    }
    Ok(keys)
}

fn push_key(keys: &mut Vec<String>, key: &Option<String>) -> Result<(), NetworkFault> {
    let Some(name) = key else {
        return Ok(());
    };
    for other in keys.iter() {
        if other.as_str() == name.as_str() {
            return Ok(());
        }
    }
    keys.push(name.clone()?)?;
    Ok(())
}
