//! The files that the stations of a network are to have.

ghost use Rattle.std.specs.Prelude.{◌≡◌, ◌++◌, ◌∷◌, [], IfOk, OnOk, map, string_bytes};
ghost use Rattle.rly_network_command.specs.NetworkFiles.{TextAt, key_paths, key_wish, names_key, path_of, wish, wishes};

use rly_network_file::StationFiles;
use rly_network_folder::Wanted;
use std::alloc::{AllocError, Global};

/// The wanted files of each station.
pub(crate) fn wanted_files(
    alloc: Global,
    folder: &str,
    stations: &[StationFiles],
) -> Result<Vec<Vec<Wanted>>, AllocError>
    ensures { IfOk result (λ wanted. map (λ w. map wish w.items) wanted.items
        ≡ map (wishes folder.now stations.now) stations.now) }
{
    let mut all = Vec::new(alloc);
    for station in stations {
        let wanted = wanted_of(alloc, folder, stations, station)?;
        push(&mut all, wanted)?;
    }
    Ok(all)
}

/// The wanted files of a station.
fn wanted_of(
    alloc: Global,
    folder: &str,
    stations: &[StationFiles],
    station: &StationFiles,
) -> Result<Vec<Wanted>, AllocError>
    ensures { IfOk result (λ wanted. map wish wanted.items ≡ wishes folder.now stations.now station.now) }
{
    let mut wanted = Vec::new(alloc);
    let format = format!(in alloc; "rly format device.rly {}", station.format.as_str())?;
    let plan = path_in(alloc, folder, station, "plan.toml")?;
    push_text(alloc, &mut wanted, plan, station.plan.as_str())?;
    let command = path_in(alloc, folder, station, "format")?;
    push_text(alloc, &mut wanted, command, format.as_str())?;
    let unit = path_in(alloc, folder, station, "unit.conf")?;
    push_text(alloc, &mut wanted, unit, station.unit.as_str())?;
    push_keys(alloc, &mut wanted, folder, stations, station)?;
    Ok(wanted)
}

/// The path of a file in a station's folder.
pub(crate) fn path_in(
    alloc: Global,
    folder: &str,
    station: &StationFiles,
    file: &str,
) -> Result<String, AllocError>
    ensures { IfOk result (λ path. string_bytes path ≡ path_of folder.now station.now file.now) }
{
    let name = station.name.as_str();
    format!(in alloc; "{folder}/{name}/{file}")
}

/// Appends a text.
pub(crate) fn push_text(
    alloc: Global,
    wanted: &mut Vec<Wanted>,
    path: String,
    text: &str,
) -> Result<(), AllocError>
    ensures { OnOk result
        (map wish wanted.new.items ≡ map wish wanted.old.items ++ TextAt (string_bytes path) text.now ∷ []) }
{
    let text = String::from_str(alloc, text)?;
    push(wanted, Wanted::Text { path, text })
}

/// Appends an item.
pub(crate) fn push<T: Drop>(items: &mut Vec<T>, item: T) -> Result<(), AllocError>
    ensures { OnOk result (items.new.items ≡ items.old.items ++ item ∷ []) }
{
    match items.push(item) {
        Ok(()) => Ok(()),
        Err(refused) => Err(refused.into()),
    }
}

/// Appends the keys of a station.
fn push_keys(
    alloc: Global,
    wanted: &mut Vec<Wanted>,
    folder: &str,
    stations: &[StationFiles],
    station: &StationFiles,
) -> Result<(), AllocError>
    ensures { OnOk result (map wish wanted.new.items ≡ map wish wanted.old.items
        ++ map (λ k. key_wish folder.now stations.now station.now (string_bytes k)) station.now.keys.items) }
{
    for key in &station.keys {
        push_key(alloc, wanted, folder, stations, station, key.as_str())?;
    }
    Ok(())
}

fn push_key(
    alloc: Global,
    wanted: &mut Vec<Wanted>,
    folder: &str,
    stations: &[StationFiles],
    station: &StationFiles,
    key: &str,
) -> Result<(), AllocError>
    ensures { OnOk result (map wish wanted.new.items
        ≡ map wish wanted.old.items ++ key_wish folder.now stations.now station.now key.now ∷ []) }
{
    let path = path_in(alloc, folder, station, key)?;
    let others = key_paths(alloc, folder, stations, key)?;
    push(wanted, Wanted::Key { path, others })?;
    Ok(())
}

/// The paths of a key in the folders of the stations that name it.
fn key_paths(
    alloc: Global,
    folder: &str,
    stations: &[StationFiles],
    key: &str,
) -> Result<Vec<String>, AllocError>
    ensures { IfOk result (λ paths. map string_bytes paths.items ≡ key_paths folder.now stations.now key.now) }
{
    let mut paths = Vec::new(alloc);
    for station in stations {
        push_path(alloc, &mut paths, folder, station, key)?;
    }
    Ok(paths)
}

/// Appends the path of a key in a station's folder, if the station names it.
fn push_path(
    alloc: Global,
    paths: &mut Vec<String>,
    folder: &str,
    station: &StationFiles,
    key: &str,
) -> Result<(), AllocError>
    ensures { OnOk result (map string_bytes paths.new.items
        ≡ map string_bytes paths.old.items ++ key_paths folder.now (station.now ∷ []) key.now) }
{
    let is_named = names_key(station, key);
    if is_named {
        let path = path_in(alloc, folder, station, key)?;
        push(paths, path)?;
    }
    Ok(())
}

/// Whether a station names a key.
fn names_key(station: &StationFiles, key: &str) -> bool
    ensures { result ≡ names_key key.now station.now }
{
    for one in &station.keys {
        if one.as_str() == key {
            return true;
        }
    }
    false
}
