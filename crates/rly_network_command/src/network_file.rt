//! A network file, and the file of its ids.

ghost use Rattle.std.specs.Prelude.{◌≡◌, ◌∷◌, [], IfOk, IfSome, List, Some, option_map, string_bytes, true, unwrap_or, ℕ};
ghost use Rattle.std.specs.List.{list_all};
ghost use Rattle.toml.specs.Parse.{parse_document};
ghost use Rattle.rly_network_command.specs.NetworkFiles.{AreStations, IsIdsPath, IsStem, WereIds};
ghost use Rattle.rly_network_file.specs.NetworkText.{HasStations, is_network};
ghost use Rattle.rly_network_folder.specs.ShelfCalls.{AllCalls, Calls, Looked, OnlyLooked, ShelfCall, is_look};

use crate::network_command_fault::NetworkCommandFault;
use crate::station_wishes::push;
use rly_network_file::{
    NetworkFault, NetworkFile, NetworkIds, PassFile, StationFiles, assign, is_network, pass_files,
    write,
};
use rly_network_folder::{Shelf, ShelfFault};
use std::alloc::{AllocError, Global};
use std::io;

/// The system's error of a file that isn't there.
const NOT_THERE: i32 = 2;

/// The network of a file. `Err` if the file isn't there, isn't UTF-8, or is no network.
pub(crate) fn network_in<S: Shelf>(
    alloc: Global,
    shelf: &mut S,
    path: &str,
) -> Result<NetworkFile, NetworkCommandFault>
    ensures called { IfOk result (λ network. (text : List ℕ) × (passes : List ShelfCall)
        × HasStations text network.numbers.items × (list_all is_look passes ≡ true)
        × AllCalls (S.calls shelf.old) (S.calls shelf.new) (Looked path.now (Some text) ∷ passes)) }
    ensures looked { OnlyLooked (S.calls shelf.old) (S.calls shelf.new) }
{
    let Some(text) = text_in(alloc, shelf, path)? else {
        return Err(NetworkCommandFault::File(ShelfFault {
            path: String::from_str(alloc, path)?,
            word: io::Error::from_raw_os_error(NOT_THERE),
        }));
    };
    let passes = passes_in(alloc, shelf, path, text.as_str())?;
    let network = NetworkFile::from_toml(alloc, text.as_str(), &passes)?;
    Ok(network)
}

/// The files of passes that the text of a network file names, with their texts.
pub(crate) fn passes_in<S: Shelf>(
    alloc: Global,
    shelf: &mut S,
    file: &str,
    text: &str,
) -> Result<Vec<PassFile>, NetworkCommandFault>
    ensures { OnlyLooked (S.calls shelf.old) (S.calls shelf.new) }
{
    let named = pass_files(alloc, text)?;
    let mut passes = Vec::new(alloc);
    for pass in &named {
        let read = read_pass(alloc, shelf, file, pass)?;
        push(&mut passes, read)?;
    }
    Ok(passes)
}

fn read_pass<S: Shelf>(
    alloc: Global,
    shelf: &mut S,
    file: &str,
    pass: &PassFile,
) -> Result<PassFile, NetworkCommandFault>
    ensures { OnlyLooked (S.calls shelf.old) (S.calls shelf.new) }
{
    let path = path_beside(alloc, file, pass.path.as_str())?;
    let text = text_in(alloc, shelf, path.as_str())?;
    Ok(PassFile {
        place: pass.place.clone()?,
        path: pass.path.clone()?,
        text,
    })
}

/// A path, from the folder of a file.
fn path_beside(alloc: Global, file: &str, path: &str) -> Result<String, AllocError> {
    match file.rsplit_once('/') {
        Some((folder, _name)) if !path.starts_with('/') => format!(in alloc; "{folder}/{path}"),
        _ => String::from_str(alloc, path),
    }
}

/// The text of a network file: `None` if the file is another, or can't be read.
pub(crate) fn network_text<S: Shelf>(alloc: Global, shelf: &mut S, path: &str) -> Option<String>
    ensures called { IfSome result (λ text. Calls (S.calls shelf.old) (S.calls shelf.new) (Looked path.now (Some (string_bytes text)))) }
    ensures network { IfSome result (λ text. is_network (parse_document (string_bytes text)) ≡ true) }
    ensures looked { OnlyLooked (S.calls shelf.old) (S.calls shelf.new) }
{
    match text_in(alloc, shelf, path) {
        Ok(Some(text)) => network_or_none(alloc, text),
        Ok(None) => None,
        Err(_) => None,
    }
}

/// A text, if it is a network file.
fn network_or_none(alloc: Global, text: String) -> Option<String>
    ensures { IfSome result (λ found. (found ≡ text) × (is_network (parse_document (string_bytes found)) ≡ true)) }
{
    if is_network(alloc, text.as_str()) {
        Some(text)
    } else {
        None
    }
}

/// The text of a file, if it is there.
pub(crate) fn text_in<S: Shelf>(
    alloc: Global,
    shelf: &mut S,
    path: &str,
) -> Result<Option<String>, NetworkCommandFault>
    ensures called { IfOk result (λ text.
        Calls (S.calls shelf.old) (S.calls shelf.new) (Looked path.now (option_map string_bytes text))) }
    ensures looked { OnlyLooked (S.calls shelf.old) (S.calls shelf.new) }
{
    let Some(bytes) = shelf.look(path)? else {
        return Ok(None);
    };
    match String::from_utf8(bytes) {
        Ok(text) => Ok(Some(text)),
        Err(_) => Err(NetworkCommandFault::NotText(String::from_str(alloc, path)?)),
    }
}

/// The text of the ids of a network, and the files of its stations, whose plans agree: by the ids that were there before, if any were.
pub(crate) fn station_files(
    alloc: Global,
    network: &NetworkFile,
    before: &Option<String>,
) -> Result<(String, Vec<StationFiles>), NetworkFault>
    ensures { IfOk result (λ files. (text : List ℕ) → HasStations text network.now.numbers.items
        → AreStations text (option_map string_bytes before.now) (string_bytes files.0) files.1.items) }
{
    let before = ids_before(alloc, before)?;
    let (ids, text) = assign(alloc, network, before.as_ref())?;
    let stations = write(alloc, network, &ids)?;
    Ok((text, stations))
}

/// The ids of a text, if it is there.
fn ids_before(alloc: Global, text: &Option<String>) -> Result<Option<NetworkIds>, NetworkFault>
    ensures { IfOk result (λ ids. WereIds (option_map string_bytes text.now) (unwrap_or ids [])) }
{
    match text {
        Some(text) => {
            let ids = NetworkIds::from_text(alloc, text.as_str())?;
            Ok(Some(ids))
        }
        None => Ok(None),
    }
}

/// The path of the ids of a network file: `.ids` in the place of `.toml`.
pub(crate) fn ids_path(alloc: Global, path: &str) -> Result<String, AllocError>
    ensures { IfOk result (λ ids. IsIdsPath path.now (string_bytes ids)) }
{
    let name = stem_of(path);
    format!(in alloc; "{name}.ids")
}

fn stem_of(path: &str) -> &str
    ensures { IsStem path.now result.now }
{
    match path.strip_suffix(".toml") {
        Some(stem) => stem,
        None => path,
    }
}
