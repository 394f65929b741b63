//! `rly network write` and `rly network draw`.

ghost use Rattle.std.specs.Prelude.{◌≡◌, ◌++◌, ◌∷◌, [], Bool, IfErr, IfOk, List, OnErr, OnOk, false, map, option_map, string_bytes};
ghost use Rattle.std.specs.Io.KnownBytes.{Appends};
ghost use Rattle.rly_network_command.specs.NetworkFiles.{TextAt, wish};
ghost use Rattle.rly_network_command.specs.NetworkWrite.{AreWished, HasDrawn, HasDrawnNetwork, HasWritten, HasWrittenNetwork, IsNetworkRead};
ghost use Rattle.rly_network_command.specs.NetworkWrite.{IsTold, changed_line, changed_lines, plan_look, plan_looks};
ghost use Rattle.rly_network_folder.specs.ShelfCalls.{AllCalls, OnlyLooked, ShelfCall};
ghost use Rattle.rly_network_folder.specs.Wanted.{AreAllPut, AreSomePut, AreStationsPut, all_wanted};

use crate::network_check::put;
use crate::network_command_fault::NetworkCommandFault;
use crate::network_file::{ids_path, network_in, station_files, text_in};
use crate::station_wishes::{path_in, push_text, wanted_files};
use rly_network_file::{StationFiles, draw};
use rly_network_folder::{FileShelf, PutFault, Shelf, Wanted, put_all, put_stations};
use std::alloc::{AllocError, Global};
use std::fs::{File, Files};
use std::io::Write;
use std::random::RandomSource;

/// Writes the plan of each station of a network, its `rly format` command, the settings of its unit and the keys that are
/// missing to a folder of its own, and the ids beside the network file; with `changed` prints the names of the stations that
/// got something new.
pub fn run_network_write<H: AllocGlobal + Files<File = File> + RandomSource, W: Write>(
    rt: &H,
    file: &str,
    folder: &str,
    changed: bool,
    writer: &mut W,
) -> Result<(), NetworkCommandFault>
    ensures { OnOk result (HasWrittenNetwork file.now folder.now changed (W.contents writer.old) (W.contents writer.new)) }
{
    let mut shelf = FileShelf::new(rt.alloc(), rt);
    let written = write_network(rt.alloc(), &mut shelf, rt, file, folder)?;
    if changed {
        print_changed(rt.alloc(), &written.0, &written.1, writer)?;
        return Ok(());
    }
    Ok(())
}

/// Prints the names of the stations that got something new, a line for each.
fn print_changed<W: Write>(
    alloc: Global,
    stations: &[StationFiles],
    new: &[bool],
    writer: &mut W,
) -> Result<(), NetworkCommandFault>
    ensures { OnOk result
        (Appends (W.contents writer.old) (W.contents writer.new) (changed_lines stations.now new.now)) }
{
    let names = changed_names(alloc, stations, new)?;
    put(writer, names.as_str())?;
    Ok(())
}

/// The same for files that lie on a shelf. Returns the files of each station, and whether one of them is new. Nothing is
/// written if something is found in the network, or if the ids aren't there and a plan is.
pub fn write_network<S: Shelf, R: RandomSource>(
    alloc: Global,
    shelf: &mut S,
    source: &R,
    file: &str,
    folder: &str,
) -> Result<(Vec<StationFiles>, Vec<bool>), NetworkCommandFault>
    ensures written { IfOk result (λ it. (calls : List ShelfCall)
        × HasWritten file.now folder.now it.0.items it.1.items calls
        × AllCalls (S.calls shelf.old) (S.calls shelf.new) calls) }
    ensures told { IfErr result (λ fault. IsTold file.now folder.now fault (S.calls shelf.old) (S.calls shelf.new)) }
{
    let wishes = read_wishes(alloc, shelf, file, folder)?;
    let new = put_wishes(alloc, shelf, source, &wishes)?;
    Ok((wishes.stations, new))
}

/// What the stations of a network are to have.
#[derive(Drop)]
struct Wishes {
    stations: Vec<StationFiles>,
    /// The text of the ids.
    ids: Vec<Wanted>,
    /// The files of each station.
    wanted: Vec<Vec<Wanted>>,
}

/// Reads what the stations of a network file are to have. It only looks for files.
fn read_wishes<S: Shelf>(
    alloc: Global,
    shelf: &mut S,
    file: &str,
    folder: &str,
) -> Result<Wishes, NetworkCommandFault>
    ensures wished { IfOk result (λ it. (calls : List ShelfCall)
        × AreWished file.now folder.now it.stations.items (map wish it.ids.items) (map (λ w. map wish w.items) it.wanted.items) calls
        × AllCalls (S.calls shelf.old) (S.calls shelf.new) calls) }
    ensures looked { OnlyLooked (S.calls shelf.old) (S.calls shelf.new) }
{
    let (path, text, stations) = read_network(alloc, shelf, file, folder)?;
    let wanted_ids = ids_wanted(alloc, path, text.as_str())?;
    let wanted = wanted_files(alloc, folder, &stations)?;
    Ok(Wishes {
        stations,
        ids: wanted_ids,
        wanted,
    })
}

/// The text of the ids, as a wanted file.
fn ids_wanted(alloc: Global, path: String, text: &str) -> Result<Vec<Wanted>, AllocError>
    ensures { IfOk result (λ wanted. map wish wanted.items ≡ TextAt (string_bytes path) text.now ∷ []) }
{
    let mut wanted = Vec::new(alloc);
    push_text(alloc, &mut wanted, path, text)?;
    Ok(wanted)
}

/// The path of the ids of a network file, their text, and the files of its stations.
fn read_network<S: Shelf>(
    alloc: Global,
    shelf: &mut S,
    file: &str,
    folder: &str,
) -> Result<(String, String, Vec<StationFiles>), NetworkCommandFault>
    ensures read { IfOk result (λ it. (calls : List ShelfCall)
        × IsNetworkRead file.now folder.now (string_bytes it.0) (string_bytes it.1) it.2.items calls
        × AllCalls (S.calls shelf.old) (S.calls shelf.new) calls) }
    ensures looked { OnlyLooked (S.calls shelf.old) (S.calls shelf.new) }
{
    let path = ids_path(alloc, file)?;
    let network = network_in(alloc, shelf, file)?;
    let before = text_in(alloc, shelf, path.as_str())?;
    let (ids, stations) = station_files(alloc, &network, &before)?;
    refuse_lost_ids(alloc, shelf, folder, &stations, &before, path.as_str())?;
    Ok((path, ids, stations))
}

/// `Err` if a plan is there and the ids, which aren't there, were lost: another network's ids would change their meaning.
fn refuse_lost_ids<S: Shelf>(
    alloc: Global,
    shelf: &mut S,
    folder: &str,
    stations: &[StationFiles],
    before: &Option<String>,
    path: &str,
) -> Result<(), NetworkCommandFault>
    ensures none { OnOk result (AllCalls (S.calls shelf.old) (S.calls shelf.new)
        (plan_looks (option_map string_bytes before.now) folder.now stations.now)) }
    ensures looked { OnlyLooked (S.calls shelf.old) (S.calls shelf.new) }
{
    if let Some(_ids) = before {
        return Ok(());
    }
    let found = has_plan(alloc, shelf, folder, stations)?;
    if found {
        return Err(NetworkCommandFault::NoIds(String::from_str(alloc, path)?));
    }
    Ok(())
}

/// Whether a plan of one of the stations is in the folder.
fn has_plan<S: Shelf>(
    alloc: Global,
    shelf: &mut S,
    folder: &str,
    stations: &[StationFiles],
) -> Result<bool, NetworkCommandFault>
    ensures none { IfOk result (λ found. found ≡ false
        → AllCalls (S.calls shelf.old) (S.calls shelf.new) (map (plan_look folder.now) stations.now)) }
    ensures looked { OnlyLooked (S.calls shelf.old) (S.calls shelf.new) }
{
    for station in stations {
        let path = path_in(alloc, folder, station, "plan.toml")?;
        let found = shelf.look(path.as_str())?;
        if let Some(_there) = found {
            return Ok(true);
        }
    }
    Ok(false)
}

/// Puts the ids, and then the files of each station; returns of each whether one of them is new.
fn put_wishes<S: Shelf, R: RandomSource>(
    alloc: Global,
    shelf: &mut S,
    source: &R,
    wishes: &Wishes,
) -> Result<Vec<bool>, PutFault>
    ensures put { IfOk result (λ new. (ids_new : Bool) × (ids_calls own_calls : List ShelfCall)
        × AreAllPut wishes.now.ids.items ids_new ids_calls × AreStationsPut wishes.now.wanted.items new.items own_calls
        × AllCalls (S.calls shelf.old) (S.calls shelf.new) (ids_calls ++ own_calls)) }
    ensures some { OnErr result ((calls : List ShelfCall)
        × AreSomePut (wishes.now.ids.items ++ all_wanted wishes.now.wanted.items) calls
        × AllCalls (S.calls shelf.old) (S.calls shelf.new) calls) }
{
    put_all(shelf, source, &wishes.ids)?;
    put_stations(alloc, shelf, source, &wishes.wanted)
}

/// The names of the stations that got something new.
fn changed_names(
    alloc: Global,
    stations: &[StationFiles],
    new: &[bool],
) -> Result<String, AllocError>
    ensures { IfOk result (λ names. string_bytes names ≡ changed_lines stations.now new.now) }
{
    let mut names = String::new(alloc);
    for index in 0..stations.len().min(new.len()) {
        push_changed(&mut names, &stations[index], new[index])?;
    }
    Ok(names)
}

fn push_changed(names: &mut String, station: &StationFiles, new: bool) -> Result<(), AllocError>
    ensures { OnOk result (string_bytes names.new ≡ string_bytes names.old ++ changed_line station.now new) }
{
    if !new {
        return Ok(());
    }
    names.push_str(station.name.as_str())?;
    names.push_str("\n")
}

/// Prints the picture of a network in DOT.
pub fn run_network_draw<H: AllocGlobal + Files<File = File>, W: Write>(
    rt: &H,
    file: &str,
    writer: &mut W,
) -> Result<(), NetworkCommandFault>
    ensures { OnOk result (HasDrawnNetwork file.now (W.contents writer.old) (W.contents writer.new)) }
{
    let mut shelf = FileShelf::new(rt.alloc(), rt);
    draw_network(rt.alloc(), &mut shelf, file, writer)
}

/// The same for files that lie on a shelf.
pub fn draw_network<S: Shelf, W: Write>(
    alloc: Global,
    shelf: &mut S,
    file: &str,
    writer: &mut W,
) -> Result<(), NetworkCommandFault>
    ensures { OnOk result ((calls : List ShelfCall)
        × HasDrawn file.now (W.contents writer.old) (W.contents writer.new) calls
        × AllCalls (S.calls shelf.old) (S.calls shelf.new) calls) }
{
    let network = network_in(alloc, shelf, file)?;
    let picture = draw(alloc, &network)?;
    put(writer, picture.as_str())?;
    Ok(())
}
