//! `rly network check`: prints what plans disagree on.

ghost use Rattle.std.specs.Prelude.{◌≡◌, ◌∷◌, [], ℕ, IfErr, IfOk, IfSome, List, None, OnOk, Some, length, map, option_map, string_bytes, true};
ghost use Rattle.std.specs.Io.KnownBytes.{Appends};
ghost use Rattle.toml.specs.Parse.{parse_document};
ghost use Rattle.rly_network_command.specs.NetworkCheck.{HasChecked, HasCheckedNetwork, HasCheckedPlans, HasCheckedText, IsQuiet};
ghost use Rattle.rly_network_command.specs.NetworkFiles.{AreStations};
ghost use Rattle.rly_network_file.specs.NetworkText.{is_network};
ghost use Rattle.rly_network_file.specs.declared.station_files.StationFiles.{StationFiles as AFiles};
ghost use Rattle.rly_network_folder.specs.ShelfCalls.{AllCalls, Calls, Looked, OnlyLooked, ShelfCall};

use crate::network_command_fault::NetworkCommandFault;
use crate::network_file::{ids_path, network_text, passes_in, station_files, text_in};
use crate::plan_reads::{devices_of, read_stations};
use rly_core::Params;
use rly_daemon_lines::TextFault;
use rly_network::{check, lines_of};
use rly_network_file::{NetworkFault, NetworkFile, PassFile};
use rly_network_folder::{FileShelf, Shelf};
use std::alloc::{AllocError, Global};
use std::fs::{File, Files};
use std::io::Write;

/// Prints what the plans of a network disagree on, a line for each, and returns whether there is nothing. Each name is `PLAN`
/// or `PLAN=DEVICE`, or the only one is a network file. Without a device the payload is the default, and the plan has no more
/// hops and peers than its device. If a file can't be read or is refused, nothing is printed.
pub fn run_network_check<H: AllocGlobal + Files<File = File>, W: Write>(
    rt: &H,
    names: &[&str],
    writer: &mut W,
) -> Result<bool, NetworkCommandFault>
    ensures checked { IfOk result (λ agree.
        HasCheckedNetwork (map (λ s. s.now) names.now) agree (W.contents writer.old) (W.contents writer.new)) }
    ensures quiet { IfErr result (λ fault. IsQuiet fault (W.contents writer.old) (W.contents writer.new)) }
{
    let devices = devices_of(rt, names)?;
    let mut shelf = FileShelf::new(rt.alloc(), rt);
    let agree = check_network(rt.alloc(), &mut shelf, names, &devices, writer)?;
    Ok(agree)
}

/// The same for files that lie on a shelf, and the parameters of the device that belongs to each name.
pub fn check_network<S: Shelf, W: Write>(
    alloc: Global,
    shelf: &mut S,
    names: &[&str],
    devices: &[Params],
    writer: &mut W,
) -> Result<bool, NetworkCommandFault>
    requires { length devices.now ≡ length names.now }
    ensures checked { IfOk result (λ agree. (calls : List ShelfCall)
        × HasChecked (map (λ s. s.now) names.now) devices.now agree (W.contents writer.old) (W.contents writer.new) calls
        × AllCalls (S.calls shelf.old) (S.calls shelf.new) calls) }
    ensures looked { OnlyLooked (S.calls shelf.old) (S.calls shelf.new) }
    ensures quiet { IfErr result (λ fault. IsQuiet fault (W.contents writer.old) (W.contents writer.new)) }
{
    let Some((name, text)) = sole_network(alloc, shelf, names) else {
        let agree = check_plans(alloc, shelf, names, devices, writer)?;
        return Ok(agree);
    };
    let agree = check_file(alloc, shelf, name, text.as_str(), writer)?;
    Ok(agree)
}

/// The only name and its text, if that is a network file.
fn sole_network<'a, S: Shelf>(
    alloc: Global,
    shelf: &mut S,
    names: &[&'a str],
) -> Option<(&'a str, String)>
    ensures alone { IfSome result (λ it. map (λ s. s.now) names.now ≡ it.0.now ∷ []) }
    ensures called { IfSome result
        (λ it. Calls (S.calls shelf.old) (S.calls shelf.new) (Looked it.0.now (Some (string_bytes it.1)))) }
    ensures network { IfSome result (λ it. is_network (parse_document (string_bytes it.1)) ≡ true) }
    ensures looked { OnlyLooked (S.calls shelf.old) (S.calls shelf.new) }
{
    match names {
        [name] => {
            let text = network_text(alloc, shelf, name)?;
            Some((*name, text))
        }
        _ => None,
    }
}

/// Prints what is found in a network file, and returns whether there is nothing.
fn check_file<S: Shelf, W: Write>(
    alloc: Global,
    shelf: &mut S,
    name: &str,
    text: &str,
    writer: &mut W,
) -> Result<bool, NetworkCommandFault>
    ensures checked { IfOk result (λ agree. (calls : List ShelfCall)
        × HasCheckedText name.now text.now agree (W.contents writer.old) (W.contents writer.new) calls
        × AllCalls (S.calls shelf.old) (S.calls shelf.new) calls) }
    ensures looked { OnlyLooked (S.calls shelf.old) (S.calls shelf.new) }
    ensures quiet { IfErr result (λ fault. IsQuiet fault (W.contents writer.old) (W.contents writer.new)) }
{
    let ids = ids_path(alloc, name)?;
    let passes = passes_in(alloc, shelf, name, text)?;
    let before = text_in(alloc, shelf, ids.as_str())?;
    if let Some(lines) = found_in(alloc, text, &passes, &before)? {
        put(writer, lines.as_str())?;
        return Ok(false);
    }
    put(writer, "")?;
    Ok(true)
}

/// What is found in a network's text: the lines, if there are any.
fn found_in(
    alloc: Global,
    text: &str,
    passes: &[PassFile],
    before: &Option<String>,
) -> Result<Option<String>, AllocError>
    ensures { IfOk result (λ found. found ≡ None → (ids_text : List ℕ) × (stations : List AFiles)
        × AreStations text.now (option_map string_bytes before.now) ids_text stations) }
{
    match files_of(alloc, text, passes, before) {
        Ok(()) => Ok(None),
        Err(NetworkFault::Found(lines)) => Ok(Some(lines)),
        Err(NetworkFault::Memory) => Err(AllocError),
    }
}

/// The files of its stations can be written.
fn files_of(
    alloc: Global,
    text: &str,
    passes: &[PassFile],
    before: &Option<String>,
) -> Result<(), NetworkFault>
    ensures { OnOk result ((ids_text : List ℕ) × (stations : List AFiles)
        × AreStations text.now (option_map string_bytes before.now) ids_text stations) }
{
    let network = NetworkFile::from_toml(alloc, text, passes)?;
    station_files(alloc, &network, before)?;
    Ok(())
}

/// Prints what plans disagree on, and returns whether there is nothing.
fn check_plans<S: Shelf, W: Write>(
    alloc: Global,
    shelf: &mut S,
    names: &[&str],
    devices: &[Params],
    writer: &mut W,
) -> Result<bool, NetworkCommandFault>
    requires { length devices.now ≡ length names.now }
    ensures checked { IfOk result (λ agree. (calls : List ShelfCall)
        × HasCheckedPlans (map (λ s. s.now) names.now) devices.now agree (W.contents writer.old) (W.contents writer.new) calls
        × AllCalls (S.calls shelf.old) (S.calls shelf.new) calls) }
    ensures looked { OnlyLooked (S.calls shelf.old) (S.calls shelf.new) }
    ensures quiet { IfErr result (λ fault. IsQuiet fault (W.contents writer.old) (W.contents writer.new)) }
{
    let stations = read_stations(alloc, shelf, names, devices)?;
    let found = check(alloc, &stations)?;
    let lines = lines_of(alloc, &found)?;
    put(writer, lines.as_str())?;
    Ok(found.is_empty())
}

/// Writes a text, and all of it before it returns.
pub(crate) fn put<W: Write>(writer: &mut W, text: &str) -> Result<(), TextFault>
    ensures { OnOk result (Appends (W.contents writer.old) (W.contents writer.new) text.now) }
{
    writer
        .write_all(text.as_bytes())
        .map_err(|_| TextFault::Output)?;
    writer.flush().map_err(|_| TextFault::Output)
}
