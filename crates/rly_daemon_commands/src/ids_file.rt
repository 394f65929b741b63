//! The file beside a device that keeps which station each id means, and the device of a plan whose ids are kept.

ghost use Rattle.std.specs.Prelude.{◌≡◌, IfOk, option_copied, option_map, string_bytes, true};
ghost use Rattle.rly_daemon_commands.specs.FileDisk.{file_state, is_locked};
ghost use Rattle.rly_daemon_commands.specs.IdsFile.{HasKeptIds};

use crate::command_fault::CommandFault;
use crate::file_disk::{FileDisk, folder_of};
use crate::ids_fault::{IdsFileFault, IdsWord, UnkeptIds};
use rly_plan::Plan;
use rly_plan_changes::{IdsFault, PlanIds, ids_to_keep};
use rly_segment::read_header;
use rly_station::{ErrorLines, ServeFault, SystemWord};
use std::alloc::{AllocError, Global};
use std::fs::{File, Files, OpenOptions};
use std::io::{ErrorKind, Write};
use std::{fs, io};

/// Opens the device in a file to serve a plan on it: locked, with its file looked after, and with the ids of the plan kept
/// beside it. A plan in which an id means another station than in the ids that are kept is refused, unless `renumber` allows
/// it. What is no device, and a device that has no room for the plan, keep no ids: both are refused later. Ids that can't be
/// written are logged on the lines, and the station serves: a full disk doesn't keep it from that.
pub fn open_served<H: AllocGlobal + Files<File = File>>(
    rt: &H,
    file: &str,
    plan: &Plan,
    renumber: bool,
    lines: &ErrorLines,
) -> Result<FileDisk, CommandFault>
    ensures calls { IfOk result (λ disk. (file_state disk).calls ≡ 0) }
    ensures lock { IfOk result (λ disk. is_locked disk ≡ true) }
{
    let disk = FileDisk::open(rt, file)?;
    if has_room(rt, file, plan) {
        keep_ids(rt, file, plan, renumber, lines)?;
    }
    match disk.with_watch(rt.alloc()) {
        Ok(disk) => Ok(disk),
        Err(refused) => Err(CommandFault::Serve(refused.into())),
    }
}

/// Whether a file is a device with room for the neighbours of a plan.
fn has_room<H: Files<File = File>>(files: &H, file: &str, plan: &Plan) -> bool {
    let Ok(mut disk) = FileDisk::open_copy(files, file) else {
        return false;
    };
    match read_header(&mut disk) {
        Ok(geometry) => {
            plan.peer_count() as u64 <= geometry.params.peers
                && plan.hop_count() as u64 <= geometry.params.hops
        }
        Err(_) => false,
    }
}

/// Keeps the ids of a plan beside the device in a file, durably, and returns the text that was kept before, if there was one.
fn keep_ids<H: AllocGlobal + Files<File = File>>(
    rt: &H,
    device: &str,
    plan: &Plan,
    renumber: bool,
    lines: &ErrorLines,
) -> Result<Option<String>, CommandFault>
    ensures agreed { IfOk result (λ kept. HasKeptIds (option_map (λ s. string_bytes s) kept) plan.now renumber) }
{
    let path = match format!(in rt.alloc(); "{device}.ids") {
        Ok(path) => path,
        Err(refused) => return Err(CommandFault::Serve(refused.into())),
    };
    let kept = match read_kept(rt, path.as_str()) {
        Ok(kept) => kept,
        Err(error) => return Err(fault_at(path, word_of(error))),
    };
    let ids = match ids_to_keep(rt.alloc(), text_of(&kept), plan, renumber) {
        Ok(ids) => ids,
        Err(IdsFault::Renumbered(other)) => {
            return Err(fault_at(path, IdsWord::Renumbered(other)));
        }
        Err(IdsFault::Broken) => return Err(fault_at(path, IdsWord::Broken)),
        Err(IdsFault::OutOfMemory) => return Err(CommandFault::Serve(AllocError.into())),
    };
    if let Err(error) = write_if_new(rt, path.as_str(), text_of(&kept), &ids) {
        let word = SystemWord(error);
        lines.say(&UnkeptIds { path, word });
    }
    Ok(kept)
}

fn text_of(kept: &Option<String>) -> Option<&str>
    ensures { option_copied result ≡ option_map (λ s. string_bytes s) kept.now }
{
    match kept {
        Some(text) => Some(text.as_str()),
        None => None,
    }
}

fn fault_at(path: String, word: IdsWord) -> CommandFault {
    CommandFault::Ids(IdsFileFault { path, word })
}

/// What is wrong with a file that can't be read or written. Bytes that aren't UTF-8 are no ids.
fn word_of(error: io::Error) -> IdsWord {
    match error.kind() {
        ErrorKind::InvalidData => IdsWord::Broken,
        _ => IdsWord::System(SystemWord(error)),
    }
}

/// The text in a file: `None` if there is no file.
fn read_kept<H: AllocGlobal + Files<File = File>>(
    rt: &H,
    path: &str,
) -> io::Result<Option<String>> {
    match fs::metadata(rt, path) {
        Ok(found) if !found.is_file() => {
            let special = io::Error::new(ErrorKind::InvalidInput, "not a regular file");
            return Err(special);
        }
        Ok(_) => {}
        Err(error) if error.kind() == ErrorKind::NotFound => return Ok(None),
        Err(error) => return Err(error),
    }
    Ok(Some(fs::read_to_string(rt, path)?))
}

/// Writes ids into a file, durably, unless their text is there.
fn write_if_new<H: AllocGlobal + Files<File = File>>(
    rt: &H,
    path: &str,
    kept: Option<&str>,
    ids: &PlanIds,
) -> io::Result<()> {
    let text = ids.text(rt.alloc())?;
    if kept == Some(text.as_str()) {
        return Ok(());
    }
    let hidden = hidden_path(rt.alloc(), path)?;
    let mut file = OpenOptions::new()
        .write(true)
        .create(true)
        .truncate(true)
        .open(rt, hidden.as_str())?;
    file.write_all(text.as_bytes())?;
    file.sync_all()?;
    fs::rename(rt, hidden.as_str(), path)?;
    File::open(rt, folder_of(path))?.sync_all()
}

/// A hidden name beside a path, under which its next content is written.
fn hidden_path(alloc: Global, path: &str) -> Result<String, AllocError> {
    match path.rsplit_once('/') {
        Some((folder, name)) => format!(in alloc; "{folder}/.{name}.new"),
        None => format!(in alloc; ".{path}.new"),
    }
}

/// Forgets the ids of a device that was formatted anew, on which nothing lives. A file that can't be removed makes the next
/// `rly serve` ask.
pub(crate) fn forget_ids<H: AllocGlobal + Files<File = File>>(rt: &H, device: &str) {
    if let Ok(path) = format!(in rt.alloc(); "{device}.ids") {
        let _removed = fs::remove_file(rt, path.as_str());
    }
}
