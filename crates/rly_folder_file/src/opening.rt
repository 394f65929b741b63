// Makes a folder ready for use.
use crate::fault::{OpenFault, PlaceFault};
use crate::permission::sub_folder_mode;
use crate::place::{Place, SubFolder};
use crate::root::Root;
use std::fs::{File, Files};
use std::io;
use std::io::ErrorKind;
use std::os::unix::fs::{MetadataExt, PermissionsExt};

/// Makes the sub-folders that are missing, durably, and tries a hard link. It touches no file that another program
/// uses.
pub(crate) fn prepare<H: Files<File = File> + Drop>(root: &Root<H>) -> Result<(), OpenFault> {
    let mut is_made = false;
    for sub in &SubFolder::ALL {
        if prepare_sub_folder(root, *sub)? {
            is_made = true;
        }
    }
    if is_made {
        root.sync(Place::Folder)?;
    }
    try_link(root)
}

/// Makes a sub-folder if it is missing; returns whether it was. Refuses one to which no file can be moved.
fn prepare_sub_folder<H: Files<File = File> + Drop>(
    root: &Root<H>,
    sub: SubFolder,
) -> Result<bool, OpenFault> {
    let place = Place::Sub(sub);
    let is_made = root.make(sub)?;
    let found = root.look(place)?;
    if !found.is_dir() {
        let word = io::Error::from(ErrorKind::NotADirectory);
        return Err(OpenFault::Call(PlaceFault { place, word }));
    }
    if found.dev() != root.device {
        return Err(OpenFault::OtherFileSystem(sub));
    }
    if is_made {
        open_to_group(root, sub, found.permissions().mode());
    }
    Ok(is_made)
}

/// Gives a new sub-folder the permissions of the folder, if the `umask` kept it from them.
fn open_to_group<H: Files<File = File> + Drop>(root: &Root<H>, sub: SubFolder, mode: u32) {
    let wanted = sub_folder_mode(root.mode);
    if sub_folder_mode(mode) != wanted {
        // A service may be kept from this. The program itself can use the sub-folder.
        let _ = root.set_mode(sub, wanted);
    }
}

/// Gives a file of no bytes a second name for a moment. Two programs that open at the same time under the same own name
/// may remove each other's: that the name was taken shows that a link was made, and that the file is gone shows
/// nothing.
fn try_link<H: Files<File = File> + Drop>(root: &Root<H>) -> Result<(), OpenFault> {
    root.remove(Place::Trial)?;
    root.make_trial()?;
    let tried = root.link(Place::Trial, Place::TrialLink);
    root.remove(Place::TrialLink)?;
    root.remove(Place::Trial)?;
    match tried {
        Ok(_) => Ok(()),
        Err(fault) => without_link(fault),
    }
}

/// What a trial of a hard link that failed shows: by these answers the file system has none.
fn without_link(fault: PlaceFault) -> Result<(), OpenFault> {
    match fault.word.kind() {
        ErrorKind::NotFound => Ok(()),
        ErrorKind::PermissionDenied | ErrorKind::Unsupported => {
            Err(OpenFault::NoLinks(fault.word))
        }
        _ => Err(OpenFault::Call(fault)),
    }
}
