//! The reasons why a folder can't play a neighbour, as a station tells them.

use rly_folder_file::{OpenFault, Place, PlaceFault, SubFolder};
use rly_station::{FolderPart, FolderWord, SystemWord};
use std::io;
use std::io::ErrorKind;

/// Why a folder wasn't opened or locked.
pub(crate) fn word_of_open(fault: OpenFault) -> FolderWord {
    match fault {
        OpenFault::Folder(word) => FolderWord::System(SystemWord(word)),
        OpenFault::Call(fault) => word_of_call(fault),
        OpenFault::NotAFolder => FolderWord::NotAFolder,
        OpenFault::NoLinks(word) => FolderWord::NoLinks(SystemWord(word)),
        OpenFault::OtherFileSystem(sub) => FolderWord::OtherFileSystem(part_of(sub)),
        OpenFault::Locked => FolderWord::Locked,
    }
}

/// Why the files of an open folder can't be listed, by its last failed call.
pub(crate) fn word_of_failure(fault: Option<PlaceFault>) -> FolderWord {
    match fault {
        Some(fault) => word_of_call(fault),
        None => FolderWord::System(SystemWord(io::Error::from(ErrorKind::Other))),
    }
}

fn word_of_call(fault: PlaceFault) -> FolderWord {
    let word = SystemWord(fault.word);
    match fault.place {
        Place::Folder => FolderWord::System(word),
        Place::Sub(sub) => FolderWord::Inside(part_of(sub), word),
        Place::File(file) => { FolderWord::Inside(part_of(SubFolder::of(file.name.area)), word) }
        Place::Hidden => FolderWord::Inside(FolderPart::Hidden, word),
        Place::Trial | Place::TrialLink => FolderWord::Inside(FolderPart::Trial, word),
        Place::Lock => FolderWord::Inside(FolderPart::Lock, word),
    }
}

fn part_of(sub: SubFolder) -> FolderPart {
    match sub {
        SubFolder::New => FolderPart::New,
        SubFolder::Sent => FolderPart::Sent,
        SubFolder::Refused => FolderPart::Refused,
        SubFolder::Out => FolderPart::Out,
    }
}
