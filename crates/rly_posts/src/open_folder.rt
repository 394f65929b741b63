//! The opening of a folder that plays a neighbour.

ghost use Rattle.std.specs.Prelude.{◌≡◌, IfOk};
ghost use Rattle.rly_link_udp.specs.LinkDuties.{longest_until, longest_wait};
ghost use Rattle.rly_posts.specs.Folders.{IsOpenAt};

use crate::folder_words::word_of_open;
use crate::wake_file::write_wake;
use rly_folder_file::FileFolder;
use rly_link::Worker;
use rly_link_udp::{Signals, UdpLink, bell_of};
use rly_station::{FolderFault, FolderWord, ServeFault, SystemWord, moment_of};
use std::fs::{File, Files};
use std::net::Net;
use std::time::Clock;

/// A folder that plays a neighbour, and the bell of its link.
#[derive(Drop)]
pub(crate) struct OpenFolder<C: Clock + Drop> {
    pub(crate) folder: FileFolder<C>,
    pub(crate) bell: UdpLink<C>,
}

/// The name under which a worker uses a folder. One receiver and one sender may share a folder.
fn own_name(worker: Worker) -> &'static str {
    match worker {
        Worker::Receiver(_) => "peer",
        Worker::Sender(_) => "hop",
    }
}

/// Opens the folder at a path for a worker and locks it, opens the bell of its link, and writes the bell's address into the
/// folder.
pub(crate) fn open_folder<'a, H: AllocGlobal + Files<File = File> + Clock + Net>(
    rt: &'a H,
    worker: Worker,
    path: &str,
    turns: u64,
    signals: &Signals,
) -> Result<OpenFolder<&'a H>, FolderWord>
    ensures folder { IfOk result (λ opened. IsOpenAt path.now opened.folder) }
    ensures bell { IfOk result (λ opened. (opened.bell.longest ≡ longest_wait worker turns)
        × (opened.bell.longest_until ≡ longest_until worker)) }
{
    let folder = locked_folder(rt, worker, path)?;
    let bell = match bell_of(rt, worker, turns, signals) {
        Ok(bell) => bell,
        Err(word) => return Err(FolderWord::Bell(SystemWord(word))),
    };
    match write_wake(rt, rt.alloc(), path, own_name(worker), &bell) {
        Ok(()) => Ok(OpenFolder { folder, bell }),
        Err(word) => Err(FolderWord::Wake(SystemWord(word))),
    }
}

/// The folder at a path, locked for a worker, without the hidden files of programs that were killed more than a day ago.
fn locked_folder<'a, H: AllocGlobal + Files<File = File> + Clock>(
    rt: &'a H,
    worker: Worker,
    path: &str,
) -> Result<FileFolder<&'a H>, FolderWord>
    ensures { IfOk result (λ folder. IsOpenAt path.now folder) }
{
    let mut folder = match FileFolder::open(rt, path, own_name(worker)) {
        Ok(folder) => folder,
        Err(fault) => return Err(word_of_open(fault)),
    };
    match folder.lock() {
        Ok(()) => {
            // What can't be removed stays.
            let now = moment_of(rt.since_1970().ok());
            let _removed = folder.remove_left_behind("put-", now);
            Ok(folder)
        }
        Err(fault) => Err(word_of_open(fault)),
    }
}

/// The fault of a worker whose folder can't play its neighbour.
pub(crate) fn fault_of_folder(worker: Worker, path: String, word: FolderWord) -> ServeFault {
    ServeFault::Folder(FolderFault { worker, path, word })
}
