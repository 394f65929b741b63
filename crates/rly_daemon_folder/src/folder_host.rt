//! What the commands need of the runtime, and how they open a folder.
ghost use Rattle.std.specs.Prelude.{◌≡◌, IfErr, IfOk, false};
ghost use Rattle.rly_folder_file.specs.FileFolder.{folder_path};
ghost use Rattle.rly_daemon_folder.specs.FolderCommands.{is_over};

use crate::folder_command_fault::FolderCommandFault;
use libc::getpid;
use rly_folder_file::FileFolder;
use std::fs::{File, Files};
use std::net::Net;
use std::time::Clock;

/// The requirements of the commands on their runtime: files, a clock, and a packet that wakes the station.
pub trait FolderHost: AllocGlobal + Files<File = File> + Net + Clock {}

impl<H: AllocGlobal + Files<File = File> + Net + Clock> FolderHost for H {}

/// The clock in microseconds since 1970; 0 if it can't be read.
pub(crate) fn moment_of<C: Clock>(clock: &C) -> u64 {
    match clock.since_1970() {
        Ok(time) => u64::try_from(time.as_micros()).unwrap_or(0),
        Err(_) => 0,
    }
}

/// The name of a put's hidden files. Several programs may put at the same time, also in containers, where the numbers of
/// processes repeat.
pub(crate) fn own_name<H: FolderHost>(rt: &H) -> Result<String, FolderCommandFault> {
    let name = format!(in rt.alloc(); "put-{}-{}", getpid(), moment_of(rt))?;
    Ok(name)
}

/// Opens a folder under a program's own name.
pub(crate) fn open<'a, H: FolderHost>(
    rt: &'a H,
    path: &str,
    own: &str,
) -> Result<FileFolder<&'a H>, FolderCommandFault>
    ensures path { IfOk result (λ folder. folder_path folder ≡ path.now) }
    ensures over { IfErr result (λ fault. is_over fault ≡ false) }
{
    match FileFolder::open(rt, path, own) {
        Ok(folder) => Ok(folder),
        Err(fault) => Err(FolderCommandFault::Open(fault)),
    }
}

/// Opens a folder, and locks it against other readers.
pub(crate) fn open_to_get<'a, H: FolderHost>(
    rt: &'a H,
    path: &str,
) -> Result<FileFolder<&'a H>, FolderCommandFault>
    ensures path { IfOk result (λ folder. folder_path folder ≡ path.now) }
    ensures over { IfErr result (λ fault. is_over fault ≡ false) }
{
    let mut folder = open(rt, path, "get")?;
    match folder.lock() {
        Ok(()) => Ok(folder),
        Err(fault) => Err(FolderCommandFault::Open(fault)),
    }
}
