//! The file of a folder with the address on which its link is woken.

use rly_link_udp::UdpLink;
use std::alloc::Global;
use std::fs::{File, Files, OpenOptions};
use std::io::Write;
use std::time::Clock;
use std::{fs, io};

/// Writes the address of a bell into the file `.wake` of the folder at a path. It is there whole or not at all: it is
/// written under a hidden name of the worker's, and renamed. It stays at the end, and an empty packet to an address that
/// nobody has is lost.
pub(crate) fn write_wake<H: Files<File = File>, C: Clock + Drop>(
    files: &H,
    alloc: Global,
    path: &str,
    own: &str,
    bell: &UdpLink<C>,
) -> io::Result<()> {
    let address = bell.address()?;
    let text = format!(in alloc; "{address}\n")?;
    let hidden = format!(in alloc; "{path}/.{own}.wake")?;
    let wake = format!(in alloc; "{path}/.wake")?;
    let mut file = OpenOptions::new()
        .write(true)
        .create(true)
        .truncate(true)
        .open(files, hidden.as_str())?;
    file.write_all(text.as_bytes())?;
    fs::rename(files, hidden.as_str(), wake.as_str())
}
