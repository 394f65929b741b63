//! The station of a folder is woken.
use crate::folder_host::FolderHost;
use std::fs::File;
use std::io::Read;
use std::net::{Ipv4Addr, SocketAddrV4, UdpSocket};
use std::{fs, io};

/// The most bytes of the text of an address.
const WAKE_BYTES: u64 = 32;

/// Sends an empty packet to the address in the folder's `.wake`, which the station that serves it wrote there. Ignores
/// errors: a station looks at its folders once a second by itself.
pub(crate) fn wake<H: FolderHost>(rt: &H, folder: &str) {
    let _sent = send_wake(rt, folder);
}

fn send_wake<H: FolderHost>(rt: &H, folder: &str) -> io::Result<usize> {
    let path = format!(in rt.alloc(); "{folder}/.wake")?;
    if !fs::symlink_metadata(rt, path.as_str())?.is_file() {
        return Ok(0);
    }
    let mut text = String::new(rt.alloc());
    File::open(rt, path.as_str())?
        .take(WAKE_BYTES)
        .read_to_string(&mut text)?;
    let Some(port) = port_in(text.as_str()) else {
        return Ok(0);
    };
    let socket = UdpSocket::bind(rt, "127.0.0.1:0")?;
    socket.send_to(&[], SocketAddrV4::new(Ipv4Addr::LOCALHOST, port))
}

/// The port in the text of an address of this machine.
fn port_in(text: &str) -> Option<u16> {
    text.trim().strip_prefix("127.0.0.1:")?.parse::<u16>().ok()
}
