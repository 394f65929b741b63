//! The receive buffer of a socket. The system's answers are outside of the proofs.

use libc::net::{SO_RCVBUF, SOL_SOCKET, getsockopt, setsockopt};
use std::net::UdpSocket;
use std::os::fd::AsRawFd;

/// The length in bytes of the option's value.
const LENGTH: u32 = 4;

/// Requests a receive buffer of `wanted` bytes, if a socket has a smaller one. Returns its bytes then, if the system
/// says how many.
pub(crate) fn grow_buffer(socket: &UdpSocket, wanted: u32) -> Option<u32> {
    let had = buffer_of(socket)?;
    if had >= wanted {
        return Some(had);
    }
    let mut value = [0; 16];
    value[..4].copy_from_slice(&wanted.to_ne_bytes());
    // The system may have a limit, and then grants less or nothing: the size is read again.
    let _status = unsafe { setsockopt(socket.as_raw_fd(), SOL_SOCKET, SO_RCVBUF, &value, LENGTH) };
    buffer_of(socket)
}

/// The bytes of a socket's receive buffer. Linux doubles a size that is set, for its own overhead, and returns the
/// double.
fn buffer_of(socket: &UdpSocket) -> Option<u32> {
    let mut value = [0; 16];
    let mut length = LENGTH;
    let fd = socket.as_raw_fd();
    let status = unsafe { getsockopt(fd, SOL_SOCKET, SO_RCVBUF, &mut value, &mut length) };
    if status != 0 {
        return None;
    }
    let doubled = u32::from_ne_bytes([value[0], value[1], value[2], value[3]]);
    Some(doubled / 2)
}
