//! `rly format --allocate`: takes the room of a device on its disk, by zeros over all of it.

use libc::net::{POLLOUT, poll};
use libc::types::pollfd;
use std::alloc::Global;
use std::fs::File;
use std::io;
use std::os::unix::fs::{FileExt, MetadataExt};

/// The file descriptor of standard error.
const STANDARD_ERROR: i32 = 2;

/// The number of bytes that are written at once.
const PIECE: u64 = 65_536;

/// The bytes of the blocks in which the system counts the room of a file.
const BLOCK: u64 = 512;

/// Writes zeros over the first `size` bytes of a file, and syncs it. Standard error has the progress if it is a
/// terminal, and a line if the file has less room on its disk than bytes after that.
pub(crate) fn take_room(alloc: Global, file: &File, path: &str, size: u64) -> io::Result<()> {
    let zeros = [0; PIECE as usize];
    let pieces = size / PIECE;
    let mut told = 0;
    for piece in 0..pieces + 1 {
        let place = piece.saturating_mul(PIECE);
        let length = size.saturating_sub(place).min(PIECE) as usize;
        file.write_all_at(&zeros[..length], place)?;
        told = tell_progress(alloc, path, piece.saturating_mul(100) / pieces.max(1), told);
    }
    file.sync_all()?;
    tell_holes(alloc, file, path, size)
}

/// Writes to a terminal how much is done, and returns what was told last.
fn tell_progress(alloc: Global, path: &str, percent: u64, told: u64) -> u64 {
    if percent == told || libc::isatty(STANDARD_ERROR) != 1 {
        return told;
    }
    let end = if percent >= 100 { "\n" } else { "" };
    if let Ok(text) = format!(in alloc; "\rrly: room: {path}: {percent} %{end}") {
        write_at_once(text.as_bytes());
    }
    percent
}

/// Writes how much room a file has on its disk, if that is less than its bytes.
fn tell_holes(alloc: Global, file: &File, path: &str, size: u64) -> io::Result<()> {
    let found = file.metadata()?;
    let room = found.blocks().saturating_mul(BLOCK);
    if !found.is_file() || room >= size {
        return Ok(());
    }
    if let Ok(line) = format!(in alloc;
        "rly: room: {path}: {room} of {size} bytes are taken, since its file system leaves zeros out; a write may fail for want of room\n"
    ) {
        write_at_once(line.as_bytes());
    }
    Ok(())
}

/// Writes to standard error in one call, if there is room for it and a reader. The rest is dropped.
fn write_at_once(line: &[u8]) {
    let mut asked = [pollfd {
        fd: STANDARD_ERROR,
        events: POLLOUT,
        revents: 0,
    }];
    if poll(&mut asked, 0) == 1 && asked[0].revents == POLLOUT {
        let _taken = libc::write(STANDARD_ERROR, line);
    }
}
