//! The look at the file of a device that is served: whether it is still there, under its path and whole.

use std::alloc::{AllocError, Global};
use std::fs::File;
use std::io;
use std::io::ErrorKind;
use std::os::fd::AsRawFd;
use std::os::unix::fs::{FileTypeExt, MetadataExt};

/// The longest path of a file in bytes, as the system tells it.
const LONGEST_PATH: usize = 4_096;

/// The end of the path of a file that was removed, or replaced under its path.
const DELETED: &[u8] = b" (deleted)";

/// An open file under the path at which it was opened, as the system tells it by a link of `/proc`. Where there is no `/proc`,
/// a file that was renamed isn't found to be.
#[derive(Drop)]
pub(crate) struct WatchedFile {
    link: String,
    path: Vec<u8>,
}

impl WatchedFile {
    /// An open file. `Err`: out of memory.
    pub(crate) fn of(alloc: Global, file: &File) -> Result<WatchedFile, AllocError> {
        let link = format!(in alloc; "/proc/self/fd/{}", file.as_raw_fd())?;
        let mut buffer = [0; LONGEST_PATH];
        let mut path = Vec::new(alloc);
        path.extend_from_slice(path_in(link.as_str(), &mut buffer))?;
        Ok(WatchedFile { link, path })
    }

    /// Returns an error if the file is no longer under its path, or is shorter than `size` bytes. A block device has no length
    /// to be seen.
    pub(crate) fn look(&self, file: &File, size: u64) -> io::Result<()> {
        let mut buffer = [0; LONGEST_PATH];
        let path = path_in(self.link.as_str(), &mut buffer);
        let found = file.metadata()?;
        let has_moved = path != self.path.as_slice();
        if found.nlink() == 0 || has_moved && path.ends_with(DELETED) {
            return gone("removed or replaced while it was served");
        }
        if has_moved {
            return gone("renamed while it was served");
        }
        if found.len() < size && !found.file_type().is_block_device() {
            return gone("cut short while it was served");
        }
        Ok(())
    }
}

fn gone(word: &'static str) -> io::Result<()> {
    Err(io::Error::new(ErrorKind::Other, word))
}

/// The path in a link, in the front of a buffer: none if there is no such link.
fn path_in<'a>(link: &str, buffer: &'a mut [u8; LONGEST_PATH]) -> &'a [u8] {
    let count = os::readlink(link.as_bytes(), buffer.as_mut_slice());
    match usize::try_from(count) {
        Ok(count) => &buffer[..count],
        Err(_) => &[],
    }
}
