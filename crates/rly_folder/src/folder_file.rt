// A file of a folder.
ghost use Rattle.std.specs.Prelude.{◌≡◌, ◌<◌, ◌^◌, IfOk};

use std::alloc::{AllocError, Global};

/// A file: its bytes, and the age limit of its datagram in microseconds, below 2^40; 0 = none.
#[derive(Drop)]
pub struct FolderFile {
    pub bytes: Vec<u8>,
    pub limit: u64,
    ghost limit_fits: { limit < 2 ^ 40 },
}

impl FolderFile {
    ghost use Rattle.rly_folder.specs.FolderModel.{as_file, file_with, front_of};

    /// Makes a file of its bytes and its limit.
    pub fn new(bytes: Vec<u8>, limit: u64) -> Self
        requires { limit < 2 ^ 40 }
        ensures { as_file result ≡ file_with bytes.items limit }
    {
        FolderFile { bytes, limit }
    }

    /// Returns a copy.
    pub(crate) fn copy(&self, alloc: Global) -> Result<FolderFile, AllocError>
        ensures { IfOk result (λ copy. as_file copy ≡ as_file self.now) }
    {
        let bytes = self.bytes.to_vec(alloc)?;
        Ok(FolderFile::new(bytes, self.limit))
    }

    /// Returns a copy of which the bytes end after the first `most`.
    pub(crate) fn front(&self, alloc: Global, most: usize) -> Result<FolderFile, AllocError>
        ensures { IfOk result (λ front. as_file front ≡ front_of most (as_file self.now)) }
    {
        let front = self.bytes[..most.min(self.bytes.len())].to_vec(alloc)?;
        Ok(FolderFile::new(front, self.limit))
    }
}
