//! The wait for a station's custody of the files that were put.
use crate::folder_host::FolderHost;
use crate::input::AfterPut;
use crate::wake::wake;
use rly_folder::Area;
use rly_folder_file::{FileFolder, PlaceFault};
use std::fs::File;
use std::io;
use std::os::unix::fs::MetadataExt;
use std::time::Duration;

/// The pause between two looks at a file, in milliseconds.
const PAUSE: u64 = 50;

/// The number of files that are followed at the same time: each is open.
const FOLLOWED: usize = 256;

/// Why a station may not have custody of a file. Files are counted from 1, in the order in which they were put.
#[derive(Clone, Copy, Debug)]
pub enum WaitFault {
    /// The wait for this file is over.
    Over(u64),
    /// The station refused this file, which is now in this area.
    Refused(u64, Area),
    /// A call of the system for this file failed.
    File(u64, io::Error),
    /// A call of the system in the folder failed.
    Call(PlaceFault),
}

/// Wakes the station after each put. If it waits for custody, it follows the files, for so many seconds after the last put.
///
/// It follows the file itself and no number: the station gives it one of its own, and may give it another one later. Once
/// its last name is gone the station has custody of it, or a later one has.
#[derive(Drop)]
pub(crate) struct CustodyWait<'a, H> {
    rt: &'a H,
    path: &'a str,
    seconds: Option<u64>,
    files: Vec<File>,
    /// The number of files that were followed to their end.
    settled: u64,
    /// The time at which the wait is over.
    deadline: Duration,
}

impl<'a, H: FolderHost> CustodyWait<'a, H> {
    /// Follows no file yet.
    pub(crate) fn new(rt: &'a H, path: &'a str, seconds: Option<u64>) -> Self {
        CustodyWait {
            rt,
            path,
            seconds,
            files: Vec::new(rt.alloc()),
            settled: 0,
            deadline: Duration::ZERO,
        }
    }

    /// Follows one more file, which was put now.
    fn follow(&mut self, file: &File, seconds: u64) -> io::Result<()> {
        self.deadline = now(self.rt).saturating_add(Duration::from_secs(seconds));
        self.files.push(file.try_clone()?)?;
        Ok(())
    }

    /// Waits until the station has custody of all files that are followed.
    pub(crate) fn finish(&mut self, folder: &FileFolder<&'a H>) -> Result<(), WaitFault> {
        for file in &self.files {
            let number = self.settled.saturating_add(1);
            wait_for(self.rt, folder, file, number, self.deadline)?;
            self.settled = number;
        }
        self.files.clear();
        Ok(())
    }
}

impl<'a, H: FolderHost> AfterPut<FileFolder<&'a H>> for CustodyWait<'a, H> {
    fn after_put(&mut self, folder: &FileFolder<&'a H>) -> Result<(), WaitFault> {
        wake(self.rt, self.path);
        let (Some(seconds), Some(file)) = (self.seconds, folder.linked()) else {
            return Ok(());
        };
        if let Err(word) = self.follow(file, seconds) {
            return Err(WaitFault::File(self.settled.saturating_add(1), word));
        }
        if self.files.len() < FOLLOWED {
            return Ok(());
        }
        self.finish(folder)
    }
}

/// Waits until a file has no name left.
fn wait_for<H: FolderHost>(
    rt: &H,
    folder: &FileFolder<&H>,
    file: &File,
    number: u64,
    deadline: Duration,
) -> Result<(), WaitFault> {
    for _look in 0..u64::MAX {
        if is_taken(folder, file, number)? {
            return Ok(());
        }
        if now(rt) >= deadline {
            return Err(WaitFault::Over(number));
        }
        rt.sleep(Duration::from_millis(PAUSE));
    }
    Err(WaitFault::Over(number))
}

/// Returns true iff a file has no name left. `Err` if it is in `refused/`.
fn is_taken<H: FolderHost>(
    folder: &FileFolder<&H>,
    file: &File,
    number: u64,
) -> Result<bool, WaitFault> {
    let found = match file.metadata() {
        Ok(found) => found,
        Err(word) => return Err(WaitFault::File(number, word)),
    };
    if found.nlink() == 0 {
        return Ok(true);
    }
    match folder.refusal_of(found.ino()) {
        Ok(None) => Ok(false),
        Ok(Some(area)) => Err(WaitFault::Refused(number, area)),
        Err(fault) => Err(WaitFault::Call(fault)),
    }
}

/// The time since an arbitrary start; none has passed if the clock can't be read.
fn now<H: FolderHost>(rt: &H) -> Duration {
    rt.monotonic().unwrap_or(Duration::ZERO)
}
