ghost use Rattle.std.specs.Prelude.{◌≡◌, ◌≤◌, ◌+◌, ◌↔◌, None, IfOk, OnOk, false, is_some, true};

use crate::allocation;
use crate::watched_file::WatchedFile;
use rly_disk::{Counts, Disk, DiskFault};
use rly_station::{ErrorLines, FailedCalls, FileFault, SystemWord};
use std::alloc::{AllocError, Global};
use std::fs::{File, FileType, Files, OpenOptions, TryLockError};
use std::io::{ErrorKind, Seek, SeekFrom};
use std::os::fd::AsRawFd;
use std::os::unix::fs::{FileExt, FileTypeExt};
use std::sync::Arc;
use std::{fs, io};

/// A device in a file, locked (advisory) against other processes while it is open, unless it was opened as a copy. The
/// file may be a block device.
///
/// Nothing can be proved of a real file's bytes, so this disk is never honest: its contracts cover its size, its
/// ranges and its counts. The disk model of bytes and crashes holds of it as far as the system keeps the promises
/// of `pread`, `pwrite` and `fdatasync`.
#[derive(Drop)]
pub struct FileDisk {
    file: File,
    /// The lock on the file: none on a copy, which is only read.
    lock: Option<FileLock>,
    size: u64,
    counts: Counts,
    /// The system's error of the first failed call.
    word: Option<SystemWord>,
    /// Its failed reads, if they are logged.
    read_failures: Option<FailedCalls>,
    /// The look at the file, if it is looked after.
    watched: Option<WatchedFile>,
    ghost word_is_told: { (word ≡ None) ↔ (counts.failures ≡ 0) },
}

/// The lock on a file, which the system takes back when the file is closed. Only `lock` makes one.
#[derive(Clone, Copy)]
struct FileLock;

impl FileDisk {
    ghost use Rattle.rly_daemon_commands.specs.FileDisk.{file_state, first_fault, is_locked, kept_word, one_if_failed};
    ghost use Rattle.rly_station.specs.Warnings.{AreReadsLogged};

    /// Opens the device in a file. Syncs the writes of earlier processes first, or returns an error; reads from
    /// then on return the disk's bytes, not those of the page cache.
    pub fn open<H: Files<File = File>>(files: &H, path: &str) -> Result<FileDisk, FileFault>
        ensures calls { IfOk result (λ disk. (file_state disk).calls ≡ 0) }
        ensures lock { IfOk result (λ disk. is_locked disk ≡ true) }
    {
        refuse_special(files, path)?;
        prepare_file(OpenOptions::new().read(true).write(true).open(files, path)?)
    }

    /// Opens the copy of a device in a file, to read it: without a lock, and without permission to write.
    pub fn open_copy<H: Files<File = File>>(files: &H, path: &str) -> Result<FileDisk, FileFault>
        ensures calls { IfOk result (λ disk. (file_state disk).calls ≡ 0) }
        ensures lock { IfOk result (λ disk. is_locked disk ≡ false) }
    {
        refuse_special(files, path)?;
        let file = OpenOptions::new().read(true).open(files, path)?;
        disk_in(file.try_clone()?, None)
    }

    /// The same, and creates the file if there is none.
    pub fn make<H: Files<File = File>>(files: &H, path: &str) -> Result<FileDisk, FileFault>
        ensures calls { IfOk result (λ disk. (file_state disk).calls ≡ 0) }
    {
        refuse_special(files, path)?;
        let opened = OpenOptions::new().read(true).write(true).open(files, path);
        match opened {
            Ok(file) => prepare_file(file),
            Err(error) if error.kind() == ErrorKind::NotFound => create_file(files, path),
            Err(error) => Err(FileFault::from(error)),
        }
    }

    /// The same disk, which logs its failed reads on a station's lines.
    pub fn with_warnings(mut self, lines: Arc<ErrorLines, Global>) -> FileDisk
        ensures told { AreReadsLogged result.read_failures }
        ensures same { result ≡ record self { read_failures = result.read_failures } }
    {
        self.read_failures = Some(FailedCalls::of_reads(lines));
        self
    }

    /// The same disk, whose file is looked after: from now on each write and each sync fails once the file isn't under its
    /// path any more, or is shorter than it was. `Err`: out of memory.
    pub(crate) fn with_watch(mut self, alloc: Global) -> Result<FileDisk, AllocError>
        ensures same { IfOk result (λ disk. disk ≡ record self { watched = disk.watched }) }
    {
        self.watched = Some(WatchedFile::of(alloc, &self.file)?);
        Ok(self)
    }

    /// Looks after the file, if it is to be looked after.
    fn look(&self) -> io::Result<()> {
        match &self.watched {
            Some(watched) => watched.look(&self.file, self.size),
            None => Ok(()),
        }
    }

    /// Writes all bytes at an address, unless the file was lost before.
    fn put(&self, place: u64, bytes: &[u8]) -> io::Result<()> {
        self.look()?;
        self.file.write_all_at(bytes, place)
    }

    /// Syncs the file. A file that was lost up to then isn't durable.
    fn settle(&self) -> io::Result<()> {
        self.file.sync_data()?;
        self.look()
    }

    /// Extends the file to the size of a device, durably, if it is shorter.
    pub fn extend(&mut self, size: u64) -> Result<(), FileFault>
        ensures size { OnOk result (size ≤ (file_state self.new).size) }
        ensures same { self.new ≡ record self.old { size = self.new.size } }
    {
        if self.size < size {
            self.file.set_len(size)?;
            self.file.sync_all()?;
            self.size = size;
        }
        Ok(())
    }

    /// Takes the room of a device of this size on its disk, by zeros over all of it, durably. Nothing is left of what the file
    /// held there.
    pub(crate) fn take_room(&self, alloc: Global, path: &str, size: u64) -> Result<(), FileFault> {
        allocation::take_room(alloc, &self.file, path, size)?;
        Ok(())
    }

    /// The system's error of the first failed call.
    pub fn fault(&self) -> Option<FileFault>
        ensures first { result ≡ first_fault self.now }
        ensures told { (result ≡ None) ↔ ((file_state self.now).failures ≡ 0) }
    {
        Some(FileFault::from(self.word?.0))
    }

    /// Stores the counts after a call, and the system's error if it is the first that failed.
    fn note(&mut self, counts: Counts, outcome: &io::Result<()>)
        requires { counts.failures ≡ self.old.counts.failures + one_if_failed outcome.now }
        ensures word { self.new.word ≡ kept_word self.old.word outcome.now }
        ensures counts { self.new.counts ≡ counts }
        ensures size { self.new.size ≡ self.old.size }
        ensures quiet { self.new.read_failures ≡ self.old.read_failures }
    {
        self.counts = counts;
        if let (None, Err(error)) = (&self.word, outcome) {
            self.word = Some(SystemWord(*error));
        }
    }
}

/// Refuses what can be no device at a path, such as a pipe: its opening could wait for ever.
fn refuse_special<H: Files<File = File>>(files: &H, path: &str) -> Result<(), FileFault> {
    match fs::metadata(files, path) {
        Ok(found) if is_special(found.file_type()) => {
            let special = io::Error::new(ErrorKind::InvalidInput, "not a file or a block device");
            Err(FileFault::from(special))
        }
        Ok(_) | Err(_) => Ok(()),
    }
}

/// Whether something is a pipe, a socket or a character device. A folder is refused by its opening or its first read.
fn is_special(kind: FileType) -> bool {
    kind.is_fifo() || kind.is_socket() || kind.is_char_device()
}

/// Creates a file, durably.
fn create_file<H: Files<File = File>>(files: &H, path: &str) -> Result<FileDisk, FileFault>
    ensures calls { IfOk result (λ disk. disk.counts.calls ≡ 0) }
{
    let file = OpenOptions::new()
        .read(true)
        .write(true)
        .create(true)
        .open(files, path)?;
    let disk = prepare_file(file)?;
    File::open(files, folder_of(path))?.sync_all()?;
    Ok(disk)
}

/// The folder that a path's file is in.
pub(crate) fn folder_of(path: &str) -> &str {
    match path.rsplit_once('/') {
        None => ".",
        Some(("", _)) => "/",
        Some((folder, _)) => folder,
    }
}

/// Locks an open file, syncs it, drops its pages from the page cache, and reads its size. After a failed sync the
/// page cache may have bytes that the disk doesn't have, and a later sync may succeed over them.
fn prepare_file(file: File) -> Result<FileDisk, FileFault>
    ensures calls { IfOk result (λ disk. disk.counts.calls ≡ 0) }
    ensures lock { IfOk result (λ disk. is_some disk.lock ≡ true) }
{
    // If a standard stream is closed, the file may have got its descriptor, and output for that stream would go
    // into the device. A clone never gets such a descriptor.
    let file = file.try_clone()?;
    let lock = lock(&file)?;
    file.sync_all()?;
    forget(&file)?;
    disk_in(file, Some(lock))
}

/// The disk in an open file, of which no call was made yet.
fn disk_in(file: File, lock: Option<FileLock>) -> Result<FileDisk, FileFault>
    ensures calls { IfOk result (λ disk. disk.counts.calls ≡ 0) }
    ensures lock { IfOk result (λ disk. disk.lock ≡ lock) }
{
    let mut file = file;
    let size = file.seek(SeekFrom::End(0))?;
    Ok(FileDisk {
        file,
        lock,
        size,
        counts: Counts::new(),
        word: None,
        read_failures: None,
        watched: None,
    })
}

/// Locks a file (advisory) against other processes.
fn lock(file: &File) -> Result<FileLock, FileFault> {
    match file.try_lock() {
        Ok(()) => Ok(FileLock),
        Err(TryLockError::WouldBlock) => {
            let held = io::Error::new(ErrorKind::WouldBlock, "locked by another process");
            Err(FileFault::of_lock(held))
        }
        Err(TryLockError::Error(error)) => Err(FileFault::of_lock(error)),
    }
}

/// Drops the pages of a file from the page cache, once they are durable.
fn forget(file: &File) -> io::Result<()> {
    match libc::posix_fadvise(file.as_raw_fd(), 0, 0, libc::POSIX_FADV_DONTNEED) {
        0 => Ok(()),
        error => Err(io::Error::from_raw_os_error(error)),
    }
}

impl Disk for FileDisk {
    ghost use Rattle.std.specs.Prelude.{◌≡◌, ◌≤◌, ◌<◌, ◌+◌, ◌-◌, ◌^◌, ◌∷◌, [], OnErr, OnOk, is_ok, length, slice_range};
    ghost use Rattle.rly_disk.specs.Trace.{Makes, Read, Sync, Write};
    ghost use Rattle.rly_daemon_commands.specs.FileDisk.{file_calls_lead, file_consistent, file_state};
    ghost use Rattle.rly_station.specs.Warnings.{HasCountedIf};

    ghost state = { file_state };

    ghost consistent = { λ disk honest. file_consistent disk honest };

    ghost calls_lead = { λ disk. file_calls_lead disk };

    fn size(&self) -> u64 {
        self.size
    }

    fn read_at(&mut self, place: u64, buffer: &mut [u8]) -> Result<(), DiskFault>
        requires { place + length buffer.old ≤ (file_state self.old).size }
        ensures bytes { (file_state self.old).honest
            → OnOk result (buffer.new ≡ slice_range (file_state self.old).seen place (place + length buffer.old)) }
        ensures trace { Makes file_state (Read place (length buffer.old) ∷ []) (is_ok result) self.old self.new }
        // Only a failed read is counted and logged.
        ensures quiet { OnOk result (self.new.read_failures ≡ self.old.read_failures) }
        ensures counted { OnErr result
            ((self.old.counts.calls < 2 ^ 64 - 1) → HasCountedIf self.old.read_failures self.new.read_failures) }
    {
        if self.counts.is_spent() {
            return Err(DiskFault);
        }
        let outcome = self.file.read_exact_at(buffer, place);
        let mut counts = self.counts;
        counts.count_read(outcome.is_err());
        self.note(counts, &outcome);
        if let (Some(read_failures), Err(error)) = (&mut self.read_failures, &outcome) {
            read_failures.add(*error);
        }
        outcome.map_err(|_| DiskFault)
    }

    fn write_at(&mut self, place: u64, bytes: &[u8]) -> Result<(), DiskFault>
        requires { place + length bytes.now ≤ (file_state self.old).size }
        ensures trace { Makes file_state (Write place bytes.now ∷ []) (is_ok result) self.old self.new }
        ensures quiet { self.new.read_failures ≡ self.old.read_failures }
    {
        if self.counts.is_spent() {
            return Err(DiskFault);
        }
        let outcome = self.put(place, bytes);
        let mut counts = self.counts;
        counts.count_write(outcome.is_err());
        self.note(counts, &outcome);
        outcome.map_err(|_| DiskFault)
    }

    fn sync(&mut self) -> Result<(), DiskFault>
        ensures trace { Makes file_state (Sync ∷ []) (is_ok result) self.old self.new }
        ensures quiet { self.new.read_failures ≡ self.old.read_failures }
    {
        if self.counts.is_spent() {
            return Err(DiskFault);
        }
        let outcome = self.settle();
        let mut counts = self.counts;
        counts.count_sync(outcome.is_err());
        self.note(counts, &outcome);
        outcome.map_err(|_| DiskFault)
    }

    fn failures(&self) -> u64 {
        self.counts.failures
    }

    fn calls(&self) -> u64 {
        self.counts.calls
    }

    fn syncs(&self) -> u64 {
        self.counts.syncs
    }

    fn failed_reads(&self) -> u64 {
        self.counts.failed_reads
    }
}
