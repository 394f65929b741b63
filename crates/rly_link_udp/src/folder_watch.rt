//! The watch of the folders that play a station's neighbours.

ghost use Rattle.std.specs.Prelude.{◌≡◌, ◌++◌, [], IfOk, None, map};
ghost use Rattle.rly_link_udp.specs.FolderWatch.{HasLooked, asked_of, is_changed, is_due, kept_of, path_of, rung_of};
ghost use Rattle.rly_link_udp.specs.FolderWatch.{seen_of, unseen, woken_in};

use crate::bells::Bells;
use http_server::Log;
use rly_link::Worker;
use std::alloc::{AllocError, Global};
use std::fs;
use std::fs::{File, Files};
use std::os::unix::fs::MetadataExt;
use std::sync::Arc;

/// The time between two looks, in microseconds of the monotonic clock.
const BETWEEN_LOOKS: u64 = 1_000_000;

/// A time is young below this age, in microseconds: a file system may give the same time to a later change.
const YOUNG: u64 = 2_000_000;

/// A second in microseconds.
const SECOND: u64 = 1_000_000;

/// The part of a folder that other programs change, and the worker that has to look there then.
#[derive(Drop)]
pub struct FolderPath {
    pub worker: Worker,
    pub path: String,
}

/// One that is watched, and when it was changed last, in microseconds since 1970, by the last look and by the one before:
/// `None` if that wasn't known.
#[derive(Drop)]
pub(crate) struct WatchedFolder {
    worker: Worker,
    path: String,
    before: Option<u64>,
    seen: Option<u64>,
}

impl WatchedFolder {
    /// One that wasn't looked at.
    fn new(alloc: Global, folder: &FolderPath) -> Result<WatchedFolder, AllocError>
        ensures { IfOk result (λ watched. seen_of watched ≡ unseen (path_of folder.now)) }
    {
        Ok(WatchedFolder {
            worker: folder.worker,
            path: String::from_str(alloc, folder.path.as_str())?,
            before: None,
            seen: None,
        })
    }

    /// Looks when it was changed last.
    fn look<H: Files<File = File>>(&mut self, files: &H)
        ensures { kept_of self.new ≡ asked_of self.old }
    {
        self.before = self.seen;
        self.seen = changed_at(files, self.path.as_str());
    }

    /// Whether its worker has to look into it, by the last look.
    fn is_changed(&self, now: u64) -> bool
        ensures { result ≡ is_changed now self.now.before self.now.seen }
    {
        is_changed(now, self.before, self.seen)
    }
}

/// Wakes a worker when its folder may have been changed, by the times of the folders. It lists and writes nothing.
#[derive(Drop)]
pub(crate) struct FolderWatch {
    folders: Vec<WatchedFolder>,
    /// The monotonic clock at the last look, in microseconds.
    looked: Option<u64>,
    bells: Arc<Bells, Global>,
    // The workers that it woke, which take no memory.
    rung: Log<Worker, ()>,
}

impl FolderWatch {
    /// A watch of some folders, at which it hasn't looked.
    pub(crate) fn new(
        alloc: Global,
        folders: &[FolderPath],
        bells: Arc<Bells, Global>,
    ) -> Result<FolderWatch, AllocError>
        ensures folders { IfOk result
            (λ watch. map seen_of watch.folders.items ≡ map (λ f. unseen (path_of f)) folders.now) }
        ensures looked { IfOk result (λ watch. watch.looked ≡ None) }
        ensures rung { IfOk result (λ watch. rung_of watch.rung ≡ []) }
    {
        let mut watched = Vec::new(alloc);
        for folder in folders {
            watched.push(WatchedFolder::new(alloc, folder)?)?;
        }
        Ok(FolderWatch {
            folders: watched,
            looked: None,
            bells,
            rung: Log::new(),
        })
    }

    /// The clocks were read, in microseconds. A second after the last look it looks at the times of all folders, and wakes
    /// the worker of each that may have been changed.
    pub(crate) fn note<H: Files<File = File>>(&mut self, files: &H, now: u64, since: u64)
        ensures { HasLooked self.old self.new now since }
    {
        if self.is_due(since) {
            self.looked = Some(since);
            self.look(files);
            wake_changed(&self.folders, now, &self.bells, &mut self.rung);
        }
    }

    /// Whether it is time to look.
    fn is_due(&self, since: u64) -> bool
        ensures { result ≡ is_due self.now.looked since }
    {
        match self.looked {
            Some(looked) => since.saturating_sub(looked) >= BETWEEN_LOOKS,
            None => true,
        }
    }

    /// Looks at the times of all folders.
    fn look<H: Files<File = File>>(&mut self, files: &H)
        ensures kept { map kept_of self.new.folders.items ≡ map asked_of self.old.folders.items }
        ensures rest { self.new ≡ record self.old { folders = self.new.folders } }
    {
        for folder in self.folders.iter_mut() {
            folder.look(files);
        }
    }
}

/// Wakes the worker of each folder that may have been changed, and logs it.
fn wake_changed(folders: &[WatchedFolder], now: u64, bells: &Bells, rung: &mut Log<Worker, ()>)
    ensures { rung_of rung.new ≡ rung_of rung.old ++ woken_in now folders.now }
{
    for folder in folders {
        if folder.is_changed(now) {
            let worker = folder.worker;
            bells.ring(worker);
            *rung = rung.and(&worker, &());
        }
    }
}

/// Whether a folder may have been changed since the look before: its time is another or young, or can't be read any more.
fn is_changed(now: u64, before: Option<u64>, seen: Option<u64>) -> bool
    ensures { result ≡ is_changed now before seen }
{
    match seen {
        Some(time) => before != Some(time) || now < time || now - time < YOUNG,
        None => before.is_some(),
    }
}

/// When a folder was changed last, in microseconds since 1970: by the later of two times, since a program may set that of the
/// modification.
fn changed_at<H: Files<File = File>>(files: &H, path: &str) -> Option<u64> {
    let found = fs::metadata(files, path).ok()?;
    let modified = micros_of(found.mtime(), found.mtime_nsec());
    let changed = micros_of(found.ctime(), found.ctime_nsec());
    Some(modified.max(changed))
}

/// Microseconds of seconds and nanoseconds: none before 1970.
fn micros_of(seconds: i64, nanos: i64) -> u64 {
    let seconds = u64::try_from(seconds).unwrap_or(0);
    let micros = u64::try_from(nanos).unwrap_or(0) / 1_000;
    seconds.saturating_mul(SECOND).saturating_add(micros)
}
