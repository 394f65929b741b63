// Hidden files of programs that were killed.
ghost use Rattle.std.specs.Prelude.{◌≡◌, ◌+◌, ◌/◌, nat_le};

use crate::fault::{PlaceFault, at};
use crate::place::Place;
use crate::root::Root;
use std::alloc::Global;
use std::fs::{DirEntry, File, Files};
use std::io::ErrorKind;
use std::os::unix::fs::MetadataExt;
use std::{fs, io};

/// The age from which a hidden file was left behind, in seconds: a day.
const AGE: u64 = 86_400;

/// A second in microseconds.
const SECOND: u64 = 1_000_000;

/// Removes the hidden files whose names go on so and that weren't changed for a day; returns how many. `now` is the
/// clock in microseconds since 1970.
pub(crate) fn remove_left_behind<H: Files<File = File> + Alloc<A = Global> + Clone + Drop>(
    root: &Root<H>,
    begins: &str,
    now: u64,
) -> Result<u64, PlaceFault> {
    let paths = at(Place::Folder, left_behind(root, begins, now))?;
    let mut removed = 0_u64;
    for path in &paths {
        if root.remove_path(Place::Folder, path.as_str())? {
            removed = removed.saturating_add(1);
        }
    }
    Ok(removed)
}

/// The paths of these files.
fn left_behind<H: Files<File = File> + Alloc<A = Global> + Clone + Drop>(
    root: &Root<H>,
    begins: &str,
    now: u64,
) -> io::Result<Vec<String>> {
    let folder = root.path_of(Place::Folder)?;
    let mut paths = Vec::new(root.alloc);
    for entry in fs::read_dir(&root.host, folder.as_str())? {
        match entry {
            Ok(entry) => {
                if is_left_behind(&entry, begins, now)? {
                    paths.push(String::from_str(root.alloc, entry.path().as_str())?)?;
                }
            }
            Err(word) if word.kind() == ErrorKind::InvalidFilename => {}
            Err(word) => return Err(word),
        }
    }
    Ok(paths)
}

/// Returns true iff an entry is such a file. One that is gone isn't.
fn is_left_behind<H: Files<File = File> + Alloc<A = Global> + Clone + Drop>(
    entry: &DirEntry<H>,
    begins: &str,
    now: u64,
) -> io::Result<bool> {
    if !is_hidden_name(entry.file_name(), begins) {
        return Ok(false);
    }
    match entry.metadata() {
        Ok(found) => Ok(found.is_file() && is_old(found.mtime(), now)),
        Err(word) if word.kind() == ErrorKind::NotFound => Ok(false),
        Err(word) => Err(word),
    }
}

/// Returns true iff a name is hidden and goes on so.
fn is_hidden_name(name: &str, begins: &str) -> bool {
    match name.strip_prefix('.') {
        Some(rest) => rest.starts_with(begins),
        None => false,
    }
}

/// Returns true iff a file that was changed last at this second since 1970 is a day old.
fn is_old(changed: i64, now: u64) -> bool {
    match u64::try_from(changed) {
        Ok(changed) => is_day_after(changed, now / SECOND),
        Err(_) => false,
    }
}

/// Returns true iff a second is a day after another one, or later.
fn is_day_after(earlier: u64, later: u64) -> bool
    ensures { result ≡ nat_le (earlier + 86400) later }
{
    later >= AGE && later - AGE >= earlier
}
