// The numbers of a folder's files.
ghost use Rattle.std.specs.Prelude.{◌≡◌, IfOk, nat_le};
ghost use Rattle.std.specs.List.{filter};
ghost use Rattle.rly_folder_file.specs.Listing.{IsInOrder};

use crate::fault::{PlaceFault, at};
use crate::foreign::Foreign;
use crate::limits::Limits;
use crate::place::{Place, SubFolder, numbered_in};
use crate::root::Root;
use rly_folder::{Area, Name};
use std::alloc::{AllocError, Global};
use std::fs::{File, Files, Metadata};
use std::io::ErrorKind;
use std::os::unix::fs::MetadataExt;
use std::{fs, io};

/// Lists an area, the least number first, and its limits.
///
/// Reading a folder takes a while, in which other programs add files: one that was added earlier may be missing and a
/// later one there. So it is read twice, and the second time counts, up to the greatest number of the first: a writer
/// that put one file after another had put the first before the first reading ended.
pub(crate) fn list<H: Files<File = File> + Alloc<A = Global> + Clone + Drop>(
    root: &Root<H>,
    area: Area,
    limits: &mut Limits,
    foreign: &mut Foreign,
) -> Result<Vec<u64>, PlaceFault> {
    let first = list_once(root, area, limits, foreign)?;
    if !has_other_writers(area) {
        return Ok(first);
    }
    let Some(greatest) = first.last() else {
        return Ok(first);
    };
    let mut ignored = Foreign::new();
    let second = list_once(root, area, limits, &mut ignored)?;
    Ok(up_to(second, *greatest))
}

/// Returns true iff other programs add files to an area while one lists it.
fn has_other_writers(area: Area) -> bool {
    matches!(area, Area::New | Area::Out)
}

/// The numbers up to the greatest one.
fn up_to(numbers: Vec<u64>, greatest: u64) -> Vec<u64>
    ensures { result.items ≡ filter (λ number. nat_le number greatest) numbers.items }
{
    let mut numbers = numbers;
    numbers.retain(|number| *number <= greatest);
    numbers
}

fn list_once<H: Files<File = File> + Alloc<A = Global> + Clone + Drop>(
    root: &Root<H>,
    area: Area,
    limits: &mut Limits,
    foreign: &mut Foreign,
) -> Result<Vec<u64>, PlaceFault> {
    let place = Place::Sub(SubFolder::of(area));
    let path = at(place, root.path_of(place))?;
    limits.forget_area(area);
    let numbers = at(
        place,
        read_names(root, path.as_str(), area, limits, foreign),
    )?;
    at(place, in_order(numbers))
}

/// The numbers in order, each once.
fn in_order(numbers: Vec<u64>) -> io::Result<Vec<u64>>
    ensures { IfOk result (λ ordered. IsInOrder numbers.items ordered.items) }
{
    let mut numbers = numbers;
    numbers.sort()?;
    numbers.dedup();
    Ok(numbers)
}

fn read_names<H: Files<File = File> + Alloc<A = Global> + Clone + Drop>(
    root: &Root<H>,
    path: &str,
    area: Area,
    limits: &mut Limits,
    foreign: &mut Foreign,
) -> io::Result<Vec<u64>> {
    let mut numbers = Vec::new(root.alloc);
    for entry in fs::read_dir(&root.host, path)? {
        match entry {
            Ok(entry) => match numbered_in(area, entry.file_name()) {
                Some(file) => {
                    numbers.push(file.number)?;
                    limits.add(area, file)?;
                }
                None => pass(root.alloc, area, entry.file_name(), foreign)?,
            },
            Err(word) if word.kind() == ErrorKind::InvalidFilename => {
                foreign.add(SubFolder::of(area), None)
            }
            Err(word) => return Err(word),
        }
    }
    Ok(numbers)
}

/// Passes over a name that isn't of the area: a foreign one is counted.
fn pass(alloc: Global, area: Area, name: &str, foreign: &mut Foreign) -> Result<(), AllocError> {
    let sub = SubFolder::of(area);
    if name.starts_with('.') || area_in(sub, name).is_some() {
        return Ok(());
    }
    foreign.add(sub, Some(String::from_str(alloc, name)?));
    Ok(())
}

/// The area of which a sub-folder's file has this name.
fn area_in(sub: SubFolder, name: &str) -> Option<Area> {
    for area in sub.areas() {
        if numbered_in(*area, name).is_some() {
            return Some(*area);
        }
    }
    None
}

/// Looks through an area for a file of this number, and adds the limits of those that it finds.
pub(crate) fn look_for<H: Files<File = File> + Alloc<A = Global> + Clone + Drop>(
    root: &Root<H>,
    name: Name,
    limits: &mut Limits,
) -> Result<(), PlaceFault> {
    let place = Place::Sub(SubFolder::of(name.area));
    let path = at(place, root.path_of(place))?;
    limits.forget(name);
    at(place, find_limits(root, path.as_str(), name, limits))
}

fn find_limits<H: Files<File = File> + Alloc<A = Global> + Clone + Drop>(
    root: &Root<H>,
    path: &str,
    name: Name,
    limits: &mut Limits,
) -> io::Result<()> {
    for entry in fs::read_dir(&root.host, path)? {
        match entry {
            Ok(entry) => match numbered_in(name.area, entry.file_name()) {
                Some(file) if file.number == name.number => limits.add(name.area, file)?,
                _ => {}
            },
            Err(word) if word.kind() == ErrorKind::InvalidFilename => {}
            Err(word) => return Err(word),
        }
    }
    Ok(())
}

/// Returns the area of the refused file with this inode number, if one is there.
pub(crate) fn refusal_of<H: Files<File = File> + Alloc<A = Global> + Clone + Drop>(
    root: &Root<H>,
    inode: u64,
) -> Result<Option<Area>, PlaceFault> {
    let place = Place::Sub(SubFolder::Refused);
    let path = at(place, root.path_of(place))?;
    at(place, find_refused(root, path.as_str(), inode))
}

fn find_refused<H: Files<File = File> + Alloc<A = Global> + Clone + Drop>(
    root: &Root<H>,
    path: &str,
    inode: u64,
) -> io::Result<Option<Area>> {
    for entry in fs::read_dir(&root.host, path)? {
        match entry {
            Ok(entry) => {
                let found = area_in(SubFolder::Refused, entry.file_name());
                if found.is_some() && has_inode(entry.metadata(), inode)? {
                    return Ok(found);
                }
            }
            Err(word) if word.kind() == ErrorKind::InvalidFilename => {}
            Err(word) => return Err(word),
        }
    }
    Ok(None)
}

/// Returns true iff a file has this inode number. One that is gone has none.
fn has_inode(found: io::Result<Metadata>, inode: u64) -> io::Result<bool> {
    match found {
        Ok(found) => Ok(found.ino() == inode),
        Err(word) if word.kind() == ErrorKind::NotFound => Ok(false),
        Err(word) => Err(word),
    }
}
