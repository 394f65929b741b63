// Prints the files of a folder that were handed out, and removes them.
ghost use Rattle.std.specs.Prelude.{◌≡◌, ◌-◌, Bool, IfErr, IfOk, OnErr, false, get_or, if◌then◌else◌, is_ok, length};
ghost use Rattle.std.specs.Prelude.{option_map, true};
ghost use Rattle.rly_folder.specs.FolderCalls.{Faulted, Makes, Remove};
ghost use Rattle.rly_folder.specs.FolderModel.{as_file};
ghost use Rattle.rly_folder.specs.Names.{name_of};
ghost use Rattle.rly_folder.specs.declared.name.Area.TheVariants.{Out as OutArea};
ghost use Rattle.rly_folder_clients.specs.Getting.{FailsToOpen, FailsToRead, Finishes, Gets, HandlesOne, HandlesSome};
ghost use Rattle.rly_folder_clients.specs.Getting.{Keeps, Opens, Reads, Removes, StopsAmong, StopsGet, StopsOne, if_done};
ghost use Rattle.rly_folder_clients.specs.Getting.{is_too_long, making_one};
ghost use Rattle.rly_folder_clients.specs.Runs.{Runs};

use crate::form::{Form, print};
use rly_folder::{Area, Folder, FolderFault, FolderFile, Name};
use std::io::Write;

/// Why not all files were printed.
#[derive(Clone, Copy, Debug, PartialEq, Eq, Drop)]
pub enum GetFault {
    /// A call of the folder failed. The last payload that was printed may be printed again.
    Folder,
    /// The output failed. The payload of which it was may be printed again.
    Output,
    /// A file is longer than any payload, and stays. It isn't a station's.
    TooLong,
}

/// The length of the longest file that is read, in bytes.
const LONGEST: usize = 65_536;

/// Prints the files handed out in the order of their numbers, at most so many, and returns how many. Each is removed
/// after its output was flushed and its number is durable in the reader's hidden name, and one whose number isn't above
/// that was printed before and is removed alone. So after a kill or a crash the last payload may be printed again, and
/// nothing else. Only one program may do this with a folder at a time.
pub fn get<F: Folder, W: Write>(
    folder: &mut F,
    out: &mut W,
    form: Form,
    most: u64,
) -> Result<u64, GetFault>
    ensures gets { IfOk result (λ count. Gets F.state form most count (W.contents out.old) (W.contents out.new)
        folder.old folder.new) }
    ensures stops { IfErr result (λ why. StopsGet F.state form why (W.contents out.old) (W.contents out.new)
        folder.old folder.new) }
{
    let Ok(last) = last_printed(folder) else {
        return Err(GetFault::Folder);
    };
    let Ok(numbers) = folder.list(Area::Out) else {
        return Err(GetFault::Folder);
    };
    print_each(folder, out, form, &numbers, last, most)
}

/// The number of the last file that was printed, durably; 0 if there is none.
fn last_printed<F: Folder>(folder: &mut F) -> Result<u64, FolderFault>
    ensures ok { IfOk result (λ last. Opens F.state last folder.old folder.new) }
    ensures err { OnErr result (FailsToOpen F.state folder.old folder.new) }
{
    folder.sync()?;
    let kept = folder.list(Area::Printed)?;
    Ok(last_number(&kept))
}

/// The last of these numbers, 0 if there is none.
fn last_number(numbers: &[u64]) -> u64
    ensures { result ≡ get_or numbers.now (length numbers.now - 1) 0 }
{
    match numbers.last() {
        Some(number) => *number,
        None => 0,
    }
}

/// Handles the files of these numbers in their order, until so many were printed.
fn print_each<F: Folder, W: Write>(
    folder: &mut F,
    out: &mut W,
    form: Form,
    numbers: &[u64],
    first: u64,
    most: u64,
) -> Result<u64, GetFault>
    ensures ok { IfOk result (λ count. HandlesSome F.state form first numbers.now most count
        (W.contents out.old) (W.contents out.new) folder.old folder.new) }
    ensures err { IfErr result (λ why. StopsAmong F.state form first numbers.now why
        (W.contents out.old) (W.contents out.new) folder.old folder.new) }
{
    let mut last = first;
    let mut count = 0;
    for number in numbers {
        if count >= most {
            return Ok(count);
        }
        let is_printed = print_next(folder, out, form, last, *number)?;
        last = number_after(last, *number, is_printed);
        count += one_if(is_printed);
    }
    Ok(count)
}

/// The number of the last file that was printed, after another one.
fn number_after(last: u64, number: u64, is_printed: bool) -> u64
    ensures { result ≡ (if is_printed then number else last) }
{
    if is_printed { number } else { last }
}

fn one_if(is_printed: bool) -> u64
    ensures { result ≡ (if is_printed then 1 else 0) }
{
    u64::from(is_printed)
}

/// Handles the file of a number; returns whether it was printed.
fn print_next<F: Folder, W: Write>(
    folder: &mut F,
    out: &mut W,
    form: Form,
    last: u64,
    number: u64,
) -> Result<bool, GetFault>
    ensures ok { IfOk result (λ is_printed. HandlesOne F.state form last number is_printed
        (W.contents out.old) (W.contents out.new) folder.old folder.new) }
    ensures err { IfErr result (λ why. StopsOne F.state form last number why
        (W.contents out.old) (W.contents out.new) folder.old folder.new) }
{
    if number <= last {
        return remove_old(folder, number);
    }
    let Some(file) = read(folder, number)? else {
        return Ok(false);
    };
    match print(out, form, &file.bytes) {
        Ok(()) => keep_and_remove(folder, last, number),
        Err(_) => Err(GetFault::Output),
    }
}

/// Removes a file that was printed earlier.
fn remove_old<F: Folder>(folder: &mut F, number: u64) -> Result<bool, GetFault>
    ensures ok { IfOk result (λ is_printed. (is_printed ≡ false) × (there : Bool)
        × Makes F.state (Remove (name_of OutArea number)) (if_done there) folder.old folder.new) }
    ensures err { IfErr result (λ why. (why ≡ GetFault.Folder)
        × Makes F.state (Remove (name_of OutArea number)) Faulted folder.old folder.new) }
{
    match remove(folder, number) {
        Ok(_) => Ok(false),
        Err(_) => Err(GetFault::Folder),
    }
}

/// Keeps the number of a file that was printed, durably, and removes it.
fn keep_and_remove<F: Folder>(folder: &mut F, last: u64, number: u64) -> Result<bool, GetFault>
    ensures ok { IfOk result (λ is_printed. (is_printed ≡ true)
        × Finishes F.state last number true folder.old folder.new) }
    ensures err { IfErr result (λ why. (why ≡ GetFault.Folder)
        × Finishes F.state last number false folder.old folder.new) }
{
    match finish(folder, last, number) {
        Ok(()) => Ok(true),
        Err(_) => Err(GetFault::Folder),
    }
}

/// Reads a file as a whole.
fn read<F: Folder>(folder: &mut F, number: u64) -> Result<Option<FolderFile>, GetFault>
    ensures ok { IfOk result (λ found. Reads F.state number (option_map as_file found)
        folder.old folder.new) }
    ensures err { IfErr result (λ why. FailsToRead F.state number why folder.old folder.new) }
{
    let area = Area::Out;
    match folder.read(Name { area, number }, LONGEST + 1) {
        Ok(found) if is_too_long(&found) => Err(GetFault::TooLong),
        Ok(found) => Ok(found),
        Err(_) => Err(GetFault::Folder),
    }
}

fn is_too_long(found: &Option<FolderFile>) -> bool
    ensures { result ≡ is_too_long (option_map as_file found.now) }
{
    match found {
        Some(file) => file.bytes.len() > LONGEST,
        None => false,
    }
}

/// Removes a file, if it is there.
fn remove<F: Folder>(folder: &mut F, number: u64) -> Result<bool, FolderFault>
    ensures { Removes F.state number result folder.old folder.new }
{
    let area = Area::Out;
    folder.remove(Name { area, number })
}

/// Keeps the number of the last file that was printed, durably, and removes the file.
fn finish<F: Folder>(folder: &mut F, last: u64, number: u64) -> Result<(), FolderFault>
    ensures { Finishes F.state last number (is_ok result) folder.old folder.new }
{
    keep(folder, last, number)?;
    remove(folder, number)?;
    Ok(())
}

/// Moves the reader's hidden name from one number to another, durably; makes it if it isn't there.
fn keep<F: Folder>(folder: &mut F, from: u64, to: u64) -> Result<(), FolderFault>
    ensures { Keeps F.state from to (is_ok result) folder.old folder.new }
{
    let area = Area::Printed;
    match folder.rename(Name { area, number: from }, Name { area, number: to }) {
        Ok(true) => folder.sync(),
        Ok(false) => make(folder, to),
        Err(fault) => Err(fault),
    }
}

/// Makes a hidden name of the reader, durably.
fn make<F: Folder>(folder: &mut F, number: u64) -> Result<(), FolderFault>
    ensures { (linked : Bool) × Runs F.state (making_one number linked) (is_ok result) folder.old folder.new }
{
    let area = Area::Printed;
    folder.write(&[], 0)?;
    folder.link(Name { area, number })?;
    folder.sync()
}
