// Puts a file into a folder.
ghost use Rattle.std.specs.Prelude.{◌≡◌, ◌≤◌, ◌<◌, ◌+◌, ◌^◌, ℕ, IfErr, IfOk, IfSome, None, true};
ghost use Rattle.rly_folder.specs.FolderCalls.{Did};
ghost use Rattle.rly_folder.specs.FolderModel.{file_with};
ghost use Rattle.rly_folder_clients.specs.Putting.{FailsToLink, FailsToName, FailsToPut, HadRoom, Links, Names, Puts};
ghost use Rattle.rly_folder_clients.specs.Putting.{number_after};

use rly_folder::{Area, Folder, Name};

/// Why a file wasn't put, or may not be durable.
#[derive(Clone, Copy, Debug, PartialEq, Eq, Drop)]
pub enum PutFault {
    /// As many files wait already. Nothing was put.
    Full,
    /// Other writers took each number that was tried. Nothing was put.
    Taken,
    /// A file has the greatest number that there is. Nothing was put.
    NoNumber,
    /// A call of the folder failed. The file is there once, or not at all.
    Folder,
}

/// The number of names that a put tries, one after another, since other writers took the first ones.
const TRIES: u32 = 1_000;

/// Puts a file into a folder, durably, with an age limit in microseconds if that isn't 0, and returns its number among
/// the new files. It has the first free number that is
/// above the greatest one and not below `now`, the clock in microseconds since 1970: so the name of a file that has left
/// `new/` doesn't return, while clocks go forward. Refuses if `most` new files wait.
pub fn put<F: Folder>(
    folder: &mut F,
    bytes: &[u8],
    limit: u64,
    most: u64,
    now: u64,
) -> Result<u64, PutFault>
    requires { limit < 2 ^ 40 }
    ensures puts { IfOk result (λ number. Puts F.state (file_with bytes.now limit) now number true
        folder.old folder.new) }
    ensures room { IfOk result (λ _. HadRoom F.state most folder.old) }
    ensures clock { IfOk result (λ number. now ≤ number) }
    ensures fails { IfErr result (λ fault. FailsToPut F.state (file_with bytes.now limit) most now fault
        folder.old folder.new) }
{
    let Ok(numbers) = folder.list(Area::New) else {
        return Err(PutFault::Folder);
    };
    if (numbers.len() as u64) >= most {
        return Err(PutFault::Full);
    }
    let Some(next) = next_number(&numbers) else {
        return Err(PutFault::NoNumber);
    };
    let number = name_file(folder, bytes, limit, next.max(now))?;
    match folder.sync() {
        Ok(()) => Ok(number),
        Err(_) => Err(PutFault::Folder),
    }
}

/// The number after the greatest of some numbers in order, if there is one.
fn next_number(numbers: &[u64]) -> Option<u64>
    ensures some { IfSome result (λ number. number ≡ number_after numbers.now) }
    ensures none { result ≡ None → 2 ^ 64 ≤ number_after numbers.now }
{
    match numbers.last() {
        Some(number) => number.checked_add(1),
        None => Some(1),
    }
}

/// Writes a file and gives it the first free number from one on.
fn name_file<F: Folder>(
    folder: &mut F,
    bytes: &[u8],
    limit: u64,
    first: u64,
) -> Result<u64, PutFault>
    requires { limit < 2 ^ 40 }
    ensures ok { IfOk result (λ number. (more : ℕ) × (number ≡ first + more)
        × Names F.state (file_with bytes.now limit) first more Did folder.old folder.new) }
    ensures err { IfErr result (λ fault. FailsToName F.state (file_with bytes.now limit) first fault folder.old folder.new) }
{
    match folder.write(bytes, limit) {
        Ok(()) => link_free(folder, first, TRIES),
        Err(_) => Err(PutFault::Folder),
    }
}

/// Gives the hidden file the first free number from one on, of so many.
fn link_free<F: Folder>(folder: &mut F, number: u64, tries: u32) -> Result<u64, PutFault>
    ensures ok { IfOk result (λ found. (more : ℕ) × (found ≡ number + more)
        × Links F.state number more Did folder.old folder.new) }
    ensures err { IfErr result (λ fault. FailsToLink F.state number fault folder.old folder.new) }
{
    if tries == 0 {
        return Err(PutFault::Taken);
    }
    match folder.link(Name {
        area: Area::New,
        number,
    }) {
        Ok(true) => Ok(number),
        Ok(false) => match number.checked_add(1) {
            Some(next) => link_free(folder, next, tries - 1),
            None => Err(PutFault::Taken),
        },
        Err(_) => Err(PutFault::Folder),
    }
}
