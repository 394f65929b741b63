//! The calls that give a file its name, keep the greatest number, and find it.

ghost use Rattle.std.specs.Prelude.{◌≡◌, ◌-◌, ◌<◌, ◌^◌, Bool, IfOk, OnErr, OnOk, false, get_or, is_ok, length, true};
ghost use Rattle.rly_folder.specs.FolderModel.{file_with};
ghost use Rattle.rly_folder.specs.FolderCalls.{Faulted, ListNames, Makes};
ghost use Rattle.rly_folder.specs.declared.name.Area.TheVariants.{Out};
ghost use Rattle.rly_link_folder.specs.OutboxCalls.{FailsToList, FailsToOpen, Finds, HandsOut, HasRoom, Keeps, Opens, putting};
ghost use Rattle.rly_link_folder.specs.Script.{MakesEach};

use rly_folder::{Area, Folder, FolderFault, Name};

/// Writes a file and gives it a name, durably. A file that has the name stays.
fn put<F: Folder>(folder: &mut F, bytes: &[u8], limit: u64, to: Name) -> Result<(), FolderFault>
    requires { limit < 2 ^ 40 }
    ensures { (linked : Bool) × MakesEach F.state (putting (file_with bytes.now limit) to linked) (is_ok result)
        folder.old folder.new }
{
    folder.write(bytes, limit)?;
    folder.link(to)?;
    folder.sync()
}

/// Moves the hidden name from one greatest number to another, durably; makes it if it isn't there.
fn keep<F: Folder>(folder: &mut F, from: u64, to: u64) -> Result<(), FolderFault>
    ensures { Keeps F.state from to (is_ok result) folder.old folder.new }
{
    let area = Area::Kept;
    match folder.rename(Name { area, number: from }, Name { area, number: to }) {
        Ok(true) => folder.sync(),
        Ok(false) => put(folder, &[], 0, Name { area, number: to }),
        Err(fault) => Err(fault),
    }
}

/// Makes a datagram with its limit the file of its number, durably, and then that number the greatest, durably.
pub(crate) fn hand_out<F: Folder>(
    folder: &mut F,
    greatest: u64,
    number: u64,
    limit: u64,
    payload: &[u8],
) -> Result<(), FolderFault>
    requires { limit < 2 ^ 40 }
    ensures { HandsOut F.state greatest number (file_with payload.now limit) (is_ok result) folder.old folder.new }
{
    let area = Area::Out;
    put(folder, payload, limit, Name { area, number })?;
    keep(folder, greatest, number)
}

/// Returns how many files may be added until `most` are handed out: as many as are left of the last listing, `spare`, or,
/// once none is, by a new one.
pub(crate) fn room_in<F: Folder>(folder: &mut F, most: u64, spare: u64) -> Result<u64, FolderFault>
    ensures ok { IfOk result (λ left. HasRoom F.state most spare left folder.old folder.new) }
    ensures err { OnErr result (FailsToList F.state spare folder.old folder.new) }
{
    if spare > 0 {
        return Ok(spare);
    }
    let numbers = folder.list(Area::Out)?;
    Ok(most.saturating_sub(numbers.len() as u64))
}

/// The last of these numbers, 0 if there is none.
pub(crate) fn last_number(numbers: &[u64]) -> u64
    ensures { result ≡ get_or numbers.now (length numbers.now - 1) 0 }
{
    match numbers.last() {
        Some(number) => *number,
        None => 0,
    }
}

/// Lists an area, and returns its greatest number, 0 if it has no file.
pub(crate) fn greatest_in<F: Folder>(folder: &mut F, area: Area) -> Result<u64, FolderFault>
    ensures ok { IfOk result (λ greatest. Finds F.state area greatest folder.old folder.new) }
    ensures err { OnErr result (Makes F.state (ListNames area) Faulted folder.old folder.new) }
{
    let numbers = folder.list(area)?;
    Ok(last_number(&numbers))
}

/// Finds the greatest number that was handed out, and keeps it durably.
pub(crate) fn recover<F: Folder>(folder: &mut F) -> Result<u64, FolderFault>
    ensures ok { IfOk result (λ greatest. Opens F.state greatest folder.old folder.new) }
    ensures err { OnErr result (FailsToOpen F.state folder.old folder.new) }
{
    folder.sync()?;
    let handed = greatest_in(folder, Area::Out)?;
    let kept = greatest_in(folder, Area::Kept)?;
    if handed <= kept {
        return Ok(kept);
    }
    keep(folder, kept, handed)?;
    Ok(handed)
}
