//! The calls that give files numbers, read them, and remove them.

ghost use Rattle.std.specs.Prelude.{◌≡◌, ◌==◌, ◌&&◌, ◌||◌, ◌+◌, ◌-◌, ◌∷◌, [], IfOk, OnErr, OnOk, is_ok, length, nat_le};
ghost use Rattle.std.specs.Prelude.{◌≤◌, IsTrue, nat_lt, slice_index, true};
ghost use Rattle.std.specs.List.Sorted.{IsStrictlyIncreasing};
ghost use Rattle.rly_folder.specs.FolderCalls.{Faulted, Makes, ReadFile};
ghost use Rattle.rly_folder.specs.Names.{name_of};
ghost use Rattle.rly_folder.specs.declared.name.Area.TheVariants.{New};
ghost use Rattle.rly_link_folder.specs.Inbox.{Enters, FailsToEnter, IsJudged};
ghost use Rattle.rly_link_folder.specs.InboxCalls.{FailsToJoin, FailsToMove, FailsToRefuse, FailsToRelease};
ghost use Rattle.rly_link_folder.specs.InboxCalls.{GoesOnTo, IsNotBelow, Joins, Moves, Refuses, Releases, Removes, RemovesTo};

use crate::calls::{greatest_in, last_number};
use crate::{Admission, Entry};
use rly_folder::{Area, Folder, FolderFault, Name};

/// Renames a file to the next number of an area, durably. Returns that number, or `None` if the file isn't there.
fn renumber<F: Folder>(
    folder: &mut F,
    from: Name,
    area: Area,
    greatest: u64,
) -> Result<Option<u64>, FolderFault>
    ensures ok { IfOk result (λ number. Moves F.state from area greatest number folder.old folder.new) }
    ensures err { OnErr result (FailsToMove F.state from area greatest folder.old folder.new) }
{
    if greatest == u64::MAX {
        return Err(FolderFault);
    }
    let number = greatest + 1;
    if folder.rename(from, Name { area, number })? {
        folder.sync()?;
        Ok(Some(number))
    } else {
        Ok(None)
    }
}

/// Moves a refused file to the next number of its area. Returns that number, or `None` if the file isn't there.
fn refuse<F: Folder>(folder: &mut F, from: Name, area: Area) -> Result<Option<u64>, FolderFault>
    ensures ok { IfOk result (λ number. Refuses F.state from area number folder.old folder.new) }
    ensures err { OnErr result (FailsToRefuse F.state from area folder.old folder.new) }
{
    let greatest = greatest_in(folder, area)?;
    let number = renumber(folder, from, area, greatest)?;
    Ok(number)
}

/// What a file of `new/` is to a station.
#[derive(Clone, Copy, Drop)]
pub(crate) enum Judged {
    Gone,
    Fits,
    Refused(Area),
}

/// Reads a file of `new/`, and judges it.
fn judge<F: Folder>(folder: &mut F, rules: &Admission, place: u64) -> Result<Judged, FolderFault>
    ensures ok { IfOk result (λ judged. IsJudged F.state rules.now place judged folder.old folder.new) }
    ensures err { OnErr result (Makes F.state (ReadFile (name_of New place)) Faulted folder.old folder.new) }
{
    let name = Name {
        area: Area::New,
        number: place,
    };
    match folder.read(name, rules.bytes_to_read())? {
        None => Ok(Judged::Gone),
        Some(found) => match rules.reason(&found.bytes) {
            None => Ok(Judged::Fits),
            Some(area) => Ok(Judged::Refused(area)),
        },
    }
}

/// Reads a file of `new/`, and gives it the next number or moves it to `refused/`.
pub(crate) fn enter<F: Folder>(
    folder: &mut F,
    rules: &Admission,
    last: u64,
    place: u64,
) -> Result<Entry, FolderFault>
    ensures ok { IfOk result (λ entry. Enters F.state rules.now last place entry folder.old folder.new) }
    ensures err { OnErr result (FailsToEnter F.state rules.now last place folder.old folder.new) }
{
    let from = Name {
        area: Area::New,
        number: place,
    };
    match judge(folder, rules, place)? {
        Judged::Gone => Ok(Entry::Gone),
        Judged::Fits => match renumber(folder, from, Area::Sent, last)? {
            Some(number) => Ok(Entry::Numbered(number)),
            None => Ok(Entry::Gone),
        },
        Judged::Refused(area) => match refuse(folder, from, area)? {
            Some(_) => Ok(Entry::Refused(area)),
            None => Ok(Entry::Gone),
        },
    }
}

/// Returns whether the numbers above the station's, up to the greatest, are all there.
fn goes_on(numbers: &[u64], custody: u64, greatest: u64) -> bool
    ensures within { IsTrue result → custody ≤ greatest }
    ensures test { result ≡ ((custody == greatest) || (nat_lt custody greatest
        && nat_le (greatest - custody) (length numbers.now)
        && (slice_index numbers.now (length numbers.now - (greatest - custody)) == custody + 1))) }
{
    if custody >= greatest {
        return custody == greatest;
    }
    let (count, length) = (greatest - custody, numbers.len() as u64);
    count <= length && numbers[(length - count) as usize] == custody + 1
}

/// What the numbers of `sent/` are to the station's last one.
#[derive(Clone, Copy, Drop)]
pub(crate) enum Joined {
    /// They go on from it, to this one: if there are none, to itself.
    To(u64),
    /// They don't: the least and the greatest of them.
    Apart { least: u64, greatest: u64 },
}

/// Returns what the numbers of `sent/` are to the station's.
fn joined_to(numbers: &[u64], custody: u64) -> Joined
    ensures goes_on { IsStrictlyIncreasing numbers.now → GoesOnTo custody result numbers.now }
    ensures within { IsNotBelow custody result }
{
    if numbers.is_empty() {
        return Joined::To(custody);
    }
    let (least, greatest) = (numbers[0], last_number(numbers));
    if goes_on(numbers, custody, greatest) {
        Joined::To(greatest)
    } else {
        Joined::Apart { least, greatest }
    }
}

/// Lists `sent/` after a sync, and returns what its numbers are to the station's.
pub(crate) fn join<F: Folder>(folder: &mut F, custody: u64) -> Result<Joined, FolderFault>
    ensures ok { IfOk result (λ joined. Joins F.state custody joined folder.old folder.new) }
    ensures within { IfOk result (λ joined. IsNotBelow custody joined) }
    ensures err { OnErr result (FailsToJoin F.state folder.old folder.new) }
{
    folder.sync()?;
    let numbers = folder.list(Area::Sent)?;
    Ok(joined_to(&numbers, custody))
}

/// Removes the file of a number, if it is below the station's.
fn remove_if_below<F: Folder>(folder: &mut F, number: u64, custody: u64) -> Result<(), FolderFault>
    ensures { Removes F.state custody (number ∷ []) (is_ok result) folder.old folder.new }
{
    if number >= custody {
        return Ok(());
    }
    let area = Area::Sent;
    folder.remove(Name { area, number })?;
    Ok(())
}

/// Removes the files of these numbers that are below the station's.
fn remove_below<F: Folder>(folder: &mut F, numbers: &[u64], custody: u64) -> Result<(), FolderFault>
    ensures { Removes F.state custody numbers.now (is_ok result) folder.old folder.new }
{
    for number in numbers {
        remove_if_below(folder, *number, custody)?;
    }
    Ok(())
}

/// Removes the files of `sent/` up to the station's number, that number's last and after a sync.
fn remove_up_to<F: Folder>(folder: &mut F, numbers: &[u64], custody: u64) -> Result<(), FolderFault>
    ensures { RemovesTo F.state custody numbers.now (is_ok result) folder.old folder.new }
{
    remove_below(folder, numbers, custody)?;
    folder.sync()?;
    let (area, number) = (Area::Sent, custody);
    folder.remove(Name { area, number })?;
    Ok(())
}

/// Lists `sent/` and removes its files up to the station's number.
pub(crate) fn release<F: Folder>(folder: &mut F, custody: u64) -> Result<(), FolderFault>
    ensures ok { OnOk result (Releases F.state custody true folder.old folder.new) }
    ensures err { OnErr result (FailsToRelease F.state custody folder.old folder.new) }
{
    let numbers = folder.list(Area::Sent)?;
    match remove_up_to(folder, &numbers, custody) {
        Ok(()) => Ok(()),
        Err(fault) => Err(fault),
    }
}
