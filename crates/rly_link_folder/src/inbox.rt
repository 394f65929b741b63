// The incoming half of a folder that plays a neighbour.
ghost use Rattle.std.specs.Prelude.{◌≡◌, IfErr, IfOk, IsTrue, None, Ok, OnErr, false, is_ok};
ghost use Rattle.std.specs.Prelude.{option_map, true};
ghost use Rattle.rly_folder.specs.FolderCalls.{Faulted, ListNames, Makes, ReadFile, outcome_if};
ghost use Rattle.rly_folder.specs.FolderModel.{as_file, IsListing};
ghost use Rattle.rly_folder.specs.Names.{name_of};
ghost use Rattle.rly_folder.specs.declared.name.Area.TheVariants.{New, Sent};
ghost use Rattle.rly_link_folder.specs.InboxCalls.{FailsToJoin, FailsToRelease, Joins, Reads, Releases};
ghost use Rattle.rly_link_folder.specs.Inbox.{last_after};

use crate::Admission;
use crate::inbox_calls::{Joined, enter, join, release};
use rly_folder::{Area, Folder, FolderFault, FolderFile, Name};

/// What became of a file of `new/`.
#[derive(Clone, Copy, Debug, PartialEq, Eq, Drop)]
pub enum Entry {
    /// It has this number in `sent/`.
    Numbered(u64),
    /// The station would refuse it for good: it is in this area of `refused/`.
    Refused(Area),
    /// It wasn't there.
    Gone,
}

/// Plays the neighbour station of a peer: the files of the folder become Data for the station.
#[derive(Drop)]
pub struct Inbox<F> {
    folder: F,
    custody: u64,
    last: u64,
}

/// Why a folder didn't open, and the folder.
#[derive(Drop)]
pub enum NotOpen<F> {
    /// A call failed.
    Failed(F),
    /// The files of `sent/` don't go on from the station's last number: one of the two is new, or an old copy.
    Apart(F),
}

impl<F: Folder> Inbox<F> {
    ghost use Rattle.rly_link_folder.specs.Inbox.{Enters, FailsToEnter, HasNumbers, IsNotOpen, IsToGive, IsToRelease};
    ghost use Rattle.rly_link_folder.specs.Inbox.{custody_of, inbox_folder, last_of};

    /// Opens a folder for a station whose last number is `custody`.
    pub fn open(folder: F, custody: u64) -> Result<Self, NotOpen<F>>
        ensures opens { IfOk result
            (λ inbox. Joins F.state custody (Joined.To (last_of inbox)) folder (inbox_folder inbox)) }
        ensures custody { IfOk result (λ inbox. custody_of inbox ≡ custody) }
        ensures fails { IfErr result (λ left. IsNotOpen F.state custody left folder) }
    {
        let mut inbox = Inbox::closed(folder);
        match inbox.open_again(custody) {
            Ok(Joined::To(_)) => Ok(inbox),
            Ok(Joined::Apart { .. }) => Err(NotOpen::Apart(inbox.into_folder())),
            Err(_) => Err(NotOpen::Failed(inbox.into_folder())),
        }
    }

    /// One that isn't open yet, in which no file has a number.
    pub(crate) fn closed(folder: F) -> Self
        ensures folder { inbox_folder result ≡ folder }
        ensures custody { custody_of result ≡ 0 }
        ensures last { last_of result ≡ 0 }
    {
        Inbox {
            folder,
            custody: 0,
            last: 0,
        }
    }

    /// Opens it in place, as `open` does. If `sent/` doesn't go on from the station's number it is as open as before, and
    /// after an `Err` too.
    pub(crate) fn open_again(&mut self, custody: u64) -> Result<Joined, FolderFault>
        ensures joins { IfOk result
            (λ joined. Joins F.state custody joined (inbox_folder self.old) (inbox_folder self.new)) }
        ensures numbers { IfOk result (λ joined. HasNumbers custody joined self.old self.new) }
        ensures fails { OnErr result (FailsToJoin F.state (inbox_folder self.old) (inbox_folder self.new)) }
        ensures unchanged { OnErr result ((custody_of self.new ≡ custody_of self.old) × (last_of self.new ≡ last_of self.old)) }
    {
        match join(&mut self.folder, custody) {
            Ok(Joined::To(last)) => {
                self.custody = custody;
                self.last = last;
                Ok(Joined::To(last))
            }
            Ok(Joined::Apart { least, greatest }) => Ok(Joined::Apart { least, greatest }),
            Err(fault) => Err(fault),
        }
    }

    /// Returns the folder.
    pub(crate) fn folder(&self) -> &F
        ensures { result.now ≡ inbox_folder self.now }
    {
        &self.folder
    }

    /// Returns the station's number.
    pub fn custody(&self) -> u64
        ensures { result ≡ custody_of self.now }
    {
        self.custody
    }

    /// Returns the last number that a file has durably, the station's if no file has one.
    pub fn last(&self) -> u64
        ensures { result ≡ last_of self.now }
    {
        self.last
    }

    /// Lists the files of `new/`, the oldest first.
    pub fn waiting(&mut self) -> Result<Vec<u64>, FolderFault>
        ensures trace { Makes F.state (ListNames New) (outcome_if (is_ok result))
            (inbox_folder self.old) (inbox_folder self.new) }
        ensures names { (F.state (inbox_folder self.old)).honest → IfOk result
            (λ numbers. IsListing New (F.state (inbox_folder self.new)).seen.files numbers.items) }
        ensures custody { custody_of self.new ≡ custody_of self.old }
        ensures last { last_of self.new ≡ last_of self.old }
    {
        self.folder.list(Area::New)
    }

    /// Gives a file of `new/` the next number of `sent/`, durably, or moves it to `refused/` if the station would refuse
    /// it for good. After a call that failed the file may have its new name or not: the folder comes back, to be opened
    /// again.
    pub fn enter(self, place: u64, rules: &Admission) -> Result<(Self, Entry), F>
        ensures enters { IfOk result (λ entered. Enters F.state rules.now (last_of self) place entered.1
            (inbox_folder self) (inbox_folder entered.0)) }
        ensures last { IfOk result (λ entered. last_of entered.0 ≡ last_after (last_of self) entered.1) }
        ensures custody { IfOk result (λ entered. custody_of entered.0 ≡ custody_of self) }
        ensures fails { IfErr result (λ left. FailsToEnter F.state rules.now (last_of self) place
            (inbox_folder self) left) }
    {
        let mut inbox = self;
        match inbox.enter_in_place(place, rules) {
            Ok(entry) => Ok((inbox, entry)),
            Err(_) => Err(inbox.into_folder()),
        }
    }

    /// Does the same in place. After an `Err` it has to be opened again before the next file.
    pub(crate) fn enter_in_place(
        &mut self,
        place: u64,
        rules: &Admission,
    ) -> Result<Entry, FolderFault>
        ensures enters { IfOk result (λ entry. Enters F.state rules.now (last_of self.old) place entry
            (inbox_folder self.old) (inbox_folder self.new)) }
        ensures last { IfOk result (λ entry. last_of self.new ≡ last_after (last_of self.old) entry) }
        ensures custody { custody_of self.new ≡ custody_of self.old }
        ensures fails { OnErr result (FailsToEnter F.state rules.now (last_of self.old) place
            (inbox_folder self.old) (inbox_folder self.new)) }
        ensures unchanged { OnErr result (last_of self.new ≡ last_of self.old) }
    {
        match enter(&mut self.folder, rules, self.last, place) {
            Ok(entry) => {
                self.last = last_after(self.last, entry);
                Ok(entry)
            }
            Err(fault) => Err(fault),
        }
    }

    /// Returns the first `most` bytes of the file of a number, and its limit, for the Data of that number: only of a number that is durable
    /// and above the station's, else `None` without a call.
    pub fn give(&mut self, number: u64, most: usize) -> Result<Option<FolderFile>, FolderFault>
        ensures file { IsToGive self.old number → IfOk result
            (λ found. Reads F.state (name_of Sent number) most (option_map as_file found)
            (inbox_folder self.old) (inbox_folder self.new)) }
        ensures err { OnErr result (Makes F.state (ReadFile (name_of Sent number)) Faulted
            (inbox_folder self.old) (inbox_folder self.new)) }
        ensures nothing { ¬ IsToGive self.old number → result ≡ Ok None }
        ensures untouched { ¬ IsToGive self.old number → self.new ≡ self.old }
        ensures custody { custody_of self.new ≡ custody_of self.old }
        ensures last { last_of self.new ≡ last_of self.old }
    {
        if number <= self.custody || number > self.last {
            return Ok(None);
        }
        let area = Area::Sent;
        self.folder.read(Name { area, number }, most)
    }

    /// Handles a Custody: removes the files of `sent/` up to this number and nothing else. Returns false, and does
    /// nothing, if it isn't a number from the station's last one on to the last that a file has.
    pub fn release(&mut self, custody: u64) -> Result<bool, FolderFault>
        ensures removes { IsToRelease self.old custody → IfOk result (λ removed. IsTrue removed
            × Releases F.state custody true (inbox_folder self.old) (inbox_folder self.new)) }
        ensures err { OnErr result (IsToRelease self.old custody
            × FailsToRelease F.state custody (inbox_folder self.old) (inbox_folder self.new)) }
        ensures nothing { ¬ IsToRelease self.old custody → result ≡ Ok false }
        ensures untouched { ¬ IsToRelease self.old custody → self.new ≡ self.old }
        ensures custody { IsToRelease self.old custody → custody_of self.new ≡ custody }
        ensures last { last_of self.new ≡ last_of self.old }
    {
        if custody < self.custody || custody > self.last {
            return Ok(false);
        }
        self.custody = custody;
        release(&mut self.folder, custody)?;
        Ok(true)
    }

    /// Returns the folder.
    pub fn into_folder(self) -> F
        ensures { result ≡ inbox_folder self }
    {
        let Inbox {
            folder,
            custody: _,
            last: _,
        } = self;
        folder
    }
}

// The last number after what became of a file.
fn last_after(last: u64, entry: Entry) -> u64
    ensures { result ≡ last_after last entry }
{
    match entry {
        Entry::Numbered(number) => number,
        Entry::Refused(_) | Entry::Gone => last,
    }
}
