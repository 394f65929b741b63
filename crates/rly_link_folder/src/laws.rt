//! The effects of an outbox's calls on the files, and on those that a crash leaves: laws, functions
//! with an empty body.

ghost use Rattle.std.specs.Prelude.{◌≤◌, ◌+◌, Bool, if◌then◌else◌, ℕ};
ghost use Rattle.rly_folder.specs.FolderCalls.{ListNames, Makes, Outcome};
ghost use Rattle.rly_folder.specs.FolderModel.{File, Files};
ghost use Rattle.rly_folder.specs.declared.name.Area.{Area as AnArea};
ghost use Rattle.rly_link_folder.specs.Handing.{HandedOut, Holds, IsGreatest, OnlyReaders, Serves};
ghost use Rattle.rly_link_folder.specs.OutboxCalls.{HandsOut};

use rly_folder::Folder;

/// If other programs only remove files handed out, a crash at any moment of the calls for the next Data leaves each
/// datagram up to the greatest number as a whole file, unless a reader took it, and a name that has this number or the
/// next. If no call failed the next number is the greatest. Else the same Data may come again.
pub fn law_hands_out<F: Folder>(old: &F, new: &F)
    ensures { (datagrams : ℕ → File) (read : ℕ → Bool) (greatest : ℕ) (whole : Bool)
        → (calls : HandsOut F.state greatest (greatest + 1) (datagrams (greatest + 1)) whole old.now new.now)
        → OnlyReaders read calls.makes.events → Holds datagrams read greatest (F.state old.now)
        → Serves datagrams read greatest (if whole then greatest + 1 else greatest) (F.state old.now) (F.state new.now) }
{}

/// A list leaves all that.
pub fn law_lists<F: Folder>(old: &F, new: &F)
    ensures { (datagrams : ℕ → File) (read : ℕ → Bool) (greatest : ℕ) (area : AnArea) (outcome : Outcome)
        → (calls : Makes F.state (ListNames area) outcome old.now new.now)
        → OnlyReaders read calls.events → Holds datagrams read greatest (F.state old.now)
        → Serves datagrams read greatest greatest (F.state old.now) (F.state new.now) }
{}

/// Such files open to the greatest number whose Custody was answered, or to the next.
pub fn law_opens_to()
    ensures { (datagrams : ℕ → File) (read : ℕ → Bool) (greatest number : ℕ) (files : Files)
        → HandedOut datagrams read greatest files → IsGreatest files number
        → (greatest ≤ number) × (number ≤ greatest + 1) }
{}
