//! The effects of an inbox's calls on the files that were put in, and on those that a crash leaves:
//! laws, functions with an empty body.

ghost use Rattle.std.specs.Prelude.{◌≡◌, ◌≤◌, ◌+◌, Bool, false, List, Some, ℕ};
ghost use Rattle.rly_folder.specs.Names.{name_of};
ghost use Rattle.rly_folder.specs.declared.name.Area.TheVariants.{New, Sent};
ghost use Rattle.rly_link_folder.specs.InboxCalls.{RemovesTo, renaming};
ghost use Rattle.rly_link_folder.specs.Incoming.{Frees, Keeps, Ledger, Moved, OnlyWriters, placed};
ghost use Rattle.rly_link_folder.specs.Script.{MakesEach};

use rly_folder::Folder;

/// If other programs only put files, a crash at any moment of the calls that give a file of `new/` the next number
/// leaves every file once under its name, that file under one of the two. If no call failed it has the number, and no
/// other file ever has that.
pub fn law_numbers<F: Folder>(old: &F, new: &F)
    ensures { (ledger : Ledger) (puts : ℕ → Bool) (custody last i place : ℕ) (whole : Bool)
        → (calls : MakesEach F.state (renaming (name_of New place) (name_of Sent (last + 1))) whole old.now new.now)
        → OnlyWriters ledger puts calls.events → puts i ≡ false → ledger.place i ≡ Some (name_of New place)
        → Keeps custody last ledger (F.state old.now)
        → Moved custody (last + 1) ledger (placed i (name_of Sent (last + 1)) ledger) whole
        (F.state old.now) (F.state new.now) }
{}

/// A crash at any moment of the calls for a Custody leaves every file above its number once under its name, and no file
/// twice.
pub fn law_releases<F: Folder>(old: &F, new: &F)
    ensures { (ledger : Ledger) (puts : ℕ → Bool) (before custody last : ℕ) (numbers : List ℕ) (whole : Bool)
        → (calls : RemovesTo F.state custody numbers whole old.now new.now)
        → OnlyWriters ledger puts calls.makes.events → before ≤ custody → custody ≤ last
        → Keeps before last ledger (F.state old.now)
        → Frees custody last ledger (F.state old.now) (F.state new.now) }
{}
