//! The effects of a reader's calls on the files, and on those that a crash leaves: laws, functions
//! with an empty body.

ghost use Rattle.std.specs.Prelude.{◌≡◌, ◌⊎◌, ◌≤◌, ◌<◌, Bool, List, Option, take, ℕ};
ghost use Rattle.rly_folder.specs.FolderModel.{File, LeavesOnly};
ghost use Rattle.rly_folder.specs.declared.name.Name.{Name as AName};
ghost use Rattle.rly_folder_clients.specs.Getting.{Begins, Handles, HandlesEach, Opens, StopsAt, last_after};
ghost use Rattle.rly_folder_clients.specs.Holding.{Holds, Stays};
ghost use Rattle.rly_folder_clients.specs.Reading.{Advances, IsPrintedUpTo, OpensToPrinted, OthersInBegins, OthersInEach, OthersInHandle};
ghost use Rattle.rly_folder_clients.specs.Reading.{OthersInOpens, OthersInStop, Spares, Unread, UnreadFrom};
ghost use Rattle.rly_folder_clients.specs.declared.getting.GetFault.{GetFault as AFault};

use rly_folder::Folder;

/// If files open to one number or another, as those that a reader's crash left do, a reader opens to one of the two, and
/// then no crash takes that back.
pub fn law_reader_opens<F: Folder>(old: &F, new: &F)
    ensures { (waits : ℕ → Option File) (given : AName → Option File → Bool) (low high last : ℕ)
        → Spares waits given → (opens : Opens F.state last old.now new.now) → OthersInOpens given opens
        → Holds (UnreadFrom waits low high) (F.state old.now)
        → ((last ≡ low) ⊎ (last ≡ high)) × Advances waits low high last (F.state old.now) (F.state new.now) }
{}

/// While a file is printed and removed, a crash at any moment leaves the number of the last file before it, or its own;
/// and then its own. A file that isn't printed leaves the last number.
pub fn law_file_is_printed<F: Folder>(old: &F, new: &F)
    ensures { (waits : ℕ → Option File) (given : AName → Option File → Bool) (last number : ℕ)
        (printed : Option File) → Spares waits given
        → (handles : Handles F.state last number printed old.now new.now) → OthersInHandle given handles
        → Holds (Unread waits last) (F.state old.now)
        → Advances waits last (last_after last number printed) (last_after last number printed)
        (F.state old.now) (F.state new.now) }
{}

/// While it isn't handled to its end, a crash leaves either too.
pub fn law_file_stops<F: Folder>(old: &F, new: &F)
    ensures { (waits : ℕ → Option File) (given : AName → Option File → Bool) (last number : ℕ) (why : AFault)
        (printed : Option File) → Spares waits given
        → (stops : StopsAt F.state last number why printed old.now new.now) → OthersInStop given stops
        → Holds (Unread waits last) (F.state old.now)
        → Stays (UnreadFrom waits last number) (F.state old.now) (F.state new.now) }
{}

/// So each file that waits is printed, or still there: none is lost, also by a crash at any moment of all that.
pub fn law_files_are_printed<F: Folder>(old: &F, listed: &F, new: &F)
    ensures { (waits : ℕ → Option File) (given : AName → Option File → Bool) (low high first last done : ℕ)
        (numbers : List ℕ) (printed : List File) → Spares waits given
        → (begins : Begins F.state first numbers old.now listed.now) → OthersInBegins given begins
        → (each : HandlesEach F.state first (take done numbers) printed last listed.now new.now)
        → OthersInEach F.state given first (take done numbers) printed last listed.now new.now each
        → Holds (UnreadFrom waits low high) (F.state old.now)
        → Holds (Unread waits last) (F.state new.now) × IsPrintedUpTo waits printed first last
        × LeavesOnly (F.state old.now) (F.state new.now) (OpensToPrinted waits printed low high first) }
{}
