//! The effects of a list of events: laws, functions with an empty body.

ghost use Rattle.std.specs.Prelude.{◌≡◌, ◌++◌, List};
ghost use Rattle.rly_folder.specs.FolderCalls.{Did, FolderEvent, Leads, Makes, Sync, count_of, images_within};
ghost use Rattle.rly_folder.specs.FolderCalls.{is_failed_call};
ghost use Rattle.rly_folder.specs.FolderModel.{Files, LeavesOnly, Settled};
ghost use Rattle.rly_folder.specs.FolderLaws.{HasHad};

use crate::Folder;

/// The events of two lists in order are one list of events.
pub fn law_joined<F: Folder>(old: &F, middle: &F, new: &F)
    ensures { (first second : List FolderEvent) → Leads first (F.state old.now) (F.state middle.now)
        → Leads second (F.state middle.now) (F.state new.now)
        → Leads (first ++ second) (F.state old.now) (F.state new.now) }
{}

/// After a sync that was done no change is pending, whatever was pending before.
pub fn law_settles<F: Folder>(old: &F, new: &F)
    ensures { Makes F.state Sync Did old.now new.now → (F.state old.now).honest → Settled (F.state new.now) }
{}

/// If no change was pending, a crash at any moment of a list of events leaves an image of one of its moments.
pub fn law_any_moment<F: Folder>(old: &F, new: &F)
    ensures { (events : List FolderEvent) → Leads events (F.state old.now) (F.state new.now)
        → Settled (F.state old.now)
        → LeavesOnly (F.state old.now) (F.state new.now)
        (images_within events (F.state old.now).seen (λ image. image ≡ (F.state old.now).seen.files)) }
{}

/// If no call failed either, it leaves under each name the whole of a file that the name had at one of these moments,
/// or none if it had none then.
pub fn law_whole_files<F: Folder>(old: &F, new: &F)
    ensures { (events : List FolderEvent) → Leads events (F.state old.now) (F.state new.now)
        → Settled (F.state old.now) → count_of is_failed_call events ≡ 0
        → LeavesOnly (F.state old.now) (F.state new.now) (HasHad events (F.state old.now).seen) }
{}
