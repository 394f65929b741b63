//! The effects of a put on the files, and on those that a crash leaves: laws, functions with an
//! empty body.

ghost use Rattle.std.specs.Prelude.{◌≡◌, Bool, Option, Some, true, ℕ};
ghost use Rattle.rly_folder.specs.FolderModel.{File, Settled};
ghost use Rattle.rly_folder.specs.Names.{name_of};
ghost use Rattle.rly_folder.specs.declared.name.Area.TheVariants.{New as NewArea};
ghost use Rattle.rly_folder.specs.declared.name.Name.{Name as AName};
ghost use Rattle.rly_folder_clients.specs.Holding.{HasOnly, HasOnlyOr, Holds, Stays};
ghost use Rattle.rly_folder_clients.specs.Putting.{Puts, StopsPut};
ghost use Rattle.rly_folder_clients.specs.Runs.{OthersGive};
ghost use Rattle.rly_folder_clients.specs.Writers.{OthersInPut, OthersInStop, leaves};

use rly_folder::Folder;

/// A put that ended is durable: no change is pending, and its file is there under its number, unless another program
/// changed that name since.
pub fn law_put_is_durable<F: Folder>(old: &F, new: &F)
    ensures { (file : File) (now number : ℕ)
        → (puts : Puts F.state file now number true old.now new.now)
        → OthersGive (leaves (name_of NewArea number)) puts.syncs.events → (F.state old.now).honest
        → Settled (F.state new.now)
        × ((F.state new.now).seen.files (name_of NewArea number) ≡ Some file) }
{}

/// A crash at any moment of a put leaves its file under that one number, or not at all. Each other name has a file that
/// it had or that another program gave it: whatever holds of all these holds of what is left.
pub fn law_put_is_there_once<F: Folder>(old: &F, new: &F)
    ensures { (given : AName → Option File → Bool) (file : File) (now number : ℕ) (durable : Bool)
        → (puts : Puts F.state file now number durable old.now new.now) → OthersInPut given puts
        → Holds (HasOnly given) (F.state old.now)
        → Stays (HasOnlyOr given (name_of NewArea number) file) (F.state old.now) (F.state new.now) }
{}

/// So does one of a put that failed.
pub fn law_failed_put_is_there_once<F: Folder>(old: &F, new: &F)
    ensures { (given : AName → Option File → Bool) (file : File) (now : ℕ)
        → (stops : StopsPut F.state file now old.now new.now) → OthersInStop given stops
        → Holds (HasOnly given) (F.state old.now)
        → (number : ℕ) × Stays (HasOnlyOr given (name_of NewArea number) file) (F.state old.now) (F.state new.now) }
{}
