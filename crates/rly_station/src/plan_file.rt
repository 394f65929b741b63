//! The file of a plan.

ghost use Rattle.std.specs.Prelude.{◌≡◌, ◌⊎◌, IfErr, IfOk, Option};
ghost use Rattle.rly_core.specs.declared.refusal.Refusal.{Refusal as ARefusal};
ghost use Rattle.rly_plan.specs.Sound.{IsSoundPlan};
ghost use Rattle.rly_plan_syntax.specs.declared.key_path.KeyPath.{KeyPath as AKeyPath};
ghost use Rattle.rly_station.specs.declared.file_fault.SystemWord.{SystemWord as AWord};
ghost use Rattle.rly_station.specs.declared.serve_fault.ServeFault.TheVariants as fault;
ghost use Rattle.rly_station.specs.Faults.{cause_at};

use crate::file_fault::SystemWord;
use crate::serve_fault::ServeFault;
use rly_plan::{Plan, law_plan_is_sound};
use std::alloc::AllocError;
use std::fs;
use std::fs::{File, Files};
use std::io::ErrorKind;

/// Whether at a path is something other than a file or a folder, such as a pipe: its opening could wait for ever.
pub(crate) fn is_special<F: Files>(files: &F, path: &str) -> bool {
    match fs::metadata(files, path) {
        Ok(found) => !found.is_file() && !found.is_dir(),
        Err(_) => false,
    }
}

/// Reads a plan from a file. Returns `Plan` if the file can't be read or isn't UTF-8, and `SpecialPlan` if it is no regular
/// file; a refused plan comes with the location of its first fault.
pub fn read_plan<H: AllocGlobal + Files<File = File>>(
    rt: &H,
    path: &str,
) -> Result<Plan, ServeFault>
    ensures sound { IfOk result (λ plan. IsSoundPlan plan) }
    ensures fault { IfErr result (λ f. ((word : AWord) × (f ≡ fault.Plan word)) ⊎ (f ≡ fault.SpecialPlan)
        ⊎ ((refusal : ARefusal) × (place : Option AKeyPath) × (f ≡ fault.Refused refusal (cause_at place)))) }
{
    if is_special(rt, path) {
        return Err(ServeFault::SpecialPlan);
    }
    match fs::read_to_string(rt, path) {
        Ok(text) => {
            law_plan_is_sound();
            match Plan::read(rt.alloc(), text.as_str()) {
                Ok(plan) => Ok(plan),
                Err(fault) => Err(fault.into()),
            }
        }
        Err(error) if error.kind() == ErrorKind::OutOfMemory => Err(AllocError.into()),
        Err(error) => Err(ServeFault::Plan(SystemWord(error))),
    }
}
